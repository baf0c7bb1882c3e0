ghost use Rattle.std.specs.Prelude.{◌≡◌, IfOk};
ghost use Rattle.std.specs.Option.{option_copied};
ghost use Rattle.sc_law.specs.Outcomes.{holds};
ghost use Rattle.sc_eval.specs.Envs.{HasIds};
ghost use Rattle.sc_exec.specs.Runs.{running_of, KeepsRows};

use crate::events::enqueue_failure;
use crate::running::Running;
use crate::values::value_of;
use sc_base::{NoMemory, SharedBytes};
use sc_types::{Expr, Value};
use std::alloc::Global;

/// Whether a condition holds; none always does. One that has no value or is no truth value counts as false, and
/// `error.execution` is enqueued. SCXML 5.9.1.
#[tactic(auto, unfolding(sc_law::specs::Outcomes::holds))]
pub fn holds(alloc: Global, run: &mut Running, condition: Option<&Expr>) -> Result<bool, NoMemory>
    requires { HasIds run.old.env }
    ensures ok { IfOk result (λ b. holds (option_copied condition.entry) (running_of run.old)
        ≡ (b, running_of run.new)) }
    ensures kept { KeepsRows run.old run.new }
{
    let Some(code) = condition else {
        return Ok(true);
    };
    match value_of(alloc, &run.env, code)? {
        Some(Value::Bool(truth)) => Ok(truth),
        _ => {
            enqueue_failure(alloc, run, SharedBytes::empty())?;
            Ok(false)
        }
    }
}
