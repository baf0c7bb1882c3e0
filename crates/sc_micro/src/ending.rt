ghost use Rattle.std.specs.Prelude.{◌≡◌, ◌<◌, ◌&&◌, ◌==◌, All, IfOk, IfSome, find, true};
ghost use Rattle.sc_law.specs.Configurations.{parent_of};
ghost use Rattle.sc_law.specs.Kinds.{is_final};
ghost use Rattle.sc_law.specs.Tree.{root, state_count};
ghost use Rattle.sc_law.specs.Turn.{exit_all};
ghost use Rattle.sc_exec.specs.Runs.{running_of};
ghost use Rattle.sc_select.specs.Runs.{IsRunOf};

use crate::done::done_data;
use crate::leaving::{leave_all, members};
use sc_base::NoMemory;
use sc_exec::Running;
use sc_tables::Tables;
use sc_types::Data;
use std::alloc::Global;

/// Exits all active states, from the last, and records no history; gives the data of the first final under the root
/// that was active. Out of memory, the run stands at some point of that. SCXML Appendix D, exitInterpreter.
#[tactic(auto, using(sc_select::proofs::RunLemmas::runs))]
pub fn exit_all(alloc: Global, run: &mut Running, t: &Tables) -> Result<Data, NoMemory>
    requires run { IsRunOf t.now run.old }
    ensures ok { IfOk result (λ payload. exit_all t.now (running_of run.old) ≡ (payload, running_of run.new)) }
    ensures run { IsRunOf t.now run.new }
{
    let states = members(alloc, t, &run.env.configuration)?;
    let last = top_final(t, states.slice());
    leave_all(alloc, run, t, states)?;
    match last {
        Some(s) => done_data(alloc, run, t, s),
        None => Ok(Data::Absent),
    }
}

/// The first of these states that is a final under the root.
fn top_final(t: &Tables, states: &[u32]) -> Option<u32>
    requires { All (λ s. s < state_count t.now) states.now }
    ensures value { result ≡ find (λ s. is_final t.now s && parent_of t.now s == root t.now) states.now }
    ensures within { IfSome result (λ s. (s < state_count t.now) × (is_final t.now s ≡ true)) }
{
    for s in states {
        if t.is_final(*s) && is_top(t, *s) {
            return Some(*s);
        }
    }
    None
}

fn is_top(t: &Tables, s: u32) -> bool
    requires { s < state_count t.now }
    ensures { result ≡ (parent_of t.now s == root t.now) }
{
    t.parent(s).is_none()
}
