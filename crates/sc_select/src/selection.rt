ghost use Rattle.std.specs.Prelude.{◌≡◌, ◌<◌, All, IfOk, None, Some, length};
ghost use Rattle.std.specs.Option.{option_copied};
ghost use Rattle.sc_law.specs.Selection.{select};
ghost use Rattle.sc_law.specs.Transitions.{transition_paths};
ghost use Rattle.sc_exec.specs.Runs.{KeepsRows};
ghost use Rattle.sc_sets.specs.Conditions.{KeepsStates};
ghost use Rattle.sc_select.specs.Runs.{IsRunOf, run_state};

use crate::chosen::chosen;
use crate::kept::kept;
use sc_base::NoMemory;
use sc_exec::Running;
use sc_sets::Histories;
use sc_tables::Tables;
use sc_types::ShortList;
use std::alloc::Global;

/// The transitions that are taken without an event. A condition that fails puts `error.execution` into the internal
/// queue. SCXML Appendix D, selectEventlessTransitions.
pub fn eventless(
    alloc: Global,
    run: &mut Running,
    t: &Tables,
    h: &Histories,
) -> Result<ShortList, NoMemory>
    requires run { IsRunOf t.now run.old }
    requires kept { KeepsStates t.now h.now }
    ensures ok { IfOk result (λ trs. select t.now None (run_state run.old h.now)
        ≡ record { transitions = trs; run = run_state run.new h.now }) }
    ensures numbers { IfOk result (λ trs. All (λ tr. tr < length (transition_paths t.now)) trs) }
    ensures kept { KeepsRows run.old run.new }
{
    select(alloc, run, t, h, None)
}

/// The transitions that are taken for an event of this name. A condition that fails puts `error.execution` into the
/// internal queue. SCXML Appendix D, selectTransitions.
pub fn for_event(
    alloc: Global,
    run: &mut Running,
    t: &Tables,
    h: &Histories,
    name: &[u8],
) -> Result<ShortList, NoMemory>
    requires run { IsRunOf t.now run.old }
    requires kept { KeepsStates t.now h.now }
    ensures ok { IfOk result (λ trs. select t.now (Some name.now) (run_state run.old h.now)
        ≡ record { transitions = trs; run = run_state run.new h.now }) }
    ensures numbers { IfOk result (λ trs. All (λ tr. tr < length (transition_paths t.now)) trs) }
    ensures kept { KeepsRows run.old run.new }
{
    select(alloc, run, t, h, Some(name))
}

#[tactic(auto, using(crate::proofs::RunLemmas::runs), unfolding(sc_law::specs::Selection::select))]
fn select(
    alloc: Global,
    run: &mut Running,
    t: &Tables,
    h: &Histories,
    event: Option<&[u8]>,
) -> Result<ShortList, NoMemory>
    requires run { IsRunOf t.now run.old }
    requires kept { KeepsStates t.now h.now }
    ensures ok { IfOk result (λ trs. select t.now (option_copied event.entry) (run_state run.old h.now)
        ≡ record { transitions = trs; run = run_state run.new h.now }) }
    ensures numbers { IfOk result (λ trs. All (λ tr. tr < length (transition_paths t.now)) trs) }
    ensures kept { KeepsRows run.old run.new }
{
    let chosen = chosen(alloc, run, t, event)?;
    kept(alloc, t, h, &run.env.configuration, chosen)
}
