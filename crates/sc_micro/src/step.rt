ghost use Rattle.std.specs.Prelude.{◌≡◌, ◌<◌, All, IfOk, OnOk, length};
ghost use Rattle.sc_base.specs.Folds.{each};
ghost use Rattle.sc_law.specs.Entering.{enter};
ghost use Rattle.sc_law.specs.Entry.{first_entry};
ghost use Rattle.sc_law.specs.Leaving.{exit_states};
ghost use Rattle.sc_law.specs.Microstep.{microstep, run_content};
ghost use Rattle.sc_law.specs.Sets.{exit_set};
ghost use Rattle.sc_law.specs.Transitions.{transition_paths};
ghost use Rattle.sc_law.specs.Tree.{state_count};
ghost use Rattle.sc_eval.specs.Envs.{HasIds};
ghost use Rattle.sc_exec.specs.Runs.{running_of, KeepsRows};
ghost use Rattle.sc_law.specs.Fitting.{FitsRun};
ghost use Rattle.sc_sets.specs.Conditions.{KeepsStates};
ghost use Rattle.sc_sets.specs.Union.{AreKept};
ghost use Rattle.sc_select.specs.Runs.{IsRunOf, run_state};

use crate::entering::enter;
use crate::leaving::{leave_all, members};
use crate::staying::{are_in_order, are_targetless};
use sc_base::{NoMemory, Plain};
use sc_bits::Row;
use sc_exec::{Running, run_block};
use sc_select::exit_union;
use sc_sets::{Histories, entry_rows, exit_row, first_rows, record_histories};
use sc_tables::Tables;
use std::alloc::Global;

/// Takes transitions: states are exited, then the content of the transitions runs, then states are entered. Without
/// transitions nothing changes. Transitions that selection keeps leave a run that fits its chart as one that fits, so
/// that its configuration is a legal one. Out of memory, the run stands at some point of the microstep. SCXML Appendix
/// D, microstep.
#[inline(always)]
pub fn microstep(
    alloc: Global,
    run: &mut Running,
    t: &Tables,
    h: &mut Histories,
    trs: &[u32],
) -> Result<(), NoMemory>
    requires run { IsRunOf t.now run.old }
    requires kept { KeepsStates t.now h.old }
    requires trs { All (λ tr. tr < length (transition_paths t.now)) trs.now }
    ensures ok { OnOk result (microstep t.now trs.now (run_state run.old h.old) ≡ run_state run.new h.new) }
    ensures run { IsRunOf t.now run.new }
    ensures kept { OnOk result (KeepsStates t.now h.new) }
    ensures fits { AreKept t.now h.old run.old.env.configuration.members trs.now
        → FitsRun t.now (run_state run.old h.old) → OnOk result (FitsRun t.now (run_state run.new h.new)) }
{
    take(alloc, run, t, h, trs)?;
    Ok(())
}

#[tactic(auto, using(sc_select::proofs::RunLemmas::runs), unfolding(sc_law::specs::Microstep::microstep))]
fn take(
    alloc: Global,
    run: &mut Running,
    t: &Tables,
    h: &mut Histories,
    trs: &[u32],
) -> Result<(), NoMemory>
    requires run { IsRunOf t.now run.old }
    requires kept { KeepsStates t.now h.old }
    requires trs { All (λ tr. tr < length (transition_paths t.now)) trs.now }
    ensures ok { OnOk result (microstep t.now trs.now (run_state run.old h.old) ≡ run_state run.new h.new) }
    ensures run { IsRunOf t.now run.new }
    ensures kept { OnOk result (KeepsStates t.now h.new) }
{
    if trs.is_empty() {
        return Ok(());
    }
    if are_targetless(t, trs) && are_in_order(t, h) {
        return run_contents(alloc, run, t, trs);
    }
    let after = exit_states(alloc, run, t, h, trs)?;
    run_contents(alloc, run, t, trs)?;
    let entry = entry_rows(alloc, t, trs, h, &after)?;
    enter(alloc, run, t, &entry)?;
    *h = after;
    Ok(())
}

/// Exits what transitions exit; gives the histories after that. SCXML Appendix D, exitStates.
#[tactic(auto, using(sc_select::proofs::RunLemmas::runs), unfolding(sc_law::specs::Leaving::exit_states))]
fn exit_states(
    alloc: Global,
    run: &mut Running,
    t: &Tables,
    h: &Histories,
    trs: &[u32],
) -> Result<Histories, NoMemory>
    requires run { IsRunOf t.now run.old }
    requires kept { KeepsStates t.now h.now }
    requires trs { All (λ tr. tr < length (transition_paths t.now)) trs.now }
    ensures ok { IfOk result (λ after. exit_states t.now
        (exit_set t.now h.now trs.now run.old.env.configuration.members) (run_state run.old h.now)
        ≡ run_state run.new after) }
    ensures run { IsRunOf t.now run.new }
    ensures kept { IfOk result (KeepsStates t.now) }
{
    let gone = exited(alloc, t, h, &run.env.configuration, trs)?;
    let mut after = h.copy()?;
    record_histories(alloc, t, &run.env.configuration, &gone, &mut after)?;
    run.todo.minus(&gone);
    leave_all(alloc, run, t, members(alloc, t, &gone)?)?;
    Ok(after)
}

/// The active states that transitions exit.
fn exited(
    alloc: Global,
    t: &Tables,
    h: &Histories,
    conf: &Row,
    trs: &[u32],
) -> Result<Row, NoMemory>
    requires kept { KeepsStates t.now h.now }
    requires trs { All (λ tr. tr < length (transition_paths t.now)) trs.now }
    requires width { conf.now.width ≡ state_count t.now }
    ensures width { IfOk result (λ r. r.width ≡ state_count t.now) }
    ensures members { IfOk result (λ r. r.members ≡ exit_set t.now h.now trs.now conf.now.members) }
{
    let mut all = Row::new(alloc, t.count())?;
    match trs {
        [tr] => exit_row(t, *tr, h, conf, &mut all),
        _ => {
            let mut own = Row::new(alloc, t.count())?;
            exit_union(t, trs, h, conf, &mut own, &mut all);
        }
    }
    Ok(all)
}

/// Runs the content of transitions, each as a block of its own. SCXML Appendix D, executeTransitionContent.
#[tactic(auto, using(sc_exec::proofs::Kept::keeping))]
fn run_contents(alloc: Global, run: &mut Running, t: &Tables, trs: &[u32]) -> Result<(), NoMemory>
    requires ids { HasIds run.old.env }
    requires trs { All (λ tr. tr < length (transition_paths t.now)) trs.now }
    ensures ok { OnOk result (running_of run.new ≡ each (run_content t.now) trs.now (running_of run.old)) }
    ensures kept { KeepsRows run.old run.new }
{
    for tr in trs {
        run_block(alloc, run, t.transition(*tr).kids.slice())?;
    }
    Ok(())
}

/// Enters the document. SCXML 3.2.
pub fn enter_first(alloc: Global, run: &mut Running, t: &Tables) -> Result<(), NoMemory>
    requires run { IsRunOf t.now run.old }
    ensures ok { OnOk result (enter t.now (first_entry t.now) (running_of run.old) ≡ running_of run.new) }
    ensures run { IsRunOf t.now run.new }
{
    let entry = first_rows(alloc, t)?;
    enter(alloc, run, t, &entry)
}
