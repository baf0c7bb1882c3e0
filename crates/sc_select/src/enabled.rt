ghost use Rattle.std.specs.Prelude.{◌≡◌, ◌<◌, All, IfOk, IfSome, false, if◌then◌else◌, length};
ghost use Rattle.std.specs.Option.{option_copied};
ghost use Rattle.sc_law.specs.Outcomes.{holds};
ghost use Rattle.sc_law.specs.Selection.{candidates, first_enabled};
ghost use Rattle.sc_law.specs.Transitions.{condition, is_match, transition_paths};
ghost use Rattle.sc_law.specs.Tree.{state_count};
ghost use Rattle.sc_eval.specs.Envs.{HasIds};
ghost use Rattle.sc_exec.specs.Runs.{running_of, KeepsRows};

use crate::matching::is_match;
use sc_base::NoMemory;
use sc_exec::{Running, holds};
use sc_tables::Tables;
use sc_types::Attribute;
use std::alloc::Global;

/// Whether a transition matches and its condition holds. The condition of one that doesn't match is not evaluated.
fn is_enabled(
    alloc: Global,
    run: &mut Running,
    t: &Tables,
    event: Option<&[u8]>,
    tr: u32,
) -> Result<bool, NoMemory>
    requires ids { HasIds run.old.env }
    requires tr { tr < length (transition_paths t.now) }
    ensures ok { IfOk result (λ b. (if is_match t.now (option_copied event.entry) tr
        then holds (condition t.now tr) (running_of run.old) else (false, running_of run.old))
        ≡ (b, running_of run.new)) }
    ensures kept { KeepsRows run.old run.new }
{
    if !is_match(t, event, tr) {
        return Ok(false);
    }
    holds(alloc, run, t.transition(tr).expr(Attribute::Cond))
}

/// The first of these transitions that matches and whose condition holds.
#[tactic(auto, using(sc_exec::proofs::Kept::keeping))]
fn first_of(
    alloc: Global,
    run: &mut Running,
    t: &Tables,
    event: Option<&[u8]>,
    trs: &[u32],
) -> Result<Option<u32>, NoMemory>
    requires ids { HasIds run.old.env }
    requires trs { All (λ tr. tr < length (transition_paths t.now)) trs.now }
    ensures ok { IfOk result (λ found. first_enabled t.now (option_copied event.entry) trs.now (running_of run.old)
        ≡ (found, running_of run.new)) }
    ensures within { IfOk result (λ found. IfSome found (λ tr. tr < length (transition_paths t.now))) }
    ensures kept { KeepsRows run.old run.new }
{
    for tr in trs {
        if is_enabled(alloc, run, t, event, *tr)? {
            return Ok(Some(*tr));
        }
    }
    Ok(None)
}

/// What an atomic state chooses: of its own transitions the first that matches and whose condition holds, else of those
/// of its ancestors, from the nearest.
#[tactic(auto, using(sc_exec::proofs::Kept::keeping))]
pub(crate) fn first_enabled(
    alloc: Global,
    run: &mut Running,
    t: &Tables,
    event: Option<&[u8]>,
    s: u32,
) -> Result<Option<u32>, NoMemory>
    requires ids { HasIds run.old.env }
    requires s { s < state_count t.now }
    ensures ok { IfOk result (λ found. first_enabled t.now (option_copied event.entry) (candidates t.now s)
        (running_of run.old) ≡ (found, running_of run.new)) }
    ensures within { IfOk result (λ found. IfSome found (λ tr. tr < length (transition_paths t.now))) }
    ensures kept { KeepsRows run.old run.new }
{
    let mut next = Some(s);
    while let Some(state) = next {
        let found = first_of(alloc, run, t, event, t.transitions(state))?;
        if found.is_some() {
            return Ok(found);
        }
        next = t.parent(state);
    }
    Ok(None)
}
