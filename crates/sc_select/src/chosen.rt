ghost use Rattle.std.specs.Prelude.{◌≡◌, ◌<◌, ◌≤◌, ◌∷◌, [], All, IfOk, IfSome, OnOk, Some, filter, find, if◌then◌else◌, length, nat_le};
ghost use Rattle.std.specs.Option.{option_copied};
ghost use Rattle.sc_bits.specs.Rows.{IsAscending};
ghost use Rattle.sc_law.specs.Kinds.{is_atomic};
ghost use Rattle.sc_law.specs.Selection.{choose, chosen_from};
ghost use Rattle.sc_law.specs.Transitions.{transition_paths};
ghost use Rattle.sc_law.specs.Tree.{state_count};
ghost use Rattle.sc_exec.specs.Runs.{running_of, KeepsRows};
ghost use Rattle.sc_eval.specs.Envs.{HasIds};
ghost use Rattle.sc_select.specs.Runs.{IsRunOf};

use crate::enabled::first_enabled;
use sc_base::NoMemory;
use sc_exec::Running;
use sc_tables::Tables;
use sc_types::ShortList;
use std::alloc::Global;

/// Adds a transition that was found, where it wasn't chosen yet.
fn choose(chosen: &mut ShortList, found: Option<u32>) -> Result<(), NoMemory>
    ensures { OnOk result (chosen.new ≡ choose chosen.old found) }
{
    match found {
        Some(tr) => choose_once(chosen, tr),
        None => Ok(()),
    }
}

fn choose_once(chosen: &mut ShortList, tr: u32) -> Result<(), NoMemory>
    ensures { OnOk result (chosen.new ≡ choose chosen.old (Some tr)) }
{
    if chosen.slice().contains(&tr) {
        return Ok(());
    }
    chosen.push(tr)
}

/// Adds what an active state chooses, where it is atomic.
fn add_choice(
    alloc: Global,
    run: &mut Running,
    t: &Tables,
    event: Option<&[u8]>,
    s: u32,
    chosen: &mut ShortList,
) -> Result<(), NoMemory>
    requires ids { HasIds run.old.env }
    requires s { s < state_count t.now }
    requires within { All (λ tr. tr < length (transition_paths t.now)) chosen.old }
    ensures ok { OnOk result (chosen_from t.now (option_copied event.entry) chosen.old
        (if is_atomic t.now s then s ∷ [] else []) (running_of run.old) ≡ (chosen.new, running_of run.new)) }
    ensures within { OnOk result (All (λ tr. tr < length (transition_paths t.now)) chosen.new) }
    ensures kept { KeepsRows run.old run.new }
{
    if !t.is_atomic(s) {
        return Ok(());
    }
    let found = first_enabled(alloc, run, t, event, s)?;
    choose(chosen, found)
}

/// The first active state from a number on.
fn next_active(run: &Running, from: u32) -> Option<u32>
    ensures value { result ≡ find (λ m. nat_le from m) run.now.env.configuration.members }
    ensures within { IfSome result (λ n. (from ≤ n) × (n < run.now.env.configuration.width)) }
    ensures form { IsAscending 0 run.now.env.configuration.width run.now.env.configuration.members }
{
    run.env.configuration.next(from)
}

/// What the active atomic states choose, in document order. The condition of an ancestor's transition is evaluated for
/// each of them.
#[tactic(auto, using(crate::proofs::RunLemmas::runs))]
pub(crate) fn chosen(
    alloc: Global,
    run: &mut Running,
    t: &Tables,
    event: Option<&[u8]>,
) -> Result<ShortList, NoMemory>
    requires run { IsRunOf t.now run.old }
    ensures ok { IfOk result (λ trs. chosen_from t.now (option_copied event.entry) []
        (filter (is_atomic t.now) run.old.env.configuration.members) (running_of run.old) ≡ (trs, running_of run.new)) }
    ensures within { IfOk result (λ trs. All (λ tr. tr < length (transition_paths t.now)) trs) }
    ensures kept { KeepsRows run.old run.new }
{
    let mut chosen = ShortList::new(alloc);
    // The number of the root is past every state's.
    let _root = t.count();
    let mut from = 0;
    while let Some(s) = next_active(run, from) {
        add_choice(alloc, run, t, event, s, &mut chosen)?;
        from = s + 1;
    }
    Ok(chosen)
}
