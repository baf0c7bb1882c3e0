ghost use Rattle.std.specs.Prelude.{◌≡◌, ◌<◌, ◌++◌, All, IfOk, OnOk, false, filter, map, not};
ghost use Rattle.std.specs.List.{list_any};
ghost use Rattle.sc_types.specs.declared.effect.Effect.TheVariants as effect;
ghost use Rattle.sc_types.specs.declared.session.Invoked.{Invoked};
ghost use Rattle.sc_law.specs.Leaving.{cancelled, is_of, leave, leave_all};
ghost use Rattle.sc_law.specs.Tree.{state_count};
ghost use Rattle.sc_exec.specs.Runs.{running_of, KeepsRows};
ghost use Rattle.sc_select.specs.Runs.{IsRunOf};

use crate::blocks::{kids_of, run_tagged};
use sc_base::{NoMemory, Plain, Sequence};
use sc_bits::Row;
use sc_exec::Running;
use sc_tables::Tables;
use sc_types::{Effect, Invoked, ShortList, Tag};
use std::alloc::Global;

/// The members of a row of states, ascending.
#[inline(always)]
pub fn members(alloc: Global, t: &Tables, row: &Row) -> Result<ShortList, NoMemory>
    requires { row.now.width ≡ state_count t.now }
    ensures value { IfOk result (λ ms. ms ≡ row.now.members) }
    ensures within { IfOk result (λ ms. All (λ m. m < state_count t.now) ms) }
{
    // The number of the root is past every state's.
    let _root = t.count();
    let mut members = ShortList::new(alloc);
    let mut from = 0;
    while let Some(member) = row.next(from) {
        members.push(member)?;
        from = member + 1;
    }
    Ok(members)
}

/// Exits these states, from the last.
#[tactic(auto, using(sc_select::proofs::RunLemmas::runs))]
pub(crate) fn leave_all(
    alloc: Global,
    run: &mut Running,
    t: &Tables,
    states: ShortList,
) -> Result<(), NoMemory>
    requires run { IsRunOf t.now run.old }
    requires states { All (λ s. s < state_count t.now) states }
    ensures ok { OnOk result (running_of run.new ≡ leave_all t.now states (running_of run.old)) }
    ensures run { IsRunOf t.now run.new }
{
    let mut left = states;
    while let Some(s) = left.pop() {
        leave(alloc, run, t, s)?;
    }
    Ok(())
}

/// Exits one state: its `<onexit>` blocks run while it is still active, its invokes are cancelled, and only then it is
/// removed. SCXML 3.9 and 6.4.3.
#[tactic(auto, using(sc_select::proofs::RunLemmas::runs))]
fn leave(alloc: Global, run: &mut Running, t: &Tables, s: u32) -> Result<(), NoMemory>
    requires run { IsRunOf t.now run.old }
    requires s { s < state_count t.now }
    ensures ok { OnOk result (running_of run.new ≡ leave t.now s (running_of run.old)) }
    ensures run { IsRunOf t.now run.new }
{
    run_tagged(alloc, run, Tag::OnExit, kids_of(t, s))?;
    cancel_invokes(alloc, run, s)?;
    run.env.configuration.take(s);
    Ok(())
}

/// Asks the host to cancel the invokes of a state, in the order in which they were started. SCXML 6.4.3.
fn cancel_invokes(alloc: Global, run: &mut Running, s: u32) -> Result<(), NoMemory>
    ensures ok { OnOk result (running_of run.new ≡ cancelled s (running_of run.old)) }
    ensures kept { KeepsRows run.old run.new }
{
    if !has_invokes(run.invokes.slice(), s) {
        return Ok(());
    }
    cancel_each(&mut run.effects, run.invokes.slice(), s)?;
    run.invokes = invokes_of_others(alloc, run.invokes.slice(), s)?;
    Ok(())
}

fn has_invokes(invokes: &[Invoked], s: u32) -> bool
    ensures { result ≡ list_any (is_of s) invokes.now }
{
    invokes.iter().any(|invoked| invoked.state == s)
}

fn cancel_each(effects: &mut Sequence<Effect>, invokes: &[Invoked], s: u32) -> Result<(), NoMemory>
    ensures { OnOk result (effects.new
        ≡ effects.old ++ map (λ (i : Invoked). effect.CancelChild i.child) (filter (is_of s) invokes.now)) }
{
    for invoked in invokes {
        if invoked.state == s {
            let child = invoked.child.copy()?;
            effects.push(Effect::CancelChild { child })?;
        }
    }
    Ok(())
}

fn invokes_of_others(
    alloc: Global,
    invokes: &[Invoked],
    s: u32,
) -> Result<Sequence<Invoked>, NoMemory>
    ensures { IfOk result (λ others. others ≡ filter (λ i. not (is_of s i)) invokes.now) }
{
    let mut others = Sequence::new(alloc);
    for invoked in invokes {
        if invoked.state != s {
            others.push(invoked.copy()?)?;
        }
    }
    Ok(others)
}
