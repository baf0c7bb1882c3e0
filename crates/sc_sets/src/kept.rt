ghost use Rattle.std.specs.Prelude.{◌≡◌, ◌<◌, ◌&&◌, ◌==◌, ◌++◌, ◌∷◌, [], ℕ, IfOk, OnOk, OnErr, List, filter_map, find, if◌then◌else◌};
ghost use Rattle.std.specs.List.{cons_option, range_with_len};
ghost use Rattle.sc_law.specs.Configurations.{parent_of};
ghost use Rattle.sc_law.specs.Kinds.{is_atomic};
ghost use Rattle.sc_law.specs.Records.{kept_by, record_all, records};
ghost use Rattle.sc_law.specs.Tree.{is_below, state_count};
ghost use Rattle.sc_sets.specs.Conditions.{KeepsStates};

use crate::targets::kept_of;
use sc_base::{NoMemory, Plain, Sequence};
use sc_bits::Row;
use sc_tables::Tables;
use sc_types::Histories;
use std::alloc::Global;

/// Records the histories of all states to be exited, before the first of these is exited. Out of memory, the table
/// stays as it was. SCXML 3.10; Appendix D, exitStates.
#[tactic(auto, unfolding(sc_law::specs::Records::record_all))]
pub fn record_histories(
    alloc: Global,
    t: &Tables,
    conf: &Row,
    exit: &Row,
    h: &mut Histories,
) -> Result<(), NoMemory>
    requires width { conf.now.width ≡ state_count t.now }
    requires exited { exit.now.width ≡ state_count t.now }
    requires kept { KeepsStates t.now h.old }
    ensures ok { OnOk result (h.new ≡ record_all t.now conf.now.members exit.now.members h.old) }
    ensures kept { OnOk result (KeepsStates t.now h.new) }
    ensures err { OnErr result (h.new ≡ h.old) }
{
    // A row holds numbers below its width.
    let _first = conf.next(0);
    *h = recorded(alloc, t, conf, exit, h)?;
    Ok(())
}

fn recorded(
    alloc: Global,
    t: &Tables,
    conf: &Row,
    exit: &Row,
    h: &Histories,
) -> Result<Histories, NoMemory>
    requires width { conf.now.width ≡ state_count t.now }
    requires exited { exit.now.width ≡ state_count t.now }
    ensures { IfOk result (λ r. r
        ≡ filter_map (kept_by t.now conf.now.members exit.now.members h.now) (range_with_len 0 (state_count t.now))) }
{
    // The numbers of states have 32 bits.
    let _count = t.count();
    let mut kept = Sequence::new(alloc);
    for s in t.histories() {
        push_some(&mut kept, kept_by(alloc, t, conf, exit, h, *s)?)?;
    }
    Ok(kept)
}

fn push_some(kept: &mut Histories, item: Option<(u32, Sequence<u32>)>) -> Result<(), NoMemory>
    ensures { OnOk result (kept.new ≡ kept.old ++ cons_option item []) }
{
    match item {
        Some(item) => kept.push(item),
        None => Ok(()),
    }
}

/// What a history keeps; nothing of a state.
fn kept_by(
    alloc: Global,
    t: &Tables,
    conf: &Row,
    exit: &Row,
    h: &Histories,
    s: u32,
) -> Result<Option<(u32, Sequence<u32>)>, NoMemory>
    requires s { s < state_count t.now }
    requires small { state_count t.now < 4294967296 }
    requires width { conf.now.width ≡ state_count t.now }
    requires exited { exit.now.width ≡ state_count t.now }
    ensures { IfOk result (λ r. r ≡ kept_by t.now conf.now.members exit.now.members h.now s) }
{
    if !t.is_history(s) {
        return Ok(None);
    }
    // A row holds numbers below its width.
    let _first = exit.next(0);
    let Some(parent) = t.parent(s) else {
        return earlier(h, s);
    };
    if exit.has(parent) {
        return Ok(Some((s, records(alloc, t, conf, s, parent)?)));
    }
    earlier(h, s)
}

/// What a history recorded before.
fn earlier(h: &Histories, s: u32) -> Result<Option<(u32, Sequence<u32>)>, NoMemory>
    ensures { IfOk result (λ r. r ≡ find (λ (kept : ℕ × List ℕ). kept.0 == s) h.now) }
{
    match kept_of(h, s) {
        Some(kept) => Ok(Some((kept.0, kept.1.copy()?))),
        None => Ok(None),
    }
}

/// The active states that a history of this parent records.
fn records(
    alloc: Global,
    t: &Tables,
    conf: &Row,
    s: u32,
    parent: u32,
) -> Result<Sequence<u32>, NoMemory>
    requires s { s < state_count t.now }
    requires width { conf.now.width ≡ state_count t.now }
    requires parent { parent < state_count t.now }
    requires own { parent ≡ parent_of t.now s }
    requires small { state_count t.now < 4294967296 }
    ensures { IfOk result (λ ss. ss ≡ records t.now conf.now.members s) }
{
    let deep = t.is_deep(s);
    let mut states = Sequence::new(alloc);
    let mut from = 0;
    while let Some(a) = conf.next(from) {
        push_if(&mut states, is_recorded(t, deep, parent, a), a)?;
        from = a + 1;
    }
    Ok(states)
}

fn push_if(states: &mut Sequence<u32>, test: bool, s: u32) -> Result<(), NoMemory>
    ensures { OnOk result (states.new ≡ states.old ++ (if test then s ∷ [] else [])) }
{
    if test { states.push(s) } else { Ok(()) }
}

/// Whether a deep or a shallow history of this parent records an active state.
fn is_recorded(t: &Tables, deep: bool, parent: u32, s: u32) -> bool
    requires s { s < state_count t.now }
    requires parent { parent < state_count t.now }
    ensures { result ≡ (if deep then is_below t.now s parent && is_atomic t.now s else parent_of t.now s == parent) }
{
    if deep {
        t.is_below(s, parent) && t.is_atomic(s)
    } else {
        match t.parent(s) {
            Some(own) => own == parent,
            None => false,
        }
    }
}
