ghost use Rattle.std.specs.Prelude.{◌≡◌, ◌+◌, ◌<◌, ◌≤◌, ℕ, Some, All, not, filter, count_by, ◌∷◌, length, remove, slice_get};
ghost use Rattle.slab.specs.Slab.{get as send_at, slab_len, HasRoomFor};
ghost use Rattle.sc_types.specs.Sends.{with_send};
ghost use Rattle.sc_types.specs.declared.host.TimerImage.{TimerImage};
ghost use Rattle.sc_timers.specs.Order.{picks, sends_of, AreKept, ArePair, IsPicked};

use crate::timed::{Pick, Timed, by_due, by_session, is_picked, session_rank};
use sc_ranks::Ranks;
use slab::Slab;

/// The pending sends, with their keys ranked by due time and by session.
#[derive(Drop)]
pub struct Kept {
    pub sends: Slab<Timed>,
    pub due: Ranks,
    pub session: Ranks,
}

pub fn add(kept: &mut Kept, send: Timed)
    requires kept { AreKept (send_at kept.old.sends) kept.old.due.entries kept.old.session.entries }
    requires slot { HasRoomFor kept.old.sends 1 }
    requires due { 0 < kept.old.due.spare }
    requires session { 0 < kept.old.session.spare }
    requires newest { All (λ s. s.number < send.number) (sends_of (send_at kept.old.sends) kept.old.due.entries) }
    ensures kept { AreKept (send_at kept.new.sends) kept.new.due.entries kept.new.session.entries }
    ensures sends { sends_of (send_at kept.new.sends) kept.new.due.entries
        ≡ with_send send (sends_of (send_at kept.old.sends) kept.old.due.entries) }
    ensures due { kept.new.due.spare + 1 ≡ kept.old.due.spare }
    ensures session { kept.new.session.spare + 1 ≡ kept.old.session.spare }
    ensures len { slab_len kept.new.sends ≡ slab_len kept.old.sends + 1 }
    ensures capacity { kept.new.sends.capacity ≡ kept.old.sends.capacity }
{
    let due = by_due(0, &send);
    let session = by_session(0, &send);
    let key = kept.sends.insert_reserved(send);
    let place = kept.due.place_of(due.first, due.number);
    kept.due.insert(place, sc_ranks::Entry { key, ..due });
    let place = kept.session.place_of(session.first, session.number);
    kept.session
        .insert(place, sc_ranks::Entry { key, ..session });
}

// Takes the send out whose entries stand at these places.
fn take(kept: &mut Kept, due: usize, session: usize) -> Timed
    requires kept { AreKept (send_at kept.old.sends) kept.old.due.entries kept.old.session.entries }
    requires pair { ArePair kept.old.due.entries kept.old.session.entries due session }
    ensures kept { AreKept (send_at kept.new.sends) kept.new.due.entries kept.new.session.entries }
    ensures send { slice_get (sends_of (send_at kept.old.sends) kept.old.due.entries) due ≡ Some result }
    ensures sends { sends_of (send_at kept.new.sends) kept.new.due.entries
        ≡ remove (sends_of (send_at kept.old.sends) kept.old.due.entries) due }
    ensures session { kept.new.session.entries ≡ remove kept.old.session.entries session }
    ensures fewer { (k : ℕ) (t : TimerImage) → send_at kept.new.sends k ≡ Some t → send_at kept.old.sends k ≡ Some t }
    ensures due_spare { kept.old.due.spare ≤ kept.new.due.spare }
    ensures session_spare { kept.old.session.spare ≤ kept.new.session.spare }
    ensures len { slab_len kept.new.sends ≤ slab_len kept.old.sends }
    ensures capacity { kept.new.sends.capacity ≡ kept.old.sends.capacity }
{
    let key = kept.due.remove(due).key;
    kept.session.remove(session);
    match kept.sends.try_remove(key) {
        Some(send) => send,
        None => unreachable!(),
    }
}

// Where the send stands by session that stands there by due time.
fn session_place(kept: &Kept, due: usize) -> usize
    requires kept { AreKept (send_at kept.now.sends) kept.now.due.entries kept.now.session.entries }
    requires due { due < length kept.now.due.entries }
    ensures { ArePair kept.now.due.entries kept.now.session.entries due result }
{
    let Some(entry) = kept.due.get(due) else {
        unreachable!();
    };
    let Some(send) = kept.sends.get(entry.key) else {
        unreachable!();
    };
    kept.session
        .place_of(session_rank(send.session.bytes()), send.number)
}

/// Takes the first send out.
pub fn take_first(kept: &mut Kept) -> Timed
    requires kept { AreKept (send_at kept.old.sends) kept.old.due.entries kept.old.session.entries }
    requires some { 0 < length kept.old.due.entries }
    ensures kept { AreKept (send_at kept.new.sends) kept.new.due.entries kept.new.session.entries }
    ensures first { sends_of (send_at kept.old.sends) kept.old.due.entries
        ≡ result ∷ sends_of (send_at kept.new.sends) kept.new.due.entries }
    ensures due { kept.old.due.spare ≤ kept.new.due.spare }
    ensures session { kept.old.session.spare ≤ kept.new.session.spare }
    ensures len { slab_len kept.new.sends ≤ slab_len kept.old.sends }
    ensures capacity { kept.new.sends.capacity ≡ kept.old.sends.capacity }
{
    let session = session_place(kept, 0);
    take(kept, 0, session)
}

// Where the send stands by due time that stands there by session.
fn due_place(kept: &Kept, session: usize) -> usize
    requires kept { AreKept (send_at kept.now.sends) kept.now.due.entries kept.now.session.entries }
    requires session { session < length kept.now.session.entries }
    ensures { ArePair kept.now.due.entries kept.now.session.entries result session }
{
    let Some(entry) = kept.session.get(session) else {
        unreachable!();
    };
    let Some(send) = kept.sends.get(entry.key) else {
        unreachable!();
    };
    kept.due.place_of(send.due, send.number)
}

// Whether the send is picked that stands there by session.
fn is_picked_at(kept: &Kept, session: usize, pick: Pick<'_>) -> bool
    requires kept { AreKept (send_at kept.now.sends) kept.now.due.entries kept.now.session.entries }
    requires session { session < length kept.now.session.entries }
    ensures { IsPicked result (picks pick.entry) (send_at kept.now.sends) kept.now.session.entries session }
{
    let Some(entry) = kept.session.get(session) else {
        unreachable!();
    };
    let Some(send) = kept.sends.get(entry.key) else {
        unreachable!();
    };
    is_picked(pick, send)
}

/// How many sends are picked.
pub fn count_picked(kept: &Kept, pick: Pick<'_>) -> u64
    requires kept { AreKept (send_at kept.now.sends) kept.now.due.entries kept.now.session.entries }
    ensures { result ≡ count_by (picks pick.entry) (sends_of (send_at kept.now.sends) kept.now.due.entries) }
{
    let rank = session_rank(pick.session);
    let first = kept.session.place_of(rank, 0);
    let end = kept.session.place_of(rank + 1, 0);
    let mut count = 0;
    let mut place = end;
    while place > first {
        place -= 1;
        if is_picked_at(kept, place, pick) {
            count += 1;
        }
    }
    count
}

/// Takes the picked sends out, and counts them.
pub fn remove_picked(kept: &mut Kept, pick: Pick<'_>) -> u64
    requires kept { AreKept (send_at kept.old.sends) kept.old.due.entries kept.old.session.entries }
    ensures kept { AreKept (send_at kept.new.sends) kept.new.due.entries kept.new.session.entries }
    ensures count { result ≡ count_by (picks pick.entry) (sends_of (send_at kept.old.sends) kept.old.due.entries) }
    ensures sends { sends_of (send_at kept.new.sends) kept.new.due.entries
        ≡ filter (λ s. not (picks pick.entry s)) (sends_of (send_at kept.old.sends) kept.old.due.entries) }
    ensures due { kept.old.due.spare ≤ kept.new.due.spare }
    ensures session { kept.old.session.spare ≤ kept.new.session.spare }
    ensures len { slab_len kept.new.sends ≤ slab_len kept.old.sends }
    ensures capacity { kept.new.sends.capacity ≡ kept.old.sends.capacity }
{
    let rank = session_rank(pick.session);
    let first = kept.session.place_of(rank, 0);
    let mut place = kept.session.place_of(rank + 1, 0);
    let before = kept.due.len();
    while place > first {
        place -= 1;
        if is_picked_at(kept, place, pick) {
            let due = due_place(kept, place);
            drop(take(kept, due, place));
        }
    }
    (before - kept.due.len()) as u64
}
