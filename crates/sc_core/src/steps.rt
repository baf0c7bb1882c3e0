ghost use Rattle.std.specs.Prelude.{◌≡◌, ◌+◌, ◌^◌, ◌<◌, ◌≤◌, Some, IfOk, length, option_map, slice_get};
ghost use Rattle.sc_core.specs.Bodies.{Agrees, image};
ghost use Rattle.sc_machine.specs.Commands.{step_turn};
ghost use Rattle.sc_machine.specs.Deliveries.{deliver_all};
ghost use Rattle.sc_core.specs.Drafts.{AreNumbered, DraftsAll, IsBase, stepper};
ghost use Rattle.sc_core.specs.Preparing.{InstallNone, Prepares};
ghost use Rattle.sc_types.specs.declared.host.HostImage.{HostImage};
ghost use Rattle.sc_types.specs.declared.host.SessionImage.{SessionImage};

use crate::body::Body;
use crate::change_list::ChangeList;
use crate::cues::name_of;
use crate::draft::Draft;
use crate::newborns::with_rooms;
use crate::prepared::Prepared;
use sc_base::{BoxedSequence, NoMemory, Sequence};
use sc_law::TurnResult;
use sc_types::{Cue, Effect, Reply, SessionState};
use std::alloc::Global;

/// How many changes a step makes at most, where its effects and its end make so many. More than can be counted are out
/// of memory.
fn most_changes(more: usize) -> Result<usize, NoMemory>
    ensures { IfOk result (λ n. n ≡ more + 3) }
{
    more.checked_add(3).ok_or(NoMemory)
}

impl<P: Drop> Body<P> {
    /// Prepares what the effects of a turn do, one after another.
    fn draft_effects(
        &self,
        alloc: Global,
        place: usize,
        after: &SessionState,
        effects: Sequence<Effect>,
    ) -> Result<Draft<P>, NoMemory>
        requires agrees { Agrees self.now }
        requires within { place < length self.now.sessions.items }
        requires there { option_map (λ (s : SessionImage). s.state.session) (slice_get (image self.now).sessions place)
            ≡ Some after.now.session }
        requires events { self.now.events + length effects < 2 ^ 128 }
        ensures all { IfOk result (λ d. (g : HostImage) → IsBase (image self.now) place after.now g
            → DraftsAll (stepper after.now.session place) g d (deliver_all g place effects)) }
        ensures number { IfOk result (λ d. d.events ≤ self.now.events + length effects) }
    {
        let mut draft = Draft::new(alloc, self.events, self.delayed);
        for effect in effects.into_vec() {
            self.draft_effect(alloc, &mut draft, place, after, effect)?;
        }
        Ok(draft)
    }

    /// Prepares the step of the session at a place, which has this cue and whose turn gives this.
    pub(crate) fn draft_turn(
        &self,
        alloc: Global,
        place: usize,
        cue: &Cue,
        given: TurnResult,
    ) -> Result<Prepared<P>, NoMemory>
        requires agrees { Agrees self.now }
        requires commands { self.now.commands + 1 < 2 ^ 64 }
        requires events { self.now.events + 2 ^ 64 < 2 ^ 128 }
        requires numbers { AreNumbered (image self.now) }
        requires within { place < length self.now.sessions.items }
        requires there { option_map (λ (s : SessionImage). s.state.session) (slice_get (image self.now).sessions place)
            ≡ Some given.after.session }
        ensures step { IfOk result (λ p. (s : SessionImage) → slice_get (image self.now).sessions place ≡ Some s
            → Prepares (step_turn (image self.now) place s cue.now given) (image self.now) p) }
        ensures none { IfOk result (λ p. InstallNone p.changes) }
    {
        let (after, effects, logs) = given.into_parts();
        // A length fits a usize, so the numbers of events cannot run out.
        let _count = effects.len();
        let mut draft = self.draft_effects(alloc, place, after.get(), effects)?;
        self.draft_end(alloc, &mut draft, place, after.get())?;
        let count = most_changes(draft.changes.len())?;
        let more = with_rooms(alloc, draft.changes, self.sessions.len(), count)?;
        Ok(Prepared {
            changes: ChangeList::of_step(place, cue, after, more),
            reply: Reply::Stepped(name_of(cue)),
            logs: BoxedSequence::new(alloc, logs)?,
            sent: draft.sent,
        })
    }
}
