ghost use Rattle.std.specs.Prelude.{ℕ, ◌≡◌, ◌==◌, if◌then◌else◌, Some, IfOk, length, option_map, slice_get};
ghost use Rattle.std.specs.Option.{option_copied};
ghost use Rattle.sc_core.specs.Aims.{AimsWithin, aim, aim_found, invokeid_for};
ghost use Rattle.sc_core.specs.Births.{IsGrown, birth_place};
ghost use Rattle.sc_core.specs.Bodies.{Agrees, image};
ghost use Rattle.sc_core.specs.Changes.{put_state};
ghost use Rattle.sc_machine.specs.Deliveries.{is_cut_from, receiver_name, while_live};
ghost use Rattle.sc_machine.specs.Hosts.{is_live, session_named};
ghost use Rattle.sc_types.specs.declared.host.HostImage.{HostImage};
ghost use Rattle.sc_types.specs.declared.host.SessionImage.{SessionImage};

use crate::body::Body;
use crate::draft::Placed;
use crate::session::{Session, is_live};
use sc_base::{NoMemory, Plain, Sequence, SharedBytes, Word};
use sc_types::{InvokerImage, Phase, SessionState, To};

/// Where an event goes that a session sends.
#[derive(Clone, Copy)]
pub(crate) enum Aim {
    /// Into the external queue of the session at a place.
    Reaches(usize),
    /// It reaches nobody, and the sender may hear of it.
    Fails,
    /// Sender and receiver are cut off from one another.
    Drops,
}

/// The name of the receiver, where there is one.
pub(crate) fn receiver_name<'a>(
    own: &'a Word,
    invoker: &'a Option<InvokerImage>,
    who: &'a To,
) -> Option<&'a Word>
    ensures { (s : SessionImage) → s.state.session ≡ own.now → s.invoker ≡ invoker.now
        → option_copied result ≡ receiver_name s who.now }
{
    match who {
        To::Own => Some(own),
        To::Parent => match invoker {
            Some(invoker) => Some(&invoker.session),
            None => None,
        },
        To::Child(name) => Some(name),
        To::Session(name) => Some(name),
        To::Nowhere => None,
    }
}

/// Whether the session of this name is cut off from the one that it invoked.
pub(crate) fn is_cut_from(invoker: &Option<InvokerImage>, name: &Word) -> bool
    ensures { (s : SessionImage) → s.invoker ≡ invoker.now → result ≡ is_cut_from s name.now }
{
    match invoker {
        Some(invoker) => invoker.cut && invoker.session.bytes() == name.bytes(),
        None => false,
    }
}

/// The id that an event bears which is sent to the session of this name: that of the invocation, where that session
/// invoked the sender.
pub(crate) fn invokeid_for(
    invoker: &Option<InvokerImage>,
    name: &Word,
) -> Result<Option<SharedBytes>, NoMemory>
    ensures { IfOk result (λ id. id ≡ invokeid_for invoker.now name.now) }
{
    let Some(invoker) = invoker else {
        return Ok(None);
    };
    if invoker.session.bytes() != name.bytes() {
        return Ok(None);
    }
    Ok(Some(invoker.invokeid.copy()?))
}

/// Whether the session that was found takes events, where the one at a place is in this phase.
fn takes_events(found: usize, session: &Session, place: usize, phase: &Phase) -> bool
    ensures { result ≡ is_live (if found == place then phase.now else session.now.state.phase) }
{
    if found == place {
        return is_live(phase);
    }
    is_live(&session.state().phase)
}

/// The place of a session that is born in the step under way.
pub(crate) fn birth_place(births: &Sequence<Placed>, name: &Word) -> Option<usize>
    ensures { result ≡ birth_place births.now name.now }
{
    let found = births
        .slice()
        .iter()
        .find(|birth| birth.name.bytes() == name.bytes())?;
    Some(found.place)
}

impl<P: Drop> Body<P> {
    /// The place of the session of a name while it lives, once the state of the session at a place is this one, and
    /// these are born.
    pub(crate) fn live_place(
        &self,
        births: &Sequence<Placed>,
        place: usize,
        state: &SessionState,
        name: &Word,
    ) -> Option<usize>
        requires agrees { Agrees self.now }
        requires there { option_map (λ (s : SessionImage). s.state.session) (slice_get (image self.now).sessions place)
            ≡ Some state.now.session }
        ensures { (h : HostImage) → IsGrown (put_state (image self.now) place state.now) births.now h
            → result ≡ option_map (λ (found : ℕ × SessionImage). found.0) (while_live (session_named h name.now)) }
    {
        let Some((found, session)) = self.session_named(name) else {
            return birth_place(births, name);
        };
        if !takes_events(found, session, place, &state.phase) {
            return None;
        }
        Some(found)
    }

    /// Where an event goes that is sent to the session of a name, once the state of the session at a place is this one.
    fn aim_at(&self, place: usize, state: &SessionState, name: &Word) -> Aim
        requires agrees { Agrees self.now }
        requires there { option_map (λ (s : SessionImage). s.state.session) (slice_get (image self.now).sessions place)
            ≡ Some state.now.session }
        ensures aim { result
            ≡ aim_found (while_live (session_named (put_state (image self.now) place state.now) name.now)) }
        ensures within { AimsWithin (length self.now.sessions.items) result }
    {
        let Some((found, session)) = self.session_named(name) else {
            return Aim::Fails;
        };
        if !takes_events(found, session, place, &state.phase) {
            return Aim::Fails;
        }
        Aim::Reaches(found)
    }

    /// Where an event goes that the session at a place sends, once its state is this one.
    pub(crate) fn aim(
        &self,
        place: usize,
        state: &SessionState,
        invoker: &Option<InvokerImage>,
        who: &To,
    ) -> Aim
        requires agrees { Agrees self.now }
        requires there { option_map (λ (s : SessionImage). s.state.session) (slice_get (image self.now).sessions place)
            ≡ Some state.now.session }
        ensures aim { (s : SessionImage) → s.state.session ≡ state.now.session → s.invoker ≡ invoker.now
            → result ≡ aim (put_state (image self.now) place state.now) s who.now }
        ensures within { AimsWithin (length self.now.sessions.items) result }
    {
        let Some(name) = receiver_name(&state.session, invoker, who) else {
            return Aim::Fails;
        };
        if is_cut_from(invoker, name) {
            return Aim::Drops;
        }
        self.aim_at(place, state, name)
    }
}
