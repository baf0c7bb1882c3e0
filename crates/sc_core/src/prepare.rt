ghost use Rattle.std.specs.Prelude.{◌≡◌, ◌<◌, ◌≤◌, ◌^◌, IfOk, OnOk, Some, length, slice_get};
ghost use Rattle.sc_core.specs.Bodies.{Agrees, Keeps, image};
ghost use Rattle.sc_machine.specs.Commands.{answer, step, step_turn};
ghost use Rattle.sc_machine.specs.Cues.{cue_of};
ghost use Rattle.sc_core.specs.Holding.{IsHeld};
ghost use Rattle.sc_machine.specs.Hosts.{chart_named, session_named};
ghost use Rattle.sc_core.specs.HostStates.{ArePlanned, CanInstall};
ghost use Rattle.sc_core.specs.Preparing.{FitsOn, InstallNone, IsNext, Prepares, StepFits};
ghost use Rattle.sc_law.specs.Turn.{turn};
ghost use Rattle.sc_types.specs.declared.command.Command.TheVariants as command;
ghost use Rattle.sc_types.specs.declared.host.SessionImage.{SessionImage};

use crate::body::Body;
use crate::cues::cue_of;
use crate::handed::turn_by;
use crate::host_state::HostState;
use crate::prepared::{Prepared, ended};
use sc_base::{NoMemory, Word};
use sc_law::{Engine, Turned};
use sc_types::{Command, Cue, Phase, Refusal};
use std::alloc::Global;

impl<P: Drop> Body<P> {
    /// The place of the session of a name, and its cue; or why it takes no step.
    fn next_step(
        &self,
        alloc: Global,
        session: &Word,
    ) -> Result<Result<(usize, Cue), Refusal>, NoMemory>
        requires agrees { Agrees self.now }
        ensures { IfOk result (IsNext (image self.now) session.now) }
    {
        let Some((place, found)) = self.session_named(session) else {
            return Ok(Err(Refusal::NoSession));
        };
        if let Phase::Ended(how) = &found.state().phase {
            return Ok(Err(ended(alloc, how)?));
        }
        match cue_of(found)? {
            Some(cue) => Ok(Ok((place, cue))),
            None => Ok(Err(Refusal::Idle)),
        }
    }
}

/// Prepares the step of the session at a place, which has this cue; its turn may have been computed before.
fn draft_turn<E: Engine>(
    alloc: Global,
    e: &E,
    body: &mut Body<E::Plan>,
    place: usize,
    cue: &Cue,
    handed: Option<Turned>,
) -> Result<Prepared<E::Plan>, NoMemory>
    requires held { IsHeld E.chart_of body.old }
    requires room { body.old.commands ≤ 2 ^ 48 }
    requires within { place < length body.old.sessions.items }
    requires cue { (s : SessionImage) → slice_get (image body.old).sessions place ≡ Some s → cue_of s ≡ Some cue.now }
    ensures keeps { Keeps body.old body.new }
    ensures charts { body.new.charts.items ≡ body.old.charts.items }
    ensures step { IfOk result (λ p. (s : SessionImage) → slice_get (image body.old).sessions place ≡ Some s
        → Prepares (step_turn (image body.old) place s cue.now
        (turn (chart_named (image body.old) s.state.chart) s.state cue.now)) (image body.old) p) }
    ensures none { IfOk result (λ p. InstallNone p.changes) }
    ensures fits { OnOk result ((s : SessionImage) → slice_get (image body.old).sessions place ≡ Some s
        → FitsOn (image body.old) s cue.now) }
{
    body.settle(place)?;
    let given = turn_by(alloc, e, body, place, cue, handed)?;
    body.draft_turn(alloc, place, cue, given)
}

/// Prepares that a session takes the turn of its cue, which may have been computed before.
pub(crate) fn draft_step<E: Engine>(
    alloc: Global,
    e: &E,
    body: &mut Body<E::Plan>,
    session: &Word,
    handed: Option<Turned>,
) -> Result<Prepared<E::Plan>, NoMemory>
    requires held { IsHeld E.chart_of body.old }
    requires room { body.old.commands ≤ 2 ^ 48 }
    ensures keeps { Keeps body.old body.new }
    ensures charts { body.new.charts.items ≡ body.old.charts.items }
    ensures step { IfOk result
        (Prepares (step (image body.old) (session_named (image body.old) session.now)) (image body.old)) }
    ensures none { IfOk result (λ p. InstallNone p.changes) }
    ensures fits { OnOk result (StepFits (image body.old) (command.Step session.now)) }
{
    match body.next_step(alloc, session)? {
        Ok((place, cue)) => draft_turn(alloc, e, body, place, &cue, handed),
        Err(why) => Ok(Prepared::refused(alloc, why)),
    }
}

/// Prepares what a command does, but for the room that its changes need.
fn draft<E: Engine>(
    alloc: Global,
    e: &E,
    body: &mut Body<E::Plan>,
    command: &Command,
) -> Result<Prepared<E::Plan>, NoMemory>
    requires held { IsHeld E.chart_of body.old }
    requires room { body.old.commands ≤ 2 ^ 48 }
    ensures keeps { Keeps body.old body.new }
    ensures charts { body.new.charts.items ≡ body.old.charts.items }
    ensures answer { IfOk result (Prepares (answer (image body.old) command.now) (image body.old)) }
    ensures plans { IfOk result (λ p. ArePlanned E.chart_of p.changes) }
    ensures fits { OnOk result (StepFits (image body.old) command.now) }
{
    match command {
        Command::Install { name, chart } => body.draft_install(alloc, e, name, chart),
        Command::Start { session, chart } => body.draft_start(alloc, session, chart),
        Command::Post {
            session,
            event,
            pairs,
        } => body.draft_post(alloc, session, event, pairs),
        Command::Tick { ticks } => body.draft_tick(alloc, *ticks),
        Command::Cancel { session } => body.draft_cancel(alloc, session),
        Command::Step { session } => draft_step(alloc, e, body, session, None),
    }
}

impl<E: Engine> HostState<E> {
    /// Prepares what a command does: its answer, and all memory that its changes need. The host machine stays as it is
    /// until `install`, also where memory is wanting.
    #[inline(always)]
    pub fn prepare(&mut self, e: &E, command: &Command) -> Result<Prepared<E::Plan>, NoMemory>
        requires room { self.old.image.commands ≤ 2 ^ 48 }
        ensures image { self.new.image ≡ self.old.image }
        ensures answer { IfOk result (Prepares (answer self.old.image command.now) self.old.image) }
        ensures can { IfOk result (λ p. CanInstall E.chart_of self.new p.changes) }
    {
        let prepared = draft(self.alloc, e, &mut self.body, command)?;
        // A length fits a usize, so the numbers of events cannot run out in one command.
        let _count = prepared.sent.len();
        self.make_room(&prepared)?;
        Ok(prepared)
    }
}
