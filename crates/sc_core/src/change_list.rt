ghost use Rattle.std.specs.Prelude.{◌≡◌, ◌++◌, ◌∷◌, [], IfOk, length};
ghost use Rattle.sc_core.specs.Stepping.{put_changes};
ghost use Rattle.sc_core.specs.declared.change.Change.TheVariants.{Count};

use crate::change::Change;
use sc_base::{Boxed, NoMemory, Queue};
use sc_types::{Cue, SessionState};
use std::alloc::Global;
use std::marker::Model;

/// The changes of a command, in order. What nearly every command makes stands in fields of its own, so that the list of
/// a post, or of a step without effects, takes no memory.
#[derive(Drop)]
pub struct ChangeList<P> {
    pub(crate) first: Option<Change<P>>,
    /// The place of the session whose external queue loses its front after the first change.
    pub(crate) taken: Option<usize>,
    pub(crate) more: Queue<Change<P>>,
    /// Whether the command is counted at the end.
    pub(crate) counted: bool,
}

impl<P> Model for ChangeList<P> {
    ghost use Rattle.std.specs.Prelude.{List};
    ghost use Rattle.std.specs.Coded.{codes};
    ghost use Rattle.sc_types.specs.contracts.chart.Chart as chart_type;
    ghost use Rattle.sc_types.specs.contracts.event.Event as event_type;
    ghost use Rattle.sc_types.specs.contracts.session.SessionState as state_type;
    ghost use Rattle.sc_core.specs.ChangeLists.{listed};
    ghost use Rattle.sc_core.specs.declared.change.Change.{Change as ChangeOf};

    ghost Value = { List (ChangeOf P) };

    ghost coded = { Prim.hlevel (codes, chart_type.the_row.coded, event_type.the_row.coded, state_type.the_row.coded) };

    ghost view = { λ c. listed c.first c.taken c.more c.counted };
}

impl<P: Drop> ChangeList<P> {
    /// No change.
    pub(crate) fn none(alloc: Global) -> ChangeList<P>
        ensures { result ≡ [] }
    {
        ChangeList {
            first: None,
            taken: None,
            more: Queue::new(alloc),
            counted: false,
        }
    }

    /// One change, and the command is counted.
    pub(crate) fn one(alloc: Global, change: Change<P>) -> ChangeList<P>
        ensures { result ≡ change ∷ Count ∷ [] }
    {
        ChangeList {
            first: Some(change),
            taken: None,
            more: Queue::new(alloc),
            counted: true,
        }
    }

    /// These changes, and the command is counted.
    pub(crate) fn all(changes: Queue<Change<P>>) -> ChangeList<P>
        ensures { result ≡ changes ++ Count ∷ [] }
    {
        ChangeList {
            first: None,
            taken: None,
            more: changes,
            counted: true,
        }
    }

    /// The changes of a step: the state after its turn is put in, an external event leaves its queue, and what more
    /// there is; and the command is counted.
    pub(crate) fn of_step(
        place: usize,
        cue: &Cue,
        after: Boxed<SessionState>,
        more: Queue<Change<P>>,
    ) -> ChangeList<P>
        ensures { result ≡ put_changes place cue.now after ++ (more ++ Count ∷ []) }
    {
        ChangeList {
            first: Some(Change::PutState {
                place,
                state: after,
            }),
            taken: match cue {
                Cue::External(_) => Some(place),
                _ => None,
            },
            more,
            counted: true,
        }
    }

    /// How many there are. More than can be counted are out of memory.
    pub(crate) fn count(&self) -> Result<usize, NoMemory>
        ensures { IfOk result (λ n. n ≡ length self.now) }
    {
        let first = self.first.is_some() as usize;
        let taken = self.taken.is_some() as usize;
        let counted = self.counted as usize;
        self.more
            .len()
            .checked_add(first + taken + counted)
            .ok_or(NoMemory)
    }
}
