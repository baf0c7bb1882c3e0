ghost use Rattle.std.specs.Prelude.{◌≡◌, IfOk};
ghost use Rattle.sc_book.specs.Claims.{HasTurn};
ghost use Rattle.sc_book.specs.Tickets.{ticket_of};
ghost use Rattle.sc_law.specs.Turned.{IsTurnOf};

use sc_base::NoMemory;
use sc_core::TurnInput;
use sc_law::{Engine, Turned};
use sc_types::Cue;
use std::alloc::Global;
use std::marker::Model;

/// A session that was taken to step: no other worker gets it until this is spent, by a commit or an abandon. It cannot be
/// dropped, so no claim is left open.
pub struct Ticket<E: Engine> {
    place: usize,
    input: TurnInput<E::Plan>,
}

impl<E: Engine> Model for Ticket<E> {
    ghost use Rattle.std.specs.Coded.{codes};
    ghost use Rattle.sc_types.specs.contracts.chart.Chart as chart_type;
    ghost use Rattle.sc_types.specs.contracts.session.Cue as cue_type;
    ghost use Rattle.sc_types.specs.contracts.session.SessionState as state_type;
    ghost use Rattle.sc_book.specs.Claims.{HasTurn, TicketOf};
    ghost use Rattle.sc_book.specs.Tickets.{ticket_of};

    ghost Value = { TicketOf };

    ghost coded = { Prim.hlevel (codes, chart_type.the_row.coded, state_type.the_row.coded, cue_type.the_row.coded) };

    ghost view = { λ t. ticket_of E.chart_of t.place t.input };

    ghost invariant = { λ t. HasTurn (ticket_of E.chart_of t.place t.input) };
}

impl<E: Engine> Ticket<E> {
    pub(crate) fn new(place: usize, input: TurnInput<E::Plan>) -> Ticket<E>
        requires turn { HasTurn (ticket_of E.chart_of place input) }
        ensures { result ≡ ticket_of E.chart_of place input }
    {
        Ticket { place, input }
    }

    /// The place, without the rest.
    pub(crate) fn into_place(self) -> usize
        ensures { result ≡ self.place }
    {
        let Ticket {
            place,
            input: _input,
        } = self;
        place
    }

    /// The place of the session, counted from 0 in the order of start.
    pub fn place(&self) -> usize
        ensures { result ≡ self.now.place }
    {
        self.place
    }

    /// What its turn begins with.
    pub fn cue(&self) -> &Cue
        ensures { result.now ≡ self.now.cue }
    {
        &self.input.cue
    }

    /// Computes the turn. It needs no book, so that many may be computed at a time.
    pub fn work(&self, alloc: Global, engine: &E) -> Result<Turned, NoMemory>
        ensures { IfOk result (IsTurnOf self.now.chart self.now.before self.now.cue) }
    {
        engine.turn(
            alloc,
            &self.input.plan,
            self.input.before.get(),
            &self.input.cue,
        )
    }
}
