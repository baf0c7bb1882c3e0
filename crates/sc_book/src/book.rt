ghost use Rattle.std.specs.Prelude.{◌≡◌, List};
ghost use Rattle.sc_book.specs.Books.{IsSome};
ghost use Rattle.sc_types.specs.declared.command.Command.{Command};

use crate::log::Log;
use sc_core::{Closed, History, HostState};
use sc_dev::Disk;
use sc_journal::Journal;
use sc_law::Engine;
use sc_rooms::Places;
use std::marker::Model;

/// A host over a journal that was opened, and what happened since. Every accepted command stands in the journal before
/// it is acknowledged.
#[derive(Drop)]
pub struct Book<'e, E: Engine, D: Disk> {
    pub(crate) engine: &'e E,
    pub(crate) host: HostState<E>,
    /// How many commands the journal held when it was opened.
    pub(crate) opened: u64,
    /// The moment of the disk at the opening.
    pub(crate) start: u64,
    pub(crate) log: Log,
    /// The places of the sessions that workers took to step.
    pub(crate) claims: Places,
    pub(crate) journal: Journal<D>,
}

impl<'e, E: Engine, D: Disk> Model for Book<'e, E, D> {
    ghost use Rattle.sc_book.specs.Books.{BookOf};
    ghost use Rattle.sc_types.specs.contracts.host.HostImage as host_type;
    ghost use Rattle.sc_types.specs.contracts.history.Entry as entry_type;
    ghost use Rattle.sc_types.specs.contracts.command.Command as command_type;
    ghost use Rattle.std.specs.Coded.{codes};

    ghost Value = { BookOf D };

    ghost coded = { Prim.hlevel (
      codes,
      host_type.the_row.coded,
      entry_type.the_row.coded,
      command_type.the_row.coded,
      D.code,
    ) };

    ghost use Rattle.sc_book.specs.Books.{IsSome};
    ghost use Rattle.sc_book.specs.Keeping.{book_of};

    ghost view = { λ b. book_of b.host b.opened b.start b.log b.claims b.journal };

    ghost invariant = { λ b. IsSome D.law
        (book_of b.host b.opened b.start b.log b.claims b.journal) };
}

impl<'e, E: Engine, D: Disk> Book<'e, E, D> {
    /// What computes turns.
    pub fn engine(&self) -> &'e E {
        self.engine
    }

    /// The host as it stands.
    pub fn host(&self) -> &HostState<E>
        ensures host { result.now.image ≡ self.now.host }
        ensures book { IsSome D.law self.now }
    {
        &self.host
    }

    /// What happened since the opening, refused commands too.
    pub fn history(&self) -> &History
        ensures { result.now.entries ≡ self.now.history }
    {
        &self.log.history
    }

    /// How many commands the journal held when it was opened.
    pub fn opened(&self) -> u64
        ensures { result ≡ self.now.opened }
    {
        self.opened
    }

    /// Ends the work on the journal, and gives the disk back.
    pub fn finish(self) -> Closed<E, D>
        ensures host { result.host.image ≡ self.entry.host }
        ensures opened { result.opened ≡ self.entry.opened }
        ensures history { result.history.entries ≡ self.entry.history }
        ensures disk { result.disk ≡ self.entry.journal.disk }
    {
        let Book {
            host,
            opened,
            log,
            journal,
            ..
        } = self;
        Closed {
            host,
            opened,
            history: log.history,
            disk: journal.into_disk(),
        }
    }
}
