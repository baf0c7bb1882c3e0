ghost use Rattle.std.specs.Prelude.{◌≡◌, ◌≢◌, ◌≤◌, None, Err, IfOk, OnOk, OnErr, IfErr, List, length};
ghost use Rattle.sc_book.specs.Books.{IsBook};
ghost use Rattle.sc_book.specs.Keeping.{HasRoom, StoreDoubts};
ghost use Rattle.sc_book.specs.Receipts.{Acknowledges, Doubts, Grows, HasNoRoom, IsAllOrDoubted, IsAllOrMore, IsDuring, IsUnanswered, most_body};
ghost use Rattle.sc_codec.specs.Bodies.{body_of};
ghost use Rattle.sc_dev.specs.Causes.{HasCause, Rose};
ghost use Rattle.sc_journal.specs.Stops.{LeavesOnly};
ghost use Rattle.sc_types.specs.declared.command.Command.{Command as CommandOf};

use crate::book::Book;
use crate::doubt::Doubt;
use crate::fault::CallFault;
use crate::log::Log;
use crate::prepare::{confirm, prepare};
use crate::receipt::Receipt;
use sc_core::Prepared;
use sc_dev::Disk;
use sc_journal::AppendFault;
use sc_law::{Engine, Turned};
use sc_types::{Command, Entry, Who};
use std::alloc::Global;

impl<'e, E: Engine, D: Disk> Book<'e, E, D> {
    /// Answers a command of a caller, and adds its entry to the history. Where the host accepts it, it stands in the
    /// journal then, and every stop of the machine leaves it there. A command that the host refuses is answered too.
    ///
    /// Four device calls are made for an accepted command, and two before it where an earlier fault left a command in
    /// doubt. All memory is taken before the first of the four. A command with a value past the limits of values is
    /// answered as being out of memory where the host would accept it.
    #[inline(always)]
    pub fn call(&mut self, alloc: Global, who: Who, command: Command) -> Result<Receipt, CallFault>
        ensures ok { IfOk result (Acknowledges who command self.old self.new) }
        ensures err { OnErr result (IsUnanswered self.old self.new) }
        ensures doubts { IfErr result (Doubts who command self.old self.new) }
        ensures opened { self.new.opened ≡ self.old.opened }
        ensures start { self.new.start ≡ self.old.start }
        ensures claims { self.new.claims ≡ self.old.claims }

        // exactly where the host would accept the command and the journal has no room for it
        ensures full { result ≡ Err CallFault.Full → HasNoRoom command self.old }
        ensures no_room { HasNoRoom command self.old → IfOk result (λ _. ⊥) }
        ensures fits { result ≡ Err CallFault.Full → length (body_of command) ≤ most_body }
        ensures grows { Grows self.old self.new }

        // only where the disk's faults rose in this call
        ensures disk { result ≡ Err CallFault.Disk
            → Rose (D.law.faults self.old.journal.disk) (D.law.faults self.new.journal.disk) }
        ensures later { D.law.faults self.old.journal.disk ≤ D.law.faults self.new.journal.disk }
        ensures fine { result ≢ Err CallFault.Disk
            → D.law.faults self.new.journal.disk ≡ D.law.faults self.old.journal.disk }
        ensures same { D.law.identity self.new.journal.disk ≡ D.law.identity self.old.journal.disk }

        // the book goes on, and what a stop leaves
        ensures kept { (past : List CommandOf) → IsBook D.law past self.old → IsBook D.law past self.new }
        ensures any_moment { D.law.tells → (past : List CommandOf) → IsBook D.law past self.old
            → LeavesOnly D.law self.old.journal.disk self.new.journal.disk
            (IsDuring past self.old command) }
    {
        self.settle()?;
        self.answer(alloc, who, command, None)
    }

    /// Takes back what an earlier fault left in doubt.
    pub(crate) fn settle(&mut self) -> Result<(), CallFault>
        ensures ok { OnOk result (self.new.journal.doubt ≡ None) }
        ensures err { IfErr result (λ fault. fault ≡ CallFault.Disk) }
        ensures book { self.new ≡ record self.old { journal = self.new.journal } }
        ensures end { self.new.journal.end ≡ self.old.journal.end }
        ensures next { self.new.journal.next ≡ self.old.journal.next }
        ensures cause { HasCause (D.law.faults self.old.journal.disk) (D.law.faults self.new.journal.disk) result }
        ensures fine { OnOk result (D.law.faults self.new.journal.disk ≡ D.law.faults self.old.journal.disk) }
        ensures same { D.law.identity self.new.journal.disk ≡ D.law.identity self.old.journal.disk }
        ensures kept { (past : List CommandOf) → IsBook D.law past self.old → IsBook D.law past self.new }
        ensures any_moment { D.law.tells → (past : List CommandOf) → IsBook D.law past self.old
            → LeavesOnly D.law self.old.journal.disk self.new.journal.disk
            (IsAllOrDoubted past self.old) }
    {
        self.journal.settle()?;
        Ok(())
    }

    /// Answers a command where nothing is in doubt; a step with the turn that a worker computed of it, where there is
    /// one.
    pub(crate) fn answer(
        &mut self,
        alloc: Global,
        who: Who,
        command: Command,
        turned: Option<Turned>,
    ) -> Result<Receipt, CallFault>
        requires settled { self.old.journal.doubt ≡ None }
        ensures ok { IfOk result (Acknowledges who command self.old self.new) }
        ensures err { OnErr result (IsUnanswered self.old self.new) }
        ensures doubts { IfErr result (Doubts who command self.old self.new) }
        ensures opened { self.new.opened ≡ self.old.opened }
        ensures start { self.new.start ≡ self.old.start }
        ensures claims { self.new.claims ≡ self.old.claims }
        ensures full { result ≡ Err CallFault.Full → HasNoRoom command self.old }
        ensures no_room { HasNoRoom command self.old → IfOk result (λ _. ⊥) }
        ensures fits { result ≡ Err CallFault.Full → length (body_of command) ≤ most_body }
        ensures grows { Grows self.old self.new }
        ensures disk { result ≡ Err CallFault.Disk
            → Rose (D.law.faults self.old.journal.disk) (D.law.faults self.new.journal.disk) }
        ensures later { D.law.faults self.old.journal.disk ≤ D.law.faults self.new.journal.disk }
        ensures fine { result ≢ Err CallFault.Disk
            → D.law.faults self.new.journal.disk ≡ D.law.faults self.old.journal.disk }
        ensures same { D.law.identity self.new.journal.disk ≡ D.law.identity self.old.journal.disk }
        ensures kept { (past : List CommandOf) → IsBook D.law past self.old → IsBook D.law past self.new }
        ensures any_moment { D.law.tells → (past : List CommandOf) → IsBook D.law past self.old
            → LeavesOnly D.law self.old.journal.disk self.new.journal.disk
            (IsAllOrMore past self.old command) }
    {
        // Its limit bounds how many commands the host counts.
        let _next = self.journal.next_number();
        let mut prepared = prepare(self.engine, &mut self.host, &mut self.log, &command, turned)?;
        let receipt = confirm(alloc, &mut self.log, &command, &prepared)?;
        if prepared.is_accepted() {
            if let Err(fault) = self.journal.append(self.log.body.slice()) {
                return Err(not_added(&mut self.log, who, command, fault));
            }
            self.host.install(&mut prepared);
        }
        let moment = self.journal.moment();
        self.log.enter(entry_of(who, command, prepared), moment);
        Ok(receipt)
    }
}

/// The entry of a command that was answered so.
#[inline(always)]
fn entry_of<P: Drop>(who: Who, command: Command, prepared: Prepared<P>) -> Entry
    ensures { result ≡ record {
      who = who;
      command = command;
      reply = prepared.reply;
      logs = prepared.logs;
      sent = prepared.sent;
    } }
{
    Entry {
        who,
        command,
        reply: prepared.reply,
        logs: prepared.logs,
        sent: prepared.sent,
    }
}

/// The fault by which the body of a command was not added to the journal. Where the disk failed, the command is kept as
/// one in doubt.
#[cold]
#[inline(never)]
fn not_added(log: &mut Log, who: Who, command: Command, fault: AppendFault) -> CallFault
    requires room { HasRoom log.old }
    ensures history { log.new.history.entries ≡ log.old.history.entries }
    ensures moments { log.new.moments.items ≡ log.old.moments.items }
    ensures doubts { StoreDoubts who command log.old log.new result }
    ensures disk { result ≡ CallFault.Disk → fault ≡ AppendFault.Failed }
    ensures full { result ≡ CallFault.Full → fault ≡ AppendFault.Full }
    ensures some { result ≢ CallFault.NoMemory }
{
    match fault {
        AppendFault::Full => CallFault::Full,
        AppendFault::Failed => {
            let before = log.history.len();
            log.doubt(Doubt {
                who,
                command,
                before,
            });
            CallFault::Disk
        }
    }
}
