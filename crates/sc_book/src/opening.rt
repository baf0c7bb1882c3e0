ghost use Rattle.std.specs.Prelude.{◌≡◌, ◌≢◌, ◌+◌, ◌^◌, ◌<◌, ◌≤◌, ℕ, false, None, Ok, Err, IfOk, IfErr, OnOk, MatchResult, length};
ghost use Rattle.sc_book.specs.Images.{StandsFor};
ghost use Rattle.sc_book.specs.Openings.{HasFirstBad, IsBadAt, IsDamagedAt, IsFirstBad, IsMade, IsOpened, IsRedone, IsReplayed, NamesNoPlace};
ghost use Rattle.sc_machine.specs.Accepted.{is_accepted};
ghost use Rattle.sc_machine.specs.Commands.{answer};
ghost use Rattle.sc_dev.specs.Causes.{Rose};
ghost use Rattle.sc_dev.specs.Disks.{Within};
ghost use Rattle.sc_journal.specs.Journals.{Keeps};
ghost use Rattle.sc_journal.specs.Stops.{Passes};
ghost use Rattle.sc_types.specs.declared.host.HostImage.{HostImage};

use crate::book::Book;
use crate::fault::OpenFault;
use crate::log::Log;
use sc_codec::{CodecFault, decode};
use sc_core::HostState;
use sc_dev::Disk;
use sc_journal::{Bodies, Journal, JournalFault, Opened};
use sc_law::Engine;
use sc_rooms::Places;
use sc_types::{Command, Reply};
use std::alloc::Global;

/// Where the number of the first entry stands in a journal.
const FIRST_PLACE: u64 = 12;

/// Why a journal was not opened as a host, and its disk.
#[derive(Drop)]
pub struct NotOpened<D: Disk> {
    pub disk: D,
    pub fault: OpenFault,
}

impl<D: Disk> NotOpened<D> {
    /// The disk. One that was lent is known to be back where it is taken by this call.
    pub fn into_disk(self) -> D
        ensures { result ≡ self.disk }
    {
        self.disk
    }
}

fn fault_of(fault: JournalFault) -> OpenFault
    ensures disk { result ≡ OpenFault.Disk → fault ≡ JournalFault.Disk }
    ensures from_disk { fault ≡ JournalFault.Disk → result ≡ OpenFault.Disk }
    ensures damaged { (at : ℕ) → result ≡ OpenFault.Damaged at → fault ≡ JournalFault.Damaged at }
    ensures bad { (number : ℕ) → result ≢ OpenFault.BadEntry number }
{
    match fault {
        JournalFault::Disk => OpenFault::Disk,
        JournalFault::Damaged(place) => OpenFault::Damaged(place),
        JournalFault::NoMemory => OpenFault::NoMemory,
    }
}

/// Makes a command that the journal holds once more; it is the entry of this number.
fn redo<E: Engine>(
    alloc: Global,
    engine: &E,
    host: &mut HostState<E>,
    body: &[u8],
    number: u64,
) -> Result<(), OpenFault>
    requires room { host.old.image.commands ≤ 2 ^ 48 }
    ensures ok { OnOk result (IsRedone host.old.image body.now host.new.image) }
    ensures bad { (n : ℕ) → result ≡ Err (OpenFault.BadEntry n) → (n ≡ number) × IsBadAt host.old.image body.now }
    ensures disk { result ≢ Err OpenFault.Disk }
    ensures damaged { (at : ℕ) → result ≢ Err (OpenFault.Damaged at) }
{
    let command = match decode(alloc, body) {
        Ok(command) => command,
        Err(CodecFault::NotCommand) => return Err(OpenFault::BadEntry(number)),
        Err(CodecFault::NoMemory) => return Err(OpenFault::NoMemory),
    };
    make(engine, host, &command, number)
}

/// Makes a command, which the host should accept.
fn make<E: Engine>(
    engine: &E,
    host: &mut HostState<E>,
    command: &Command,
    number: u64,
) -> Result<(), OpenFault>
    requires room { host.old.image.commands ≤ 2 ^ 48 }
    ensures ok { OnOk result (IsMade host.old.image command.now host.new.image) }
    ensures bad { (n : ℕ) → result ≡ Err (OpenFault.BadEntry n)
        → (n ≡ number) × (is_accepted (answer host.old.image command.now).reply ≡ false) }
    ensures disk { result ≢ Err OpenFault.Disk }
    ensures damaged { (at : ℕ) → result ≢ Err (OpenFault.Damaged at) }
{
    let mut prepared = host.prepare(engine, command)?;
    if let Reply::Refused(_) = prepared.reply {
        return Err(OpenFault::BadEntry(number));
    }
    host.install(&mut prepared);
    Ok(())
}

/// The host after the commands that these bodies spell.
fn replay<E: Engine>(alloc: Global, engine: &E, bodies: Bodies) -> Result<HostState<E>, OpenFault>
    requires { length bodies ≤ 2 ^ 48 }
    ensures ok { IfOk result (λ h. IsReplayed bodies h.image) }
    ensures bad { (n : ℕ) → result ≡ Err (OpenFault.BadEntry n) → IsFirstBad bodies n }
    ensures disk { result ≢ Err OpenFault.Disk }
    ensures damaged { (at : ℕ) → result ≢ Err (OpenFault.Damaged at) }
{
    let mut host = HostState::new(alloc);
    let mut left = bodies;
    let mut number = 1;
    while let Some(body) = left.front() {
        redo(alloc, engine, &mut host, body, number)?;
        left.pop_front();
        number += 1;
    }
    Ok(host)
}

/// The same where the first entry has the number 1. Another number stands for entries that were cut off, of which this
/// host knows nothing.
fn replay_from<E: Engine>(
    alloc: Global,
    engine: &E,
    first: u64,
    bodies: Bodies,
) -> Result<HostState<E>, OpenFault>
    requires { first + length bodies ≤ 2 ^ 48 + 1 }
    ensures ok { IfOk result (λ h. IsReplayed bodies h.image) }
    ensures first { OnOk result (first ≡ 1) }
    ensures other { (at : ℕ) → result ≡ Err (OpenFault.Damaged at) → (at ≡ 12) × (first ≢ 1) }
    ensures bad { (n : ℕ) → result ≡ Err (OpenFault.BadEntry n) → (first ≡ 1) × IsFirstBad bodies n }
    ensures disk { result ≢ Err OpenFault.Disk }
{
    if first != 1 {
        return Err(OpenFault::Damaged(FIRST_PLACE));
    }
    replay(alloc, engine, bodies)
}

impl<'e, E: Engine, D: Disk> Book<'e, E, D> {
    /// Opens the journal of a disk, and makes the commands that it holds once more. The disk comes back where that
    /// fails.
    pub fn open(alloc: Global, engine: &'e E, disk: D) -> Result<Book<'e, E, D>, NotOpened<D>>
        ensures opened { IfOk result (IsOpened D.law) }

        // what the disk reads as stands for what is opened
        ensures reads { D.law.tells → IfOk result (λ b. StandsFor (D.law.reads disk) b.opened b.host) }

        // a disk that stands for so many commands and a host is opened as such
        ensures stands { D.law.tells → (n : ℕ) (g : HostImage) → StandsFor (D.law.reads disk) n g
            → MatchResult result (λ b. (b.opened ≡ n) × (b.host ≡ g)) (λ f. NamesNoPlace f.fault) }

        // exactly where the text is no journal's, or its first number is another than 1
        ensures damaged { D.law.tells → IfErr result (λ f. (at : ℕ) → f.fault ≡ OpenFault.Damaged at
            → IsDamagedAt (D.law.reads disk).journal at) }

        // exactly the first body that spells no command, or whose command is refused there
        ensures bad { D.law.tells → IfErr result (λ f. (n : ℕ) → f.fault ≡ OpenFault.BadEntry n
            → HasFirstBad (D.law.reads disk).journal n) }

        // only where the disk's faults rose
        ensures disk { IfErr result (λ f. f.fault ≡ OpenFault.Disk → Rose (D.law.faults disk) (D.law.faults f.disk)) }
        ensures later { MatchResult result (λ b. D.law.faults disk ≤ D.law.faults b.journal.disk)
            (λ f. D.law.faults disk ≤ D.law.faults f.disk) }

        ensures fine { MatchResult result (λ b. D.law.faults b.journal.disk ≡ D.law.faults disk)
            (λ f. f.fault ≢ OpenFault.Disk → D.law.faults f.disk ≡ D.law.faults disk) }

        // a stop leaves what it left before
        ensures images { MatchResult result (λ b. Within (D.law.may_leave disk) (D.law.may_leave b.journal.disk))
            (λ f. Within (D.law.may_leave disk) (D.law.may_leave f.disk)) }
        ensures passes { MatchResult result (λ b. Passes D.law disk b.journal.disk (D.law.may_leave disk))
            (λ f. Passes D.law disk f.disk (D.law.may_leave disk)) }
        ensures same { MatchResult result (λ b. D.law.identity b.journal.disk ≡ D.law.identity disk)
            (λ f. D.law.identity f.disk ≡ D.law.identity disk) }
    {
        match Journal::open(alloc, disk) {
            Ok(opened) => Book::begin(alloc, engine, opened),
            Err(failed) => {
                let fault = fault_of(failed.fault);
                Err(NotOpened {
                    disk: failed.into_disk(),
                    fault,
                })
            }
        }
    }

    /// The book of a journal that was opened.
    fn begin(
        alloc: Global,
        engine: &'e E,
        opened: Opened<D>,
    ) -> Result<Book<'e, E, D>, NotOpened<D>>
        requires settled { opened.journal.doubt ≡ None }
        requires next { opened.journal.next ≡ opened.first + length opened.bodies }
        requires keeps { D.law.tells → Keeps D.law opened.journal (record { format = 1; first = opened.first })
            opened.bodies }
        ensures opened { IfOk result (IsOpened D.law) }
        ensures book { IfOk result (λ b. b.journal ≡ opened.journal) }
        ensures first { IfOk result (λ b. opened.first ≡ 1) }
        ensures replayed { IfOk result (λ b. IsReplayed opened.bodies b.host × (b.opened ≡ length opened.bodies)) }
        ensures other { IfErr result (λ f. (at : ℕ) → f.fault ≡ OpenFault.Damaged at → (at ≡ 12) × (opened.first ≢ 1)) }
        ensures bad { IfErr result (λ f. (n : ℕ) → f.fault ≡ OpenFault.BadEntry n
            → (opened.first ≡ 1) × IsFirstBad opened.bodies n) }
        ensures disk { IfErr result (λ f. f.fault ≢ OpenFault.Disk) }
        ensures back { IfErr result (λ f. f.disk ≡ opened.journal.disk) }
    {
        let Opened {
            journal,
            first,
            bodies,
        } = opened;
        // Its limit bounds how many bodies there are.
        let _next = journal.next_number();
        let count = bodies.len();
        match replay_from(alloc, engine, first, bodies) {
            Ok(host) => {
                let start = journal.moment();
                Ok(Book {
                    engine,
                    host,
                    opened: count,
                    start,
                    log: Log::new(alloc),
                    claims: Places::new(alloc),
                    journal,
                })
            }
            Err(fault) => Err(NotOpened {
                disk: journal.into_disk(),
                fault,
            }),
        }
    }
}
