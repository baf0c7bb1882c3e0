ghost use Rattle.std.specs.Prelude.{[], MatchResult};
ghost use Rattle.sc_pool.specs.Books.{seen_of};
ghost use Rattle.sc_pool.specs.SetUps.{FailsIn, MakesPart};

use crate::book::answer;
use sc_book::{Book, CallFault};
use sc_dev::Disk;
use sc_law::Engine;
use sc_types::{Command, Remaining, Sequence, Who};
use std::alloc::Global;

/// Makes the commands of a set-up one after another, as client 0, to the end or to the first fault.
pub(crate) fn set_up<E: Engine, D: Disk>(
    alloc: Global,
    book: &mut Book<'_, E, D>,
    commands: Sequence<Command>,
) -> Result<(), CallFault>
    ensures { MatchResult result (λ _. MakesPart commands [] (seen_of D.law book.old) (seen_of D.law book.new))
        (λ fault. FailsIn commands fault
        (seen_of D.law book.old)
        (seen_of D.law book.new)) }
{
    let mut left = Remaining::new(commands);
    while let Some(command) = left.take_first() {
        answer(book, alloc, Who::Client(0), command)?;
    }
    Ok(())
}
