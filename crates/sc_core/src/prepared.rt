ghost use Rattle.std.specs.Prelude.{◌≡◌, [], ◌∷◌, IfOk};
ghost use Rattle.sc_machine.specs.Accepted.{is_accepted};

use crate::change::Change;
use crate::change_list::ChangeList;
use sc_base::{Boxed, BoxedSequence, NoMemory, Plain, Sequence};
use sc_types::{Delivery, How, LogLine, Refusal, Reply};
use std::alloc::Global;

/// A command's answer, and the changes that it makes of the host.
#[derive(Drop)]
pub struct Prepared<P> {
    pub(crate) changes: ChangeList<P>,
    pub reply: Reply,
    pub logs: BoxedSequence<LogLine>,
    pub sent: Sequence<Delivery>,
}

/// Why a session that ended so takes no command.
pub(crate) fn ended(alloc: Global, how: &How) -> Result<Refusal, NoMemory>
    ensures { IfOk result (λ why. why ≡ Refusal.Ended how.now) }
{
    Ok(Refusal::Ended(Boxed::new(alloc, how.copy()?)?))
}

impl<P: Drop> Prepared<P> {
    /// Whether the host accepts the command.
    pub fn is_accepted(&self) -> bool
        ensures { result ≡ is_accepted self.now.reply }
    {
        !matches!(&self.reply, Reply::Refused(_))
    }

    /// A refusal changes nothing.
    pub(crate) fn refused(alloc: Global, why: Refusal) -> Prepared<P>
        ensures changes { result.changes ≡ [] }
        ensures reply { result.reply ≡ Reply.Refused why }
        ensures logs { result.logs ≡ [] }
        ensures sent { result.sent ≡ [] }
    {
        Prepared {
            changes: ChangeList::none(alloc),
            reply: Reply::Refused(why),
            logs: BoxedSequence::empty(),
            sent: Sequence::new(alloc),
        }
    }

    /// One change, and the command is counted.
    #[inline(always)]
    pub(crate) fn accepted(alloc: Global, reply: Reply, change: Change<P>) -> Prepared<P>
        ensures changes { result.changes ≡ change ∷ Change.Count ∷ [] }
        ensures reply { result.reply ≡ reply }
        ensures logs { result.logs ≡ [] }
        ensures sent { result.sent ≡ [] }
    {
        Prepared {
            changes: ChangeList::one(alloc, change),
            reply,
            logs: BoxedSequence::empty(),
            sent: Sequence::new(alloc),
        }
    }
}
