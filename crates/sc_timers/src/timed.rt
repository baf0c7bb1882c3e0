ghost use Rattle.std.specs.Prelude.{◌≡◌, ◌<◌, ◌^◌};
ghost use Rattle.sc_timers.specs.Order.{picks, session_rank, by_due, by_session};

use sc_ranks::Entry;
pub use sc_types::TimerImage as Timed;

/// The sends of a session, all or those with one id.
#[derive(Clone, Copy)]
pub struct Pick<'a> {
    pub session: &'a [u8],
    pub id: Option<&'a [u8]>,
}

pub fn is_picked(pick: Pick<'_>, send: &Timed) -> bool
    ensures { result ≡ picks pick.entry send.now }
{
    if send.session.bytes() != pick.session {
        return false;
    }
    match pick.id {
        None => true,
        Some(id) => send.event.sendid.slice() == id,
    }
}

#[tactic(auto, unfolding(crate::specs::Order::session_rank))]
pub fn session_rank(name: &[u8]) -> u64
    ensures value { result ≡ session_rank name.now }
    ensures small { result < 2 ^ 63 }
{
    let mut hash = 14695981039346656037u64;
    for byte in name {
        hash = (hash ^ *byte as u64).wrapping_mul(1099511628211);
    }
    hash / 2
}

pub fn by_due(key: usize, send: &Timed) -> Entry
    ensures { result ≡ by_due key send.now }
{
    Entry {
        first: send.due,
        number: send.number,
        key,
    }
}

pub fn by_session(key: usize, send: &Timed) -> Entry
    ensures { result ≡ by_session key send.now }
{
    Entry {
        first: session_rank(send.session.bytes()),
        number: send.number,
        key,
    }
}
