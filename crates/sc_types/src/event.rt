ghost use Rattle.std.specs.Prelude.{◌≡◌, IfOk};
ghost use Rattle.std.proofs.Common.{rules};

use crate::value::{PairList, Value};
use sc_base::{Name, NoMemory, Plain, SharedBytes};
use std::alloc::AllocError;

/// What `_event.data` reads.
#[derive(Clone, Drop, PartialEq, Eq)]
pub enum Data {
    Absent,
    One(Value),
    Pairs(PairList),
}

/// The kind of an event, as `_event.type` gives it.
#[derive(Clone, Copy, Debug, PartialEq, Eq)]
pub enum Kind {
    Platform,
    Internal,
    External,
}

/// An event. One of an internal queue has the number 0; an external one has the number that the host gave it
/// when it was queued. Its name has at most 256 bytes.
#[derive(Drop, PartialEq, Eq)]
pub struct Event {
    pub number: u128,
    pub name: Name,
    pub kind: Kind,
    pub sendid: SharedBytes,
    pub origin: SharedBytes,
    pub origintype: SharedBytes,
    pub invokeid: SharedBytes,
    pub payload: Data,
}

impl Plain for Data {
    ghost clone_equals = { Prim.search rules };
}

impl Plain for Kind {
    ghost clone_equals = { Prim.search rules };
}

impl Clone for Event {
    ghost is_clone = { λ e copy. copy ≡ e };

    fn clone(&self) -> Result<Self, AllocError> {
        Ok(Event {
            number: self.number,
            name: self.name.clone()?,
            kind: self.kind,
            sendid: self.sendid.clone()?,
            origin: self.origin.clone()?,
            origintype: self.origintype.clone()?,
            invokeid: self.invokeid.clone()?,
            payload: copied(&self.payload)?,
        })
    }
}

/// Not inlined, so that the frame of an event's copy does not hold that of every value's.
#[inline(never)]
fn copied(payload: &Data) -> Result<Data, AllocError>
    ensures { IfOk result (λ copy. copy ≡ payload.now) }
{
    match payload.copy() {
        Ok(copy) => Ok(copy),
        Err(NoMemory) => Err(AllocError),
    }
}

impl Plain for Event {
    ghost clone_equals = { λ e copy same. same };
}
