use crate::memory::NoMemory;
use std::alloc::AllocError;

/// Why a call that takes memory gave nothing: a fault of its own kind, or out of memory.
#[derive(Debug, Drop, PartialEq, Eq)]
pub enum Failure<E> {
    Fault(E),
    NoMemory,
}

impl<E: Drop> From<NoMemory> for Failure<E> {
    ghost use Rattle.std.specs.Prelude.{◌≡◌};
    ghost use Rattle.sc_base.specs.declared.failure.Failure.TheVariants.{NoMemory};

    ghost from_gives = { λ _ e. e ≡ NoMemory };

    fn from(_error: NoMemory) -> Failure<E> {
        Failure::NoMemory
    }
}

impl<E: Drop> From<AllocError> for Failure<E> {
    ghost use Rattle.std.specs.Prelude.{◌≡◌};
    ghost use Rattle.sc_base.specs.declared.failure.Failure.TheVariants.{NoMemory};

    ghost from_gives = { λ _ e. e ≡ NoMemory };

    fn from(_error: AllocError) -> Failure<E> {
        Failure::NoMemory
    }
}
