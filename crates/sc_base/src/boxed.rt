ghost use Rattle.std.specs.Prelude.{◌≡◌, IfOk};

use crate::memory::NoMemory;
use crate::plain::Plain;
use std::alloc::{AllocError, Global};
use std::marker::Model;

/// A value in a place of its own, which contracts see as the value.
#[derive(Debug, Drop)]
pub struct Boxed<T> {
    inner: Box<T>,
}

impl<T> Model for Boxed<T> {
    ghost Value = { T };

    ghost coded = { T.code };

    ghost view = { λ b. b.inner.value };
}

impl<T> Boxed<T> {
    /// Where the value's memory comes from.
    pub fn allocator(&self) -> Global {
        *Box::allocator(&self.inner)
    }

    pub fn get(&self) -> &T
        ensures { result.now ≡ self.now }
    {
        &self.inner
    }

    /// The value, out of its place.
    pub fn into_inner(self) -> T
        ensures { result ≡ self }
    {
        Box::into_inner(self.inner)
    }
}

impl<T> Boxed<T> {
    ghost use Rattle.std.specs.Borrow.{Lends, sem};
    ghost use Rattle.std.specs.Prelude.{◌≡◌};
    ghost use Rattle.sc_base.specs.contracts.boxed.Boxed.{the_row};

    /// The value, to be changed in its place.
    pub fn get_mut(&mut self) -> &mut T
        ensures* writes_back { sem 𝓛 (Lends (the_row T.row) T.row self.entry result (λ w. w)) }
        ensures value { result.now ≡ self.old }
    {
        &mut self.inner
    }
}

impl<T: Drop> Boxed<T> {
    pub fn new(alloc: Global, value: T) -> Result<Boxed<T>, NoMemory>
        ensures { IfOk result (λ b. b ≡ value) }
    {
        Ok(Boxed {
            inner: Box::new(alloc, value)?,
        })
    }
}

impl<T: Clone> Clone for Boxed<T> {
    ghost is_clone = { λ b copy. T.is_clone b copy };

    fn clone(&self) -> Result<Self, AllocError> {
        Ok(Boxed {
            inner: Box::new(self.allocator(), self.get().clone()?)?,
        })
    }
}

impl<T: Plain> Plain for Boxed<T> {
    ghost clone_equals = { λ b copy same. T.clone_equals b copy same };
}

impl<T: PartialEq> PartialEq for Boxed<T> {
    ghost eq = { T.eq };

    ghost laws = { T.laws };

    fn eq(&self, other: &Boxed<T>) -> bool {
        self.get() == other.get()
    }
}

impl<T: Eq> Eq for Boxed<T> {
    ghost laws = { T.Eq.laws };
}
