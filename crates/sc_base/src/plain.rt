ghost use Rattle.std.specs.Prelude.{◌≡◌, IfOk};
ghost use Rattle.std.proofs.Common.{rules};

use crate::memory::NoMemory;

/// Data whose clone equals it.
pub trait Plain: Clone + Drop {
    /// Another value that equals this one.
    fn copy(&self) -> Result<Self, NoMemory>
        ensures { IfOk result (λ c. c ≡ self.now) }
    {
        Ok(self.clone()?)
    }

    ghost clone_equals: { (x y : Self) → Self.is_clone x y → y ≡ x };
}

impl Plain for bool {
    ghost clone_equals = { Prim.search rules };
}

impl Plain for u8 {
    ghost clone_equals = { Prim.search rules };
}

impl Plain for u32 {
    ghost clone_equals = { Prim.search rules };
}

impl Plain for u64 {
    ghost clone_equals = { Prim.search rules };
}

impl Plain for u128 {
    ghost clone_equals = { Prim.search rules };
}

impl Plain for usize {
    ghost clone_equals = { Prim.search rules };
}

impl<A: Plain, B: Plain> Plain for (A, B) {
    ghost clone_equals = { Prim.search (rules, A.clone_equals, B.clone_equals) };
}

impl<T: Plain> Plain for Option<T> {
    ghost clone_equals = { Prim.search (rules, T.clone_equals) };
}
