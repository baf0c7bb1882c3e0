ghost use Rattle.std.specs.Prelude.{◌≡◌, ℕ, ◌<◌, Option, List, length, take, IfOk, OnErr};
ghost use Rattle.std.specs.Io.{ReadsAtMost};
ghost use Rattle.std.specs.Io.KnownBytes.{Consumes, IsAtEnd, Keeps};
ghost use Rattle.sc_dev.specs.Causes.{HasCause};

use crate::failed::Failed;

/// A stream of bytes to read.
pub trait Source {
    // The bytes that are left, where the source tells them.
    ghost left: { Self → Option (List ℕ) };

    ghost faults: { Self → ℕ };

    /// Hands over the next bytes, and says how many: 0 only where none are left.
    fn read(&mut self, into: &mut [u8]) -> Result<usize, Failed>
        requires { 0 < length into.old }
        ensures bound { ReadsAtMost result into.new }
        ensures bytes { IfOk result (λ n. Consumes (left self.old) (left self.new) (take n into.new)) }
        ensures end { result ≡ Ok 0 → IsAtEnd (left self.old) }
        ensures failed { OnErr result (Keeps (left self.old) (left self.new)) }
        ensures cause { HasCause (faults self.old) (faults self.new) result };
}
