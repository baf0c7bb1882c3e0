ghost use Rattle.std.specs.Prelude.{◌≡◌, ◌≤◌, [], IfOk};
ghost use Rattle.sc_dev.specs.Memory.{counted, failed, is_next_failing, no_calls};

use sc_base::{NoMemory, Sequence};
use std::alloc::Global;
use std::marker::Model;

// The calls of a device in memory: it knows which of them are to fail, and counts them and the faults.
#[derive(Debug, Drop)]
pub struct Calls {
    made: u64,
    failing: Sequence<u64>,
    faults: u64,
}

impl Model for Calls {
    ghost use Rattle.sc_dev.specs.Memory.{CallsOf};

    ghost Value = { CallsOf };

    ghost view = { λ c. record { made = c.made; failing = c.failing; faults = c.faults } };
}

impl Calls {
    pub fn new(alloc: Global, failing: &[u64]) -> Result<Calls, NoMemory>
        ensures { IfOk result (λ c. c ≡ no_calls failing.now) }
    {
        Ok(Calls {
            made: 0,
            failing: Sequence::from_slice(alloc, failing)?,
            faults: 0,
        })
    }

    pub fn is_next_failing(&self) -> bool
        ensures { result ≡ is_next_failing self.now }
    {
        let number = self.made.saturating_add(1);
        self.failing.slice().iter().any(|n| *n == number)
    }

    pub fn count(&mut self)
        ensures { self.new ≡ counted self.old }
    {
        self.made = self.made.saturating_add(1);
    }

    pub fn count_fault(&mut self)
        ensures after { self.new ≡ failed self.old }
        ensures later { self.old.faults ≤ self.new.faults }
    {
        self.made = self.made.saturating_add(1);
        self.faults = self.faults.saturating_add(1);
    }
}
