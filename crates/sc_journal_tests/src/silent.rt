//! A disk that tells nothing of what it holds, as a real one does, and fails at every call: it meets the rules of
//! disks.
ghost use Rattle.std.specs.Prelude.{◌≡◌, ◌≤◌, []};
ghost use Rattle.std.proofs.Common.{arith};
ghost use Rattle.sc_dev.specs.Causes.{risen};
ghost use Rattle.sc_dev.specs.Disks.{Fits};

use sc_dev::{Disk, Failed, Part};

/// The counts of calls and of faults.
#[derive(Debug, Drop)]
pub struct SilentDisk {
    moment: u64,
    faults: u64,
}

impl SilentDisk {
    pub fn new() -> SilentDisk {
        SilentDisk {
            moment: 0,
            faults: 0,
        }
    }

    // A call that fails.
    fn fail(&mut self) -> Failed
        ensures moment { self.new.moment ≡ risen self.old.moment }
        ensures faults { self.new.faults ≡ risen self.old.faults }
        ensures later { (self.old.moment ≤ self.new.moment) × (self.old.faults ≤ self.new.faults) }
    {
        self.moment = self.moment.saturating_add(1);
        self.faults = self.faults.saturating_add(1);
        Failed
    }
}

impl Disk for SilentDisk {
    ghost law = { record {
      tells = ⊥;
      reads = λ _. record { journal = []; slot_a = []; slot_b = [] };
      may_leave = λ _ c. Fits c;
      may_have_left = λ _ _ c. Fits c;
      moment = λ d. d.moment;
      faults = λ d. d.faults;
      identity = λ _. 0;
    } };

    ghost stands = { λ d. record { journal = Prim.omega arith; slot_a = Prim.omega arith; slot_b = Prim.omega arith } };

    ghost grows = { λ d s t c le left. left };

    ghost counts_now = { λ d t c le left. left };

    ghost only_now = { λ d c below left. left };

    fn read_at(&mut self, _part: Part, _at: u64, _into: &mut [u8]) -> Result<usize, Failed> {
        Err(self.fail())
    }

    fn write_at(&mut self, _part: Part, _at: u64, _piece: &[u8]) -> Result<(), Failed> {
        Err(self.fail())
    }

    fn sync(&mut self, _part: Part) -> Result<(), Failed> {
        Err(self.fail())
    }

    fn moment(&self) -> u64 {
        self.moment
    }
}
