ghost use Rattle.std.specs.Prelude.{◌≡◌, ◌+◌, ◌^◌, ◌≤◌, Ok, length, IfOk, OnOk};
ghost use Rattle.std.specs.Io.{ReadsAtMost};
ghost use Rattle.sc_dev.specs.Causes.{HasCause};
ghost use Rattle.sc_dev.specs.Disks.{Elapsed};

use crate::parts::Parts;
use crate::progress::Progress;
use sc_dev::{Disk, Failed, Part};
use std::fs::File;
use std::io;
use std::os::unix::fs::FileExt;

/// The disk whose parts are files of the current directory. It tells nothing of what they hold.
#[derive(Drop)]
pub struct FileDisk<'a> {
    rt: &'a HostRuntime,
    parts: Parts,
    progress: Progress,
    moment: u64,
    faults: u64,
    first_fault: Option<io::Error>,
}

impl<'a> FileDisk<'a> {
    ghost use Rattle.charthost.specs.Untold.{MayHaveLeft, MayLeave};

    pub fn new(rt: &'a HostRuntime, progress: Progress) -> FileDisk<'a>
        ensures moment { result.moment ≡ 0 }
        ensures faults { result.faults ≡ 0 }
    {
        FileDisk {
            rt,
            parts: Parts::new(),
            progress,
            moment: 0,
            faults: 0,
            first_fault: None,
        }
    }

    /// Why a device call failed, the first of those that did.
    pub fn first_fault(&self) -> Option<io::Error> {
        self.first_fault
    }

    /// Whether a journal was looked for, and there is no file of it.
    pub fn has_no_journal(&self) -> bool {
        self.parts.is_missing(Part::Journal)
    }

    /// Counts a device call, and its fault.
    fn counted<T: Drop>(&mut self, answer: io::Result<T>) -> Result<T, Failed>
        ensures time { Elapsed self.old.moment self.new.moment MayHaveLeft MayHaveLeft MayLeave }
        ensures cause { HasCause self.old.faults self.new.faults result }
        ensures fine { OnOk result (self.new.faults ≡ self.old.faults) }
        ensures value { IfOk result (λ x. answer ≡ Ok x) }
    {
        self.moment = self.moment.saturating_add(1);
        match answer {
            Ok(value) => Ok(value),
            Err(error) => {
                self.faults = self.faults.saturating_add(1);
                self.first_fault = self.first_fault.or(Some(error));
                Err(Failed)
            }
        }
    }
}

impl Disk for FileDisk<'_> {
    ghost use Rattle.charthost.specs.Untold.{untold_law};
    ghost use Rattle.charthost.specs.UntoldFacts.{fits_untold};

    ghost law = { untold_law (λ d. d.moment) (λ d. d.faults) };

    ghost stands = { λ _. fits_untold };

    ghost grows = { λ _ _ _ _ _ c. c };

    ghost counts_now = { λ _ _ _ _ c. c };

    ghost only_now = { λ _ _ _ c. c };

    // A file that is not there has no bytes, and is not made.
    fn read_at(&mut self, part: Part, at: u64, into: &mut [u8]) -> Result<usize, Failed> {
        let answer = match self.parts.to_read(self.rt, part) {
            Ok(Some(file)) => read_full(file, at, into),
            Ok(None) => Ok(0),
            Err(error) => Err(error),
        };
        self.counted(answer)
    }

    fn write_at(&mut self, part: Part, at: u64, piece: &[u8]) -> Result<(), Failed> {
        let answer = match self.parts.to_write(self.rt, part) {
            Ok(file) => file.write_all_at(piece, at),
            Err(error) => Err(error),
        };
        self.counted(answer)
    }

    fn sync(&mut self, part: Part) -> Result<(), Failed> {
        let answer = match self.parts.to_read(self.rt, part) {
            Ok(Some(file)) => file.sync_data(),
            Ok(None) => Ok(()),
            Err(error) => Err(error),
        };
        self.progress.synced(self.rt, part);
        self.counted(answer)
    }

    fn moment(&self) -> u64 {
        self.moment
    }
}

/// Reads until there is no more room or the file ends: the system may hand over less than there is.
fn read_full(file: &File, at: u64, into: &mut [u8]) -> io::Result<usize>
    requires { at + length into.old ≤ 2 ^ 40 }
    ensures { ReadsAtMost result into.new }
{
    let mut count = 0;
    while count < into.len() {
        match file.read_at(&mut into[count..], at + count as u64)? {
            0 => break,
            more => count += more,
        }
    }
    Ok(count)
}
