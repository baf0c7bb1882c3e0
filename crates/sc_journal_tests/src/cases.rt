//! Steps on a new disk, each with what comes of it.

use crate::damage::DAMAGE;
use crate::disks::DISKS;
use crate::doubts::DOUBTS;
use crate::faults::FAULTS;
use crate::steps::{Outcome, Step, disk};
use crate::stops::STOPS;
use std::alloc::Global;
use std::process::Abort;
use std::test::Fail;

/// Steps that come to the same on several disks: with room for so many bytes, for each of these numbers of calls, and
/// with each of these lists of calls that fail.
pub struct Case {
    pub name: &'static str,
    pub room: u64,
    pub calls: &'static [u64],
    pub failing: &'static [&'static [u64]],
    pub steps: &'static [(Step<'static>, Outcome)],
}

/// Room for as many bytes as a disk may have.
pub const AMPLE: u64 = 1 << 20;

/// Calls of which none fails.
pub const NONE: &[&[u64]] = &[&[]];

fn check(rt: &impl Abort, alloc: Global, case: &Case) -> Result<(), Fail> {
    for calls in case.calls {
        for failing in case.failing {
            let found = disk(alloc, case.room, *calls, failing).first_other(alloc, case.steps);
            assert_eq!(rt;
                found,
                None,
                "{}: {calls} calls, {failing:?} fail",
                case.name
            );
        }
    }
    Ok(())
}

#[test]
fn steps_come_to_what_stands_beside_them(rt: HostRuntime) -> Result<(), Fail> {
    for table in [DISKS, DAMAGE, FAULTS, DOUBTS, STOPS] {
        for case in table {
            check(&rt, rt.alloc(), case)?;
        }
    }
    Ok(())
}
