//! Two places that are in their turns at the same time.
use super::runs::printed;
use crate::sources::{assembled, verified_of};
use std::alloc::Global;
use std::sync::Wait;
use std::sync::atomic::{AtomicU64, Ordering};
use std::test::*;
use std::thread;
use std::thread::Threads;
use x10_verify::Verified;
use x10_workers::{Gate, RunReport, WorkFault, run_threads};

/// Main starts an activity at place 1 and one at place 2.
pub(crate) const TWO: &str = "places 3
int 1
func 1 0 none
INTK 0 0
PRINT 0
RET 0
end
func 1 0 none
PLACEK 0 1
ATA 0 0 0
PLACEK 0 2
ATA 0 0 0
RET 0
end
entry 1
";

/// How often a place looks for the other.
const LOOKS: u32 = 10_000_000;

/// A gate at which places 1 and 2 wait for each other, in their first turns.
#[derive(Drop)]
struct Meeting {
    first: AtomicU64,
    second: AtomicU64,
    /// How many came.
    came: AtomicU64,
    /// How many didn't see the other.
    missed: AtomicU64,
}

impl Meeting {
    fn new() -> Meeting {
        Meeting {
            first: AtomicU64::new(0),
            second: AtomicU64::new(0),
            came: AtomicU64::new(0),
            missed: AtomicU64::new(0),
        }
    }

    /// Raises one's own flag and looks for the other's.
    fn meet(&self, own: &AtomicU64, other: &AtomicU64) {
        self.came.fetch_add(1, Ordering::SeqCst);
        own.store(1, Ordering::SeqCst);
        for _ in 0..LOOKS {
            if other.load(Ordering::SeqCst) == 1 {
                return;
            }
            thread::yield_now();
        }
        self.missed.fetch_add(1, Ordering::SeqCst);
    }

    /// Whether both came, and neither missed the other.
    fn was_held(&self) -> bool {
        self.came.load(Ordering::SeqCst) == 2 && self.missed.load(Ordering::SeqCst) == 0
    }
}

impl Gate for Meeting {
    fn inside(&self, place: u16, turn: u64) {
        match (place, turn) {
            (1, 0) => self.meet(&self.first, &self.second),
            (2, 0) => self.meet(&self.second, &self.first),
            _ => {}
        }
    }
}

/// A run with a meeting at its gate.
fn run<R: Threads + Wait + Sync>(
    rt: &R,
    alloc: Global,
    verified: &Verified,
    meeting: &Meeting,
) -> Result<RunReport, WorkFault> {
    run_threads(rt, alloc, verified, 3, 1_000, meeting)
}

#[test]
fn gate(rt: HostRuntime) -> Result<(), Fail> {
    let bytes = assembled(rt.alloc(), TWO)?;
    let verified = verified_of(rt.alloc(), &bytes)?;
    let meeting = Meeting::new();
    let Ok(report) = run(&rt, rt.alloc(), &verified, &meeting) else {
        return Err("there is no report".into());
    };
    let wanted: [&[i64]; 3] = [&[], &[1], &[1]];
    assert!(rt; printed(&report.outputs, &wanted));
    assert!(rt; meeting.was_held());
    Ok(())
}
