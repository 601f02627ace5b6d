//! Runs that are stopped by a limit.
use super::runs::run;
use crate::sources::{assembled, verified_of};
use std::alloc::Global;
use std::sync::Wait;
use std::test::*;
use std::thread::Threads;
use x10_kinds::{Limit, Stop};
use x10_place::Line;
use x10_workers::WorkFault;

/// Main makes a list of 1,048,577 objects, and passes it to an activity.
const LONG: &str = "places 1
class opt:0
func 1 0 none opt:0
RET 0
end
func 2 2 none
NULL 0 0
LOOP 0 1024
LOOP 1 1024
NEW 0 0 0
ENDL 1 3
ENDL 0 2
NEW 0 0 0
HERE 1
ATA 0 1 0
RET 0
end
entry 1
";

/// Whether nothing was printed at the only place.
fn is_silent(outputs: &[Vec<Line>]) -> bool {
    match outputs {
        [lines] => lines.is_empty(),
        _ => false,
    }
}

/// Whether a module is stopped at place 0 by a limit, and has printed nothing.
fn is_stopped<R: Threads + Wait + Sync>(
    rt: &R,
    alloc: Global,
    text: &str,
    limit: Limit,
) -> Result<bool, Fail> {
    let bytes = assembled(alloc, text)?;
    let verified = verified_of(alloc, &bytes)?;
    match run(rt, alloc, &verified, 1, 1_000_000) {
        Err(WorkFault::Stop(0, Stop::Limit(met), report)) => {
            Ok(met == limit && is_silent(&report.outputs))
        }
        _ => Ok(false),
    }
}

#[test]
fn objects_in_one_frame(rt: HostRuntime) -> Result<(), Fail> {
    assert!(rt; is_stopped(&rt, rt.alloc(), LONG, Limit::FrameObjects)?);
    Ok(())
}
