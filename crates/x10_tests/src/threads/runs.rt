//! Runs of whole modules, with a thread for each place.
use super::logs::listed;
use crate::sources::{assembled, verified_of};
use std::alloc::Global;
use std::process::Abort;
use std::sync::Wait;
use std::test::*;
use std::thread::Threads;
use x10_hall::Turn;
use x10_place::Line;
use x10_samples::{AWAY, RELAY};
use x10_verify::Verified;
use x10_workers::{AuditFault, Open, RunReport, WorkFault, audit, run_threads};

/// Main starts an activity that prints, and starts another of its kind, without end.
const ENDLESS: &str = "places 1
int 1
func 1 0 none
ASYNC 0 0
RET 0
end
func 1 0 none
INTK 0 0
PRINT 0
ASYNC 0 0
RET 0
end
entry 1
";

/// Main sends an activity to place 1, which prints 5, and ends.
pub(crate) const ACROSS: &str = "places 2
int 5
func 1 0 none
INTK 0 0
PRINT 0
RET 0
end
func 1 0 none
PLACEK 0 1
ATA 0 0 0
RET 0
end
entry 1
";

/// A run with nothing at its gate.
pub(crate) fn run<R: Threads + Wait + Sync>(
    rt: &R,
    alloc: Global,
    verified: &Verified,
    places: u16,
    turns: u64,
) -> Result<RunReport, WorkFault> {
    run_threads(rt, alloc, verified, places, turns, &Open)
}

/// What the audit says of a log, where the module runs at `places` places.
pub(crate) fn audited(
    alloc: Global,
    verified: &Verified,
    places: u16,
    log: &[Turn],
) -> Option<Result<Vec<Vec<Line>>, AuditFault>> {
    if places > 64 || verified.image().least() > places {
        return None;
    }
    Some(audit(alloc, verified, places, log))
}

/// Whether lines are these numbers.
fn are_numbers(lines: &[Line], numbers: &[i64]) -> bool {
    if lines.len() != numbers.len() {
        return false;
    }
    for (line, number) in lines.iter().zip(numbers) {
        if !matches!(line, Line::Int(printed) if printed == number) {
            return false;
        }
    }
    true
}

/// Whether the places printed these numbers.
pub(crate) fn printed(outputs: &[Vec<Line>], wanted: &[&[i64]]) -> bool {
    if outputs.len() != wanted.len() {
        return false;
    }
    for (lines, numbers) in outputs.iter().zip(wanted) {
        if !are_numbers(lines, numbers) {
            return false;
        }
    }
    true
}

/// Whether a run and the audit of its log come to these outputs.
fn comes_to<R: Threads + Wait + Sync>(
    rt: &R,
    alloc: Global,
    verified: &Verified,
    places: u16,
    wanted: &[&[i64]],
) -> Result<bool, Fail> {
    let Ok(report) = run(rt, alloc, verified, places, 1_000) else {
        return Ok(false);
    };
    if !printed(&report.outputs, wanted) {
        return Ok(false);
    }
    let log = listed(alloc, &report.log)?;
    match audited(alloc, verified, places, &log) {
        Some(Ok(outputs)) => Ok(printed(&outputs, wanted)),
        _ => Ok(false),
    }
}

/// Whether a module comes to these outputs three times.
fn thrice<R: Threads + Wait + Sync>(
    rt: &R,
    alloc: Global,
    text: &str,
    places: u16,
    wanted: &[&[i64]],
) -> Result<bool, Fail> {
    let bytes = assembled(alloc, text)?;
    let verified = verified_of(alloc, &bytes)?;
    for _ in 0..3u8 {
        if !comes_to(rt, alloc, &verified, places, wanted)? {
            return Ok(false);
        }
    }
    Ok(true)
}

#[test]
fn relay(rt: HostRuntime) -> Result<(), Fail> {
    let wanted: [&[i64]; 4] = [&[10, 6, 2], &[9, 5, 1], &[8, 4], &[7, 3]];
    assert!(rt; thrice(&rt, rt.alloc(), RELAY, 4, &wanted)?);
    Ok(())
}

#[test]
fn finish(rt: HostRuntime) -> Result<(), Fail> {
    let wanted: [&[i64]; 3] = [&[9], &[], &[5]];
    assert!(rt; thrice(&rt, rt.alloc(), AWAY, 3, &wanted)?);
    Ok(())
}

/// Whether a report of place 0 has a number of turns, and its lines begin with 1.
fn is_cut(report: &RunReport, turns: usize) -> bool {
    report.log.len() == turns
        && match report.outputs.as_slice() {
            [lines] => matches!(lines.first(), Some(Line::Int(1))),
            _ => false,
        }
}

/// Whether a module is cut off after 100 turns.
fn cut_off<R: Threads + Wait + Sync>(rt: &R, alloc: Global, text: &str) -> Result<bool, Fail> {
    let bytes = assembled(alloc, text)?;
    let verified = verified_of(alloc, &bytes)?;
    match run(rt, alloc, &verified, 1, 100) {
        Err(WorkFault::Turns(report)) => Ok(is_cut(&report, 100)),
        _ => Ok(false),
    }
}

#[test]
fn turns(rt: HostRuntime) -> Result<(), Fail> {
    assert!(rt; cut_off(&rt, rt.alloc(), ENDLESS)?);
    Ok(())
}

/// Whether a module doesn't run at `places` places.
fn is_refused<R: Threads + Wait + Sync>(
    rt: &R,
    alloc: Global,
    text: &str,
    places: u16,
) -> Result<bool, Fail> {
    let bytes = assembled(alloc, text)?;
    let verified = verified_of(alloc, &bytes)?;
    let refused = matches!(
        run(rt, alloc, &verified, places, 1_000),
        Err(WorkFault::Places)
    );
    Ok(refused)
}

#[test]
fn numbers_of_places(rt: HostRuntime) -> Result<(), Fail> {
    for places in [0, 3, 65] {
        assert!(rt; is_refused(&rt, rt.alloc(), RELAY, places)?);
    }
    Ok(())
}
