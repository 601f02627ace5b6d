//! Logs of a run in which one thing was changed.
use super::logs::listed;
use super::runs::{ACROSS, audited, run};
use crate::sources::{assembled, verified_of};
use std::alloc::Global;
use std::sync::{Arc, Wait};
use std::test::*;
use std::thread::Threads;
use x10_hall::{Keys, Posted, Turn};
use x10_place::Line;
use x10_samples::AWAY;
use x10_verify::Verified;
use x10_workers::AuditFault;

/// One thing that is changed in a log.
#[derive(Clone, Copy, Debug, PartialEq, Eq)]
pub(crate) enum Change {
    /// Nothing.
    Nothing,
    /// The first line that was printed.
    Line,
    /// The last turn is not there.
    Last,
    /// The place of the first turn.
    Place,
    /// The bytes of the first frame.
    Frame,
    /// The number of the first frame that was taken.
    Taken,
    /// The key of the first step.
    Key,
}

/// Changes the first line of a turn, if it has one.
fn change_line(turn: &mut Turn) -> bool {
    if turn.lines.is_empty() {
        return false;
    }
    turn.lines[0] = Line::Int(77);
    true
}

/// Changes the bytes of a turn's first frame, if it has one.
fn change_frame(alloc: Global, turn: &mut Turn) -> Result<bool, Fail> {
    if turn.frames.is_empty() {
        return Ok(false);
    }
    let mut bytes = Vec::new(alloc);
    bytes.push(1)?;
    let to = turn.frames[0].to;
    let bytes = Arc::new(alloc, bytes)?;
    turn.frames[0] = Posted { to, bytes };
    Ok(true)
}

/// Changes the first line of a log: the number of its turn.
fn change_first_line(log: &mut [Turn]) -> Option<usize> {
    for at in 0..log.len() {
        if change_line(&mut log[at]) {
            return Some(at);
        }
    }
    None
}

/// Changes the first frame of a log: the number of its turn.
fn change_first_frame(alloc: Global, log: &mut [Turn]) -> Result<Option<usize>, Fail> {
    for at in 0..log.len() {
        if change_frame(alloc, &mut log[at])? {
            return Ok(Some(at));
        }
    }
    Ok(None)
}

/// Changes the place of the first turn.
fn change_place(log: &mut [Turn]) -> Option<usize> {
    if log.is_empty() {
        return None;
    }
    log[0].place = 3;
    Some(0)
}

/// Changes the number of the first frame that was taken: the number of its turn.
fn change_taken(log: &mut [Turn]) -> Option<usize> {
    for at in 0..log.len() {
        let taken = &mut log[at].taken;
        if !taken.is_empty() {
            taken[0] = 77;
            return Some(at);
        }
    }
    None
}

/// Changes the key of the first step.
fn change_key(alloc: Global, log: &mut [Turn]) -> Result<Option<usize>, Fail> {
    if log.is_empty() || log[0].keys.is_empty() {
        return Ok(None);
    }
    let mut keys = Vec::new(alloc);
    keys.push(77)?;
    for at in 1..log[0].keys.len() {
        keys.push(log[0].keys.at(at))?;
    }
    log[0].keys = Keys::new(alloc, &keys)?;
    Ok(Some(0))
}

/// Makes a change: the number of the turn that was changed, if one was.
pub(crate) fn make_change(
    alloc: Global,
    log: &mut Vec<Turn>,
    what: Change,
) -> Result<Option<usize>, Fail> {
    match what {
        Change::Nothing => Ok(None),
        Change::Line => Ok(change_first_line(log)),
        Change::Last => {
            log.pop();
            Ok(None)
        }
        Change::Place => Ok(change_place(log)),
        Change::Frame => change_first_frame(alloc, log),
        Change::Taken => Ok(change_taken(log)),
        Change::Key => change_key(alloc, log),
    }
}

/// The log of a new run.
fn log_of<R: Threads + Wait + Sync>(
    rt: &R,
    alloc: Global,
    verified: &Verified,
    places: u16,
) -> Result<Vec<Turn>, Fail> {
    match run(rt, alloc, verified, places, 1_000) {
        Ok(report) => listed(alloc, &report.log),
        Err(_) => Err("there is no report".into()),
    }
}

/// What the audit says of a log, if it refuses it.
fn refusal(alloc: Global, verified: &Verified, places: u16, log: &[Turn]) -> Option<AuditFault> {
    match audited(alloc, verified, places, log) {
        Some(Err(fault)) => Some(fault),
        _ => None,
    }
}

/// Whether a fault is the one that a change calls for.
fn is_right(what: Change, at: Option<usize>, fault: Option<AuditFault>) -> bool {
    match what {
        Change::Nothing => fault.is_none(),
        Change::Last => fault == Some(AuditFault::Open),
        _ => match (at, fault) {
            (Some(at), Some(AuditFault::Differs(turn))) => at == turn,
            _ => false,
        },
    }
}

/// Whether a change in the log of a new run is reported.
fn is_told<R: Threads + Wait + Sync>(rt: &R, alloc: Global, what: Change) -> Result<bool, Fail> {
    let bytes = assembled(alloc, AWAY)?;
    let verified = verified_of(alloc, &bytes)?;
    let mut log = log_of(rt, alloc, &verified, 3)?;
    let at = make_change(alloc, &mut log, what)?;
    Ok(is_right(what, at, refusal(alloc, &verified, 3, &log)))
}

#[test]
fn changed_logs(rt: HostRuntime) -> Result<(), Fail> {
    let changes = [
        Change::Nothing,
        Change::Line,
        Change::Last,
        Change::Place,
        Change::Frame,
        Change::Taken,
    ];
    for what in changes {
        assert!(rt; is_told(&rt, rt.alloc(), what)?, "{what:?}");
    }
    Ok(())
}

/// Whether the last turn of a log is one of place 0 that took a frame and made no step.
fn ends_with_a_frame(log: &[Turn]) -> bool {
    match log.last() {
        Some(turn) => turn.place == 0 && turn.taken.len() == 1 && turn.keys.is_empty(),
        None => false,
    }
}

#[test]
fn last_report_in_flight(rt: HostRuntime) -> Result<(), Fail> {
    let bytes = assembled(rt.alloc(), ACROSS)?;
    let verified = verified_of(rt.alloc(), &bytes)?;
    let mut log = log_of(&rt, rt.alloc(), &verified, 2)?;
    let whole = audited(rt.alloc(), &verified, 2, &log);
    assert!(rt; matches!(whole, Some(Ok(_))));
    assert!(rt; ends_with_a_frame(&log));
    log.pop();
    let cut = refusal(rt.alloc(), &verified, 2, &log);
    assert!(rt; cut == Some(AuditFault::Open));
    Ok(())
}
