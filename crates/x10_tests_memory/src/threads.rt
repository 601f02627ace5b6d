//! Halls and workers where memory is refused: what was posted stays, and nothing else is told.
use crate::begin::{have_first, with_program};
use std::alloc::{AllocError, Global};
use std::process::Abort;
use std::sync::{Arc, Wait};
use std::test::*;
use std::thread::Threads;
use x10_hall::{Desk, Hall, Keys, Mail, Posted, Repeats, Turn};
use x10_kinds::Stop;
use x10_place::Line;
use x10_samples::RELAY;
use x10_verify::Verified;
use x10_workers::{AuditFault, Halt, Open, RunReport, Trail, WorkFault, run_threads, weave, work};

/// What each place prints.
const PRINTS: [&[i64]; 4] = [&[10, 6, 2], &[9, 5, 1], &[8, 4], &[7, 3]];

/// Main sends an activity with a number to its own place, which prints it.
const OWN: &str = "places 1
int 5
func 1 0 none int
PRINT 0
RET 0
end
func 2 0 none
INTK 0 0
HERE 1
ATA 0 1 0
RET 0
end
entry 1
";

/// A turn of place 0 that puts out a frame to each of these places; its byte is the place's number.
fn turn_to(alloc: Global, places: &[u16]) -> Result<Turn, AllocError> {
    let mut frames = Vec::new(alloc);
    for to in places {
        let bytes = Arc::new(alloc, Vec::from_slice(alloc, &[(*to % 256) as u8])?)?;
        frames.push(Posted { to: *to, bytes })?;
    }
    Ok(Turn {
        place: 0,
        taken: Vec::new(alloc),
        keys: Keys::new(alloc, &[])?,
        frames,
        lines: Vec::new(alloc),
    })
}

/// Whether a turn is posted; where it isn't, memory was refused.
fn is_posted(rt: &impl Abort, hall: &mut Hall, turn: Turn) -> bool {
    match hall.post(turn) {
        Ok(()) => true,
        Err(why) => {
            assert!(rt; why == Stop::Memory);
            false
        }
    }
}

/// Whether the last turn is posted once more; where it isn't, memory was refused.
fn is_posted_again(rt: &impl Abort, hall: &mut Hall) -> bool {
    if hall.log().is_empty() {
        return false;
    }
    match hall.again() {
        Ok(()) => true,
        Err(why) => {
            assert!(rt; why == Stop::Memory);
            false
        }
    }
}

/// The numbers of the next frames for a place, up to four, which then are taken.
fn taken(hall: &mut Hall, place: u16) -> [Option<u64>; 4] {
    let mut numbers = [None; 4];
    for number in numbers.iter_mut() {
        *number = hall.take(place).map(|frame| frame.number);
    }
    numbers
}

/// How many turns the log has.
fn turns(hall: &Hall) -> usize {
    hall.log().len()
}

/// Whether these are the next frames for places 1 and 0.
fn are_next(hall: &mut Hall, to_1: [Option<u64>; 4], to_0: [Option<u64>; 4]) -> bool {
    taken(hall, 1) == to_1 && taken(hall, 0) == to_0
}

/// A first turn is posted, and its first frame taken; or it is refused, and there is nothing. Nothing where memory was refused.
fn post_first(alloc: Global, rt: &impl Abort, hall: &mut Hall) -> Option<()> {
    let turn = turn_to(alloc, &[1, 0, 1]).ok()?;
    if !is_posted(rt, hall, turn) {
        assert!(rt; turns(hall) == 0 && are_next(hall, [None; 4], [None; 4]));
        return None;
    }
    assert!(rt; hall.take(1).map(|frame| frame.number) == Some(0));
    Some(())
}

/// The same of a second turn; where it is refused, the frames of the first one are still there.
fn post_second(alloc: Global, rt: &impl Abort, hall: &mut Hall) -> Option<()> {
    let turn = turn_to(alloc, &[1, 0]).ok()?;
    if !is_posted(rt, hall, turn) {
        let (to_1, to_0) = ([Some(2), None, None, None], [Some(1), None, None, None]);
        assert!(rt; turns(hall) == 1 && are_next(hall, to_1, to_0));
        return None;
    }
    let (to_1, to_0) = (
        [Some(2), Some(3), None, None],
        [Some(1), Some(4), None, None],
    );
    assert!(rt; turns(hall) == 2 && are_next(hall, to_1, to_0));
    Some(())
}

/// The same of the second turn once more.
fn post_again(rt: &impl Abort, hall: &mut Hall) -> Option<()> {
    if !is_posted_again(rt, hall) {
        assert!(rt; turns(hall) == 2 && are_next(hall, [None; 4], [None; 4]));
        return None;
    }
    let (to_1, to_0) = ([Some(5), None, None, None], [Some(6), None, None, None]);
    assert!(rt; turns(hall) == 3 && are_next(hall, to_1, to_0));
    Some(())
}

/// Two turns are posted, the second one twice, of which a later one may be refused: then the log, the rows and what was taken of
/// them are as before.
fn are_posted(alloc: Global, rt: &impl Abort) -> Option<()> {
    let mut hall = Hall::new(alloc, 2).ok()?;
    post_first(alloc, rt, &mut hall)?;
    post_second(alloc, rt, &mut hall)?;
    post_again(rt, &mut hall)
}

/// What the worker of the only place keeps. Nothing where memory was refused.
fn worked<'a, R: Wait + Abort>(
    rt: &R,
    alloc: Global,
    verified: &'a Verified<'a>,
    desk: &mut Desk<R>,
) -> Option<Trail<'a>> {
    if verified.image().least() > 1 {
        return None;
    }
    match work(rt, alloc, verified, 0, 1, desk, &Open) {
        Ok(trail) => Some(trail),
        Err(why) => {
            assert!(rt; why == Halt::Stop(Stop::Memory));
            None
        }
    }
}

/// Whether a log and the trails of its workers come to the number 5. Nothing where memory was refused.
fn prints_five(
    alloc: Global,
    rt: &impl Abort,
    log: &Repeats<Turn>,
    trails: &[Trail],
) -> Option<bool> {
    match weave(alloc, log, trails) {
        Ok(outputs) => Some(have_first(&outputs, &[&[5]], true)),
        Err(why) => {
            assert!(rt; why == AuditFault::Stop(Stop::Memory));
            None
        }
    }
}

/// The only worker's turns are compared with its log. Nothing where memory was refused.
fn weaves<R: Wait + Abort>(alloc: Global, rt: &R, verified: &Verified) -> Option<()> {
    let mail = Mail::new(alloc, 1, 1_000).ok()?;
    let trail = worked(rt, alloc, verified, &mut Desk::new(rt, &mail))?;
    let mut trails = Vec::new(alloc);
    trails.push(trail).ok()?;
    let log = mail.into_hall().into_log();
    assert!(rt; prints_five(alloc, rt, &log, &trails)?);
    Some(())
}

/// The same from a text on.
fn is_woven<R: Wait + Abort>(alloc: Global, rt: &R) -> Option<()> {
    with_program(alloc, rt, OWN, |verified| weaves(alloc, rt, verified))
}

/// How many lines the turns of a log have.
fn lines_in(log: &Repeats<Turn>) -> usize {
    let mut count = 0usize;
    for at in 0..log.len() {
        count = count.saturating_add(log.at(at).lines.len());
    }
    count
}

/// How many lines places have together.
fn lines_of(outputs: &[Vec<Line>]) -> usize {
    let mut count = 0usize;
    for lines in outputs {
        count = count.saturating_add(lines.len());
    }
    count
}

/// Whether a report tells a beginning of what each place prints, which is what the turns of its log have.
fn is_beginning(report: &RunReport) -> bool {
    lines_in(&report.log) == lines_of(&report.outputs)
        && have_first(&report.outputs, &PRINTS, false)
}

/// Whether a run that didn't come to its end lacked memory.
fn lacked_memory(fault: &WorkFault) -> bool {
    match fault {
        WorkFault::Stop(_, why, report) => *why == Stop::Memory && is_beginning(report),
        WorkFault::Memory | WorkFault::Thread => true,
        _ => false,
    }
}

/// A run with a thread for each of four places. Nothing where memory was refused.
fn relays<R: Threads + Wait + Sync + Abort>(
    alloc: Global,
    rt: &R,
    verified: &Verified,
) -> Option<()> {
    match run_threads(rt, alloc, verified, 4, 1_000, &Open) {
        Ok(report) => {
            assert!(rt; have_first(&report.outputs, &PRINTS, true) && is_beginning(&report));
            Some(())
        }
        Err(fault) => {
            assert!(rt; lacked_memory(&fault));
            None
        }
    }
}

/// The same from a text on.
fn runs<R: Threads + Wait + Sync + Abort>(alloc: Global, rt: &R) -> Option<()> {
    with_program(alloc, rt, RELAY, |verified| relays(alloc, rt, verified))
}

#[test]
fn with_memory(rt: HostRuntime) {
    assert!(rt; are_posted(rt.alloc(), &rt).is_some());
    assert!(rt; is_woven(rt.alloc(), &rt).is_some());
    assert!(rt; runs(rt.alloc(), &rt).is_some());
}

#[test]
fn memory_refused_to_a_turn(rt: HostRuntime) {
    are_posted(rt.alloc(), &rt);
}

#[test]
fn memory_refused_by_weaving(rt: HostRuntime) {
    is_woven(rt.alloc(), &rt);
}

#[test]
fn memory_refused_by_threads(rt: HostRuntime) {
    runs(rt.alloc(), &rt);
}
