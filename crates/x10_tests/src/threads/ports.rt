//! Ports that hand out frames in other ways than a hall, and what a worker and its log make of them.
use super::meeting::TWO;
use super::weaving::Brief;
use crate::sources::{assembled, verified_of};
use std::alloc::{AllocError, Global};
use std::sync::{Arc, Mutex, Wait};
use std::test::*;
use x10_copy::Refusal;
use x10_hall::{Desk, Mail, Port, PostFault, Repeats, Signal, Stint, Take, Taken, Turn};
use x10_verify::Verified;
use x10_workers::{AuditFault, Halt, Open, Trail, weave, work};

/// Main sends 17 activities to place 1 in one turn.
const SEVENTEEN: &str = "places 2
int 5
func 1 0 none
INTK 0 0
PRINT 0
RET 0
end
func 1 1 none
PLACEK 0 1
LOOP 0 17
ATA 0 0 0
ENDL 0 2
RET 0
end
entry 1
";

/// How a port hands out frames.
#[derive(Clone, Copy, Debug, PartialEq, Eq)]
enum Manner {
    /// As the hall does.
    Plain,
    /// Each frame twice.
    Twice,
    /// Those that are there at once, the last one first.
    Backwards,
    /// Those of another place.
    Of(u16),
}

/// A port at which nobody waits, and that hands out frames in some manner.
#[derive(Drop)]
struct Odd<'a, R: Wait> {
    rt: &'a R,
    brief: Brief<'a, R>,
    manner: Manner,
    /// Frames that it has still to hand out, the next one last.
    held: Mutex<Vec<Taken>>,
}

/// The same frame again.
fn copied(frame: &Taken) -> Result<Taken, AllocError> {
    Ok(Taken {
        number: frame.number,
        bytes: Arc::try_clone(&frame.bytes)?,
    })
}

impl<R: Wait> Odd<'_, R> {
    /// Holds the next frames of the hall, if there are some.
    fn fill(&self, place: u16, held: &mut Vec<Taken>) -> Result<(), AllocError> {
        let (from, most) = match self.manner {
            Manner::Plain | Manner::Twice => (place, 1u8),
            Manner::Backwards => (place, 16),
            Manner::Of(other) => (other, 1),
        };
        for _ in 0..most {
            let Take::Frame(frame) = self.brief.take(from) else {
                return Ok(());
            };
            if self.manner == Manner::Twice {
                held.push(copied(&frame)?)?;
            }
            held.push(frame)?;
        }
        Ok(())
    }

    /// The next frame, if there is one.
    fn next(&self, place: u16) -> Option<Taken> {
        let mut held = self.held.lock(self.rt);
        if held.is_empty() && self.fill(place, &mut held).is_err() {
            return None;
        }
        held.pop()
    }
}

impl<R: Wait> Port for Odd<'_, R> {
    fn take(&self, place: u16) -> Take {
        match self.next(place) {
            Some(frame) => Take::Frame(frame),
            None => Take::Nothing,
        }
    }

    fn post(&self, stints: Vec<Stint>) -> Result<(), PostFault> {
        self.brief.post(stints)
    }

    fn wait(&self, place: u16) -> Signal {
        let Some(frame) = self.next(place) else {
            return Signal::Finished;
        };
        if self.held.lock(self.rt).push(frame).is_err() {
            return Signal::Finished;
        }
        Signal::Frame
    }

    fn is_stopped(&self) -> bool {
        self.brief.is_stopped()
    }

    fn finish(&self) {
        self.brief.finish();
    }

    fn stop(&mut self) {
        self.brief.stop();
    }
}

/// How the worker of place 1 ended, which got its frames in some manner, and what the comparison of the log with the trails of
/// places 0 and 1 says.
#[derive(Drop)]
struct Odds {
    halt: Option<Halt>,
    fault: Option<AuditFault>,
    log: Repeats<Turn>,
}

/// The work of a place, one of as many as the module has at least.
fn worked<'a, R: Wait>(
    rt: &R,
    alloc: Global,
    verified: &'a Verified<'a>,
    id: u16,
    port: &mut Odd<'_, R>,
) -> Option<Result<Trail<'a>, Halt>> {
    verified.certificate();
    let places = verified.image().least();
    if id >= places {
        return None;
    }
    Some(work(rt, alloc, verified, id, places, port, &Open))
}

/// A port at a hall that hands out frames in some manner.
fn port_at<'a, R: Wait>(rt: &'a R, alloc: Global, mail: &'a Mail, manner: Manner) -> Odd<'a, R> {
    let desk = Desk::new(rt, mail);
    let brief = Brief::new(desk);
    let held = Mutex::new(Vec::new(alloc));
    Odd {
        rt,
        brief,
        manner,
        held,
    }
}

/// The workers of places 0 and 1, one after the other, of which the second gets its frames in some manner.
fn run_oddly<'a, R: Wait>(
    rt: &R,
    alloc: Global,
    verified: &'a Verified<'a>,
    manner: Manner,
) -> Result<Odds, Fail> {
    let mail = Mail::new(alloc, verified.image().least(), 1_000)?;
    let mut trails = Vec::new(alloc);
    let mut halt = None;
    for (id, manner) in [(0, Manner::Plain), (1, manner)] {
        let mut port = port_at(rt, alloc, &mail, manner);
        match worked(rt, alloc, verified, id, &mut port) {
            Some(Ok(trail)) => trails.push(trail)?,
            Some(Err(why)) => halt = Some(why),
            None => return Err("there are two places".into()),
        }
    }
    let log = mail.into_hall().into_log();
    let fault = weave(alloc, &log, &trails).err();
    Ok(Odds { halt, fault, log })
}

/// How place 1 ends, and what the comparison says, where it gets its frames in some manner.
fn ending<R: Wait>(rt: &R, alloc: Global, text: &str, manner: Manner) -> Result<Odds, Fail> {
    let bytes = assembled(alloc, text)?;
    let verified = verified_of(alloc, &bytes)?;
    run_oddly(rt, alloc, &verified, manner)
}

/// Whether place 1 took these frames in its turns, turn after turn.
fn took(log: &Repeats<Turn>, turns: &[&[u64]]) -> bool {
    let mut next = turns.iter();
    for at in 0..log.len() {
        let turn = log.at(at);
        if turn.place == 1
            && next.next().map(|taken| turn.taken.as_slice() == *taken) != Some(true)
        {
            return false;
        }
    }
    next.next().is_none()
}

const FIRST: [u64; 16] = [0, 1, 2, 3, 4, 5, 6, 7, 8, 9, 10, 11, 12, 13, 14, 15];

const LAST: [u64; 16] = [15, 14, 13, 12, 11, 10, 9, 8, 7, 6, 5, 4, 3, 2, 1, 0];

const TWICE: [u64; 16] = [0, 0, 1, 1, 2, 2, 3, 3, 4, 4, 5, 5, 6, 6, 7, 7];

const TWICE_MORE: [u64; 16] = [8, 8, 9, 9, 10, 10, 11, 11, 12, 12, 13, 13, 14, 14, 15, 15];

/// Of 17 frames a turn takes 16, and the next one the last. They may come in any order, but none twice: the first turn with such a
/// frame is the one that differs. A frame of another place is refused.
#[test]
fn manners(rt: HostRuntime) -> Result<(), Fail> {
    let alloc = rt.alloc();
    let plain = ending(&rt, alloc, SEVENTEEN, Manner::Plain)?;
    assert!(rt; plain.fault == Some(AuditFault::Open));
    assert!(rt; took(&plain.log, &[&FIRST, &[16]]));
    let backwards = ending(&rt, alloc, SEVENTEEN, Manner::Backwards)?;
    assert!(rt; backwards.fault == Some(AuditFault::Open));
    assert!(rt; took(&backwards.log, &[&LAST, &[16]]));
    let twice = ending(&rt, alloc, SEVENTEEN, Manner::Twice)?;
    assert!(rt; twice.halt.is_none() && twice.fault == Some(AuditFault::Differs(1)));
    assert!(rt; took(&twice.log, &[&TWICE, &TWICE_MORE, &[16, 16]]));
    let other = ending(&rt, alloc, TWO, Manner::Of(2))?;
    assert!(rt; other.halt == Some(Halt::Refused(Refusal::NotHere)));
    assert!(rt; took(&other.log, &[]));
    Ok(())
}
