//! The turns of one worker: which keys they step, when its gate is notified, when it sees a stop, and how often it ends the run.
use crate::sources::{assembled, verified_of};
use std::alloc::Global;
use std::sync::Wait;
use std::sync::atomic::{AtomicU64, Ordering};
use std::test::*;
use x10_hall::{Desk, Mail, Port, PostFault, Signal, Stint, Take};
use x10_verify::Verified;
use x10_workers::{Gate, Halt, Open, Trail, work};

/// Main starts two activities, one after the other, which end at once.
const BEGINS: &str = "places 1
func 1 0 none
RET 0
end
func 1 0 none
ASYNC 0 0
ASYNC 0 0
RET 0
end
entry 1
";

/// The activity with key 1 waits for one that gets main's key 0, once main has ended; meanwhile key 2 makes steps.
const COMES_BACK: &str = "places 1
int 5
func 1 0 none
INTK 0 0
RET 0
end
func 1 0 none
INTK 0 0
FINB
ASYNC 0 0
FINE
RET 0
end
func 1 0 none
INTK 0 0
INTK 0 0
INTK 0 0
INTK 0 0
RET 0
end
func 1 0 none
ASYNC 0 1
ASYNC 0 2
RET 0
end
entry 3
";

/// While main is inside an atomic region, the activity that it started is kept out.
const KEPT_OUT: &str = "version 2
places 1
int 5
func 1 0 none
INTK 0 0
PRINT 0
RET 0
end
func 1 0 none
ASYNC 0 0
ATOMB
INTK 0 0
ATOME
RET 0
end
entry 1
";

/// Main makes 322 steps: five turns of 64, and one of two.
const LONG: &str = "places 1
int 5
func 1 1 none
LOOP 0 160
INTK 0 0
ENDL 0 1
RET 0
end
entry 0
";

/// A gate that notes the numbers of the turns, each behind those before it: one more than the number, as a digit.
#[derive(Drop)]
struct Noting {
    digits: AtomicU64,
}

impl Gate for Noting {
    fn inside(&self, _place: u16, turn: u64) {
        let before = self.digits.load(Ordering::SeqCst);
        let digits = before.wrapping_mul(10).wrapping_add(turn.wrapping_add(1));
        self.digits.store(digits, Ordering::SeqCst);
    }
}

/// A port with no frames, which counts how often the run is ended. Who waits is told of a frame some times, which isn't there, and
/// then that the run has ended.
#[derive(Drop)]
struct Counting {
    is_stopped: bool,
    waits: AtomicU64,
    ends: AtomicU64,
}

impl Port for Counting {
    fn take(&self, _place: u16) -> Take {
        Take::Nothing
    }

    fn post(&self, _stints: Vec<Stint>) -> Result<(), PostFault> {
        Ok(())
    }

    fn wait(&self, _place: u16) -> Signal {
        if self.waits.fetch_add(1, Ordering::SeqCst) < 3 {
            Signal::Frame
        } else {
            Signal::Finished
        }
    }

    fn is_stopped(&self) -> bool {
        self.is_stopped
    }

    fn finish(&self) {
        self.ends.fetch_add(1, Ordering::SeqCst);
    }

    fn stop(&mut self) {
        self.ends.fetch_add(1, Ordering::SeqCst);
    }
}

/// The work of the only place, with a port and a gate.
fn worked<'a>(
    rt: &impl Wait,
    alloc: Global,
    verified: &'a Verified<'a>,
    port: &mut impl Port,
    gate: &impl Gate,
) -> Option<Result<Trail<'a>, Halt>> {
    if verified.image().least() > 1 {
        return None;
    }
    Some(work(rt, alloc, verified, 0, 1, port, gate))
}

/// Whether the first turn that a worker kept steps these keys.
fn begins_with(trail: &Trail, keys: &[usize]) -> bool {
    if trail.turns().is_empty() {
        return false;
    }
    let turn = trail.turns().at(0);
    if turn.keys.len() != keys.len() {
        return false;
    }
    for at in 0..keys.len() {
        if at >= turn.keys.len() || turn.keys.at(at) != keys[at] {
            return false;
        }
    }
    true
}

/// Whether the first turn of a module at one place steps these keys.
fn steps<R: Wait>(rt: &R, alloc: Global, text: &str, keys: &[usize]) -> Result<bool, Fail> {
    let bytes = assembled(alloc, text)?;
    let verified = verified_of(alloc, &bytes)?;
    let mail = Mail::new(alloc, 1, 1_000)?;
    let mut desk = Desk::new(rt, &mail);
    let Some(Ok(trail)) = worked(rt, alloc, &verified, &mut desk, &Open) else {
        return Err("there is no trail".into());
    };
    Ok(begins_with(&trail, keys))
}

/// A key that begins, or comes back, has its place in the order at once. One that is kept out is passed over until then.
#[test]
fn order_of_keys(rt: HostRuntime) -> Result<(), Fail> {
    let alloc = rt.alloc();
    assert!(rt; steps(&rt, alloc, BEGINS, &[0, 1, 0, 1, 0])?);
    let waits = [0, 1, 0, 1, 2, 0, 1, 2, 0, 1, 2, 0, 1, 2, 1, 2];
    assert!(rt; steps(&rt, alloc, COMES_BACK, &waits)?);
    assert!(rt; steps(&rt, alloc, KEPT_OUT, &[0, 1, 0, 0, 0, 1, 0, 1])?);
    Ok(())
}

/// What the worker of the only place has called: the digits of its turns, how often it ended the run, and why it halted.
fn called(
    rt: &impl Wait,
    alloc: Global,
    is_stopped: bool,
) -> Result<(u64, u64, Option<Halt>), Fail> {
    let bytes = assembled(alloc, LONG)?;
    let verified = verified_of(alloc, &bytes)?;
    let gate = Noting {
        digits: AtomicU64::new(0),
    };
    let mut port = Counting {
        is_stopped,
        waits: AtomicU64::new(0),
        ends: AtomicU64::new(0),
    };
    let halt = match worked(rt, alloc, &verified, &mut port, &gate) {
        Some(ended) => ended.err(),
        None => return Err("there is one place".into()),
    };
    let digits = gate.digits.load(Ordering::SeqCst);
    Ok((digits, port.ends.load(Ordering::SeqCst), halt))
}

/// The gate is notified of each turn once, and the run is ended once; a stop is seen in the turn after the one that is held back.
#[test]
fn calls(rt: HostRuntime) -> Result<(), Fail> {
    assert!(rt; called(&rt, rt.alloc(), false)? == (123_456, 1, None));
    assert!(rt; called(&rt, rt.alloc(), true)? == (1, 1, Some(Halt::Ended)));
    Ok(())
}

/// How many turns the worker of the only place keeps of `LONG`, and how many its log has.
fn counted<R: Wait>(rt: &R, alloc: Global, most: u64) -> Result<(Option<usize>, usize), Fail> {
    let bytes = assembled(alloc, LONG)?;
    let verified = verified_of(alloc, &bytes)?;
    let mail = Mail::new(alloc, 1, most)?;
    let mut desk = Desk::new(rt, &mail);
    let kept = match worked(rt, alloc, &verified, &mut desk, &Open) {
        Some(Ok(trail)) => Some(trail.turns().len()),
        _ => None,
    };
    Ok((kept, mail.into_hall().log().len()))
}

/// Turns that are the same again count one by one, also for the limit of turns.
#[test]
fn same_again(rt: HostRuntime) -> Result<(), Fail> {
    assert!(rt; counted(&rt, rt.alloc(), 1_000)? == (Some(6), 6));
    assert!(rt; counted(&rt, rt.alloc(), 6)? == (Some(6), 6));
    assert!(rt; counted(&rt, rt.alloc(), 3)? == (None, 3));
    Ok(())
}
