//! Logs that are compared with what the worker of their place kept.
use super::changed::{Change, make_change};
use super::logs::{listed, logged};
use super::runs::{ACROSS, printed};
use crate::sources::{assembled, verified_of};
use std::alloc::Global;
use std::sync::Wait;
use std::test::*;
use x10_hall::{Desk, Mail, Port, PostFault, Repeats, Signal, Stint, Take, Turn};
use x10_verify::Verified;
use x10_workers::{AuditFault, Halt, Open, Trail, weave, work};

/// Main sends an activity with a number to its own place, which prints it.
const OWN: &str = "places 1
int 5
func 1 0 none int
PRINT 0
RET 0
end
func 2 0 none
INTK 0 0
HERE 1
ATA 0 1 0
RET 0
end
entry 1
";

/// What the worker of one place kept, and the log of its turns.
#[derive(Drop)]
struct Kept<'a> {
    trails: Vec<Trail<'a>>,
    log: Repeats<Turn>,
}

/// A port that takes no turn.
#[derive(Clone, Copy)]
struct Full;

impl Port for Full {
    fn take(&self, _place: u16) -> Take {
        Take::Nothing
    }

    fn post(&self, _stints: Vec<Stint>) -> Result<(), PostFault> {
        Err(PostFault::Turns)
    }

    fn wait(&self, _place: u16) -> Signal {
        Signal::Finished
    }

    fn is_stopped(&self) -> bool {
        false
    }

    fn finish(&self) {}

    fn stop(&mut self) {}
}

/// A port of a run that was stopped.
#[derive(Clone, Copy)]
struct Closed;

impl Port for Closed {
    fn take(&self, _place: u16) -> Take {
        Take::Stopped
    }

    fn post(&self, _stints: Vec<Stint>) -> Result<(), PostFault> {
        Err(PostFault::Stopped)
    }

    fn wait(&self, _place: u16) -> Signal {
        Signal::Stopped
    }

    fn is_stopped(&self) -> bool {
        true
    }

    fn finish(&self) {}

    fn stop(&mut self) {}
}

/// A port at which nobody waits: where there is nothing to take, the run has ended.
#[derive(Drop)]
pub(crate) struct Brief<'a, R: Wait> {
    desk: Desk<'a, R>,
}

impl<'a, R: Wait> Brief<'a, R> {
    pub(crate) fn new(desk: Desk<'a, R>) -> Brief<'a, R> {
        Brief { desk }
    }
}

impl<R: Wait> Port for Brief<'_, R> {
    fn take(&self, place: u16) -> Take {
        self.desk.take(place)
    }

    fn post(&self, stints: Vec<Stint>) -> Result<(), PostFault> {
        self.desk.post(stints)
    }

    fn wait(&self, _place: u16) -> Signal {
        Signal::Finished
    }

    fn is_stopped(&self) -> bool {
        self.desk.is_stopped()
    }

    fn finish(&self) {}

    fn stop(&mut self) {}
}

/// The work of the only place, with a port.
fn worked<'a>(
    rt: &impl Wait,
    alloc: Global,
    verified: &'a Verified<'a>,
    port: &mut impl Port,
) -> Option<Result<Trail<'a>, Halt>> {
    if verified.image().least() > 1 {
        return None;
    }
    Some(work(rt, alloc, verified, 0, 1, port, &Open))
}

/// What the worker of the only place keeps in a new run.
fn run_alone<'a, R: Wait>(
    rt: &R,
    alloc: Global,
    verified: &'a Verified<'a>,
) -> Result<Kept<'a>, Fail> {
    let mail = Mail::new(alloc, 1, 1_000)?;
    let mut desk = Desk::new(rt, &mail);
    let Some(Ok(trail)) = worked(rt, alloc, verified, &mut desk) else {
        return Err("there is no trail".into());
    };
    let mut trails = Vec::new(alloc);
    trails.push(trail)?;
    let log = mail.into_hall().into_log();
    Ok(Kept { trails, log })
}

/// What the workers of two places keep, where the second one begins after the first has ended.
fn run_in_turn<'a, R: Wait>(
    rt: &R,
    alloc: Global,
    verified: &'a Verified<'a>,
) -> Result<Kept<'a>, Fail> {
    if verified.image().least() > 2 {
        return Err("there are two places".into());
    }
    let mail = Mail::new(alloc, 2, 1_000)?;
    let desk = Desk::new(rt, &mail);
    let mut brief = Brief::new(desk);
    let mut trails = Vec::new(alloc);
    for id in 0..2u16 {
        match work(rt, alloc, verified, id, 2, &mut brief, &Open) {
            Ok(trail) => trails.push(trail)?,
            Err(_) => return Err("there is no trail".into()),
        }
    }
    let log = mail.into_hall().into_log();
    Ok(Kept { trails, log })
}

/// Whether a fault is the one that a change of the log calls for; a turn that isn't there is missed after the last one.
fn is_right(what: Change, at: Option<usize>, turns: usize, fault: Option<AuditFault>) -> bool {
    let wanted = match what {
        Change::Nothing => None,
        Change::Last => Some(turns),
        _ => at,
    };
    fault == wanted.map(|turn| AuditFault::Differs(turn))
}

/// Whether a change in a log is reported.
fn is_told_of(alloc: Global, kept: &Kept, what: Change) -> Result<bool, Fail> {
    let mut turns = listed(alloc, &kept.log)?;
    let at = make_change(alloc, &mut turns, what)?;
    let log = logged(alloc, turns)?;
    let fault = weave(alloc, &log, &kept.trails).err();
    Ok(is_right(what, at, log.len(), fault))
}

/// Whether a change in the log of a new run is reported.
fn is_told<R: Wait>(rt: &R, alloc: Global, what: Change) -> Result<bool, Fail> {
    let bytes = assembled(alloc, OWN)?;
    let verified = verified_of(alloc, &bytes)?;
    let kept = run_alone(rt, alloc, &verified)?;
    is_told_of(alloc, &kept, what)
}

#[test]
fn outputs(rt: HostRuntime) -> Result<(), Fail> {
    let bytes = assembled(rt.alloc(), OWN)?;
    let verified = verified_of(rt.alloc(), &bytes)?;
    let kept = run_alone(&rt, rt.alloc(), &verified)?;
    let Ok(outputs) = weave(rt.alloc(), &kept.log, &kept.trails) else {
        return Err("the log isn't that of the trail".into());
    };
    let wanted: [&[i64]; 1] = [&[5]];
    assert!(rt; printed(&outputs, &wanted));
    Ok(())
}

#[test]
fn changed(rt: HostRuntime) -> Result<(), Fail> {
    let changes = [
        Change::Nothing,
        Change::Line,
        Change::Last,
        Change::Place,
        Change::Frame,
        Change::Taken,
        Change::Key,
    ];
    for what in changes {
        assert!(rt; is_told(&rt, rt.alloc(), what)?, "{what:?}");
    }
    Ok(())
}

#[test]
fn other_ports(rt: HostRuntime) -> Result<(), Fail> {
    let bytes = assembled(rt.alloc(), OWN)?;
    let verified = verified_of(rt.alloc(), &bytes)?;
    let full = worked(&rt, rt.alloc(), &verified, &mut Full);
    assert!(rt; matches!(full, Some(Err(Halt::Turns))));
    let closed = worked(&rt, rt.alloc(), &verified, &mut Closed);
    assert!(rt; matches!(closed, Some(Err(Halt::Ended))));
    Ok(())
}

/// Whether the last turn of a log is one of a place.
fn ends_at(log: &Repeats<Turn>, place: u16) -> bool {
    let turns = log.len();
    turns > 0 && log.at(turns - 1).place == place
}

/// A log without its last turn.
fn without_last(alloc: Global, log: &Repeats<Turn>) -> Result<Repeats<Turn>, Fail> {
    let mut turns = listed(alloc, log)?;
    turns.pop();
    logged(alloc, turns)
}

/// Whether a log without its last turn differs at its end from what the workers kept.
fn differs_cut(alloc: Global, kept: &Kept) -> Result<bool, Fail> {
    let cut = without_last(alloc, &kept.log)?;
    let fault = weave(alloc, &cut, &kept.trails).err();
    Ok(fault == Some(AuditFault::Differs(cut.len())))
}

#[test]
fn last_turn_elsewhere(rt: HostRuntime) -> Result<(), Fail> {
    let bytes = assembled(rt.alloc(), ACROSS)?;
    let verified = verified_of(rt.alloc(), &bytes)?;
    let kept = run_in_turn(&rt, rt.alloc(), &verified)?;
    let whole = weave(rt.alloc(), &kept.log, &kept.trails).err();
    assert!(rt; whole == Some(AuditFault::Open) && ends_at(&kept.log, 1));
    assert!(rt; differs_cut(rt.alloc(), &kept)?);
    Ok(())
}
