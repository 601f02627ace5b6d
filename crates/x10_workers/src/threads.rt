//! A thread for each place.
ghost use Rattle.std.specs.Prelude.{◌≡◌, ◌≢◌, ◌<◌, ◌≤◌, ◌↔◌, ℕ, IfOk, IfErr, IfSome, IsErrOf, length};
ghost use Rattle.x10_workers.specs.Reports.{AreLinesBy, IsTold, TellsFailure, TellsHalt};
ghost use Rattle.x10_workers.specs.declared.halt.Halt.TheVariants as halt;
ghost use Rattle.x10_workers.specs.declared.halt.WorkFault.TheVariants as fault;
ghost use Rattle.x10_workers.specs.Plays.{IsPlayed};
ghost use Rattle.x10_workers.specs.Weaves.{AreWithin};
ghost use Rattle.x10_workers.specs.Causes.{AreAllEnds, IsCausedAt};
ghost use Rattle.x10_workers.specs.Workings.{AreTrails, AreAllKept, AreTrailsOf};
ghost use Rattle.x10_verify.specs.Certified.{Certified};
ghost use Rattle.x10_world.specs.Endings.{lines_in};
ghost use Rattle.x10_world.specs.Opening.{IsForbidden};

use crate::auditing::stop_after;
use crate::fault::AuditFault;
use crate::gate::Gate;
use crate::halt::{Begun, Halt, Halted, WorkFault};
use crate::jobs::{Failure, Job, make_all};
use crate::lines::lines_by_place;
use crate::report::RunReport;
use crate::trail::{Kept, Trail};
use crate::weaving::weave;
use crate::working::kept_of;
use std::alloc::Global;
use std::sync::Wait;
use std::thread::Threads;
use x10_hall::{Desk, Mail, Port, Repeats, Turn};
use x10_kinds::Stop;
use x10_model::limits::MOST_PLACES;
use x10_verify::Verified;

/// The workers of a run, with the mail for their port.
#[derive(Drop)]
struct Workers<'w, 'i, R: Wait, G: Gate> {
    rt: &'w R,
    alloc: Global,
    verified: &'w Verified<'i>,
    places: u16,
    mail: &'w Mail,
    gate: &'w G,
}

impl<R: Wait, G: Gate> Job for Workers<'_, '_, R, G> {
    ghost use Rattle.std.specs.Prelude.{◌<◌, ◌≤◌};
    ghost use Rattle.x10_workers.specs.Causes.{IsEndOf};

    ghost asks = { λ w id. (id < w.places) × (w.verified.now.program.least_places ≤ w.places) × (w.places ≤ 64) };

    ghost gives = { λ w id end. IsEndOf w.verified.now w.places id end };

    fn make(&self, id: u16) -> Result<Kept, Halted> {
        let mut desk = Desk::new(self.rt, self.mail);
        kept_of(
            self.rt,
            self.alloc,
            self.verified,
            id,
            self.places,
            &mut desk,
            self.gate,
        )
    }

    fn stop(&self) {
        let mut desk = Desk::new(self.rt, self.mail);
        desk.stop();
    }
}

/// The place of the first worker that failed by itself, of those of so many places.
fn first_failed(places: u16, ends: &[Result<Kept, Halted>]) -> Option<u16>
    ensures { IfSome result (λ place. place < length ends.now) }
{
    for place in 0..places {
        if let Some(Err(halted)) = ends.get(usize::from(place)) {
            if halted.why != Halt::Ended {
                return Some(place);
            }
        }
    }
    None
}

/// How the worker of a place failed.
fn failure_at(place: u16, mut ends: Vec<Result<Kept, Halted>>) -> Failure
    requires { place < length ends.items }
{
    match ends.swap_remove(usize::from(place)) {
        Err(halted) => Failure::Worker(place, halted),
        Ok(_) => Failure::Thread,
    }
}

/// What all workers kept, or why one of them has nothing.
fn gathered(
    alloc: Global,
    places: u16,
    ends: Vec<Result<Kept, Halted>>,
) -> Result<Vec<Kept>, Failure>
    ensures { (c : Certified) (count : ℕ) → AreAllEnds c count ends.items
        → IfOk result (λ kept. AreAllKept c count kept.items) }
{
    if let Some(place) = first_failed(places, &ends) {
        return Err(failure_at(place, ends));
    }
    let mut all = Vec::with_capacity(alloc, ends.len())?;
    for end in ends {
        let Ok(kept) = end else {
            return Err(Failure::Thread);
        };
        if all.push(kept).is_err() {
            return Err(Failure::Memory);
        }
    }
    Ok(all)
}

/// The trails of all places.
fn trails_from<'a>(
    alloc: Global,
    verified: &'a Verified<'a>,
    places: u16,
    all: Vec<Kept>,
) -> Result<Vec<Trail<'a>>, Failure>
    requires { AreAllKept verified.now places all.items }
    ensures { IfOk result (λ trails. AreTrailsOf verified.now places trails.items) }
{
    let mut trails = Vec::with_capacity(alloc, all.len())?;
    for kept in all {
        if trails.push(Trail::new(verified, places, kept)).is_err() {
            return Err(Failure::Memory);
        }
    }
    Ok(trails)
}

/// The report of a run that has ended, if its log has at most `turns` turns and is found in the trails of its places.
fn finished(
    alloc: Global,
    trails: &[Trail],
    log: Repeats<Turn>,
    turns: u64,
) -> Result<RunReport, WorkFault>
    ensures ok { (c : Certified) → AreTrails c trails.now
        → IfOk result (λ r. IsPlayed c (length trails.now) r.log.items (lines_in r.outputs.items)) }
    ensures within { IfOk result (λ r. AreWithin (length trails.now) r.log.items) }
    ensures few { IfOk result (λ r. length r.log.items ≤ turns) }
    ensures places { IsErrOf result fault.Places → ⊥ }
    ensures told { (places most : ℕ) → IfErr result (IsTold places most) }
    ensures caused { (c : Certified) (places : ℕ) → IfErr result (IsCausedAt c places) }
{
    if log.len() as u64 > turns {
        return Err(WorkFault::Differs(turns as usize));
    }
    match weave(alloc, &log, trails) {
        Ok(outputs) => Ok(RunReport { outputs, log }),
        Err(AuditFault::Differs(turn)) => Err(WorkFault::Differs(turn)),
        Err(AuditFault::Open) => Err(WorkFault::Differs(log.len())),
        Err(AuditFault::Stop(_)) => Err(WorkFault::Memory),
    }
}

/// Works at each place in a thread of its own, and answers the trails of all workers, by place.
fn all_trails<'a, R: Threads + Wait + Sync, G: Gate + Sync>(
    rt: &R,
    alloc: Global,
    verified: &'a Verified<'a>,
    places: u16,
    mail: &Mail,
    gate: &G,
) -> Result<Vec<Trail<'a>>, Failure>
    requires enough { verified.now.program.least_places ≤ places }
    requires few { places ≤ 64 }
    ensures { IfOk result (λ trails. AreTrailsOf verified.now places trails.items) }
{
    let workers = Workers {
        rt,
        alloc,
        verified,
        places,
        mail,
        gate,
    };
    let ends = make_all(rt, alloc, places, &workers)?;
    let all = gathered(alloc, places, ends)?;
    trails_from(alloc, verified, places, all)
}

/// The fault of a run in which a place's worker stopped for this reason. A limit is only reported where the turns of the log, and
/// then the turn that the worker had begun, lead to it again. Whether memory is refused again can't be tried.
fn stop_of(
    alloc: Global,
    verified: &Verified,
    place: u16,
    why: Stop,
    begun: Option<Begun>,
    places: u16,
    report: RunReport,
) -> WorkFault
    requires permitted { IsForbidden verified.now places → ⊥ }
    requires lines { AreLinesBy places report.log.items (lines_in report.outputs.items) }
    ensures places { result ≢ fault.Places }
    ensures told { (turns : ℕ) → IsTold places turns result }
    ensures tells { TellsHalt place (halt.Stop why) result }
    ensures caused { IsCausedAt verified.now places result }
{
    if why == Stop::Memory {
        return WorkFault::Stop(place, why, report);
    }
    let Some(Begun { taken, keys }) = begun else {
        return WorkFault::Differs(report.log.len());
    };
    let turn = Turn {
        place,
        taken,
        keys,
        frames: Vec::new(alloc),
        lines: Vec::new(alloc),
    };
    match stop_after(alloc, verified, places, &report.log, &turn) {
        Ok(stop) if stop == why => WorkFault::Stop(place, why, report),
        Err(AuditFault::Differs(number)) => WorkFault::Differs(number),
        Err(AuditFault::Stop(Stop::Memory)) => WorkFault::Memory,
        _ => WorkFault::Differs(report.log.len()),
    }
}

/// The fault of a run that failed, with a report of the turns that were posted.
fn fault_of(
    alloc: Global,
    verified: &Verified,
    places: u16,
    turns: u64,
    failure: Failure,
    log: Repeats<Turn>,
) -> WorkFault
    requires permitted { IsForbidden verified.now places → ⊥ }
    ensures places { result ≢ fault.Places }
    ensures told { IsTold places turns result }
    ensures tells { TellsFailure failure result }
    ensures caused { IsCausedAt verified.now places result }
{
    let (place, halted) = match failure {
        Failure::Worker(place, halted) => (place, halted),
        Failure::Memory => return WorkFault::Memory,
        Failure::Thread => return WorkFault::Thread,
    };
    let Ok(outputs) = lines_by_place(alloc, places, &log) else {
        return WorkFault::Memory;
    };
    let report = RunReport { outputs, log };
    let Halted { why, begun } = halted;
    match why {
        Halt::Stop(stop) => stop_of(alloc, verified, place, stop, begun, places, report),
        Halt::Turns if report.log.len() as u64 == turns => WorkFault::Turns(report),
        Halt::Turns => WorkFault::Differs(report.log.len()),
        Halt::Refused(_) => WorkFault::Differs(report.log.len()),
        Halt::Ended => WorkFault::Thread,
    }
}

/// Runs a module at `places` places, each in a thread of its own, until no activity is left, or `turns` turns were posted.
/// Places hand each other nothing but frames. What a place did in a turn is posted to one log, and kept by its worker. Where
/// the run has ended, the log is compared with what the workers kept: so an Ok carries a log that is a run of the machine, with
/// its outputs. It has at most `turns` turns, each as short as `x10_log` reads it. Where a place stops at a limit, the log is
/// made again by one thread, to see that it leads there. The gate is notified of each turn. May wait: nothing is promised about when, or
/// whether, it returns.
pub fn run_threads<R: Threads + Wait + Sync, G: Gate + Sync>(
    rt: &R,
    alloc: Global,
    verified: &Verified,
    places: u16,
    turns: u64,
    gate: &G,
) -> Result<RunReport, WorkFault>
    ensures ok { IfOk result (λ r. IsPlayed verified.now places r.log.items
        (lines_in r.outputs.items)) }
    ensures within { IfOk result (λ r. AreWithin places r.log.items) }
    ensures few { IfOk result (λ r. length r.log.items ≤ turns) }
    ensures places { IsErrOf result fault.Places ↔ IsForbidden verified.now places }
    ensures told { IfErr result (IsTold places turns) }
    ensures caused { IfErr result (IsCausedAt verified.now places) }
{
    verified.certificate();
    if places < verified.image().least() || places > MOST_PLACES {
        return Err(WorkFault::Places);
    }
    let mail = Mail::new(alloc, places, turns)?;
    let trails = all_trails(rt, alloc, verified, places, &mail, gate);
    let log = mail.into_hall().into_log();
    match trails {
        Ok(trails) => finished(alloc, &trails, log, turns),
        Err(failure) => Err(fault_of(alloc, verified, places, turns, failure, log)),
    }
}
