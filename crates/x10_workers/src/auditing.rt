//! Whether a log is a run, found out by making it again.
ghost use Rattle.std.specs.Prelude.{◌≡◌, ◌≢◌, true, IfOk, IfErr};
ghost use Rattle.x10_model.specs.Worlds.{World as Machine, IsOver};
ghost use Rattle.x10_workers.specs.Audits.{BreaksOff, HasNotEnded, IsNotPlayed};
ghost use Rattle.x10_workers.specs.Causes.{IsStopAfter};
ghost use Rattle.x10_workers.specs.Plays.{Plays, IsPlayed};
ghost use Rattle.x10_world.specs.Endings.{lines_in, lines_at};
ghost use Rattle.x10_world.specs.Opening.{IsForbidden};
ghost use Rattle.x10_world.specs.Queries.{IsClosed};
ghost use Rattle.x10_world.specs.StandsForWorld.{StandsForWorld};

use crate::fault::AuditFault;
use crate::turns::replay_turn;
use std::alloc::Global;
use x10_hall::limits::{MOST_STEPS, MOST_TAKEN};
use x10_hall::{Repeats, Turn};
use x10_kinds::Stop;
use x10_place::Line;
use x10_verify::Verified;
use x10_world::World;

/// Makes the turns of a log in a world, up to the first that isn't what the log says.
fn replay_all(world: &mut World, log: &[Turn]) -> Result<(), AuditFault>
    requires { world.old.stopped ≢ true }
    ensures plays { IfOk result (λ _. Plays world.old log.now world.new) }
    ensures err { IfErr result (BreaksOff world.old log.now) }
{
    for at in 0..log.len() {
        match replay_turn(world, &log[at]) {
            Ok(true) => {}
            Ok(false) => return Err(AuditFault::Differs(at)),
            Err(stop) => return Err(AuditFault::Stop(stop)),
        }
    }
    Ok(())
}

/// What each place of a world printed, if its run has ended.
fn ended(alloc: Global, world: &World) -> Result<Vec<Vec<Line>>, AuditFault>
    ensures closed { IfOk result (λ _. IsClosed world.now.places) }
    ensures over { IfOk result (λ _. (w : Machine) → StandsForWorld world.now w → IsOver w) }
    ensures lines { IfOk result (λ outputs. lines_in outputs.items ≡ lines_at world.now.places) }
    ensures err { IfErr result (HasNotEnded world.now) }
{
    if !world.closed() {
        return Err(AuditFault::Open);
    }
    match world.outputs(alloc) {
        Ok(outputs) => Ok(outputs),
        Err(_) => Err(AuditFault::Stop(Stop::Memory)),
    }
}

/// Makes the turns of a log again in a world of `places` places, and answers what each place printed. It refuses the first turn
/// that took what was not in flight to its place, or that put out or printed something else than these events do; then a log
/// after which the run has not ended. It stops where memory or an event of a turn is refused. Linear in the events of the log.
pub fn audit(
    alloc: Global,
    verified: &Verified,
    places: u16,
    log: &[Turn],
) -> Result<Vec<Vec<Line>>, AuditFault>
    requires permitted { IsForbidden verified.now places → ⊥ }
    ensures ok { IfOk result (λ outputs. IsPlayed verified.now places log.now
        (lines_in outputs.items)) }
    ensures err { IfErr result (IsNotPlayed verified.now places log.now) }
{
    let Ok(mut world) = World::open(alloc, verified, places) else {
        return Err(AuditFault::Stop(Stop::Memory));
    };
    replay_all(&mut world, log)?;
    ended(alloc, &world)
}

/// Makes the turns of a run's log in a world, up to the first that isn't what the log says.
fn replay_log(world: &mut World, log: &Repeats<Turn>) -> Result<(), AuditFault>
    requires { world.old.stopped ≢ true }
    ensures plays { IfOk result (λ _. Plays world.old log.now.items world.new) }
    ensures goes { IfOk result (λ _. world.new.stopped ≢ true) }
{
    for at in 0..log.len() {
        match replay_turn(world, log.at(at)) {
            Ok(true) => {}
            Ok(false) => return Err(AuditFault::Differs(at)),
            Err(stop) => return Err(AuditFault::Stop(stop)),
        }
    }
    Ok(())
}

/// Makes the turns of a run's log again, and then a turn that a place began after them, and returns why an event of this turn is
/// refused. Where none is, or where the turn is too long for a turn, the log differs, by the number of its turns. Linear in the
/// events.
pub(crate) fn stop_after(
    alloc: Global,
    verified: &Verified,
    places: u16,
    log: &Repeats<Turn>,
    begun: &Turn,
) -> Result<Stop, AuditFault>
    requires permitted { IsForbidden verified.now places → ⊥ }
    ensures { IfOk result (IsStopAfter verified.now places log.now.items begun.now.place) }
{
    if begun.taken.len() > usize::from(MOST_TAKEN) || begun.keys.len() > usize::from(MOST_STEPS) {
        return Err(AuditFault::Differs(log.len()));
    }
    let Ok(mut world) = World::open(alloc, verified, places) else {
        return Err(AuditFault::Stop(Stop::Memory));
    };
    replay_log(&mut world, log)?;
    match replay_turn(&mut world, begun) {
        Ok(_) => Err(AuditFault::Differs(log.len())),
        Err(stop) => Ok(stop),
    }
}
