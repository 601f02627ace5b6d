//! Whole runs by a schedule.
ghost use Rattle.std.specs.Prelude.{◌≡◌, ◌≢◌, ℕ, true, IfOk, IfErr, Err};
ghost use Rattle.x10_kinds.specs.declared.stop.Stop.TheVariants as stop;
ghost use Rattle.x10_world.specs.declared.rounds.Unfinished.TheVariants as halt;
ghost use Rattle.x10_schedule.specs.declared.schedule.Schedule.TheVariants as schedules;
ghost use Rattle.x10_schedule.specs.Schedules.{ActsBy};
ghost use Rattle.x10_world.specs.Queries.{IsClosed};
ghost use Rattle.x10_world.specs.Rounds.{NoneIsLeft, RunsTo, IsHalted, HasMade};

use crate::schedule::{Schedule, Scheduler};
use std::alloc::Global;
use x10_kinds::Stop;
use x10_world::{Unfinished, World, run_rounds};

/// Runs a world by a schedule until the run has ended, with at most `limit` events: by rounds idle ones are included, and by the
/// other schedules there are none. The answer is Limit exactly where `limit` events were made and the last one didn't end the
/// run. Where nothing can happen and the run has not ended, rounds make the rest. A world that has stopped answers so, and stays
/// as it is.
pub fn run_by(
    alloc: Global,
    world: &mut World,
    schedule: Schedule,
    limit: u64,
) -> Result<(), Unfinished>
    ensures runs { RunsTo world.old world.new }
    ensures made { world.old.stopped ≢ true → IfOk result
        (λ _. (n : ℕ) × HasMade world.old limit n world.new) }
    ensures ended { IfOk result (λ _. NoneIsLeft world.new) }
    ensures closed { IfOk result (λ _. IsClosed world.new.places) }
    ensures halted { world.old.stopped ≢ true → IfErr result (IsHalted world.old limit world.new) }
    ensures acts { schedule ≢ schedules.Rounds → world.old.stopped ≢ true
        → ActsBy world.old limit result world.new }
    ensures stopped { world.old.stopped ≡ true → (result ≡ Err (halt.Stop stop.Stopped))
        × (world.new ≡ world.old) }
{
    if schedule == Schedule::Rounds {
        return run_rounds(alloc, world, limit);
    }
    world.going()?;
    let mut scheduler = Scheduler::new(alloc, world, schedule)?;
    for made in 0..limit {
        let Some(event) = scheduler.next(world)? else {
            return run_rounds(alloc, world, limit - made);
        };
        world.make_one(event)?;
        if world.live(0) == 0 && world.closed() {
            return Ok(());
        }
    }
    world.at_limit(limit)
}
