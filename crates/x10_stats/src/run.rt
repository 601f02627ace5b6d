//! Whole runs whose events are counted.
ghost use Rattle.std.specs.Prelude.{◌≡◌, ◌≢◌, true, IfOk, IfErr, OnOk, Err};
ghost use Rattle.x10_kinds.specs.declared.stop.Stop.TheVariants as stop;
ghost use Rattle.x10_model.specs.Worlds as machine;
ghost use Rattle.x10_world.specs.declared.done.Done.{Done};
ghost use Rattle.x10_world.specs.declared.rounds.Unfinished.TheVariants as halt;
ghost use Rattle.x10_world.specs.Happenings.{HasDone};
ghost use Rattle.x10_world.specs.Queries.{IsClosed};
ghost use Rattle.x10_world.specs.Rounds.{NoneIsLeft, RunsTo};
ghost use Rattle.x10_world.specs.StandsForWorld.{StandsForWorld, MakesEvent};
ghost use Rattle.x10_schedule.specs.declared.schedule.Schedule.TheVariants as schedules;
ghost use Rattle.x10_stats.specs.Counts.{CountsDue, HasCounted, IsCut, IsUnmade, counted_with};
ghost use Rattle.x10_stats.specs.Tallies.{IsSeenBefore};

use crate::counts::Counts;
use crate::sight::look;
use std::alloc::Global;
use x10_model::Event;
use x10_schedule::{Schedule, Scheduler};
use x10_world::{Unfinished, World};

/// An event that is idle where nothing can happen.
const IDLE: Event = Event::Step(0, 0);

/// Runs a world by a schedule until the run has ended, with at most `limit` events, as `run_by` of `x10_schedule` does, and
/// counts each of them. The answer is Limit exactly where `limit` events were made and the last one didn't end the run. Where
/// nothing can happen and the run has not ended, idle events make the rest. A world that has stopped answers so, and stays as
/// it is. It makes each event by itself: where one activity works alone, it takes some 35 times as long as `run_by`. Following
/// activities takes 24 bytes for each stay of those that there were at one time at a place.
pub fn count_run(
    alloc: Global,
    world: &mut World,
    schedule: Schedule,
    limit: u64,
    counts: &mut Counts,
) -> Result<(), Unfinished>
    ensures runs { RunsTo world.old world.new }
    ensures counted { world.old.stopped ≢ true → IfOk result
        (λ _. HasCounted counts.old world.old limit counts.new world.new) }
    ensures ended { IfOk result (λ _. NoneIsLeft world.new) }
    ensures closed { IfOk result (λ _. IsClosed world.new.places) }
    ensures cut { world.old.stopped ≢ true → IfErr result
        (IsCut counts.old world.old limit counts.new world.new) }
    ensures due { schedule ≢ schedules.Rounds → world.old.stopped ≢ true
        → CountsDue counts.old world.old limit counts.new result world.new }
    ensures stopped { world.old.stopped ≡ true → (result ≡ Err (halt.Stop stop.Stopped))
        × (world.new ≡ world.old) × (counts.new ≡ counts.old) }
{
    world.going()?;
    let mut scheduler = Scheduler::new(alloc, world, schedule)?;
    for made in 0..limit {
        let event = scheduler.next(world)?.unwrap_or(IDLE);
        count_event(world, event, counts)?;
        if world.closed() {
            return Ok(());
        }
    }
    world.at_limit(limit)
}

/// Makes an event, and counts what it did. Room for the stay that it may begin is made first: so nothing is refused after the
/// world has changed.
fn count_event(world: &mut World, event: Event, counts: &mut Counts) -> Result<(), Unfinished>
    requires { world.old.stopped ≢ true }
    ensures seen { IsSeenBefore world.old event }
    ensures done { OnOk result ((did : Done) × HasDone world.old event did world.new
        × (counts.new ≡ counted_with counts.old world.old event did world.new)) }
    ensures made { IfOk result (λ _. (w : machine.World) → StandsForWorld world.old w
        → MakesEvent world.old w event world.new) }
    ensures goes { IfOk result (λ _. world.new.stopped ≢ true) }
    ensures unmade { IfErr result (IsUnmade counts.old world.old event counts.new world.new) }
    ensures runs { RunsTo world.old world.new }
{
    let sight = look(world, event);
    counts.prepare(&sight)?;
    let done = world.event(event)?;
    counts.note(event, &sight, world, &done);
    Ok(())
}
