//! In which order the events of a run happen.
ghost use Rattle.std.specs.Prelude.{◌≡◌, ◌≢◌, IfOk, IfSome, None};
ghost use Rattle.x10_schedule.specs.declared.schedule.Schedule.TheVariants as schedule;
ghost use Rattle.x10_world.specs.Happenings.{CanHappen, NothingCanHappen};
ghost use Rattle.x10_world.specs.Rounds.{IsEmptyWorld};

use crate::lot::Lot;
use crate::turns::Turns;
use std::alloc::{AllocError, Global};
use std::marker::Model;
use x10_model::Event;
use x10_world::{Rounds, World};

/// In which order the events of a run happen. All but `Rounds` name only events that can happen.
#[derive(Clone, Copy, Debug, PartialEq, Eq)]
pub enum Schedule {
    /// Round after round, as `Rounds` of `x10_world` says; idle events among them.
    Rounds,
    /// Each event is drawn from all that can happen at that moment, by the generator xoshiro256++ with this seed: so it is the
    /// same on every machine. Of `n` events, the one is taken whose number is the remainder of the generator's next 64 bits
    /// by `n`.
    Random(u64),
    /// Activities before frames: each activity that can move makes a step, by rising place and key, and round again. Where none
    /// can, the frame is taken in that was put out first.
    Oldest,
    /// The same, but the frame is taken in that was put out last.
    Newest,
}

/// Names the events of a run by a schedule. It isn't notified of the events: it looks at the world before each one, so nothing
/// else may happen to the world meanwhile. Contracts see the schedule.
#[derive(Drop)]
pub struct Scheduler {
    order: Order,
}

/// How the next event is found.
#[derive(Drop)]
enum Order {
    Rounds(Rounds),
    Random(u64, Lot),
    Oldest(Turns),
    Newest(Turns),
}

impl Model for Scheduler {
    ghost use Rattle.x10_schedule.specs.declared.schedule.Schedule.{Schedule};
    ghost use Rattle.x10_schedule.specs.Schedules.{schedule_of};

    ghost Value = { Schedule };

    ghost view = { λ a. schedule_of a.order };
}

impl Scheduler {
    /// The events of a world by a schedule, from now on. Takes time and memory for the activities and frames that are there.
    pub fn new(alloc: Global, world: &World, schedule: Schedule) -> Result<Scheduler, AllocError>
        ensures { IfOk result (λ scheduler. scheduler ≡ schedule) }
    {
        let order = match schedule {
            Schedule::Rounds => Order::Rounds(Rounds::new(alloc, world)?),
            Schedule::Random(seed) => Order::Random(seed, Lot::new(alloc, world, seed)?),
            Schedule::Oldest => Order::Oldest(Turns::new()),
            Schedule::Newest => Order::Newest(Turns::new()),
        };
        Ok(Scheduler { order })
    }

    /// The event that comes next; none only where nothing can happen. By rounds it may be an idle one, and none comes only
    /// where no activity is anywhere and no frame is in flight. Takes memory for keys and numbers of frames.
    pub fn next(&mut self, world: &World) -> Result<Option<Event>, AllocError>
        ensures able { self.old ≢ schedule.Rounds → IfOk result
            (λ event. IfSome event (CanHappen world.now)) }
        ensures none { IfOk result (λ event. event ≡ None → NothingCanHappen world.now) }
        ensures quiet { self.old ≡ schedule.Rounds → IfOk result
            (λ event. event ≡ None → IsEmptyWorld world.now) }
        ensures kept { self.new ≡ self.old }
    {
        let named = match &mut self.order {
            Order::Rounds(rounds) => return rounds.next(world),
            Order::Random(_, lot) => lot.next(world)?,
            Order::Oldest(turns) => turns.next(world, false),
            Order::Newest(turns) => turns.next(world, true),
        };
        if named.is_some() {
            return Ok(named);
        }
        Ok(world.possible_event())
    }
}
