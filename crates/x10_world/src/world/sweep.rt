//! A step of each of several activities of a place.
ghost use Rattle.std.specs.Prelude.{◌≡◌, ◌≢◌, ◌<◌, ◌≤◌, true, IfOk, IfErr, length};
ghost use Rattle.x10_model.specs.Worlds as machine;
ghost use Rattle.x10_world.specs.Queries.{HasNoPlace};
ghost use Rattle.x10_world.specs.StandsForWorld.{StandsForWorld, KeepsSetting};
ghost use Rattle.x10_world.specs.Runs.{Runs, IsHaltedRun, steps_at};

use crate::places::noted;
use crate::world::World;
use crate::world::events::post_all;
use x10_kinds::Stop;
use x10_place::Sweep;

/// What a sweep over some activities did.
#[derive(Clone, Copy)]
pub(crate) struct Swept {
    /// How many steps were made, of the first ones, idle ones included.
    pub made: usize,
    /// How many of them moved.
    pub moved: usize,
}

impl<'a> World<'a> {
    /// A step of each of the activities of a place with some keys, in this order, as `make_one` makes it, up to the first that
    /// puts out a frame, or begins or ends an activity; none only where there is no such place. Room for two frames is made once.
    pub(crate) fn sweep(&mut self, place: u16, keys: &[usize]) -> Result<Swept, Stop>
        requires going { self.old.stopped ≢ true }
        requires some { 0 < length keys.now }
        ensures runs { IfOk result (λ swept. (w : machine.World) → StandsForWorld self.old w
            → Runs self.old w swept.made (steps_at place keys.now) self.new) }
        ensures few { IfOk result (λ swept. swept.made ≤ length keys.now) }
        ensures some { IfOk result (λ swept. swept.made ≡ 0
            → HasNoPlace self.old.places place) }
        ensures goes { IfOk result (λ _. self.new.stopped ≢ true) }
        ensures halted { IfErr result (IsHaltedRun self.old (steps_at place keys.now) self.new) }
        ensures kept { KeepsSetting self.old self.new }
    {
        self.verified.certificate();
        if let Err(why) = self.flights.make_room() {
            self.stopped = true;
            return Err(why);
        }
        if usize::from(place) >= self.places.list.len() {
            return Ok(Swept { made: 0, moved: 0 });
        }
        let Sweep { made, moved, last } = self.places.list[usize::from(place)].sweep(keys);
        self.places.living = noted(
            self.places.living,
            place,
            &self.places.list[usize::from(place)],
        );
        match last {
            Ok(sent) => {
                post_all(&mut self.flights, sent);
                Ok(Swept { made, moved })
            }
            Err(why) => {
                self.stopped = true;
                Err(why)
            }
        }
    }
}
