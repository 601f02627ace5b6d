//! Activities before frames: each activity that can move makes a step, and where none can, one frame is taken in.
ghost use Rattle.std.specs.Prelude.{IfSome};
ghost use Rattle.x10_world.specs.Happenings.{CanHappen};

use x10_model::Event;
use x10_world::World;

/// Where the next activity is looked for.
#[derive(Clone, Copy)]
pub(crate) struct Turns {
    place: u16,
    /// The least key.
    from: usize,
}

impl Turns {
    /// From the first activity of place 0 on.
    pub fn new() -> Turns {
        Turns { place: 0, from: 0 }
    }

    /// The next event: a step of the next activity that can move, or, where none can, the delivery of the frame that was put out
    /// first, or last. None where there is neither. Linear in the activities that can't move, and in the frames that were put
    /// out after the one that is taken in.
    pub fn next(&mut self, world: &World, newest: bool) -> Option<Event>
        ensures { IfSome result (CanHappen world.now) }
    {
        // the place at which it begins comes twice: its keys below the first one are looked at last
        for _ in 0..=world.count() {
            if let Some(event) = self.step(world) {
                return Some(event);
            }
            self.pass(world);
        }
        delivery(world, newest)
    }

    /// The step of the next activity of the place that can move.
    fn step(&mut self, world: &World) -> Option<Event>
        ensures { IfSome result (CanHappen world.now) }
    {
        for _ in 0..world.live(self.place) {
            let key = world.next_key(self.place, self.from)?;
            self.from = key.checked_add(1)?;
            let event = Event::Step(self.place, key);
            if world.can_happen(event) {
                return Some(event);
            }
        }
        None
    }

    /// Goes on to the next place.
    fn pass(&mut self, world: &World) {
        let next = self.place.saturating_add(1);
        self.place = if next < world.count() { next } else { 0 };
        self.from = 0;
    }
}

/// The delivery of a frame in flight, if there is one: of the one that was put out last, or first.
fn delivery(world: &World, newest: bool) -> Option<Event>
    ensures { IfSome result (CanHappen world.now) }
{
    let number = if newest {
        last_frame(world)
    } else {
        first_frame(world)
    }?;
    let event = Event::Deliver(number);
    if world.can_happen(event) {
        Some(event)
    } else {
        None
    }
}

/// The number of the frame in flight that was put out first.
fn first_frame(world: &World) -> Option<u64> {
    let mut first = None;
    for place in 0..world.count() {
        first = match (first, world.next_frame(place, 0)) {
            (Some(least), Some(number)) if least < number => Some(least),
            (least, None) => least,
            (_, number) => number,
        };
    }
    first
}

/// The number of the frame in flight that was put out last.
fn last_frame(world: &World) -> Option<u64> {
    for behind in 0..world.posted() {
        let number = world.posted() - behind - 1;
        if world.frame(number).is_some() {
            return Some(number);
        }
    }
    None
}
