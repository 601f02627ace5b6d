//! Events drawn from all that can happen.
ghost use Rattle.std.specs.Prelude.{IfOk, IfSome};
ghost use Rattle.x10_world.specs.Happenings.{CanHappen};

use rand_core::{Rng, SeedableRng};
use rand_xoshiro::Xoshiro256PlusPlus;
use std::alloc::{AllocError, Global};
use x10_model::Event;
use x10_world::World;

/// What the last event was, and what is looked at after it.
#[derive(Clone, Copy)]
enum Last {
    /// There was none.
    Nothing,
    Step {
        /// The position of its activity in the list.
        at: usize,
        place: u16,
        key: usize,
        /// Whether an activity of the place was inside an atomic region before it.
        entered: bool,
    },
    /// A delivery.
    Delivery,
}

/// What may happen, and the generator that draws from it.
#[derive(Drop)]
pub(crate) struct Lot {
    generator: Xoshiro256PlusPlus,
    /// The activities that are there, by place and key, in no particular order. Those from `awake` on were found idle, and can't
    /// move before something else has happened.
    live: Vec<(u16, usize)>,
    awake: usize,
    /// The numbers of the frames in flight, in no particular order.
    flying: Vec<u64>,
    /// How many frames had been put out when it looked last.
    posted: u64,
    last: Last,
    /// A place, and the key that an activity has that the last event may have begun there.
    vacant: Option<(u16, usize)>,
}

impl Lot {
    /// What may happen in a world, and a generator with a seed.
    pub fn new(alloc: Global, world: &World, seed: u64) -> Result<Lot, AllocError> {
        let mut lot = Lot {
            generator: Xoshiro256PlusPlus::seed_from_u64(seed),
            live: Vec::new(alloc),
            awake: 0,
            flying: Vec::new(alloc),
            posted: 0,
            last: Last::Nothing,
            vacant: None,
        };
        for place in 0..world.count() {
            lot.take_keys(world, place)?;
        }
        lot.wake();
        Ok(lot)
    }

    /// Puts the activities of a place into the list.
    fn take_keys(&mut self, world: &World, place: u16) -> Result<(), AllocError> {
        let mut from = 0;
        for _ in 0..world.live(place) {
            let Some(key) = world.next_key(place, from) else {
                return Ok(());
            };
            self.live.push((place, key))?;
            from = key.saturating_add(1);
        }
        Ok(())
    }

    /// Draws the next event; none where none can happen. Constant time, but for the activities that are found idle: each of them
    /// is looked at once until a frame is taken in, an activity ends, or an atomic region is left.
    pub fn next(&mut self, world: &World) -> Result<Option<Event>, AllocError>
        ensures { IfOk result (λ event. IfSome event (CanHappen world.now)) }
    {
        self.look(world)?;
        if let Some(event) = self.draw(world) {
            return Ok(Some(event));
        }
        self.wake();
        Ok(self.draw(world))
    }

    /// Any activity may be able to move.
    fn wake(&mut self) {
        self.awake = self.live.len();
    }

    /// Takes in what the last event did.
    fn look(&mut self, world: &World) -> Result<(), AllocError> {
        for number in self.posted..world.posted() {
            self.flying.push(number)?;
        }
        self.posted = world.posted();
        match self.last {
            Last::Nothing => {}
            Last::Delivery => self.wake(),
            Last::Step {
                at,
                place,
                key,
                entered,
            } => self.look_at(world, at, place, key, entered),
        }
        self.last = Last::Nothing;
        if let Some((place, key)) = self.vacant
            && world.has_key(place, key)
        {
            self.live.push((place, key))?;
            self.rouse();
        }
        self.vacant = None;
        Ok(())
    }

    /// Takes in what a step did: whether it ended the activity, or left an atomic region.
    fn look_at(&mut self, world: &World, at: usize, place: u16, key: usize, entered: bool) {
        if !world.has_key(place, key) {
            if at < self.live.len() {
                self.live.swap_remove(at);
            }
            self.wake();
        } else if entered && !world.is_entered(place) {
            self.wake();
        }
    }

    /// The last activity of the list may be able to move.
    fn rouse(&mut self) {
        let last = self.live.len().saturating_sub(1);
        if self.awake < self.live.len() {
            self.live.swap(self.awake, last);
            self.awake += 1;
        }
    }

    /// Draws from the activities that weren't found idle, and the frames, until one is found that can happen.
    fn draw(&mut self, world: &World) -> Option<Event>
        ensures { IfSome result (CanHappen world.now) }
    {
        for _ in 0..=self.live.len() {
            let many = self.awake.saturating_add(self.flying.len());
            if many == 0 {
                return None;
            }
            let at = (self.generator.next_u64() % many as u64) as usize;
            if at >= self.awake {
                return self.delivery(world, at - self.awake);
            }
            if let Some(event) = self.step(world, at) {
                return Some(event);
            }
        }
        None
    }

    /// The step of the activity at a position, if it can move; else it is kept among those that can't.
    fn step(&mut self, world: &World, at: usize) -> Option<Event>
        ensures { IfSome result (CanHappen world.now) }
    {
        let (place, key) = self.live.get(at).copied()?;
        let event = Event::Step(place, key);
        if world.can_happen(event) {
            self.last = Last::Step {
                at,
                place,
                key,
                entered: world.is_entered(place),
            };
            self.vacant = with_place(place, world.vacant_key(place));
            return Some(event);
        }
        let last = self.awake.saturating_sub(1);
        if last < self.live.len() {
            self.live.swap(at, last);
        }
        self.awake = last;
        None
    }

    /// The delivery of the frame at a position.
    fn delivery(&mut self, world: &World, at: usize) -> Option<Event>
        ensures { IfSome result (CanHappen world.now) }
    {
        if at >= self.flying.len() {
            return None;
        }
        let number = self.flying.swap_remove(at);
        let (place, _) = world.frame(number)?;
        let event = Event::Deliver(number);
        if !world.can_happen(event) {
            return None;
        }
        self.last = Last::Delivery;
        self.vacant = with_place(place, world.vacant_key(place));
        Some(event)
    }
}

/// A key with its place.
fn with_place(place: u16, key: Option<usize>) -> Option<(u16, usize)> {
    Some((place, key?))
}
