//! What is noted before an event.
use crate::known::Known;
use std::alloc::AllocError;
use std::fmt::Write;
use x10_frame::{FrameFault, FrameView, Head, What};
use x10_model::Event;
use x10_place::{Place, Stay};
use x10_world::World;

/// A stay before an event.
#[derive(Drop)]
pub(crate) struct Stood {
    /// Its activity, as `push_activity` names it.
    pub(crate) name: String,
    /// The instruction at which it stands, and what that reads.
    pub(crate) instruction: String,
    /// The number of the finish that it opened last, of those that it hasn't closed.
    pub(crate) finish: Option<u32>,
    /// How many functions wait for one that they called.
    pub(crate) callers: usize,
    /// What each register of its call frame holds.
    pub(crate) top: Vec<Option<String>>,
    /// What each register of the last of those that wait holds.
    pub(crate) caller: Vec<Option<String>>,
}

/// What is noted before an event.
#[derive(Drop)]
pub(crate) struct Shot {
    /// The stay that moves, or that goes on when its frame comes.
    pub(crate) stood: Option<Stood>,
    /// The key that the next activity gets that begins at the place of the event.
    pub(crate) vacant: usize,
    /// What the frame is that is delivered.
    pub(crate) head: Option<Head>,
}

/// The number of the finish that a stay opened last, of those that it hasn't closed.
pub(crate) fn innermost(stay: &Stay) -> Option<u32> {
    match stay.finishes().last() {
        Some(number) => Some(*number),
        None => None,
    }
}

/// The same of the stay with a key.
pub(crate) fn innermost_at(place: &Place, key: usize) -> Option<u32> {
    innermost(place.stay(key)?)
}

/// Nothing is noted.
pub(crate) fn nothing() -> Shot {
    Shot {
        stood: None,
        vacant: 0,
        head: None,
    }
}

impl<'a> Known<'a> {
    /// Pushes the name of an activity by its stay: `f1, key 0 of place 0`, by the function with which it began, or `main` for the
    /// one with which the run began.
    pub(crate) fn push_activity(
        &self,
        out: &mut String,
        place: u16,
        key: usize,
        stay: &Stay,
    ) -> Result<(), AllocError> {
        let function = match stay.caller(0) {
            Some(frame) => frame.function(),
            None => stay.frame().function(),
        };
        if place == 0 && key == 0 && function == self.verified.image().entry() {
            out.push_str("main")?;
        } else {
            write!(out, "f{function}")?;
        }
        write!(out, ", key {key} of place {place}")
    }

    /// What the registers hold of the function that called the one that a stay executes; nothing where there is none.
    fn caller_words(&self, place: &Place, stay: &Stay) -> Result<Vec<Option<String>>, AllocError> {
        let last = stay.callers().saturating_sub(1);
        match stay.caller(last) {
            Some(frame) => self.words(place.heap(), frame),
            None => Ok(Vec::new(self.alloc)),
        }
    }

    fn stood(&self, place: &Place, key: usize) -> Result<Option<Stood>, AllocError> {
        let Some(stay) = place.stay(key) else {
            return Ok(None);
        };
        let mut name = String::new(self.alloc);
        self.push_activity(&mut name, place.id(), key, stay)?;
        let top = self.words(place.heap(), stay.frame())?;
        let caller = self.caller_words(place, stay)?;
        let instruction = self.instruction(stay.frame(), &top)?;
        Ok(Some(Stood {
            name,
            instruction,
            finish: innermost(stay),
            callers: stay.callers(),
            top,
            caller,
        }))
    }

    /// What is noted of a place and of the stay with a key.
    fn shot_of(
        &self,
        place: &Place,
        key: Option<usize>,
        head: Option<Head>,
    ) -> Result<Shot, AllocError> {
        let stood = match key {
            Some(key) => self.stood(place, key)?,
            None => None,
        };
        Ok(Shot {
            stood,
            vacant: place.vacant_key(),
            head,
        })
    }

    fn before_step(&self, world: &World, place: u16, key: usize) -> Result<Shot, AllocError> {
        match world.place(place) {
            Some(place) => self.shot_of(place, Some(key), None),
            None => Ok(nothing()),
        }
    }

    fn before_delivery(&self, world: &World, number: u64) -> Result<Shot, AllocError> {
        let Some((to, bytes)) = world.frame(number) else {
            return Ok(nothing());
        };
        let Some(place) = world.place(to) else {
            return Ok(nothing());
        };
        let head = match FrameView::read(self.alloc, bytes, world.count()) {
            Ok(view) => view.head(),
            Err(FrameFault::Memory) => return Err(AllocError),
            Err(_) => return Ok(nothing()),
        };
        let key = match head.what {
            What::Back { waiting } => Some(waiting as usize),
            _ => None,
        };
        self.shot_of(place, key, Some(head))
    }

    /// What is noted before an event.
    pub(crate) fn shot(&self, world: &World, event: Event) -> Result<Shot, AllocError> {
        match event {
            Event::Step(place, key) => self.before_step(world, place, key),
            Event::Deliver(number) => self.before_delivery(world, number),
        }
    }
}
