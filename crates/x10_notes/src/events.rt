//! What an event did, in words.
use crate::known::Known;
use crate::lines::indented;
use crate::shot::{Shot, Stood, innermost_at};
use std::alloc::{AllocError, Global};
use std::fmt::Write;
use x10_code::Op;
use x10_frame::{FrameFault, Head, What};
use x10_frame_lines::frame_lines;
use x10_model::Event;
use x10_place::Place;
use x10_world::{Done, World};

/// Pushes lines that belong to the one before them, each with two spaces, and with a line feed before it.
fn push_inner(alloc: Global, out: &mut String, lines: &str) -> Result<(), AllocError> {
    let lines = indented(alloc, lines)?;
    match lines.as_str().strip_suffix('\n') {
        Some(lines) => {
            out.push_str("\n")?;
            out.push_str(lines)
        }
        None => Ok(()),
    }
}

/// Pushes what a stay does with a finish of its place, if it does: it opens it, or closes it.
fn push_finish(
    out: &mut String,
    does: &str,
    place: &Place,
    finish: Option<u32>,
) -> Result<(), AllocError> {
    let Some(number) = finish else {
        return Ok(());
    };
    let home = place.id();
    write!(out, "\n{does} finish {number} of place {home}")
}

impl<'a> Known<'a> {
    /// Pushes the lines of a frame that was put out, if it is in flight.
    fn push_post(&self, out: &mut String, world: &World, number: u64) -> Result<(), AllocError> {
        let Some((to, bytes)) = world.frame(number) else {
            return Ok(());
        };
        write!(out, "\nframe {number} to place {to}:")?;
        match frame_lines(self.alloc, bytes, world.count()) {
            Ok(lines) => push_inner(self.alloc, out, lines.as_str()),
            Err(FrameFault::Memory) => Err(AllocError),
            Err(_) => Ok(()),
        }
    }

    /// Pushes the lines of the frames that a step put out.
    fn push_posts(
        &self,
        out: &mut String,
        world: &World,
        first: u64,
        count: u64,
    ) -> Result<(), AllocError> {
        for number in first..first.saturating_add(count) {
            self.push_post(out, world, number)?;
        }
        Ok(())
    }

    /// Pushes what a stay did that stood so, and what became of it.
    fn push_step(
        &self,
        out: &mut String,
        place: &Place,
        key: usize,
        stood: &Stood,
    ) -> Result<(), AllocError> {
        out.push_str(stood.name.as_str())?;
        out.push_str(": ")?;
        out.push_str(stood.instruction.as_str())?;
        self.push_became(out, place, key, stood)
    }

    /// Pushes what a step of an operation did at a place.
    fn push_move(
        &self,
        out: &mut String,
        place: &Place,
        key: usize,
        before: &Shot,
        op: Op,
    ) -> Result<(), AllocError> {
        let Some(stood) = &before.stood else {
            return Ok(());
        };
        self.push_step(out, place, key, stood)?;
        match op {
            Op::Async => self.push_begun(out, place, before.vacant),
            Op::Finb => push_finish(out, "opens", place, innermost_at(place, key)),
            Op::Fine => push_finish(out, "closes", place, stood.finish),
            _ => Ok(()),
        }
    }

    /// Pushes that a stay goes on with what came back for it.
    fn push_back(
        &self,
        out: &mut String,
        place: &Place,
        key: usize,
        before: &Shot,
    ) -> Result<(), AllocError> {
        let Some(stood) = &before.stood else {
            return Ok(());
        };
        let name = stood.name.as_str();
        write!(out, "\n{name}, goes on")?;
        self.push_became(out, place, key, stood)
    }

    /// Pushes what a frame brought to a place.
    fn push_arrival(
        &self,
        out: &mut String,
        place: &Place,
        head: Head,
        before: &Shot,
    ) -> Result<(), AllocError> {
        match head.what {
            What::Spawn { .. } | What::Shift { .. } => self.push_begun(out, place, before.vacant),
            What::Back { waiting } => self.push_back(out, place, waiting as usize, before),
            What::Report { number } => {
                let (from, home) = (head.from, head.to);
                write!(
                    out,
                    "\nplace {from} reports of finish {number} of place {home}"
                )
            }
        }
    }

    /// The words of a delivery.
    fn push_delivery(
        &self,
        out: &mut String,
        world: &World,
        number: u64,
        before: &Shot,
        done: &Done,
    ) -> Result<(), AllocError> {
        let Done::Taken { to } = *done else {
            return out.push_str("there is no such frame in flight");
        };
        write!(out, "frame {number} arrives at place {to}")?;
        match (world.place(to), before.head) {
            (Some(place), Some(head)) => self.push_arrival(out, place, head, before),
            _ => Ok(()),
        }
    }

    /// The words of a step.
    fn push_stepped(
        &self,
        out: &mut String,
        world: &World,
        place: u16,
        key: usize,
        before: &Shot,
        done: &Done,
    ) -> Result<(), AllocError> {
        let Done::Moved {
            op,
            first,
            count,
            ..
        } = *done
        else {
            return self.push_waits(out, world, place, key);
        };
        if let Some(place) = world.place(place) {
            self.push_move(out, place, key, before, op)?;
        }
        self.push_posts(out, world, first, count)
    }

    /// What is said of an event in the world right after it, from what was noted right before it.
    pub(crate) fn event_words(
        &self,
        world: &World,
        event: Event,
        before: &Shot,
        done: &Done,
    ) -> Result<String, AllocError> {
        let mut out = String::new(self.alloc);
        match event {
            Event::Step(place, key) => {
                self.push_stepped(&mut out, world, place, key, before, done)?;
            }
            Event::Deliver(number) => {
                self.push_delivery(&mut out, world, number, before, done)?;
            }
        }
        Ok(out)
    }
}
