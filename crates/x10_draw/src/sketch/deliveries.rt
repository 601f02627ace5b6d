//! What a drawing notes of a delivery: where an arrow ends, and the stay that begins or goes on there.
use crate::parts::{Part, Point, lifeline, point_of};
use crate::sketch::Sketch;
use crate::table::{Shape, Tone};
use crate::template::Pushed;
use std::alloc::AllocError;
use x10_world::World;

impl<'a> Sketch<'a> {
    /// The arrow of a frame to a place, and its number, by the frame's number: frames are numbered in the order in which they are
    /// put out. Constant time, but for one that was in flight at the beginning.
    fn arrow_at(&self, number: u64, to: u16) -> Option<(usize, Part)> {
        let at = match number.checked_sub(self.first) {
            Some(later) => self
                .flights
                .len()
                .checked_add(usize::try_from(later).ok()?)?,
            None => {
                let (first, end) = self.columns.get(usize::from(to))?.flights;
                let later = self.flights.get(first..end)?.binary_search(&number);
                first.checked_add(later.ok()?)?
            }
        };
        let arrow = *self.arrows.get(at)?;
        if arrow.number == number {
            Some((at, arrow))
        } else {
            None
        }
    }

    /// A place took a frame in. One that wasn't seen to be put out has no arrow.
    pub(crate) fn taken(&mut self, world: &World, number: u64, to: u16) -> Pushed {
        let found = self.arrow_at(number, to);
        let Some(column) = self.columns.get_mut(usize::from(to)) else {
            return Ok(());
        };
        let mut at = lifeline(to);
        at.label = Some(self.labels.len());
        let Some((index, arrow)) = found else {
            at.row = column.rows.next(0);
            let words = format!(in self.known.alloc; "frame {number}")?;
            return self.label(at, Tone::Notable, 0, &words, "");
        };
        at.row = column.rows.next(arrow.from.row);
        at.lane = self.land(world, arrow, at)?;
        self.change(at, Some(Shape::Working))?;
        if let Some(arrow) = self.arrows.get_mut(index) {
            arrow.to = at;
        }
        let mut words = String::new(self.known.alloc);
        self.known.push_taken(&mut words, world, arrow, at)?;
        self.label(at, Tone::Notable, 0, &words, "")
    }

    /// The lane of the stay that begins or goes on by a frame where it is taken in; else the lifeline.
    fn land(&mut self, world: &World, arrow: Part, at: Point) -> Result<usize, AllocError> {
        let there = match (arrow.shape, arrow.other) {
            (Shape::Spawn | Shape::Shift, _) => self.begin(world, at.place, at.row)?,
            (Shape::Back, Some(key)) => Some(point_of(at.place, key, at.row)),
            _ => None,
        };
        Ok(there.unwrap_or(at).lane)
    }
}
