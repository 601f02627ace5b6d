//! What a drawing has seen: columns with their stays, the parts of the picture, and labels.
use crate::columns::Column;
use crate::known::Known;
use crate::legend::Seen;
use crate::parts::{Label, Part, Point, point_of};
use crate::table::{Shape, Tone};
use crate::template::Pushed;
use crate::words::{escaped, width_of};
use std::alloc::AllocError;
use x10_model::Event;
use x10_world::{Done, World};

mod deliveries;
mod opening;
mod steps;

pub(crate) use steps::Step;

/// How many columns of letters the label takes of a row that steps share.
const SHORTENED: usize = 14;

/// Everything that is drawn.
#[derive(Drop)]
pub(crate) struct Sketch<'a> {
    known: Known<'a>,
    /// How many events there were before the first that is drawn.
    pub(crate) before: u64,
    /// The numbers of the frames that were in flight when the drawing began, in the order of their arrows.
    flights: Vec<u64>,
    /// The number of the first frame that is put out after that.
    first: u64,
    /// What occurs, but for pieces of bars that have no end.
    pub(crate) seen: Seen,
    pub(crate) columns: Vec<Column>,
    pub(crate) bars: Vec<Part>,
    pub(crate) finishes: Vec<Part>,
    pub(crate) ends: Vec<Part>,
    pub(crate) forks: Vec<Part>,
    pub(crate) arrows: Vec<Part>,
    pub(crate) labels: Vec<Label>,
}

impl<'a> Sketch<'a> {
    /// Notes an event, in the world after it.
    pub(crate) fn note(&mut self, world: &World, event: Event, done: &Done) -> Pushed {
        let place = match (event, *done) {
            (Event::Step(place, key), Done::Idle) => return self.waited(point_of(place, key, 0)),
            (Event::Step(place, key), done) => {
                self.moved(world, point_of(place, key, 0), done)?;
                place
            }
            (Event::Deliver(number), Done::Taken { to }) => {
                self.taken(world, number, to)?;
                to
            }
            _ => return Ok(()),
        };
        self.expect(world, place);
        Ok(())
    }

    /// What begins next at a place gets the key that is vacant in a world.
    fn expect(&mut self, world: &World, place: u16) {
        let column = self.columns.get_mut(usize::from(place));
        if let (Some(key), Some(column)) = (world.vacant_key(place), column) {
            column.vacant = key;
        }
    }

    /// A step that was idle: a stay that was at work has waited since its last event.
    fn waited(&mut self, mut at: Point) -> Pushed {
        let Some(column) = self.columns.get(usize::from(at.place)) else {
            return Ok(());
        };
        let lane = column.lane(at);
        at.row = lane.last;
        match lane.doing() {
            Some(Shape::Working) => self.change(at, Some(Shape::Waiting)),
            _ => Ok(()),
        }
    }

    /// A stay does something, and from there on does that, or nothing more.
    fn change(&mut self, at: Point, doing: Option<Shape>) -> Pushed {
        let Some(column) = self.columns.get_mut(usize::from(at.place)) else {
            return Ok(());
        };
        if let Some(bar) = column.change(at, doing) {
            self.seen.see(bar.shape);
            self.bars.push(bar)?;
        }
        Ok(())
    }

    /// A stay begins at a row of a place, with the key that is vacant, if it lives. Answers where.
    fn begin(&mut self, world: &World, place: u16, row: u64) -> Result<Option<Point>, AllocError> {
        let Some(column) = self.columns.get_mut(usize::from(place)) else {
            return Ok(None);
        };
        let key = column.vacant;
        if !world.has_key(place, key) {
            return Ok(None);
        }
        let at = point_of(place, key, row);
        column.begin(at, Shape::Working)?;
        Ok(Some(at))
    }

    /// A label of one event or of several steps, and all of a line that its words cut; else nothing.
    fn label(&mut self, at: Point, tone: Tone, steps: u64, words: &str, full: &str) -> Pushed {
        let letters = width_of(words);
        let room = if steps > 0 { SHORTENED } else { 0 };
        let column = self.columns.get_mut(usize::from(at.place));
        if let Some(column) = column
            && let Some(lane) = column.lanes.get_mut(at.lane)
        {
            lane.widest = lane.widest.max(letters).max(room);
        }
        let text = escaped(self.known.alloc, words)?;
        let full = escaped(self.known.alloc, full)?;
        self.labels.push(Label {
            at,
            tone,
            steps,
            letters,
            text,
            full,
        })?;
        Ok(())
    }

    /// The pieces of bars that have no end.
    pub(crate) fn open_bars(&self) -> Result<Vec<Part>, AllocError> {
        let mut bars = Vec::new(self.known.alloc);
        for column in &self.columns {
            for lane in &column.lanes {
                if let Some(bar) = lane.bar {
                    bars.push(bar)?;
                }
            }
        }
        Ok(bars)
    }
}
