//! The column of a place: its events so far, and the stays that live there.
use crate::parts::{Part, Point, part_of};
use crate::rows::Rows;
use crate::table::Shape;
use crate::template::Pushed;
use std::alloc::{AllocError, Global};

/// A lane.
#[derive(Clone, Copy)]
pub(crate) struct Lane {
    /// The piece of a bar for what the stay in it is doing; none where no stay is.
    pub(crate) bar: Option<Part>,
    /// The row of its last event.
    pub(crate) last: u64,
    /// The number of the innermost finish that it has open, among the parts.
    pub(crate) finish: Option<usize>,
    /// How many columns of letters its widest label takes.
    pub(crate) widest: usize,
}

/// A lane with nothing in it.
const EMPTY: Lane = Lane {
    bar: None,
    last: 0,
    finish: None,
    widest: 0,
};

/// The column of a place. A place uses keys again that were given up, so it has a lane for as many stays as live at one time.
#[derive(Drop)]
pub(crate) struct Column {
    pub(crate) place: u16,
    pub(crate) rows: Rows,
    pub(crate) lanes: Vec<Lane>,
    /// The key of the stay that begins here next.
    pub(crate) vacant: usize,
    /// The frames that were in flight to here when the drawing began: the number of the first arrow, and of that behind the last
    /// one. The frames' numbers rise.
    pub(crate) flights: (usize, usize),
}

impl Lane {
    /// What the stay in it is doing.
    pub(crate) fn doing(&self) -> Option<Shape> {
        Some(self.bar?.shape)
    }
}

impl Column {
    /// The column of a place before the first row, where `shown` steps in a row that put nothing out have rows of their own.
    pub(crate) fn new(alloc: Global, place: u16, shown: u64) -> Result<Column, AllocError> {
        let mut lanes = Vec::with_capacity(alloc, 1)?;
        lanes.push(EMPTY)?;
        Ok(Column {
            place,
            rows: Rows::new(shown),
            lanes,
            vacant: 0,
            flights: (0, 0),
        })
    }

    /// Whether nothing is seen of it.
    pub(crate) fn is_empty(&self) -> bool {
        match self.lanes.as_slice() {
            [lifeline] => lifeline.widest == 0,
            _ => false,
        }
    }

    /// The lane of a point, if the column has it.
    pub(crate) fn lane(&self, at: Point) -> Lane {
        self.lanes.get(at.lane).copied().unwrap_or(EMPTY)
    }

    /// A stay begins. Lanes up to its own are made.
    pub(crate) fn begin(&mut self, at: Point, doing: Shape) -> Pushed {
        for _ in self.lanes.len()..=at.lane {
            self.lanes.push(EMPTY)?;
        }
        if let Some(lane) = self.lanes.get_mut(at.lane) {
            lane.bar = Some(part_of(doing, at, Point { row: 0, ..at }));
            lane.last = at.row;
            lane.finish = None;
        }
        Ok(())
    }

    /// A stay does something, and from there on does that, or nothing more. Answers the piece of its bar that ends there, if it did
    /// something else before and the piece has a length, or the stay ends.
    pub(crate) fn change(&mut self, at: Point, doing: Option<Shape>) -> Option<Part> {
        let lane = self.lanes.get_mut(at.lane)?;
        let mut bar = lane.bar?;
        lane.last = at.row;
        if doing == Some(bar.shape) {
            return None;
        }
        lane.bar = doing.map(|shape| part_of(shape, at, bar.to));
        bar.to = at;
        if bar.from.row == at.row && doing.is_some() {
            return None;
        }
        Some(bar)
    }
}
