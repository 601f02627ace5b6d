//! The parts of a picture. Lane 0 of a place is its lifeline, and the lane of a stay is one more than its key. Row 0 is above the
//! first event.
use crate::table::{Shape, Tone};

/// Where something is, and the number of the label that is there.
#[derive(Clone, Copy)]
pub(crate) struct Point {
    pub(crate) place: u16,
    pub(crate) lane: usize,
    pub(crate) row: u64,
    pub(crate) label: Option<usize>,
}

/// The head of the lifeline of a place.
pub(crate) fn lifeline(place: u16) -> Point {
    Point {
        place,
        lane: 0,
        row: 0,
        label: None,
    }
}

/// Where the stay with a key is.
pub(crate) fn point_of(place: u16, key: usize, row: u64) -> Point {
    Point {
        place,
        lane: key.saturating_add(1),
        row,
        label: None,
    }
}

/// A shape from one point to another; to row 0, while it has no end.
#[derive(Clone, Copy)]
pub(crate) struct Part {
    pub(crate) shape: Shape,
    pub(crate) from: Point,
    pub(crate) to: Point,
    /// The number of a frame or of a finish.
    pub(crate) number: u64,
    /// The key of the stay that waits for a frame or its result; or the number of the part that is the finish around a finish.
    pub(crate) other: Option<usize>,
    /// How many finishes are around a finish.
    pub(crate) depth: u64,
}

/// A shape with no number.
pub(crate) fn part_of(shape: Shape, from: Point, to: Point) -> Part {
    Part {
        shape,
        from,
        to,
        number: 0,
        other: None,
        depth: 0,
    }
}

/// A label in the row of an event, beside its lane.
#[derive(Drop)]
pub(crate) struct Label {
    pub(crate) at: Point,
    pub(crate) tone: Tone,
    /// How many steps share the row; 0 where it is one event's alone.
    pub(crate) steps: u64,
    /// How many columns of letters it takes.
    pub(crate) letters: usize,
    /// Its text in XML, and all of a line that the text cuts.
    pub(crate) text: String,
    pub(crate) full: String,
}
