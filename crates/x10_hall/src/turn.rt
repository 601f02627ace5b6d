//! What a place did in one turn.
use crate::keys::Keys;
use std::alloc::Global;
use std::sync::Arc;
use x10_place::Line;

/// A frame that was put out: the place that it goes to, and its bytes, which the log and the receiver share. Like `Taken` it
/// is a struct, since the prover keeps less of a tuple round an `Arc`.
#[derive(Drop)]
pub struct Posted {
    /// The place that it goes to.
    pub to: u16,
    /// Its bytes.
    pub bytes: Arc<Vec<u8>, Global>,
}

/// A frame that a place takes out of its row: its number, and its bytes.
#[derive(Drop)]
pub struct Taken {
    /// How many frames were posted before it, to any place.
    pub number: u64,
    /// Its bytes.
    pub bytes: Arc<Vec<u8>, Global>,
}

/// One turn of a place: the numbers of the frames that it took in, then the keys of the activities that it stepped, one step
/// each time, and what these steps put out and printed.
#[derive(Drop)]
pub struct Turn {
    /// The place.
    pub place: u16,
    /// The numbers of the frames that were taken in, in this order.
    pub taken: Vec<u64>,
    /// The key of each step, in this order, including the steps that found nothing to do.
    pub keys: Keys,
    /// The frames that were put out, in this order.
    pub frames: Vec<Posted>,
    /// The lines that were printed, in this order.
    pub lines: Vec<Line>,
}

/// A turn that was made so often, again and again, by the same place with no other turn between.
#[derive(Drop)]
pub struct Stint {
    /// The turn.
    pub turn: Turn,
    /// How often.
    pub times: u64,
}
