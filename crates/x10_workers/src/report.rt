//! What is reported of a run with threads.
use x10_hall::{Repeats, Turn};
use x10_place::Line;

/// A run: what each place printed, and the turns of all places in an order in which they may have been made one by one.
#[derive(Drop)]
pub struct RunReport {
    /// The lines of each place.
    pub outputs: Vec<Vec<Line>>,
    /// The turns.
    pub log: Repeats<Turn>,
}
