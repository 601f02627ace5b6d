//! What a log says.
use x10_hall::Turn;

/// The log of a run: of which image, at how many places, and the turns of the places.
#[derive(Drop)]
pub struct Log {
    /// The SHA-256 of the module's image.
    pub digest: [u8; 32],
    /// How many places there are.
    pub places: u16,
    /// The turns, in the order in which they were posted.
    pub turns: Vec<Turn>,
}
