//! Programs, images, frames and numbers that the tests of several crates share.
#![tactic(auto)]

mod chance;
mod frames;
mod images;
mod mixed;
mod programs;

pub use chance::random;
pub use frames::{
    ALONE, BACK, CYCLE, NARROW_BACK, NARROW_CYCLE, NARROW_REPORT, NARROW_SHIFT, OTHER_REPORT,
    REPORT, SHIFT, SPAWN,
};
pub use images::{SEVEN, with_byte};
pub use mixed::{MIXED, mixed_frame, mixed_objects, mixed_words};
pub use programs::{ALONG, AWAY, LOOPS, RELAY};
