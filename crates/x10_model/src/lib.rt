//! The definitions of the machine, and laws about them. Each function of the modules `examples`, `frames`, `images`
//! and `laws` does nothing: its contract is a law, and the check proves it.
#![tactic(auto)]

mod event;
pub mod examples;
mod finish;
pub mod frames;
pub mod images;
pub mod laws;
pub mod limits;
mod slot;
mod version;

pub use event::Event;
pub use finish::Finish;
pub use slot::Slot;
pub use version::{FrameVersion, ImageVersion};
