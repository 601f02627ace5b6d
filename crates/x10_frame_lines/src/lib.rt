//! What a frame says, as lines for people.
#![tactic(auto)]

mod graph;
mod lines;
mod values;

pub use lines::frame_lines;
