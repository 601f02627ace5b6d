//! The trace of a run: the lines for its events.
#![tactic(auto)]

mod lines;

pub use lines::trace_line;
