//! The log of a run with threads as text: written, and read again.
#![tactic(auto)]

mod cut;
mod draft;
mod fault;
mod item;
mod log;
mod pieces;
mod quoted;
mod reading;
mod turn_line;
mod writing;

pub use fault::{LogCause, LogFault};
pub use log::Log;
pub use reading::read_log;
pub use writing::write_log;
