//! The words of a command line: what they ask for, or what is said in place of that.
#![tactic(auto)]

mod arguments;
mod checks;
mod help;
mod table;
mod usage;
mod words;

pub use arguments::MOST_EVENTS;
pub use usage::{Usage, no_text, parse};
