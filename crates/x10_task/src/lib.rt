//! What the words of a command line ask for.
#![tactic(auto)]

mod task;

pub use task::{Color, Schedule, Task, Verb, Window};
