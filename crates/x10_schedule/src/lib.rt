//! Schedules: in which order the events of a run happen.
#![tactic(auto)]

mod lot;
mod run;
mod schedule;
mod turns;

pub use run::run_by;
pub use schedule::{Schedule, Scheduler};
