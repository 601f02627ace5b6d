//! What was in a run: its events, the frames that it put out, the steps of its activities, and what its places have in the end.
#![tactic(auto)]

mod activity;
mod counts;
pub mod laws;
mod lines;
mod pace;
mod run;
mod sight;
mod stats;
mod tally;

pub use counts::Counts;
pub use lines::stats_text;
pub use run::count_run;
pub use stats::{Stats, Volume};
