//! Worlds: all places of a run, and the events that happen to them, in the order that the caller gives.
#![tactic(auto)]

mod done;
mod ending;
mod fault;
pub mod laws;
mod lines;
mod lull;
mod opening;
mod places;
mod round_keys;
mod rounds;
mod world;

pub use done::Done;
pub use ending::{Ending, RunFault, run_image};
pub use fault::OpenFault;
pub use lines::{copied_lines, push_lines};
pub use round_keys::RoundKeys;
pub use rounds::{Rounds, Unfinished, run_rounds};
pub use world::World;
