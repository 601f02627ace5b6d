//! The hall: what the places of a run hand to each other when each has a thread of its own. It keeps the log of their turns
//! and, for each place, the row of frames that were posted to it.
#![tactic(auto)]

mod hall;
mod keys;
pub mod limits;
mod mail;
mod port;
mod repeats;
mod row;
mod state;
mod turn;

pub use hall::Hall;
pub use keys::Keys;
pub use mail::{Desk, Mail};
pub use port::{Port, PostFault, Signal, Take};
pub use repeats::Repeats;
pub use state::HallState;
pub use turn::{Posted, Stint, Taken, Turn};
