//! Notes of a run's events, in words for people.
#![tactic(auto)]

mod changes;
mod events;
mod known;
mod lines;
mod notes;
mod reads;
mod shot;
mod waits;

pub use notes::Notes;
