//! How many steps each function of a module takes at most, and what its regions are.
#![tactic(auto)]

mod fault;
mod functions;
pub mod laws;
mod region;
mod rules;
mod shape;
mod spot;
mod steps;

pub use fault::{BoundCause, BoundFault};
pub use functions::{bound_at, bounds, regions, surroundings};
pub use region::{Region, opener};
pub use shape::{Shape, classify};
pub use spot::Spot;
