//! The frames in flight of a run: by number, by receiver, and which places they go to.
#![tactic(auto)]

mod flights;
mod place_set;
mod queue;
mod table;

pub use flights::Flights;
pub use place_set::PlaceSet;
