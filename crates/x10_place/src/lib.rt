//! One place of the machine: its activities, and their steps.
#![tactic(auto)]

mod books;
mod call_frame;
mod departing;
mod ground;
mod heap;
mod launching;
pub mod laws;
mod leaving;
mod line;
mod making;
mod opening;
mod outcome;
mod place;
mod receiving;
mod reports;
mod resuming;
mod route;
mod sending;
mod sent;
mod shelf;
mod site;
mod starting;
mod stay;
mod step;
mod store;
mod sweep;
mod views;

pub use call_frame::CallFrame;
pub use line::Line;
pub use place::{Place, Stepped};
pub use sent::{Outgoing, Sent};
pub use stay::{Origin, Stay};
pub use sweep::Sweep;
