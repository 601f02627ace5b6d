//! Kinds of values, equations between places, and why a machine stops.
#![tactic(auto)]

mod homes;
mod kind;
mod labels;
pub mod laws;
mod limit;
mod stop;

pub use homes::{Homes, Term};
pub use kind::{Kind, fits, meet};
pub use limit::Limit;
pub use stop::Stop;
