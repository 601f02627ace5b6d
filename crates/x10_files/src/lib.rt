//! Files and streams of the program: what is written whole or not at all, why a write failed, and what has colors.
#![tactic(auto)]

mod color;
mod output;
mod told;
pub mod whole;

pub use color::colored;
pub use output::Output;
pub use told::Told;
