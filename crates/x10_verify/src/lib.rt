//! The verifier: whether a module's activities can ever go wrong, found before any of them runs.
#![tactic(auto)]

mod calls;
mod coded;
mod decide;
mod entry;
mod fault;
mod flow;
mod known;
pub mod laws;
mod merge;
mod objects;
mod places;
mod printing;
mod ranges;
mod solver;
mod states;
mod step;
mod verified;
mod want;
mod whole;

pub use fault::{VerifyCause, VerifyFault};
pub use flow::{Flow, known_flow};
pub use verified::{Verified, verify};
pub use want::{Want, is_met};
