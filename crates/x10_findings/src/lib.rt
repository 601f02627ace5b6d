//! Outputs of runs, each once, and how often it came.
#![tactic(auto)]

mod findings;

pub use findings::{Finding, Findings, MOST_KEPT};
