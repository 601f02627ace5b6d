//! The page that shows a run step by step, without the run's data.
#![tactic(auto)]

mod head;
mod tail;

pub use head::HEAD;
pub use tail::TAIL;
