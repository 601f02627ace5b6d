//! Workers: a thread for each place of a run, and what their log of turns shows.
#![tactic(auto)]

mod auditing;
mod fault;
mod frames;
mod gate;
mod halt;
mod jobs;
mod key_set;
mod lines;
mod report;
mod step_order;
mod threads;
mod trail;
mod turns;
mod weaving;
mod worker;
mod working;

pub use auditing::audit;
pub use fault::AuditFault;
pub use gate::{Gate, Open};
pub use halt::{Halt, WorkFault};
pub use report::RunReport;
pub use threads::run_threads;
pub use trail::{OwnTurn, Trail};
pub use weaving::weave;
pub use working::work;
