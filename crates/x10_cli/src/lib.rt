//! The program's commands: the work that a task asks for, over bytes and writers.
#![tactic(auto)]

mod audited;
mod cause;
mod checking;
mod commands;
mod counted;
mod explain;
mod explain_frame;
mod explain_limit;
mod explain_log;
mod fault;
mod frame;
mod lines;
mod log_events;
mod log_shown;
mod logged;
mod numbered;
mod runs;
mod schedule;
mod show;
mod shown;
mod threads;
mod window;

pub use audited::audit_logged;
pub use checking::{is_image, print_check};
pub use commands::{execute, image_of, print_image, print_listing, print_run, tell, verified_in};
pub use counted::run_counted;
pub use fault::Fault;
pub use frame::digits_in;
pub use log_shown::show_logged;
pub use logged::run_logged;
