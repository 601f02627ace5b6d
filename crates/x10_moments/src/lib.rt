//! The moments of a run: what its places show, as changes from event to event, and the page that holds them.
#![tactic(auto)]

mod changes;
mod pages;
mod parts;
mod posts;
mod recorder;

pub use pages::end_of_page;
pub use recorder::{Recorder, begin_page};
