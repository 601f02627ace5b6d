//! Termination detection for finishes by counting: each place counts what it sends and receives under a finish, and
//! the home of the finish compares the counts.
#![tactic(auto)]

mod book;
pub mod count;
pub mod laws;
mod met;
mod pair_list;
mod pairs;
mod table;
mod tally;

pub use book::Book;
pub use tally::Tally;
