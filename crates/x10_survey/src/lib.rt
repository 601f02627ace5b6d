//! Who lives in a world, and what each activity waits for, in lines for people.
#![tactic(auto)]

mod activities;
mod finishes;

pub use activities::survey;
