//! What messages take along: parts of a heap as the bytes of a frame, and those of a frame in a heap.
#![tactic(auto)]

mod adding;
mod arriving;
mod capturing;
mod fitting;
pub mod laws;
mod mark;
mod marks;
mod note;
mod numbers;
mod put;
mod refusal;
mod sound;

pub use adding::Roots;
pub use arriving::{arrive, bring, check, refusal_of};
pub use capturing::capture;
pub use marks::Marks;
pub use refusal::Refusal;
pub use sound::{heap_is_sound, words_are_sound};
