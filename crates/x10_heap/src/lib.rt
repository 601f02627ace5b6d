//! What the activities of a place share: objects, rails, texts, and what other places may name of them.
#![tactic(auto)]

mod ends;
mod export;
mod heap;
mod objects;
mod rail;
mod references;
mod texts;

pub use export::Export;
pub use heap::Heap;
pub use objects::Objects;
pub use rail::Rail;
pub use references::{has_id, home_in, id_in, reference};
pub use texts::Texts;
