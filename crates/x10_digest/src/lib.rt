//! The digest of a module's image.
#![tactic(auto)]

mod digest;

pub use digest::{digest_of, is_digest_of};
