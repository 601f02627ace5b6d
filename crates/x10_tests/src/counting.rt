//! What a finish counts, and when it ends.
pub(crate) mod counts;
pub(crate) mod finishes;
pub(crate) mod walk;
