//! Worlds: events, orders, frames byte for byte.
pub(crate) mod calls;
pub(crate) mod orders;
pub(crate) mod travels;
