//! Places: steps, stretches, frames that come.
pub(crate) mod activities;
pub(crate) mod calls;
pub(crate) mod forged;
pub(crate) mod receiving;
pub(crate) mod regions;
