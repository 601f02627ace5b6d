//! Heaps, frames, and what a frame takes along.
pub(crate) mod copies;
pub(crate) mod frame_faults;
pub(crate) mod frames;
pub(crate) mod greatest_frame;
pub(crate) mod heaps;
pub(crate) mod large_copies;
pub(crate) mod refused_copies;
pub(crate) mod walked_copies;
