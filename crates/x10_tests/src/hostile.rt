//! Changed images and frames.
pub(crate) mod frames;
pub(crate) mod images;
pub(crate) mod programs;
