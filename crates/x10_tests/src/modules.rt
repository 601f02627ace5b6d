//! Kinds, operations, texts, images, bounds and the verifier.
pub(crate) mod assembling;
pub(crate) mod bounding;
pub(crate) mod codes;
pub(crate) mod images;
pub(crate) mod kinds;
pub(crate) mod listing;
pub(crate) mod verifying;
pub(crate) mod written_images;
