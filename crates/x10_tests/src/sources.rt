//! What many tests begin with.
use std::alloc::Global;
use std::test::*;
use x10_asm::assemble;
use x10_frame::FrameView;
use x10_image::ImageView;
use x10_verify::{Verified, verify};

/// The image of a program that is given as text.
pub(crate) fn assembled(alloc: Global, text: &str) -> Result<Vec<u8>, Fail> {
    Ok(assemble(alloc, text)?)
}

/// The view of an image.
pub(crate) fn image_of(alloc: Global, bytes: &[u8]) -> Result<ImageView<'_>, Fail> {
    Ok(ImageView::read(alloc, bytes)?)
}

/// The view of a frame.
pub(crate) fn view_of(alloc: Global, bytes: &[u8], places: u16) -> Result<FrameView<'_>, Fail> {
    Ok(FrameView::read(alloc, bytes, places)?)
}

/// The verified program that an image's bytes are.
pub(crate) fn verified_of(alloc: Global, bytes: &[u8]) -> Result<Verified<'_>, Fail> {
    Ok(verify(alloc, ImageView::read(alloc, bytes)?)?)
}
