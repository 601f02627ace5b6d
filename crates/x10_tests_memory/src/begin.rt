//! What the tests begin with. Where memory is refused there is nothing; any other fault fails the test.
use std::alloc::Global;
use std::process::Abort;
use x10_asm::{AsmCause, assemble};
use x10_image::{ImageFault, ImageView};
use x10_place::Line;
use x10_verify::{Verified, VerifyCause, verify};

/// The image of a program that is given as text.
pub(crate) fn assembled(alloc: Global, rt: &impl Abort, text: &str) -> Option<Vec<u8>> {
    match assemble(alloc, text) {
        Ok(bytes) => Some(bytes),
        Err(fault) => {
            assert!(rt; fault.cause == AsmCause::Memory && fault.line == 0);
            None
        }
    }
}

/// The view of an image.
pub(crate) fn viewed<'a>(alloc: Global, rt: &impl Abort, bytes: &'a [u8]) -> Option<ImageView<'a>> {
    match ImageView::read(alloc, bytes) {
        Ok(view) => Some(view),
        Err(fault) => {
            assert!(rt; fault == ImageFault::Memory);
            None
        }
    }
}

/// The program that an image's module is.
pub(crate) fn verified<'a>(
    alloc: Global,
    rt: &impl Abort,
    view: ImageView<'a>,
) -> Option<Verified<'a>> {
    match verify(alloc, view) {
        Ok(verified) => Some(verified),
        Err(fault) => {
            assert!(rt; fault.cause == VerifyCause::Memory);
            None
        }
    }
}

/// What a test does with the image of a text. Nothing where memory was refused. (A check grows with the values that are dropped
/// times the ways to return: so the image is held here, and a test has none.)
pub(crate) fn with_image<F: FnOnce(&ImageView) -> Option<()>>(
    alloc: Global,
    rt: &impl Abort,
    text: &str,
    test: F,
) -> Option<()>
    requires { F.IsAlwaysCallable test }
{
    let bytes = assembled(alloc, rt, text)?;
    let view = viewed(alloc, rt, &bytes)?;
    test(&view)
}

/// The same with its program.
pub(crate) fn with_program<F: FnOnce(&Verified) -> Option<()>>(
    alloc: Global,
    rt: &impl Abort,
    text: &str,
    test: F,
) -> Option<()>
    requires { F.IsAlwaysCallable test }
{
    let bytes = assembled(alloc, rt, text)?;
    let view = viewed(alloc, rt, &bytes)?;
    let verified = verified(alloc, rt, view)?;
    test(&verified)
}

/// Whether lines are the first ones of these numbers; where all are asked for, all of them.
pub(crate) fn are_first(lines: &[Line], numbers: &[i64], all: bool) -> bool {
    if lines.len() > numbers.len() || (all && lines.len() < numbers.len()) {
        return false;
    }
    for (line, number) in lines.iter().zip(numbers) {
        if !matches!(line, Line::Int(printed) if printed == number) {
            return false;
        }
    }
    true
}

/// The same for the lines of each place.
pub(crate) fn have_first(outputs: &[Vec<Line>], numbers: &[&[i64]], all: bool) -> bool {
    if outputs.len() != numbers.len() {
        return false;
    }
    for (lines, numbers) in outputs.iter().zip(numbers) {
        if !are_first(lines, numbers, all) {
            return false;
        }
    }
    true
}
