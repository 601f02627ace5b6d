//! The positions of the classes, texts and functions of an image.

ghost use Rattle.x10_model.specs.Images.{class_bytes, text_bytes, function_bytes};
ghost use Rattle.x10_model.specs.Readers.{times, numbered};
ghost use Rattle.x10_model.specs.ReadingImages.{class_at, text_at, function_at};
ghost use Rattle.x10_model.specs.Offsets.{EndsWith};
ghost use Rattle.x10_bytes.specs.Tables.{GivesTable};
ghost use Rattle.x10_image.specs.Faults.{named};

use crate::fault::ImageFault;
use crate::parts::{past_class, past_function, past_text};
use std::alloc::Global;
use x10_model::ImageVersion;

/// Where each of `count` classes begins in `image`, of which `bytes` is the rest, and the bytes after them.
pub fn class_table<'a>(
    alloc: Global,
    image: &[u8],
    bytes: &'a [u8],
    count: u16,
) -> Result<(Vec<usize>, &'a [u8]), ImageFault>
    requires { EndsWith image.now bytes.now }
    ensures exact { GivesTable named class_bytes image.now (λ x. x.0.items) (λ x. x.1.now) result
        (times count (class_at count) bytes.now) }
{
    let mut table = Vec::new(alloc);
    let mut rest = bytes;
    for _ in 0..count {
        let at = image.len() - rest.len();
        rest = past_class(rest, count)?;
        table.push(at)?;
    }
    Ok((table, rest))
}

/// Where each of `count` texts begins in `image`, of which `bytes` is the rest, and the bytes after them.
pub fn text_table<'a>(
    alloc: Global,
    image: &[u8],
    bytes: &'a [u8],
    count: u16,
) -> Result<(Vec<usize>, &'a [u8]), ImageFault>
    requires { EndsWith image.now bytes.now }
    ensures exact { GivesTable named text_bytes image.now (λ x. x.0.items) (λ x. x.1.now) result
        (times count text_at bytes.now) }
{
    let mut table = Vec::new(alloc);
    let mut rest = bytes;
    for _ in 0..count {
        let at = image.len() - rest.len();
        rest = past_text(rest)?;
        table.push(at)?;
    }
    Ok((table, rest))
}

/// Where each of `count` functions begins in `image`, which is one of the version and of which `bytes` is the rest, and the bytes
/// after them.
pub fn function_table<'a>(
    alloc: Global,
    image: &[u8],
    bytes: &'a [u8],
    version: ImageVersion,
    classes: u16,
    count: u16,
) -> Result<(Vec<usize>, &'a [u8]), ImageFault>
    requires { EndsWith image.now bytes.now }
    ensures exact { GivesTable named function_bytes image.now (λ x. x.0.items)
        (λ x. x.1.now) result (numbered count (function_at version classes) bytes.now) }
{
    let mut table = Vec::new(alloc);
    let mut rest = bytes;
    for function in 0..count {
        let at = image.len() - rest.len();
        rest = past_function(rest, version, classes, function)?;
        table.push(at)?;
    }
    Ok((table, rest))
}
