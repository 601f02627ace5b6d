//! Numbers at the front of bytes, within their ranges.

ghost use Rattle.std.specs.Int.{w16};
ghost use Rattle.std.specs.Prelude.{nat_le, ◌&&◌};
ghost use Rattle.x10_model.specs.declared.limits.TheConstants.{MOST_REGISTERS};
ghost use Rattle.x10_model.specs.Readers.{byte, number, such_that, expect};
ghost use Rattle.x10_model.specs.ReadingImages.{Short, Count, Reserved, is_within};
ghost use Rattle.x10_model.specs.ReadingImages as reading;
ghost use Rattle.x10_image.specs.Faults.{named, Answers};

use crate::fault::ImageFault;
use x10_bytes::{ReadFault, byte_at, u16_at};
use x10_model::limits::MOST_REGISTERS;

impl ReadFault for ImageFault {
    ghost Fault = { reading.ImageFault };

    ghost named = { named };

    ghost short = { Short };

    fn too_short() -> ImageFault {
        ImageFault::Short
    }
}

/// One byte, at most `most`, and the bytes after it.
#[tactic(auto, unfolding(x10_model::specs::Readers::such_that, x10_model::specs::Readers::bind, x10_model::specs::Readers::check, x10_model::specs::Readers::done))]
pub fn byte_at_most(bytes: &[u8], most: u8) -> Result<(u8, &[u8]), ImageFault>
    ensures exact { Answers (λ x. (x.0, x.1.now)) result
        (such_that (byte Short) (is_within 0 most) Count bytes.now) }
{
    let (number, bytes) = byte_at::<ImageFault>(bytes)?;
    if number > most {
        return Err(ImageFault::Count);
    }
    Ok((number, bytes))
}

/// A function's number of registers, at least that of its parameters, and the bytes after it.
#[tactic(auto, unfolding(x10_model::specs::Readers::such_that, x10_model::specs::Readers::bind, x10_model::specs::Readers::check, x10_model::specs::Readers::done))]
pub fn registers_at(bytes: &[u8], parameters: u8) -> Result<(u8, &[u8]), ImageFault>
    ensures exact { Answers (λ x. (x.0, x.1.now)) result
        (such_that (byte Short)
        (λ n. is_within 1 MOST_REGISTERS n && nat_le parameters n) Count bytes.now) }
{
    let (registers, bytes) = byte_at::<ImageFault>(bytes)?;
    if !(1..=MOST_REGISTERS).contains(&registers) || registers < parameters {
        return Err(ImageFault::Count);
    }
    Ok((registers, bytes))
}

/// A number of two bytes from `least` to `most`, and the bytes after it.
#[tactic(auto, unfolding(x10_model::specs::Readers::such_that, x10_model::specs::Readers::bind, x10_model::specs::Readers::check, x10_model::specs::Readers::done))]
pub fn u16_within(bytes: &[u8], least: u16, most: u16) -> Result<(u16, &[u8]), ImageFault>
    ensures exact { Answers (λ x. (x.0, x.1.now)) result
        (such_that (number w16 Short) (is_within least most) Count bytes.now) }
{
    let (number, bytes) = u16_at::<ImageFault>(bytes)?;
    if number < least || number > most {
        return Err(ImageFault::Count);
    }
    Ok((number, bytes))
}

/// The bytes after a reserved byte, which is 0.
#[tactic(auto, unfolding(x10_model::specs::Readers::expect, x10_model::specs::Readers::bind, x10_model::specs::Readers::check))]
pub fn after_zero_byte(bytes: &[u8]) -> Result<&[u8], ImageFault>
    ensures exact { Answers (λ x. (tt, x.now)) result (expect (byte Short) 0 Reserved bytes.now) }
{
    let (reserved, bytes) = byte_at::<ImageFault>(bytes)?;
    if reserved != 0 {
        return Err(ImageFault::Reserved);
    }
    Ok(bytes)
}

/// The bytes after a reserved number of two bytes, which is 0.
#[tactic(auto, unfolding(x10_model::specs::Readers::expect, x10_model::specs::Readers::bind, x10_model::specs::Readers::check))]
pub fn after_zero_u16(bytes: &[u8]) -> Result<&[u8], ImageFault>
    ensures exact { Answers (λ x. (tt, x.now)) result
        (expect (number w16 Short) 0 Reserved bytes.now) }
{
    let (reserved, bytes) = u16_at::<ImageFault>(bytes)?;
    if reserved != 0 {
        return Err(ImageFault::Reserved);
    }
    Ok(bytes)
}
