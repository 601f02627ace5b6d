//! Numbers and parts at the front of bytes.

ghost use Rattle.std.specs.Prelude.{◌≡◌, Some};
ghost use Rattle.std.specs.Int.{w16, w32};
ghost use Rattle.std.specs.Str.{is_utf8};
ghost use Rattle.x10_model.specs.Readers.{byte, number, int, need, part, such_that};
ghost use Rattle.x10_bytes.specs.Faults.{Answers, Parses};

use crate::fault::ReadFault;
use byteorder::{BigEndian, ByteOrder};

/// One byte, and the bytes after it.
#[tactic(auto, unfolding(x10_model::specs::Readers::byte))]
#[inline(always)]
pub fn byte_at<F: ReadFault>(bytes: &[u8]) -> Result<(u8, &[u8]), F>
    ensures exact { Answers F.named (λ x. (x.0, x.1.now)) result (byte F.short bytes.now) }
{
    match bytes {
        [] => Err(F::too_short()),
        [first, rest @ ..] => Ok((*first, rest)),
    }
}

/// A number of two bytes, the highest first, and the bytes after it.
#[inline(always)]
pub fn u16_at<F: ReadFault>(bytes: &[u8]) -> Result<(u16, &[u8]), F>
    ensures exact { Answers F.named (λ x. (x.0, x.1.now)) result (number w16 F.short bytes.now) }
{
    if bytes.len() < 2 {
        return Err(F::too_short());
    }
    let (front, rest) = bytes.split_at(2);
    Ok((BigEndian::read_u16(front), rest))
}

/// A number of four bytes, the highest first, and the bytes after it.
#[inline(always)]
pub fn u32_at<F: ReadFault>(bytes: &[u8]) -> Result<(u32, &[u8]), F>
    ensures exact { Answers F.named (λ x. (x.0, x.1.now)) result (number w32 F.short bytes.now) }
{
    if bytes.len() < 4 {
        return Err(F::too_short());
    }
    let (front, rest) = bytes.split_at(4);
    Ok((BigEndian::read_u32(front), rest))
}

/// A number of eight bytes in two's complement, the highest byte first, and the bytes after it.
#[inline(always)]
pub fn i64_at<F: ReadFault>(bytes: &[u8]) -> Result<(i64, &[u8]), F>
    ensures exact { Answers F.named (λ x. (x.0, x.1.now)) result (int F.short bytes.now) }
{
    if bytes.len() < 8 {
        return Err(F::too_short());
    }
    let (front, rest) = bytes.split_at(8);
    Ok((BigEndian::read_u64(front).cast_signed(), rest))
}

/// Whether `count` bytes are there.
#[tactic(auto, unfolding(x10_model::specs::Readers::need))]
#[inline(always)]
pub fn has<F: ReadFault>(bytes: &[u8], count: usize) -> Result<(), F>
    ensures exact { Answers F.named (λ _. (tt, bytes.now)) result (need count F.short bytes.now) }
{
    if bytes.len() < count {
        return Err(F::too_short());
    }
    Ok(())
}

/// The bytes after the first `count`.
#[tactic(auto, unfolding(x10_model::specs::Readers::part))]
#[inline(always)]
pub fn past<F: ReadFault>(bytes: &[u8], count: usize) -> Result<&[u8], F>
    ensures exact { Parses F.named (λ x. x.now) result (part count F.short bytes.now) }
{
    if bytes.len() < count {
        return Err(F::too_short());
    }
    let (_, rest) = bytes.split_at(count);
    Ok(rest)
}

/// The bytes after a text of `count` bytes; the fault `no_text` where these aren't UTF-8.
#[tactic(auto, unfolding(x10_model::specs::Readers::such_that, x10_model::specs::Readers::bind, x10_model::specs::Readers::part, x10_model::specs::Readers::check, x10_model::specs::Readers::done))]
#[inline(always)]
pub fn past_text<F: ReadFault>(bytes: &[u8], count: usize, no_text: F) -> Result<&[u8], F>
    ensures exact { (fault : F.Fault) → F.named no_text ≡ Some fault
        → Parses F.named (λ x. x.now) result
        (such_that (part count F.short) is_utf8 fault bytes.now) }
{
    if bytes.len() < count {
        return Err(F::too_short());
    }
    let (text, rest) = bytes.split_at(count);
    match str::from_utf8(text) {
        Ok(_) => Ok(rest),
        Err(_) => Err(no_text),
    }
}
