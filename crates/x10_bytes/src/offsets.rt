//! Numbers and parts of bytes by their positions there. The caller knows that each is there, so nothing is looked for.

ghost use Rattle.std.specs.Prelude.{◌≡◌, ◌+◌, ◌≤◌, length, drop, slice_range};
ghost use Rattle.std.specs.Int.{w16, w32, w64, from_be_bytes, cast_signed};

use byteorder::{BigEndian, ByteOrder};

/// The number of two bytes at a position.
#[inline(always)]
pub fn u16_in(bytes: &[u8], at: usize) -> u16
    requires { at + 2 ≤ length bytes.now }
    ensures { result ≡ from_be_bytes w16 (slice_range bytes.now at (at + 2)) }
{
    BigEndian::read_u16(&bytes[at..at + 2])
}

/// The number of four bytes at a position.
#[inline(always)]
pub fn u32_in(bytes: &[u8], at: usize) -> u32
    requires { at + 4 ≤ length bytes.now }
    ensures { result ≡ from_be_bytes w32 (slice_range bytes.now at (at + 4)) }
{
    BigEndian::read_u32(&bytes[at..at + 4])
}

/// The number of eight bytes in two's complement at a position.
#[inline(always)]
pub fn i64_in(bytes: &[u8], at: usize) -> i64
    requires { at + 8 ≤ length bytes.now }
    ensures { result ≡ cast_signed w64 (from_be_bytes w64 (slice_range bytes.now at (at + 8))) }
{
    BigEndian::read_i64(&bytes[at..at + 8])
}

/// The bytes from a position on.
#[inline(always)]
pub fn bytes_from(bytes: &[u8], at: usize) -> &[u8]
    requires { at ≤ length bytes.now }
    ensures { result.now ≡ drop at bytes.now }
{
    &bytes[at..]
}
