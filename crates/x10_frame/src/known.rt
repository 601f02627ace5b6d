//! Values that were read before. Each was seen to be there when the frame was read, so nothing is looked at again.

ghost use Rattle.std.specs.Prelude.{◌≡◌, ◌≤◌, ℕ, Ok, IsOk, length, take, drop, slice_index};
ghost use Rattle.std.specs.Int.{byte_len, w16, w32, w64, from_be_bytes, cast_signed};
ghost use Rattle.x10_model.specs.Frames.{width_of, IntItem, RefItem};
ghost use Rattle.x10_model.specs.ReadingFrames.{item_at};
ghost use Rattle.x10_frame.specs.Items.{item_of, full};

use crate::item::Item;
use byteorder::{BigEndian, ByteOrder};
use x10_model::FrameVersion;

/// One byte, and the bytes after it.
#[inline(always)]
fn first_byte(bytes: &[u8]) -> (u8, &[u8])
    requires { 1 ≤ length bytes.now }
    ensures number { result.0 ≡ slice_index bytes.now 0 }
    ensures after { result.1.now ≡ drop 1 bytes.now }
{
    (bytes[0], &bytes[1..])
}

/// A number of two bytes, and the bytes after it.
#[inline(always)]
fn first_u16(bytes: &[u8]) -> (u16, &[u8])
    requires { 2 ≤ length bytes.now }
    ensures number { result.0 ≡ from_be_bytes w16 (take 2 bytes.now) }
    ensures after { result.1.now ≡ drop 2 bytes.now }
{
    (BigEndian::read_u16(&bytes[..2]), &bytes[2..])
}

/// A number as wide as the version says, and the bytes after it.
#[inline(always)]
fn first_number(bytes: &[u8], version: FrameVersion) -> (u32, &[u8])
    requires { byte_len (width_of version) ≤ length bytes.now }
    ensures number { result.0 ≡ from_be_bytes (width_of version)
        (take (byte_len (width_of version)) bytes.now) }
    ensures after { result.1.now ≡ drop (byte_len (width_of version)) bytes.now }
{
    match version {
        FrameVersion::Narrow => {
            let (number, rest) = first_u16(bytes);
            (u32::from(number), rest)
        }
        FrameVersion::Wide => (BigEndian::read_u32(&bytes[..4]), &bytes[4..]),
    }
}

/// An integer, and the bytes after it.
#[inline(always)]
fn first_int(bytes: &[u8]) -> (Item, &[u8])
    requires { 8 ≤ length bytes.now }
    ensures item { item_of result.0 ≡ IntItem (cast_signed w64
        (from_be_bytes w64 (take 8 bytes.now))) }
    ensures after { result.1.now ≡ drop 8 bytes.now }
{
    let (front, rest) = bytes.split_at(8);
    let number = BigEndian::read_u64(front).cast_signed();
    (Item::Int(number), rest)
}

/// The home, the number there and the class of a global reference, and the bytes after them.
#[inline(always)]
fn first_ref(bytes: &[u8]) -> (Item, &[u8])
    requires { 8 ≤ length bytes.now }
    ensures item { item_of result.0 ≡ RefItem (from_be_bytes w16 (take 2 bytes.now))
        (from_be_bytes w32 (take 4 (drop 2 bytes.now)))
        (from_be_bytes w16 (take 2 (drop 6 bytes.now))) }
    ensures after { result.1.now ≡ drop 8 bytes.now }
{
    let item = Item::Ref {
        home: BigEndian::read_u16(&bytes[..2]),
        id: BigEndian::read_u32(&bytes[2..6]),
        class: BigEndian::read_u16(&bytes[6..8]),
    };
    (item, &bytes[8..])
}

/// A value, and the bytes after it.
#[inline(always)]
pub fn known_item(bytes: &[u8], version: FrameVersion) -> (Item, &[u8])
    requires { (places : ℕ) × IsOk (item_at version places (full version)
        (full version) bytes.now) }
    ensures { (places : ℕ) → IsOk (item_at version places (full version) (full version) bytes.now)
        → item_at version places (full version) (full version) bytes.now
        ≡ Ok (item_of result.0, result.1.now) }
{
    let (tag, rest) = first_byte(bytes);
    match tag {
        1 => first_int(rest),
        2 => {
            let (place, rest) = first_u16(rest);
            (Item::Place(place), rest)
        }
        3 => {
            let (index, rest) = first_number(rest, version);
            (Item::Text(index), rest)
        }
        4 => {
            let (index, rest) = first_number(rest, version);
            (Item::Rail(index), rest)
        }
        5 => {
            let (index, rest) = first_number(rest, version);
            (Item::Object(index), rest)
        }
        6 => (Item::Null, rest),
        _ => first_ref(rest),
    }
}
