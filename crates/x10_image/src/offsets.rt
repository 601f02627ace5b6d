//! Parts of an image by their positions in its bytes. Each part was seen to be there when the image was read, so nothing is
//! looked for again.

ghost use Rattle.std.specs.Prelude.{◌≡◌, ◌+◌, ◌*◌, ◌≤◌, Ok, length, slice_index, slice_range, IsUtf8, ◌==◌, if◌then◌else◌};
ghost use Rattle.std.specs.Int.{w16, from_be_bytes};
ghost use Rattle.x10_code.specs.declared.instr.Instr.{Instr};
ghost use Rattle.x10_code.specs.Spelling.{decoded};
ghost use Rattle.x10_image.specs.Parts.{slot_at, kinds_in, slots_in};

use crate::class_view::ClassView;
use crate::sig_view::{SigView, slot_in};
use byteorder::{BigEndian, ByteOrder};
use x10_bytes::u16_in;
use x10_code::{Instr, op_with_code};
use x10_model::Slot;

/// The text at a position: its length in two bytes, and its bytes.
pub fn text_in(bytes: &[u8], at: usize) -> &str
    requires length { at + 2 ≤ length bytes.now }
    requires room { at + 2 + from_be_bytes w16 (slice_range bytes.now at (at + 2))
        ≤ length bytes.now }
    requires utf8 { IsUtf8 (slice_range bytes.now (at + 2)
        (at + 2 + from_be_bytes w16 (slice_range bytes.now at (at + 2)))) }
    ensures { result.now ≡ slice_range bytes.now (at + 2)
        (at + 2 + from_be_bytes w16 (slice_range bytes.now at (at + 2))) }
{
    let count = usize::from(u16_in(bytes, at));
    let text = &bytes[at + 2..at + 2 + count];
    unsafe { str::from_utf8_unchecked(text) }
}

/// The class at a position: its number of fields in a byte, and their kinds.
pub fn class_in(bytes: &[u8], at: usize) -> ClassView<'_>
    requires { at + 1 + 3 * slice_index bytes.now at ≤ length bytes.now }
    ensures { result ≡ kinds_in (slice_range bytes.now (at + 1)
        (at + 1 + 3 * slice_index bytes.now at)) }
{
    let count = usize::from(bytes[at]);
    ClassView {
        kinds: &bytes[at + 1..at + 1 + 3 * count],
    }
}

fn result_in(bytes: &[u8], at: usize) -> Option<Slot>
    requires { at + 4 ≤ length bytes.now }
    ensures { result ≡ (if slice_index bytes.now at == 0 then None else Some
        (slot_at bytes.now at)) }
{
    if bytes[at] == 0 {
        return None;
    }
    Some(slot_in(bytes, at))
}

/// The signature of the function at a position.
pub fn signature_in(bytes: &[u8], at: usize) -> SigView<'_>
    requires { at + 8 + 4 * slice_index bytes.now at ≤ length bytes.now }
    ensures { result ≡ record {
      parameters = slots_in (slice_range bytes.now (at + 4)
          (at + 4 + 4 * slice_index bytes.now at));
      registers = slice_index bytes.now (at + 1);
      loops = slice_index bytes.now (at + 2);
      result = if slice_index bytes.now (at + 4 + 4 * slice_index bytes.now at) == 0 then None
          else Some (slot_at bytes.now (at + 4 + 4 * slice_index bytes.now at));
    } }
{
    let end = at + 4 + 4 * usize::from(bytes[at]);
    SigView {
        slots: &bytes[at + 4..end],
        registers: bytes[at + 1],
        loops: bytes[at + 2],
        result: result_in(bytes, end),
    }
}

/// The position of the code of the function at a position. Four bytes before it is the code's length.
pub fn code_place(bytes: &[u8], at: usize) -> usize
    requires { at + 12 + 4 * slice_index bytes.now at ≤ length bytes.now }
    ensures { result ≡ at + 12 + 4 * slice_index bytes.now at }
{
    at + 12 + 4 * usize::from(bytes[at])
}

/// How many instructions the function at a position has.
pub fn code_len_in(bytes: &[u8], at: usize) -> usize
    requires { at + 12 + 4 * slice_index bytes.now at ≤ length bytes.now }
    ensures { result ≡ from_be_bytes w16 (slice_range bytes.now
        (at + 8 + 4 * slice_index bytes.now at) (at + 8 + 4 * slice_index bytes.now at + 2)) }
{
    usize::from(u16_in(bytes, at + 8 + 4 * usize::from(bytes[at])))
}

/// The instruction that eight bytes spell.
#[inline(always)]
fn instr_of(bytes: &[u8]) -> Instr
    requires length { length bytes.now ≡ 8 }
    requires known { (i : Instr) × (decoded bytes.now ≡ Ok i) }
    ensures { decoded bytes.now ≡ Ok result }
{
    Instr {
        op: op_with_code(bytes[0]).unwrap(),
        a: bytes[1],
        b: bytes[2],
        c: bytes[3],
        x: BigEndian::read_u32(&bytes[4..8]),
    }
}

/// The first operand of the instruction that eight bytes spell.
#[inline(always)]
fn operand_of(bytes: &[u8]) -> u8
    requires { length bytes.now ≡ 8 }
    ensures { (i : Instr) → decoded bytes.now ≡ Ok i → result ≡ i.a }
{
    bytes[1]
}

/// The first operand of the instruction at a position.
#[inline(always)]
pub fn operand_in(bytes: &[u8], at: usize) -> u8
    requires { at + 8 ≤ length bytes.now }
    ensures { (i : Instr) → decoded (slice_range bytes.now at (at + 8)) ≡ Ok i → result ≡ i.a }
{
    operand_of(&bytes[at..at + 8])
}

/// The instruction at a position.
#[inline(always)]
pub fn instr_in(bytes: &[u8], at: usize) -> Instr
    requires room { at + 8 ≤ length bytes.now }
    requires known { (i : Instr) × (decoded (slice_range bytes.now at (at + 8)) ≡ Ok i) }
    ensures { decoded (slice_range bytes.now at (at + 8)) ≡ Ok result }
{
    instr_of(&bytes[at..at + 8])
}
