//! The parts of an image, each at the front of bytes: the bytes after it, or its first wrong field.

ghost use Rattle.std.specs.Prelude.{◌≡◌};
ghost use Rattle.x10_model.specs.Readers.{int, times, numbered};
ghost use Rattle.x10_model.specs.ReadingImages.{Short, kind_at, slot_at, class_at, text_at, instruction_at, function_at};
ghost use Rattle.x10_image.specs.Faults.{ParsesImage, PassesBy};

use crate::fault::ImageFault;
use crate::field::{Field, Meaning, read, wrong};
use crate::fields::{after_zero_byte, after_zero_u16, byte_at_most, registers_at, u16_within};
use crate::kinds::{kind_at, result_at, slot_at};
use crate::known::is_known;
use x10_bytes::{byte_at, has, past, u16_at};
use x10_code::decode_slice;
use x10_model::ImageVersion;
use x10_model::limits::{
    MOST_ENTRIES, MOST_FIELDS, MOST_INSTRUCTIONS, MOST_LOOPS, MOST_PARAMETERS,
};

fn past_kinds(bytes: &[u8], count: u8, classes: u16) -> Result<&[u8], Field<'_>>
    ensures exact { PassesBy (λ f. f.fault) (λ x. x.now) result
        (times count (kind_at classes) bytes.now) }
{
    let mut rest = bytes;
    for field in 0..count {
        let meaning = Meaning::FieldKind(u16::from(field));
        let (_, after) = read!(meaning, 3, rest, kind_at(rest, classes));
        rest = after;
    }
    Ok(rest)
}

/// The bytes after a class, in a module with `classes` classes.
#[tactic(auto, unfolding(x10_model::specs::ReadingImages::class_at, x10_model::specs::Readers::bind, x10_model::specs::Readers::need, x10_model::specs::Readers::check))]
pub fn past_class(bytes: &[u8], classes: u16) -> Result<&[u8], Field<'_>>
    ensures exact { PassesBy (λ f. f.fault) (λ x. x.now) result (class_at classes bytes.now) }
{
    let (count, rest) = read!(Meaning::Fields, 1, bytes, byte_at(bytes));
    let width = 3 * usize::from(count);
    read!(Meaning::FieldKinds, width, rest, has(rest, width));
    if count > MOST_FIELDS {
        return Err(wrong(Meaning::Fields, 1, bytes, ImageFault::Count));
    }
    past_kinds(rest, count, classes)
}

/// The first constant number that isn't complete.
fn int_field(bytes: &[u8], fault: ImageFault) -> Field<'_>
    ensures { result.fault ≡ fault }
{
    let whole = bytes.len() / 8;
    let number = whole.min(usize::from(MOST_ENTRIES)) as u16;
    wrong(Meaning::Int(number), 8, &bytes[8 * whole..], fault)
}

/// The bytes after the constant numbers.
pub fn past_ints(bytes: &[u8], count: u16) -> Result<&[u8], Field<'_>>
    ensures exact { PassesBy (λ f. f.fault) (λ x. x.now) result
        (times count (int Short) bytes.now) }
{
    match past(bytes, 8 * usize::from(count)) {
        Ok(rest) => Ok(rest),
        Err(fault) => Err(int_field(bytes, fault)),
    }
}

/// Where the bytes of a text are wrong: there are too few, or the first that isn't UTF-8.
fn text_field(bytes: &[u8], length: usize, fault: ImageFault) -> Field<'_>
    ensures { result.fault ≡ fault }
{
    if length > bytes.len() {
        return wrong(Meaning::TextBytes, length, bytes, fault);
    }
    match str::from_utf8(&bytes[..length]) {
        Ok(_) => wrong(Meaning::TextBytes, length, bytes, fault),
        Err(error) => wrong(Meaning::TextBytes, 1, &bytes[error.valid_up_to()..], fault),
    }
}

/// The bytes after a text.
#[tactic(auto, unfolding(x10_model::specs::ReadingImages::text_at, x10_model::specs::Readers::bind))]
pub fn past_text(bytes: &[u8]) -> Result<&[u8], Field<'_>>
    ensures exact { PassesBy (λ f. f.fault) (λ x. x.now) result (text_at bytes.now) }
{
    let (length, rest) = read!(Meaning::TextLength, 2, bytes, u16_at(bytes));
    let length = usize::from(length);
    match x10_bytes::past_text(rest, length, ImageFault::Text) {
        Ok(after) => Ok(after),
        Err(fault) => Err(text_field(rest, length, fault)),
    }
}

/// The bytes after an instruction that an image of the version may have, given its function's number and its own.
#[tactic(auto, unfolding(x10_model::specs::ReadingImages::instruction_at, x10_model::specs::Readers::bind, x10_model::specs::Readers::part, x10_model::specs::Readers::given))]
fn past_instruction(
    bytes: &[u8],
    version: ImageVersion,
    function: u16,
    pc: u16,
) -> Result<&[u8], ImageFault>
    ensures exact { ParsesImage (λ x. x.now) result (instruction_at version function pc bytes.now) }
{
    if bytes.len() < 8 {
        return Err(ImageFault::Short);
    }
    let (front, rest) = bytes.split_at(8);
    match decode_slice(front) {
        Ok(instr) if is_known(version, instr.op) => Ok(rest),
        _ => Err(ImageFault::Code(function, pc)),
    }
}

fn past_slots(bytes: &[u8], count: u8, classes: u16) -> Result<&[u8], Field<'_>>
    ensures exact { PassesBy (λ f. f.fault) (λ x. x.now) result
        (times count (slot_at classes) bytes.now) }
{
    let mut rest = bytes;
    for parameter in 0..count {
        let meaning = Meaning::Parameter(u16::from(parameter));
        let (_, after) = read!(meaning, 4, rest, slot_at(rest, classes));
        rest = after;
    }
    Ok(rest)
}

fn past_code(
    bytes: &[u8],
    version: ImageVersion,
    function: u16,
    count: u16,
) -> Result<&[u8], Field<'_>>
    ensures exact { PassesBy (λ f. f.fault) (λ x. x.now) result
        (numbered count (instruction_at version function) bytes.now) }
{
    let mut rest = bytes;
    for pc in 0..count {
        let meaning = Meaning::Instruction(pc);
        rest = read!(
            meaning,
            8,
            rest,
            past_instruction(rest, version, function, pc)
        );
    }
    Ok(rest)
}

/// The bytes after a function, in an image of the version with `classes` classes.
#[tactic(auto, unfolding(x10_model::specs::ReadingImages::function_at, x10_model::specs::Readers::bind, x10_model::specs::Readers::done))]
pub fn past_function(
    bytes: &[u8],
    version: ImageVersion,
    classes: u16,
    function: u16,
) -> Result<&[u8], Field<'_>>
    ensures exact { PassesBy (λ f. f.fault) (λ x. x.now) result
        (function_at version classes function bytes.now) }
{
    read!(Meaning::Head, 4, bytes, has(bytes, 4));
    let most = MOST_PARAMETERS;
    let (parameters, bytes) = read!(Meaning::Parameters, 1, bytes, byte_at_most(bytes, most));
    let (_, bytes) = read!(
        Meaning::Registers,
        1,
        bytes,
        registers_at(bytes, parameters)
    );
    let (_, bytes) = read!(Meaning::Loops, 1, bytes, byte_at_most(bytes, MOST_LOOPS));
    let bytes = read!(Meaning::Zero, 1, bytes, after_zero_byte(bytes));
    let width = 4 * (usize::from(parameters) + 1);
    read!(Meaning::Kinds, width, bytes, has(bytes, width));
    let bytes = past_slots(bytes, parameters, classes)?;
    let (_, bytes) = read!(Meaning::Result, 4, bytes, result_at(bytes, classes));
    read!(Meaning::Count, 4, bytes, has(bytes, 4));
    let most = MOST_INSTRUCTIONS;
    let (instructions, bytes) = read!(Meaning::Instructions, 2, bytes, u16_within(bytes, 1, most));
    let bytes = read!(Meaning::Zero, 2, bytes, after_zero_u16(bytes));
    let width = 8 * usize::from(instructions);
    read!(Meaning::Code, width, bytes, has(bytes, width));
    past_code(bytes, version, function, instructions)
}
