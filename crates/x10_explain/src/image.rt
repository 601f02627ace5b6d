//! Why bytes are not an image.
ghost use Rattle.std.specs.Prelude.{◌≡◌, ◌++◌, ◌<◌, List, ℕ, IfOk, OnOk, length};
ghost use Rattle.std.specs.String.{string_bytes};
ghost use Rattle.x10_explain.specs.Heads.{image_head};

use crate::names::image_name;
use crate::order::{Limit, tell_limit};
use crate::teller::{Name, Teller};
use crate::text::is_text;
use std::alloc::{AllocError, Global};
use std::fmt::Write;
use x10_code::{Op, Operand, form, name, op_with_code};
use x10_image::{Field, ImageFault, Item, Meaning, is_known, misfit_in};
use x10_model::ImageVersion;
use x10_model::limits::{MOST_FUNCTIONS, MOST_INSTRUCTIONS, MOST_REGISTERS};

/// Why bytes are not an image, in at most 5 lines: the fault and how many bytes there are; where the fault is, the field that
/// begins there and its bytes; what the fault says; what the header counts, where it is there; and whether the bytes are a text
/// that has to be assembled. One pass over the bytes.
pub fn explain_image(alloc: Global, bytes: &[u8], fault: ImageFault) -> Result<String, AllocError>
    ensures { IfOk result (λ s. (rest : List ℕ)
        × (string_bytes s ≡ image_head fault (length bytes.now) ++ rest)) }
{
    let mut out = String::new(alloc);
    push_head(&mut out, fault, bytes.len())?;
    let rest = reasons(alloc, bytes, fault)?;
    out.push_str(&rest)?;
    Ok(out)
}

// The fault, and how many bytes there are.
fn push_head(out: &mut String, fault: ImageFault, len: usize) -> Result<(), AllocError>
    ensures { OnOk result (string_bytes out.new ≡ string_bytes out.old ++ image_head fault len) }
{
    let word = image_name(fault);
    writeln!(out, "{word}, in {len} bytes")
}

// What comes below that.
fn reasons(alloc: Global, bytes: &[u8], fault: ImageFault) -> Result<String, AllocError> {
    let mut out = Teller::new(alloc);
    let field = tell_position(&mut out, bytes, fault);
    tell_wrong(&mut out, bytes, fault, field);
    if is_text(bytes) {
        out.say(
            "These bytes are a text: assemble it first, with `asm`.\n",
            &[],
        );
    } else if bytes.len() >= 20 && fault != ImageFault::Magic {
        tell_counts(&mut out, bytes);
    }
    out.finish()
}

// The number of two bytes of the header, 0 where it isn't there.
fn number_at(bytes: &[u8], at: usize) -> u16 {
    match bytes.get(at..) {
        Some([high, low, ..]) => u16::from_be_bytes([*high, *low]),
        _ => 0,
    }
}

// What the header counts.
fn tell_counts(out: &mut Teller, bytes: &[u8]) {
    out.say("The header says: at least ", &[]);
    let counts = [
        (6, "place", "places"),
        (8, "class", "classes"),
        (10, "int", "ints"),
        (12, "text", "texts"),
        (14, "function", "functions"),
    ];
    for (at, one, many) in counts {
        let count = number_at(bytes, at);
        let word = if count == 1 { one } else { many };
        out.say("{} {}, ", &[Name::U16(count), Name::Word(word)]);
    }
    out.say("entry {}.\n", &[Name::U16(number_at(bytes, 16))]);
}

// ---- where it is

// Where bytes are refused by a fault: the byte, the field that begins there, and its bytes. Nothing where the bytes have no such
// fault. Returns the field that is wrong, where one was found.
fn tell_position<'a>(out: &mut Teller, bytes: &'a [u8], fault: ImageFault) -> Option<Field<'a>> {
    if fault == ImageFault::Entry {
        if bytes.len() >= 18 {
            out.say("At byte 16: the number of the entry function,", &[]);
            tell_bytes(out, bytes, 2, 16);
        }
        return None;
    }
    let misfit = misfit_in(bytes).filter(|misfit| misfit.fault == fault)?;
    let Some(field) = misfit.field.filter(|field| field.fault == fault) else {
        let left = misfit.from.len();
        let at = bytes.len().saturating_sub(left);
        out.say("At byte {}: ", &[Name::Usize(at)]);
        tell_item(out, misfit.item);
        out.say(", {} bytes.\n", &[Name::Usize(left)]);
        return None;
    };
    let (width, left) = (field.width, field.rest.len());
    let at = bytes.len().saturating_sub(left);
    out.say("At byte {}: ", &[Name::Usize(at)]);
    tell_meaning(out, field.meaning);
    tell_item(out, misfit.item);
    if left < width {
        out.say(
            ", {} bytes, of which {} are there.\n",
            &[Name::Usize(width), Name::Usize(left)],
        );
    } else {
        out.say(",", &[]);
        tell_bytes(out, bytes, width, at);
    }
    Some(field)
}

// Bytes in hexadecimal, 8 at most, and the end of the line.
fn tell_bytes(out: &mut Teller, bytes: &[u8], width: usize, from: usize) {
    for byte in bytes.iter().skip(from).take(width.min(8)) {
        out.say(" {}", &[Name::Hex(*byte)]);
    }
    out.say(".\n", &[]);
}

fn tell_item(out: &mut Teller, item: Item) {
    match item {
        Item::Header => out.say("of the header", &[]),
        Item::Class(c) => out.say("of class {}", &[Name::U16(c)]),
        Item::Ints(_) => out.say("of the constant numbers", &[]),
        Item::Text(t) => out.say("of constant text {}", &[Name::U16(t)]),
        Item::Function(f) => out.say("of function {}", &[Name::U16(f)]),
        Item::Behind => out.say("what comes after the last function", &[]),
    }
}

// What a field is, followed by a space.
fn tell_meaning(out: &mut Teller, meaning: Meaning) {
    out.say(
        match meaning {
            Meaning::FieldKind(n) => return out.say("the kind of field {} ", &[Name::U16(n)]),
            Meaning::Int(n) => return out.say("number {} ", &[Name::U16(n)]),
            Meaning::Parameter(n) => return out.say("parameter {} ", &[Name::U16(n)]),
            Meaning::Instruction(n) => return out.say("instruction {} ", &[Name::U16(n)]),
            Meaning::Header => "the 20 bytes ",
            Meaning::Magic => "the magic ",
            Meaning::Version => "the version ",
            Meaning::Places => "the least number of places ",
            Meaning::Functions => "the number of functions ",
            Meaning::Zero => "a number that has to be 0, ",
            Meaning::Fields => "the number of fields ",
            Meaning::FieldKinds => "the kinds of all fields ",
            Meaning::TextLength => "the length ",
            Meaning::TextBytes => "the bytes ",
            Meaning::Head => "the first 4 bytes ",
            Meaning::Parameters => "the number of parameters ",
            Meaning::Registers => "the number of registers ",
            Meaning::Loops => "the number of loop slots ",
            Meaning::Kinds => "the kinds of all parameters and of the result ",
            Meaning::Result => "the kind of the result ",
            Meaning::Count | Meaning::Instructions => "the number of instructions ",
            Meaning::Code => "the instructions ",
        },
        &[],
    );
}

// ---- what is wrong

// What is wrong with the field at which bytes are refused.
fn tell_wrong(out: &mut Teller, bytes: &[u8], fault: ImageFault, field: Option<Field>) {
    let sentence = match (fault, field) {
        (ImageFault::Count, Some(field)) => return tell_count(out, field),
        (ImageFault::Kind, Some(field)) => return tell_kind(out, field, number_at(bytes, 8)),
        (ImageFault::Code(..), Some(field)) => return tell_code(out, number_at(bytes, 4), field),
        (ImageFault::Entry, _) => return tell_entry(
            out,
            number_at(bytes, 16),
            number_at(bytes, 14),
        ),
        (ImageFault::Version, _) => "The version is 1 or 2; here it is {}.\n",
        (ImageFault::Short, _) =>
            "The bytes end before a part that the numbers before it promise.\n",
        (ImageFault::Magic, _) => "An image begins with the bytes 58 31 30 50, in hexadecimal.\n",
        (ImageFault::Text, _) => "A constant text isn't UTF-8.\n",
        (ImageFault::Trailing, _) => "There are bytes after the last function.\n",
        (ImageFault::Reserved, _) => "These bytes are 0 in every image.\n",
        (ImageFault::Memory, _) => "There was no memory to read the image.\n",
        _ => "",
    };
    out.say(sentence, &[Name::U16(number_at(bytes, 4))]);
}

// A byte of a field, 0 where it isn't there.
fn byte_of(field: Field, at: usize) -> u8 {
    field.rest.get(at).copied().unwrap_or(0)
}

// A number outside its range.
fn tell_count(out: &mut Teller, field: Field) {
    let registers = byte_of(field, 0);
    match field.meaning {
        Meaning::Places => tell_limit(out, Limit::Places),
        Meaning::Functions => out.say(
            "A module has 1 to {} functions.\n",
            &[Name::U16(MOST_FUNCTIONS)],
        ),
        Meaning::Fields => tell_limit(out, Limit::Fields),
        Meaning::Parameters => tell_limit(out, Limit::Parameters),
        Meaning::Registers if registers < 1 || registers > MOST_REGISTERS => {
            tell_limit(out, Limit::Registers);
        }
        Meaning::Registers => out.say(
            "Each parameter takes a register, and there are more parameters.\n",
            &[],
        ),
        Meaning::Loops => tell_limit(out, Limit::Loops),
        Meaning::Instructions => out.say(
            "A function has 1 to {} instructions.\n",
            &[Name::U16(MOST_INSTRUCTIONS)],
        ),
        _ => {}
    }
}

// A kind, three bytes, or four with its home flag.
fn tell_kind(out: &mut Teller, field: Field, classes: u16) {
    let tag = byte_of(field, 0);
    let class = u16::from_be_bytes([byte_of(field, 1), byte_of(field, 2)]);
    if tag > 4 && tag < 8 && class >= classes {
        return out.say(
            "There is no class {}: the header counts {}.\n",
            &[Name::U16(class), Name::U16(classes)],
        );
    }
    let sentence = if tag > 7 || (tag == 0 && !matches!(field.meaning, Meaning::Result)) {
        "No kind has the tag {}; tags are 1 to 7.\n"
    } else if tag < 5 && class != 0 {
        "A kind with the tag {} has no class, so the two bytes after it are 0.\n"
    } else if tag == 7 {
        "The home flag, the last byte, is 0 or 1.\n"
    } else {
        "Only a global reference has a home flag, so the last byte is 0.\n"
    };
    out.say(sentence, &[Name::U8(tag)]);
}

// An instruction, in an image of a version.
fn tell_code(out: &mut Teller, version: u16, field: Field) {
    let code = byte_of(field, 0);
    let Some(op) = op_with_code(code) else {
        return out.say("No operation has the code {}.\n", &[Name::Hex(code)]);
    };
    if version == 1 && !is_known(ImageVersion::One, op) {
        return out.say(
            "{} is an operation of version 2, and the image has version 1.\n",
            &[Name::Word(name(op))],
        );
    }
    out.say(
        "{} has no operand {}, so there it is 0.\n",
        &[Name::Word(name(op)), Name::Word(unused_in(op, field))],
    );
}

// The first operand that an operation doesn't use and that isn't 0.
fn unused_in(op: Op, field: Field) -> &'static str {
    let form = form(op);
    let operands = [("a", form.a, 1), ("b", form.b, 2), ("c", form.c, 3)];
    for (letter, operand, at) in operands {
        if matches!(operand, Operand::Unused) && byte_of(field, at) != 0 {
            return letter;
        }
    }
    "x"
}

// An entry that is no entry function.
fn tell_entry(out: &mut Teller, entry: u16, functions: u16) {
    let sentence = if entry >= functions {
        "There is no function {}: the header counts {}.\n"
    } else {
        "A run begins with a function that takes and gives nothing, and function {} isn't one.\n"
    };
    out.say(sentence, &[Name::U16(entry), Name::U16(functions)]);
}
