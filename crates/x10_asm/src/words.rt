//! Words of a listing, each pushed with the space before it.

ghost use Rattle.std.specs.Prelude.{◌≡◌, OnOk, ◌++◌, ◌∷◌, [], ◌+◌, ◌<◌, decimal, codes};
ghost use Rattle.std.specs.Fmt.{signed_decimal};
ghost use Rattle.std.specs.String.{string_bytes};
ghost use Rattle.x10_asm.specs.Listing.{spaced, kind_word, slot_word, result_word};

use itoa::Buffer;
use std::alloc::AllocError;
use x10_kinds::Kind;
use x10_model::Slot;

/// Pushes a space and a word.
pub fn push_word(out: &mut String, word: &str) -> Result<(), AllocError>
    ensures { OnOk result (string_bytes out.new ≡ string_bytes out.old ++ spaced word.now) }
{
    out.push(' ')?;
    out.push_str(word)?;
    Ok(())
}

fn push_digit(out: &mut String, digit: u64) -> Result<(), AllocError>
    requires { digit < 10 }
    ensures { OnOk result (string_bytes out.new ≡ string_bytes out.old ++ (48 + digit) ∷ []) }
{
    out.push(char::from(b'0' + digit as u8))?;
    Ok(())
}

/// Pushes a number by way of a buffer.
fn push_formatted(out: &mut String, number: u64) -> Result<(), AllocError>
    ensures { OnOk result (string_bytes out.new ≡ string_bytes out.old ++ decimal number) }
{
    out.push_str(Buffer::new().format(number))?;
    Ok(())
}

/// Pushes a number; one of two digits at most, as most are, without a buffer.
#[inline(always)]
fn push_decimal(out: &mut String, number: u64) -> Result<(), AllocError>
    ensures { OnOk result (string_bytes out.new ≡ string_bytes out.old ++ decimal number) }
{
    if number < 10 {
        return push_digit(out, number);
    }
    if number < 100 {
        push_digit(out, number / 10)?;
        return push_digit(out, number % 10);
    }
    push_formatted(out, number)
}

/// Pushes a space and a number.
pub fn push_number(out: &mut String, number: u64) -> Result<(), AllocError>
    ensures { OnOk result (string_bytes out.new ≡ string_bytes out.old ++ spaced (decimal number)) }
{
    out.push(' ')?;
    push_decimal(out, number)?;
    Ok(())
}

/// Pushes a space and a number that may be below 0.
pub fn push_int(out: &mut String, number: i64) -> Result<(), AllocError>
    ensures { OnOk result (string_bytes out.new
        ≡ string_bytes out.old ++ spaced (signed_decimal number)) }
{
    out.push_str(" ")?;
    out.push_str(Buffer::new().format(number))?;
    Ok(())
}

/// Pushes the word of a kind with a class, and the class.
fn push_classed(out: &mut String, word: &str, class: u16) -> Result<(), AllocError>
    ensures { OnOk result (string_bytes out.new
        ≡ string_bytes out.old ++ spaced (word.now ++ decimal class)) }
{
    push_word(out, word)?;
    push_decimal(out, u64::from(class))?;
    Ok(())
}

/// Pushes a space and the word of a kind.
pub fn push_kind(out: &mut String, kind: Kind) -> Result<(), AllocError>
    ensures { OnOk result (string_bytes out.new ≡ string_bytes out.old ++ spaced (kind_word kind)) }
{
    match kind {
        Kind::Int => push_word(out, "int"),
        Kind::Place => push_word(out, "place"),
        Kind::Text => push_word(out, "text"),
        Kind::Rail => push_word(out, "rail"),
        Kind::Obj(class) => push_classed(out, "obj:", class),
        Kind::Opt(class) => push_classed(out, "opt:", class),
        Kind::GRef(class) => push_classed(out, "gref:", class),
    }
}

/// Pushes a space and the word of a parameter or a result.
pub fn push_slot(out: &mut String, slot: Slot) -> Result<(), AllocError>
    ensures { OnOk result (string_bytes out.new ≡ string_bytes out.old ++ spaced (slot_word slot)) }
{
    match slot.kind {
        Kind::GRef(class) if slot.home_here => push_classed(out, "here:", class),
        kind => push_kind(out, kind),
    }
}

/// Pushes a space and the word of a result, which is `none` where there is none.
pub fn push_result(out: &mut String, given: Option<Slot>) -> Result<(), AllocError>
    ensures { OnOk result (string_bytes out.new
        ≡ string_bytes out.old ++ spaced (result_word given)) }
{
    match given {
        None => push_word(out, "none"),
        Some(slot) => push_slot(out, slot),
    }
}
