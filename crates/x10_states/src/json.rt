//! Texts in JSON.
ghost use Rattle.std.specs.Prelude.{◌≡◌, ◌<◌, ◌∷◌, [], ◌++◌, OnOk, MatchOption};
ghost use Rattle.std.specs.Char.{encode_utf8};
ghost use Rattle.std.specs.List.{flat_map};
ghost use Rattle.std.specs.Str.{chars};
ghost use Rattle.std.specs.String.{string_bytes};
ghost use Rattle.x10_states.specs.Json as spec;
ghost use Rattle.x10_states.specs.Json.{hex_digit, json, bool_word, comma};

use std::alloc::AllocError;

/// Pushes a digit of base 16.
fn push_digit(out: &mut String, digit: u8) -> Result<(), AllocError>
    requires { digit < 16 }
    ensures { OnOk result (string_bytes out.new ≡ string_bytes out.old ++ hex_digit digit ∷ []) }
{
    if digit < 10 {
        out.push(char::from(b'0' + digit))
    } else {
        out.push(char::from(b'a' + (digit - 10)))
    }
}

/// Pushes a control character, by its number.
fn push_control(out: &mut String, c: u8) -> Result<(), AllocError>
    requires { c < 32 }
    ensures { OnOk result (string_bytes out.new ≡ string_bytes out.old ++ spec.escape c) }
{
    out.push_str("\\u00")?;
    push_digit(out, c / 16)?;
    push_digit(out, c % 16)
}

/// Pushes a character as it stands between quotes.
fn push_char(out: &mut String, c: char) -> Result<(), AllocError>
    ensures { OnOk result (string_bytes out.new ≡ string_bytes out.old ++ spec.escape c) }
{
    match u32::from(c) {
        34 => out.push_str("\\\""),
        92 => out.push_str("\\\\"),
        60 => out.push_str("\\u003c"),
        number @ 0..=31 => push_control(out, number as u8),
        _ => out.push(c),
    }
}

/// Pushes the characters of a text as they stand between quotes.
fn push_chars(out: &mut String, text: &str) -> Result<(), AllocError>
    ensures { OnOk result (string_bytes out.new
        ≡ string_bytes out.old ++ flat_map spec.escape (chars text.now)) }
{
    for c in text.chars() {
        push_char(out, c)?;
    }
    Ok(())
}

/// Pushes a text in quotes, by the rules of JSON; `<` is told by its number, so that the text may stand in a page. Linear in
/// the text.
pub fn push_json(out: &mut String, text: &str) -> Result<(), AllocError>
    ensures { OnOk result (string_bytes out.new ≡ string_bytes out.old ++ json text.now) }
{
    out.push('"')?;
    push_chars(out, text)?;
    out.push('"')
}

/// Pushes `true` or `false`.
pub(crate) fn push_bool(out: &mut String, value: bool) -> Result<(), AllocError>
    ensures { OnOk result (string_bytes out.new ≡ string_bytes out.old ++ bool_word value) }
{
    if value {
        out.push_str("true")
    } else {
        out.push_str("false")
    }
}

/// Pushes what stands before the element with a number.
pub fn push_comma(out: &mut String, at: usize) -> Result<(), AllocError>
    ensures { OnOk result (string_bytes out.new ≡ string_bytes out.old ++ comma at) }
{
    if at == 0 {
        return Ok(());
    }
    out.push(',')
}
