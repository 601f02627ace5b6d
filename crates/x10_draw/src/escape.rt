//! Texts in XML.
ghost use Rattle.std.specs.Prelude.{◌≡◌, ◌++◌, IsTrue, OnOk, MatchOption};
ghost use Rattle.std.specs.Char.{encode_utf8};
ghost use Rattle.std.specs.List.{flat_map};
ghost use Rattle.std.specs.Str.{chars};
ghost use Rattle.std.specs.String.{string_bytes};
ghost use Rattle.x10_draw.specs.Escapes as spec;

use std::alloc::AllocError;

/// What stands for a character in XML, if not the character itself.
fn reference(c: char) -> Option<&'static str>
    ensures { MatchOption result (spec.escape c ≡ encode_utf8 c) (λ s. spec.escape c ≡ s.now) }
{
    match u32::from(c) {
        38 => Some("&amp;"),
        60 => Some("&lt;"),
        62 => Some("&gt;"),
        34 => Some("&quot;"),
        39 => Some("&apos;"),
        9 => Some("&#9;"),
        10 => Some("&#10;"),
        13 => Some("&#13;"),
        0..=31 | 65534 | 65535 => Some("\u{FFFD}"),
        _ => None,
    }
}

/// Pushes a character as it is written in XML.
fn push_char(out: &mut String, c: char) -> Result<(), AllocError>
    ensures { OnOk result (string_bytes out.new ≡ string_bytes out.old ++ spec.escape c) }
{
    match reference(c) {
        Some(reference) => out.push_str(reference),
        None => out.push(c),
    }
}

/// Pushes a text as it is written in XML 1.0 (fifth edition), in the content of an element or in an attribute's value: `&`,
/// `<`, `>` and the quotes by the five predefined entities (sections 2.4 and 4.6), a tab, a line feed and a carriage return by
/// their numbers, so that no reader makes spaces of them (2.11, 3.3.3), and each character that section 2.2 doesn't permit,
/// which no reference may name either, as U+FFFD, the replacement character. Linear in the text.
#[tactic(auto, using(crate::proofs::Contents::all_chars))]
pub fn push_escaped(out: &mut String, text: &str) -> Result<(), AllocError>
    ensures value { OnOk result (string_bytes out.new
        ≡ string_bytes out.old ++ flat_map spec.escape (chars text.now)) }
    ensures content { IsTrue (spec.are_content (flat_map spec.escape (chars text.now))) }
{
    for c in text.chars() {
        push_char(out, c)?;
    }
    Ok(())
}
