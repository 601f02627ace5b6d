//! A text between quotes.

ghost use Rattle.std.specs.Prelude.{◌≡◌, OnOk, ◌++◌, ◌∷◌, [], MatchOption, ◌<◌};
ghost use Rattle.std.specs.String.{string_bytes};
ghost use Rattle.std.specs.List.{flat_map};
ghost use Rattle.x10_asm.specs.Listing as listing;
ghost use Rattle.x10_asm.specs.Listing.{spaced, quoted};

use std::alloc::AllocError;

/// What stands for a byte, if not the byte itself.
fn escaped(byte: u8) -> Option<&'static str>
    ensures { MatchOption result (listing.escape byte ≡ byte ∷ [])
        (λ s. (listing.escape byte ≡ s.now) × (byte < 128)) }
{
    match byte {
        b'"' => Some("\\\""),
        b'\\' => Some("\\\\"),
        b'\n' => Some("\\n"),
        _ => None,
    }
}

/// Pushes a text with its escapes. Runs of bytes that stand for themselves are pushed at once.
fn push_escaped(out: &mut String, text: &str) -> Result<(), AllocError>
    ensures { OnOk result (string_bytes out.new
        ≡ string_bytes out.old ++ flat_map listing.escape text.now) }
{
    let bytes = text.as_bytes();
    let mut from = 0;
    for at in 0..bytes.len() {
        if let Some(escape) = escaped(bytes[at]) {
            out.push_str(&text[from..at])?;
            out.push_str(escape)?;
            from = at + 1;
        }
    }
    out.push_str(&text[from..])?;
    Ok(())
}

/// Pushes a space and a text between quotes.
pub fn push_quoted(out: &mut String, text: &str) -> Result<(), AllocError>
    ensures { OnOk result (string_bytes out.new
        ≡ string_bytes out.old ++ spaced (quoted text.now)) }
{
    out.push_str(" \"")?;
    push_escaped(out, text)?;
    out.push_str("\"")?;
    Ok(())
}
