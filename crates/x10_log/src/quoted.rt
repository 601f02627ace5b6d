//! A text between quotes.

ghost use Rattle.std.specs.Prelude.{◌≡◌, ◌≤◌, ◌<◌, ◌++◌, ◌∷◌, List, ℕ, false, IsUtf8, IfOk, Some, length};
ghost use Rattle.std.specs.List.{flat_map};
ghost use Rattle.std.specs.String.{string_bytes};
ghost use Rattle.x10_asm.specs.Listing.{escape};
ghost use Rattle.x10_asm.specs.Literals as literals;
ghost use Rattle.x10_log.specs.Reading.{IsEnd, Shows, ShowsBoth, tail_bytes};

use crate::cut::tail_of;
use crate::fault::LogCause;
use std::alloc::Global;
use x10_asm::{AsmCause, scan_quoted};

/// The bytes up to the closing quote, and what follows that.
fn scan(alloc: Global, quoted: &str) -> Result<(Vec<u8>, &str), LogCause>
    ensures found { (text rest : List ℕ) → literals.scan false quoted.now ≡ Some (text, rest)
        → ShowsBoth (λ v. v.items) (λ r. r.now) result text rest }
    ensures shorter { IfOk result (λ x. length x.1.now < length quoted.now) }
{
    match scan_quoted(alloc, quoted) {
        Ok(both) => Ok(both),
        Err(AsmCause::Memory) => Err(LogCause::Memory),
        Err(_) => Err(LogCause::Printed),
    }
}

/// The text with these bytes.
fn text_of(bytes: Vec<u8>) -> Result<String, LogCause>
    ensures { IsUtf8 bytes.items → Shows string_bytes result bytes.items }
{
    match String::from_utf8(bytes) {
        Ok(text) => Ok(text),
        Err(_) => Err(LogCause::Printed),
    }
}

/// The text up to the closing quote, and what follows that.
pub fn text_at(alloc: Global, quoted: &str) -> Result<(String, Option<&str>), LogCause>
    ensures found { (text rest : List ℕ) → IsUtf8 text → IsEnd rest
        → quoted.now ≡ flat_map escape text ++ 34 ∷ rest
        → ShowsBoth string_bytes tail_bytes result text rest }
    ensures shorter { IfOk result (λ x. length (tail_bytes x.1) < length quoted.now) }
{
    let (bytes, after) = scan(alloc, quoted)?;
    let rest = tail_of(after)?;
    let text = text_of(bytes)?;
    Ok((text, rest))
}
