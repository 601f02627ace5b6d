//! Texts between quotes.

ghost use Rattle.std.specs.Prelude.{◌≡◌, false, ◌≢◌, ℕ, List, Some, None, MatchOption};
ghost use Rattle.std.specs.String.{string_bytes};
ghost use Rattle.x10_asm.specs.declared.fault.AsmCause.TheVariants.{Text};
ghost use Rattle.x10_asm.specs.Literals as literals;
ghost use Rattle.x10_asm.specs.Checks.{Gives, given};

use crate::fault::AsmCause;
use crate::number::no_more;
use crate::split::{begins, stripped};
use std::alloc::Global;
use x10_model::limits::MOST_BYTES;

/// The byte that an escape stands for.
fn unescaped(byte: u8) -> Option<u8>
    ensures { result ≡ literals.unescaped byte }
{
    match byte {
        b'"' => Some(b'"'),
        b'\\' => Some(b'\\'),
        b'n' => Some(b'\n'),
        _ => None,
    }
}

/// The bytes up to the closing quote of a text, without escapes, and what follows that. `quoted` begins behind the first quote.
pub fn scan_quoted(alloc: Global, quoted: &str) -> Result<(Vec<u8>, &str), AsmCause>
    ensures { Gives (λ x. (x.0.items, x.1.now)) result
        (given (literals.scan false quoted.now) Text) }
{
    let bytes = quoted.as_bytes();
    let mut text = Vec::new(alloc);
    let mut after_backslash = false;
    for at in 0..bytes.len() {
        let byte = bytes[at];
        if after_backslash {
            let Some(meant) = unescaped(byte) else {
                return Err(AsmCause::Text);
            };
            text.push(meant)?;
            after_backslash = false;
        } else if byte == b'"' {
            return Ok((text, &quoted[at + 1..]));
        } else if byte == b'\\' {
            after_backslash = true;
        } else {
            text.push(byte)?;
        }
    }
    Err(AsmCause::Text)
}

/// What follows the closing quote; nothing where there is none. Takes no memory.
pub fn behind(quoted: &str) -> Option<&str>
    ensures { MatchOption result (literals.scan false quoted.now ≡ None)
        (λ rest. (text : List ℕ) × (literals.scan false quoted.now ≡ Some (text, rest.now))) }
{
    let bytes = quoted.as_bytes();
    let mut at = 0;
    while at < bytes.len() {
        let byte = bytes[at];
        at += 1;
        if byte == b'"' {
            return Some(&quoted[at..]);
        }
        if byte == b'\\' {
            if at >= bytes.len() {
                return None;
            }
            let Some(_) = unescaped(bytes[at]) else {
                return None;
            };
            at += 1;
        }
    }
    None
}

/// A text of at most 65,535 bytes.
fn fitting(text: Vec<u8>) -> Result<String, AsmCause>
    ensures { Gives string_bytes result (literals.fitting text.items) }
{
    if text.len() > usize::from(MOST_BYTES) {
        return Err(AsmCause::Text);
    }
    match String::from_utf8(text) {
        Ok(text) => Ok(text),
        Err(_) => Err(AsmCause::Text),
    }
}

/// A text, by what follows its closing quote.
fn closed(text: Vec<u8>, rest: &str) -> Result<String, AsmCause>
    ensures { Gives string_bytes result (literals.closed text.items rest.now) }
{
    if !rest.is_empty() && !begins(rest, b' ') {
        return Err(AsmCause::Text);
    }
    no_more(rest)?;
    fitting(text)
}

/// The text that the rest of a line spells.
#[tactic(auto, unfolding(crate::specs::Literals::literal))]
pub fn literal(alloc: Global, rest: &str) -> Result<String, AsmCause>
    ensures { Gives string_bytes result (literals.literal rest.now) }
{
    if rest.is_empty() {
        return Err(AsmCause::Count);
    }
    let Some(quoted) = stripped(rest, "\"") else {
        return Err(AsmCause::Text);
    };
    let (text, after) = scan_quoted(alloc, quoted)?;
    closed(text, after)
}
