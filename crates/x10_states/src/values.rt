//! Values in words.
ghost use Rattle.std.specs.Prelude.{◌≡◌, ◌∷◌, ◌++◌, List, ℕ, OnOk, slice_get};
ghost use Rattle.std.specs.String.{string_bytes};
ghost use Rattle.x10_states.specs.Values.{object_or, text_words, word_text, word_json};

use crate::json::push_json;
use std::alloc::{AllocError, Global};
use std::fmt::Write;
use x10_asm::push_quoted;
use x10_heap::{Heap, home_in};
use x10_kinds::Kind;

/// Pushes a word without the space before it.
fn push_unspaced(out: &mut String, spaced: &str) -> Result<(), AllocError>
    requires { (word : List ℕ) × (spaced.now ≡ 32 ∷ word) }
    ensures { (word : List ℕ) → spaced.now ≡ 32 ∷ word
        → OnOk result (string_bytes out.new ≡ string_bytes out.old ++ word) }
{
    match spaced.strip_prefix(' ') {
        Some(word) => out.push_str(word),
        None => Ok(()),
    }
}

/// Pushes the text with a number, quoted as in assembler text; `?` where there is none.
fn push_text(alloc: Global, out: &mut String, heap: &Heap, word: u64) -> Result<(), AllocError>
    ensures { OnOk result (string_bytes out.new
        ≡ string_bytes out.old ++ text_words (slice_get heap.now.texts word)) }
{
    heap.fits();
    if word >= heap.texts() as u64 {
        return out.push_str("?");
    }
    let mut spaced = String::new(alloc);
    push_quoted(&mut spaced, heap.text(word as u32))?;
    push_unspaced(out, spaced.as_str())
}

/// Pushes an object by its word; something else where this is 0.
fn push_object_or(out: &mut String, other: &str, word: u64) -> Result<(), AllocError>
    ensures { OnOk result (string_bytes out.new
        ≡ string_bytes out.old ++ object_or other.now word) }
{
    if word == 0 {
        return out.push_str(other);
    }
    let number = word - 1;
    write!(out, "object {number}")
}

/// Pushes a word of a kind, as the value that it stands for: a number in decimal, a text as assembler text has it, and what
/// else it is by its number. `?` where the word names nothing. Linear in the text.
pub fn push_value(
    alloc: Global,
    out: &mut String,
    heap: &Heap,
    kind: Kind,
    word: u64,
) -> Result<(), AllocError>
    ensures { OnOk result (string_bytes out.new
        ≡ string_bytes out.old ++ word_text heap.now kind word) }
{
    match kind {
        Kind::Int => {
            let number = word.cast_signed();
            write!(out, "{number}")
        }
        Kind::Place => write!(out, "place {word}"),
        Kind::Text => push_text(alloc, out, heap, word),
        Kind::Rail => write!(out, "rail {word}"),
        Kind::Obj(_) => push_object_or(out, "?", word),
        Kind::Opt(_) => push_object_or(out, "null", word),
        Kind::GRef(_) => {
            let (home, id) = (home_in(word), word / 65536);
            write!(out, "reference {id} of place {home}")
        }
    }
}

/// Pushes a word in quotes, of a kind, if that is known.
pub(crate) fn push_word(
    alloc: Global,
    out: &mut String,
    heap: &Heap,
    kind: Option<Kind>,
    word: u64,
) -> Result<(), AllocError>
    ensures { OnOk result (string_bytes out.new
        ≡ string_bytes out.old ++ word_json heap.now kind word) }
{
    let Some(kind) = kind else {
        return out.push_str("\"?\"");
    };
    let mut words = String::new(alloc);
    push_value(alloc, &mut words, heap, kind, word)?;
    push_json(out, words.as_str())
}
