//! Words as lines of notes.
ghost use Rattle.std.specs.Prelude.{◌≡◌, ◌≢◌, [], ◌++◌, IfOk, OnOk};
ghost use Rattle.std.specs.String.{string_bytes};
ghost use Rattle.x10_notes.specs.Notes.{AreNotes, note};

use std::alloc::{AllocError, Global};
use x10_asm::next_line;

/// Pushes a line of notes: two spaces, the words, and a line feed.
fn push_note(notes: &mut String, words: &str) -> Result<(), AllocError>
    ensures { OnOk result (string_bytes notes.new ≡ string_bytes notes.old ++ note words.now) }
{
    notes.push_str("  ")?;
    notes.push_str(words)?;
    notes.push_str("\n")
}

/// Words as notes: a line for each of their lines; where there are none, a line says so. Linear.
pub fn some_notes(alloc: Global, words: &str) -> Result<String, AllocError>
    ensures notes { IfOk result (λ notes. AreNotes (string_bytes notes)) }
    ensures some { IfOk result (λ notes. string_bytes notes ≢ []) }
{
    let notes = indented(alloc, words)?;
    if notes.is_empty() {
        return indented_nothing(alloc);
    }
    Ok(notes)
}

/// That nothing is known, as a line of notes.
fn indented_nothing(alloc: Global) -> Result<String, AllocError>
    ensures notes { IfOk result (λ notes. AreNotes (string_bytes notes)) }
    ensures some { IfOk result (λ notes. string_bytes notes ≢ []) }
{
    let mut notes = String::new(alloc);
    push_note(&mut notes, "nothing")?;
    Ok(notes)
}

/// Words as notes: a line for each of their lines. Linear.
pub fn indented(alloc: Global, words: &str) -> Result<String, AllocError>
    ensures { IfOk result (λ notes. AreNotes (string_bytes notes)) }
{
    let mut notes = String::new(alloc);
    let mut rest = words;
    while let Some((line, after)) = next_line(rest) {
        push_note(&mut notes, line)?;
        rest = after;
    }
    Ok(notes)
}
