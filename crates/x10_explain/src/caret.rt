//! The word of a line that is at fault, and marks beneath it.

use crate::flaws::names_function;
use crate::quotes::past_spaces;
use crate::teller::Teller;
use crate::text::{MOST_SHOWN, number_in, word_at};
use x10_asm::{AsmCause, Flaw, Line, Statement, next_word};

/// Bytes of a line, from one on up to another. They may be after its end.
#[derive(Clone, Copy)]
pub(crate) struct Span {
    pub(crate) from: usize,
    pub(crate) to: usize,
}

/// Tells marks beneath the word at which a line is refused: one for each character of the word, with its tabs as they are, and
/// one where a word is missing. The line stands to the right of `before` bytes that take one column each. Nothing where no such
/// word is found.
pub(crate) fn tell_marks(out: &mut Teller, before: usize, line: &str, mark: Option<Span>) {
    let Some(span) = mark else {
        return;
    };
    if span.to > MOST_SHOWN || span.from >= span.to {
        return;
    }
    for _ in 0..before {
        out.say(" ", &[]);
    }
    let bytes = line.as_bytes();
    for at in 0..span.to {
        let byte = if at < bytes.len() { bytes[at] } else { b' ' };
        let is_marked = at >= span.from && (byte != b'\t' || at + 1 >= span.to);
        // a tab stays one, and the later bytes of a character have no column
        out.say(
            match byte {
                128..=191 => "",
                _ if is_marked => "^",
                b'\t' => "\t",
                _ => " ",
            },
            &[],
        );
    }
    out.say("\n", &[]);
}

/// The column of the word at which a line is refused, in characters, from 1 on; where no such word is found, that of its first
/// word.
pub(crate) fn column_in(line: &str, mark: Option<Span>) -> usize {
    let Some(span) = mark else {
        return first_column(line);
    };
    let before = line.get(..span.from).unwrap_or(line);
    let behind = span.from.saturating_sub(before.len());
    // each byte but the later ones of a character begins one; with neither a branch nor an end at the greatest number, many are
    // looked at at once
    let characters = before.bytes().fold(0_usize, |count, byte| {
        count.wrapping_add(usize::from(!matches!(byte, 128..=191)))
    });
    characters.saturating_add(behind).saturating_add(1)
}

/// The column of the first word of a line.
pub(crate) fn first_column(line: &str) -> usize {
    past_spaces(line.as_bytes(), 0).saturating_add(1)
}

// A word of a line, with what follows it there.
fn span_of(line: &str, word: &str, rest: &str) -> Span {
    let to = line.len().saturating_sub(rest.len());
    let from = to.saturating_sub(word.len());
    Span { from, to }
}

// The word with a number, from 0 on.
fn nth_word(line: &str, number: usize) -> Option<Span> {
    let (word, rest) = word_at(line, number)?;
    Some(span_of(line, word, rest))
}

/// The word at which a line is refused for a cause, by the flaw that it has whatever the other lines say. Where that is its text in
/// quotes, `in_quotes` finds the bytes.
pub(crate) fn marked(line: &str, said: Line, cause: AsmCause, flaw: Option<Flaw>) -> Option<Span> {
    let first = span_of(line, said.first, said.rest);
    match flaw {
        Some(flaw) if flaw.cause != cause => None,
        Some(flaw) if names_function(said, flaw) => nth_word(line, 1),
        Some(flaw) if !flaw.word.is_empty() => Some(span_of(line, flaw.word, flaw.rest)),
        // a word is missing: the column after the last one and a space
        Some(_) => {
            let from = line.trim_end_matches(' ').len().saturating_add(1);
            let to = from.saturating_add(1);
            Some(Span { from, to })
        }
        None => match cause {
            AsmCause::Order => Some(first),
            AsmCause::Label if said.statement == Statement::Label => Some(first),
            AsmCause::Label => label_word(line, said.rest),
            AsmCause::Limit => limit_word(line, said.statement).or(Some(first)),
            AsmCause::Entry => nth_word(line, 1),
            _ => None,
        },
    }
}

// The label to which a line jumps: the one word with an at sign in front.
fn label_word(line: &str, operands: &str) -> Option<Span> {
    let mut rest = operands;
    for _ in 0..operands.len() {
        let (word, after) = next_word(rest)?;
        if word.starts_with('@') {
            return Some(span_of(line, word, after));
        }
        rest = after;
    }
    None
}

// The word that is outside a limit; nothing where it is the number of such lines. Of a function that is the number of registers,
// the number of loop slots, or the first parameter that is one too many.
fn limit_word(line: &str, statement: Statement) -> Option<Span> {
    match statement {
        Statement::Places => nth_word(line, 1),
        Statement::Class => nth_word(line, 17),
        Statement::Func => {
            let registers = number_in(line, 1);
            if registers < 1 || registers > 64 {
                nth_word(line, 1)
            } else if number_in(line, 2) > 8 {
                nth_word(line, 2)
            } else {
                nth_word(line, 4 + registers.min(16) as usize)
            }
        }
        _ => None,
    }
}
