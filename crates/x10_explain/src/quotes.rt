//! What is wrong with the quotes of a line.

ghost use Rattle.std.specs.Prelude.{◌<◌, length};

use crate::caret::Span;
use crate::teller::{Name, Teller};
use memchr::memchr;
use x10_model::limits::MOST_BYTES;

/// What is wrong with a text in quotes.
#[derive(Clone, Copy)]
pub(crate) enum Misquoted {
    /// No quote is where it begins.
    Opening,
    /// A backslash stands before a character that it doesn't go with.
    Escape,
    /// No quote closes it.
    Closing,
    /// Something comes right after its second quote.
    Behind,
    /// Nothing: it is too long.
    Long,
}

/// What is wrong with a text in quotes that begins after `from` bytes of a line and is refused as a text, and the bytes that show
/// it. Nothing where that is another fault: no text is there, or a word comes after it.
pub(crate) fn in_quotes(line: &str, from: usize) -> Option<(Misquoted, Option<Span>)> {
    let bytes = line.as_bytes();
    let quote = past_spaces(bytes, from);
    if quote >= bytes.len() {
        return None;
    }
    if bytes[quote] != b'"' {
        return Some((Misquoted::Opening, Some(word_from(bytes, quote))));
    }
    let close = match closing(bytes, quote) {
        Ok(close) => close,
        Err((wrong, span)) => return Some((wrong, Some(span))),
    };
    // what comes directly after a closing quote isn't part of a text
    let behind = close.saturating_add(1);
    let next = past_spaces(bytes, behind);
    if behind < bytes.len() && next == behind {
        return Some((Misquoted::Behind, Some(word_from(bytes, behind))));
    }
    (next >= bytes.len()).then_some((Misquoted::Long, None))
}

/// The first byte from `from` on that is not a space; how many there are, where there is none.
pub(crate) fn past_spaces(bytes: &[u8], from: usize) -> usize {
    for at in from..bytes.len() {
        if bytes[at] != b' ' {
            return at;
        }
    }
    bytes.len()
}

// The bytes from `from` on up to a space.
fn word_from(bytes: &[u8], from: usize) -> Span {
    let to = match bytes.get(from..).and_then(|rest| memchr(b' ', rest)) {
        Some(at) => from.saturating_add(at),
        None => bytes.len(),
    };
    Span { from, to }
}

// Where the quote that opens at a byte is closed; else the escape that isn't known, or the open quote.
fn closing(bytes: &[u8], quote: usize) -> Result<usize, (Misquoted, Span)>
    requires { quote < length bytes.now }
{
    let mut at = quote + 1;
    while at < bytes.len() {
        let byte = bytes[at];
        if byte == b'"' {
            return Ok(at);
        }
        at += 1;
        if byte == b'\\' && at < bytes.len() {
            if !matches!(bytes[at], b'"' | b'\\' | b'n') {
                let (from, to) = (at.saturating_sub(1), at + 1);
                return Err((Misquoted::Escape, Span { from, to }));
            }
            at += 1;
        }
    }
    let (from, to) = (quote, quote + 1);
    Err((Misquoted::Closing, Span { from, to }))
}

/// Tells what is wrong with a line `text`, by what is wrong with its quotes.
pub(crate) fn tell_quotes(out: &mut Teller, line: &str, wrong: Misquoted, word: &str) {
    match wrong {
        Misquoted::Opening => tell_opening(out, word),
        Misquoted::Escape => out.say(
            "A backslash stands before a quote, a backslash or an n alone: \\\", \\\\ and \\n.\n",
            &[],
        ),
        Misquoted::Closing if line.ends_with("\\\"") => out.say(
            "The last quote belongs to the text, since a backslash is before it; no quote closes it.\n",
            &[],
        ),
        Misquoted::Closing => out.say("No second quote closes the text.\n", &[]),
        Misquoted::Behind => out.say(
            "{} comes right after the second quote, which ends the text; a quote inside it has a backslash before it.\n",
            &[Name::Said(word)],
        ),
        Misquoted::Long => out.say(
            "A text has {} bytes at most; this one has more.\n",
            &[Name::U16(MOST_BYTES)],
        ),
    }
}

// A text that doesn't begin with a quote.
fn tell_opening(out: &mut Teller, word: &str) {
    match word.chars().next() {
        Some(c) if matches!(c, '“' | '”' | '„' | '«' | '»' | '‘' | '’' | '\'' | '`') => out.say(
            "A text is between straight double quotes, \"; {} is another character.\n",
            &[Name::Character(c)],
        ),
        _ => out.say("A text is between quotes: text \"..\".\n", &[]),
    }
}
