//! Lines and words of a text, and as much of them as is shown.
ghost use Rattle.std.specs.Prelude.{IfSome, IsUtf8};

use x10_asm::{Statement, line_of, next_line, next_word, number_of};

/// At most this many bytes of a line are shown: no screen is as wide.
pub(crate) const MOST_SHOWN: usize = 1000;

/// At most this many bytes of a word are repeated in a sentence.
pub(crate) const MOST_SAID: usize = 64;

/// The front of a text, `most` bytes of it at most.
pub(crate) fn front(text: &str, most: usize) -> &str {
    text.get(..text.floor_char_boundary(most)).unwrap_or(text)
}

/// The word of a line with a number, from 0 on, and what follows it.
pub(crate) fn word_at(line: &str, number: usize) -> Option<(&str, &str)>
    ensures { IfSome result (λ x. IsUtf8 x.0.now × IsUtf8 x.1.now) }
{
    let mut rest = line;
    for _ in 0..number {
        let (_, after) = next_word(rest)?;
        rest = after;
    }
    next_word(rest)
}

/// The number that the word with a number spells, 0 where it spells none.
pub(crate) fn number_in(line: &str, number: usize) -> u64 {
    match word_at(line, number) {
        Some((word, _)) => number_of(word, 65_535).unwrap_or(0),
        None => 0,
    }
}

/// How many words a line has, counted up to 32.
pub(crate) fn words_in(line: &str) -> usize {
    let mut rest = line;
    for count in 0..32 {
        let Some((_, after)) = next_word(rest) else {
            return count;
        };
        rest = after;
    }
    32
}

/// Whether bytes given for an image are a text: they are UTF-8, and the first line that says something begins as one may.
pub(crate) fn is_text(bytes: &[u8]) -> bool {
    if bytes.starts_with(b"X10P") {
        return false;
    }
    let Ok(text) = str::from_utf8(bytes) else {
        return false;
    };
    if text.starts_with('\u{feff}') {
        return true;
    }
    let mut rest = text;
    for _ in 0..text.len() {
        let Some((line, after)) = next_line(rest) else {
            return false;
        };
        let statement = line_of(line).statement;
        if statement != Statement::Silent {
            return statement != Statement::Unknown;
        }
        rest = after;
    }
    false
}
