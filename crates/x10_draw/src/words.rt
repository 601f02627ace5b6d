//! How wide texts are, and texts that are cut.
use crate::escape::push_escaped;
use std::alloc::{AllocError, Global};

/// How many columns of letters a character takes: two from U+1100 on, where the wide scripts begin.
fn width(c: char) -> usize {
    match u32::from(c) {
        0..0x1100 | 0x2026 | 0x22EE => 1,
        _ => 2,
    }
}

/// How many columns of letters a text takes.
pub(crate) fn width_of(text: &str) -> usize {
    let mut letters = 0usize;
    for c in text.chars() {
        letters = letters.saturating_add(width(c));
    }
    letters
}

/// Pushes a text as one line, cut with an ellipsis after `most` letters, and answers whether it differs from the text. What
/// breaks a line or is a tab becomes a space there, since SVG 1.1 (section 10.15) would remove it.
pub(crate) fn push_cut(out: &mut String, text: &str, most: usize) -> Result<bool, AllocError> {
    let mut letters = 0usize;
    let mut differs = false;
    for c in text.chars() {
        letters = letters.saturating_add(width(c));
        if letters > most {
            out.push('\u{2026}')?;
            return Ok(true);
        }
        let breaks = matches!(c, '\t' | '\n' | '\r');
        out.push(if breaks { ' ' } else { c })?;
        differs |= breaks;
    }
    Ok(differs)
}

/// The first characters of a text, one more than `most`.
pub(crate) fn first_of(text: &str, most: usize) -> &str {
    let end = text.char_indices().nth(most.saturating_add(1));
    match end {
        Some((at, _)) => match text.split_at_checked(at) {
            Some((first, _)) => first,
            None => text,
        },
        None => text,
    }
}

/// A text as it is written in XML.
pub(crate) fn escaped(alloc: Global, text: &str) -> Result<String, AllocError> {
    let mut out = String::new(alloc);
    push_escaped(&mut out, text)?;
    Ok(out)
}
