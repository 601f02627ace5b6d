//! Which name a word may have meant.

use crate::teller::Teller;
use strsim::osa_distance;
use x10_code::{name, op_with_code};

/// More edits than there are between a word and a name that is near to it.
pub(crate) const FAR: usize = 3;

/// The words with which lines begin that are no instructions.
const KEYWORDS: [&str; 8] = [
    "version", "places", "class", "int", "text", "func", "end", "entry",
];

/// The kinds, those with a class as they are written of class c.
const KINDS: [&str; 8] = [
    "int", "place", "text", "rail", "obj:c", "opt:c", "gref:c", "here:c",
];

// The characters of a word as a set of bits. Two may have one bit.
fn letters(word: &str) -> u64 {
    word.chars()
        .fold(0, |all, c| all | 1_u64.wrapping_shl(u32::from(c)))
}

/// How many edits lead from a word to a name that is near to it: one, or two where the word has six bytes or more. `FAR` where
/// it isn't near. Where memory runs out the teller remembers it.
pub(crate) fn edits(out: &mut Teller, word: &str, name: &str) -> usize {
    if word.len() < 2 || word.len() > 40 || word.len().abs_diff(name.len()) > 2 {
        return FAR;
    }
    // an edit takes at most one character away and brings one
    if (letters(word) ^ letters(name)).count_ones() > 4 {
        return FAR;
    }
    // no edit is of the whole characters that both have in common at the front
    let pairs = word.bytes().zip(name.bytes());
    let alike = word.floor_char_boundary(pairs.take_while(|pair| pair.0 == pair.1).count());
    let ends = (
        word.get(alike..).unwrap_or(word),
        name.get(alike..).unwrap_or(name),
    );
    match osa_distance(out.alloc(), ends.0, ends.1) {
        Ok(edits) if edits < 2 || word.len() > 5 => edits,
        Ok(_) => FAR,
        Err(_) => {
            out.fail();
            FAR
        }
    }
}

/// The nearest name of an instruction, given a word in capitals.
pub(crate) fn nearest_operation(out: &mut Teller, word: &str) -> Option<&'static str> {
    let mut nearest = None;
    let mut least = FAR;
    for code in 0..=255 {
        if let Some(op) = op_with_code(code) {
            let edits = edits(out, word, name(op));
            if edits < least {
                least = edits;
                nearest = Some(name(op));
            }
        }
    }
    nearest
}

// The nearest of some names.
fn nearest_of(out: &mut Teller, word: &str, names: [&'static str; 8]) -> Option<&'static str> {
    let mut nearest = None;
    let mut least = FAR;
    for name in names {
        let edits = edits(out, word, name);
        if edits < least {
            least = edits;
            nearest = Some(name);
        }
    }
    nearest
}

/// The nearest word with which a line begins, given one in small letters.
pub(crate) fn nearest_keyword(out: &mut Teller, word: &str) -> Option<&'static str> {
    nearest_of(out, word, KEYWORDS)
}

/// The nearest kind, given a word in small letters: one that is near, or whose name the word begins with.
pub(crate) fn nearest_kind(out: &mut Teller, word: &str) -> Option<&'static str> {
    let nearest = nearest_of(out, word, KINDS);
    if nearest.is_some() {
        return nearest;
    }
    for kind in KINDS {
        if word.starts_with(kind.strip_suffix(":c").unwrap_or(kind)) {
            return Some(kind);
        }
    }
    None
}

/// Whether a word begins a line, as it is.
pub(crate) fn is_keyword(word: &str) -> bool {
    KEYWORDS.iter().any(|keyword| *keyword == word)
}
