//! A text cut in two.

ghost use Rattle.std.specs.Prelude.{◌≡◌, ◌<◌, ◌≤◌, ◌++◌, ◌∷◌, ℕ, List, IfSome, IfNone, IfOk, IsUtf8, length};
ghost use Rattle.x10_log.specs.Reading.{Lacks, IsEnd, Shows, tail_bytes};

use crate::fault::LogCause;

/// What follows a prefix.
pub fn stripped<'a>(text: &'a str, prefix: &str) -> Option<&'a str>
    ensures some { IfSome result (λ rest. text.now ≡ prefix.now ++ rest.now) }
    ensures none { IfNone result ((rest : List ℕ) → text.now ≡ prefix.now ++ rest → ⊥) }
{
    text.strip_prefix(prefix)
}

/// What stands before the first of a character, and what follows it.
pub fn cut(text: &str, at: char) -> Option<(&str, &str)>
    requires { at < 128 }
    ensures some { IfSome result (λ x. Lacks at x.0.now × (text.now ≡ x.0.now ++ at ∷ x.1.now)) }
    ensures none { IfNone result (Lacks at text.now) }
    ensures shorter { IfSome result (λ x. length x.1.now < length text.now) }
    ensures utf8 { IfSome result (λ x. IsUtf8 x.1.now) }
{
    text.split_once(at)
}

/// The first word, and what follows it.
pub fn word_of(text: &str) -> (&str, Option<&str>)
    ensures found { (word rest : List ℕ) → Lacks 32 word → IsEnd rest → text.now ≡ word ++ rest
        → (result.0.now ≡ word) × (tail_bytes result.1 ≡ rest) }
    ensures shorter { length (tail_bytes result.1) ≤ length text.now }
{
    match cut(text, ' ') {
        Some((word, rest)) => (word, Some(rest)),
        None => (text, None),
    }
}

/// What follows a word, by what stands behind it.
pub fn tail_of(text: &str) -> Result<Option<&str>, LogCause>
    ensures found { IsEnd text.now → Shows tail_bytes result text.now }
    ensures same { IfOk result (λ tail. tail_bytes tail ≡ text.now) }
{
    if text.is_empty() {
        return Ok(None);
    }
    match stripped(text, " ") {
        Some(rest) => Ok(Some(rest)),
        None => Err(LogCause::Printed),
    }
}
