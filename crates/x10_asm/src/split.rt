//! The lines of a text and the words of a line, each with what follows it. One pass over the bytes.

ghost use Rattle.std.specs.Prelude.{◌≡◌, ◌<◌, ◌≤◌, ◌∷◌, [], MatchOption, IfSome, IsUtf8, length, slice_index};
ghost use Rattle.std.specs.Option.{option_copied};
ghost use Rattle.x10_asm.specs.Lines as spec;
ghost use Rattle.x10_asm.specs.Lines.{lines, words, count_before, from_space};

use memchr::memchr;

/// How many bytes come before the first one with a value.
fn position_of(bytes: &[u8], byte: u8) -> usize
    ensures at { result ≡ count_before byte bytes.now }
    ensures within { result ≤ length bytes.now }
    ensures there { result < length bytes.now → slice_index bytes.now result ≡ byte }
{
    for at in 0..bytes.len() {
        if bytes[at] == byte {
            return at;
        }
    }
    bytes.len()
}

/// How many bytes come before the first line feed.
fn line_end(bytes: &[u8]) -> usize
    ensures at { result ≡ count_before 10 bytes.now }
    ensures within { result ≤ length bytes.now }
    ensures there { result < length bytes.now → slice_index bytes.now result ≡ 10 }
{
    match memchr(b'\n', bytes) {
        Some(at) => at,
        None => bytes.len(),
    }
}

/// Whether a text begins with a byte.
pub fn begins(text: &str, byte: u8) -> bool
    ensures { result ≡ spec.begins byte text.now }
{
    let bytes = text.as_bytes();
    !bytes.is_empty() && bytes[0] == byte
}

/// What follows the spaces at the front of a text.
pub fn after_spaces(text: &str) -> &str
    ensures { result.now ≡ spec.after_spaces text.now }
{
    let bytes = text.as_bytes();
    for at in 0..bytes.len() {
        if bytes[at] != b' ' {
            return &text[at..];
        }
    }
    ""
}

/// The rest of a word that begins with a prefix.
pub fn stripped<'a>(word: &'a str, prefix: &str) -> Option<&'a str>
    ensures { option_copied result ≡ spec.stripped prefix.now word.now }
{
    word.strip_prefix(prefix)
}

/// The first word of a line, and what follows it.
pub fn next_word(line: &str) -> Option<(&str, &str)>
    ensures words { MatchOption result (words line.now ≡ [])
        (λ x. words line.now ≡ x.0.now ∷ words x.1.now) }
    ensures utf8 { IfSome result (λ x. IsUtf8 x.0.now × IsUtf8 x.1.now) }
    ensures rest { MatchOption result (spec.after_spaces line.now ≡ [])
        (λ x. x.1.now ≡ from_space (spec.after_spaces line.now)) }
{
    let line = after_spaces(line);
    if line.is_empty() {
        return None;
    }
    let end = position_of(line.as_bytes(), b' ');
    Some((&line[..end], &line[end..]))
}

/// A line without the carriage return at its end.
fn without_return(line: &str) -> &str
    ensures { result.now ≡ spec.without_return line.now }
{
    let bytes = line.as_bytes();
    if !bytes.is_empty() && bytes[bytes.len() - 1] == b'\r' {
        &line[..bytes.len() - 1]
    } else {
        line
    }
}

/// The first line of a text without its end, and the text after it.
pub fn next_line(text: &str) -> Option<(&str, &str)>
    ensures lines { MatchOption result (lines text.now ≡ [])
        (λ x. lines text.now ≡ x.0.now ∷ lines x.1.now) }
    ensures utf8 { IfSome result (λ x. IsUtf8 x.0.now × IsUtf8 x.1.now) }
    ensures shorter { MatchOption result (length text.now ≡ 0)
        (λ x. length x.1.now < length text.now) }
{
    if text.is_empty() {
        return None;
    }
    let end = line_end(text.as_bytes());
    if end == text.len() {
        return Some((text, ""));
    }
    Some((without_return(&text[..end]), &text[end + 1..]))
}
