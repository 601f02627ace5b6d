//! The engine that writes elements from templates. In a template `$a` is the first of some numbers, `$b` the second, and so on;
//! `$A` is the first of some texts.
use std::alloc::AllocError;
use std::fmt::Write;

/// Whether there was memory.
pub(crate) type Pushed = Result<(), AllocError>;

/// Pushes the value that a letter names.
fn push_value(out: &mut String, letter: u8, numbers: &[u64], texts: &[&str]) -> Pushed {
    let (number, text) = (letter.wrapping_sub(b'a'), letter.wrapping_sub(b'A'));
    if let Some(number) = numbers.get(usize::from(number)) {
        return write!(out, "{number}");
    }
    match texts.get(usize::from(text)) {
        Some(text) => out.push_str(text),
        None => Ok(()),
    }
}

/// Pushes a template with its values.
pub(crate) fn fill(out: &mut String, template: &str, numbers: &[u64], texts: &[&str]) -> Pushed {
    let mut letters = 0;
    for piece in template.split('$') {
        if let Some((letter, text)) = piece.split_at_checked(letters) {
            let letter = letter.as_bytes().first().copied().unwrap_or(0);
            push_value(out, letter, numbers, texts)?;
            out.push_str(text)?;
        }
        letters = 1;
    }
    Ok(())
}
