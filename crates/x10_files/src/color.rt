//! Colors for what is said about faults.
use std::alloc::{AllocError, Global};

/// The line of a fault.
const FAULT: &str = "\x1b[1;31m";
/// Where a fault is.
const PLACE: &str = "\x1b[1m";
/// Marks beneath a word.
const MARKS: &str = "\x1b[1;32m";
/// The color of all other text.
const PLAIN: &str = "\x1b[0m";

/// What is said about faults, with colors for a terminal: of a fault's own line, of the front of the line that says where it is,
/// and of marks beneath a word.
pub fn colored(alloc: Global, text: &str) -> Result<String, AllocError> {
    let mut out = String::new(alloc);
    for line in text.split_inclusive('\n') {
        let (front, color) = painted(line);
        if front.is_empty() {
            out.push_str(line)?;
            continue;
        }
        out.push_str(color)?;
        out.push_str(front)?;
        out.push_str(PLAIN)?;
        out.push_str(line.strip_prefix(front).unwrap_or_default())?;
    }
    Ok(out)
}

/// The front of a line that has a color, and which.
fn painted(line: &str) -> (&str, &'static str) {
    let words = line.trim_end_matches('\n');
    if words.starts_with("x10p: ") {
        return (words, FAULT);
    }
    if words
        .trim_start_matches([' ', '\t'].as_slice())
        .starts_with('^')
    {
        return (words, MARKS);
    }
    match words.split_once(": ") {
        Some((front, _)) if is_place(front) => (front, PLACE),
        _ => ("", PLAIN),
    }
}

/// Whether the front of a line says where a fault is: `first.asm:6:3`, `Kind, function 0, instruction 1`, `Number, line 8`.
fn is_place(front: &str) -> bool {
    if front.contains(", function ") || front.contains(", line ") {
        return true;
    }
    let mut parts = front.rsplit(':');
    is_number(parts.next()) && is_number(parts.next()) && parts.next().is_some()
}

fn is_number(part: Option<&str>) -> bool {
    match part {
        Some(part) => !part.is_empty() && part.bytes().all(|byte| byte.is_ascii_digit()),
        None => false,
    }
}
