//! Labels that are unknown, defined twice, or no names.

use crate::nearest::{FAR, edits};
use crate::teller::{Name, Teller};
use memchr::memchr;
use x10_asm::{Statement, line_of, next_line};

/// The most characters of a label's name.
const MOST: usize = 32;

/// The most labels of a function that are compared with a name.
const MOST_COMPARED: usize = 200;

/// The most lines of a text in which a label of another function is looked for.
const MOST_LOOKED: usize = 20_000;

/// The lines of the function that a line is in.
#[derive(Clone, Copy)]
struct Scope {
    /// Its number.
    function: usize,
    /// How many lines of the text come before its own.
    from: usize,
    /// How many lines come before its end.
    end: usize,
}

// Tells why a word is no name of a label, and whether it is none.
fn tell_misnamed(out: &mut Teller, name: &str) -> bool {
    let other = name
        .chars()
        .find(|c| !(c.is_ascii_alphanumeric() || *c == '_'));
    if name.is_empty() {
        out.say("The name of the label is missing.\n", &[]);
    } else if name.starts_with(|c: char| c.is_ascii_digit()) {
        out.say("The name of a label doesn't begin with a digit.\n", &[]);
    } else if name.len() > MOST {
        out.say(
            "The name of a label has {} characters at most; this one has {}.\n",
            &[Name::Usize(MOST), Name::Usize(name.len())],
        );
    } else if let Some(c) = other {
        out.say(
            "The name of a label has letters from A to Z and a to z, digits and _ alone; `{}` is none of them.\n",
            &[Name::Character(c)],
        );
    }
    !is_name(name)
}

/// Whether a word is a name that a label may have.
pub(crate) fn is_name(name: &str) -> bool {
    !name.is_empty()
        && name.len() <= MOST
        && !name.starts_with(|c: char| c.is_ascii_digit())
        && name.bytes().all(|c| c.is_ascii_alphanumeric() || c == b'_')
}

/// Tells what is wrong with the label that line `number` of a text defines.
pub(crate) fn tell_definition(out: &mut Teller, text: &str, number: usize, word: &str) {
    let name = word.strip_suffix(':').unwrap_or(word);
    if tell_misnamed(out, name) {
        return;
    }
    if let Some(line) = line_named(text, scope_of(text, number), name) {
        out.say(
            "`{}` is defined already, in line {}.\n",
            &[Name::Word(name), Name::Usize(line)],
        );
    }
}

/// Tells what is wrong with the label that line `number` of a text jumps to. A few passes over the text.
pub(crate) fn tell_use(out: &mut Teller, text: &str, number: usize, name: &str) {
    if let Some(bare) = name.strip_suffix(':')
        && is_name(bare)
    {
        return out.say(
            "A jump names the label without its colon: @{}\n",
            &[Name::Word(bare)],
        );
    }
    if tell_misnamed(out, name) {
        return;
    }
    let scope = scope_of(text, number);
    out.say(
        "Function {} has no label `{}`.",
        &[Name::Usize(scope.function), Name::Word(name)],
    );
    if let Some((line, owner)) = elsewhere(text, name) {
        return out.say(
            " The one in line {} is of function {}: a label is known in its own function alone.\n",
            &[Name::Usize(line), Name::Usize(owner)],
        );
    }
    match nearest_label(out, text, scope, name) {
        Some((near, line)) => out.say(
            " The nearest is `{}`, in line {}.\n",
            &[Name::Word(near), Name::Usize(line)],
        ),
        None => out.say("\n", &[]),
    }
}

// The first label of a name among the first lines of a text: the number of its line, and that of its function.
fn elsewhere(text: &str, name: &str) -> Option<(usize, usize)> {
    let mut functions: usize = 0;
    let mut rest = text;
    for index in 0..MOST_LOOKED {
        let (line, after) = next_line(rest)?;
        rest = after;
        if let Some(true) = begins_function(line) {
            functions = functions.saturating_add(1);
        }
        if label_in(line) == Some(name) {
            return Some((index.saturating_add(1), functions.saturating_sub(1)));
        }
    }
    None
}

// Whether a line begins a function, or ends one; nothing for others. Only a line with the first letter of such a word is taken
// apart.
fn begins_function(line: &str) -> Option<bool> {
    let first = line.bytes().find(|byte| *byte != b' ')?;
    if !matches!(first, b'f' | b'e') {
        return None;
    }
    match line_of(line).statement {
        Statement::Func => Some(true),
        Statement::End => Some(false),
        _ => None,
    }
}

// The lines of the function that a line is in.
fn scope_of(text: &str, number: usize) -> Scope {
    let mut functions: usize = 0;
    let mut from: usize = 0;
    let mut end: usize = 0;
    let mut rest = text;
    for index in 0..text.len() {
        let Some((line, after)) = next_line(rest) else {
            break;
        };
        rest = after;
        let begins = begins_function(line);
        if begins.is_some() && index >= number {
            break;
        }
        if let Some(true) = begins {
            functions = functions.saturating_add(1);
            from = index;
        }
        end = index.saturating_add(1);
    }
    Scope {
        function: functions.saturating_sub(1),
        from,
        end,
    }
}

/// The name of the label that a line defines, if it defines one. Only a line with a colon is taken apart.
pub(crate) fn label_in(line: &str) -> Option<&str> {
    memchr(b':', line.as_bytes())?;
    let said = line_of(line);
    if said.statement == Statement::Label {
        said.first.strip_suffix(':')
    } else {
        None
    }
}

// The number of the line that defines the first label of a name.
fn line_named(text: &str, scope: Scope, name: &str) -> Option<usize> {
    let mut rest = text;
    for index in 0..scope.end {
        let (line, after) = next_line(rest)?;
        rest = after;
        if index >= scope.from && label_in(line) == Some(name) {
            return Some(index.saturating_add(1));
        }
    }
    None
}

// The label whose name is nearest to one, among the first labels of a function, and the number of its line, if one is near.
fn nearest_label<'a>(
    out: &mut Teller,
    text: &'a str,
    scope: Scope,
    name: &str,
) -> Option<(&'a str, usize)> {
    let mut best = None;
    let mut least = FAR;
    let mut compared: usize = 0;
    let mut rest = text;
    for index in 0..scope.end {
        // none is nearer than one edit, since no label has the name itself
        if least <= 1 || compared >= MOST_COMPARED {
            break;
        }
        let Some((line, after)) = next_line(rest) else {
            break;
        };
        rest = after;
        if index >= scope.from
            && let Some(label) = label_in(line)
        {
            compared = compared.saturating_add(1);
            let edits = edits(out, name, label);
            if edits < least {
                least = edits;
                best = Some((label, index.saturating_add(1)));
            }
        }
    }
    best
}
