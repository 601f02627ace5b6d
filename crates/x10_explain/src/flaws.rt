//! Which word of a line is wrong by itself, and why.

use crate::faulty::Faulty;
use crate::labels::is_name;
use crate::nearest::{is_keyword, nearest_keyword, nearest_kind, nearest_operation};
use crate::part::{Part, Sort, part_at, tell_expected};
use crate::teller::{Name, Teller};
use crate::text::{MOST_SHOWN, front, words_in};
use std::alloc::AllocError;
use x10_asm::{AsmCause, Flaw, Line, Statement, next_word};
use x10_code::op_named;

/// The most bytes of a word that is compared with names.
const MOST_COMPARED: usize = 40;

/// Tells what is wrong with the word at which a line is faulty.
pub(crate) fn tell_flaw(out: &mut Teller, faulty: &Faulty, flaw: Flaw) {
    let (line, said) = (faulty.line, faulty.said);
    if names_function(said, flaw) {
        out.say(
            "{} isn't the number of registers: functions have no names, but numbers, from 0 on.\n",
            &[Name::Said(faulty.word())],
        );
        return tell_expected(out, Statement::Func);
    }
    if let Some(sign) = sign_of(flaw.word) {
        return out.say(sign, &[]);
    }
    let part = part_at(said.statement, number_of_word(line, flaw));
    match flaw.cause {
        AsmCause::Word if part.is_kind() => tell_kind(out, flaw.word, part),
        AsmCause::Word => tell_first(out, line, flaw.word),
        AsmCause::Number if part.is_kind() => tell_class(out, flaw.word, faulty.classes),
        AsmCause::Number => tell_number(out, said.statement, flaw.word, part),
        _ => tell_count(out, said.statement, flaw, part),
    }
}

// How many words come before the word of a flaw, after the first one of its line.
fn number_of_word(line: &str, flaw: Flaw) -> usize {
    let behind = flaw.word.len().saturating_add(flaw.rest.len());
    let front = line
        .get(..line.len().saturating_sub(behind))
        .unwrap_or(line);
    words_in(front).saturating_sub(1)
}

/// Whether what is wrong with a line is a word that stands like a name where a function's number of registers belongs.
pub(crate) fn names_function(said: Line, flaw: Flaw) -> bool {
    if said.statement != Statement::Func || flaw.word.is_empty() {
        return false;
    }
    match next_word(said.rest) {
        Some((word, _)) => word.starts_with(|c: char| c.is_alphabetic() || c == '_'),
        None => false,
    }
}

// The mistake that a word shows, wherever it is in a line, if it shows one.
fn sign_of(word: &str) -> Option<&'static str> {
    if word.starts_with('\u{feff}') {
        return Some("The text begins with a byte order mark: save it without one.\n");
    }
    if word.starts_with(';') {
        return Some("A comment needs a line of its own.\n");
    }
    if word.starts_with('#') || word.starts_with("//") || word.starts_with("/*") {
        return Some("A comment begins with a semicolon, on a line of its own.\n");
    }
    if word.ends_with(',') {
        return Some("Words are separated by spaces, without commas.\n");
    }
    // white space, in as much of the word as is shown
    match front(word, MOST_SHOWN).chars().find(|c| c.is_whitespace())? {
        '\t' => Some("Words are separated by spaces, not tabs.\n"),
        '\r' => Some("A line ends with a line feed, and not with a carriage return alone.\n"),
        _ => Some(
            "Words are separated by plain spaces; the white space here is another character.\n",
        ),
    }
}

// Too few or too many words.
fn tell_count(out: &mut Teller, statement: Statement, flaw: Flaw, part: Part) {
    if flaw.word.is_empty() {
        out.say("A word is missing: {}.\n", &[Name::Word(part.name)]);
        return tell_expected(out, statement);
    }
    match statement {
        Statement::Label => out.say("A label is alone on its line.\n", &[]),
        Statement::End => out.say("`end` is alone on its line.\n", &[]),
        Statement::Text => out.say(
            "A text ends at its second quote, and nothing comes after it; a quote inside it has a backslash before it.\n",
            &[],
        ),
        _ => {
            out.say("{} is one word too many.\n", &[Name::Said(flaw.word)]);
            tell_expected(out, statement);
        }
    }
}

// ---- words

// The front of a word in small letters, and in capitals.
fn cases_of(out: &Teller, word: &str) -> Result<(String, String), AllocError> {
    let front = front(word, MOST_COMPARED);
    let small = front
        .chars()
        .map(|c| c.to_ascii_lowercase())
        .collect(out.alloc())?;
    let capitals = front
        .chars()
        .map(|c| c.to_ascii_uppercase())
        .collect(out.alloc())?;
    Ok((small, capitals))
}

// A word that begins no line.
fn tell_first(out: &mut Teller, line: &str, word: &str) {
    match cases_of(out, word) {
        Ok((small, capitals)) => tell_line(out, line, word, &small, &capitals),
        Err(_) => out.fail(),
    }
}

// The same, given the word in small letters and in capitals.
fn tell_line(out: &mut Teller, line: &str, word: &str, small: &str, capitals: &str) {
    let said = Name::Said(word);
    if op_named(word).is_some() {
        out.say(
            "{} is an instruction of version 2: the text has to begin with the line `version 2`.\n",
            &[Name::Word(word)],
        );
    } else if op_named(capitals).is_some() {
        out.say(
            "The names of instructions are in capitals: {}.\n",
            &[Name::Word(capitals)],
        );
    } else if is_keyword(small) {
        out.say("This word is in small letters: {}.\n", &[Name::Word(small)]);
    } else if let Some(name) = nearest_operation(out, capitals) {
        out.say(
            "{} isn't an instruction. Did you mean {}?\n",
            &[said, Name::Word(name)],
        );
    } else if let Some(name) = nearest_keyword(out, small) {
        out.say(
            "{} begins no line. Did you mean {}?\n",
            &[said, Name::Word(name)],
        );
    } else if is_name(word) && words_in(line) == 1 {
        out.say(
            "{} begins no line. A label ends in a colon: {}:\n",
            &[said, Name::Word(word)],
        );
    } else {
        out.say("{} begins no line.\n", &[said]);
        tell_expected(out, Statement::Unknown);
    }
}

// A word that has to be a kind.
fn tell_kind(out: &mut Teller, word: &str, part: Part) {
    match cases_of(out, word) {
        Ok((small, _)) => tell_small(out, word, &small, part),
        Err(_) => out.fail(),
    }
}

// The same, given the word in small letters.
fn tell_small(out: &mut Teller, word: &str, small: &str, part: Part) {
    let said = Name::Said(word);
    if small == "none" {
        out.say(
            "{} is for a result alone; here no word is needed.\n",
            &[said],
        );
    } else if part.sort == Sort::Field && small.starts_with("here:") {
        out.say(
            "{} is for parameters and results alone; the kind of a field is gref.\n",
            &[said],
        );
    } else if matches!(small, "obj" | "opt" | "gref" | "here") {
        out.say(
            "{} lacks its class, as in {}:0.\n",
            &[said, Name::Word(small)],
        );
    } else if let Some(kind) = nearest_kind(out, small) {
        out.say(
            "{} isn't a kind. Did you mean {}?\n",
            &[said, Name::Word(kind)],
        );
    } else {
        out.say(
            "{} isn't a kind; this word is {}.\nKinds are int, place, text, rail, obj:c, opt:c, gref:c and here:c, where c is the number of a class.\n",
            &[said, Name::Word(part.name)],
        );
    }
}

// ---- numbers

// What is wrong with a word that is to be a number.
fn tell_number(out: &mut Teller, statement: Statement, word: &str, part: Part) {
    let (said, name) = (Name::Said(word), Name::Word(part.name));
    if part.sort == Sort::Version {
        return out.say(
            "{} isn't 2; a text of version 1 has no line `version`.\n",
            &[said],
        );
    }
    let digits = word.strip_prefix('-').unwrap_or(word);
    if are_digits(digits) && (part.sort == Sort::Int || digits.len() == word.len()) {
        return out.say(
            "{} is out of range: {} is {} to {}.\n",
            &[said, name, Name::I64(part.least), Name::I64(part.most)],
        );
    }
    if part.sort == Sort::Target && is_name(word) && !is_register(word) {
        out.say(
            "{} isn't a number; a label has an at sign: @{}\n",
            &[said, Name::Word(word)],
        );
    } else {
        out.say(look_of(word, digits), &[said, name]);
    }
    tell_expected(out, statement);
}

// What a word looks like that is to be a number and is none that is in range, given what is behind its sign.
fn look_of(word: &str, digits: &str) -> &'static str {
    if are_digits(digits) {
        "{} isn't {}: a number below 0 is a line `int`, and INTK puts it into a register.\n"
    } else if is_fraction(digits) {
        "{} isn't a whole number, and there are no others.\n"
    } else if digits.starts_with("0x") || digits.starts_with("0b") || digits.starts_with("0o") {
        "{} isn't a decimal number, and there are no others.\n"
    } else if word.starts_with('@') {
        "{} is a label, and this word is {}.\n"
    } else if is_register(word) {
        "{}: a register is its number alone, without r.\n"
    } else {
        "{} isn't a number; this word is {}.\n"
    }
}

fn are_digits(word: &str) -> bool {
    // without an end at the first other byte, many are looked at at once
    !word.is_empty()
        && word
            .bytes()
            .fold(true, |all, byte| all & byte.is_ascii_digit())
}

fn is_fraction(word: &str) -> bool {
    match word.split_once('.') {
        Some((whole, part)) => are_digits(whole) && are_digits(part),
        None => false,
    }
}

// Whether a word is a register as other assemblers write it: r0.
fn is_register(word: &str) -> bool {
    match word.strip_prefix('r') {
        Some(number) => are_digits(number),
        None => word.strip_prefix('R').is_some_and(are_digits),
    }
}

// A kind whose class is no number, or isn't there, in a text with so many classes.
fn tell_class(out: &mut Teller, word: &str, classes: usize) {
    let (_, class) = word.split_once(':').unwrap_or(("", word));
    if !are_digits(class) {
        return out.say(
            "{} doesn't name its class by a number, as in obj:0.\n",
            &[Name::Said(word)],
        );
    }
    out.say(
        "There is no class {}: the text has {}.\n",
        &[
            Name::Word(front(class, 20)),
            Name::Numbered(classes, "class", "classes"),
        ],
    );
}
