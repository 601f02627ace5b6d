//! Lines out of order, lines that are missing, and what is outside the limits of a module.

use crate::teller::{Name, Teller};
use crate::text::{number_in, word_at, words_in};
use x10_asm::{Statement, line_of, next_line};
use x10_model::limits::{
    MOST_ENTRIES, MOST_FIELDS, MOST_FUNCTIONS, MOST_INSTRUCTIONS, MOST_LOOPS, MOST_PARAMETERS,
    MOST_PLACES, MOST_REGISTERS,
};

/// What the lines before a line have begun and ended, with the numbers of these lines.
#[derive(Clone, Copy)]
struct Before {
    places: Option<usize>,
    /// How many functions have begun.
    functions: usize,
    /// Where the function began that hasn't ended.
    open: Option<usize>,
    /// Where the last function ended.
    ended: Option<usize>,
    entry: Option<usize>,
}

// What the first lines of a text say, `count` of them. One pass over them.
fn said_before(text: &str, count: usize) -> Before {
    let mut before = Before {
        places: None,
        functions: 0,
        open: None,
        ended: None,
        entry: None,
    };
    let mut rest = text;
    for index in 0..count {
        let Some((line, after)) = next_line(rest) else {
            return before;
        };
        rest = after;
        let number = Some(index.saturating_add(1));
        match line_of(line).statement {
            Statement::Places => before.places = number,
            Statement::Func => {
                before.functions = before.functions.saturating_add(1);
                before.open = number;
            }
            Statement::End => {
                before.open = None;
                before.ended = number;
            }
            Statement::Entry => before.entry = number,
            _ => {}
        }
    }
    before
}

/// Tells what is wrong with the order of a line that says something.
pub(crate) fn tell_order<'a>(
    out: &mut Teller,
    text: &'a str,
    number: usize,
    statement: Statement,
    word: &'a str,
) {
    if statement == Statement::Version {
        return out.say("`version` stands once, before all other lines.\n", &[]);
    }
    let before = said_before(text, number.saturating_sub(1));
    if let Some(entry) = before.entry {
        return out.say(
            "The text ends with `entry`, which is in line {}.\n",
            &[Name::Usize(entry)],
        );
    }
    if before.places.is_none() {
        return out.say("A text begins with a line `places N`.\n", &[]);
    }
    match statement {
        Statement::Label | Statement::Instruction(_) => {
            out.say("`{}` is in no function", &[Name::Word(word)]);
            tell_ended(out, before);
        }
        Statement::End => {
            out.say("This `end` ends no function", &[]);
            tell_ended(out, before);
        }
        _ => match before.open {
            Some(open) => tell_open(out, before.functions, open),
            None => tell_late(out, text, number, statement, word),
        },
    }
}

// A function that has no end.
fn tell_open(out: &mut Teller, functions: usize, open: usize) {
    out.say(
        "Function {}, begun in line {}, has no `end`.\n",
        &[Name::Usize(functions.saturating_sub(1)), Name::Usize(open)],
    );
}

// Where the last function ended, to the end of the line.
fn tell_ended(out: &mut Teller, before: Before) {
    match before.ended {
        Some(ended) => out.say(": the last one ended in line {}.\n", &[Name::Usize(ended)]),
        None => out.say(": no line `func` comes before it.\n", &[]),
    }
}

// A line that comes after one that it has to come before.
fn tell_late<'a>(
    out: &mut Teller,
    text: &'a str,
    number: usize,
    statement: Statement,
    word: &'a str,
) {
    if statement == Statement::Places {
        return out.say("There is a line `places` already.\n", &[]);
    }
    let rank = rank_of(statement);
    let mut rest = text;
    for index in 0..number {
        let Some((line, after)) = next_line(rest) else {
            return;
        };
        rest = after;
        let said = line_of(line);
        if rank_of(said.statement) > rank {
            return out.say(
                "`{}` has to come before the first `{}`, which is in line {}.\n",
                &[
                    Name::Word(word),
                    Name::Word(said.first),
                    Name::Usize(index.saturating_add(1)),
                ],
            );
        }
    }
}

// Which of the parts of a text a line belongs to.
fn rank_of(statement: Statement) -> u8 {
    match statement {
        Statement::Class => 1,
        Statement::Int => 2,
        Statement::Text => 3,
        Statement::Func => 4,
        _ => 0,
    }
}

/// Tells what a text lacks that ends too early, in a line. One pass over it.
pub(crate) fn tell_missing(out: &mut Teller, text: &str) {
    let all = said_before(text, usize::MAX);
    if let (Some(_), Some(open)) = (all.places, all.open) {
        return tell_open(out, all.functions, open);
    }
    let sentence = if all.places.is_none() {
        "There is no line `places N`, with which a text begins.\n"
    } else if all.functions == 0 {
        "There is no function: func, its instructions, end; and then entry.\n"
    } else {
        "There is no line `entry N`, which names the function that a run begins with.\n"
    };
    out.say(sentence, &[]);
}

/// Something that a module has so many of at most.
#[derive(Clone, Copy)]
pub(crate) enum Limit {
    Places,
    Functions,
    Classes,
    Ints,
    Texts,
    Fields,
    Registers,
    Loops,
    Parameters,
    Instructions,
}

/// Tells a limit.
pub(crate) fn tell_limit(out: &mut Teller, limit: Limit) {
    let (sentence, most) = match limit {
        Limit::Places => (
            "A module asks for 1 to {} places.\n",
            Name::U16(MOST_PLACES),
        ),
        Limit::Functions => (
            "A module has {} functions at most.\n",
            Name::U16(MOST_FUNCTIONS),
        ),
        Limit::Classes => (
            "A module has {} classes at most.\n",
            Name::U16(MOST_ENTRIES),
        ),
        Limit::Ints => ("A module has {} ints at most.\n", Name::U16(MOST_ENTRIES)),
        Limit::Texts => ("A module has {} texts at most.\n", Name::U16(MOST_ENTRIES)),
        Limit::Fields => ("A class has {} fields at most.\n", Name::U8(MOST_FIELDS)),
        Limit::Registers => (
            "A function has 1 to {} registers.\n",
            Name::U8(MOST_REGISTERS),
        ),
        Limit::Loops => (
            "A function has {} loop slots at most.\n",
            Name::U8(MOST_LOOPS),
        ),
        Limit::Parameters => (
            "A function has {} parameters at most.\n",
            Name::U8(MOST_PARAMETERS),
        ),
        Limit::Instructions => (
            "A function has {} instructions at most.\n",
            Name::U16(MOST_INSTRUCTIONS),
        ),
    };
    out.say(sentence, &[most]);
}

/// Tells which limit a line of a text is outside of.
pub(crate) fn tell_outside(
    out: &mut Teller,
    text: &str,
    number: usize,
    line: &str,
    statement: Statement,
) {
    tell_limit(
        out,
        match statement {
            Statement::Func => return tell_func(out, line),
            Statement::End => {
                let functions = said_before(text, number).functions;
                return out.say(
                    "Function {} has no instruction; RET at least has to be there.\n",
                    &[Name::Usize(functions.saturating_sub(1))],
                );
            }
            Statement::Entry => {
                return out.say("There is no function that a run could begin with.\n", &[]);
            }
            Statement::Class if word_at(line, usize::from(MOST_FIELDS) + 1).is_some() =>
                Limit::Fields,
            Statement::Places => Limit::Places,
            Statement::Class => Limit::Classes,
            Statement::Int => Limit::Ints,
            Statement::Text => Limit::Texts,
            _ => Limit::Instructions,
        },
    );
}

// Which number of a function is outside its range.
fn tell_func(out: &mut Teller, line: &str) {
    let registers = number_in(line, 1);
    let parameters = words_in(line).saturating_sub(4);
    let limit = if registers < 1 || registers > u64::from(MOST_REGISTERS) {
        Limit::Registers
    } else if number_in(line, 2) > u64::from(MOST_LOOPS) {
        Limit::Loops
    } else if parameters > usize::from(MOST_PARAMETERS) {
        Limit::Parameters
    } else if parameters as u64 > registers {
        return out.say(
            "Each parameter takes a register: {} parameters need `func {}` at least.\n",
            &[Name::Usize(parameters), Name::Usize(parameters)],
        );
    } else {
        Limit::Functions
    };
    tell_limit(out, limit);
}

/// Tells why the function that line `number` of a text names can't be the entry.
pub(crate) fn tell_entry(out: &mut Teller, text: &str, number: usize, line: &str) {
    let entry = number_in(line, 1);
    match func_at(text, entry as usize) {
        Some((func, line)) => out.say(
            "A run begins with a function that takes and gives nothing; function {}, begun in line {}, has a {}.\n",
            &[
                Name::U64(entry),
                Name::Usize(func),
                Name::Word(if word_at(line, 4).is_some() {
                    "parameter"
                } else {
                    "result"
                }),
            ],
        ),
        None => out.say(
            "There is no function {}: the text has {}.\n",
            &[
                Name::U64(entry),
                Name::Numbered(said_before(text, number).functions, "function", "functions"),
            ],
        ),
    }
}

// The line with which a function begins, by the function's number, and the number of the line.
fn func_at(text: &str, function: usize) -> Option<(usize, &str)> {
    let mut functions: usize = 0;
    let mut rest = text;
    for index in 0..text.len() {
        let (line, after) = next_line(rest)?;
        rest = after;
        if line_of(line).statement == Statement::Func {
            if functions == function {
                return Some((index.saturating_add(1), line));
            }
            functions = functions.saturating_add(1);
        }
    }
    None
}
