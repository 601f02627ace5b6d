//! Sentences with places for names, and the text that they are told into.

use crate::text::{MOST_SAID, MOST_SHOWN, front};
use std::alloc::{AllocError, Global};
use std::fmt::Write;
use x10_asm::{push_instruction, push_kind, push_quoted, push_result, push_slot};
use x10_code::Instr;
use x10_kinds::{Kind, Term};
use x10_model::Slot;
use x10_verify::Want;

/// What stands at a place of a sentence.
#[derive(Clone, Copy)]
pub(crate) enum Name<'a> {
    U8(u8),
    U16(u16),
    U32(u32),
    U64(u64),
    Usize(usize),
    I64(i64),
    /// A byte in two hexadecimal digits.
    Hex(u8),
    Character(char),
    /// A register: `r3`.
    Register(u8),
    /// A text as it is.
    Word(&'a str),
    /// A word of a line between backquotes, as much of it as is repeated.
    Said(&'a str),
    /// A line, as much of it as is shown, with its end.
    Shown(&'a str),
    /// The same of a line of a text by its number, as `line 7: ADD 0 0 0`.
    Line(usize, &'a str),
    /// A text in quotes, with the space before it.
    Quoted(&'a str),
    /// A text as a value of JSON.
    Json(&'a str),
    /// `true` or `false`.
    Bool(bool),
    /// A number as a value of JSON, null where there is none.
    Maybe(Option<u64>),
    /// How many there are, and their numbers: `no class`, `1 class, number 0`, `3 classes, numbers 0 to 2`.
    Numbered(usize, &'static str, &'static str),
    /// A kind, with the space before it.
    Kind(Kind),
    /// What a parameter takes, with the space before it.
    Slot(Slot),
    /// What a function gives, with the space before it.
    Gives(Option<Slot>),
    /// What a rule asks of a register, with the space before it.
    Want(Want),
    /// A place: `here`, `place 3`, `the place of r2`.
    Place(Term),
    /// An instruction as the listing writes it, with the end of its line.
    Instruction(Instr),
    /// The same behind its number: `instruction 3: ADD 0 0 0`.
    Step(usize, Option<Instr>),
}

fn push_number(out: &mut String, number: u64) -> Result<(), AllocError> {
    write!(out, "{number}")
}

fn push_numbered(out: &mut String, count: usize, one: &str, many: &str) -> Result<(), AllocError> {
    match count {
        0 => write!(out, "no {one}"),
        1 => write!(out, "1 {one}, number 0"),
        _ => {
            let last = count - 1;
            write!(out, "{count} {many}, numbers 0 to {last}")
        }
    }
}

fn push_json(out: &mut String, text: &str) -> Result<(), AllocError> {
    let Ok(value) = serde_json::to_string(*out.allocator(), &text) else {
        return Err(AllocError);
    };
    out.push_str(&value)
}

fn push_place(out: &mut String, place: Term) -> Result<(), AllocError> {
    match place {
        Term::Here => out.push_str("here"),
        Term::Place(place) => write!(out, "place {place}"),
        Term::Reg(register) => write!(out, "the place of r{register}"),
    }
}

fn push_want(out: &mut String, want: Want) -> Result<(), AllocError> {
    out.push_str(match want {
        Want::Fitting(kind) => return push_kind(out, kind),
        Want::Anything => " set",
        Want::AnObject => " an object, obj:c of some class c",
        Want::AnObjectOrNull => " an object or null, obj:c or opt:c of some class c",
        Want::AReference => " a global reference, gref:c of some class c",
        Want::APlaceOrReference => " a place or a global reference, place or gref:c",
        Want::AnIntOrText => " int or text",
    })
}

// A line, as much of it as is shown, with its end.
fn push_shown(out: &mut String, line: &str) -> Result<(), AllocError> {
    let front = front(line, MOST_SHOWN);
    let end = if front.len() < line.len() {
        " ..\n"
    } else {
        "\n"
    };
    write!(out, "{front}{end}")
}

fn push_said(out: &mut String, word: &str) -> Result<(), AllocError> {
    let front = front(word, MOST_SAID);
    let dots = if front.len() < word.len() { ".." } else { "" };
    write!(out, "`{front}{dots}`")
}

fn push_step(out: &mut String, pc: usize, instr: Option<Instr>) -> Result<(), AllocError> {
    let Some(instr) = instr else {
        return writeln!(out, "instruction {pc}");
    };
    write!(out, "instruction {pc}: ")?;
    push_instruction(out, instr)
}

fn push_text(out: &mut String, name: Name) -> Result<(), AllocError> {
    match name {
        Name::Word(word) => out.push_str(word),
        Name::Said(word) => push_said(out, word),
        Name::Shown(line) => push_shown(out, line),
        Name::Line(number, line) => {
            write!(out, "line {number}: ")?;
            push_shown(out, line)
        }
        Name::Quoted(text) => push_quoted(out, text),
        Name::Json(text) => push_json(out, text),
        Name::Bool(truth) => write!(out, "{truth}"),
        Name::Maybe(Some(number)) => push_number(out, number),
        Name::Maybe(None) => out.push_str("null"),
        Name::Numbered(count, one, many) => push_numbered(out, count, one, many),
        Name::Kind(kind) => push_kind(out, kind),
        Name::Slot(slot) => push_slot(out, slot),
        Name::Gives(slot) => push_result(out, slot),
        Name::Want(want) => push_want(out, want),
        Name::Place(place) => push_place(out, place),
        Name::Instruction(instr) => push_instruction(out, instr),
        Name::Step(pc, instr) => push_step(out, pc, instr),
        _ => Ok(()),
    }
}

fn push_name(out: &mut String, name: Name) -> Result<(), AllocError> {
    match name {
        Name::U8(number) => push_number(out, u64::from(number)),
        Name::U16(number) => push_number(out, u64::from(number)),
        Name::U32(number) => push_number(out, u64::from(number)),
        Name::U64(number) => push_number(out, number),
        Name::Usize(number) => push_number(out, number as u64),
        Name::I64(number) => write!(out, "{number}"),
        Name::Hex(byte) => write!(out, "{byte:02x}"),
        Name::Character(character) => write!(out, "{character}"),
        Name::Register(register) => write!(out, "r{register}"),
        _ => push_text(out, name),
    }
}

// A name as a text of JSON, without the spaces and the end of a line around it.
fn push_value(out: &mut String, name: Name) -> Result<(), AllocError> {
    let mut text = String::new(*out.allocator());
    push_name(&mut text, name)?;
    push_json(out, text.as_str().trim())
}

// A sentence with a name at each `{}`.
fn fill(out: &mut String, sentence: &str, names: &[Name]) -> Result<(), AllocError> {
    let mut rest = sentence;
    for name in names {
        let Some((before, after)) = rest.split_once("{}") else {
            break;
        };
        out.push_str(before)?;
        push_name(out, *name)?;
        rest = after;
    }
    out.push_str(rest)
}

/// A text that sentences are told into. Where memory runs out this is remembered, and `finish` says so.
#[derive(Drop)]
pub(crate) struct Teller {
    text: String,
    failed: bool,
}

impl Teller {
    pub(crate) fn new(alloc: Global) -> Teller {
        Teller {
            text: String::new(alloc),
            failed: false,
        }
    }

    /// Tells a sentence with a name at each `{}`.
    pub(crate) fn say(&mut self, sentence: &str, names: &[Name]) {
        let told = fill(&mut self.text, sentence, names);
        self.failed |= told.is_err();
    }

    /// Tells a name as a text of JSON, without the spaces and the end of a line around it.
    pub(crate) fn say_value(&mut self, name: Name) {
        let told = push_value(&mut self.text, name);
        self.failed |= told.is_err();
    }

    /// Tells a text, where there was memory for it.
    pub(crate) fn take(&mut self, told: Result<String, AllocError>) {
        match told {
            Ok(text) => self.say("{}", &[Name::Word(&text)]),
            Err(_) => self.failed = true,
        }
    }

    /// The allocator of what is told.
    pub(crate) fn alloc(&self) -> Global {
        *self.text.allocator()
    }

    /// Remembers that memory ran out.
    pub(crate) fn fail(&mut self) {
        self.failed = true;
    }

    /// How many bytes were told.
    pub(crate) fn len(&self) -> usize {
        self.text.len()
    }

    /// What was told, where there was memory for all of it.
    pub(crate) fn finish(self) -> Result<String, AllocError> {
        let Teller { text, failed } = self;
        if failed { Err(AllocError) } else { Ok(text) }
    }
}

/// What stands before a value of JSON that comes behind so many others.
pub(crate) fn comma(before: usize) -> Name<'static> {
    Name::Word(if before == 0 { "" } else { "," })
}
