//! What each word of a line has to be.

use crate::teller::{Name, Teller};
use x10_asm::Statement;
use x10_code::{Op, Operand, form, name};
use x10_model::limits::{
    MOST_ENTRIES, MOST_FIELDS, MOST_FUNCTIONS, MOST_INSTRUCTIONS, MOST_LOOPS, MOST_PLACES,
    MOST_REGISTERS, MOST_TURNS,
};

/// What sort of word is wanted.
#[derive(Clone, Copy, PartialEq, Eq)]
pub(crate) enum Sort {
    /// The version, which is 2.
    Version,
    /// The kind of a field.
    Field,
    /// The kind of a parameter or a result.
    Kind,
    /// A number that may be below 0.
    Int,
    /// A label, or the number of an instruction.
    Target,
    /// A number.
    Number,
}

/// What a word of a line has to be: what people call it, and the numbers that it may be.
#[derive(Clone, Copy)]
pub(crate) struct Part {
    pub(crate) sort: Sort,
    pub(crate) name: &'static str,
    pub(crate) least: i64,
    pub(crate) most: i64,
}

impl Part {
    /// Whether it is a kind.
    pub(crate) fn is_kind(self) -> bool {
        matches!(self.sort, Sort::Field | Sort::Kind)
    }
}

/// What the word with a number has to be, from 0 on after the first word of a line.
pub(crate) fn part_at(statement: Statement, number: usize) -> Part {
    let (sort, name, least, most) = match (statement, number) {
        (Statement::Version, 0) => (Sort::Version, "the version", 2, 2),
        (Statement::Places, 0) => (
            Sort::Number,
            "the least number of places",
            1,
            i64::from(MOST_PLACES),
        ),
        (Statement::Class, _) => (Sort::Field, "the kind of a field", 0, 0),
        (Statement::Int, 0) => (Sort::Int, "the number", i64::MIN, i64::MAX),
        (Statement::Text, 0) => (Sort::Number, "the text in quotes", i64::MIN, i64::MAX),
        (Statement::Func, 0) => (
            Sort::Number,
            "the number of registers",
            1,
            i64::from(MOST_REGISTERS),
        ),
        (Statement::Func, 1) => (
            Sort::Number,
            "the number of loop slots",
            0,
            i64::from(MOST_LOOPS),
        ),
        (Statement::Func, 2) => (Sort::Kind, "the kind of the result, or none", 0, 0),
        (Statement::Func, _) => (Sort::Kind, "the kind of a parameter", 0, 0),
        (Statement::Entry, 0) => (
            Sort::Number,
            "the number of the entry function",
            0,
            i64::from(MOST_FUNCTIONS) - 1,
        ),
        (Statement::Instruction(op), _) => return operand_at(op, number),
        _ => (Sort::Number, "nothing", i64::MIN, i64::MAX),
    };
    Part {
        sort,
        name,
        least,
        most,
    }
}

// The operand with a number of those that an operation has.
fn operand_at(op: Op, number: usize) -> Part {
    let form = form(op);
    let mut left = number;
    for operand in [form.a, form.b, form.c, form.x] {
        let (part, word) = row_of(operand);
        if !word.is_empty() {
            if left == 0 {
                return part;
            }
            left -= 1;
        }
    }
    let (none, _) = row_of(Operand::Unused);
    none
}

// What an operand has to be, and the word for it in the form of an instruction, with the space before it.
fn row_of(operand: Operand) -> (Part, &'static str) {
    let least = i64::from(operand == Operand::Count);
    let (name, word, most) = match operand {
        Operand::Unused => ("nothing", "", i64::MAX),
        Operand::Register => (
            "the number of a register",
            " REGISTER",
            i64::from(MOST_REGISTERS) - 1,
        ),
        Operand::Result => (
            "the register of the result",
            " RESULT-REGISTER",
            i64::from(MOST_REGISTERS) - 1,
        ),
        Operand::Arguments => (
            "the register of the first argument",
            " FIRST-ARGUMENT",
            i64::from(MOST_REGISTERS) - 1,
        ),
        Operand::Slot => (
            "the number of a loop slot",
            " LOOP-SLOT",
            i64::from(MOST_LOOPS) - 1,
        ),
        Operand::Count => ("the number of turns", " TURNS", i64::from(MOST_TURNS)),
        Operand::Field => (
            "the number of a field",
            " FIELD",
            i64::from(MOST_FIELDS) - 1,
        ),
        Operand::Int => (
            "the number of a constant",
            " INT",
            i64::from(MOST_ENTRIES) - 1,
        ),
        Operand::Text => ("the number of a text", " TEXT", i64::from(MOST_ENTRIES) - 1),
        Operand::Place => (
            "the number of a place",
            " PLACE",
            i64::from(MOST_PLACES) - 1,
        ),
        Operand::Class => (
            "the number of a class",
            " CLASS",
            i64::from(MOST_ENTRIES) - 1,
        ),
        Operand::Function => (
            "the number of a function",
            " FUNCTION",
            i64::from(MOST_FUNCTIONS) - 1,
        ),
        Operand::Target => (
            "the label or the number of an instruction",
            " INSTRUCTION",
            i64::from(MOST_INSTRUCTIONS) - 1,
        ),
    };
    let sort = if operand == Operand::Target {
        Sort::Target
    } else {
        Sort::Number
    };
    let part = Part {
        sort,
        name,
        least,
        most,
    };
    (part, word)
}

/// Tells what a line has to be that begins with such a word, where that helps.
pub(crate) fn tell_expected(out: &mut Teller, statement: Statement) {
    out.say(
        match statement {
            Statement::Instruction(op) => return tell_form(out, op),
            Statement::Silent | Statement::Class | Statement::End | Statement::Label => "",
            Statement::Version => "Expected: version 2, before all other lines.\n",
            Statement::Places => "Expected: places N, the least number of places, 1 to 64.\n",
            Statement::Int =>
                "Expected: int N, from -9223372036854775808 to 9223372036854775807.\n",
            Statement::Text => "Expected: text \"..\".\n",
            Statement::Func =>
                "Expected: func REGISTERS LOOPS RESULT PARAMETER .., where RESULT is none or a kind, and a PARAMETER is a kind.\n",
            Statement::Entry => "Expected: entry N, the number of a function, from 0.\n",
            Statement::Unknown =>
                "Expected: version, places, class, int, text, func, end, entry, an instruction's name in capitals, a label that ends in a colon, or a semicolon for a comment.\n",
        },
        &[],
    );
}

// The words of an instruction.
fn tell_form(out: &mut Teller, op: Op) {
    let form = form(op);
    let (_, a) = row_of(form.a);
    let (_, b) = row_of(form.b);
    let (_, c) = row_of(form.c);
    let (_, x) = row_of(form.x);
    let end = if form.x == Operand::Target {
        ", where INSTRUCTION is a number, or @NAME of a label.\n"
    } else {
        ".\n"
    };
    out.say(
        "Expected: {}{}{}{}{}{}",
        &[
            Name::Word(name(op)),
            Name::Word(a),
            Name::Word(b),
            Name::Word(c),
            Name::Word(x),
            Name::Word(end),
        ],
    );
}
