//! What a line says, by its first word.

ghost use Rattle.std.specs.Prelude.{◌≡◌, false, IsUtf8};
ghost use Rattle.x10_code.specs.Table.{op_of_name};
ghost use Rattle.x10_asm.specs.Lines as spec;
ghost use Rattle.x10_asm.specs.Lines.{words};
ghost use Rattle.x10_asm.specs.Labels as labels;
ghost use Rattle.x10_asm.specs.Statements as statements;
ghost use Rattle.x10_asm.specs.Statements.{first_word, other_words};

use crate::label::ends_in_colon;
use crate::split::{begins, next_word};
use x10_code::{Op, op_named};

/// What a line says, by its first word.
#[derive(Clone, Copy, Debug, PartialEq, Eq)]
pub enum Statement {
    /// Nothing: the line is blank or a comment.
    Silent,
    /// The version of the image.
    Version,
    /// The least number of places.
    Places,
    /// A class.
    Class,
    /// A constant number.
    Int,
    /// A constant text.
    Text,
    /// The beginning of a function.
    Func,
    /// The end of a function.
    End,
    /// The number of the entry function.
    Entry,
    /// A label.
    Label,
    /// An instruction.
    Instruction(Op),
    /// The first word begins no line.
    Unknown,
}

fn named(word: &str) -> Option<Op>
    ensures { result ≡ op_of_name word.now }
{
    op_named(word)
}

fn instruction_or_unknown(word: &str) -> Statement
    ensures { result ≡ statements.instruction_or_unknown (op_of_name word.now) }
{
    match named(word) {
        Some(op) => Statement::Instruction(op),
        None => Statement::Unknown,
    }
}

/// The statement that begins with a word, which is no comment's and no label's; each word is compared in turn.
#[tactic(auto, unfolding(crate::specs::Statements::statement_of))]
fn keyword(word: &str) -> Statement
    requires comment { spec.begins 59 word.now ≡ false }
    requires label { labels.ends_in_colon word.now ≡ false }
    ensures { result ≡ statements.statement_of word.now }
{
    if word == "version" {
        return Statement::Version;
    }
    if word == "places" {
        return Statement::Places;
    }
    if word == "class" {
        return Statement::Class;
    }
    if word == "int" {
        return Statement::Int;
    }
    if word == "text" {
        return Statement::Text;
    }
    if word == "func" {
        return Statement::Func;
    }
    if word == "end" {
        return Statement::End;
    }
    if word == "entry" {
        return Statement::Entry;
    }
    instruction_or_unknown(word)
}

/// Whether a word begins with a byte below the small letters, as the names of operations do and none of the other words
/// that begin a line.
fn begins_name(word: &str) -> bool
    ensures { result ≡ statements.begins_name word.now }
{
    let bytes = word.as_bytes();
    !bytes.is_empty() && bytes[0] < b'a'
}

/// The statement that begins with a word. Labels and operations, which most lines begin with, are looked for first. The
/// definition asks for the other words before labels; none of them ends in a colon (`label_is` in `proofs/Names.antt`).
#[tactic(auto, unfolding(crate::specs::Statements::statement_of))]
fn statement_of(word: &str) -> Statement
    ensures { result ≡ statements.statement_of word.now }
{
    if begins(word, b';') {
        return Statement::Silent;
    }
    if ends_in_colon(word) {
        return Statement::Label;
    }
    if begins_name(word) {
        return instruction_or_unknown(word);
    }
    keyword(word)
}

/// A line: what it says, its first word, and what follows that.
#[derive(Clone, Copy)]
pub struct Line<'a> {
    pub statement: Statement,
    pub first: &'a str,
    pub rest: &'a str,
}

/// What a line says. A blank line has the empty word.
pub fn line_of(line: &str) -> Line<'_>
    ensures statement { result.statement ≡ statements.statement_in (words line.now) }
    ensures first { result.first.now ≡ first_word (words line.now) }
    ensures rest { words result.rest.now ≡ other_words (words line.now) }
    ensures after { spec.after_spaces result.rest.now ≡ spec.after_word line.now }
    ensures utf8 { IsUtf8 result.first.now × IsUtf8 result.rest.now }
{
    match next_word(line) {
        None => Line {
            statement: Statement::Silent,
            first: "",
            rest: "",
        },
        Some((first, rest)) => Line {
            statement: statement_of(first),
            first,
            rest,
        },
    }
}
