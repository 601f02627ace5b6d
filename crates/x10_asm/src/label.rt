//! Labels: names of instructions inside a function.

ghost use Rattle.std.specs.Prelude.{List, ◌≡◌, ◌+◌, ◌<◌, ◌≤◌, ◌^◌, true, length, OnOk, IfOk, ◌++◌, ◌∷◌, [], slice_index};
ghost use Rattle.std.specs.Option.{option_map};
ghost use Rattle.std.specs.List.{list_all};
ghost use Rattle.x10_asm.specs.Lines.{lines};
ghost use Rattle.x10_asm.specs.Labels as labels;
ghost use Rattle.x10_asm.specs.declared.statement.Statement.TheVariants.{Label};
ghost use Rattle.x10_asm.specs.LabelLines as labelled;
ghost use Rattle.x10_asm.specs.Tables as tables;
ghost use Rattle.x10_asm.specs.Tables.{IsTable};

use crate::split::next_line;
use crate::statement::{Line, Statement, line_of};
use std::alloc::{AllocError, Global};
use std::collections::BTreeMap;
use x10_model::limits::MOST_INSTRUCTIONS;

/// Where a label is: the number of its line, counted from 1, and the index of the instruction
/// that follows it, at most the 4,096 that a function may have.
#[derive(Clone, Copy, Debug, PartialEq, Eq)]
pub struct Definition {
    pub line: usize,
    pub index: u32,
}

fn is_letter(byte: u8) -> bool
    ensures { result ≡ labels.is_letter byte }
{
    matches!(byte, b'A'..=b'Z' | b'a'..=b'z' | b'_')
}

fn is_name_byte(byte: u8) -> bool
    ensures { result ≡ labels.is_name_byte byte }
{
    is_letter(byte) || matches!(byte, b'0'..=b'9')
}

fn are_name_bytes(bytes: &[u8]) -> bool
    ensures { result ≡ list_all labels.is_name_byte bytes.now }
{
    bytes.iter().all(|byte| is_name_byte(*byte))
}

/// Whether a label may have a name: 1 to 32 ASCII letters, digits and underscores, no digit first.
pub fn is_name(name: &str) -> bool
    ensures { result ≡ labels.is_name name.now }
{
    let bytes = name.as_bytes();
    !bytes.is_empty() && is_letter(bytes[0]) && bytes.len() <= 32 && are_name_bytes(bytes)
}

/// Whether a word is a label's: its last byte is a colon.
pub fn ends_in_colon(word: &str) -> bool
    ensures { result ≡ labels.ends_in_colon word.now }
{
    let bytes = word.as_bytes();
    !bytes.is_empty() && bytes[bytes.len() - 1] == b':'
}

/// A label's word without its colon.
pub fn label_name(word: &str) -> &str
    requires { labels.ends_in_colon word.now ≡ true }
    ensures { result.now ≡ labels.label_name word.now }
{
    &word[..word.len() - 1]
}

/// One instruction more, of the 4,096 that a function may have.
fn counted(index: u32) -> u32
    requires { index ≤ 4096 }
    ensures value { result ≡ labelled.counted index }
    ensures few { result ≤ 4096 }
{
    (index + 1).min(u32::from(MOST_INSTRUCTIONS))
}

/// A byte of a name; 0 after its end.
fn byte_at(bytes: &[u8], at: usize) -> u64
    ensures value { result ≡ slice_index bytes.now at }
    ensures small { result < 256 }
{
    if at < bytes.len() {
        u64::from(bytes[at])
    } else {
        0
    }
}

/// Four bytes as a number, the first of them the highest.
fn quad(bytes: &[u8], at: usize) -> u64
    requires { at ≤ 4 }
    ensures value { result ≡ tables.quad bytes.now at }
    ensures small { result < 2 ^ 32 }
{
    16_777_216 * byte_at(bytes, at)
        + 65_536 * byte_at(bytes, at + 1)
        + 256 * byte_at(bytes, at + 2)
        + byte_at(bytes, at + 3)
}

/// The first eight bytes of a name as a number.
#[tactic(auto, unfolding(crate::specs::Tables::front))]
fn front(name: &str) -> u64
    ensures { result ≡ tables.front name.now }
{
    let bytes = name.as_bytes();
    4_294_967_296 * quad(bytes, 0) + quad(bytes, 4)
}

/// Labels by their names, each with its front before it, since one comparison of numbers mostly tells two names apart. The
/// map is ordered: a look-up takes the logarithm of the number of labels whatever their names are, while a text can be made
/// that turns a hash map quadratic.
pub type Table<'a> = BTreeMap<(u64, &'a str), Definition>;

/// What a name defines.
pub fn definition_of<'a>(table: &Table<'a>, name: &'a str) -> Option<Definition>
    ensures { (all : List labels.Label) → IsTable table.now all
        → result ≡ option_map tables.definition_of (labels.label_of all name.now) }
{
    let key = (front(name), name);
    table.get(&key).copied()
}

/// Adds a label, unless its name is there: then the first one of that name is put back. So a new label takes one search.
fn define<'a>(
    table: &mut Table<'a>,
    name: &'a str,
    definition: Definition,
) -> Result<(), AllocError>
    ensures { OnOk result ((all : List labels.Label) → IsTable table.old all
        → IsTable table.new (all ++ record {
          name = name.now;
          line = definition.line;
          index = definition.index;
        } ∷ [])) }
{
    let front = front(name);
    if let Some(first) = table.insert((front, name), definition)? {
        table.insert((front, name), first)?;
    }
    Ok(())
}

/// Adds the label that a line defines, if it defines one.
fn define_by<'a>(
    table: &mut Table<'a>,
    line: Line<'a>,
    definition: Definition,
) -> Result<(), AllocError>
    requires label { line.statement ≡ Label → labels.ends_in_colon line.first.now ≡ true }
    ensures { OnOk result ((all : List labels.Label) → IsTable table.old all
        → IsTable table.new (all ++ labelled.defined line.entry.statement line.entry.first.now
        definition.line definition.index)) }
{
    if line.statement != Statement::Label {
        return Ok(());
    }
    let name = label_name(line.first);
    if is_name(name) {
        define(table, name, definition)?;
    }
    Ok(())
}

/// The index of the next instruction after a line.
fn index_after(statement: Statement, index: u32) -> u32
    requires { index ≤ 4096 }
    ensures value { result ≡ labelled.index_after statement index }
    ensures few { result ≤ 4096 }
{
    match statement {
        Statement::Instruction(_) => counted(index),
        _ => index,
    }
}

/// Whether the labels of a function end at a line.
fn ends_labels(statement: Statement) -> bool
    ensures { result ≡ labelled.ends_labels statement }
{
    matches!(statement, Statement::Func | Statement::End)
}

/// The labels of the function whose lines follow, from the number of the first of them on. One pass
/// over the lines of the function.
pub fn labels_of<'a>(alloc: Global, number: usize, text: &'a str) -> Result<Table<'a>, AllocError>
    requires { number + length text.now < 2 ^ 64 }
    ensures { IfOk result (λ m. IsTable m (labelled.labels_from number 0 (lines text.now))) }
{
    let mut table = BTreeMap::new(alloc);
    let mut number = number;
    let mut index = 0;
    let mut rest = text;
    while let Some((text, after)) = next_line(rest) {
        let line = line_of(text);
        if ends_labels(line.statement) {
            return Ok(table);
        }
        define_by(
            &mut table,
            line,
            Definition {
                line: number,
                index,
            },
        )?;
        index = index_after(line.statement, index);
        number += 1;
        rest = after;
    }
    Ok(table)
}
