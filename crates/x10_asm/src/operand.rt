//! The operands of an instruction, in the order of its form.

ghost use Rattle.std.specs.Prelude.{◌≡◌, List};
ghost use Rattle.std.specs.Option.{option_copied};
ghost use Rattle.x10_code.specs.Table.{form_of};
ghost use Rattle.x10_asm.specs.Lines.{words};
ghost use Rattle.x10_asm.specs.Checks.{Answers};
ghost use Rattle.x10_asm.specs.Labels as labels;
ghost use Rattle.x10_asm.specs.Operands as operands;
ghost use Rattle.x10_asm.specs.Operands.{Last};
ghost use Rattle.x10_asm.specs.Tables.{IsTable};

use crate::fault::AsmCause;
use crate::label::{Table, definition_of};
use crate::number::{no_more, number_at};
use crate::split::{next_word, stripped};
use x10_code::{Instr, Op, Operand, form};
use x10_model::limits::MOST_INSTRUCTIONS;

/// One of the operands a, b and c, and what follows its word. An operand that the form doesn't name
/// is 0 and has no word.
pub fn operand_at(line: &str, operand: Operand) -> Result<(u8, &str), AsmCause>
    ensures { Answers (λ x. (x.0, words x.1.now)) result
        (operands.operand_at operand 255 (words line.now)) }
{
    if operand == Operand::Unused {
        return Ok((0, line));
    }
    let (number, rest) = number_at(line, 255)?;
    Ok((number as u8, rest))
}

/// The operand x: a label's name or a number, and what follows its word.
fn target_at(line: &str) -> Result<(Option<&str>, u32, &str), AsmCause>
    ensures { Answers (λ x. record {
      name = option_copied x.0;
      number = x.1;
      others = words x.2.now;
    }) result (operands.target_at (words line.now)) }
{
    let Some((word, rest)) = next_word(line) else {
        return Err(AsmCause::Count);
    };
    if let Some(name) = stripped(word, "@") {
        return Ok((Some(name), 0, rest));
    }
    let (number, rest) = number_at(line, 4_294_967_295)?;
    Ok((None, number as u32, rest))
}

/// The operand x: for a jump a label's name or a number, otherwise a number; and what follows its word.
pub fn last_at(line: &str, operand: Operand) -> Result<(Option<&str>, u32, &str), AsmCause>
    ensures { Answers (λ x. record {
      name = option_copied x.0;
      number = x.1;
      others = words x.2.now;
    }) result (operands.last_at operand (words line.now)) }
{
    if operand == Operand::Target {
        return target_at(line);
    }
    if operand == Operand::Unused {
        return Ok((None, 0, line));
    }
    let (number, rest) = number_at(line, 4_294_967_295)?;
    Ok((None, number as u32, rest))
}

/// The index that a label's name stands for, or the number itself.
fn resolved<'a>(table: &Table<'a>, name: Option<&'a str>, number: u32) -> Result<u32, AsmCause>
    ensures { (all : List labels.Label) → IsTable table.now all
        → result ≡ operands.resolved all (option_copied name.entry) number }
{
    let Some(name) = name else {
        return Ok(number);
    };
    match definition_of(table, name) {
        Some(definition) => Ok(definition.index),
        None => Err(AsmCause::Label),
    }
}

/// The instruction of an operation and operand words, in a function with these labels and `count` instructions before it.
#[tactic(auto, unfolding(crate::specs::Operands::instruction_of))]
pub fn instruction_of<'a>(
    table: &Table<'a>,
    is_inside: bool,
    count: usize,
    op: Op,
    line: &'a str,
) -> Result<Instr, AsmCause>
    ensures { (all : List labels.Label) → IsTable table.now all
        → result ≡ operands.instruction_of all is_inside count op (words line.now) }
{
    let form = form(op);
    let (a, line) = operand_at(line, form.a)?;
    let (b, line) = operand_at(line, form.b)?;
    let (c, line) = operand_at(line, form.c)?;
    let (name, number, line) = last_at(line, form.x)?;
    no_more(line)?;
    if !is_inside {
        return Err(AsmCause::Order);
    }
    let x = resolved(table, name, number)?;
    if count >= usize::from(MOST_INSTRUCTIONS) {
        return Err(AsmCause::Limit);
    }
    Ok(Instr { op, a, b, c, x })
}
