//! The word at which a line is faulty, whatever the other lines say.

ghost use Rattle.std.specs.Prelude.{◌≡◌, ◌≤◌, ◌^◌, ℕ, ℤ, List, Bool, true, false, Some, Ok, Err, IfOk, IfErr, MatchOption};
ghost use Rattle.x10_asm.specs.declared.fault.AsmCause.TheVariants as cause;
ghost use Rattle.x10_asm.specs.declared.stage.Stage.{Stage as StageOf};
ghost use Rattle.x10_asm.specs.Lines.{words};
ghost use Rattle.x10_asm.specs.Lines as spec;
ghost use Rattle.x10_asm.specs.Checks as checks;
ghost use Rattle.x10_asm.specs.Kinds as kinds;
ghost use Rattle.x10_asm.specs.Kinds.{are_known, each};
ghost use Rattle.x10_asm.specs.Labels as labels;
ghost use Rattle.x10_asm.specs.Operands as operands;
ghost use Rattle.x10_asm.specs.Reading as reading;
ghost use Rattle.x10_asm.specs.Literals as literals;
ghost use Rattle.x10_asm.specs.Statements.{IsTakenApart};
ghost use Rattle.x10_asm.specs.Flaws.{IsFaultOf, HasNoFault, HasOperands};
ghost use Rattle.x10_kinds.specs.declared.kind.Kind.{Kind as KindOf};
ghost use Rattle.x10_model.specs.declared.slot.Slot.{Slot as SlotOf};
ghost use Rattle.x10_model.specs.Modules.{is_known, Function as FunctionOf};

use crate::fault::AsmCause;
use crate::kind::{field_of, result_is_known, result_of, slot_of};
use crate::literal::behind;
use crate::number::{int_of, no_more, number_at};
use crate::operand::{last_at, operand_at};
use crate::split::{after_spaces, begins, next_word, stripped};
use crate::statement::{Line, Statement, line_of};
use x10_code::{Op, Operand, form};
use x10_image::is_known;
use x10_model::ImageVersion;

/// A word at which a line is faulty, with the cause that is the line's.
#[derive(Clone, Copy)]
pub struct Flaw<'a> {
    pub cause: AsmCause,
    /// The word; empty where a word is missing after the last one of the line.
    pub word: &'a str,
    /// What follows the word in its line.
    pub rest: &'a str,
}

/// The first word of what is left of a line.
fn at_next(line: &str, cause: AsmCause) -> Flaw<'_>
    ensures { result.cause ≡ cause }
{
    match next_word(line) {
        Some((word, rest)) => Flaw { cause, word, rest },
        None => Flaw {
            cause,
            word: "",
            rest: "",
        },
    }
}

/// The first word of a line.
fn at_first(parts: Line<'_>, cause: AsmCause) -> Flaw<'_>
    ensures { result.cause ≡ cause }
{
    Flaw {
        cause,
        word: parts.first,
        rest: parts.rest,
    }
}

/// What follows a number.
fn past_number(line: &str, most: u64) -> Result<&str, Flaw<'_>>
    requires { most ≤ 2 ^ 63 }
    ensures passed { IfOk result (λ rest. (n : ℕ) × (checks.number_at most (words line.now)
        ≡ Ok (n, words rest.now))) }
    ensures flawed { IfErr result (λ flaw. checks.number_at most (words line.now)
        ≡ Err flaw.cause) }
{
    match number_at(line, most) {
        Ok((_, rest)) => Ok(rest),
        Err(cause) => Err(at_next(line, cause)),
    }
}

/// Nothing follows.
fn past_all(line: &str) -> Result<(), Flaw<'_>>
    ensures passed { IfOk result (λ _. checks.no_more (words line.now) ≡ Ok tt) }
    ensures flawed { IfErr result (λ flaw. checks.no_more (words line.now) ≡ Err flaw.cause) }
{
    match no_more(line) {
        Ok(()) => Ok(()),
        Err(cause) => Err(at_next(line, cause)),
    }
}

/// One number alone.
fn past_one_number(line: &str, most: u64) -> Result<(), Flaw<'_>>
    requires { most ≤ 2 ^ 63 }
    ensures passed { IfOk result (λ _. (n : ℕ) × (checks.one_number most (words line.now) ≡ Ok n)) }
    ensures flawed { IfErr result (λ flaw. checks.one_number most (words line.now)
        ≡ Err flaw.cause) }
{
    let rest = past_number(line, most)?;
    past_all(rest)
}

/// The number of a version alone.
fn past_version(line: &str) -> Result<(), Flaw<'_>>
    ensures passed { IfOk result (λ _. reading.one_version (words line.now) ≡ Ok tt) }
    ensures flawed { IfErr result (λ flaw. reading.one_version (words line.now) ≡ Err flaw.cause) }
{
    match number_at(line, 2) {
        Ok((2, rest)) => past_all(rest),
        Ok(_) => Err(at_next(line, AsmCause::Number)),
        Err(cause) => Err(at_next(line, cause)),
    }
}

/// One number of 64 bits alone.
fn past_one_int(line: &str) -> Result<(), Flaw<'_>>
    ensures passed { IfOk result (λ _. (z : ℤ) × (reading.one_int (words line.now) ≡ Ok z)) }
    ensures flawed { IfErr result (λ flaw. reading.one_int (words line.now) ≡ Err flaw.cause) }
{
    let Some((word, rest)) = next_word(line) else {
        return Err(at_next(line, AsmCause::Count));
    };
    let Some(_) = int_of(word) else {
        return Err(at_next(line, AsmCause::Number));
    };
    past_all(rest)
}

/// What follows one of the operands a, b and c.
fn past_operand(line: &str, operand: Operand) -> Result<&str, Flaw<'_>>
    ensures passed { IfOk result (λ rest. (n : ℕ) × (operands.operand_at operand 255
        (words line.now) ≡ Ok (n, words rest.now))) }
    ensures flawed { IfErr result (λ flaw. operands.operand_at operand 255 (words line.now)
        ≡ Err flaw.cause) }
{
    match operand_at(line, operand) {
        Ok((_, rest)) => Ok(rest),
        Err(cause) => Err(at_next(line, cause)),
    }
}

/// What follows the operand x.
fn past_last(line: &str, operand: Operand) -> Result<&str, Flaw<'_>>
    ensures passed { IfOk result (λ rest. (x : operands.Last)
        × (operands.last_at operand (words line.now) ≡ Ok x) × (x.others ≡ words rest.now)) }
    ensures flawed { IfErr result (λ flaw. operands.last_at operand (words line.now)
        ≡ Err flaw.cause) }
{
    match last_at(line, operand) {
        Ok((_, _, rest)) => Ok(rest),
        Err(cause) => Err(at_next(line, cause)),
    }
}

/// The operands of an instruction alone.
#[tactic(auto, unfolding(crate::specs::Operands::instruction_of))]
fn past_operands(line: &str, op: Op) -> Result<(), Flaw<'_>>
    ensures passed { IfOk result (λ _. HasOperands op (words line.now)) }
    ensures flawed { IfErr result (λ flaw. (all : List labels.Label) → (inside : Bool)
        → (count : ℕ) → operands.instruction_of all inside count op (words line.now)
        ≡ Err flaw.cause) }
{
    let form = form(op);
    let line = past_operand(line, form.a)?;
    let line = past_operand(line, form.b)?;
    let line = past_operand(line, form.c)?;
    let line = past_last(line, form.x)?;
    past_all(line)
}

/// An operation that the version knows, and its operands alone; they are what follows the first word of the line.
fn past_instruction(parts: Line<'_>, version: ImageVersion, op: Op) -> Result<(), Flaw<'_>>
    ensures known { IfOk result (λ _. is_known version op ≡ true) }
    ensures passed { IfOk result (λ _. HasOperands op (words parts.entry.rest.now)) }
    ensures flawed { IfErr result (λ flaw. (s : reading.Source) → s.so_far.version ≡ version
        → reading.instruction_line_of s op (words parts.entry.rest.now) ≡ Err flaw.cause) }
{
    if !is_known(version, op) {
        return Err(at_first(parts, AsmCause::Word));
    }
    past_operands(parts.rest, op)
}

/// The first word that is no kind of a field, its class aside.
fn unknown_field(line: &str, classes: usize) -> Option<Flaw<'_>>
    ensures { MatchOption result (are_known (kinds.field_of classes) (words line.now) ≡ true)
        (λ flaw. (are_known (kinds.field_of classes) (words line.now) ≡ false)
        × (flaw.cause ≡ cause.Word)) }
{
    let mut rest = line;
    while let Some((word, after)) = next_word(rest) {
        if matches!(field_of(word, classes), Err(AsmCause::Word)) {
            return Some(at_next(rest, AsmCause::Word));
        }
        rest = after;
    }
    None
}

/// The first word that is no kind of a parameter, its class aside.
fn unknown_slot(line: &str, classes: usize) -> Option<Flaw<'_>>
    ensures { MatchOption result (are_known (kinds.slot_of classes) (words line.now) ≡ true)
        (λ flaw. (are_known (kinds.slot_of classes) (words line.now) ≡ false)
        × (flaw.cause ≡ cause.Word)) }
{
    let mut rest = line;
    while let Some((word, after)) = next_word(rest) {
        if matches!(slot_of(word, classes), Err(AsmCause::Word)) {
            return Some(at_next(rest, AsmCause::Word));
        }
        rest = after;
    }
    None
}

/// Kinds of fields.
fn past_kinds(line: &str, classes: usize) -> Result<(), Flaw<'_>>
    ensures passed { IfOk result (λ _. (fields : List KindOf)
        × (each (kinds.field_of classes) (words line.now) ≡ Ok fields)) }
    ensures flawed { IfErr result (λ flaw. each (kinds.field_of classes) (words line.now)
        ≡ Err flaw.cause) }
{
    let mut rest = line;
    while let Some((word, after)) = next_word(rest) {
        if let Err(cause) = field_of(word, classes) {
            return Err(at_next(rest, cause));
        }
        rest = after;
    }
    Ok(())
}

/// Kinds of parameters.
fn past_slots(line: &str, classes: usize) -> Result<(), Flaw<'_>>
    ensures passed { IfOk result (λ _. (slots : List SlotOf)
        × (each (kinds.slot_of classes) (words line.now) ≡ Ok slots)) }
    ensures flawed { IfErr result (λ flaw. each (kinds.slot_of classes) (words line.now)
        ≡ Err flaw.cause) }
{
    let mut rest = line;
    while let Some((word, after)) = next_word(rest) {
        if let Err(cause) = slot_of(word, classes) {
            return Err(at_next(rest, cause));
        }
        rest = after;
    }
    Ok(())
}

/// The fields of a class alone.
#[tactic(auto, unfolding(crate::specs::Reading::class_of))]
fn past_class(line: &str, classes: usize) -> Result<(), Flaw<'_>>
    ensures known { IfOk result (λ _. are_known (kinds.field_of classes) (words line.now) ≡ true) }
    ensures passed { IfOk result (λ _. (fields : List KindOf)
        × (each (kinds.field_of classes) (words line.now) ≡ Ok fields)) }
    ensures flawed { IfErr result (λ flaw. (stage : StageOf) → (before : ℕ)
        → reading.class_of stage classes before (words line.now) ≡ Err flaw.cause) }
{
    if let Some(flaw) = unknown_field(line, classes) {
        return Err(flaw);
    }
    past_kinds(line, classes)
}

/// The first word that is no kind of a function's result or parameters, their classes aside.
fn unknown_kind(line: &str, classes: usize) -> Option<Flaw<'_>>
    ensures { MatchOption result (reading.kinds_are_known classes (words line.now) ≡ true)
        (λ flaw. (reading.kinds_are_known classes (words line.now) ≡ false)
        × (flaw.cause ≡ cause.Word)) }
{
    let (_, line) = next_word(line)?;
    let (_, line) = next_word(line)?;
    let (kind, rest) = next_word(line)?;
    if !result_is_known(kind, classes) {
        return Some(at_next(line, AsmCause::Word));
    }
    unknown_slot(rest, classes)
}

/// The numbers, the result and the parameters of a function.
fn past_signature(line: &str, classes: usize) -> Result<(), Flaw<'_>>
    ensures passed { IfOk result (λ _. (f : FunctionOf)
        × (reading.signature_of classes (words line.now) ≡ Ok f)) }
    ensures flawed { IfErr result (λ flaw. reading.signature_of classes (words line.now)
        ≡ Err flaw.cause) }
{
    let line = past_number(line, 255)?;
    let line = past_number(line, 255)?;
    let Some((kind, rest)) = next_word(line) else {
        return Err(at_next(line, AsmCause::Count));
    };
    if let Err(cause) = result_of(kind, classes) {
        return Err(at_next(line, cause));
    }
    past_slots(rest, classes)
}

/// What the beginning of a function says, alone.
#[tactic(auto, unfolding(crate::specs::Reading::func_of))]
fn past_func(line: &str, classes: usize) -> Result<(), Flaw<'_>>
    ensures known { IfOk result (λ _. reading.kinds_are_known classes (words line.now) ≡ true) }
    ensures passed { IfOk result (λ _. (f : FunctionOf)
        × (reading.signature_of classes (words line.now) ≡ Ok f)) }
    ensures flawed { IfErr result (λ flaw. (stage : StageOf) → (before : ℕ)
        → reading.func_of stage classes before (words line.now) ≡ Err flaw.cause) }
{
    if let Some(flaw) = unknown_kind(line, classes) {
        return Err(flaw);
    }
    past_signature(line, classes)
}

/// What follows a quote: no word after the closing one, if there is one with a space behind it.
fn past_quotes(quoted: &str) -> Result<(), Flaw<'_>>
    ensures passed { IfOk result (λ _. reading.is_count (literals.unquoted (Some quoted.now))
        ≡ false) }
    ensures flawed { IfErr result (λ flaw. (flaw.cause ≡ cause.Count)
        × (literals.unquoted (Some quoted.now) ≡ Err cause.Count)) }
{
    let Some(rest) = behind(quoted) else {
        return Ok(());
    };
    if !rest.is_empty() && !begins(rest, b' ') {
        return Ok(());
    }
    past_all(rest)
}

/// Something, and if it is a text between quotes, nothing after it.
#[tactic(auto, unfolding(crate::specs::Reading::text_of, crate::specs::Literals::literal))]
fn past_text(line: &str) -> Result<(), Flaw<'_>>
    ensures passed { IfOk result (λ _. reading.is_count
        (literals.literal (spec.after_spaces line.now)) ≡ false) }
    ensures flawed { IfErr result (λ flaw. (stage : StageOf) → (before : ℕ)
        → reading.text_of stage before (spec.after_spaces line.now) ≡ Err flaw.cause) }
{
    let text = after_spaces(line);
    if text.is_empty() {
        return Err(at_next(line, AsmCause::Count));
    }
    match stripped(text, "\"") {
        Some(quoted) => past_quotes(quoted),
        None => Ok(()),
    }
}

/// A line whose words are those that may be there.
fn past_line(parts: Line<'_>, classes: usize, version: ImageVersion) -> Result<(), Flaw<'_>>
    ensures passed { (text : List ℕ)
        → IsTakenApart text parts.entry.statement parts.entry.rest.now
        → IfOk result (λ _. HasNoFault version classes text) }
    ensures flawed { (text : List ℕ)
        → IsTakenApart text parts.entry.statement parts.entry.rest.now
        → IfErr result (λ flaw. IsFaultOf version classes text flaw.cause) }
{
    match parts.statement {
        Statement::Silent => Ok(()),
        Statement::Version => past_version(parts.rest),
        Statement::Places => past_one_number(parts.rest, 65535),
        Statement::Class => past_class(parts.rest, classes),
        Statement::Int => past_one_int(parts.rest),
        Statement::Text => past_text(parts.rest),
        Statement::Func => past_func(parts.rest, classes),
        Statement::End => past_all(parts.rest),
        Statement::Entry => past_one_number(parts.rest, 65535),
        Statement::Label => past_all(parts.rest),
        Statement::Instruction(op) => past_instruction(parts, version, op),
        Statement::Unknown => Err(at_first(parts, AsmCause::Word)),
    }
}

/// The first word at which a line of a text of the version with `classes` classes is faulty, whatever the other lines say: one
/// that is unknown, an operation that the version doesn't have, one that is not a number or not one in its range, that is one too
/// many, or one that is missing. Its cause is the line's in each text of the version (`version_in`) with `classes` classes.
/// Nothing only where no cause is: whether the line is refused, and for which cause, depends on the lines before it and after it.
/// So it is with faults in quotes, whose line may be out of order, which counts first, and with order, labels, limits and the
/// entry. One pass over the line, or two.
pub fn flaw_of(line: &str, classes: usize, version: ImageVersion) -> Option<Flaw<'_>>
    ensures { MatchOption result (HasNoFault version classes line.now)
        (λ flaw. IsFaultOf version classes line.now flaw.cause) }
{
    flaw_in(line_of(line), classes, version)
}

/// The same of a line that is taken apart already (`line_of`). Its first word isn't looked for again.
pub fn flaw_in(parts: Line<'_>, classes: usize, version: ImageVersion) -> Option<Flaw<'_>>
    ensures { (text : List ℕ) → IsTakenApart text parts.entry.statement parts.entry.rest.now
        → MatchOption result (HasNoFault version classes text)
        (λ flaw. IsFaultOf version classes text flaw.cause) }
{
    past_line(parts, classes, version).err()
}
