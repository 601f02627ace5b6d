//! Kinds as words. A number of classes says which classes are there.

ghost use Rattle.std.specs.Prelude.{◌≡◌, not};
ghost use Rattle.x10_asm.specs.Lines.{words};
ghost use Rattle.x10_asm.specs.Kinds as kinds;
ghost use Rattle.x10_asm.specs.Kinds.{each, are_known};
ghost use Rattle.x10_asm.specs.Checks.{Gives};

use crate::fault::AsmCause;
use crate::number::number;
use crate::split::{next_word, stripped};
use std::alloc::Global;
use x10_kinds::Kind;
use x10_model::Slot;

fn class_of(word: &str, classes: usize) -> Result<u16, AsmCause>
    ensures { result ≡ kinds.class_of classes word.now }
{
    let class = number(word, 65535)? as u16;
    if usize::from(class) < classes {
        Ok(class)
    } else {
        Err(AsmCause::Number)
    }
}

fn plain(kind: Kind) -> Slot
    ensures { result ≡ kinds.plain kind }
{
    Slot {
        kind,
        home_here: false,
    }
}

/// A kind with a class, or one whose home is here.
fn reference_of(word: &str, classes: usize) -> Result<Slot, AsmCause>
    ensures { result ≡ kinds.reference_of classes word.now }
{
    if let Some(class) = stripped(word, "obj:") {
        return Ok(plain(Kind::Obj(class_of(class, classes)?)));
    }
    if let Some(class) = stripped(word, "opt:") {
        return Ok(plain(Kind::Opt(class_of(class, classes)?)));
    }
    if let Some(class) = stripped(word, "gref:") {
        return Ok(plain(Kind::GRef(class_of(class, classes)?)));
    }
    if let Some(class) = stripped(word, "here:") {
        let kind = Kind::GRef(class_of(class, classes)?);
        return Ok(Slot {
            kind,
            home_here: true,
        });
    }
    Err(AsmCause::Word)
}

/// The kind of a parameter.
#[tactic(auto, unfolding(crate::specs::Kinds::slot_of))]
pub fn slot_of(word: &str, classes: usize) -> Result<Slot, AsmCause>
    ensures { result ≡ kinds.slot_of classes word.now }
{
    if word == "int" {
        return Ok(plain(Kind::Int));
    }
    if word == "place" {
        return Ok(plain(Kind::Place));
    }
    if word == "text" {
        return Ok(plain(Kind::Text));
    }
    if word == "rail" {
        return Ok(plain(Kind::Rail));
    }
    reference_of(word, classes)
}

/// The kind of a field, which has no home flag.
#[tactic(auto, unfolding(crate::specs::Kinds::field_of))]
pub fn field_of(word: &str, classes: usize) -> Result<Kind, AsmCause>
    ensures { result ≡ kinds.field_of classes word.now }
{
    if stripped(word, "here:").is_some() {
        return Err(AsmCause::Word);
    }
    let slot = slot_of(word, classes)?;
    Ok(slot.kind)
}

/// The kind of a result, which may be none.
#[tactic(auto, unfolding(crate::specs::Kinds::result_of))]
pub fn result_of(word: &str, classes: usize) -> Result<Option<Slot>, AsmCause>
    ensures { result ≡ kinds.result_of classes word.now }
{
    if word == "none" {
        return Ok(None);
    }
    Ok(Some(slot_of(word, classes)?))
}

/// Whether a word is the kind of a result, its class aside.
pub fn result_is_known(word: &str, classes: usize) -> bool
    ensures { result ≡ not (kinds.is_unknown (kinds.result_of classes word.now)) }
{
    !matches!(result_of(word, classes), Err(AsmCause::Word))
}

/// Whether each word of a line is the kind of a field, its class aside.
pub fn are_fields(line: &str, classes: usize) -> bool
    ensures { result ≡ are_known (kinds.field_of classes) (words line.now) }
{
    let mut rest = line;
    while let Some((word, after)) = next_word(rest) {
        if matches!(field_of(word, classes), Err(AsmCause::Word)) {
            return false;
        }
        rest = after;
    }
    true
}

/// Whether each word of a line is the kind of a parameter, its class aside.
pub fn are_slots(line: &str, classes: usize) -> bool
    ensures { result ≡ are_known (kinds.slot_of classes) (words line.now) }
{
    let mut rest = line;
    while let Some((word, after)) = next_word(rest) {
        if matches!(slot_of(word, classes), Err(AsmCause::Word)) {
            return false;
        }
        rest = after;
    }
    true
}

/// The kinds of fields that the words of a line spell.
pub fn fields_of(alloc: Global, line: &str, classes: usize) -> Result<Vec<Kind>, AsmCause>
    ensures { Gives (λ v. v.items) result (each (kinds.field_of classes) (words line.now)) }
{
    let mut fields = Vec::new(alloc);
    let mut rest = line;
    while let Some((word, after)) = next_word(rest) {
        let field = field_of(word, classes)?;
        fields.push(field)?;
        rest = after;
    }
    Ok(fields)
}

/// The kinds of parameters that the words of a line spell.
pub fn slots_of(alloc: Global, line: &str, classes: usize) -> Result<Vec<Slot>, AsmCause>
    ensures { Gives (λ v. v.items) result (each (kinds.slot_of classes) (words line.now)) }
{
    let mut slots = Vec::new(alloc);
    let mut rest = line;
    while let Some((word, after)) = next_word(rest) {
        let slot = slot_of(word, classes)?;
        slots.push(slot)?;
        rest = after;
    }
    Ok(slots)
}
