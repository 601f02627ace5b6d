//! The image that a text spells.

ghost use Rattle.std.specs.Prelude.{◌≡◌, ◌≢◌, Ok, IfOk, IfErr};
ghost use Rattle.x10_model.specs.Modules as model;
ghost use Rattle.x10_model.specs.Modules.{FitsImage};
ghost use Rattle.x10_image.specs.Written.{shown};
ghost use Rattle.x10_asm.specs.declared.fault.AsmCause.TheVariants.{Memory};
ghost use Rattle.x10_asm.specs.Lines.{lines, words};
ghost use Rattle.x10_asm.specs.Statements.{statement_in};
ghost use Rattle.x10_asm.specs.Reading as reading;
ghost use Rattle.x10_asm.specs.Reading.{module_of};
ghost use Rattle.x10_asm.specs.Listing.{listing};
ghost use Rattle.x10_asm.specs.Sources.{GivesAll, GivesImage, IsImageOf, IsSpelledUnlessMemory};

use crate::fault::{AsmCause, AsmFault};
use crate::source::{Source, nothing_read};
use crate::split::{after_spaces, begins, next_line, next_word};
use crate::stage::is_finished;
use crate::statement::{Line, Statement, line_of};
use std::alloc::Global;
use x10_image::{ImageFault, Module, write};
use x10_model::ImageVersion;

/// Whether the first word of a line is a class's.
fn names_class(line: &str) -> bool
    ensures { result ≡ reading.is_class (statement_in (words line.now)) }
{
    match next_word(line) {
        Some((word, _)) => word == "class",
        None => false,
    }
}

/// Whether a line is a class's: by its first word, which is only looked for where the first byte is that of `class`.
fn is_class(line: &str) -> bool
    ensures { result ≡ reading.is_class (statement_in (words line.now)) }
{
    begins(after_spaces(line), b'c') && names_class(line)
}

/// How many lines of a text are classes. One pass.
pub fn classes_in(text: &str) -> usize
    ensures { result ≡ reading.classes_in (lines text.now) }
{
    let mut count = 0;
    let mut rest = text;
    while let Some((line, after)) = next_line(rest) {
        if is_class(line) {
            count += 1;
        }
        rest = after;
    }
    count
}

/// The version of the image that a text spells, if it spells one: 2 where the first line that says something begins with the word
/// `version`, else 1. One pass up to that line; takes no memory.
pub fn version_in(text: &str) -> ImageVersion
    ensures { result ≡ reading.version_in (lines text.now) }
{
    let mut rest = text;
    while let Some((line, after)) = next_line(rest) {
        match line_of(line).statement {
            Statement::Silent => rest = after,
            Statement::Version => return ImageVersion::Two,
            _ => return ImageVersion::One,
        }
    }
    ImageVersion::One
}

/// The fault of a line; lack of memory is no line's fault.
fn fault_at(line: usize, cause: AsmCause) -> AsmFault
    ensures line { cause ≢ Memory → result ≡ reading.fault_at line cause }
    ensures cause { result.cause ≡ cause }
    ensures memory { cause ≡ Memory → result.line ≡ 0 }
{
    let line = if cause == AsmCause::Memory { 0 } else { line };
    AsmFault { line, cause }
}

/// The module that a text spells, in two passes over it, one for the number of classes. The lines of a
/// function are passed a third time, for its labels.
#[tactic(auto, unfolding(crate::specs::Reading::module_of))]
fn module_in(alloc: Global, text: &str) -> Result<Module, AsmFault>
    ensures exact { GivesAll shown result (module_of text.now) }
    ensures memory { IfErr result (λ e. e.cause ≡ Memory → e.line ≡ 0) }
{
    let classes = classes_in(text);
    let mut source = nothing_read(alloc);
    let mut number = 1;
    let mut rest = text;
    while let Some((line, after)) = next_line(rest) {
        if let Err(cause) = source.take(alloc, classes, number, line, after) {
            return Err(fault_at(number, cause));
        }
        number += 1;
        rest = after;
    }
    let Source { stage, so_far, .. } = source;
    if !is_finished(stage) {
        return Err(fault_at(number, AsmCause::Order));
    }
    Ok(so_far)
}

/// The image of the module that a text spells. A module that was read has an image, so writing it is refused only for lack of
/// memory.
fn image_in(alloc: Global, text: &str) -> Result<Vec<u8>, AsmFault>
    ensures exact { GivesImage (λ v. v.items) result (module_of text.now) }
    ensures found { IfOk result (λ v. IsImageOf v.items (module_of text.now)) }
    ensures memory { IfErr result (λ e. e.cause ≡ Memory → e.line ≡ 0) }
{
    let module = module_in(alloc, text)?;
    match write(alloc, &module) {
        Ok(image) => Ok(image),
        Err(fault) => match fault {
            ImageFault::Memory => Err(fault_at(0, AsmCause::Memory)),
            _ => unreachable!(),
        },
    }
}

/// The image of the module that a text spells. Otherwise the first line that has a fault, counted from 1, and on it the first
/// cause in the order of `AsmCause`; a missing `end` or `entry` names the line after the last. Linear in the text, except for
/// looking up labels, which takes the logarithm of their number; the memory is that of the module and its image, and of a
/// function's labels.
pub fn assemble(alloc: Global, text: &str) -> Result<Vec<u8>, AsmFault>
    ensures found { IfOk result (λ v. IsImageOf v.items (module_of text.now)) }
    ensures only { (m : model.Module) → module_of text.now ≡ Ok m
        → IsSpelledUnlessMemory (λ v. v.items) result m }
    ensures listed { (m : model.Module) → FitsImage m → text.now ≡ listing m
        → IsSpelledUnlessMemory (λ v. v.items) result m }
    ensures exact { GivesImage (λ v. v.items) result (module_of text.now) }
    ensures memory { IfErr result (λ e. e.cause ≡ Memory → e.line ≡ 0) }
{
    image_in(alloc, text)
}
