//! The listing of an image, line by line.

ghost use Rattle.std.specs.Prelude.{◌≡◌, ℤ, ◌<◌, OnOk, IfOk, ◌++◌, ◌∷◌, [], length, map, slice_get, Some, Ok};
ghost use Rattle.std.specs.String.{string_bytes};
ghost use Rattle.std.specs.List.{flat_map};
ghost use Rattle.x10_code.specs.declared.operands.Operand.{Operand};
ghost use Rattle.x10_model.specs.Modules as model;
ghost use Rattle.x10_model.specs.Ranges.{function_at};
ghost use Rattle.x10_image.specs.Parts.{code_at};
ghost use Rattle.x10_asm.specs.Reading.{module_of};
ghost use Rattle.x10_asm.specs.Listing as text;
ghost use Rattle.x10_asm.specs.Listing.{spaced, kind_word, slot_word, operand_word, operand_words, version_lines, places_line, class_line, int_line, text_line, func_line, instruction_line, end_line, function_lines, entry_line};

use crate::escape::push_quoted;
use crate::words::{push_int, push_kind, push_number, push_result, push_slot};
use std::alloc::{AllocError, Global};
use x10_code::{Instr, Operand, form, name};
use x10_image::{ClassView, ImageView, SigView};
use x10_model::ImageVersion;

/// Pushes the line of the version; an image of version 1 has none.
#[tactic(auto, unfolding(crate::specs::Listing::version_lines))]
pub fn push_version(out: &mut String, version: ImageVersion) -> Result<(), AllocError>
    ensures { OnOk result (string_bytes out.new ≡ string_bytes out.old ++ version_lines version) }
{
    if version == ImageVersion::One {
        return Ok(());
    }
    out.push_str("version")?;
    push_number(out, 2)?;
    out.push('\n')?;
    Ok(())
}

/// Pushes the line of the least number of places.
#[tactic(auto, unfolding(crate::specs::Listing::places_line))]
pub fn push_places(out: &mut String, places: u16) -> Result<(), AllocError>
    ensures { OnOk result (string_bytes out.new ≡ string_bytes out.old ++ places_line places) }
{
    out.push_str("places")?;
    push_number(out, u64::from(places))?;
    out.push('\n')?;
    Ok(())
}

/// Pushes the last line: the number of the entry function.
#[tactic(auto, unfolding(crate::specs::Listing::entry_line))]
pub fn push_entry(out: &mut String, entry: u16) -> Result<(), AllocError>
    ensures { OnOk result (string_bytes out.new ≡ string_bytes out.old ++ entry_line entry) }
{
    out.push_str("entry")?;
    push_number(out, u64::from(entry))?;
    out.push('\n')?;
    Ok(())
}

fn push_kinds(out: &mut String, class: &ClassView<'_>) -> Result<(), AllocError>
    ensures { OnOk result (string_bytes out.new
        ≡ string_bytes out.old ++ flat_map spaced (map kind_word class.now)) }
{
    for i in 0..class.len() {
        push_kind(out, class.field(i))?;
    }
    Ok(())
}

/// Pushes the line of a class.
#[tactic(auto, unfolding(crate::specs::Listing::class_line))]
pub fn push_class(out: &mut String, class: &ClassView<'_>) -> Result<(), AllocError>
    ensures { OnOk result (string_bytes out.new ≡ string_bytes out.old ++ class_line class.now) }
{
    out.push_str("class")?;
    push_kinds(out, class)?;
    out.push('\n')?;
    Ok(())
}

/// Pushes the line of a constant number.
#[tactic(auto, unfolding(crate::specs::Listing::int_line))]
pub fn push_int_line(out: &mut String, int: i64) -> Result<(), AllocError>
    ensures { OnOk result (string_bytes out.new ≡ string_bytes out.old ++ int_line int) }
{
    out.push_str("int")?;
    push_int(out, int)?;
    out.push('\n')?;
    Ok(())
}

/// Pushes the line of a constant text.
#[tactic(auto, unfolding(crate::specs::Listing::text_line))]
pub fn push_text_line(out: &mut String, text: &str) -> Result<(), AllocError>
    ensures { OnOk result (string_bytes out.new ≡ string_bytes out.old ++ text_line text.now) }
{
    out.push_str("text")?;
    push_quoted(out, text)?;
    out.push('\n')?;
    Ok(())
}

fn push_slots(out: &mut String, signature: &SigView<'_>) -> Result<(), AllocError>
    ensures { OnOk result (string_bytes out.new
        ≡ string_bytes out.old ++ flat_map spaced (map slot_word signature.now.parameters)) }
{
    for i in 0..signature.parameters() {
        push_slot(out, signature.parameter(i))?;
    }
    Ok(())
}

/// Pushes the line that begins a function.
#[tactic(auto, unfolding(crate::specs::Listing::func_line))]
pub fn push_func(out: &mut String, signature: &SigView<'_>) -> Result<(), AllocError>
    ensures { OnOk result (string_bytes out.new
        ≡ string_bytes out.old ++ func_line signature.now.registers signature.now.loops
        signature.now.result signature.now.parameters) }
{
    out.push_str("func")?;
    push_number(out, u64::from(signature.registers()))?;
    push_number(out, u64::from(signature.loops()))?;
    push_result(out, signature.result())?;
    push_slots(out, signature)?;
    out.push('\n')?;
    Ok(())
}

fn push_operand(out: &mut String, operand: Operand, value: u32) -> Result<(), AllocError>
    ensures { OnOk result (string_bytes out.new
        ≡ string_bytes out.old ++ flat_map spaced (operand_word operand value)) }
{
    if operand == Operand::Unused {
        return Ok(());
    }
    push_number(out, u64::from(value))
}

#[tactic(auto, unfolding(crate::specs::Listing::operand_words))]
fn push_operands(out: &mut String, instr: Instr) -> Result<(), AllocError>
    ensures { OnOk result (string_bytes out.new
        ≡ string_bytes out.old ++ flat_map spaced (operand_words instr)) }
{
    let form = form(instr.op);
    push_operand(out, form.a, u32::from(instr.a))?;
    push_operand(out, form.b, u32::from(instr.b))?;
    push_operand(out, form.c, u32::from(instr.c))?;
    push_operand(out, form.x, instr.x)?;
    Ok(())
}

/// Pushes the line of an instruction: its name and its operands, and the line's end.
#[tactic(auto, unfolding(crate::specs::Listing::instruction_line))]
pub fn push_instruction(out: &mut String, instr: Instr) -> Result<(), AllocError>
    ensures { OnOk result (string_bytes out.new ≡ string_bytes out.old ++ instruction_line instr) }
{
    out.push_str(name(instr.op))?;
    push_operands(out, instr)?;
    out.push('\n')?;
    Ok(())
}

fn push_code(out: &mut String, image: &ImageView<'_>, f: usize) -> Result<(), AllocError>
    requires { f < length image.now.functions }
    ensures { OnOk result (string_bytes out.new
        ≡ string_bytes out.old ++ flat_map instruction_line (code_at image.now f)) }
{
    for pc in 0..image.code_len(f) {
        push_instruction(out, image.instr(f, pc))?;
    }
    Ok(())
}

/// Pushes the line that ends a function.
#[tactic(auto, unfolding(crate::specs::Listing::end_line))]
pub fn push_end(out: &mut String) -> Result<(), AllocError>
    ensures { OnOk result (string_bytes out.new ≡ string_bytes out.old ++ end_line) }
{
    out.push_str("end\n")?;
    Ok(())
}

#[tactic(auto, unfolding(crate::specs::Listing::function_lines))]
fn push_function(out: &mut String, image: &ImageView<'_>, f: usize) -> Result<(), AllocError>
    requires { f < length image.now.functions }
    ensures { OnOk result ((g : model.Function) × (function_at image.now f ≡ Some g)
        × (string_bytes out.new ≡ string_bytes out.old ++ function_lines g)) }
{
    push_func(out, &image.signature(f))?;
    push_code(out, image, f)?;
    push_end(out)?;
    Ok(())
}

fn push_classes(out: &mut String, image: &ImageView<'_>) -> Result<(), AllocError>
    ensures { OnOk result (string_bytes out.new
        ≡ string_bytes out.old ++ flat_map class_line image.now.classes) }
{
    for c in 0..image.classes() {
        push_class(out, &image.class(c))?;
    }
    Ok(())
}

fn push_int_at(out: &mut String, image: &ImageView<'_>, i: usize) -> Result<(), AllocError>
    requires { i < length image.now.ints }
    ensures { OnOk result ((z : ℤ) × (slice_get image.now.ints i ≡ Some z)
        × (string_bytes out.new ≡ string_bytes out.old ++ int_line z)) }
{
    push_int_line(out, image.int(i))
}

fn push_ints(out: &mut String, image: &ImageView<'_>) -> Result<(), AllocError>
    ensures { OnOk result (string_bytes out.new
        ≡ string_bytes out.old ++ flat_map int_line image.now.ints) }
{
    for i in 0..image.ints() {
        push_int_at(out, image, i)?;
    }
    Ok(())
}

fn push_texts(out: &mut String, image: &ImageView<'_>) -> Result<(), AllocError>
    ensures { OnOk result (string_bytes out.new
        ≡ string_bytes out.old ++ flat_map text_line image.now.texts) }
{
    for i in 0..image.texts() {
        push_text_line(out, image.text(i))?;
    }
    Ok(())
}

fn push_functions(out: &mut String, image: &ImageView<'_>) -> Result<(), AllocError>
    ensures { OnOk result (string_bytes out.new
        ≡ string_bytes out.old ++ flat_map function_lines image.now.functions) }
{
    for f in 0..image.functions() {
        push_function(out, image, f)?;
    }
    Ok(())
}

#[tactic(auto, unfolding(crate::specs::Listing::listing))]
fn whole(alloc: Global, image: &ImageView<'_>) -> Result<String, AllocError>
    ensures { IfOk result (λ s. string_bytes s ≡ text.listing image.now) }
{
    let mut out = String::new(alloc);
    push_version(&mut out, image.version())?;
    push_places(&mut out, image.least())?;
    push_classes(&mut out, image)?;
    push_ints(&mut out, image)?;
    push_texts(&mut out, image)?;
    push_functions(&mut out, image)?;
    push_entry(&mut out, image.entry())?;
    Ok(out)
}

/// The listing of an image's module: its canonical text, which assembles to the same image. One pass
/// over the image; the memory is that of the text.
pub fn list(alloc: Global, image: &ImageView<'_>) -> Result<String, AllocError>
    ensures exact { IfOk result (λ s. string_bytes s ≡ text.listing image.now) }
    ensures again { IfOk result (λ s. module_of (string_bytes s) ≡ Ok image.now) }
{
    image.fits();
    let text = whole(alloc, image)?;
    Ok(text)
}
