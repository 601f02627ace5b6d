//! Writing the image of a source.

ghost use Rattle.std.specs.Prelude.{◌≡◌, ◌++◌, ◌<◌, ◌≤◌, ◌⊎◌, IfOk, IfErr, OnOk, length, nat_le, ◌^◌};
ghost use Rattle.std.specs.Result.{IsOkUnless};
ghost use Rattle.std.specs.List.{flat_map, AllByRecursion, list_all};
ghost use Rattle.std.specs.Prelude.{IsTrue, FitsSigned, true};
ghost use Rattle.std.specs.Int.{w16, w64, to_be_bytes};
ghost use Rattle.std.specs.String.{string_bytes};
ghost use Rattle.x10_code.specs.Spelling.{fits_form, spelling as instruction};
ghost use Rattle.x10_model.specs.Images as images;
ghost use Rattle.x10_model.specs.Images.{tag_of, kind_bytes, slot_bytes, result_bytes, class_bytes, int_bytes, text_bytes, function_bytes, header_bytes, spelling};
ghost use Rattle.x10_model.specs.Modules.{FitsImage};
ghost use Rattle.x10_image.specs.declared.fault.ImageFault.TheVariants.{Memory};
ghost use Rattle.x10_image.specs.Headers.{seen};
ghost use Rattle.x10_image.specs.Written as written;
ghost use Rattle.x10_image.specs.Written.{shown, function_shown, NothingHinders, Hinders};

use crate::fault::ImageFault;
use crate::fitting::check;
use crate::header::{Header, MAGIC, number_of};
use crate::module::{Function, Module};
use std::alloc::{AllocError, Global};
use x10_code::{Instr, encode};
use x10_kinds::Kind;
use x10_model::Slot;

fn tag_of(kind: Kind) -> u8
    ensures { result ≡ images.tag_of kind }
{
    match kind {
        Kind::Int => 1,
        Kind::Place => 2,
        Kind::Text => 3,
        Kind::Rail => 4,
        Kind::Obj(_) => 5,
        Kind::Opt(_) => 6,
        Kind::GRef(_) => 7,
    }
}

fn class_of(kind: Kind) -> u16
    ensures { result ≡ images.class_of kind }
{
    match kind {
        Kind::Obj(class) | Kind::Opt(class) | Kind::GRef(class) => class,
        _ => 0,
    }
}

#[tactic(auto, unfolding(x10_model::specs::Images::kind_bytes))]
fn push_kind(out: &mut Vec<u8>, kind: Kind) -> Result<(), AllocError>
    ensures { OnOk result (out.new.items ≡ out.old.items ++ kind_bytes kind) }
{
    out.push(tag_of(kind))?;
    out.extend_from_slice(&class_of(kind).to_be_bytes())?;
    Ok(())
}

#[tactic(auto, unfolding(x10_model::specs::Images::slot_bytes))]
fn push_slot(out: &mut Vec<u8>, slot: Slot) -> Result<(), AllocError>
    ensures { OnOk result (out.new.items ≡ out.old.items ++ slot_bytes slot) }
{
    push_kind(out, slot.kind)?;
    out.push(u8::from(slot.home_here))?;
    Ok(())
}

#[tactic(auto, unfolding(x10_model::specs::Images::result_bytes))]
fn push_result(out: &mut Vec<u8>, slot: Option<Slot>) -> Result<(), AllocError>
    ensures { OnOk result (out.new.items ≡ out.old.items ++ result_bytes slot) }
{
    match slot {
        None => out.extend_from_slice(&[0, 0, 0, 0]),
        Some(slot) => push_slot(out, slot),
    }
}

fn push_fields(out: &mut Vec<u8>, fields: &[Kind]) -> Result<(), AllocError>
    ensures { OnOk result (out.new.items ≡ out.old.items ++ flat_map kind_bytes fields.now) }
{
    for kind in fields {
        push_kind(out, *kind)?;
    }
    Ok(())
}

fn push_slots(out: &mut Vec<u8>, slots: &[Slot]) -> Result<(), AllocError>
    ensures { OnOk result (out.new.items ≡ out.old.items ++ flat_map slot_bytes slots.now) }
{
    for slot in slots {
        push_slot(out, *slot)?;
    }
    Ok(())
}

#[tactic(auto, unfolding(x10_model::specs::Images::class_bytes))]
fn push_class(out: &mut Vec<u8>, fields: &[Kind]) -> Result<(), AllocError>
    requires { length fields.now ≤ 16 }
    ensures { OnOk result (out.new.items ≡ out.old.items ++ class_bytes fields.now) }
{
    out.push(fields.len() as u8)?;
    push_fields(out, fields)?;
    Ok(())
}

#[tactic(auto, unfolding(x10_model::specs::Images::text_bytes))]
fn push_text(out: &mut Vec<u8>, text: &str) -> Result<(), AllocError>
    requires { length text.now < 2 ^ 16 }
    ensures { OnOk result (out.new.items ≡ out.old.items ++ text_bytes text.now) }
{
    out.extend_from_slice(&(text.len() as u16).to_be_bytes())?;
    out.extend_from_slice(text.as_bytes())?;
    Ok(())
}

fn push_code(out: &mut Vec<u8>, code: &[Instr]) -> Result<(), AllocError>
    requires { list_all fits_form code.now ≡ true }
    ensures { OnOk result (out.new.items ≡ out.old.items ++ flat_map instruction code.now) }
{
    for instr in code {
        out.extend_from_slice(&encode(*instr))?;
    }
    Ok(())
}

fn push_int(out: &mut Vec<u8>, int: &i64) -> Result<(), AllocError>
    ensures bytes { OnOk result (out.new.items ≡ out.old.items ++ int_bytes int.now) }
    ensures fits { FitsSigned w64 int.now }
{
    out.extend_from_slice(&int.cast_unsigned().to_be_bytes())?;
    Ok(())
}

fn push_ints(out: &mut Vec<u8>, ints: &[i64]) -> Result<(), AllocError>
    ensures bytes { OnOk result (out.new.items ≡ out.old.items ++ flat_map int_bytes ints.now) }
    ensures fits { OnOk result (AllByRecursion (FitsSigned w64) ints.now) }
{
    for int in ints {
        push_int(out, int)?;
    }
    Ok(())
}

#[tactic(auto, unfolding(x10_model::specs::Images::function_bytes))]
fn push_function(out: &mut Vec<u8>, function: &Function) -> Result<(), AllocError>
    requires counts { written.counts_of_function (function_shown function.now) ≡ true }
    requires code { list_all fits_form function.now.code.items ≡ true }
    ensures { OnOk result (out.new.items ≡ out.old.items
        ++ function_bytes (function_shown function.now)) }
{
    out.extend_from_slice(&[
        function.parameters.len() as u8,
        function.registers,
        function.loops,
        0,
    ])?;
    push_slots(out, &function.parameters)?;
    push_result(out, function.result)?;
    out.extend_from_slice(&(function.code.len() as u16).to_be_bytes())?;
    out.extend_from_slice(&[0, 0])?;
    push_code(out, &function.code)?;
    Ok(())
}

fn push_numbers(out: &mut Vec<u8>, numbers: &[u16]) -> Result<(), AllocError>
    ensures { OnOk result (out.new.items ≡ out.old.items
        ++ flat_map (to_be_bytes w16) numbers.now) }
{
    for number in numbers {
        out.extend_from_slice(&number.to_be_bytes())?;
    }
    Ok(())
}

#[tactic(auto, unfolding(x10_model::specs::Images::header_bytes))]
fn push_header(out: &mut Vec<u8>, header: Header) -> Result<(), AllocError>
    ensures { OnOk result (out.new.items ≡ out.old.items ++ header_bytes (seen header)) }
{
    let Header {
        version,
        least_places,
        classes,
        ints,
        texts,
        functions,
        entry,
    } = header;
    out.extend_from_slice(&MAGIC.to_be_bytes())?;
    push_numbers(
        out,
        &[
            number_of(version),
            least_places,
            classes,
            ints,
            texts,
            functions,
            entry,
            0,
        ],
    )?;
    Ok(())
}

fn push_classes(out: &mut Vec<u8>, classes: &[Vec<Kind>]) -> Result<(), AllocError>
    requires { list_all (λ c. nat_le (length c.items) 16) classes.now ≡ true }
    ensures { OnOk result (out.new.items ≡ out.old.items
        ++ flat_map (λ c. class_bytes c.items) classes.now) }
{
    for fields in classes {
        push_class(out, fields)?;
    }
    Ok(())
}

fn push_texts(out: &mut Vec<u8>, texts: &[String]) -> Result<(), AllocError>
    requires { list_all (λ t. written.text_fits (string_bytes t)) texts.now ≡ true }
    ensures { OnOk result (out.new.items ≡ out.old.items
        ++ flat_map (λ t. text_bytes (string_bytes t)) texts.now) }
{
    for text in texts {
        push_text(out, text.as_str())?;
    }
    Ok(())
}

fn push_functions(out: &mut Vec<u8>, functions: &[Function]) -> Result<(), AllocError>
    requires counts { list_all (λ f. written.counts_of_function (function_shown f)) functions.now
        ≡ true }
    requires code { list_all (λ f. list_all fits_form f.code.items) functions.now ≡ true }
    ensures { OnOk result (out.new.items ≡ out.old.items
        ++ flat_map (λ f. function_bytes (function_shown f)) functions.now) }
{
    for function in functions {
        push_function(out, function)?;
    }
    Ok(())
}

fn header(source: &Module) -> Header
    requires { written.tables_fit source.now ≡ true }
    ensures { seen result ≡ record {
      version = source.now.version;
      least_places = source.now.least_places;
      classes = length source.now.classes.items;
      ints = length source.now.ints.items;
      texts = length source.now.texts.items;
      functions = length source.now.functions.items;
      entry = source.now.entry;
    } }
{
    Header {
        version: source.version,
        least_places: source.least_places,
        classes: source.classes.len() as u16,
        ints: source.ints.len() as u16,
        texts: source.texts.len() as u16,
        functions: source.functions.len() as u16,
        entry: source.entry,
    }
}

fn spelled(alloc: Global, source: &Module) -> Result<Vec<u8>, AllocError>
    requires { NothingHinders source.now }
    ensures value { IfOk result (λ v. v.items ≡ spelling (shown source.now)) }
    ensures fits { OnOk result (AllByRecursion (FitsSigned w64) source.now.ints.items) }
{
    let mut out = Vec::new(alloc);
    push_header(&mut out, header(source))?;
    push_classes(&mut out, &source.classes)?;
    push_ints(&mut out, &source.ints)?;
    push_texts(&mut out, &source.texts)?;
    push_functions(&mut out, &source.functions)?;
    Ok(out)
}

/// The image of a module: its one spelling. A fault is one that prevents an image; where several do, the first of Count, Kind,
/// Code, Entry. Two passes over the module; takes the memory of the image.
pub fn write(alloc: Global, source: &Module) -> Result<Vec<u8>, ImageFault>
    ensures spelled { IfOk result (λ v. FitsImage (shown source.now)
        × (v.items ≡ spelling (shown source.now))) }
    ensures only { FitsImage (shown source.now) → IsOkUnless result Memory }
    ensures fault { IfErr result (λ e. Hinders e source.now ⊎ (e ≡ Memory)) }
{
    check(source)?;
    Ok(spelled(alloc, source)?)
}
