//! Whether a module has an image.

ghost use Rattle.std.specs.Prelude.{◌≡◌, ◌&&◌, ◌^◌, length, nat_lt, nat_le, slice_get, map, true, false, ◌<◌, Some, MatchOption, OnOk, IfErr};
ghost use Rattle.std.specs.List.{list_all};
ghost use Rattle.x10_image.specs.declared.module.Function.{Function};
ghost use Rattle.x10_code.specs.declared.instr.Instr.{Instr};
ghost use Rattle.std.specs.String.{string_bytes};
ghost use Rattle.x10_model.specs.ReadingImages.{is_within, is_entry};
ghost use Rattle.x10_image.specs.Written as written;
ghost use Rattle.x10_image.specs.Written.{function_shown, NothingHinders, Hinders};

use crate::fault::ImageFault;
use crate::known::is_known;
use crate::module::{Function, Module};
use x10_code::{Instr, has_spelling};
use x10_kinds::Kind;
use x10_model::limits::{
    MOST_BYTES, MOST_ENTRIES, MOST_FIELDS, MOST_FUNCTIONS, MOST_INSTRUCTIONS, MOST_LOOPS,
    MOST_PARAMETERS, MOST_PLACES, MOST_REGISTERS,
};
use x10_model::{ImageVersion, Slot};

fn names_below(classes: usize, kind: Kind) -> bool
    ensures { result ≡ written.names_below classes kind }
{
    match kind {
        Kind::Obj(class) | Kind::Opt(class) | Kind::GRef(class) => usize::from(class) < classes,
        _ => true,
    }
}

fn fields_fit(classes: usize, fields: &[Kind]) -> bool
    ensures { result ≡ list_all (written.names_below classes) fields.now }
{
    fields.iter().all(|kind| names_below(classes, *kind))
}

fn slot_fits(classes: usize, slot: Slot) -> bool
    ensures { result ≡ written.slot_fits classes slot }
{
    names_below(classes, slot.kind) && (!slot.home_here || matches!(slot.kind, Kind::GRef(_)))
}

fn slots_fit(classes: usize, slots: &[Slot]) -> bool
    ensures { result ≡ list_all (written.slot_fits classes) slots.now }
{
    slots.iter().all(|slot| slot_fits(classes, *slot))
}

fn result_fits(classes: usize, result_slot: Option<Slot>) -> bool
    ensures { result ≡ written.result_fits classes result_slot }
{
    match result_slot {
        None => true,
        Some(slot) => slot_fits(classes, slot),
    }
}

fn kinds_of_function_fit(classes: usize, function: &Function) -> bool
    ensures { result ≡ written.kinds_of_function classes (function_shown function.now) }
{
    slots_fit(classes, &function.parameters) && result_fits(classes, function.result)
}

fn classes_fit(count: usize, classes: &[Vec<Kind>]) -> bool
    ensures { result ≡ list_all (λ c. list_all (written.names_below count) c.items) classes.now }
{
    classes.iter().all(|fields| fields_fit(count, fields))
}

fn signatures_fit(classes: usize, functions: &[Function]) -> bool
    ensures { result ≡ list_all (λ f. written.kinds_of_function classes (function_shown f))
        functions.now }
{
    functions
        .iter()
        .all(|function| kinds_of_function_fit(classes, function))
}

/// Whether every kind names a class that is there, and only global references have a home flag.
fn kinds_fit(source: &Module) -> bool
    ensures { result ≡ written.kinds_fit source.now }
{
    let classes = source.classes.len();
    classes_fit(classes, &source.classes) && signatures_fit(classes, &source.functions)
}

fn text_fits(text: &str) -> bool
    ensures { result ≡ written.text_fits text.now }
{
    text.len() <= usize::from(MOST_BYTES)
}

/// Whether a function has as many registers, loop slots and parameters as a function may have.
pub fn signature_fits(function: &Function) -> bool
    ensures value { result ≡ written.signature_fits (function_shown function.now) }
{
    let parameters = function.parameters.len();
    (1..=MOST_REGISTERS).contains(&function.registers)
        && parameters <= usize::from(function.registers)
        && function.loops <= MOST_LOOPS
        && parameters <= usize::from(MOST_PARAMETERS)
}

fn counts_of_function_fit(function: &Function) -> bool
    ensures { result ≡ written.counts_of_function (function_shown function.now) }
{
    signature_fits(function) && (1..=usize::from(MOST_INSTRUCTIONS)).contains(&function.code.len())
}

fn classes_are_short(classes: &[Vec<Kind>]) -> bool
    ensures { result ≡ list_all (λ c. nat_le (length c.items) 16) classes.now }
{
    classes
        .iter()
        .all(|fields| fields.len() <= usize::from(MOST_FIELDS))
}

fn texts_fit(texts: &[String]) -> bool
    ensures { result ≡ list_all (λ t. written.text_fits (string_bytes t)) texts.now }
{
    texts.iter().all(|text| text_fits(text.as_str()))
}

fn counts_of_functions_fit(functions: &[Function]) -> bool
    ensures { result ≡ list_all (λ f. written.counts_of_function (function_shown f)) functions.now }
{
    functions
        .iter()
        .all(|function| counts_of_function_fit(function))
}

/// Whether the numbers of the header are in their ranges.
fn tables_fit(source: &Module) -> bool
    ensures { result ≡ written.tables_fit source.now }
{
    (1..=MOST_PLACES).contains(&source.least_places)
        && source.classes.len() <= usize::from(MOST_ENTRIES)
        && source.ints.len() <= usize::from(MOST_ENTRIES)
        && source.texts.len() <= usize::from(MOST_ENTRIES)
        && (1..=usize::from(MOST_FUNCTIONS)).contains(&source.functions.len())
}

/// Whether the numbers of the classes, texts and functions are in their ranges.
fn items_fit(source: &Module) -> bool
    ensures { result ≡ written.items_fit source.now }
{
    classes_are_short(&source.classes)
        && texts_fit(&source.texts)
        && counts_of_functions_fit(&source.functions)
}

fn instr_fits(version: ImageVersion, instr: Instr) -> bool
    ensures { result ≡ written.instr_fits version instr }
{
    has_spelling(instr) && is_known(version, instr.op)
}

fn entry_fits(functions: &[Function], entry: u16) -> bool
    ensures { result ≡ is_entry (slice_get (map function_shown functions.now) entry) }
{
    let entry = usize::from(entry);
    if functions.len() <= entry {
        return false;
    }
    let function = &functions[entry];
    function.parameters.is_empty() && function.result.is_none()
}

/// The first instruction that an image of the version can't have.
fn bad_instr(version: ImageVersion, code: &[Instr]) -> Option<usize>
    ensures { MatchOption result (list_all (written.instr_fits version) code.now ≡ true)
        (λ pc. (pc < length code.now) × (i : Instr) × (slice_get code.now pc ≡ Some i)
        × (written.instr_fits version i ≡ false)) }
{
    for (pc, instr) in code.iter().enumerate() {
        if !instr_fits(version, *instr) {
            return Some(pc);
        }
    }
    None
}

/// The first function with such an instruction, and the instruction's number there.
fn bad_function(version: ImageVersion, functions: &[Function]) -> Option<(usize, usize)>
    ensures { MatchOption result (list_all (λ f.
        list_all (written.instr_fits version) f.code.items) functions.now ≡ true)
        (λ at. (at.0 < length functions.now) × (f : Function)
        × (slice_get functions.now at.0 ≡ Some f) × (at.1 < length f.code.items) × (i : Instr)
        × (slice_get f.code.items at.1 ≡ Some i) × (written.instr_fits version i ≡ false)) }
{
    for (number, function) in functions.iter().enumerate() {
        if let Some(pc) = bad_instr(version, &function.code) {
            return Some((number, pc));
        }
    }
    None
}

/// Whether a module has an image, or the first of Count, Kind, Code and Entry that prevents it.
pub fn check(source: &Module) -> Result<(), ImageFault>
    ensures passes { OnOk result (NothingHinders source.now) }
    ensures fault { IfErr result (λ e. Hinders e source.now) }
{
    if !tables_fit(source) || !items_fit(source) {
        return Err(ImageFault::Count);
    }
    if !kinds_fit(source) {
        return Err(ImageFault::Kind);
    }
    if let Some((function, pc)) = bad_function(source.version, &source.functions) {
        return Err(ImageFault::Code(function as u16, pc as u16));
    }
    if !entry_fits(&source.functions, source.entry) {
        return Err(ImageFault::Entry);
    }
    Ok(())
}
