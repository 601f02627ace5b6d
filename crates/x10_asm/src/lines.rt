//! Lines, each by what follows its first word: what it says, or the least cause that applies. The checks are in the order of
//! the causes.

ghost use Rattle.std.specs.Prelude.{◌≡◌, ◌≤◌, ◌<◌, ◌^◌, List, true, length, map, slice_get};
ghost use Rattle.std.specs.String.{string_bytes};
ghost use Rattle.x10_model.specs.ReadingImages as images;
ghost use Rattle.x10_image.specs.Written.{function_shown};
ghost use Rattle.x10_asm.specs.Lines.{words};
ghost use Rattle.x10_asm.specs.Lines as spec;
ghost use Rattle.x10_asm.specs.Checks.{Gives};
ghost use Rattle.x10_asm.specs.Labels as labels;
ghost use Rattle.x10_asm.specs.Reading as reading;
ghost use Rattle.x10_asm.specs.Tables.{IsTable};

use crate::fault::AsmCause;
use crate::kind::{are_fields, are_slots, fields_of, result_is_known, result_of, slots_of};
use crate::label::{Table, definition_of, label_name};
use crate::literal::literal;
use crate::number::{no_more, number_at, one_int, one_number};
use crate::split::{after_spaces, next_word};
use crate::stage::{Stage, takes_func, takes_int, takes_text};
use std::alloc::Global;
use x10_image::{Function, signature_fits};
use x10_kinds::Kind;
use x10_model::ImageVersion;
use x10_model::limits::{MOST_ENTRIES, MOST_FIELDS, MOST_FUNCTIONS, MOST_PLACES};

/// The version of the image, by its number, which is 2: a line that stands before all others. `before` is the version so far.
#[tactic(auto, unfolding(crate::specs::Reading::version_of))]
pub fn version_of(stage: Stage, before: ImageVersion, line: &str) -> Result<(), AsmCause>
    ensures { result ≡ reading.version_of stage before (words line.now) }
{
    let (number, rest) = number_at(line, 2)?;
    if number != 2 {
        return Err(AsmCause::Number);
    }
    no_more(rest)?;
    if stage != Stage::Start || before != ImageVersion::One {
        return Err(AsmCause::Order);
    }
    Ok(())
}

/// The least number of places.
#[tactic(auto, unfolding(crate::specs::Reading::places_of))]
pub fn places_of(stage: Stage, line: &str) -> Result<u16, AsmCause>
    ensures { result ≡ reading.places_of stage (words line.now) }
{
    let places = one_number(line, 65535)? as u16;
    if stage != Stage::Start {
        return Err(AsmCause::Order);
    }
    if places < 1 || places > MOST_PLACES {
        return Err(AsmCause::Limit);
    }
    Ok(places)
}

/// The kinds of a class's fields, in a text with `classes` classes, after `before` of them.
#[tactic(auto, unfolding(crate::specs::Reading::class_of))]
pub fn class_of(
    alloc: Global,
    stage: Stage,
    classes: usize,
    before: usize,
    line: &str,
) -> Result<Vec<Kind>, AsmCause>
    ensures { Gives (λ v. v.items) result (reading.class_of stage classes before (words line.now)) }
{
    if !are_fields(line, classes) {
        return Err(AsmCause::Word);
    }
    let fields = fields_of(alloc, line, classes)?;
    if stage != Stage::Classes {
        return Err(AsmCause::Order);
    }
    if fields.len() > usize::from(MOST_FIELDS) || before >= usize::from(MOST_ENTRIES) {
        return Err(AsmCause::Limit);
    }
    Ok(fields)
}

/// A constant number.
#[tactic(auto, unfolding(crate::specs::Reading::int_line_of))]
pub fn int_of(stage: Stage, before: usize, line: &str) -> Result<i64, AsmCause>
    ensures { result ≡ reading.int_line_of stage before (words line.now) }
{
    let int = one_int(line)?;
    if !takes_int(stage) {
        return Err(AsmCause::Order);
    }
    if before >= usize::from(MOST_ENTRIES) {
        return Err(AsmCause::Limit);
    }
    Ok(int)
}

/// A constant text.
#[tactic(auto, unfolding(crate::specs::Reading::text_of))]
pub fn text_of(alloc: Global, stage: Stage, before: usize, line: &str) -> Result<String, AsmCause>
    ensures { Gives string_bytes result (reading.text_of stage before
        (spec.after_spaces line.now)) }
{
    let text = literal(alloc, after_spaces(line));
    match text {
        Err(AsmCause::Count) => return Err(AsmCause::Count),
        Err(AsmCause::Memory) => return Err(AsmCause::Memory),
        _ => {}
    }
    if !takes_text(stage) {
        return Err(AsmCause::Order);
    }
    let text = text?;
    if before >= usize::from(MOST_ENTRIES) {
        return Err(AsmCause::Limit);
    }
    Ok(text)
}

/// Whether the kinds of a function's result and parameters are kinds, their classes aside. They come after two numbers.
fn kinds_are_known(classes: usize, line: &str) -> bool
    ensures { result ≡ reading.kinds_are_known classes (words line.now) }
{
    let Some((_, line)) = next_word(line) else {
        return true;
    };
    let Some((_, line)) = next_word(line) else {
        return true;
    };
    let Some((kind, line)) = next_word(line) else {
        return true;
    };
    result_is_known(kind, classes) && are_slots(line, classes)
}

/// A function without instructions, from what its line says.
fn signature_of(alloc: Global, classes: usize, line: &str) -> Result<Function, AsmCause>
    ensures { Gives function_shown result (reading.signature_of classes (words line.now)) }
{
    let (registers, line) = number_at(line, 255)?;
    let (loops, line) = number_at(line, 255)?;
    let Some((kind, line)) = next_word(line) else {
        return Err(AsmCause::Count);
    };
    let given = result_of(kind, classes)?;
    let parameters = slots_of(alloc, line, classes)?;
    Ok(Function {
        parameters,
        registers: registers as u8,
        loops: loops as u8,
        result: given,
        code: Vec::new(alloc),
    })
}

/// The beginning of a function, in a text with `classes` classes, after `before` functions.
#[tactic(auto, unfolding(crate::specs::Reading::func_of))]
pub fn func_of(
    alloc: Global,
    stage: Stage,
    classes: usize,
    before: usize,
    line: &str,
) -> Result<Function, AsmCause>
    ensures { Gives function_shown result (reading.func_of stage classes before (words line.now)) }
{
    if !kinds_are_known(classes, line) {
        return Err(AsmCause::Word);
    }
    let function = signature_of(alloc, classes, line)?;
    if !takes_func(stage) {
        return Err(AsmCause::Order);
    }
    if !signature_fits(&function) || before >= usize::from(MOST_FUNCTIONS) {
        return Err(AsmCause::Limit);
    }
    Ok(function)
}

/// The end of a function of `count` instructions.
#[tactic(auto, unfolding(crate::specs::Reading::end_of))]
pub fn end_of(stage: Stage, count: usize, line: &str) -> Result<(), AsmCause>
    ensures { result ≡ reading.end_of stage count (words line.now) }
{
    no_more(line)?;
    if stage != Stage::Inside {
        return Err(AsmCause::Order);
    }
    if count == 0 {
        return Err(AsmCause::Limit);
    }
    Ok(())
}

fn is_entry(functions: &[Function], number: usize) -> bool
    ensures { result ≡ images.is_entry (slice_get (map function_shown functions.now) number) }
{
    match functions.get(number) {
        Some(function) => function.parameters.is_empty() && function.result.is_none(),
        None => false,
    }
}

/// The number of the entry function.
#[tactic(auto, unfolding(crate::specs::Reading::entry_of))]
pub fn entry_of(stage: Stage, functions: &[Function], line: &str) -> Result<u16, AsmCause>
    ensures { result ≡ reading.entry_of stage (map function_shown functions.now) (words line.now) }
{
    let entry = one_number(line, 65535)? as u16;
    if !takes_func(stage) {
        return Err(AsmCause::Order);
    }
    if functions.is_empty() {
        return Err(AsmCause::Limit);
    }
    if !is_entry(functions, usize::from(entry)) {
        return Err(AsmCause::Entry);
    }
    Ok(entry)
}

/// Whether a label's name is defined by this line, and by no earlier line of the function.
fn is_defined_at<'a>(table: &Table<'a>, name: &'a str, number: usize) -> bool
    ensures { (all : List labels.Label) → IsTable table.now all
        → result ≡ reading.is_defined_at number (labels.label_of all name.now) }
{
    match definition_of(table, name) {
        Some(definition) => definition.line == number,
        None => false,
    }
}

/// A label, by its name.
#[tactic(auto, unfolding(crate::specs::Reading::label_at))]
pub fn label_at<'a>(
    stage: Stage,
    table: &Table<'a>,
    number: usize,
    word: &'a str,
    line: &str,
) -> Result<(), AsmCause>
    requires { labels.ends_in_colon word.now ≡ true }
    ensures { (all : List labels.Label) → IsTable table.now all
        → result ≡ reading.label_at stage all number word.now (words line.now) }
{
    no_more(line)?;
    if stage != Stage::Inside {
        return Err(AsmCause::Order);
    }
    if !is_defined_at(table, label_name(word), number) {
        return Err(AsmCause::Label);
    }
    Ok(())
}
