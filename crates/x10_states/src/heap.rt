//! What the activities of a place share.
ghost use Rattle.std.specs.Prelude.{◌≡◌, ◌<◌, ◌++◌, OnOk, Some, decimal, length, slice_get, slice_index};
ghost use Rattle.std.specs.String.{string_bytes};
ghost use Rattle.x10_heap.specs.Heaps.{ObjectState};
ghost use Rattle.x10_states.specs.Json.{comma, elements};
ghost use Rattle.x10_states.specs.Objects.{export_text, field_kind, numbers_text, object_text};
ghost use Rattle.x10_states.specs.Values.{word_json};

use crate::json::push_comma;
use crate::values::push_word;
use std::alloc::{AllocError, Global};
use std::fmt::Write;
use x10_heap::{Export, Heap};
use x10_image::ImageView;
use x10_kinds::Kind;

/// The kind of a field of a class; none where there is no such field.
fn field_kind(image: &ImageView, class: u16, field: usize) -> Option<Kind>
    ensures { result ≡ field_kind image.now.classes class field }
{
    let class = usize::from(class);
    if class >= image.classes() {
        return None;
    }
    let kinds = image.class(class);
    if field >= kinds.len() {
        return None;
    }
    Some(kinds.field(field))
}

/// Pushes a field's word, with a comma before all but the first.
fn push_field(
    alloc: Global,
    out: &mut String,
    image: &ImageView,
    heap: &Heap,
    class: u16,
    fields: &[u64],
    field: usize,
) -> Result<(), AllocError>
    requires { field < length fields.now }
    ensures { OnOk result (string_bytes out.new ≡ string_bytes out.old ++ (comma field
        ++ word_json heap.now (field_kind image.now.classes class field)
        (slice_index fields.now field))) }
{
    push_comma(out, field)?;
    push_word(
        alloc,
        out,
        heap,
        field_kind(image, class, field),
        fields[field],
    )
}

fn push_fields(
    alloc: Global,
    out: &mut String,
    image: &ImageView,
    heap: &Heap,
    class: u16,
    fields: &[u64],
) -> Result<(), AllocError>
    ensures { OnOk result (string_bytes out.new ≡ string_bytes out.old
        ++ elements (length fields.now) (λ i. word_json heap.now
        (field_kind image.now.classes class i) (slice_index fields.now i))) }
{
    for i in 0..fields.len() {
        push_field(alloc, out, image, heap, class, fields, i)?;
    }
    Ok(())
}

/// Pushes an object: its class, and its fields by the kinds of that class. Linear in the fields and their texts.
pub fn push_object(
    alloc: Global,
    out: &mut String,
    image: &ImageView,
    heap: &Heap,
    object: u32,
) -> Result<(), AllocError>
    requires { object < length heap.now.objects }
    ensures { (o : ObjectState) → slice_get heap.now.objects object ≡ Some o
        → OnOk result (string_bytes out.new
        ≡ string_bytes out.old ++ object_text image.now.classes heap.now o) }
{
    let class = heap.class(object);
    write!(out, "[{class},[")?;
    push_fields(alloc, out, image, heap, class, heap.fields(object))?;
    out.push_str("]]")
}

fn push_byte(out: &mut String, at: usize, byte: u8) -> Result<(), AllocError>
    ensures { OnOk result (string_bytes out.new
        ≡ string_bytes out.old ++ (comma at ++ decimal byte)) }
{
    push_comma(out, at)?;
    write!(out, "{byte}")
}

fn push_bytes(out: &mut String, bytes: &[u8]) -> Result<(), AllocError>
    ensures { OnOk result (string_bytes out.new ≡ string_bytes out.old
        ++ elements (length bytes.now) (λ i. decimal (slice_index bytes.now i))) }
{
    for i in 0..bytes.len() {
        push_byte(out, i, bytes[i])?;
    }
    Ok(())
}

/// Pushes the bytes of a rail, as a list of numbers. Linear.
#[tactic(auto, unfolding(crate::specs::Objects::numbers_text))]
pub fn push_rail(out: &mut String, bytes: &[u8]) -> Result<(), AllocError>
    ensures { OnOk result (string_bytes out.new ≡ string_bytes out.old ++ numbers_text bytes.now) }
{
    out.push('[')?;
    push_bytes(out, bytes)?;
    out.push(']')
}

/// Pushes an object that global references name: its class and its number.
pub fn push_export(out: &mut String, export: Export) -> Result<(), AllocError>
    ensures { OnOk result (string_bytes out.new ≡ string_bytes out.old ++ export_text export) }
{
    let Export { class, object } = export;
    write!(out, "[{class},{object}]")
}
