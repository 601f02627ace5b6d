//! Texts of all objects, rails, texts and exports of a place.
ghost use Rattle.std.specs.Prelude.{◌≡◌, ◌<◌, IfOk, Some, length, map, slice_get};
ghost use Rattle.std.specs.String.{string_bytes};
ghost use Rattle.x10_heap.specs.declared.export.Export.{Export};
ghost use Rattle.x10_heap.specs.Heaps.{ObjectState};
ghost use Rattle.x10_states.specs.Json.{json};
ghost use Rattle.x10_states.specs.Objects.{export_text, numbers_text, object_text};

use crate::heap::{push_export, push_object, push_rail};
use crate::json::push_json;
use std::alloc::{AllocError, Global};
use x10_heap::Heap;
use x10_image::ImageView;

fn object_at(
    alloc: Global,
    image: &ImageView,
    heap: &Heap,
    object: u32,
) -> Result<String, AllocError>
    requires { object < length heap.now.objects }
    ensures { (o : ObjectState) → slice_get heap.now.objects object ≡ Some o
        → IfOk result (λ text. string_bytes text
        ≡ object_text image.now.classes heap.now o) }
{
    let mut text = String::new(alloc);
    push_object(alloc, &mut text, image, heap, object)?;
    Ok(text)
}

pub(crate) fn object_texts(
    alloc: Global,
    image: &ImageView,
    heap: &Heap,
) -> Result<Vec<String>, AllocError>
    ensures { IfOk result (λ texts. map string_bytes texts.items
        ≡ map (object_text image.now.classes heap.now) heap.now.objects) }
{
    let count = heap.objects();
    let mut texts = Vec::with_capacity(alloc, count)?;
    for i in 0..count {
        texts.push(object_at(alloc, image, heap, i as u32)?)?;
    }
    Ok(texts)
}

fn rail_text(alloc: Global, bytes: &[u8]) -> Result<String, AllocError>
    ensures { IfOk result (λ text. string_bytes text ≡ numbers_text bytes.now) }
{
    let mut text = String::new(alloc);
    push_rail(&mut text, bytes)?;
    Ok(text)
}

pub(crate) fn rail_texts(alloc: Global, heap: &Heap) -> Result<Vec<String>, AllocError>
    ensures { IfOk result (λ texts. map string_bytes texts.items
        ≡ map numbers_text heap.now.rails) }
{
    let count = heap.rails();
    let mut texts = Vec::with_capacity(alloc, count)?;
    for i in 0..count {
        texts.push(rail_text(alloc, heap.rail(i as u32))?)?;
    }
    Ok(texts)
}

fn quoted_text(alloc: Global, quoted: &str) -> Result<String, AllocError>
    ensures { IfOk result (λ text. string_bytes text ≡ json quoted.now) }
{
    let mut text = String::new(alloc);
    push_json(&mut text, quoted)?;
    Ok(text)
}

pub(crate) fn text_texts(alloc: Global, heap: &Heap) -> Result<Vec<String>, AllocError>
    ensures { IfOk result (λ texts. map string_bytes texts.items ≡ map json heap.now.texts) }
{
    let count = heap.texts();
    let mut texts = Vec::with_capacity(alloc, count)?;
    for i in 0..count {
        texts.push(quoted_text(alloc, heap.text(i as u32))?)?;
    }
    Ok(texts)
}

fn export_at(alloc: Global, heap: &Heap, id: u32) -> Result<String, AllocError>
    requires { id < length heap.now.exports }
    ensures { (e : Export) → slice_get heap.now.exports id ≡ Some e
        → IfOk result (λ text. string_bytes text ≡ export_text e) }
{
    let mut text = String::new(alloc);
    push_export(&mut text, heap.opened(id))?;
    Ok(text)
}

pub(crate) fn export_texts(alloc: Global, heap: &Heap) -> Result<Vec<String>, AllocError>
    ensures { IfOk result (λ texts. map string_bytes texts.items
        ≡ map export_text heap.now.exports) }
{
    let count = heap.exports();
    let mut texts = Vec::with_capacity(alloc, count)?;
    for i in 0..count {
        texts.push(export_at(alloc, heap, i as u32)?)?;
    }
    Ok(texts)
}
