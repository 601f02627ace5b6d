//! All that a place shows.
ghost use Rattle.std.specs.Prelude.{◌≡◌, ◌<◌, ◌≤◌, ◌++◌, IfOk, OnOk, Some, codes, length, map, slice_get};
ghost use Rattle.std.specs.String.{string_bytes};
ghost use Rattle.slab.specs.Slab.{get};
ghost use Rattle.x10_place.specs.declared.line.Line.{Line};
ghost use Rattle.x10_states.specs.Parts.{ArePartsOf, line_text};
ghost use Rattle.x10_states.specs.Stays.{AreListed, AreStays, IsStay, stay_or_null};

use crate::json::push_json;
use crate::kinds::Kinds;
use crate::lists::{export_texts, object_texts, rail_texts, text_texts};
use crate::stays::push_stay;
use std::alloc::{AllocError, Global};
use std::fmt::Write;
use x10_image::ImageView;
use x10_place::{Line, Place};

/// What a place shows: a text for each of its stays, by key, where a free key has the text `null`; and for each object, rail,
/// text, export and line of output.
#[derive(Debug, Drop)]
pub struct Parts {
    pub stays: Vec<String>,
    pub objects: Vec<String>,
    pub rails: Vec<String>,
    pub texts: Vec<String>,
    pub exports: Vec<String>,
    pub lines: Vec<String>,
}

/// What a place of a module shows at a moment of a run, where it is known which registers are set. Linear in the keys that were
/// ever in use at once, the heap, the output and all texts in them, and in the open finishes times the places.
pub fn parts_of(
    alloc: Global,
    image: &ImageView,
    kinds: &Kinds,
    place: &Place,
) -> Result<Parts, AllocError>
    ensures { IfOk result (ArePartsOf image.now kinds.now place.now) }
{
    let heap = place.heap();
    Ok(Parts {
        stays: stay_texts(alloc, kinds, place)?,
        objects: object_texts(alloc, image, heap)?,
        rails: rail_texts(alloc, heap)?,
        texts: text_texts(alloc, heap)?,
        exports: export_texts(alloc, heap)?,
        lines: line_texts(alloc, place.output())?,
    })
}

// ---- stays

fn push_null(out: &mut String) -> Result<(), AllocError>
    ensures { OnOk result (string_bytes out.new ≡ string_bytes out.old ++ codes "null") }
{
    out.push_str("null")
}

/// Pushes the stay with a key, or that the key is free.
fn push_keyed(
    alloc: Global,
    out: &mut String,
    kinds: &Kinds,
    place: &Place,
    key: usize,
    idle: bool,
) -> Result<(), AllocError>
    ensures { OnOk result (string_bytes out.new ≡ string_bytes out.old
        ++ stay_or_null kinds.now place.now (get place.now.stays key) idle) }
{
    match place.stay(key) {
        None => push_null(out),
        Some(stay) => push_stay(alloc, out, kinds, place, stay, idle),
    }
}

/// The text of the stay with a key, or of a key that is free.
fn stay_text(alloc: Global, kinds: &Kinds, place: &Place, key: usize) -> Result<String, AllocError>
    ensures { IfOk result (λ text. IsStay kinds.now place.now key (string_bytes text)) }
{
    let mut text = String::new(alloc);
    let idle = place.is_idle(key);
    push_keyed(alloc, &mut text, kinds, place, key, idle)?;
    Ok(text)
}

/// Pushes the texts of the keys that follow, up to `end`, which has none yet.
fn push_stays(
    alloc: Global,
    texts: &mut Vec<String>,
    kinds: &Kinds,
    place: &Place,
    end: usize,
) -> Result<(), AllocError>
    requires { length texts.old.items ≤ end }
    ensures length { OnOk result (length texts.new.items ≡ end) }
    ensures listed { AreListed kinds.now place.now (map string_bytes texts.old.items)
        → OnOk result (AreListed kinds.now place.now (map string_bytes texts.new.items)) }
{
    for key in texts.len()..end {
        texts.push(stay_text(alloc, kinds, place, key)?)?;
    }
    Ok(())
}

/// The texts of the stays, by key, up to the last key in use.
fn stay_texts(alloc: Global, kinds: &Kinds, place: &Place) -> Result<Vec<String>, AllocError>
    ensures { IfOk result (λ texts. AreStays kinds.now place.now (map string_bytes texts.items)) }
{
    let mut texts = Vec::new(alloc);
    while let Some(key) = place.next_key(texts.len()) {
        push_stays(alloc, &mut texts, kinds, place, key)?;
        texts.push(stay_text(alloc, kinds, place, key)?)?;
    }
    Ok(texts)
}

// ---- lines

/// The text of a line of output, in quotes.
fn line_text(alloc: Global, line: &Line) -> Result<String, AllocError>
    ensures { IfOk result (λ text. string_bytes text ≡ line_text line.now) }
{
    let mut text = String::new(alloc);
    match line {
        Line::Int(number) => write!(text, "\"{number}\"")?,
        Line::Text(words) => push_json(&mut text, words.as_str())?,
    }
    Ok(text)
}

fn line_at(alloc: Global, lines: &[Line], i: usize) -> Result<String, AllocError>
    requires { i < length lines.now }
    ensures { (line : Line) → slice_get lines.now i ≡ Some line
        → IfOk result (λ text. string_bytes text ≡ line_text line) }
{
    line_text(alloc, &lines[i])
}

fn line_texts(alloc: Global, lines: &[Line]) -> Result<Vec<String>, AllocError>
    ensures { IfOk result (λ texts. map string_bytes texts.items ≡ map line_text lines.now) }
{
    let mut texts = Vec::with_capacity(alloc, lines.len())?;
    for i in 0..lines.len() {
        texts.push(line_at(alloc, lines, i)?)?;
    }
    Ok(texts)
}
