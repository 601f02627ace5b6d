//! Writing what a message takes along.

ghost use Rattle.std.specs.Prelude.{◌≡◌, ℕ, ◌<◌, ◌≤◌, ◌++◌, IfOk, OnOk, length, map, slice_index};
ghost use Rattle.std.specs.List.{AllByRecursion, flat_map};
ghost use Rattle.x10_model.specs.Modules.{FitsText};
ghost use Rattle.x10_model.specs.declared.version.FrameVersion.TheVariants.{Wide};
ghost use Rattle.x10_model.specs.Frames.{FitsRail, item_bytes, blob_bytes, node_bytes};
ghost use Rattle.x10_copy.specs.Names.{items_of, AreWords, AreFound};
ghost use Rattle.x10_copy.specs.Graphs.{AreThere, kinds_at, object_at, text_at, rail_at, node_of, nodes_of, IsWordy, AreWordy};
ghost use Rattle.x10_copy.specs.Captured.{kinds_of};
ghost use Rattle.x10_copy.specs.Walks.{AllFound};

use crate::mark::{TOGETHER, size_of};
use crate::marks::Marks;
use std::alloc::AllocError;
use x10_frame::FrameWriter;
use x10_heap::Heap;
use x10_image::{ClassView, ImageView};
use x10_model::Slot;

/// The words that are passed.
pub fn put_roots(
    writer: &mut FrameWriter,
    marks: &Marks,
    slots: &[Slot],
    words: &[u64],
) -> Result<(), AllocError>
    requires words { AreWords (kinds_of slots.now) words.now }
    requires found { AreFound marks.now (kinds_of slots.now) words.now }
    ensures { OnOk result (writer.new ≡ writer.old ++ flat_map (item_bytes Wide)
        (items_of marks.now (kinds_of slots.now) words.now)) }
{
    for i in 0..words.len() {
        writer.value(&marks.item(slots[i].kind, words[i]))?;
    }
    Ok(())
}

/// The texts, each copied once.
pub fn put_texts(writer: &mut FrameWriter, marks: &Marks, heap: &Heap) -> Result<(), AllocError>
    requires there { AreThere heap.now marks.now }
    ensures value { OnOk result (writer.new ≡ writer.old ++ flat_map blob_bytes
        (map (text_at heap.now) marks.now.texts)) }
    ensures fits { IfOk result (λ _. AllByRecursion FitsText
        (map (text_at heap.now) marks.now.texts)) }
{
    for i in 0..marks.texts() {
        writer.text(heap.text(marks.text(i)))?;
    }
    Ok(())
}

/// The rails, each copied once.
pub fn put_rails(writer: &mut FrameWriter, marks: &Marks, heap: &Heap) -> Result<(), AllocError>
    requires there { AreThere heap.now marks.now }
    ensures value { OnOk result (writer.new ≡ writer.old ++ flat_map blob_bytes
        (map (rail_at heap.now) marks.now.rails)) }
    ensures fits { IfOk result (λ _. AllByRecursion FitsRail
        (map (rail_at heap.now) marks.now.rails)) }
{
    for i in 0..marks.rails() {
        writer.rail(heap.rail(marks.rail(i)))?;
    }
    Ok(())
}

/// The words in an object's fields.
#[inline(always)]
fn put_fields(
    writer: &mut FrameWriter,
    marks: &Marks,
    class: &ClassView,
    words: &[u64],
) -> Result<(), AllocError>
    requires words { AreWords class.now words.now }
    requires found { AreFound marks.now class.now words.now }
    ensures { OnOk result (writer.new ≡ writer.old ++ flat_map (item_bytes Wide)
        (items_of marks.now class.now words.now)) }
{
    for j in 0..words.len() {
        writer.value(&marks.item(class.field(j), words[j]))?;
    }
    Ok(())
}

/// An object.
#[inline(always)]
fn put_object(
    writer: &mut FrameWriter,
    marks: &Marks,
    heap: &Heap,
    image: &ImageView,
    object: u32,
) -> Result<(), AllocError>
    requires words { IsWordy image.now.classes heap.now object }
    requires few { length (kinds_at image.now.classes (object_at heap.now object).class) ≤ 16 }
    requires found { AreFound marks.now (kinds_at image.now.classes
        (object_at heap.now object).class) (object_at heap.now object).fields }
    ensures { OnOk result (writer.new ≡ writer.old ++ node_bytes Wide
        (node_of image.now.classes marks.now (object_at heap.now object))) }
{
    let number = heap.class(object);
    let class = image.class(usize::from(number));
    let words = heap.fields(object);
    writer.begin_node(number, words.len() as u8)?;
    put_fields(writer, marks, &class, words)
}

/// Looks at the object whose turn it is, and at those after it that belong together with it, where it is the first of them,
/// and asks for their room.
#[inline(always)]
fn look_ahead(
    writer: &mut FrameWriter,
    marks: &Marks,
    heap: &Heap,
    turn: usize,
) -> Result<(), AllocError>
    requires there { (k : ℕ) → k < length marks.now.objects
        → slice_index marks.now.objects k < length heap.now.objects }
    requires turn { turn < length marks.now.objects }
    ensures { OnOk result (writer.new ≡ writer.old) }
{
    if !turn.is_multiple_of(TOGETHER) {
        return Ok(());
    }
    let near = marks.objects().min(turn + TOGETHER);
    writer.reserve(size_of(marks, heap, turn, near))
}

/// The objects.
pub fn put_objects(
    writer: &mut FrameWriter,
    marks: &Marks,
    heap: &Heap,
    image: &ImageView,
) -> Result<(), AllocError>
    requires words { AreWordy image.now.classes heap.now marks.now }
    requires found { AllFound image.now.classes heap.now marks.now marks.now.objects }
    ensures { OnOk result (writer.new ≡ writer.old ++ flat_map (node_bytes Wide)
        (nodes_of image.now.classes heap.now marks.now marks.now.objects)) }
{
    for k in 0..marks.objects() {
        look_ahead(writer, marks, heap, k)?;
        put_object(writer, marks, heap, image, marks.object(k))?;
    }
    Ok(())
}
