//! What a message takes along, as the bytes of a frame.

ghost use Rattle.std.specs.Prelude.{◌≡◌, ◌<◌, ◌≤◌, IfOk, IfErr, length, map};
ghost use Rattle.std.specs.List.{AllByRecursion};
ghost use Rattle.x10_model.specs.declared.limits.TheConstants.{MOST_WIDE};
ghost use Rattle.x10_model.specs.Modules.{FitsText};
ghost use Rattle.x10_model.specs.declared.version.FrameVersion.TheVariants.{Wide};
ghost use Rattle.x10_model.specs.Frames.{FitsRail, spelling};
ghost use Rattle.x10_frame.specs.Heads.{IsGraphHead, with_graph, most_roots};
ghost use Rattle.x10_copy.specs.Names.{AreWords, AreFound, AreSound};
ghost use Rattle.x10_copy.specs.Graphs.{AreThere, text_at, rail_at, graph_of, AreWordy, IsSoundHeap};
ghost use Rattle.x10_copy.specs.Captured.{kinds_of, IsCaptured, IsCopied, Refuses};
ghost use Rattle.x10_copy.specs.Walks.{AllFound};

use crate::mark::mark;
use crate::marks::Marks;
use crate::put::{put_objects, put_rails, put_roots, put_texts};
use std::alloc::{AllocError, Global};
use x10_frame::{FrameWriter, Head, Sizes};
use x10_heap::Heap;
use x10_image::ImageView;
use x10_kinds::Stop;
use x10_model::Slot;

/// The most bytes before the roots, in a frame with a graph.
const HEAD: usize = 32;

/// How many bytes come before each text's or rail's bytes.
const LENGTH: usize = 4;

/// How many bytes the texts take.
fn texts_size(marks: &Marks, heap: &Heap) -> usize
    requires { AreThere heap.now marks.now }
{
    let mut size: usize = 0;
    for i in 0..marks.texts() {
        let bytes = heap.text(marks.text(i)).len();
        size = size.wrapping_add(LENGTH).wrapping_add(bytes);
    }
    size
}

/// How many bytes the rails take.
fn rails_size(marks: &Marks, heap: &Heap) -> usize
    requires { AreThere heap.now marks.now }
{
    let mut size: usize = 0;
    for i in 0..marks.rails() {
        let bytes = heap.rail(marks.rail(i)).len();
        size = size.wrapping_add(LENGTH).wrapping_add(bytes);
    }
    size
}

/// How many bytes a frame has that passes `words` words, or a few more where its head is a short one.
fn room(marks: &Marks, heap: &Heap, words: usize) -> usize
    requires { AreThere heap.now marks.now }
{
    let blobs = texts_size(marks, heap).wrapping_add(rails_size(marks, heap));
    let front = HEAD.wrapping_add(words);
    front.wrapping_add(marks.size()).wrapping_add(blobs)
}

fn written(
    alloc: Global,
    marks: &Marks,
    heap: &Heap,
    image: &ImageView,
    head: &Head,
    slots: &[Slot],
    words: &[u64],
) -> Result<Vec<u8>, AllocError>
    requires graph { IsGraphHead head.now }
    requires few { length words.now ≤ 16 }
    requires words { AreWords (kinds_of slots.now) words.now }
    requires found { AreFound marks.now (kinds_of slots.now) words.now }
    requires there { AreThere heap.now marks.now }
    requires objects { AreWordy image.now.classes heap.now marks.now }
    requires done { AllFound image.now.classes heap.now marks.now marks.now.objects }
    ensures value { IfOk result (λ bytes. bytes.items
        ≡ spelling Wide (with_graph head.now
        (graph_of image.now.classes heap.now marks.now (kinds_of slots.now) words.now))) }
    ensures few { (length marks.now.texts ≤ MOST_WIDE) × (length marks.now.rails ≤ MOST_WIDE)
        × (length marks.now.objects ≤ MOST_WIDE) }
    ensures texts { IfOk result (λ _. AllByRecursion FitsText
        (map (text_at heap.now) marks.now.texts)) }
    ensures rails { IfOk result (λ _. AllByRecursion FitsRail
        (map (rail_at heap.now) marks.now.rails)) }
{
    let sizes = Sizes {
        roots: words.len() as u16,
        texts: marks.texts() as u32,
        rails: marks.rails() as u32,
        nodes: marks.objects() as u32,
    };
    let mut writer = FrameWriter::with_room(alloc, head, &sizes, room(marks, heap, words.len()))?;
    put_roots(&mut writer, marks, slots, words)?;
    put_texts(&mut writer, marks, heap)?;
    put_rails(&mut writer, marks, heap)?;
    put_objects(&mut writer, marks, heap, image)?;
    Ok(writer.finish())
}

/// The frame with a head that takes the words along, and all that they lead to: each object, each rail and each text of the
/// heap once, numbered by first use. What a global reference names is not taken along. `slots` says which kinds the words have.
/// Refused with `Limit` where there are more than 1,048,576 objects, texts or rails. Linear in what is taken along,
/// without recursion; `marks` grows to the number of parts that the heap has, and keeps that memory.
pub fn capture(
    alloc: Global,
    marks: &mut Marks,
    heap: &Heap,
    image: &ImageView,
    places: u16,
    head: &Head,
    slots: &[Slot],
    words: &[u64],
) -> Result<Vec<u8>, Stop>
    requires graph { IsGraphHead head.now }
    requires few { length words.now ≤ most_roots head.now }
    requires words { AreSound places heap.now (kinds_of slots.now) words.now }
    requires heap { IsSoundHeap image.now.classes places heap.now }
    ensures ok { IfOk result (λ bytes. IsCaptured image.now.classes places heap.now
        (kinds_of slots.now) words.now head.now bytes.items) }
    ensures copy { IfOk result (λ bytes. IsCopied image.now.classes places heap.now
        (kinds_of slots.now) words.now head.now bytes.items) }
    ensures err { IfErr result (λ why. Refuses image.now.classes heap.now
        (kinds_of slots.now) words.now why) }
{
    mark(marks, heap, image, places, slots, words)?;
    match written(alloc, marks, heap, image, head, slots, words) {
        Ok(bytes) => Ok(bytes),
        Err(_) => Err(Stop::Memory),
    }
}
