//! What a frame takes along where memory is refused: the frame is made and arrives, or all is as before, and then it is made and
//! arrives the next time.
use crate::begin::with_image;
use std::alloc::Global;
use std::process::Abort;
use std::test::*;
use x10_copy::{Marks, Refusal, arrive, capture, heap_is_sound, words_are_sound};
use x10_frame::{FrameFault, FrameView, Head, What};
use x10_heap::Heap;
use x10_image::ImageView;
use x10_kinds::{Kind, Stop};
use x10_model::{Finish, Slot};
use x10_samples::{MIXED, mixed_frame, mixed_objects, mixed_words};

/// A list of objects, each with a link to the next.
const LIST: &str = "places 2
class opt:0
func 1 0 none
RET 0
end
entry 0
";

/// More objects than numbers of two bytes tell apart.
const LONG: u32 = 70_000;

/// Words of a heap with their kinds; the bytes of their frame, or only how many, and how many objects, rails and texts there are
/// where they have arrived.
#[derive(Clone, Copy)]
struct Luggage<'a> {
    slots: &'a [Slot],
    words: &'a [u64],
    frame: &'a [u8],
    length: usize,
    arrived: (usize, usize, usize),
}

/// The frame of a new activity at place 1 that takes the words along. Nothing where memory was refused.
fn captured(
    alloc: Global,
    rt: &impl Abort,
    marks: &mut Marks,
    heap: &Heap,
    image: &ImageView,
    luggage: &Luggage,
) -> Option<Vec<u8>> {
    let (slots, words) = (luggage.slots, luggage.words);
    assert!(rt; heap_is_sound(heap, image, 2));
    assert!(rt; words_are_sound(heap, 2, slots, words) && words.len() <= 16);
    let under = Finish { home: 0, number: 1 };
    let head = Head {
        from: 0,
        to: 1,
        what: What::Spawn { under, function: 0 },
    };
    match capture(alloc, marks, heap, image, 2, &head, slots, words) {
        Ok(frame) => Some(frame),
        Err(why) => {
            assert!(rt; why == Stop::Memory);
            None
        }
    }
}

/// How many objects, rails and texts a heap has.
fn counts(heap: &Heap) -> (usize, usize, usize) {
    (heap.objects(), heap.rails(), heap.texts())
}

/// Whether a frame arrives in a heap at place 1; where it doesn't, memory was refused, and the heap is as before.
fn arrives(
    alloc: Global,
    rt: &impl Abort,
    heap: &mut Heap,
    image: &ImageView,
    frame: &[u8],
    slots: &[Slot],
) -> bool {
    let view = match FrameView::read(alloc, frame, 2) {
        Ok(view) => view,
        Err(why) => {
            assert!(rt; why == FrameFault::Memory);
            return false;
        }
    };
    let before = counts(heap);
    match arrive(alloc, &view, heap, image, 1, 1, slots) {
        Ok(_) => true,
        Err(why) => {
            assert!(rt; why == Refusal::Memory && counts(heap) == before);
            false
        }
    }
}

/// Whether these are the bytes of a frame.
fn is_right(frame: &[u8], luggage: &Luggage) -> bool {
    frame.len() == luggage.length && (luggage.frame.is_empty() || frame == luggage.frame)
}

/// Words go along and arrive, each at the second time where memory was refused, then with the same marks and in the same heap.
fn goes(
    alloc: Global,
    rt: &impl Abort,
    (heap, there): (&Heap, &mut Heap),
    image: &ImageView,
    luggage: &Luggage,
) {
    let mut marks = Marks::new(alloc);
    let frame = match captured(alloc, rt, &mut marks, heap, image, luggage) {
        Some(frame) => frame,
        None => captured(alloc, rt, &mut marks, heap, image, luggage).unwrap_or(Vec::new(alloc)),
    };
    assert!(rt; is_right(&frame, luggage));
    if !arrives(alloc, rt, there, image, &frame, luggage.slots) {
        assert!(rt; arrives(alloc, rt, there, image, &frame, luggage.slots));
    }
    assert!(rt; counts(there) == luggage.arrived);
}

/// Calls of a heap went through. Nothing where memory was refused.
fn made(rt: &impl Abort, answer: Result<(), Stop>) -> Option<()> {
    assert!(rt; answer.is_ok() || answer == Err(Stop::Memory));
    answer.ok()
}

fn slot(kind: Kind, home_here: bool) -> Slot {
    Slot { kind, home_here }
}

/// The kinds of the mixed words.
fn mixed_slots() -> [Slot; 16] {
    [
        slot(Kind::Obj(0), false),
        slot(Kind::Opt(0), false),
        slot(Kind::Text, false),
        slot(Kind::Text, false),
        slot(Kind::Text, false),
        slot(Kind::Rail, false),
        slot(Kind::Int, false),
        slot(Kind::Place, false),
        slot(Kind::GRef(2), false),
        slot(Kind::GRef(2), true),
        slot(Kind::Obj(1), false),
        slot(Kind::Opt(0), false),
        slot(Kind::Opt(0), false),
        slot(Kind::Int, false),
        slot(Kind::Place, false),
        slot(Kind::Opt(1), false),
    ]
}

/// Makes the mixed heap: parts that are shared, objects that lead back to themselves, and parts that nothing reaches.
fn make_mixed(heap: &mut Heap) -> Result<(), Stop> {
    for text in ["unused", "same", "same"] {
        heap.new_text(text)?;
    }
    for bytes in [1, 2] {
        heap.new_rail(bytes)?;
    }
    for (class, fields) in mixed_objects() {
        heap.new_object(*class, fields)?;
    }
    Ok(())
}

/// Makes an object that global references name, a rail and a text.
fn make_host(heap: &mut Heap) -> Result<(), Stop> {
    heap.new_text("here")?;
    heap.new_rail(1)?;
    heap.new_object(2, &[])?;
    if heap.objects() > 0 {
        heap.export(0)?;
    }
    Ok(())
}

/// Makes the long list.
fn make_list(heap: &mut Heap) -> Result<(), Stop> {
    for number in 0..LONG {
        let is_last = number + 1 == LONG;
        let next = if is_last { 0 } else { u64::from(number) + 2 };
        heap.new_object(0, &[next])?;
    }
    Ok(())
}

/// The mixed words go along. Nothing where memory was refused to one of the heaps.
fn mixed_goes(alloc: Global, rt: &impl Abort, image: &ImageView) -> Option<()> {
    let (mut heap, mut there) = (Heap::new(alloc), Heap::new(alloc));
    made(rt, make_mixed(&mut heap))?;
    made(rt, make_host(&mut there))?;
    let luggage = Luggage {
        slots: &mixed_slots(),
        words: mixed_words(),
        frame: mixed_frame(),
        length: 369,
        arrived: (6, 2, 3),
    };
    goes(alloc, rt, (&heap, &mut there), image, &luggage);
    Some(())
}

/// The long list goes along. Nothing where memory was refused to its heap.
fn list_goes(alloc: Global, rt: &impl Abort, image: &ImageView) -> Option<()> {
    let (mut heap, mut there) = (Heap::new(alloc), Heap::new(alloc));
    made(rt, make_list(&mut heap))?;
    let luggage = Luggage {
        slots: &[slot(Kind::Obj(0), false)],
        words: &[1],
        frame: &[],
        length: 560_029,
        arrived: (70_000, 0, 0),
    };
    goes(alloc, rt, (&heap, &mut there), image, &luggage);
    Some(())
}

/// The same from a text on.
fn mixed(alloc: Global, rt: &impl Abort) -> Option<()> {
    with_image(alloc, rt, MIXED, |image| mixed_goes(alloc, rt, image))
}

fn list(alloc: Global, rt: &impl Abort) -> Option<()> {
    with_image(alloc, rt, LIST, |image| list_goes(alloc, rt, image))
}

#[test]
fn with_memory(rt: HostRuntime) {
    assert!(rt; mixed(rt.alloc(), &rt).is_some() && list(rt.alloc(), &rt).is_some());
}

#[test]
fn memory_refused(rt: HostRuntime) {
    mixed(rt.alloc(), &rt);
}

#[test]
fn memory_refused_to_a_large_copy(rt: HostRuntime) {
    list(rt.alloc(), &rt);
}
