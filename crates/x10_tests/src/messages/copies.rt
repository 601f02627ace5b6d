//! What a message takes along, and that it arrives.
use crate::sources::{assembled, image_of};
use std::alloc::Global;
use std::process::Abort;
use std::test::*;
use x10_copy::{Marks, Refusal, Roots, arrive, capture, heap_is_sound, words_are_sound};
use x10_frame::{FrameView, Head, What};
use x10_heap::Heap;
use x10_image::ImageView;
use x10_kinds::{Kind, Stop};
use x10_model::{Finish, Slot};
use x10_samples::{CYCLE, MIXED, mixed_frame, mixed_objects, mixed_words};

/// A link to an object, a rail and a place's object; and a class with no field.
const CLASSES: &str = "places 2
class opt:0 rail gref:1
class
func 1 0 none
RET 0
end
entry 0
";

/// The same at `host`, where they arrived.
const WORDS_THERE: [u64; 16] = [2, 0, 1, 2, 1, 1, u64::MAX, 1, 0, 1, 3, 4, 2, 0, 0, 0];

pub(crate) fn slot(kind: Kind) -> Slot {
    Slot {
        kind,
        home_here: false,
    }
}

/// Of which the home has to be the place itself.
pub(crate) fn here(class: u16) -> Slot {
    Slot {
        kind: Kind::GRef(class),
        home_here: true,
    }
}

/// As a slice.
fn words_there() -> &'static [u64] {
    &WORDS_THERE
}

/// The frame of a new activity at place 1 that takes the words along.
fn frame_with(
    alloc: Global,
    rt: &impl Abort,
    marks: &mut Marks,
    heap: &Heap,
    image: &ImageView,
    slots: &[Slot],
    words: &[u64],
) -> Result<Vec<u8>, Stop> {
    assert!(rt; heap_is_sound(heap, image, 2));
    assert!(rt; words_are_sound(heap, 2, slots, words));
    assert!(rt; words.len() <= 16);
    let under = Finish { home: 0, number: 1 };
    let head = Head {
        from: 0,
        to: 1,
        what: What::Spawn { under, function: 0 },
    };
    capture(alloc, marks, heap, image, 2, &head, slots, words)
}

/// Whether the words go along as these bytes.
fn sends(
    alloc: Global,
    rt: &impl Abort,
    heap: &Heap,
    image: &ImageView,
    slots: &[Slot],
    words: &[u64],
    bytes: &[u8],
) -> Result<bool, Stop> {
    let mut marks = Marks::new(alloc);
    let frame = frame_with(alloc, rt, &mut marks, heap, image, slots, words)?;
    Ok(frame.as_slice() == bytes)
}

/// What a frame brings, put into the heap of place 1.
fn arrival(
    alloc: Global,
    heap: &mut Heap,
    image: &ImageView,
    bytes: &[u8],
    slots: &[Slot],
) -> Result<Roots, Refusal> {
    let Ok(view) = FrameView::read(alloc, bytes, 2) else {
        return Err(Refusal::Memory);
    };
    arrive(alloc, &view, heap, image, 1, 1, slots)
}

/// Why a frame doesn't arrive, if it doesn't.
pub(crate) fn refusal(
    alloc: Global,
    heap: &mut Heap,
    image: &ImageView,
    bytes: &[u8],
    slots: &[Slot],
) -> Option<Refusal> {
    arrival(alloc, heap, image, bytes, slots).err()
}

/// Whether a frame arrives, and its roots are these words.
fn brings(
    alloc: Global,
    heap: &mut Heap,
    image: &ImageView,
    bytes: &[u8],
    slots: &[Slot],
    words: &[u64],
) -> bool {
    match arrival(alloc, heap, image, bytes, slots) {
        Ok(roots) => roots.as_slice() == words,
        Err(_) => false,
    }
}

/// A heap of these texts, rails and objects.
fn heap_of(
    alloc: Global,
    rt: &impl Abort,
    texts: &[&str],
    rails: &[u16],
    objects: &[(u16, &[u64])],
) -> Result<Heap, Stop> {
    let mut heap = Heap::new(alloc);
    for text in texts {
        assert!(rt; text.len() < 65_536);
        heap.new_text(text)?;
    }
    for bytes in rails {
        heap.new_rail(*bytes)?;
    }
    for (class, fields) in objects {
        heap.new_object(*class, fields)?;
    }
    Ok(heap)
}

/// An object with no field, a rail, and two objects in a cycle.
fn sender(alloc: Global, rt: &impl Abort) -> Result<Heap, Stop> {
    let objects: [(u16, &[u64]); 3] = [(1, &[]), (0, &[3, 0, 0]), (0, &[2, 0, 0])];
    heap_of(alloc, rt, &[], &[2], &objects)
}

fn receiver(alloc: Global, rt: &impl Abort) -> Result<Heap, Stop> {
    heap_of(alloc, rt, &[], &[1], &[(1, &[])])
}

/// How many objects, rails and texts a heap has.
pub(crate) fn counts(heap: &Heap) -> (usize, usize, usize) {
    (heap.objects(), heap.rails(), heap.texts())
}

#[test]
fn a_cycle_goes_along(rt: HostRuntime) -> Result<(), Fail> {
    let bytes = assembled(rt.alloc(), CLASSES)?;
    let image = image_of(rt.alloc(), &bytes)?;
    let heap = sender(rt.alloc(), &rt)?;
    let slots = [slot(Kind::Obj(0))];
    assert!(rt; sends(rt.alloc(), &rt, &heap, &image, &slots, &[3], &CYCLE)?);
    Ok(())
}

#[test]
fn a_cycle_arrives(rt: HostRuntime) -> Result<(), Fail> {
    let bytes = assembled(rt.alloc(), CLASSES)?;
    let image = image_of(rt.alloc(), &bytes)?;
    let mut heap = receiver(rt.alloc(), &rt)?;
    let slots = [slot(Kind::Obj(0))];
    assert!(rt; brings(rt.alloc(), &mut heap, &image, &CYCLE, &slots, &[2]));
    assert!(rt; counts(&heap) == (3, 2, 0));
    Ok(())
}

#[test]
fn another_kind_is_refused(rt: HostRuntime) -> Result<(), Fail> {
    let bytes = assembled(rt.alloc(), CLASSES)?;
    let image = image_of(rt.alloc(), &bytes)?;
    let mut heap = receiver(rt.alloc(), &rt)?;
    let slots = [slot(Kind::Obj(1))];
    let why = refusal(rt.alloc(), &mut heap, &image, &CYCLE, &slots);
    assert!(rt; why == Some(Refusal::Kind) && counts(&heap) == (1, 1, 0));
    Ok(())
}

fn mixed_slots() -> [Slot; 16] {
    [
        slot(Kind::Obj(0)),
        slot(Kind::Opt(0)),
        slot(Kind::Text),
        slot(Kind::Text),
        slot(Kind::Text),
        slot(Kind::Rail),
        slot(Kind::Int),
        slot(Kind::Place),
        slot(Kind::GRef(2)),
        here(2),
        slot(Kind::Obj(1)),
        slot(Kind::Opt(0)),
        slot(Kind::Opt(0)),
        slot(Kind::Int),
        slot(Kind::Place),
        slot(Kind::Opt(1)),
    ]
}

/// Parts that are shared, objects that lead back to themselves, and parts that nothing reaches.
fn mixed(alloc: Global, rt: &impl Abort) -> Result<Heap, Stop> {
    heap_of(
        alloc,
        rt,
        &["unused", "same", "same"],
        &[1, 2],
        mixed_objects(),
    )
}

/// An object of class 2, which global references name, a rail and a text.
pub(crate) fn host(alloc: Global, rt: &impl Abort) -> Result<Heap, Stop> {
    let mut heap = heap_of(alloc, rt, &["here"], &[1], &[(2, &[])])?;
    assert!(rt; heap.objects() == 1);
    heap.export(0)?;
    Ok(heap)
}

/// Whether the words go along as the shared frame.
fn sends_shared(
    alloc: Global,
    rt: &impl Abort,
    heap: &Heap,
    image: &ImageView,
    words: &[u64],
) -> Result<bool, Stop> {
    sends(alloc, rt, heap, image, &mixed_slots(), words, mixed_frame())
}

/// `host` where the shared frame has arrived, which would go along again in the same way.
fn goes_on(alloc: Global, rt: &impl Abort, image: &ImageView) -> Result<bool, Stop> {
    let mut heap = host(alloc, rt)?;
    let slots = mixed_slots();
    assert!(rt;
        brings(
            alloc,
            &mut heap,
            image,
            mixed_frame(),
            &slots,
            words_there()
        )
    );
    assert!(rt; counts(&heap) == (6, 2, 3));
    sends_shared(alloc, rt, &heap, image, words_there())
}

/// What is shared goes along once, arrives once, and would go along again in the same way.
#[test]
fn shared_parts_go_once(rt: HostRuntime) -> Result<(), Fail> {
    let bytes = assembled(rt.alloc(), MIXED)?;
    let image = image_of(rt.alloc(), &bytes)?;
    let heap = mixed(rt.alloc(), &rt)?;
    assert!(rt; sends_shared(rt.alloc(), &rt, &heap, &image, mixed_words())?);
    assert!(rt; goes_on(rt.alloc(), &rt, &image)?);
    Ok(())
}
