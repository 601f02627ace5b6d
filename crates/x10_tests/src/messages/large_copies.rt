//! The largest frames that copies fill, and one part more.
use crate::sources::{assembled, image_of};
use std::alloc::Global;
use std::process::Abort;
use std::test::*;
use x10_copy::{Marks, arrive, capture, heap_is_sound, words_are_sound};
use x10_frame::{FrameView, Head, What};
use x10_heap::Heap;
use x10_image::ImageView;
use x10_kinds::{Kind, Limit, Stop};
use x10_model::{Finish, Slot};

/// Lists: of objects alone, and of objects with 15 texts or 15 rails each.
const LISTS: &str = "places 2
class opt:0
class opt:1 text text text text text text text text text text text text text text text
class opt:2 rail rail rail rail rail rail rail rail rail rail rail rail rail rail rail
func 1 0 none
RET 0
end
entry 0
";

/// How many objects, texts or rails a frame has at most.
const MOST: u32 = 1_048_576;

/// How many texts or rails an object names.
const EACH: u32 = 15;

/// The word of the object after this one in a list of `count` objects.
fn next(number: u32, count: u32) -> u64 {
    if number.saturating_add(1) < count {
        u64::from(number) + 2
    } else {
        0
    }
}

/// A list of `count` objects of class 0.
fn list(alloc: Global, count: u32) -> Result<Heap, Stop> {
    let mut heap = Heap::new(alloc);
    for number in 0..count {
        heap.new_object(0, &[next(number, count)])?;
    }
    Ok(heap)
}

/// The words of an object that names texts or rails from a number on, the last one again where there are no more.
fn naming(next: u64, first: u32, last: u32) -> [u64; 16] {
    let mut words = [next; 16];
    for j in 1..16 {
        words[j] = u64::from(first.saturating_add(j as u32 - 1).min(last));
    }
    words
}

/// A list of objects of a class that name each text or each rail of the heap, of which there are `count`.
fn name_all(heap: &mut Heap, class: u16, count: u32) -> Result<(), Stop> {
    let objects = count.div_ceil(EACH);
    for number in 0..objects {
        let first = number.saturating_mul(EACH);
        let words = naming(next(number, objects), first, count.saturating_sub(1));
        heap.new_object(class, &words)?;
    }
    Ok(())
}

fn texts(alloc: Global, count: u32) -> Result<Heap, Stop> {
    let mut heap = Heap::new(alloc);
    for _ in 0..count {
        heap.new_text("t")?;
    }
    name_all(&mut heap, 1, count)?;
    Ok(heap)
}

fn rails(alloc: Global, count: u32) -> Result<Heap, Stop> {
    let mut heap = Heap::new(alloc);
    for _ in 0..count {
        heap.new_rail(1)?;
    }
    name_all(&mut heap, 2, count)?;
    Ok(heap)
}

fn first_of(class: u16) -> [Slot; 1] {
    [Slot {
        kind: Kind::Obj(class),
        home_here: false,
    }]
}

/// The frame that takes the first object of a heap along.
fn frame_of(
    alloc: Global,
    rt: &impl Abort,
    heap: &Heap,
    image: &ImageView,
    class: u16,
) -> Result<Vec<u8>, Stop> {
    let slots = first_of(class);
    assert!(rt; heap_is_sound(heap, image, 2));
    assert!(rt; words_are_sound(heap, 2, &slots, &[1]));
    let under = Finish { home: 0, number: 1 };
    let head = Head {
        from: 0,
        to: 1,
        what: What::Spawn { under, function: 0 },
    };
    let mut marks = Marks::new(alloc);
    capture(alloc, &mut marks, heap, image, 2, &head, &slots, &[1])
}

/// How many objects, texts and rails a heap has in which a frame arrived that had nothing before; none where it didn't.
fn arrived(alloc: Global, image: &ImageView, bytes: &[u8], class: u16) -> (usize, usize, usize) {
    let mut heap = Heap::new(alloc);
    let Ok(view) = FrameView::read(alloc, bytes, 2) else {
        return (0, 0, 0);
    };
    let Ok(_) = arrive(alloc, &view, &mut heap, image, 1, 1, &first_of(class)) else {
        return (0, 0, 0);
    };
    (heap.objects(), heap.texts(), heap.rails())
}

/// How many of the parts that the first object of a heap reaches arrive.
fn that_go(
    alloc: Global,
    rt: &impl Abort,
    image: &ImageView,
    heap: &Heap,
    class: u16,
) -> Result<(usize, usize, usize), Stop> {
    let frame = frame_of(alloc, rt, heap, image, class)?;
    Ok(arrived(alloc, image, &frame, class))
}

/// Whether the first object of a heap doesn't go along for a limit.
fn meets(
    alloc: Global,
    rt: &impl Abort,
    image: &ImageView,
    heap: &Heap,
    class: u16,
    limit: Stop,
) -> bool {
    match frame_of(alloc, rt, heap, image, class) {
        Ok(_) => false,
        Err(stop) => stop == limit,
    }
}

/// The frame that takes a list of `count` objects along.
fn frame_of_list(
    alloc: Global,
    rt: &impl Abort,
    image: &ImageView,
    count: u32,
) -> Result<Vec<u8>, Stop> {
    let heap = list(alloc, count)?;
    frame_of(alloc, rt, &heap, image, 0)
}

/// A frame takes 1,048,576 objects along and no more; as many texts, and as many rails.
#[test]
fn the_most_objects(rt: HostRuntime) -> Result<(), Fail> {
    let bytes = assembled(rt.alloc(), LISTS)?;
    let image = image_of(rt.alloc(), &bytes)?;
    let frame = frame_of_list(rt.alloc(), &rt, &image, MOST)?;
    assert!(rt; frame.len() == 8_388_637);
    assert!(rt; arrived(rt.alloc(), &image, &frame, 0) == (1_048_576, 0, 0));
    let more = frame_of_list(rt.alloc(), &rt, &image, MOST + 1);
    assert!(rt; matches!(more, Err(Stop::Limit(Limit::FrameObjects))));
    Ok(())
}

/// The first object of a heap goes along with all that it reaches, which arrive as so many objects, texts and rails; that of a
/// heap with one part more doesn't, for a limit.
fn goes_and_meets(
    alloc: Global,
    rt: &impl Abort,
    class: u16,
    (most, parts): (&Heap, (usize, usize, usize)),
    (more, limit): (&Heap, Limit),
) -> Result<(), Fail> {
    let bytes = assembled(alloc, LISTS)?;
    let image = image_of(alloc, &bytes)?;
    assert!(rt; that_go(alloc, rt, &image, most, class)? == parts);
    assert!(rt; meets(alloc, rt, &image, more, class, Stop::Limit(limit)));
    Ok(())
}

#[test]
fn the_most_texts(rt: HostRuntime) -> Result<(), Fail> {
    let (most, more) = (texts(rt.alloc(), MOST)?, texts(rt.alloc(), MOST + 1)?);
    let parts = (69_906, 1_048_576, 0);
    goes_and_meets(
        rt.alloc(),
        &rt,
        1,
        (&most, parts),
        (&more, Limit::FrameTexts),
    )
}

#[test]
fn the_most_rails(rt: HostRuntime) -> Result<(), Fail> {
    let (most, more) = (rails(rt.alloc(), MOST)?, rails(rt.alloc(), MOST + 1)?);
    let parts = (69_906, 0, 1_048_576);
    goes_and_meets(
        rt.alloc(),
        &rt,
        2,
        (&most, parts),
        (&more, Limit::FrameRails),
    )
}
