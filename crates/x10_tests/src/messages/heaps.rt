//! A heap by itself: what it holds after each call.
use std::alloc::{AllocError, Global};
use std::process::Abort;
use std::test::*;
use x10_heap::{Export, Heap};
use x10_kinds::Stop;

/// The word in a field, where there is one.
fn field(heap: &Heap, object: u32, field: u8) -> Option<u64> {
    if object as usize >= heap.objects() || usize::from(field) >= heap.fields(object).len() {
        return None;
    }
    Some(heap.get(object, field))
}

/// Writes a word to a field. False where there is none.
fn put(heap: &mut Heap, object: u32, field: u8, word: u64) -> bool {
    if object as usize >= heap.objects() || usize::from(field) >= heap.fields(object).len() {
        return false;
    }
    heap.put(object, field, word);
    true
}

/// Three objects are made, and two of their fields are changed.
fn make_three(rt: &impl Abort, heap: &mut Heap) -> Result<(), Stop> {
    let first = heap.new_object(7, &[1, 2])?;
    let none = heap.new_object(0, &[])?;
    let large = heap.new_object(65_535, &[u64::MAX; 16])?;
    assert!(rt; first == 0 && none == 1 && large == 2);
    assert!(rt; put(heap, 0, 1, 3) && put(heap, 2, 15, 0));
    assert!(rt; !put(heap, 1, 0, 3));
    Ok(())
}

/// The three objects have these fields, and no others.
fn check_fields(rt: &impl Abort, heap: &Heap) {
    for (object, at, word) in [
        (0, 0, Some(1)),
        (0, 1, Some(3)),
        (0, 2, None),
        (1, 0, None),
        (2, 14, Some(u64::MAX)),
        (2, 15, Some(0)),
        (3, 0, None),
    ] {
        assert!(rt; field(heap, object, at) == word);
    }
}

/// The three objects are of these classes.
fn check_classes(rt: &impl Abort, heap: &Heap) {
    for (object, class) in [(0, 7), (1, 0), (2, 65_535)] {
        assert!(rt; object < 3 && heap.objects() == 3);
        assert!(rt; heap.class(object) == class);
    }
}

/// The last object is given up, and another one made in its room.
fn make_again(rt: &impl Abort, heap: &mut Heap) -> Result<(), Fail> {
    heap.truncate(2, 0, 0);
    heap.reserve(3, 1, 1)?;
    let again = heap.new_object(9, &[4])?;
    assert!(rt; again == 2 && field(heap, 2, 0) == Some(4) && field(heap, 2, 1).is_none());
    assert!(rt; field(heap, 0, 1) == Some(3) && heap.objects() == 3);
    Ok(())
}

#[test]
fn objects(rt: HostRuntime) -> Result<(), Fail> {
    let mut heap = Heap::new(rt.alloc());
    make_three(&rt, &mut heap)?;
    check_fields(&rt, &heap);
    check_classes(&rt, &heap);
    make_again(&rt, &mut heap)?;
    Ok(())
}

/// Writes a byte of a rail. False where there is none.
fn set(heap: &mut Heap, rail: u32, index: usize, byte: u8) -> bool {
    (rail as usize) < heap.rails() && heap.rail_set(rail, index, byte)
}

/// Three rails are made, and two of their bytes are written.
fn make_rails(rt: &impl Abort, heap: &mut Heap) -> Result<(), Stop> {
    for bytes in [3, 0, 65_535] {
        heap.new_rail(bytes)?;
    }
    assert!(rt; set(heap, 0, 2, 255) && set(heap, 2, 65_534, 1));
    assert!(rt; !set(heap, 0, 3, 1) && !set(heap, 1, 0, 1));
    Ok(())
}

/// The three rails have these bytes, and no others.
fn check_bytes(rt: &impl Abort, heap: &Heap) {
    assert!(rt; heap.rails() == 3);
    assert!(rt; heap.rail(0) == [0, 0, 255].as_slice() && heap.rail(1).is_empty());
    assert!(rt; heap.rail_get(2, 65_534) == Some(1) && heap.rail_get(2, 65_535).is_none());
}

#[test]
fn rails(rt: HostRuntime) -> Result<(), Fail> {
    let mut heap = Heap::new(rt.alloc());
    make_rails(&rt, &mut heap)?;
    check_bytes(&rt, &heap);
    Ok(())
}

/// A text of `bytes` bytes.
pub(crate) fn long(alloc: Global, bytes: u32) -> Result<String, AllocError> {
    let mut long = String::new(alloc);
    for _ in 0..bytes {
        long.push('a')?;
    }
    Ok(long)
}

/// A text of a heap, where there is one.
fn text(heap: &Heap, text: u32) -> Option<&str> {
    if text as usize >= heap.texts() {
        return None;
    }
    Some(heap.text(text))
}

/// The number of two texts joined, where that isn't too long.
fn join(rt: &impl Abort, heap: &mut Heap, one: u32, other: u32) -> Result<Option<u32>, Stop> {
    let texts = heap.texts();
    assert!(rt; (one as usize) < texts && (other as usize) < texts);
    heap.join(one, other)
}

/// A text is added.
fn add(rt: &impl Abort, heap: &mut Heap, text: &str) -> Result<(), Stop> {
    assert!(rt; text.len() < 65_536);
    heap.new_text(text)?;
    Ok(())
}

/// Texts are added, and joined where that isn't too long.
fn make_texts(rt: &impl Abort, heap: &mut Heap, long: &str) -> Result<(), Stop> {
    add(rt, heap, "")?;
    add(rt, heap, "\u{e9}b")?;
    add(rt, heap, long)?;
    assert!(rt; text(heap, 1) == Some("\u{e9}b"));
    for (one, other, joined) in [(1, 2, None), (0, 2, Some(3)), (1, 1, Some(4))] {
        assert!(rt; join(rt, heap, one, other)? == joined);
    }
    Ok(())
}

#[test]
fn texts(rt: HostRuntime) -> Result<(), Fail> {
    let mut heap = Heap::new(rt.alloc());
    let long = long(rt.alloc(), 65_533)?;
    make_texts(&rt, &mut heap, &long)?;
    assert!(rt; text(&heap, 4) == Some("\u{e9}b\u{e9}b"));
    assert!(rt; text(&heap, 3) == Some(long.as_str()) && heap.texts() == 5);
    Ok(())
}

/// Two objects, of which the second is exported twice and the first once between.
fn export_three(rt: &impl Abort, heap: &mut Heap) -> Result<(), Stop> {
    heap.new_object(1, &[])?;
    heap.new_object(2, &[])?;
    for object in [1, 0, 1] {
        assert!(rt; object < 2 && heap.objects() == 2);
        heap.export(object)?;
    }
    Ok(())
}

#[test]
fn global_references(rt: HostRuntime) -> Result<(), Fail> {
    let mut heap = Heap::new(rt.alloc());
    export_three(&rt, &mut heap)?;
    for (id, class, object) in [(0, 2, 1), (1, 1, 0), (2, 2, 1)] {
        assert!(rt; id < 3 && heap.exports() == 3);
        assert!(rt; heap.opened(id) == Export { class, object });
    }
    Ok(())
}
