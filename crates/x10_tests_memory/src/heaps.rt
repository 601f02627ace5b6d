//! A heap by itself where memory is refused: each call adds a part or changes nothing.
use std::process::Abort;
use std::test::*;
use x10_heap::Heap;
use x10_kinds::Stop;

/// How many parts a call has added, which is one or none; it fails only for lack of memory.
fn added(rt: &impl Abort, answer: Result<u32, Stop>) -> usize {
    assert!(rt; answer.is_ok() || answer == Err(Stop::Memory));
    usize::from(answer.is_ok())
}

/// How many texts are added where the first one is joined with itself, if there is one.
fn joined(heap: &mut Heap) -> usize {
    usize::from(heap.texts() > 0 && heap.join(0, 0).is_ok())
}

#[test]
fn memory_refused(rt: HostRuntime) {
    let mut heap = Heap::new(rt.alloc());
    let _room = heap.reserve(2, 2, 2);
    let objects = added(&rt, heap.new_object(1, &[5; 9]));
    let rails = added(&rt, heap.new_rail(9));
    let texts = added(&rt, heap.new_text("a text"));
    assert!(rt; (heap.objects(), heap.rails(), heap.texts()) == (objects, rails, texts));
    if heap.objects() > 0 {
        let exports = added(&rt, heap.export(0));
        assert!(rt; heap.exports() == exports);
    }
    let more = joined(&mut heap);
    assert!(rt; heap.texts() == texts.saturating_add(more));
}
