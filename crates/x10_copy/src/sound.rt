//! Whether words stand for something, for callers that don't know it otherwise.

ghost use Rattle.std.specs.Prelude.{◌≡◌, ◌↔◌, ◌<◌, IsTrue, length, slice_get};
ghost use Rattle.x10_copy.specs.Names.{AreSound};
ghost use Rattle.x10_copy.specs.Graphs.{object_at, IsSoundHeap};
ghost use Rattle.x10_copy.specs.Captured.{kinds_of};
ghost use Rattle.x10_copy.specs.Soundness as spec;

use x10_heap::{Heap, has_id, home_in};
use x10_image::{ClassView, ImageView};
use x10_kinds::Kind;
use x10_model::Slot;

/// Whether a word is one more than the number of an object of a class.
fn object_word(heap: &Heap, class: u16, word: u64) -> bool
    ensures { result ≡ spec.object_word heap.now class word }
{
    if word == 0 {
        return false;
    }
    if word - 1 >= heap.objects() as u64 {
        return false;
    }
    heap.class((word - 1) as u32) == class
}

/// Whether a word stands for a value of a kind.
fn word_sound(heap: &Heap, places: u16, kind: Kind, word: u64) -> bool
    ensures { result ≡ spec.word_sound places heap.now kind word }
{
    match kind {
        Kind::Int => true,
        Kind::Place => word < u64::from(places),
        Kind::Text => word < heap.texts() as u64,
        Kind::Rail => word < heap.rails() as u64,
        Kind::Obj(class) => object_word(heap, class, word),
        Kind::Opt(class) => {
            if word == 0 {
                return true;
            }
            object_word(heap, class, word)
        }
        Kind::GRef(_) => home_in(word) < places && has_id(word),
    }
}

fn roots_sound(heap: &Heap, places: u16, slots: &[Slot], words: &[u64]) -> bool
    ensures { result ≡ spec.words_sound places heap.now (kinds_of slots.now) words.now }
{
    if words.len() != slots.len() {
        return false;
    }
    for i in 0..words.len() {
        if !word_sound(heap, places, slots[i].kind, words[i]) {
            return false;
        }
    }
    true
}

fn fields_sound(heap: &Heap, places: u16, class: &ClassView, words: &[u64]) -> bool
    ensures { result ≡ spec.words_sound places heap.now class.now words.now }
{
    if words.len() != class.len() {
        return false;
    }
    for j in 0..words.len() {
        if !word_sound(heap, places, class.field(j), words[j]) {
            return false;
        }
    }
    true
}

fn object_sound(heap: &Heap, image: &ImageView, places: u16, object: u32) -> bool
    requires { object < length heap.now.objects }
    ensures { result ≡ spec.object_sound image.now.classes places heap.now
        (object_at heap.now object) }
{
    let class = usize::from(heap.class(object));
    if class >= image.classes() {
        return false;
    }
    fields_sound(heap, places, &image.class(class), heap.fields(object))
}

fn objects_sound(heap: &Heap, image: &ImageView, places: u16) -> bool
    ensures { result ≡ spec.heap_sound image.now.classes places heap.now }
{
    for object in 0..heap.objects() {
        if !object_sound(heap, image, places, object as u32) {
            return false;
        }
    }
    true
}

/// Whether words stand for values of the kinds of the slots, one for each. Linear in the words.
pub fn words_are_sound(heap: &Heap, places: u16, slots: &[Slot], words: &[u64]) -> bool
    ensures { IsTrue result ↔ AreSound places heap.now (kinds_of slots.now) words.now }
{
    heap.fits();
    roots_sound(heap, places, slots, words)
}

/// Whether each object of a heap has a word for each field of its class, which stands for a value of the field's kind.
/// Linear in the heap.
pub fn heap_is_sound(heap: &Heap, image: &ImageView, places: u16) -> bool
    ensures { IsTrue result ↔ IsSoundHeap image.now.classes places heap.now }
{
    heap.fits();
    image.fits();
    objects_sound(heap, image, places)
}
