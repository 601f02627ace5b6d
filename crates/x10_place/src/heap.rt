//! What words name in the heap of a place: a text or a rail is its number there, an object one more, since 0 is null.
ghost use Rattle.std.specs.Prelude.{◌≡◌, ◌+◌, ◌-◌, ◌<◌, List, ℕ, true, false, IsSome, None, Some, length, pos, slice_get};
ghost use Rattle.x10_heap.specs.References.{id_of};
ghost use Rattle.x10_heap.specs.Heaps.{ObjectState, HasField, with_field};
ghost use Rattle.x10_model.specs.Results.{byte_at, byte_value};
ghost use Rattle.x10_heap.specs.declared.export.Export.{Export};
ghost use Rattle.x10_place.specs.Frames.{as_value, byte_set};

use x10_heap::{Heap, id_in};

/// The word in a field of an object.
#[inline(always)]
pub(crate) fn field(heap: &Heap, object: u64, field: u8) -> u64
    requires not_null { 0 < object }
    requires there { HasField heap.now (object - 1) field }
    ensures { (o : ObjectState) → slice_get heap.now.objects (object - 1) ≡ Some o
        → slice_get o.fields field ≡ Some result }
{
    heap.fits();
    heap.get((object - 1) as u32, field)
}

/// The word of the object that a global reference of this place names.
#[inline(always)]
pub(crate) fn object_of(heap: &Heap, reference: u64) -> u64
    requires { id_of reference < length heap.now.exports }
    ensures { (e : Export) → slice_get heap.now.exports (id_of reference) ≡ Some e
        → result ≡ e.object + 1 }
{
    heap.fits();
    u64::from(heap.opened(id_in(reference)).object) + 1
}

/// Writes a word to a field of an object.
#[inline(always)]
pub(crate) fn set_field(heap: &mut Heap, object: u64, field: u8, word: u64)
    requires not_null { 0 < object }
    requires there { HasField heap.old (object - 1) field }
    ensures { (o : ObjectState) → slice_get heap.old.objects (object - 1) ≡ Some o
        → heap.new ≡ with_field heap.old (object - 1) o field word }
{
    heap.fits();
    heap.put((object - 1) as u32, field, word);
}

/// How many bytes a rail has.
#[inline(always)]
pub(crate) fn rail_length(heap: &Heap, rail: u64) -> i64
    requires { rail < length heap.now.rails }
    ensures { (bytes : List ℕ) → slice_get heap.now.rails rail ≡ Some bytes
        → result ≡ pos (length bytes) }
{
    heap.fits();
    heap.rail(rail as u32).len() as i64
}

/// How many bytes a text has.
#[inline(always)]
pub(crate) fn text_length(heap: &Heap, text: u64) -> i64
    requires { text < length heap.now.texts }
    ensures { (bytes : List ℕ) → slice_get heap.now.texts text ≡ Some bytes
        → result ≡ pos (length bytes) }
{
    heap.fits();
    heap.text(text as u32).len() as i64
}

/// The byte of a rail at an index, if there is one.
#[inline(always)]
pub(crate) fn rail_byte(heap: &Heap, rail: u64, index: i64) -> Option<i64>
    requires { rail < length heap.now.rails }
    ensures { (bytes : List ℕ) → slice_get heap.now.rails rail ≡ Some bytes
        → as_value result ≡ byte_value (byte_at bytes index) }
{
    heap.fits();
    let index = usize::try_from(index).ok()?;
    let byte = heap.rail_get(rail as u32, index)?;
    Some(i64::from(byte))
}

/// Writes the lowest eight bits of a number to a byte of a rail. False where there is no such byte; then nothing has
/// changed.
#[inline(always)]
pub(crate) fn set_rail_byte(heap: &mut Heap, rail: u64, index: i64, number: i64) -> bool
    requires { rail < length heap.old.rails }
    ensures some { result ≡ true → (bytes : List ℕ) → slice_get heap.old.rails rail ≡ Some bytes
        → IsSome (byte_at bytes index) × (heap.new ≡ byte_set heap.old rail bytes index number) }
    ensures none { result ≡ false → (bytes : List ℕ) → slice_get heap.old.rails rail ≡ Some bytes
        → (byte_at bytes index ≡ None) × (heap.new ≡ heap.old) }
{
    heap.fits();
    let Ok(at) = usize::try_from(index) else {
        return false;
    };
    if at >= heap.rail(rail as u32).len() {
        return false;
    }
    heap.rail_set(rail as u32, at, number.rem_euclid(256) as u8)
}
