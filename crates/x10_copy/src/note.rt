//! What the words of a message lead to.

ghost use Rattle.std.specs.Prelude.{◌≡◌, ℕ, ◌^◌, ◌<◌, IfOk, IfErr, slice_index};
ghost use Rattle.x10_copy.specs.Names.{noted_all, AreWords};
ghost use Rattle.x10_copy.specs.Graphs.{noted_object, object_at, IsWordy};
ghost use Rattle.x10_copy.specs.Captured.{kinds_of, IsOver};

use crate::marks::Marks;
use x10_heap::Heap;
use x10_image::{ClassView, ImageView};
use x10_kinds::Stop;
use x10_model::Slot;

/// Takes along what the words that are passed lead to.
pub fn note_roots(marks: &mut Marks, slots: &[Slot], words: &[u64]) -> Result<(), Stop>
    requires { AreWords (kinds_of slots.now) words.now }
    ensures ok { IfOk result (λ _. marks.new ≡ noted_all marks.old (kinds_of slots.now) words.now) }
    ensures err { IfErr result (λ why. IsOver (noted_all marks.old (kinds_of slots.now) words.now)
        why) }
    ensures small { (j : ℕ) → slice_index words.now j < 2 ^ 64 }
{
    for i in 0..words.len() {
        marks.note(slots[i].kind, words[i])?;
    }
    Ok(())
}

/// Takes along what the words in an object's fields lead to.
#[inline(always)]
fn note_fields(marks: &mut Marks, class: &ClassView, words: &[u64]) -> Result<(), Stop>
    requires { AreWords class.now words.now }
    ensures ok { IfOk result (λ _. marks.new ≡ noted_all marks.old class.now words.now) }
    ensures err { IfErr result (λ why. IsOver (noted_all marks.old class.now words.now) why) }
    ensures small { (j : ℕ) → slice_index words.now j < 2 ^ 64 }
{
    for j in 0..words.len() {
        marks.note(class.field(j), words[j])?;
    }
    Ok(())
}

/// Takes along what an object leads to.
#[inline(always)]
pub fn note_object(
    marks: &mut Marks,
    heap: &Heap,
    image: &ImageView,
    object: u32,
) -> Result<(), Stop>
    requires { IsWordy image.now.classes heap.now object }
    ensures ok { IfOk result (λ _. marks.new ≡ noted_object image.now.classes heap.now marks.old
        object) }
    ensures err { IfErr result (λ why. IsOver (noted_object image.now.classes heap.now marks.old
        object) why) }
    ensures small { (j : ℕ) → slice_index (object_at heap.now object).fields j < 2 ^ 64 }
{
    let class = image.class(usize::from(heap.class(object)));
    note_fields(marks, &class, heap.fields(object))
}
