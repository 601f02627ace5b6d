//! What a message takes along, before it is written.

ghost use Rattle.std.specs.Prelude.{◌≡◌, ℕ, ◌<◌, ◌≤◌, IfOk, IfErr, length, slice_index};
ghost use Rattle.x10_copy.specs.Names.{AreSound};
ghost use Rattle.x10_copy.specs.Graphs.{IsSoundHeap};
ghost use Rattle.x10_copy.specs.Captured.{kinds_of, Refuses};
ghost use Rattle.x10_copy.specs.Walks.{Walked};

use crate::marks::Marks;
use crate::note::{note_object, note_roots};
use x10_heap::Heap;
use x10_image::ImageView;
use x10_kinds::Stop;
use x10_model::Slot;

/// How many bytes come before each object's fields.
const NODE: usize = 3;

/// How many objects are looked at together before the turn of the first one. Memory then brings them at the same time:
/// objects that name one another at random lie all over it, and waiting for it takes most of a capture's time. Their fields
/// are read in their turns.
pub const TOGETHER: usize = 16;

/// How many bytes these objects take, without what follows the tags of their fields.
#[inline(always)]
pub fn size_of(marks: &Marks, heap: &Heap, from: usize, to: usize) -> usize
    requires there { (k : ℕ) → k < length marks.now.objects
        → slice_index marks.now.objects k < length heap.now.objects }
    requires within { to ≤ length marks.now.objects }
{
    let mut bytes: usize = 0;
    for k in from..to {
        let tags = heap.fields(marks.object(k)).len();
        bytes = bytes.wrapping_add(NODE).wrapping_add(tags);
    }
    bytes
}

/// Looks at the object whose turn it is, and at some of those after it, where it is the first that wasn't looked at yet.
/// Answers how many have been looked at by now.
#[inline(always)]
fn look_ahead(marks: &mut Marks, heap: &Heap, turn: usize, seen: usize) -> usize
    requires there { (k : ℕ) → k < length marks.old.objects
        → slice_index marks.old.objects k < length heap.now.objects }
    requires turn { turn < length marks.old.objects }
    ensures { marks.new ≡ marks.old }
{
    if turn < seen {
        return seen;
    }
    let near = marks.objects().min(turn + TOGETHER);
    let bytes = size_of(marks, heap, turn, near);
    marks.take_room(bytes);
    near
}

/// Takes along all that the words lead to: first what they lead to themselves, and then what each object leads to, in
/// the order of their numbers. Linear in what is taken along.
pub fn mark(
    marks: &mut Marks,
    heap: &Heap,
    image: &ImageView,
    places: u16,
    slots: &[Slot],
    words: &[u64],
) -> Result<(), Stop>
    requires words { AreSound places heap.now (kinds_of slots.now) words.now }
    requires heap { IsSoundHeap image.now.classes places heap.now }
    ensures ok { IfOk result (λ _. Walked image.now.classes places heap.now
        (kinds_of slots.now) words.now (length marks.new.objects) marks.new) }
    ensures err { IfErr result (λ why. Refuses image.now.classes heap.now
        (kinds_of slots.now) words.now why) }
{
    marks.clear();
    note_roots(marks, slots, words)?;
    let (mut k, mut seen) = (0usize, 0usize);
    while k < marks.objects() {
        seen = look_ahead(marks, heap, k, seen);
        let object = marks.object(k);
        note_object(marks, heap, image, object)?;
        k += 1;
    }
    Ok(())
}
