//! What a frame brings, put into a heap.

ghost use Rattle.std.specs.Prelude.{◌≡◌, ℕ, IfOk, IfErr, IfSome, List, length};
ghost use Rattle.x10_frame.specs.Heads.{graph_of};
ghost use Rattle.x10_model.specs.Marshalling.{snapshot_of};
ghost use Rattle.x10_model.specs.Modules.{Module};
ghost use Rattle.x10_model.specs.declared.slot.Slot.{Slot};
ghost use Rattle.x10_copy.specs.Arrived.{arrived, FitsArrival, IsRefusal, IsFirstFault, IsFound, IsBrought, IsArrived, IsForRoom, IsLonger, StopsAll, same_stop};
ghost use Rattle.x10_copy.specs.Taken.{IsTakenIn};

use crate::adding::{Bases, Roots, add_objects, add_rails, add_texts, root_words};
use crate::fitting::{have_homes, nodes_found, roots_exported, roots_fit};
use crate::refusal::Refusal;
use std::alloc::Global;
use x10_frame::FrameView;
use x10_heap::Heap;
use x10_image::ImageView;
use x10_kinds::Stop;
use x10_model::Slot;

/// Whether all global references with their home here name exports of their classes, where all values are of their kinds.
fn values_found(
    view: &FrameView,
    heap: &Heap,
    image: &ImageView,
    here: u16,
    slots: &[Slot],
) -> Option<bool>
    ensures found { IsFound image.now here heap.now slots.now (graph_of view.now) result }
    ensures long { IfSome result (λ _. length (graph_of view.now).roots ≡ length slots.now) }
{
    if !roots_fit(view, slots) {
        return None;
    }
    let Some(exported) = nodes_found(view, heap, image, here) else {
        return None;
    };
    if !exported {
        return Some(false);
    }
    Some(roots_exported(view, heap, here))
}

/// What is asked of a frame's values before they arrive at the place `here`: `Kind` where they aren't of the kinds of `slots`,
/// one for each, or an object doesn't have the fields of its class; else `Home` where a value whose slot asks for a home is a
/// global reference with a home other than `home`; else `Ref` where a global reference with its home here names no export of
/// its class. Linear in the frame.
pub fn check(
    view: &FrameView,
    heap: &Heap,
    image: &ImageView,
    here: u16,
    home: u16,
    slots: &[Slot],
) -> Result<(), Refusal>
    ensures ok { IfOk result (λ _. FitsArrival image.now here home heap.now slots.now
        (snapshot_of (graph_of view.now))) }
    ensures err { IfErr result (λ why. IsFirstFault image.now here home heap.now slots.now
        (graph_of view.now) why) }
{
    let Some(exported) = values_found(view, heap, image, here, slots) else {
        return Err(Refusal::Kind);
    };
    if !have_homes(view, slots, home) {
        return Err(Refusal::Home);
    }
    if !exported {
        return Err(Refusal::Ref);
    }
    Ok(())
}

fn add_all(heap: &mut Heap, view: &FrameView, bases: &Bases) -> Result<(), Stop>
    requires texts { bases.now.texts ≡ length heap.old.texts }
    requires rails { bases.now.rails ≡ length heap.old.rails }
    requires objects { bases.now.objects ≡ length heap.old.objects }
    ensures ok { IfOk result (λ _. heap.new ≡ arrived heap.old (graph_of view.now)) }
    ensures err { IfErr result (λ why. IsLonger heap.old heap.new
        × StopsAll heap.old (graph_of view.now) why) }
{
    add_texts(heap, view)?;
    add_rails(heap, view)?;
    add_objects(heap, view, bases)
}

/// Why a place takes no message in, where a part of what it does was stopped.
pub fn refusal_of(why: Stop) -> Refusal
    ensures { result ≡ same_stop why }
{
    match why {
        Stop::Memory => Refusal::Memory,
        Stop::Limit(limit) => Refusal::Limit(limit),
        Stop::Stopped => Refusal::Stopped,
    }
}

/// Adds a copy of what a frame brings to all that a heap has, and answers the words of the values that were passed: text i
/// becomes the text whose number is the heap's next one plus i, and likewise for rails and objects. Each text and rail is
/// copied once, from the frame. A report brings nothing. It asks nothing of the values: see `check`.
///
/// Refused, with the heap as before: `Limit` where the heap would have too many objects, texts or rails, or `Memory`.
/// Linear in the frame.
pub fn bring(alloc: Global, view: &FrameView, heap: &mut Heap) -> Result<Roots, Refusal>
    ensures ok { IfOk result (λ roots. IsBrought heap.old
        (graph_of view.now) roots.items heap.new) }
    ensures taken { IfOk result (λ roots. (m : Module) (here home : ℕ) (slots : List Slot)
        → FitsArrival m here home heap.old slots (snapshot_of (graph_of view.now))
        → IsTakenIn m here heap.old slots view.now roots.items heap.new) }
    ensures err { IfErr result (λ why. (heap.new ≡ heap.old)
        × IsForRoom heap.old (graph_of view.now) why) }
{
    let (objects, rails, texts) = (heap.objects(), heap.rails(), heap.texts());
    let bases = Bases {
        texts: texts as u32,
        rails: rails as u32,
        objects: objects as u32,
    };
    let words = root_words(alloc, view, &bases)?;
    heap.reserve(view.nodes(), view.rails(), view.texts())?;
    match add_all(heap, view, &bases) {
        Ok(()) => {
            heap.fits();
            Ok(words)
        }
        Err(why) => {
            heap.truncate(objects, rails, texts);
            Err(refusal_of(why))
        }
    }
}

/// Puts a copy of what a frame brings into the heap of the place `here`, as `bring` does, where `check` finds no fault.
///
/// Refused, with the heap as before: for the first fault that `check` finds, else for lack of room, as `bring` is.
pub fn arrive(
    alloc: Global,
    view: &FrameView,
    heap: &mut Heap,
    image: &ImageView,
    here: u16,
    home: u16,
    slots: &[Slot],
) -> Result<Roots, Refusal>
    ensures ok { IfOk result (λ roots. IsArrived image.now here home heap.old slots.now
        (graph_of view.now) roots.items heap.new) }
    ensures taken { IfOk result (λ roots. IsTakenIn image.now here heap.old slots.now view.now
        roots.items heap.new) }
    ensures err { IfErr result (λ why. (heap.new ≡ heap.old)
        × IsRefusal image.now here home heap.old slots.now (graph_of view.now) why) }
{
    check(view, heap, image, here, home, slots)?;
    bring(alloc, view, heap)
}
