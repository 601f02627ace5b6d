//! What a message takes along, as the bytes of a frame.
ghost use Rattle.std.specs.Prelude.{◌≡◌, ◌<◌, ◌≤◌, ◌+◌, IfErr, IfOk, length, take};
ghost use Rattle.std.specs.List.{AllByRecursion};
ghost use Rattle.x10_copy.specs.Captured.{kinds_of, IsCopied, Refuses};
ghost use Rattle.x10_frame.specs.Heads.{IsGraphHead, most_roots};
ghost use Rattle.x10_model.specs.Modules.{FitsSlot};
ghost use Rattle.x10_place.specs.Sending.{StandForSome};

use crate::store::Store;
use std::alloc::Global;
use x10_copy::capture;
use x10_copy::laws::standing_is_sound;
use x10_frame::Head;
use x10_image::SigView;
use x10_kinds::{Kind, Stop};
use x10_model::Slot;
use x10_verify::Verified;

/// The parameters of a function, followed by slots that mean nothing.
pub(crate) fn parameters(signature: &SigView) -> [Slot; 16]
    requires { length signature.now.parameters ≤ 16 }
    ensures { take (length signature.now.parameters) result ≡ signature.now.parameters }
{
    let slot = Slot {
        kind: Kind::Int,
        home_here: false,
    };
    let mut slots = [slot; 16];
    for i in 0..signature.parameters() {
        slots[i] = signature.parameter(i);
    }
    slots
}

/// The frame with a head that takes words along, of the kinds of these slots, and all that they lead to. That the words
/// stand for values follows from the verifier's rule at the AT or RET; that the numbers of the head fit, from `IsOfRun` and
/// from `keys` of `StandsFor`.
pub(crate) fn frame(
    alloc: Global,
    verified: &Verified,
    store: &mut Store,
    head: &Head,
    slots: &[Slot],
    words: &[u64],
) -> Result<Vec<u8>, Stop>
    requires graph { IsGraphHead head.now }
    requires few { length words.now ≤ most_roots head.now }
    requires standing { StandForSome verified.now.program store.old slots.now words.now }
    requires slots { AllByRecursion (FitsSlot (length verified.now.program.classes)) slots.now }
    ensures copy { IfOk result (λ bytes. IsCopied verified.now.program.classes store.old.places
        store.old.heap (kinds_of slots.now) words.now head.now bytes.items) }
    ensures err { IfErr result (λ why. Refuses verified.now.program.classes store.old.heap
        (kinds_of slots.now) words.now why) }
    ensures kept { store.new ≡ store.old }
{
    verified.certificate();
    let places = store.locality().places;
    let image = verified.image();
    standing_is_sound();
    capture(
        alloc,
        &mut store.marks,
        &store.heap,
        image,
        places,
        head,
        slots,
        words,
    )
}
