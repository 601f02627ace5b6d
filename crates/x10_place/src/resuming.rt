//! The result of a function that an activity sent to another place comes back.
ghost use Rattle.std.specs.Prelude.{◌≡◌, ◌<◌, ◌+◌, ◌^◌, IfErr, IfOk, IfSome, OnErr, OnOk, None, Some, false, length};
ghost use Rattle.x10_code.specs.declared.instr.Instr as instr;
ghost use Rattle.x10_frame.specs.Heads.{graph_of};
ghost use Rattle.x10_copy.specs.Arrived.{IsArrived, IsRefusal};
ghost use Rattle.x10_copy.specs.Taken.{IsTakenIn};
ghost use Rattle.x10_place.specs.Arrivals.{IsAwaiting, IsWaitingFor, GoesOnBy, ComesBack, IsBackRefused};
ghost use Rattle.x10_place.specs.Sending.{slots_of};
ghost use Rattle.x10_place.specs.StandsFor.{place_of, IsStanding};
ghost use Rattle.x10_place.specs.Stays.{IsPlaced};
ghost use Rattle.x10_place.specs.Stretches.{IsUntouched};

use crate::ground::Ground;
use crate::stay::Stay;
use crate::store::Store;
use std::alloc::Global;
use x10_code::{Instr, Op};
use x10_copy::{Refusal, Roots, arrive};
use x10_frame::FrameView;
use x10_model::Slot;
use x10_verify::Verified;

/// The AT at which a stay waits for a place.
fn awaited(verified: &Verified, stay: &Stay, from: u16) -> Option<Instr>
    requires { IsPlaced verified.now.program stay.now }
    ensures some { IfSome result (IsWaitingFor verified.now.program stay.now from) }
    ensures none { result ≡ None → (call : instr.Instr) → IsAwaiting verified.now.program stay.now
        from call → ⊥ }
{
    if !stay.away {
        return None;
    }
    let call = stay.instr(verified);
    if call.op != Op::At {
        return None;
    }
    if stay.frame().word(call.c) != u64::from(from) {
        return None;
    }
    Some(call)
}

/// Puts what a frame brings as the result of a function, if it has one, into the heap.
fn arrive_as(
    alloc: Global,
    verified: &Verified,
    store: &mut Store,
    view: &FrameView,
    from: u16,
    slot: Option<Slot>,
) -> Result<Roots, Refusal>
    ensures ok { IfOk result (λ roots. IsArrived verified.now.program store.old.here from
        store.old.heap (slots_of slot) (graph_of view.now) roots.items store.new.heap) }
    ensures taken { IfOk result (λ roots. IsTakenIn verified.now.program store.old.here
        store.old.heap (slots_of slot) view.now roots.items store.new.heap) }
    ensures store { OnOk result (store.new ≡ record store.old { heap = store.new.heap }) }
    ensures err { IfErr result (λ why. (store.new ≡ store.old) × IsRefusal verified.now.program
        store.old.here from store.old.heap (slots_of slot) (graph_of view.now) why) }
{
    let here = store.locality().here;
    let image = verified.image();
    match slot {
        Some(slot) => arrive(alloc, view, &mut store.heap, image, here, from, &[slot]),
        None => arrive(alloc, view, &mut store.heap, image, here, from, &[]),
    }
}

/// A stay goes on after its AT, with the result, if there is one.
fn come_back(stay: &mut Stay, register: u8, roots: &Roots)
    requires next { stay.old.top.pc + 1 < 2 ^ 16 }
    requires there { 0 < length roots.now.items → register < length stay.old.top.registers.items }
    ensures { GoesOnBy roots.now.items stay.old register stay.new }
{
    match roots.first() {
        Some(word) => stay.top.put(register, *word),
        None => stay.top.next(),
    }
    stay.away = false;
}

impl<'a> Ground<'a> {
    /// The stay with a key goes on with the result that comes from a place, if it waits for it. Where it is refused, nothing
    /// has changed.
    pub(crate) fn resume(
        &mut self,
        view: &FrameView,
        from: u16,
        waiting: u32,
    ) -> Result<(), Refusal>
        requires { IsStanding (place_of self.old.verified.now self.old.stays self.old.store false) }
        ensures ok { OnOk result (ComesBack self.old.verified.now.program self.old.stays
            self.old.store view.now from waiting self.new.stays self.new.store) }
        ensures err { OnErr result (IsUntouched self.old.stays self.old.store self.new.stays
            self.new.store) }
        ensures refused { IfErr result (IsBackRefused self.old.verified.now.program self.old.stays
            self.old.store view.now from waiting) }
        ensures verified { self.new.verified.now ≡ self.old.verified.now }
    {
        let verified = self.verified;
        verified.certificate();
        let Some(stay) = self.stays.get_mut(waiting as usize) else {
            return Err(Refusal::Segment);
        };
        let Some(call) = awaited(verified, stay, from) else {
            return Err(Refusal::Segment);
        };
        let slot = verified.image().signature(call.x as usize).result();
        let roots = arrive_as(self.alloc, verified, &mut self.store, view, from, slot)?;
        come_back(stay, call.a, &roots);
        Ok(())
    }
}
