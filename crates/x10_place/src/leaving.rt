//! The end of a stay.
ghost use Rattle.std.specs.Prelude.{◌≡◌, ◌<◌, ◌≤◌, ◌^◌, [], None, false, Err, IfErr, IfOk, OnErr, Some};
ghost use Rattle.std.specs.List.{AllByRecursion};
ghost use Rattle.slab.specs.Slab.{Updates};
ghost use Rattle.x10_code.specs.declared.op.Op.TheVariants as op;
ghost use Rattle.x10_copy.specs.Captured.{kinds_of, Refuses};
ghost use Rattle.x10_frame.specs.declared.head.What.TheVariants as what;
ghost use Rattle.x10_frame.specs.Heads.{head};
ghost use Rattle.x10_kinds.specs.declared.stop.Stop.TheVariants as stop;
ghost use Rattle.x10_place.specs.Frames.{IsFetchedFor};
ghost use Rattle.x10_place.specs.declared.outcome.Deed.TheVariants as deed;
ghost use Rattle.x10_place.specs.Parting.{TakesAlong, Reports, LeavesAt};
ghost use Rattle.x10_place.specs.Sending.{StandForSome, slots_of_end, words_from};
ghost use Rattle.x10_place.specs.StandsFor.{place_of, IsHindered};
ghost use Rattle.x10_place.specs.Stays.{totals_in};
ghost use Rattle.x10_place.specs.Stretches.{IsForPlace, IsUntouched};

use crate::call_frame::CallFrame;
use crate::ground::Ground;
use crate::sending::frame;
use crate::sent::{Outgoing, Sent};
use crate::stay::{Origin, Stay};
use crate::store::Store;
use slab::Slab;
use std::alloc::Global;
use x10_code::Instr;
use x10_frame::{Head, What, write_counts};
use x10_kinds::Stop;
use x10_model::Finish;
use x10_verify::Verified;

/// Removes a stay, and keeps its call frame for another one.
fn remove(stays: &mut Slab<Stay>, store: &mut Store, key: usize)
    ensures gone { Updates stays.old stays.new key None }
    ensures kept { store.new ≡ store.old }
{
    if let Some(stay) = stays.try_remove(key) {
        store.keep(stay.into_frame());
    }
}

/// The frame that takes the result of a function back to the stay that waits for it.
fn result(
    alloc: Global,
    verified: &Verified,
    store: &mut Store,
    top: &CallFrame,
    instr: Instr,
    origin: Origin,
) -> Result<Outgoing, Stop>
    requires fetched { IsFetchedFor verified.now.program top.now instr }
    requires op { instr.op ≡ op.Ret }
    requires standing { StandForSome verified.now.program store.old (slots_of_end
        verified.now.program top.now) (words_from top.now instr.a (slots_of_end verified.now.program
        top.now)) }
    ensures to { IfOk result (λ out. out.to ≡ origin.place) }
    ensures copy { IfOk result (λ out. TakesAlong verified.now.program store.old (slots_of_end
        verified.now.program top.now) (words_from top.now instr.a (slots_of_end
        verified.now.program top.now)) (head store.old.here origin.place
        (what.Back origin.key)) out.bytes.items) }
    ensures err { IfErr result (λ why. Refuses verified.now.program.classes store.old.heap (kinds_of
        (slots_of_end verified.now.program top.now)) (words_from top.now instr.a (slots_of_end
        verified.now.program top.now)) why) }
    ensures kept { store.new ≡ store.old }
{
    verified.certificate();
    let head = Head {
        from: store.locality().here,
        to: origin.place,
        what: What::Back {
            waiting: origin.key,
        },
    };
    let signature = verified.image().signature(usize::from(top.function));
    let first = usize::from(instr.a);
    let bytes = match signature.result() {
        Some(slot) => frame(
            alloc,
            verified,
            store,
            &head,
            &[slot],
            &top.registers[first..first + 1],
        )?,
        None => frame(alloc, verified, store, &head, &[], &[])?,
    };
    Ok(Outgoing {
        to: origin.place,
        bytes,
    })
}

/// Each count has 32 bits. It does nothing.
fn counts_are_small(counts: &[u32])
    ensures { AllByRecursion (λ n. n < 2 ^ 32) counts.now }
{
    let _ = counts;
}

/// The report that is due at the home of a finish when one more activity under it ends here, if there is one.
fn report(alloc: Global, store: &Store, finish: Finish) -> Result<Option<Outgoing>, Stop>
    requires live { 0 < (totals_in store.now finish).live }
    requires within { store.now.here < store.now.places }
    requires home { finish.home < store.now.places }
    requires few { store.now.places ≤ 64 }
    ensures ok { IfOk result (Reports store.now finish) }
    ensures err { IfErr result (λ why. why ≡ stop.Memory) }
{
    let Some((sent, received)) = store.due(finish) else {
        return Ok(None);
    };
    counts_are_small(sent);
    counts_are_small(received);
    let here = store.locality().here;
    match write_counts(alloc, here, finish.home, finish.number, sent, received) {
        Ok(bytes) => Ok(Some(Outgoing {
            to: finish.home,
            bytes,
        })),
        Err(_) => Err(Stop::Memory),
    }
}

impl<'a> Ground<'a> {
    /// The stay with a key ends with the RET of its last function. Where it is refused, nothing has changed.
    pub(crate) fn leave(&mut self, key: usize, instr: Instr) -> Result<Sent, Stop>
        requires { IsForPlace self.old.verified.now self.old.stays self.old.store key deed.Leave
            instr }
        ensures ok { IfOk result (λ sent. LeavesAt self.old.verified.now.program self.old.stays
            self.old.store key sent self.new.stays self.new.store) }
        ensures err { OnErr result (IsUntouched self.old.stays self.old.store self.new.stays
            self.new.store) }
        ensures refused { IfErr result (IsHindered (place_of self.old.verified.now self.old.stays
            self.old.store false) key) }
        ensures verified { self.new.verified.now ≡ self.old.verified.now }
    {
        let verified = self.verified;
        verified.certificate();
        let stay = &self.stays[key];
        let message = match stay.back {
            Some(origin) => Some(result(
                self.alloc,
                verified,
                &mut self.store,
                stay.frame(),
                instr,
                origin,
            )?),
            None => None,
        };
        let inherited = stay.inherited;
        let report = report(self.alloc, &self.store, inherited)?;
        self.store.end(inherited);
        remove(&mut self.stays, &mut self.store, key);
        Ok(Sent { message, report })
    }
}
