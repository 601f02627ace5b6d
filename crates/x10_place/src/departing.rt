//! An activity that is sent to a place, or goes on there.
ghost use Rattle.std.specs.Prelude.{◌≡◌, ◌+◌, ◌<◌, ◌^◌, false, Err, IfErr, IfOk, OnErr, Some};
ghost use Rattle.slab.specs.Slab.{get, Updates};
ghost use Rattle.x10_copy.specs.Captured.{kinds_of, Refuses};
ghost use Rattle.x10_kinds.specs.declared.limit.Limit.{Limit};
ghost use Rattle.x10_kinds.specs.declared.stop.Stop.TheVariants as stop;
ghost use Rattle.x10_frame.specs.Heads.{IsGraphHead, most_roots};
ghost use Rattle.x10_place.specs.declared.outcome.Deed.TheVariants as deed;
ghost use Rattle.x10_place.specs.Frames.{IsFetchedFor};
ghost use Rattle.x10_place.specs.Parting.{IsGoing, TakesAlong, head_sent, DepartsBy, DepartsAt};
ghost use Rattle.x10_place.specs.Sending.{StandForSome, slots_of_call, words_from};
ghost use Rattle.x10_place.specs.StandsFor.{place_of, IsHindered, OverfillsSend};
ghost use Rattle.x10_place.specs.Stays.{StayState};
ghost use Rattle.x10_place.specs.Stretches.{IsForPlace, IsUntouched};

use crate::call_frame::CallFrame;
use crate::ground::Ground;
use crate::outcome::Departure;
use crate::sending::{frame, parameters};
use crate::sent::{Outgoing, Sent};
use crate::stay::Stay;
use crate::store::Store;
use slab::Slab;
use std::alloc::Global;
use x10_code::Instr;
use x10_frame::{Head, What};
use x10_kinds::{Limit, Stop};
use x10_model::Finish;
use x10_verify::Verified;

/// The head of the frame that an AT or ATA sends.
fn head_of(
    departure: Departure,
    here: u16,
    to: u16,
    key: usize,
    under: Finish,
    function: u16,
) -> Head
    requires key { key < 2 ^ 32 }
    ensures value { result ≡ head_sent departure here to key under function }
    ensures graph { IsGraphHead result }
    ensures roots { most_roots result ≡ 16 }
{
    let what = match departure {
        Departure::At => What::Shift {
            waiting: key as u32,
            under,
            function,
        },
        Departure::Ata => What::Spawn { under, function },
    };
    Head {
        from: here,
        to,
        what,
    }
}

/// The frame with a head that takes along the arguments of the function that an instruction names.
fn arguments(
    alloc: Global,
    verified: &Verified,
    store: &mut Store,
    top: &CallFrame,
    instr: Instr,
    head: &Head,
) -> Result<Vec<u8>, Stop>
    requires fetched { IsFetchedFor verified.now.program top.now instr }
    requires op { IsGoing instr.op }
    requires graph { IsGraphHead head.now }
    requires roots { most_roots head.now ≡ 16 }
    requires standing { StandForSome verified.now.program store.old (slots_of_call
        verified.now.program instr) (words_from top.now instr.b (slots_of_call verified.now.program
        instr)) }
    ensures copy { IfOk result (λ bytes. TakesAlong verified.now.program store.old (slots_of_call
        verified.now.program instr) (words_from top.now instr.b (slots_of_call
        verified.now.program instr)) head.now bytes.items) }
    ensures err { IfErr result (λ why. Refuses verified.now.program.classes store.old.heap (kinds_of
        (slots_of_call verified.now.program instr)) (words_from top.now instr.b (slots_of_call
        verified.now.program instr)) why) }
    ensures kept { store.new ≡ store.old }
{
    verified.certificate();
    let signature = verified.image().signature(instr.x as usize);
    let slots = parameters(&signature);
    let count = signature.parameters();
    let first = usize::from(instr.b);
    let words = &top.registers[first..first + count];
    frame(alloc, verified, store, head, &slots[..count], words)
}

/// The stay with a key waits at its AT, or goes on after its ATA.
fn part(stays: &mut Slab<Stay>, key: usize, departure: Departure)
    requires { (a : StayState) × (get stays.old key ≡ Some a) × (a.top.pc + 1 < 2 ^ 16) }
    ensures { (a : StayState) → get stays.old key ≡ Some a → (b : StayState) × DepartsBy departure a
        b × Updates stays.old stays.new key (Some b) }
{
    let Some(stay) = stays.get_mut(key) else {
        return;
    };
    match departure {
        Departure::At => stay.away = true,
        Departure::Ata => stay.top.next(),
    }
}

impl<'a> Ground<'a> {
    /// The AT or ATA of the stay with a key sends its arguments. Where it is refused, nothing has changed.
    pub(crate) fn depart(
        &mut self,
        key: usize,
        departure: Departure,
        instr: Instr,
    ) -> Result<Sent, Stop>
        requires { IsForPlace self.old.verified.now self.old.stays self.old.store key (deed.Depart
            departure) instr }
        ensures ok { IfOk result (λ sent. DepartsAt self.old.verified.now.program self.old.stays
            self.old.store key sent self.new.stays self.new.store) }
        ensures err { OnErr result (IsUntouched self.old.stays self.old.store self.new.stays
            self.new.store) }
        ensures refused { IfErr result (IsHindered (place_of self.old.verified.now self.old.stays
            self.old.store false) key) }
        ensures full { (limit : Limit) (a : StayState) → get self.old.stays key ≡ Some a →
            OverfillsSend (place_of self.old.verified.now self.old.stays self.old.store false) a
            instr limit → result ≡ Err (stop.Limit limit) }
        ensures verified { self.new.verified.now ≡ self.old.verified.now }
    {
        let verified = self.verified;
        verified.certificate();
        let stay = &self.stays[key];
        let here = self.store.locality().here;
        let under = stay.innermost(here);
        let top = stay.frame();
        let to = top.word(instr.c) as u16;
        if self.store.sent(under, to) == u32::MAX {
            return Err(Stop::Limit(Limit::Activities));
        }
        let head = head_of(departure, here, to, key, under, instr.x as u16);
        let bytes = arguments(self.alloc, verified, &mut self.store, top, instr, &head)?;
        self.store.spawned(under, to)?;
        part(&mut self.stays, key, departure);
        Ok(Sent {
            message: Some(Outgoing { to, bytes }),
            report: None,
        })
    }
}
