//! An activity that begins at its place.
ghost use Rattle.std.specs.Prelude.{◌≡◌, ◌+◌, ◌<◌, ◌^◌, false, Err, IfErr, IfOk, OnErr, OnOk, Some};
ghost use Rattle.slab.specs.Slab.{get, Updates};
ghost use Rattle.x10_code.specs.declared.op.Op.TheVariants as op;
ghost use Rattle.x10_kinds.specs.declared.limit.Limit.{Limit};
ghost use Rattle.x10_kinds.specs.declared.stop.Stop.TheVariants as stop;
ghost use Rattle.x10_place.specs.Frames.{IsFetchedFor};
ghost use Rattle.x10_place.specs.StandsFor.{place_of, OverfillsBegin};
ghost use Rattle.x10_place.specs.Stays.{StayState, GoesNext};
ghost use Rattle.x10_place.specs.Messages.{no_sent as nothing_sent};
ghost use Rattle.x10_place.specs.Stretches.{BeginsAt, IsUntouched, RefusesBegin};

use crate::ground::Ground;
use crate::sent::{Sent, no_sent};
use crate::stay::Stay;
use slab::Slab;
use x10_code::Instr;
use x10_kinds::{Limit, Stop};

/// The greatest key that a stay may have.
pub(crate) const MOST_KEYS: usize = 4_294_967_295;

/// The stay with a key goes on to its next instruction.
pub(crate) fn go_on(stays: &mut Slab<Stay>, key: usize)
    requires { (a : StayState) × (get stays.old key ≡ Some a) × (a.top.pc + 1 < 2 ^ 16) }
    ensures { (a : StayState) → get stays.old key ≡ Some a → (b : StayState) × GoesNext a.top b.top
        × (b ≡ record a { top = b.top }) × Updates stays.old stays.new key (Some b) }
{
    if let Some(stay) = stays.get_mut(key) {
        stay.top.next();
    }
}

impl<'a> Ground<'a> {
    /// The instruction of the stay with a key begins an activity. Where it is refused, nothing has changed.
    pub(crate) fn begin(&mut self, key: usize, instr: Instr) -> Result<Sent, Stop>
        requires stay { (a : StayState) × (get self.old.stays key ≡ Some a) }
        requires fetched { (a : StayState) → get self.old.stays key ≡ Some a → IsFetchedFor
            self.old.verified.now.program a.top instr }
        requires op { instr.op ≡ op.Async }
        ensures ok { OnOk result (BeginsAt self.old.verified.now.program self.old.stays
            self.old.store key self.new.stays self.new.store) }
        ensures none { IfOk result (λ sent. sent ≡ nothing_sent) }
        ensures err { OnErr result (IsUntouched self.old.stays self.old.store self.new.stays
            self.new.store) }
        ensures refused { IfErr result (RefusesBegin self.old.verified.now self.old.stays
            self.old.store key) }
        ensures full { (limit : Limit) (a : StayState) → get self.old.stays key ≡ Some a →
            OverfillsBegin (place_of self.old.verified.now self.old.stays self.old.store false) a
            limit → result ≡ Err (stop.Limit limit) }
        ensures verified { self.new.verified.now ≡ self.old.verified.now }
    {
        if self.stays.vacant_key() > MOST_KEYS {
            return Err(Stop::Limit(Limit::Keys));
        }
        let stay = &self.stays[key];
        let under = stay.innermost(self.store.locality().here);
        if self.store.live(under) == u32::MAX {
            return Err(Stop::Limit(Limit::Activities));
        }
        let Ok(child) = stay.child(self.alloc, self.verified, &mut self.store, instr, under) else {
            return Err(Stop::Memory);
        };
        if self.stays.reserve(1).is_err() {
            return Err(Stop::Memory);
        }
        self.store.begin(under)?;
        self.stays.insert_reserved(child);
        go_on(&mut self.stays, key);
        Ok(no_sent())
    }
}
