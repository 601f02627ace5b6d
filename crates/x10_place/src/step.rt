//! One step of a stay at its place, and steps of one stay in a stretch.
ghost use Rattle.std.specs.Prelude.{◌≡◌, false, Err, IfErr, IfOk, OnErr};
ghost use Rattle.x10_kinds.specs.declared.limit.Limit.{Limit};
ghost use Rattle.x10_kinds.specs.declared.stop.Stop.TheVariants as stop;
ghost use Rattle.x10_place.specs.StandsFor.{place_of, IsStanding, IsHindered, IsOverfull, AreOutside, IsInsider};
ghost use Rattle.x10_place.specs.Stretches.{IsUntouched, SameInside, IsForPlace, IsMade, IsAdvanced, IsRun, insider_of};

use crate::ground::Ground;
use crate::outcome::{Deed, Outcome};
use crate::place::Stepped;
use crate::sent::{Sent, no_sent};
use crate::stay::Stay;
use x10_code::Instr;
use x10_kinds::Stop;

impl<'a> Ground<'a> {
    /// The step of the stay with a key that is for its place to make: what it puts out. Where it is refused, nothing has
    /// changed.
    #[inline(never)]
    fn make(&mut self, key: usize, deed: Deed, instr: Instr) -> Result<Sent, Stop>
        requires { IsForPlace self.old.verified.now self.old.stays self.old.store key deed instr }
        ensures ok { IfOk result (λ sent. IsMade self.old.verified.now self.old.stays self.old.store
            key sent self.new.stays self.new.store) }
        ensures err { OnErr result (IsUntouched self.old.stays self.old.store self.new.stays
            self.new.store) }
        ensures refused { IfErr result (IsHindered (place_of self.old.verified.now self.old.stays
            self.old.store false) key) }
        ensures full { (limit : Limit) → IsOverfull (place_of self.old.verified.now self.old.stays
            self.old.store false) key limit → result ≡ Err (stop.Limit limit) }
        ensures inside { SameInside self.old.stays self.new.stays }
        ensures verified { self.new.verified.now ≡ self.old.verified.now }
    {
        let verified = self.verified;
        verified.certificate();
        match deed {
            Deed::Begin => self.begin(key, instr),
            Deed::Depart(departure) => self.depart(key, departure, instr),
            Deed::Leave => self.leave(key, instr),
        }
    }
}

/// The key of a stay that is inside an atomic region.
#[inline(always)]
fn insider(stay: &Stay, key: usize) -> Option<usize>
    ensures { result ≡ insider_of stay.now.inside key }
{
    if stay.inside { Some(key) } else { None }
}

impl<'a> Ground<'a> {
    /// One step of the stay with a key, and which stay is inside an atomic region then.
    #[inline(always)]
    pub(crate) fn step(&mut self, inside: &mut Option<usize>, key: usize) -> Result<Stepped, Stop>
        requires standing { IsStanding (place_of self.old.verified.now self.old.stays self.old.store
            false) }
        requires outside { AreOutside self.old.stays key }
        ensures made { IsAdvanced self.old.verified.now self.old.stays self.old.store key result
            self.new.stays self.new.store }
        ensures inside { IsInsider self.old.stays inside.old → IsInsider self.new.stays inside.new }
        ensures verified { self.new.verified.now ≡ self.old.verified.now }
    {
        let verified = self.verified;
        verified.certificate();
        let locality = self.store.locality();
        let Some(stay) = self.stays.get_mut(key) else {
            return Ok(Stepped::Idle);
        };
        if stay.away {
            return Ok(Stepped::Idle);
        }
        let instr = stay.instr(verified);
        match stay.step(self.alloc, verified, locality, &mut self.store, instr) {
            Ok(Outcome::Goes) => {
                *inside = insider(stay, key);
                Ok(Stepped::Moved(no_sent()))
            }
            Ok(Outcome::Waits) => Ok(Stepped::Idle),
            Ok(Outcome::ForPlace(deed, instr)) => match self.make(key, deed, instr) {
                Ok(sent) => Ok(Stepped::Moved(sent)),
                Err(why) => Err(why),
            },
            Err(why) => Err(why),
        }
    }

    /// Up to `most` steps of the stay with a key: how many were made, and what the last one put out; or, where one was refused,
    /// why no more were made. And which stay is inside an atomic region then.
    pub(crate) fn run_activity(
        &mut self,
        inside: &mut Option<usize>,
        key: usize,
        most: u64,
    ) -> (u64, Result<Sent, Stop>)
        requires standing { IsStanding (place_of self.old.verified.now self.old.stays self.old.store
            false) }
        requires outside { AreOutside self.old.stays key }
        ensures ran { IsRun self.old.verified.now self.old.stays self.old.store key most result.0
            result.1 self.new.stays self.new.store }
        ensures inside { IsInsider self.old.stays inside.old → IsInsider self.new.stays inside.new }
        ensures verified { self.new.verified.now ≡ self.old.verified.now }
    {
        let verified = self.verified;
        verified.certificate();
        let locality = self.store.locality();
        let Some(stay) = self.stays.get_mut(key) else {
            return (0, Ok(no_sent()));
        };
        if stay.away {
            return (0, Ok(no_sent()));
        }
        let (done, made) = stay.run_stretch(self.alloc, verified, locality, &mut self.store, most);
        *inside = insider(stay, key);
        let outcome = match made {
            Ok(outcome) => outcome,
            Err(why) => return (done, Err(why)),
        };
        match outcome {
            Outcome::Goes | Outcome::Waits => (done, Ok(no_sent())),
            Outcome::ForPlace(deed, instr) => match self.make(key, deed, instr) {
                Ok(sent) => (done + 1, Ok(sent)),
                Err(why) => (done, Err(why)),
            },
        }
    }
}
