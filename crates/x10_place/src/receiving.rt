//! What comes in: bytes that should be the frame of a message or of a report.
ghost use Rattle.std.specs.Prelude.{◌≡◌, Bool, false, Ok, IfErr, IfOk, OnErr, OnOk};
ghost use Rattle.x10_model.specs.declared.version.FrameVersion.TheVariants.{Wide};
ghost use Rattle.x10_model.specs.Frames.{Frame, FitsFrame, IsSpelled};
ghost use Rattle.x10_place.specs.Arrivals.{IsUnread, IsTakenFrame};
ghost use Rattle.x10_place.specs.Receiving.{IsTaken, IsRefusedFrame, IsRefusedBytes, IsOfFrame, stops};
ghost use Rattle.x10_place.specs.StandsFor.{place_of, IsStanding};
ghost use Rattle.x10_place.specs.Stretches.{IsUntouched, SameInside};

use crate::ground::Ground;
use crate::launching::Launch;
use crate::reports::take_report;
use crate::stay::Origin;
use std::alloc::Global;
use x10_copy::Refusal;
use x10_frame::{FrameFault, FrameView, Head, What};

/// The frame that bytes spell, in either version.
fn read<'a>(alloc: Global, bytes: &'a [u8], places: u16) -> Result<FrameView<'a>, Refusal>
    ensures found { IfOk result (λ f. IsSpelled places f bytes.now) }
    ensures only { IfOk result (λ v. (f : Frame) → IsSpelled places f bytes.now → v ≡ f) }
    ensures err { IfErr result (IsUnread places bytes.now) }
{
    match FrameView::read(alloc, bytes, places) {
        Ok(view) => Ok(view),
        Err(FrameFault::Memory) => Err(Refusal::Memory),
        Err(fault) => Err(Refusal::Frame(fault)),
    }
}

impl<'a> Ground<'a> {
    /// Takes in a frame that is for this place. Where it is refused, nothing has changed.
    fn take(&mut self, view: &FrameView) -> Result<(), Refusal>
        requires standing { IsStanding (place_of self.old.verified.now self.old.stays self.old.store
            false) }
        requires fits { FitsFrame Wide self.old.store.places view.now }
        ensures ok { OnOk result (IsTakenFrame self.old.verified.now self.old.stays self.old.store
            view.now self.new.stays self.new.store) }
        ensures err { OnErr result (IsUntouched self.old.stays self.old.store self.new.stays
            self.new.store) }
        ensures refused { IfErr result (λ why. (stopped : Bool) → IsRefusedFrame (place_of
            self.old.verified.now self.old.stays self.old.store stopped) view.now why) }
        ensures inside { SameInside self.old.stays self.new.stays }
        ensures verified { self.new.verified.now ≡ self.old.verified.now }
    {
        let verified = self.verified;
        verified.certificate();
        let Head { from, to, what } = view.head();
        if to != self.store.locality().here {
            return Err(Refusal::NotHere);
        }
        match what {
            What::Spawn { under, function } => {
                let launch = Launch {
                    from,
                    function,
                    under,
                    back: None,
                };
                self.launch(view, launch)
            }
            What::Shift {
                waiting,
                under,
                function,
            } => {
                let (place, key) = (from, waiting);
                let launch = Launch {
                    from,
                    function,
                    under,
                    back: Some(Origin { place, key }),
                };
                self.launch(view, launch)
            }
            What::Back { waiting } => { self.resume(view, from, waiting) }
            What::Report { number } => take_report(&mut self.store, view, from, number),
        }
    }
}

impl<'a> Ground<'a> {
    /// Takes in bytes. Where they are refused, nothing has changed.
    pub(crate) fn receive(&mut self, bytes: &[u8]) -> Result<(), Refusal>
        requires { IsStanding (place_of self.old.verified.now self.old.stays self.old.store false) }
        ensures ok { OnOk result ((stopped : Bool) → IsTaken (place_of self.old.verified.now
            self.old.stays self.old.store stopped) bytes.now (place_of self.old.verified.now
            self.new.stays self.new.store stopped)) }
        ensures err { OnErr result (IsUntouched self.old.stays self.old.store self.new.stays
            self.new.store) }
        ensures refused { IfErr result (λ why. (stopped : Bool) → IsRefusedBytes (place_of
            self.old.verified.now self.old.stays self.old.store stopped) bytes.now why) }
        ensures read { IfErr result (IsOfFrame self.old.store.places bytes.now) }
        ensures standing { IsStanding (place_of self.old.verified.now self.new.stays self.new.store
            false) }
        ensures here { self.new.store.here ≡ self.old.store.here }
        ensures places { self.new.store.places ≡ self.old.store.places }
        ensures inside { SameInside self.old.stays self.new.stays }
        ensures verified { self.new.verified.now ≡ self.old.verified.now }
    {
        let places = self.store.locality().places;
        let view = read(self.alloc, bytes, places)?;
        self.take(&view)
    }
}

/// Whether a place stops after a refusal: for lack of memory, or at a limit.
pub(crate) fn is_stop(why: Refusal) -> bool
    ensures { result ≡ stops why }
{
    matches!(why, Refusal::Memory | Refusal::Limit(_) | Refusal::Stopped)
}
