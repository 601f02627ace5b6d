//! A place with what it put out.
ghost use Rattle.std.specs.Prelude.{◌≡◌, ◌<◌, ◌≤◌, IfOk, IfErr, MatchOption, Ok, Some, None};
ghost use Rattle.x10_place.specs.Messages.{no_sent};
ghost use Rattle.x10_place.specs.Opening.{IsNew, Opens};
ghost use Rattle.x10_handles.specs.Stations.{IsFrameOut, IsReceived, IsStepped};

use std::alloc::{AllocError, Global};
use x10_copy::Refusal;
use x10_kinds::Stop;
use x10_place::{Outgoing, Place, Sent, Stepped};
use x10_verify::Verified;

/// A place, and what its last step put out.
#[derive(Drop)]
pub struct Station {
    /// The place.
    pub place: Place<'static>,
    /// What its last step put out.
    pub sent: Sent,
}

impl Station {
    /// A place at the beginning, which has put out nothing.
    pub fn new(
        alloc: Global,
        verified: &'static Verified<'static>,
        id: u16,
        places: u16,
    ) -> Result<Station, AllocError>
        requires within { id < places }
        requires enough { verified.now.program.least_places ≤ places }
        requires few { places ≤ 64 }
        ensures fields { IfOk result (λ s. IsNew verified.now id places s.place) }
        ensures elsewhere { IfErr result (λ _. id ≡ 0) }
        ensures opening { IfOk result (λ s. Opens s.place) }
        ensures sent { IfOk result (λ s. s.sent ≡ no_sent) }
    {
        let place = Place::new(alloc, verified, id, places)?;
        Ok(Station {
            place,
            sent: nothing(),
        })
    }

    /// One step of the activity with a key; whether it moved. What it puts out is kept, and what the step before put out goes.
    pub fn step(&mut self, key: usize) -> Result<bool, Stop>
        ensures { IsStepped self.old key result self.new }
    {
        self.sent = nothing();
        match self.place.step(key) {
            Err(why) => Err(why),
            Ok(Stepped::Idle) => Ok(false),
            Ok(Stepped::Moved(sent)) => {
                self.sent = sent;
                Ok(true)
            }
        }
    }

    /// Takes in bytes that come from a place. What the last step put out is kept.
    pub fn receive(&mut self, bytes: &[u8]) -> Result<(), Refusal>
        ensures { IsReceived self.old bytes.now result self.new }
    {
        self.place.receive(bytes)
    }

    /// The frame with a number among those that the last step put out, the message first; none where there is none.
    pub fn frame(&self, number: usize) -> Option<&Outgoing>
        ensures { MatchOption result (IsFrameOut self.now.sent number None)
            (λ frame. IsFrameOut self.now.sent number (Some frame.now)) }
    {
        if let Some(message) = &self.sent.message {
            return match number {
                0 => Some(message),
                1 => self.sent.report.as_ref(),
                _ => None,
            };
        }
        if number == 0 {
            self.sent.report.as_ref()
        } else {
            None
        }
    }
}

fn nothing() -> Sent
    ensures { result ≡ no_sent }
{
    Sent {
        message: None,
        report: None,
    }
}
