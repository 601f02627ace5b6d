//! The notes of an event.
ghost use Rattle.std.specs.Prelude.{◌≢◌, [], IfOk};
ghost use Rattle.std.specs.String.{string_bytes};
ghost use Rattle.x10_notes.specs.Notes.{AreNotes};

use crate::known::Known;
use crate::lines::some_notes;
use crate::shot::{Shot, nothing};
use std::alloc::{AllocError, Global};
use x10_model::Event;
use x10_states::Kinds;
use x10_verify::Verified;
use x10_world::{Done, World};

/// What makes the notes of a run's events, one after another.
#[derive(Drop)]
pub struct Notes<'a> {
    known: Known<'a>,
    before: Shot,
}

impl<'a> Notes<'a> {
    /// Before the first event of a run of the module. Takes the time that `verify` takes for the flow, and 0.4 kB for each
    /// instruction of all functions.
    pub fn new(alloc: Global, verified: &'a Verified<'a>) -> Result<Notes<'a>, AllocError> {
        let kinds = Kinds::new(alloc, verified)?;
        Ok(Notes {
            known: Known {
                alloc,
                verified,
                kinds,
            },
            before: nothing(),
        })
    }

    /// Notes what an event is going to change, in the world right before it. Linear in what the registers of its activity hold
    /// and in the frame that is delivered.
    pub fn look(&mut self, world: &World, event: Event) -> Result<(), AllocError> {
        self.before = self.known.shot(world, event)?;
        Ok(())
    }

    /// What an event did, in the world right after it, if `look` was called right before it: what an activity did and with what
    /// values, what it changed, what began, ended or went on, and the frames; or why it found nothing to do. Linear in the words.
    pub fn notes(&self, world: &World, event: Event, done: &Done) -> Result<String, AllocError>
        ensures notes { IfOk result (λ text. AreNotes (string_bytes text)) }
        ensures some { IfOk result (λ text. string_bytes text ≢ []) }
    {
        let words = self.known.event_words(world, event, &self.before, done)?;
        some_notes(self.known.alloc, words.as_str())
    }
}
