//! Drawings: what is noted of a run, event by event, and the picture of it.
ghost use Rattle.std.specs.Prelude.{◌≡◌, IfOk, OnOk, OnErr};
ghost use Rattle.std.specs.String.{string_bytes};
ghost use Rattle.x10_draw.specs.Counting.{counted, no_events};
ghost use Rattle.x10_draw.specs.Pages.{IsPage};

use crate::counts::Counts;
use crate::page::page;
use crate::sketch::Sketch;
use std::alloc::{AllocError, Global};
use std::marker::Model;
use x10_model::Event;
use x10_verify::Verified;
use x10_world::{Done, World};

/// A space-time diagram of a run, as far as its events were noted. Clauses see how many there were of each kind.
#[derive(Drop)]
pub struct Drawing<'a> {
    alloc: Global,
    counts: Counts,
    sketch: Sketch<'a>,
}

impl<'a> Model for Drawing<'a> {
    ghost use Rattle.x10_draw.specs.declared.counts.Counts.{Counts};

    ghost Value = { Counts };

    ghost view = { λ d. d.counts };
}

impl<'a> Drawing<'a> {
    /// The drawing of a run from a world on, as it stands after `before` events that aren't drawn: 0 at the beginning. The stays
    /// that live there are drawn from the first row on, with the finishes that they have open, and each frame that is in flight
    /// comes from the head of a lifeline. Takes what `x10_states::Kinds` takes of the module, and time and memory for each place,
    /// each of those stays and finishes, and each byte of those frames.
    pub fn new(
        alloc: Global,
        verified: &'a Verified<'a>,
        world: &World,
        before: u64,
    ) -> Result<Drawing<'a>, AllocError>
        ensures { IfOk result (λ d. d ≡ no_events) }
    {
        let sketch = Sketch::new(alloc, verified, world, before)?;
        let counts = Counts {
            steps: 0,
            taken: 0,
            idle: 0,
        };
        Ok(Drawing {
            alloc,
            counts,
            sketch,
        })
    }

    /// Notes an event and what it did, in the world right after it: what `x10_trace::trace_line` takes. Each event of a run is
    /// noted in its turn, from the first one after `new` on; one that wasn't noted leaves out what only it would have shown. After a
    /// refusal, which is for lack of memory, the event isn't counted, and it may be drawn in part.
    ///
    /// Linear in the bytes of the frames that the event put out and in the line that it printed, otherwise constant, but for a
    /// frame that was in flight when the drawing began: that takes logarithmic time in the number of those. Takes
    /// memory for what is new in the picture: an idle step, or one among many that put nothing out, adds nothing unless a wait
    /// begins or ends with it.
    pub fn note(&mut self, world: &World, event: Event, done: &Done) -> Result<(), AllocError>
        ensures ok { OnOk result (self.new ≡ counted self.old done.now) }
        ensures err { OnErr result (self.new ≡ self.old) }
    {
        self.sketch.note(world, event, done)?;
        self.counts = self.counts.after(*done);
        Ok(())
    }

    /// How many events were noted.
    pub fn counts(&self) -> Counts
        ensures { result ≡ self.now }
    {
        self.counts
    }

    /// The picture, as a document of SVG 1.1 (second edition) in UTF-8. Linear in what is drawn: for each event a row of
    /// its place at most, and a shape for each frame, finish and stay.
    pub fn svg(&self) -> Result<String, AllocError>
        ensures { IfOk result (λ text. IsPage (string_bytes text)) }
    {
        page(self.alloc, self.counts, &self.sketch)
    }
}
