ghost use Rattle.std.specs.Prelude.{IfOk, IfErr, IfSome};
ghost use Rattle.x10_verify.specs.Certified.{Certified};
ghost use Rattle.x10_world.specs.declared.ending.RunFault.TheVariants as fault;
ghost use Rattle.x10_world.specs.StandsForWorld.{IsStepStop};
ghost use Rattle.x10_world.specs.Endings.{IsImageOf, IsEndingOf, Explains, lines_in};

use crate::fault::OpenFault;
use crate::world::World;
use std::alloc::Global;
use thiserror::Error;
use x10_image::{ImageFault, ImageView};
use x10_kinds::Stop;
use x10_model::Event;
use x10_place::Line;
use x10_verify::{VerifyFault, verify};

/// What is left of a run.
#[derive(Debug, Drop)]
pub struct Ending {
    /// The lines of each place.
    pub outputs: Vec<Vec<Line>>,
    /// Whether no activity is left.
    pub closed: bool,
    /// How many of the events were made.
    pub done: usize,
    /// Why the next was not, if not all were made.
    pub stop: Option<Stop>,
}

/// Why an image does not run.
#[derive(Clone, Copy, Debug, PartialEq, Eq, Error)]
pub enum RunFault {
    /// The bytes are no image.
    #[error("Image {0}")]
    Image(ImageFault),
    /// The verifier refuses the module.
    #[error("Verify {0}")]
    Verify(VerifyFault),
    /// The module does not run at the given number of places.
    #[error("Open {0}")]
    Open(OpenFault),
    /// Memory for the outputs was refused.
    #[error("Memory")]
    Memory,
}

/// Reads an image, verifies its module, and runs it at `places` places with these events, up to the first that is refused.
/// The lines of each place are copied, since a world that callers keep has the same calls; to take a world apart would save
/// the copy, but be a second way to end a run.
pub fn run_image(
    alloc: Global,
    bytes: &[u8],
    places: u16,
    events: &[Event],
) -> Result<Ending, RunFault>
    ensures ending { IfOk result (λ e. (c : Certified) × IsImageOf bytes.now c
        × IsEndingOf c places events.now (lines_in e.outputs.items) e) }
    ensures stop { IfOk result (λ e. IfSome e.stop IsStepStop) }
    ensures fault { IfErr result (Explains bytes.now places) }
{
    let image = match ImageView::read(alloc, bytes) {
        Ok(image) => image,
        Err(fault) => return Err(RunFault::Image(fault)),
    };
    let verified = match verify(alloc, image) {
        Ok(verified) => verified,
        Err(fault) => return Err(RunFault::Verify(fault)),
    };
    let mut world = match World::open(alloc, &verified, places) {
        Ok(world) => world,
        Err(fault) => return Err(RunFault::Open(fault)),
    };
    let (done, stop) = world.make(events);
    let Ok(outputs) = world.outputs(alloc) else {
        return Err(RunFault::Memory);
    };
    let closed = world.closed();
    Ok(Ending {
        outputs,
        closed,
        done,
        stop,
    })
}
