//! Frames that a turn takes in and puts out.
ghost use Rattle.std.specs.Prelude.{◌≡◌, ◌++◌, IfOk, map};
ghost use Rattle.x10_hall.specs.Halls.{frame_of};
ghost use Rattle.x10_workers.specs.Trails.{frame_sent, frames_sent};

use std::alloc::{AllocError, Global};
use std::sync::Arc;
use x10_hall::Posted;
use x10_place::{Outgoing, Sent};

/// Puts out a frame, if there is one.
fn put_frame(
    alloc: Global,
    frame: Option<Outgoing>,
    frames: &mut Vec<Posted>,
) -> Result<(), AllocError>
    ensures { IfOk result (λ _. map frame_of frames.new.items
        ≡ map frame_of frames.old.items ++ frame_sent frame) }
{
    let Some(frame) = frame else {
        return Ok(());
    };
    let bytes = Arc::new(alloc, frame.bytes)?;
    frames.push(Posted {
        to: frame.to,
        bytes,
    })?;
    Ok(())
}

/// Puts out what a step sent, the message first.
pub(crate) fn put_sent(
    alloc: Global,
    sent: Sent,
    frames: &mut Vec<Posted>,
) -> Result<(), AllocError>
    ensures { IfOk result (λ _. map frame_of frames.new.items
        ≡ map frame_of frames.old.items ++ frames_sent sent) }
{
    put_frame(alloc, sent.message, frames)?;
    put_frame(alloc, sent.report, frames)
}

/// The same frames again, which share their bytes with the first ones.
pub(crate) fn shared(alloc: Global, frames: &[Posted]) -> Result<Vec<Posted>, AllocError> {
    let mut copies = Vec::with_capacity(alloc, frames.len())?;
    for frame in frames {
        let bytes = Arc::try_clone(&frame.bytes)?;
        copies.push(Posted {
            to: frame.to,
            bytes,
        })?;
    }
    Ok(copies)
}
