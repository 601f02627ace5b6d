//! Logs as lists of turns, and back.
use std::alloc::Global;
use std::sync::Arc;
use std::test::*;
use x10_hall::{Posted, Repeats, Turn};
use x10_world::copied_lines;

/// The same frames again.
fn shared(alloc: Global, frames: &[Posted]) -> Result<Vec<Posted>, Fail> {
    let mut copies = Vec::new(alloc);
    for frame in frames {
        copies.push(Posted {
            to: frame.to,
            bytes: Arc::try_clone(&frame.bytes)?,
        })?;
    }
    Ok(copies)
}

/// The turns of a log, each by itself.
pub(crate) fn listed(alloc: Global, log: &Repeats<Turn>) -> Result<Vec<Turn>, Fail> {
    let mut turns = Vec::new(alloc);
    for at in 0..log.len() {
        let turn = log.at(at);
        turns.push(Turn {
            place: turn.place,
            taken: Vec::from_slice(alloc, &turn.taken)?,
            keys: turn.keys.copied(alloc)?,
            frames: shared(alloc, &turn.frames)?,
            lines: copied_lines(alloc, &turn.lines)?,
        })?;
    }
    Ok(turns)
}

/// A log of these turns.
pub(crate) fn logged(alloc: Global, turns: Vec<Turn>) -> Result<Repeats<Turn>, Fail> {
    let mut log = Repeats::new(alloc);
    for turn in turns {
        log.push(turn)?;
    }
    Ok(log)
}
