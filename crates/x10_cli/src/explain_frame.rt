//! What is said of bytes that aren't a frame.
use crate::fault::frame_name;
use std::alloc::{AllocError, Global};
use x10_frame::{FrameFault, FrameView};
use x10_task::Task;

/// The rule that is broken, and how far the reader came.
pub(crate) fn of_frame(
    alloc: Global,
    task: &Task,
    bytes: &[u8],
    fault: FrameFault,
) -> Result<String, AllocError> {
    let places = task.places.unwrap_or_default();
    let (name, rule, count) = (frame_name(fault), rule_of(fault), bytes.len());
    let seen = seen_of(alloc, bytes, places)?;
    match fault {
        FrameFault::Place => format!(in alloc;
            "{name}: each place has a number below {places}, and a Report has counts of {places} places. It shows in the first {seen} of {count} bytes.\n"
        ),
        FrameFault::Trailing => format!(in alloc;
            "{name}: {rule}. That is after {seen} of {count} bytes.\n"
        ),
        _ => format!(in alloc; "{name}: {rule}. It shows in the first {seen} of {count} bytes.\n"),
    }
}

/// The rule whose breach a fault names.
fn rule_of(fault: FrameFault) -> &'static str {
    match fault {
        FrameFault::Short => "a frame ends with a field, and this one inside of it",
        FrameFault::Version => "the first byte is the version, 1 or 2",
        FrameFault::FrameType => {
            "the second byte is the type: 1 Spawn, 2 Shift, 3 Back, 4 Report"
        }
        FrameFault::Place => "each place has a number below that of places",
        FrameFault::Tag => "a value has a tag from 1 to 7",
        FrameFault::Text => "a text is UTF-8",
        FrameFault::Order => {
            "texts, rails and objects are numbered as they are first used, and each is used"
        }
        FrameFault::Trailing => "nothing follows the last field",
        FrameFault::Memory => "there is memory for it",
    }
}

/// How many bytes have to be read until it shows that they aren't a frame, or until the frame ends. Of fewer bytes the reader
/// says that they are too short, since it goes from front to back.
fn seen_of(alloc: Global, bytes: &[u8], places: u16) -> Result<usize, AllocError> {
    let (mut short, mut seen) = (0usize, bytes.len());
    for _ in 0..usize::BITS {
        let half = short.saturating_add(seen.saturating_sub(short) / 2);
        if half == short {
            return Ok(seen);
        }
        let front = bytes.get(..half).unwrap_or_default();
        match FrameView::read(alloc, front, places) {
            Err(FrameFault::Memory) => return Err(AllocError),
            Err(FrameFault::Short) => short = half,
            _ => seen = half,
        }
    }
    Ok(seen)
}
