//! Fields at the front of bytes.

ghost use Rattle.std.specs.Prelude.{◌+◌, ◌<◌, ◌^◌, IfOk};
ghost use Rattle.x10_model.specs.Frames.{width_of};
ghost use Rattle.x10_model.specs.Readers.{number};
ghost use Rattle.x10_model.specs.ReadingFrames.{Short, place_at, index_at, length_at};
ghost use Rattle.x10_model.specs.ReadingFrames as reading;
ghost use Rattle.x10_frame.specs.Faults.{named, Answers};

use crate::fault::FrameFault;
use x10_bytes::{ReadFault, u16_at, u32_at};
use x10_model::FrameVersion;
use x10_model::limits::MOST_BYTES;

impl ReadFault for FrameFault {
    ghost Fault = { reading.FrameFault };

    ghost named = { named };

    ghost short = { Short };

    fn too_short() -> FrameFault {
        FrameFault::Short
    }
}

/// The number of one of `places` places, and the bytes after it.
#[tactic(auto, unfolding(x10_model::specs::ReadingFrames::place_at, x10_model::specs::Readers::such_that, x10_model::specs::Readers::bind, x10_model::specs::Readers::check, x10_model::specs::Readers::done))]
#[inline(always)]
pub fn place_at(bytes: &[u8], places: u16) -> Result<(u16, &[u8]), FrameFault>
    ensures exact { Answers (λ x. (x.0, x.1.now)) result (place_at places bytes.now) }
{
    let (place, bytes) = u16_at::<FrameFault>(bytes)?;
    if place >= places {
        return Err(FrameFault::Place);
    }
    Ok((place, bytes))
}

/// A number as wide as the version says, and the bytes after it.
#[inline(always)]
pub fn number_at(bytes: &[u8], version: FrameVersion) -> Result<(u32, &[u8]), FrameFault>
    ensures exact { Answers (λ x. (x.0, x.1.now)) result
        (number (width_of version) Short bytes.now) }
{
    match version {
        FrameVersion::Narrow => {
            let (number, bytes) = u16_at::<FrameFault>(bytes)?;
            Ok((u32::from(number), bytes))
        }
        FrameVersion::Wide => u32_at::<FrameFault>(bytes),
    }
}

/// An index that was used before or is the next new one, and is in its table, and the bytes after it.
#[tactic(auto, unfolding(x10_model::specs::ReadingFrames::index_at, x10_model::specs::Readers::such_that, x10_model::specs::Readers::bind, x10_model::specs::Readers::check, x10_model::specs::Readers::done))]
#[inline(always)]
pub fn index_at(
    bytes: &[u8],
    version: FrameVersion,
    used: u32,
    table: u32,
) -> Result<(u32, &[u8]), FrameFault>
    ensures exact { Answers (λ x. (x.0, x.1.now)) result (index_at version used table bytes.now) }
    ensures next { IfOk result (λ x. x.0 + 1 < 2 ^ 32) }
{
    let (index, bytes) = number_at(bytes, version)?;
    if index > used || index >= table {
        return Err(FrameFault::Order);
    }
    Ok((index, bytes))
}

/// The length of a text or a rail, at most 65,535, and the bytes after it.
#[tactic(auto, unfolding(x10_model::specs::ReadingFrames::length_at, x10_model::specs::Readers::such_that, x10_model::specs::Readers::bind, x10_model::specs::Readers::check, x10_model::specs::Readers::done))]
#[inline(always)]
pub fn length_at(bytes: &[u8]) -> Result<(u32, &[u8]), FrameFault>
    ensures exact { Answers (λ x. (x.0, x.1.now)) result (length_at bytes.now) }
{
    let (length, bytes) = u32_at::<FrameFault>(bytes)?;
    if length > u32::from(MOST_BYTES) {
        return Err(FrameFault::Order);
    }
    Ok((length, bytes))
}
