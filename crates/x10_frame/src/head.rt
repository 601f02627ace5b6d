//! The numbers that come before the graph of a frame, or before the counts of a report.

ghost use Rattle.std.specs.Prelude.{nat_le, ◌&&◌};
ghost use Rattle.std.specs.Int.{w16};
ghost use Rattle.x10_model.specs.Readers.{byte, number, such_that, expect};
ghost use Rattle.x10_model.specs.ReadingFrames.{Short, FrameType, Place, version_at};
ghost use Rattle.x10_frame.specs.Faults.{Answers};
ghost use Rattle.x10_frame.specs.Heads.{head_at, numbers_at};
ghost use Rattle.x10_frame.specs.Heads as spec;

use crate::fault::FrameFault;
use crate::fields::place_at;
use x10_bytes::{byte_at, u16_at, u32_at};
use x10_model::{Finish, FrameVersion};

/// What a frame is sent for, and its numbers.
#[derive(Clone, Copy, Debug, PartialEq, Eq)]
pub enum What {
    /// A new activity: the finish that governs it, and its function.
    Spawn {
        under: Finish,
        function: u16,
    },
    /// An activity that goes on elsewhere: the stay that waits for it, the finish that governs it, and the function.
    Shift {
        waiting: u32,
        under: Finish,
        function: u16,
    },
    /// The way back of such an activity: the stay that waits for it.
    Back {
        waiting: u32,
    },
    /// Counts of a finish, whose home is the receiver: its number.
    Report {
        number: u32,
    },
}

/// From which place a frame is sent, to which, and for what.
#[derive(Clone, Copy, Debug, PartialEq, Eq)]
pub struct Head {
    pub from: u16,
    pub to: u16,
    pub what: What,
}

/// The version of a frame, and the bytes after it.
#[tactic(auto, unfolding(x10_model::specs::ReadingFrames::version_at, x10_model::specs::Readers::given, x10_model::specs::Readers::bind))]
#[inline(always)]
pub fn version_at(bytes: &[u8]) -> Result<(FrameVersion, &[u8]), FrameFault>
    ensures exact { Answers (λ x. (x.0, x.1.now)) result (version_at bytes.now) }
{
    let (first, bytes) = byte_at::<FrameFault>(bytes)?;
    match first {
        1 => Ok((FrameVersion::Narrow, bytes)),
        2 => Ok((FrameVersion::Wide, bytes)),
        _ => Err(FrameFault::Version),
    }
}

#[tactic(auto, unfolding(x10_model::specs::Readers::such_that, x10_model::specs::Readers::bind, x10_model::specs::Readers::check, x10_model::specs::Readers::done))]
#[inline(always)]
fn type_at(bytes: &[u8]) -> Result<(u8, &[u8]), FrameFault>
    ensures exact { Answers (λ x. (x.0, x.1.now)) result
        (such_that (byte Short) (λ n. nat_le 1 n && nat_le n 4) FrameType bytes.now) }
{
    let (kind, bytes) = byte_at::<FrameFault>(bytes)?;
    if !(1..=4).contains(&kind) {
        return Err(FrameFault::FrameType);
    }
    Ok((kind, bytes))
}

/// The bytes after the number of places, which has to be `places`.
#[tactic(auto, unfolding(x10_model::specs::Readers::expect, x10_model::specs::Readers::bind, x10_model::specs::Readers::check))]
#[inline(always)]
fn after_places(bytes: &[u8], places: u16) -> Result<&[u8], FrameFault>
    ensures exact { Answers (λ x. (tt, x.now)) result
        (expect (number w16 Short) places Place bytes.now) }
{
    let (number, bytes) = u16_at::<FrameFault>(bytes)?;
    if number != places {
        return Err(FrameFault::Place);
    }
    Ok(bytes)
}

#[tactic(auto, unfolding(crate::specs::Heads::spawn_at, x10_model::specs::Readers::bind, x10_model::specs::Readers::done))]
#[inline(always)]
fn spawn_at(bytes: &[u8], places: u16) -> Result<(What, &[u8]), FrameFault>
    ensures exact { Answers (λ x. (x.0, x.1.now)) result (spec.spawn_at places bytes.now) }
{
    let (home, bytes) = place_at(bytes, places)?;
    let (number, bytes) = u32_at::<FrameFault>(bytes)?;
    let (function, bytes) = u16_at::<FrameFault>(bytes)?;
    let under = Finish { home, number };
    Ok((What::Spawn { under, function }, bytes))
}

#[tactic(auto, unfolding(crate::specs::Heads::shift_at, x10_model::specs::Readers::bind, x10_model::specs::Readers::done))]
#[inline(always)]
fn shift_at(bytes: &[u8], places: u16) -> Result<(What, &[u8]), FrameFault>
    ensures exact { Answers (λ x. (x.0, x.1.now)) result (spec.shift_at places bytes.now) }
{
    let (waiting, bytes) = u32_at::<FrameFault>(bytes)?;
    let (home, bytes) = place_at(bytes, places)?;
    let (number, bytes) = u32_at::<FrameFault>(bytes)?;
    let (function, bytes) = u16_at::<FrameFault>(bytes)?;
    let what = What::Shift {
        waiting,
        under: Finish { home, number },
        function,
    };
    Ok((what, bytes))
}

#[tactic(auto, unfolding(crate::specs::Heads::back_at, x10_model::specs::Readers::bind, x10_model::specs::Readers::done))]
#[inline(always)]
fn back_at(bytes: &[u8]) -> Result<(What, &[u8]), FrameFault>
    ensures exact { Answers (λ x. (x.0, x.1.now)) result (spec.back_at bytes.now) }
{
    let (waiting, bytes) = u32_at::<FrameFault>(bytes)?;
    Ok((What::Back { waiting }, bytes))
}

#[tactic(auto, unfolding(crate::specs::Heads::report_at, x10_model::specs::Readers::bind, x10_model::specs::Readers::done))]
#[inline(always)]
fn report_at(bytes: &[u8], places: u16) -> Result<(What, &[u8]), FrameFault>
    ensures exact { Answers (λ x. (x.0, x.1.now)) result (spec.report_at places bytes.now) }
{
    let (number, bytes) = u32_at::<FrameFault>(bytes)?;
    let bytes = after_places(bytes, places)?;
    Ok((What::Report { number }, bytes))
}

#[tactic(auto, unfolding(crate::specs::Heads::numbers_at, x10_model::specs::Readers::given))]
#[inline(always)]
fn numbers_at(bytes: &[u8], places: u16, kind: u8) -> Result<(What, &[u8]), FrameFault>
    ensures exact { Answers (λ x. (x.0, x.1.now)) result (numbers_at places kind bytes.now) }
{
    match kind {
        1 => spawn_at(bytes, places),
        2 => shift_at(bytes, places),
        3 => back_at(bytes),
        4 => report_at(bytes, places),
        _ => Err(FrameFault::FrameType),
    }
}

/// What follows the version: the numbers before the graph of a frame, or before the counts of a report, and the bytes after
/// them.
#[tactic(auto, unfolding(crate::specs::Heads::head_at, x10_model::specs::Readers::bind, x10_model::specs::Readers::done))]
#[inline(always)]
pub fn read_head(bytes: &[u8], places: u16) -> Result<(Head, &[u8]), FrameFault>
    ensures exact { Answers (λ x. (x.0, x.1.now)) result (head_at places bytes.now) }
{
    let (kind, bytes) = type_at(bytes)?;
    let (from, bytes) = place_at(bytes, places)?;
    let (to, bytes) = place_at(bytes, places)?;
    let (what, bytes) = numbers_at(bytes, places, kind)?;
    Ok((Head { from, to, what }, bytes))
}
