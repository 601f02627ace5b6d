//! The parts of a frame, each at the front of bytes: the bytes after it, or its first fault.

ghost use Rattle.std.specs.Int.{w32};
ghost use Rattle.std.specs.Prelude.{nat_le};
ghost use Rattle.x10_model.specs.Frames.{uses, turn};
ghost use Rattle.x10_model.specs.Readers.{byte, such_that, many, times};
ghost use Rattle.x10_model.specs.Readers as readers;
ghost use Rattle.x10_model.specs.ReadingFrames.{Short, Order, item_at, node_at, text_at, rail_at};
ghost use Rattle.x10_frame.specs.Faults.{named, Answers, ParsesFrame};
ghost use Rattle.x10_frame.specs.Items.{tables_in};
ghost use Rattle.x10_frame.specs.NodeTables.{PassesNode};
ghost use Rattle.x10_bytes.specs.Tables.{Walks};

use crate::fault::FrameFault;
use crate::fields::length_at;
use crate::item::item_at;
use crate::used::Used;
use x10_bytes::{byte_at, past, u16_at};
use x10_model::FrameVersion;
use x10_model::limits::MOST_FIELDS;

/// What was used after `count` values, and the bytes after them.
#[inline(always)]
pub fn past_items<'a>(
    bytes: &'a [u8],
    count: u16,
    version: FrameVersion,
    places: u16,
    all: &Used,
    used: &Used,
) -> Result<(Used, &'a [u8]), FrameFault>
    ensures exact { Walks named uses (tables_in used.now) (λ x. tables_in x.0)
        (λ x. x.1.now) result (many (item_at version places (tables_in all.now)) uses count
        (tables_in used.now) bytes.now) }
{
    let mut met = *used;
    let mut rest = bytes;
    for _ in 0..count {
        let (item, after) = item_at(rest, version, places, all, &met)?;
        met = met.with(&item);
        rest = after;
    }
    Ok((met, rest))
}

#[tactic(auto, unfolding(x10_model::specs::Readers::such_that, x10_model::specs::Readers::bind, x10_model::specs::Readers::check, x10_model::specs::Readers::done))]
#[inline(always)]
fn field_count_at(bytes: &[u8]) -> Result<(u8, &[u8]), FrameFault>
    ensures exact { Answers (λ x. (x.0, x.1.now)) result
        (such_that (byte Short) (λ n. nat_le n 16) Order bytes.now) }
{
    let (count, bytes) = byte_at::<FrameFault>(bytes)?;
    if count > MOST_FIELDS {
        return Err(FrameFault::Order);
    }
    Ok((count, bytes))
}

/// What was used after a node whose turn it is, and the bytes after it.
#[tactic(auto, unfolding(x10_model::specs::ReadingFrames::node_at, x10_model::specs::Readers::bind, x10_model::specs::Readers::check, x10_model::specs::Readers::done))]
#[inline(always)]
pub fn past_node<'a>(
    bytes: &'a [u8],
    number: u32,
    version: FrameVersion,
    places: u16,
    all: &Used,
    used: &Used,
) -> Result<(Used, &'a [u8]), FrameFault>
    ensures exact { PassesNode (tables_in used.now) (λ x. tables_in x.0) (λ x. x.1.now) result
        (node_at version places (tables_in all.now) (turn number (tables_in used.now)) bytes.now) }
{
    let (_, bytes) = u16_at::<FrameFault>(bytes)?;
    if number >= used.nodes {
        return Err(FrameFault::Order);
    }
    let (count, bytes) = field_count_at(bytes)?;
    past_items(bytes, u16::from(count), version, places, all, used)
}

/// The bytes after a text.
#[tactic(auto, unfolding(x10_model::specs::ReadingFrames::text_at, x10_model::specs::Readers::bind))]
pub fn past_text(bytes: &[u8]) -> Result<&[u8], FrameFault>
    ensures exact { ParsesFrame (λ x. x.now) result (text_at bytes.now) }
{
    let (length, bytes) = length_at(bytes)?;
    x10_bytes::past_text(bytes, length as usize, FrameFault::Text)
}

/// The bytes after a rail.
#[tactic(auto, unfolding(x10_model::specs::ReadingFrames::rail_at, x10_model::specs::Readers::bind))]
pub fn past_rail(bytes: &[u8]) -> Result<&[u8], FrameFault>
    ensures exact { ParsesFrame (λ x. x.now) result (rail_at bytes.now) }
{
    let (length, bytes) = length_at(bytes)?;
    past(bytes, length as usize)
}

/// The bytes after `count` counts of a report.
pub fn past_counts(bytes: &[u8], count: u16) -> Result<&[u8], FrameFault>
    ensures exact { ParsesFrame (λ x. x.now) result
        (times count (readers.number w32 Short) bytes.now) }
{
    past(bytes, 4 * usize::from(count))
}
