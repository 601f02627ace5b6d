//! The positions of the texts, rails and nodes of a frame.

ghost use Rattle.std.specs.Prelude.{◌≤◌};
ghost use Rattle.x10_model.specs.Frames.{most_of, blob_bytes, node_bytes, next_turn, turn};
ghost use Rattle.x10_model.specs.Readers.{many, times};
ghost use Rattle.x10_model.specs.ReadingFrames.{text_at, rail_at, node_at};
ghost use Rattle.x10_model.specs.ReadingFrames as reading;
ghost use Rattle.x10_model.specs.Offsets.{EndsWith};
ghost use Rattle.x10_frame.specs.Faults.{named};
ghost use Rattle.x10_frame.specs.Items.{tables_in};
ghost use Rattle.x10_frame.specs.NodeTables.{GivesNodes};
ghost use Rattle.x10_bytes.specs.Tables.{GivesTable};

use crate::fault::FrameFault;
use crate::parts::{past_node, past_rail, past_text};
use crate::used::Used;
use std::alloc::Global;
use x10_model::FrameVersion;

/// Where each of `count` texts begins in `frame`, of which `bytes` is the rest, and the bytes after them.
pub fn text_table<'a>(
    alloc: Global,
    frame: &[u8],
    bytes: &'a [u8],
    count: u32,
) -> Result<(Vec<usize>, &'a [u8]), FrameFault>
    requires { EndsWith frame.now bytes.now }
    ensures exact { GivesTable named blob_bytes frame.now (λ x. x.0.items) (λ x. x.1.now) result
        (times count text_at bytes.now) }
{
    let mut table = Vec::new(alloc);
    let mut rest = bytes;
    for _ in 0..count {
        let at = frame.len() - rest.len();
        rest = past_text(rest)?;
        table.push(at)?;
    }
    Ok((table, rest))
}

/// Where each of `count` rails begins in `frame`, of which `bytes` is the rest, and the bytes after them.
pub fn rail_table<'a>(
    alloc: Global,
    frame: &[u8],
    bytes: &'a [u8],
    count: u32,
) -> Result<(Vec<usize>, &'a [u8]), FrameFault>
    requires { EndsWith frame.now bytes.now }
    ensures exact { GivesTable named blob_bytes frame.now (λ x. x.0.items) (λ x. x.1.now) result
        (times count rail_at bytes.now) }
{
    let mut table = Vec::new(alloc);
    let mut rest = bytes;
    for _ in 0..count {
        let at = frame.len() - rest.len();
        rest = past_rail(rest)?;
        table.push(at)?;
    }
    Ok((table, rest))
}

/// Where each node begins in `frame`, of which `bytes` is the rest, what was used after them, and the bytes after them.
#[inline(always)]
pub fn node_table<'a>(
    alloc: Global,
    frame: &[u8],
    bytes: &'a [u8],
    count: u32,
    version: FrameVersion,
    places: u16,
    all: &Used,
    used: &Used,
) -> Result<(Vec<usize>, Used, &'a [u8]), FrameFault>
    requires ends { EndsWith frame.now bytes.now }
    requires texts { all.now.texts ≤ most_of version }
    requires rails { all.now.rails ≤ most_of version }
    requires nodes { all.now.nodes ≤ most_of version }
    ensures exact { GivesNodes (tables_in used.now) (node_bytes version) frame.now
        (λ x. x.0.items) (λ x. tables_in x.1) (λ x. x.2.now) result
        (many (reading.node_at version places (tables_in all.now)) next_turn count
        (turn 0 (tables_in used.now)) bytes.now) }
{
    let mut table = Vec::new(alloc);
    let mut met = *used;
    let mut rest = bytes;
    for number in 0..count {
        let at = frame.len() - rest.len();
        let (after, left) = past_node(rest, number, version, places, all, &met)?;
        met = after;
        rest = left;
        table.push(at)?;
    }
    Ok((table, met, rest))
}
