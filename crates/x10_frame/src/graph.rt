//! The graph of a frame: where its parts are.

ghost use Rattle.std.specs.Prelude.{◌≤◌, IfOk, nat_le};
ghost use Rattle.std.specs.Int.{w16};
ghost use Rattle.x10_model.specs.Frames.{most_of};
ghost use Rattle.x10_model.specs.Readers.{number, such_that};
ghost use Rattle.x10_model.specs.ReadingFrames.{Short, Order, count_at, graph_at};
ghost use Rattle.x10_model.specs.Offsets.{EndsWith};
ghost use Rattle.x10_frame.specs.Faults.{Answers};
ghost use Rattle.x10_frame.specs.Items.{tables_in};
ghost use Rattle.x10_frame.specs.Graphs.{counts_at, graph_from};
ghost use Rattle.x10_frame.specs.Bodies.{GivesGraph};

use crate::body::Body;
use crate::fault::FrameFault;
use crate::parts::past_items;
use crate::tables::{node_table, rail_table, text_table};
use crate::used::Used;
use std::alloc::Global;
use x10_bytes::{u16_at, u32_at};
use x10_model::FrameVersion;
use x10_model::limits::MOST_WIDE;

/// How many roots, texts, rails and nodes a graph has.
#[derive(Clone, Copy, Debug)]
struct Counts {
    roots: u16,
    all: Used,
}

#[tactic(auto, unfolding(x10_model::specs::Readers::such_that, x10_model::specs::Readers::bind, x10_model::specs::Readers::check, x10_model::specs::Readers::done))]
#[inline(always)]
fn root_count_at(bytes: &[u8], most: u16) -> Result<(u16, &[u8]), FrameFault>
    ensures exact { Answers (λ x. (x.0, x.1.now)) result
        (such_that (number w16 Short) (λ n. nat_le n most) Order bytes.now) }
{
    let (count, bytes) = u16_at::<FrameFault>(bytes)?;
    if count > most {
        return Err(FrameFault::Order);
    }
    Ok((count, bytes))
}

/// How many texts, rails or nodes there are, and the bytes after that.
#[tactic(auto, unfolding(x10_model::specs::ReadingFrames::count_at, x10_model::specs::Readers::such_that, x10_model::specs::Readers::bind, x10_model::specs::Readers::check, x10_model::specs::Readers::done))]
#[inline(always)]
fn count_at(bytes: &[u8], version: FrameVersion) -> Result<(u32, &[u8]), FrameFault>
    ensures exact { Answers (λ x. (x.0, x.1.now)) result (count_at version bytes.now) }
    ensures few { IfOk result (λ x. x.0 ≤ most_of version) }
{
    match version {
        FrameVersion::Narrow => {
            let (count, bytes) = u16_at::<FrameFault>(bytes)?;
            Ok((u32::from(count), bytes))
        }
        FrameVersion::Wide => {
            let (count, bytes) = u32_at::<FrameFault>(bytes)?;
            if count > MOST_WIDE {
                return Err(FrameFault::Order);
            }
            Ok((count, bytes))
        }
    }
}

#[tactic(auto, unfolding(crate::specs::Graphs::counts_at, x10_model::specs::Readers::bind, x10_model::specs::Readers::done))]
#[inline(always)]
fn counts_at(bytes: &[u8], version: FrameVersion, most: u16) -> Result<(Counts, &[u8]), FrameFault>
    ensures exact { Answers (λ x. ((x.0.roots, tables_in x.0.all), x.1.now)) result
        (counts_at version most bytes.now) }
    ensures few { IfOk result (λ x. (x.0.all.texts ≤ most_of version)
        × (x.0.all.rails ≤ most_of version) × (x.0.all.nodes ≤ most_of version)) }
{
    let (roots, bytes) = root_count_at(bytes, most)?;
    let (texts, bytes) = count_at(bytes, version)?;
    let (rails, bytes) = count_at(bytes, version)?;
    let (nodes, bytes) = count_at(bytes, version)?;
    let all = Used {
        texts,
        rails,
        nodes,
    };
    Ok((Counts { roots, all }, bytes))
}

#[inline(always)]
fn parts_of<'a>(
    alloc: Global,
    frame: &[u8],
    bytes: &'a [u8],
    version: FrameVersion,
    places: u16,
    roots: u16,
    all: &Used,
) -> Result<(Body, &'a [u8]), FrameFault>
    requires ends { EndsWith frame.now bytes.now }
    requires texts { all.now.texts ≤ most_of version }
    requires rails { all.now.rails ≤ most_of version }
    requires nodes { all.now.nodes ≤ most_of version }
    ensures exact { GivesGraph version frame.now (λ x. x.0) (λ x. x.1.now) result
        (graph_from version places roots (tables_in all.now) bytes.now) }
{
    let start = frame.len() - bytes.len();
    let (used, rest) = past_items(bytes, roots, version, places, all, &Used::none())?;
    let (texts, rest) = text_table(alloc, frame, rest, all.texts)?;
    let (rails, rest) = rail_table(alloc, frame, rest, all.rails)?;
    let (nodes, used, rest) = node_table(
        alloc, frame, rest, all.nodes, version, places, all, &used,
    )?;
    if !used.is_all(all) {
        return Err(FrameFault::Order);
    }
    let body = Body {
        start,
        roots,
        texts,
        rails,
        nodes,
    };
    Ok((body, rest))
}

/// Where the parts of a graph of at most `most` roots are in `frame`, of which `bytes` is the rest, and the bytes after it.
pub fn read_graph<'a>(
    alloc: Global,
    frame: &[u8],
    bytes: &'a [u8],
    version: FrameVersion,
    places: u16,
    most: u16,
) -> Result<(Body, &'a [u8]), FrameFault>
    requires { EndsWith frame.now bytes.now }
    ensures exact { GivesGraph version frame.now (λ x. x.0) (λ x. x.1.now) result
        (graph_at version places most bytes.now) }
{
    let (counts, rest) = counts_at(bytes, version, most)?;
    let Counts { roots, all } = counts;
    match version {
        FrameVersion::Narrow => parts_of(
            alloc,
            frame,
            rest,
            FrameVersion::Narrow,
            places,
            roots,
            &all,
        ),
        FrameVersion::Wide => {
            parts_of(alloc, frame, rest, FrameVersion::Wide, places, roots, &all)
        }
    }
}
