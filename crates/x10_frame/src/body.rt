//! Where the parts of a frame are in its bytes.

ghost use Rattle.std.specs.Prelude.{ℕ};
ghost use Rattle.x10_model.specs.Offsets.{EndsWith};
ghost use Rattle.x10_model.specs.declared.version.FrameVersion.{FrameVersion};
ghost use Rattle.x10_frame.specs.declared.head.What.TheVariants as what;
ghost use Rattle.x10_frame.specs.Heads.{head, counts_at, after_head};
ghost use Rattle.x10_frame.specs.Bodies.{GivesBody};

use crate::fault::FrameFault;
use crate::graph::read_graph;
use crate::head::{Head, What};
use crate::parts::past_counts;
use std::alloc::Global;
use x10_model::FrameVersion;
use x10_model::limits::MOST_ROOTS;

/// Where the roots begin, how many there are, and where each text, rail and node begins. In a report
/// `start` is where the counts begin, and there is nothing else.
#[derive(Debug, Drop)]
pub struct Body {
    pub start: usize,
    pub roots: u16,
    pub texts: Vec<usize>,
    pub rails: Vec<usize>,
    pub nodes: Vec<usize>,
}

#[inline(always)]
fn read_counts<'a>(
    alloc: Global,
    frame: &[u8],
    bytes: &'a [u8],
    places: u16,
) -> Result<(Body, &'a [u8]), FrameFault>
    requires { EndsWith frame.now bytes.now }
    ensures exact { (v : FrameVersion) (from : ℕ) (to : ℕ) (finish : ℕ)
        → GivesBody v frame.now (head from to (what.Report finish)) (λ x. x.0) (λ x. x.1.now) result
        (counts_at places from to finish bytes.now) }
{
    let start = frame.len() - bytes.len();
    let rest = past_counts(bytes, places)?;
    let rest = past_counts(rest, places)?;
    let body = Body {
        start,
        roots: 0,
        texts: Vec::new(alloc),
        rails: Vec::new(alloc),
        nodes: Vec::new(alloc),
    };
    Ok((body, rest))
}

/// Where the parts of a frame with such a head are in `frame`, of which `bytes` is the rest, and the bytes after it.
#[inline(always)]
pub fn read_body<'a>(
    alloc: Global,
    frame: &[u8],
    bytes: &'a [u8],
    version: FrameVersion,
    places: u16,
    head: &Head,
) -> Result<(Body, &'a [u8]), FrameFault>
    requires { EndsWith frame.now bytes.now }
    ensures exact { GivesBody version frame.now head.now (λ x. x.0) (λ x. x.1.now) result
        (after_head version places head.now bytes.now) }
{
    match head.what {
        What::Spawn { .. } => read_graph(alloc, frame, bytes, version, places, MOST_ROOTS),
        What::Shift { .. } => read_graph(alloc, frame, bytes, version, places, MOST_ROOTS),
        What::Back { .. } => read_graph(alloc, frame, bytes, version, places, 1),
        What::Report { .. } => read_counts(alloc, frame, bytes, places),
    }
}
