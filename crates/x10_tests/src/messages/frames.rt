//! Frames that are written again as they are read, and their parts.

ghost use Rattle.x10_frame.specs.Heads.{IsGraphHead};

use crate::sources::view_of;
use std::alloc::{AllocError, Global};
use std::process::Abort;
use std::test::*;
use x10_frame::{
    FrameView, FrameWriter, Head, Item, NodeView, Nodes, NodesByVersion, Report, Sizes, What,
    write_report,
};
use x10_model::Finish;
use x10_samples::{
    ALONE, BACK, CYCLE, NARROW_BACK, NARROW_CYCLE, NARROW_REPORT, NARROW_SHIFT, OTHER_REPORT,
    REPORT, SHIFT, SPAWN,
};

/// A new activity with an empty text, a rail of two bytes, -2, place 1, null and a text of one
/// character.
const VALUES: [u8; 73] = [
    2, 1, 0, 0, 0, 1, 0, 0, 0, 0, 0, 1, 0, 0, 0, 6, 0, 0, 0, 2, 0, 0, 0, 1, 0, 0, 0, 0, 3, 0, 0, 0,
    0, 4, 0, 0, 0, 0, 1, 255, 255, 255, 255, 255, 255, 255, 254, 2, 0, 1, 6, 3, 0, 0, 0, 1, 0, 0,
    0, 0, 0, 0, 0, 3, 226, 130, 172, 0, 0, 0, 2, 128, 0,
];

/// The frame of a version, 1 or 2, for a new activity at place 1 with a graph.
pub(crate) fn spawned_in(alloc: Global, version: u8, graph: &[u8]) -> Result<Vec<u8>, AllocError> {
    let head = [version, 1, 0, 0, 0, 1, 0, 0, 0, 0, 0, 1, 0, 0];
    let mut bytes = Vec::from_slice(alloc, &head)?;
    bytes.extend_from_slice(graph)?;
    Ok(bytes)
}

pub(crate) fn spawned(alloc: Global, graph: &[u8]) -> Result<Vec<u8>, AllocError> {
    spawned_in(alloc, 2, graph)
}

/// The fields of a node, one after another and each by its number.
fn fields_again(alloc: Global, rt: &impl Abort, node: &NodeView) -> Result<Vec<Item>, Fail> {
    let mut fields = Vec::new(alloc);
    let mut values = node.values();
    for j in 0..node.fields() {
        assert!(rt; values.left() > 0 && values.left() == node.fields() - j);
        let value = values.step();
        assert!(rt; value == node.field(j));
        fields.push(value)?;
    }
    assert!(rt; values.left() == 0);
    Ok(fields)
}

fn node_again(
    alloc: Global,
    rt: &impl Abort,
    writer: &mut FrameWriter,
    node: &NodeView,
) -> Result<(), Fail> {
    let fields = fields_again(alloc, rt, node)?;
    assert!(rt; fields.len() <= 16);
    Ok(writer.node(node.class(), &fields)?)
}

/// The objects of a frame, whichever its version.
fn nodes_of<'a>(view: &'a FrameView) -> Nodes<'a> {
    match view.nodes_by_version() {
        NodesByVersion::Narrow(nodes) => nodes,
        NodesByVersion::Wide(nodes) => nodes,
    }
}

fn graph_again(
    alloc: Global,
    rt: &impl Abort,
    view: &FrameView,
    head: &Head,
) -> Result<Vec<u8>, Fail>
    requires { IsGraphHead head.now }
{
    let sizes = Sizes {
        roots: view.roots() as u16,
        texts: view.texts() as u32,
        rails: view.rails() as u32,
        nodes: view.nodes() as u32,
    };
    let mut roots = Vec::new(alloc);
    for i in 0..view.roots() {
        roots.push(view.root(i))?;
    }
    let mut writer = FrameWriter::new(alloc, head, &sizes)?;
    writer.reserve(100)?;
    writer.roots(&roots)?;
    for i in 0..view.texts() {
        writer.text(view.text(i))?;
    }
    for i in 0..view.rails() {
        writer.rail(view.rail(i))?;
    }
    let nodes = nodes_of(view);
    for i in 0..nodes.len() {
        node_again(alloc, rt, &mut writer, &nodes.node(i))?;
    }
    Ok(writer.finish())
}

fn report_again(
    alloc: Global,
    rt: &impl Abort,
    view: &FrameView,
    from: u16,
    to: u16,
    number: u32,
) -> Result<Vec<u8>, Fail> {
    let mut sent = Vec::new(alloc);
    let mut received = Vec::new(alloc);
    for place in 0..view.counts() {
        sent.push(view.sent(place))?;
        received.push(view.received(place))?;
    }
    let report = Report {
        place: from,
        number,
        sent,
        received,
    };
    assert!(rt; report.sent.len() < 65_536);
    Ok(write_report(alloc, to, &report)?)
}

/// The frame that a view shows, written again.
pub(crate) fn again(alloc: Global, rt: &impl Abort, view: &FrameView) -> Result<Vec<u8>, Fail> {
    let head = view.head();
    match head.what {
        What::Spawn { .. } => graph_again(alloc, rt, view, &head),
        What::Shift { .. } => graph_again(alloc, rt, view, &head),
        What::Back { .. } => graph_again(alloc, rt, view, &head),
        What::Report { number } => report_again(alloc, rt, view, head.from, head.to, number),
    }
}

/// Whether the frame that a view shows is written again as these bytes.
fn is_again(alloc: Global, rt: &impl Abort, view: &FrameView, bytes: &[u8]) -> Result<bool, Fail> {
    Ok(again(alloc, rt, view)?.as_slice() == bytes)
}

pub(crate) fn is_written_again(
    alloc: Global,
    rt: &impl Abort,
    bytes: &[u8],
    places: u16,
) -> Result<(), Fail> {
    let view = view_of(alloc, bytes, places)?;
    assert!(rt; is_again(alloc, rt, &view, bytes)?);
    Ok(())
}

#[test]
fn each_frame_both_ways(rt: HostRuntime) -> Result<(), Fail> {
    let alloc = rt.alloc();
    is_written_again(alloc, &rt, &SHIFT, 3)?;
    is_written_again(alloc, &rt, &SPAWN, 3)?;
    is_written_again(alloc, &rt, &BACK, 3)?;
    is_written_again(alloc, &rt, &REPORT, 3)?;
    is_written_again(alloc, &rt, &OTHER_REPORT, 3)?;
    is_written_again(alloc, &rt, &CYCLE, 2)?;
    is_written_again(alloc, &rt, &ALONE, 1)?;
    is_written_again(alloc, &rt, &VALUES, 2)
}

/// A frame of version 1 is the same frame as one of version 2, as which it is written again.
#[test]
fn frames_of_version_1(rt: HostRuntime) -> Result<(), Fail> {
    let pairs: [(&[u8], &[u8], u16); 4] = [
        (&NARROW_SHIFT, &SHIFT, 3),
        (&NARROW_BACK, &BACK, 3),
        (&NARROW_REPORT, &REPORT, 3),
        (&NARROW_CYCLE, &CYCLE, 2),
    ];
    for (narrow, wide, places) in pairs {
        let view = view_of(rt.alloc(), narrow, places)?;
        assert!(rt; is_again(rt.alloc(), &rt, &view, wide)?);
    }
    Ok(())
}

#[test]
fn most_roots_and_fields(rt: HostRuntime) -> Result<(), Fail> {
    let graph = [0, 16, 0, 0, 0, 0, 0, 0, 0, 0, 0, 0, 0, 1, 5, 0, 0, 0, 0];
    let mut bytes = spawned(rt.alloc(), &graph)?;
    bytes.extend_from_slice(&[6; 15])?;
    bytes.extend_from_slice(&[0, 0, 16])?;
    bytes.extend_from_slice(&[6; 16])?;
    is_written_again(rt.alloc(), &rt, &bytes, 2)
}

/// How many roots, texts, rails and nodes a view has.
pub(crate) fn sizes_of(view: &FrameView) -> (usize, usize, usize, usize) {
    (view.roots(), view.texts(), view.rails(), view.nodes())
}

/// Whether the first root and the first rail are these.
fn begins_with(view: &FrameView, root: Item, rail: &[u8]) -> bool {
    view.roots() > 0 && view.rails() > 0 && view.root(0) == root && view.rail(0) == rail
}

/// Whether the first node is of a class and has these fields.
fn has_first(
    alloc: Global,
    rt: &impl Abort,
    view: &FrameView,
    class: u16,
    fields: &[Item],
) -> Result<bool, Fail> {
    assert!(rt; view.nodes() > 0);
    let node = view.node(0);
    Ok(node.class() == class && fields_again(alloc, rt, &node)?.as_slice() == fields)
}

/// A view has the parts of a cycle.
fn has_a_cycle(alloc: Global, rt: &impl Abort, view: &FrameView) -> Result<(), Fail> {
    let under = Finish { home: 0, number: 1 };
    let head = Head {
        from: 0,
        to: 1,
        what: What::Spawn { under, function: 0 },
    };
    let here = Item::Ref {
        home: 0,
        id: 0,
        class: 1,
    };
    assert!(rt; view.head() == head && view.counts() == 0);
    assert!(rt; sizes_of(view) == (1, 0, 1, 2));
    assert!(rt; begins_with(view, Item::Object(0), &[0, 0]));
    let fields = [Item::Object(1), Item::Rail(0), here];
    assert!(rt; has_first(alloc, rt, view, 0, &fields)?);
    Ok(())
}

#[test]
fn parts_of_a_cycle(rt: HostRuntime) -> Result<(), Fail> {
    let (wide, narrow) = (
        view_of(rt.alloc(), &CYCLE, 2)?,
        view_of(rt.alloc(), &NARROW_CYCLE, 2)?,
    );
    has_a_cycle(rt.alloc(), &rt, &wide)?;
    has_a_cycle(rt.alloc(), &rt, &narrow)
}

/// Whether a report has these counts.
fn has_counts(view: &FrameView, sent: &[u32], received: &[u32]) -> bool {
    for place in 0..view.counts() {
        let (to, from) = (view.sent(place), view.received(place));
        if sent.get(place).copied() != Some(to) || received.get(place).copied() != Some(from) {
            return false;
        }
    }
    true
}

#[test]
fn parts_of_a_report(rt: HostRuntime) -> Result<(), Fail> {
    let view = view_of(rt.alloc(), &REPORT, 3)?;
    let head = Head {
        from: 1,
        to: 0,
        what: What::Report { number: 1 },
    };
    assert!(rt; view.head() == head && view.counts() == 3);
    assert!(rt; has_counts(&view, &[0, 0, 1], &[1, 0, 0]));
    Ok(())
}
