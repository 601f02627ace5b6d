//! Bytes that are not a frame, and changed frames.

use super::frames::{again, is_written_again, spawned_in};
use std::alloc::{AllocError, Global};
use std::process::Abort;
use std::test::*;
use x10_frame::{FrameFault, FrameView};
use x10_samples::{CYCLE, NARROW_CYCLE, REPORT};

fn fault(alloc: Global, bytes: &[u8], places: u16) -> Option<FrameFault> {
    FrameView::read(alloc, bytes, places).err()
}

/// The fault of a frame of a version with a graph, where there are two places.
fn graph_fault(alloc: Global, version: u8, graph: &[u8]) -> Result<Option<FrameFault>, AllocError> {
    Ok(fault(alloc, &spawned_in(alloc, version, graph)?, 2))
}

// Takes no memory at all, as `rt try --test --fail-alloc 1` shows: the tables grow with what is there.
#[test]
fn counts_without_bytes(rt: HostRuntime) -> Result<(), Fail> {
    let short = Some(FrameFault::Short);
    for at in [2usize, 4, 6] {
        let mut graph = [0u8; 8];
        (graph[at], graph[at + 1]) = (255, 255);
        assert!(rt; graph_fault(rt.alloc(), 1, &graph)? == short);
    }
    for at in [2usize, 6, 10] {
        // the most, and one more
        let mut graph = [0u8; 14];
        graph[at + 1] = 16;
        assert!(rt; graph_fault(rt.alloc(), 2, &graph)? == short);
        graph[at + 3] = 1;
        assert!(rt; graph_fault(rt.alloc(), 2, &graph)? == Some(FrameFault::Order));
    }
    Ok(())
}

/// Each proper beginning of a frame is `Short`.
fn are_short(alloc: Global, rt: &impl Abort, frame: &[u8]) {
    for length in 0..frame.len() {
        assert_eq!(rt;
            fault(alloc, &frame[..length], 2),
            Some(FrameFault::Short),
            "of {length} bytes"
        );
    }
}

#[test]
fn each_beginning_is_short(rt: HostRuntime) {
    are_short(rt.alloc(), &rt, &CYCLE);
    are_short(rt.alloc(), &rt, &NARROW_CYCLE);
}

/// Whether bytes are a frame of version 2 that is written again as they are, or one of version 1 that is written in version 2,
/// and then again as that is.
fn is_written(
    alloc: Global,
    rt: &impl Abort,
    view: &FrameView,
    bytes: &[u8],
) -> Result<bool, Fail> {
    let written = again(alloc, rt, view)?;
    if bytes.first() == Some(&2) {
        return Ok(written.as_slice() == bytes);
    }
    is_written_again(alloc, rt, &written, 2)?;
    Ok(bytes.first() == Some(&1))
}

/// Whether bytes are refused, which the frame itself isn't, or are a frame that is written again.
fn is_refused_or_written(
    alloc: Global,
    rt: &impl Abort,
    bytes: &[u8],
    frame: &[u8],
) -> Result<bool, Fail> {
    match FrameView::read(alloc, bytes, 2) {
        Ok(view) => is_written(alloc, rt, &view, bytes),
        Err(fault) => Ok(fault != FrameFault::Memory && bytes != frame),
    }
}

/// Each value in place of each byte of a frame.
fn are_refused_or_written(alloc: Global, rt: &impl Abort, frame: &[u8]) -> Result<(), Fail> {
    for place in 0..frame.len() {
        let mut bytes = Vec::from_slice(alloc, frame)?;
        for value in 0..=255u8 {
            if let Some(byte) = bytes.get_mut(place) {
                *byte = value;
            }
            assert!(rt; is_refused_or_written(alloc, rt, &bytes, frame)?);
        }
    }
    Ok(())
}

#[test]
fn each_other_byte(rt: HostRuntime) -> Result<(), Fail> {
    are_refused_or_written(rt.alloc(), &rt, &CYCLE)?;
    are_refused_or_written(rt.alloc(), &rt, &NARROW_CYCLE)
}

#[test]
fn refusals_of_heads(rt: HostRuntime) {
    let heads: [(&[u8], u16, FrameFault); 9] = [
        (&[], 2, FrameFault::Short),
        (&[0], 2, FrameFault::Version),
        (&[3], 2, FrameFault::Version),
        (&[1, 0], 2, FrameFault::FrameType),
        (&[2, 5], 2, FrameFault::FrameType),
        (&[1, 1, 0, 2], 2, FrameFault::Place),
        (&[2, 1, 0, 2], 2, FrameFault::Place),
        (&REPORT, 2, FrameFault::Place),
        (&REPORT, 4, FrameFault::Place),
    ];
    for (bytes, places, want) in heads {
        assert_eq!(rt; fault(rt.alloc(), bytes, places), Some(want), "{bytes:?}");
    }
}

/// Graphs of a version, each of which is refused for its fault.
fn are_refused(
    alloc: Global,
    rt: &impl Abort,
    version: u8,
    graphs: &[(&[u8], FrameFault)],
) -> Result<(), Fail> {
    for (graph, fault) in graphs {
        assert!(rt; graph_fault(alloc, version, graph)? == Some(*fault));
    }
    Ok(())
}

fn are_out_of_order(
    alloc: Global,
    rt: &impl Abort,
    version: u8,
    graphs: &[&[u8]],
) -> Result<(), Fail> {
    for graph in graphs {
        assert!(rt; graph_fault(alloc, version, graph)? == Some(FrameFault::Order));
    }
    Ok(())
}

#[test]
fn refused_for_their_order(rt: HostRuntime) -> Result<(), Fail> {
    let narrow: [&[u8]; 7] = [
        &[0, 17, 0, 0, 0, 0, 0, 0],
        &[0, 1, 0, 0, 0, 0, 0, 1, 5, 0, 1],
        &[0, 1, 0, 0, 0, 0, 0, 2, 5, 0, 1],
        &[0, 0, 0, 0, 0, 0, 0, 1, 0, 0],
        &[0, 1, 0, 0, 0, 0, 0, 1, 5, 0, 0, 0, 0, 17],
        &[0, 1, 0, 1, 0, 0, 0, 0, 3, 0, 0, 0, 1, 0, 0],
        &[0, 0, 0, 1, 0, 0, 0, 0, 0, 0, 0, 0],
    ];
    let wide: [&[u8]; 7] = [
        &[0, 17, 0, 0, 0, 0, 0, 0, 0, 0, 0, 0, 0, 0],
        &[0, 1, 0, 0, 0, 0, 0, 0, 0, 0, 0, 0, 0, 1, 5, 0, 0, 0, 1],
        &[0, 1, 0, 0, 0, 0, 0, 0, 0, 0, 0, 0, 0, 2, 5, 0, 0, 0, 1],
        &[0, 0, 0, 0, 0, 0, 0, 0, 0, 0, 0, 0, 0, 1, 0, 0],
        &[
            0, 1, 0, 0, 0, 0, 0, 0, 0, 0, 0, 0, 0, 1, 5, 0, 0, 0, 0, 0, 0, 17,
        ],
        &[
            0, 1, 0, 0, 0, 1, 0, 0, 0, 0, 0, 0, 0, 0, 3, 0, 0, 0, 0, 0, 1, 0, 0,
        ],
        &[0, 0, 0, 0, 0, 1, 0, 0, 0, 0, 0, 0, 0, 0, 0, 0, 0, 0],
    ];
    are_out_of_order(rt.alloc(), &rt, 1, &narrow)?;
    are_out_of_order(rt.alloc(), &rt, 2, &wide)
}

#[test]
fn other_faults_of_version_1(rt: HostRuntime) -> Result<(), Fail> {
    let narrow: [(&[u8], FrameFault); 7] = [
        (&[0, 0, 0, 0, 0, 0, 0, 1, 0], FrameFault::Short),
        (&[0, 0, 0, 0, 0, 0, 255, 255], FrameFault::Short),
        (&[0, 1, 0, 0, 0, 0, 0, 0, 8], FrameFault::Tag),
        (&[0, 1, 0, 0, 0, 0, 0, 0, 2, 0, 2], FrameFault::Place),
        (&[0, 1, 0, 0, 0, 0, 0, 0, 7, 0, 2], FrameFault::Place),
        (&[0, 0, 0, 0, 0, 0, 0, 0, 0], FrameFault::Trailing),
        (
            &[0, 1, 0, 1, 0, 0, 0, 0, 3, 0, 0, 0, 0, 0, 1, 255],
            FrameFault::Text,
        ),
    ];
    are_refused(rt.alloc(), &rt, 1, &narrow)
}

#[test]
fn other_faults_of_version_2(rt: HostRuntime) -> Result<(), Fail> {
    let wide: [(&[u8], FrameFault); 7] = [
        (
            &[0, 0, 0, 0, 0, 0, 0, 0, 0, 0, 0, 0, 0, 1, 0],
            FrameFault::Short,
        ),
        (
            &[0, 0, 0, 0, 0, 0, 0, 0, 0, 0, 0, 0, 255, 255],
            FrameFault::Short,
        ),
        (
            &[0, 1, 0, 0, 0, 0, 0, 0, 0, 0, 0, 0, 0, 0, 8],
            FrameFault::Tag,
        ),
        (
            &[0, 1, 0, 0, 0, 0, 0, 0, 0, 0, 0, 0, 0, 0, 2, 0, 2],
            FrameFault::Place,
        ),
        (
            &[0, 1, 0, 0, 0, 0, 0, 0, 0, 0, 0, 0, 0, 0, 7, 0, 2],
            FrameFault::Place,
        ),
        (
            &[0, 0, 0, 0, 0, 0, 0, 0, 0, 0, 0, 0, 0, 0, 0],
            FrameFault::Trailing,
        ),
        (
            &[
                0, 1, 0, 0, 0, 1, 0, 0, 0, 0, 0, 0, 0, 0, 3, 0, 0, 0, 0, 0, 0, 0, 1, 255,
            ],
            FrameFault::Text,
        ),
    ];
    are_refused(rt.alloc(), &rt, 2, &wide)
}

#[test]
fn a_fault_is_shown_by_its_name(rt: HostRuntime) -> Result<(), Fail> {
    assert!(rt; format!(in rt.alloc(); "{}", FrameFault::FrameType)?.as_str() == "FrameType");
    Ok(())
}
