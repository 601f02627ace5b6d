//! Graphs of frames that don't arrive, and why.
use super::copies::{counts, here, host, refusal, slot};
use super::frames::spawned;
use crate::sources::{assembled, image_of};
use std::alloc::Global;
use std::process::Abort;
use std::test::*;
use x10_copy::Refusal;
use x10_image::ImageView;
use x10_kinds::Kind;
use x10_model::Slot;
use x10_samples::MIXED;

/// Kinds of roots, a graph that should arrive there, and why it doesn't.
type Case<'a> = (&'a [Slot], &'a [u8], Option<Refusal>);

/// Why a graph doesn't arrive at `host`, if it doesn't; then that is as it was.
fn refused(
    alloc: Global,
    rt: &impl Abort,
    image: &ImageView,
    slots: &[Slot],
    graph: &[u8],
) -> Result<Option<Refusal>, Fail> {
    let mut heap = host(alloc, rt)?;
    let frame = spawned(alloc, graph)?;
    let why = refusal(alloc, &mut heap, image, &frame, slots);
    assert!(rt; why.is_none() || counts(&heap) == (1, 1, 1));
    Ok(why)
}

/// Whether each graph has the answer of its case.
fn answers(
    alloc: Global,
    rt: &impl Abort,
    image: &ImageView,
    cases: &[Case],
) -> Result<bool, Fail> {
    for case in cases {
        if refused(alloc, rt, image, case.0, case.1)? != case.2 {
            return Ok(false);
        }
    }
    Ok(true)
}

/// Each graph has the answer of its case.
fn are_answered(alloc: Global, rt: &impl Abort, cases: &[Case]) -> Result<(), Fail> {
    let bytes = assembled(alloc, MIXED)?;
    let image = image_of(alloc, &bytes)?;
    assert!(rt; answers(alloc, rt, &image, cases)?);
    Ok(())
}

/// Kinds of the roots, and fields of an object.
#[test]
fn kinds_are_asked_for(rt: HostRuntime) -> Result<(), Fail> {
    let int = slot(Kind::Int);
    let number: &[u8] = &[
        0, 1, 0, 0, 0, 0, 0, 0, 0, 0, 0, 0, 0, 0, 1, 0, 0, 0, 0, 0, 0, 0, 5,
    ];
    let null: &[u8] = &[0, 1, 0, 0, 0, 0, 0, 0, 0, 0, 0, 0, 0, 0, 6];
    let longer: &[u8] = &[
        0, 1, 0, 0, 0, 0, 0, 0, 0, 0, 0, 0, 0, 1, 5, 0, 0, 0, 0, 0, 2, 1, 6,
    ];
    let no_class: &[u8] = &[
        0, 1, 0, 0, 0, 0, 0, 0, 0, 0, 0, 0, 0, 1, 5, 0, 0, 0, 0, 0, 9, 0,
    ];
    let swapped: &[u8] = &[
        0, 1, 0, 0, 0, 0, 0, 0, 0, 0, 0, 0, 0, 1, 5, 0, 0, 0, 0, 0, 3, 2, 2, 0, 1, 7, 0, 0, 0, 0,
        0, 0, 0, 2,
    ];
    let cases: [Case; 9] = [
        (&[int], number, None),
        (&[], number, Some(Refusal::Kind)),
        (&[int, int], number, Some(Refusal::Kind)),
        (&[slot(Kind::Text)], number, Some(Refusal::Kind)),
        (&[slot(Kind::Opt(0))], null, None),
        (&[slot(Kind::Obj(0))], null, Some(Refusal::Kind)),
        (&[slot(Kind::Obj(2))], longer, Some(Refusal::Kind)),
        (&[slot(Kind::Obj(9))], no_class, Some(Refusal::Kind)),
        (&[slot(Kind::Obj(3))], swapped, Some(Refusal::Kind)),
    ];
    are_answered(rt.alloc(), &rt, &cases)
}

/// Homes, and what a global reference names.
#[test]
fn references_are_asked_for(rt: HostRuntime) -> Result<(), Fail> {
    let away: &[u8] = &[
        0, 1, 0, 0, 0, 0, 0, 0, 0, 0, 0, 0, 0, 0, 7, 0, 0, 0, 0, 0, 5, 0, 2,
    ];
    let named: &[u8] = &[
        0, 1, 0, 0, 0, 0, 0, 0, 0, 0, 0, 0, 0, 0, 7, 0, 1, 0, 0, 0, 0, 0, 2,
    ];
    let nothing: &[u8] = &[
        0, 1, 0, 0, 0, 0, 0, 0, 0, 0, 0, 0, 0, 0, 7, 0, 1, 0, 0, 0, 1, 0, 2,
    ];
    let of_another: &[u8] = &[
        0, 1, 0, 0, 0, 0, 0, 0, 0, 0, 0, 0, 0, 0, 7, 0, 1, 0, 0, 0, 0, 0, 0,
    ];
    let field: &[u8] = &[
        0, 1, 0, 0, 0, 0, 0, 0, 0, 0, 0, 0, 0, 1, 5, 0, 0, 0, 0, 0, 3, 2, 7, 0, 1, 0, 0, 0, 9, 0,
        2, 2, 0, 0,
    ];
    let cases: [Case; 6] = [
        (&[slot(Kind::GRef(2))], away, None),
        (&[here(2)], away, Some(Refusal::Home)),
        (&[here(2)], named, None),
        (&[here(2)], nothing, Some(Refusal::Ref)),
        (&[here(0)], of_another, Some(Refusal::Ref)),
        (&[slot(Kind::Obj(3))], field, Some(Refusal::Ref)),
    ];
    are_answered(rt.alloc(), &rt, &cases)
}

/// Of two faults the kind is reported before the home, and the home before the reference, wherever they are.
#[test]
fn the_first_fault_is_named(rt: HostRuntime) -> Result<(), Fail> {
    let any = slot(Kind::GRef(2));
    let both: &[u8] = &[
        0, 2, 0, 0, 0, 0, 0, 0, 0, 0, 0, 0, 0, 0, 7, 0, 0, 0, 0, 0, 5, 0, 2, 7, 0, 1, 0, 0, 0, 1,
        0, 2,
    ];
    let turned: &[u8] = &[
        0, 2, 0, 0, 0, 0, 0, 0, 0, 0, 0, 0, 0, 0, 7, 0, 1, 0, 0, 0, 1, 0, 2, 7, 0, 0, 0, 0, 0, 5,
        0, 2,
    ];
    let cases: [Case; 5] = [
        (&[here(2), any], both, Some(Refusal::Home)),
        (&[any, any], both, Some(Refusal::Ref)),
        (&[here(2), here(0)], both, Some(Refusal::Kind)),
        (&[any, here(2)], turned, Some(Refusal::Home)),
        (&[here(0), here(2)], turned, Some(Refusal::Kind)),
    ];
    are_answered(rt.alloc(), &rt, &cases)
}
