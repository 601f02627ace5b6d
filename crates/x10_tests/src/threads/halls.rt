//! A hall by itself.
use std::alloc::Global;
use std::sync::Arc;
use std::test::*;
use x10_hall::{Hall, HallState, Keys, Posted, Turn};

/// A turn of place 0 that puts out a frame to each of these places; its byte is the place's number.
fn turn_to(alloc: Global, places: &[u16]) -> Result<Turn, Fail> {
    let mut frames = Vec::new(alloc);
    for to in places {
        let mut bytes = Vec::new(alloc);
        bytes.push((*to % 256) as u8)?;
        let bytes = Arc::new(alloc, bytes)?;
        frames.push(Posted { to: *to, bytes })?;
    }
    Ok(Turn {
        place: 0,
        taken: Vec::new(alloc),
        keys: Keys::new(alloc, &[])?,
        frames,
        lines: Vec::new(alloc),
    })
}

/// A hall of two places.
fn hall_of_two(alloc: Global) -> Result<Hall, Fail> {
    Ok(Hall::new(alloc, 2)?)
}

/// Whether a turn is posted.
fn is_posted(hall: &mut Hall, turn: Turn) -> bool {
    hall.post(turn).is_ok()
}

/// The number of the next frame for a place, with its only byte.
fn next(hall: &mut Hall, place: u16) -> Option<(u64, u8)> {
    let frame = hall.take(place)?;
    match frame.bytes.as_slice() {
        [byte] => Some((frame.number, *byte)),
        _ => None,
    }
}

/// How many turns the log has.
fn turns(hall: &Hall) -> usize {
    hall.log().len()
}

/// The state after the run has ended.
fn after_finish(hall: &mut Hall) -> HallState {
    hall.finish();
    hall.state()
}

/// The state after the run was stopped.
fn after_stop(hall: &mut Hall) -> HallState {
    hall.stop();
    hall.state()
}

#[test]
fn frames_in_order(rt: HostRuntime) -> Result<(), Fail> {
    let mut hall = hall_of_two(rt.alloc())?;
    let turn = turn_to(rt.alloc(), &[1, 0, 1, 9])?;
    assert!(rt; next(&mut hall, 1).is_none());
    assert!(rt; is_posted(&mut hall, turn));
    assert!(rt; next(&mut hall, 1) == Some((0, 1)));
    assert!(rt; next(&mut hall, 1) == Some((2, 1)));
    assert!(rt; next(&mut hall, 1).is_none());
    assert!(rt; next(&mut hall, 9).is_none());
    assert!(rt; next(&mut hall, 7).is_none());
    let turn = turn_to(rt.alloc(), &[1])?;
    assert!(rt; is_posted(&mut hall, turn));
    assert!(rt; next(&mut hall, 1) == Some((4, 1)));
    assert!(rt; next(&mut hall, 0) == Some((1, 0)));
    assert!(rt; next(&mut hall, 0).is_none());
    assert!(rt; turns(&hall) == 2);
    Ok(())
}

/// Whether the last turn is posted once more.
fn is_posted_again(hall: &mut Hall) -> bool {
    !hall.log().is_empty() && hall.again().is_ok()
}

#[test]
fn frames_again(rt: HostRuntime) -> Result<(), Fail> {
    let mut hall = hall_of_two(rt.alloc())?;
    assert!(rt; !is_posted_again(&mut hall));
    let turn = turn_to(rt.alloc(), &[1, 0])?;
    assert!(rt; is_posted(&mut hall, turn));
    assert!(rt; is_posted_again(&mut hall));
    assert!(rt; turns(&hall) == 2);
    assert!(rt; next(&mut hall, 1) == Some((0, 1)));
    assert!(rt; next(&mut hall, 1) == Some((2, 1)));
    assert!(rt; next(&mut hall, 0) == Some((1, 0)));
    assert!(rt; next(&mut hall, 0) == Some((3, 0)));
    assert!(rt; next(&mut hall, 0).is_none());
    Ok(())
}

#[test]
fn states(rt: HostRuntime) -> Result<(), Fail> {
    let mut hall = hall_of_two(rt.alloc())?;
    assert!(rt; hall.state() == HallState::Open);
    assert!(rt; after_finish(&mut hall) == HallState::Finished);
    assert!(rt; after_stop(&mut hall) == HallState::Stopped);
    assert!(rt; after_finish(&mut hall) == HallState::Stopped);
    assert!(rt; turns(&hall) == 0);
    Ok(())
}

/// Whether keys are kept as they are given: as many, each at its position, and the same as a copy of them.
fn is_kept(alloc: Global, keys: &[usize]) -> Result<bool, Fail> {
    let kept = Keys::new(alloc, keys)?;
    let copy = kept.copied(alloc)?;
    Ok(kept.len() == keys.len() && kept.is_same(&copy) && has_each(&kept, keys))
}

/// Whether keys stand at their positions.
fn has_each(kept: &Keys, keys: &[usize]) -> bool {
    for at in 0..keys.len() {
        if at >= kept.len() || kept.at(at) != keys[at] {
            return false;
        }
    }
    true
}

/// Keys that are the same, that go round, up to the middle of a round too, and that do neither.
#[test]
fn keys(rt: HostRuntime) -> Result<(), Fail> {
    let alloc = rt.alloc();
    assert!(rt; is_kept(alloc, &[])?);
    assert!(rt; is_kept(alloc, &[4, 4, 4])?);
    assert!(rt; is_kept(alloc, &[3, 5, 3, 5, 3])?);
    assert!(rt; is_kept(alloc, &[3, 5, 3, 6])?);
    assert!(rt; is_kept(alloc, &[1, 2, 3])?);
    Ok(())
}
