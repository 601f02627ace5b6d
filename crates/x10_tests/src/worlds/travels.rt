//! Worlds of one to three places, event by event, and the frames that they put out, byte for byte.
use super::calls::{happens, is_closed, is_flying, lines_of, posted, world_of};
use crate::sources::{assembled, verified_of};
use std::process::Abort;
use std::test::*;
use x10_model::Event;
use x10_place::Line;
use x10_samples::{ALONE, ALONG, AWAY, BACK, CYCLE, OTHER_REPORT, REPORT, SHIFT, SPAWN};
use x10_world::World;

/// Main starts an activity at the place after the last, which is its own.
const AROUND: &str = "places 1
func 1 0 none
RET 0
end
func 2 0 none
HERE 0
NEXTP 0 0
PLACEI 1 0
PRINT 1
ATA 0 0 0
RET 0
end
entry 1
";

/// What place 1 has counted of main's finish in `ALONG`: one received from place 0.
const REPORT_OF_TWO: [u8; 28] = [
    2, 4, 0, 1, 0, 0, 0, 0, 0, 1, 0, 2, 0, 0, 0, 0, 0, 0, 0, 0, 0, 0, 0, 1, 0, 0, 0, 0,
];

/// Steps of the first key, which are made, whether they move or not.
fn steps(rt: &impl Abort, world: &mut World, place: u16, times: u32) {
    for _ in 0..times {
        assert!(rt; happens(world, Event::Step(place, 0)));
    }
}

/// Whether a step of the first key moves.
fn moves(world: &mut World, place: u16) -> bool {
    world.run_activity(place, 0, 1) == Ok(1)
}

/// Whether a step of the first key finds nothing to do.
fn waits(world: &mut World, place: u16) -> bool {
    world.run_activity(place, 0, 1) == Ok(0)
}

/// Whether `steps` steps of the first key are made until it ends, waits or is away.
fn makes(world: &mut World, place: u16, steps: u64) -> bool {
    world.run_activity(place, 0, 100) == Ok(steps)
}

/// The frame with a number is in flight, and is taken in.
fn arrives(rt: &impl Abort, world: &mut World, number: u64) {
    assert!(rt; is_flying(world, number));
    assert!(rt; happens(world, Event::Deliver(number)));
    assert!(rt; !is_flying(world, number));
}

/// Whether the frame with a number is in flight to a place, and has these bytes.
fn flies(world: &World, number: u64, place: u16, bytes: &[u8]) -> bool {
    match world.frame(number) {
        Some((to, there)) => to == place && there == bytes,
        None => false,
    }
}

/// Whether a place has printed one number, and nothing else.
fn printed(world: &World, place: u16, number: i64) -> bool {
    matches!(world.output(place), Some([Line::Int(line)]) if *line == number)
}

/// Main goes away, starts an activity at place 2, and its way back and a report are on their way.
fn goes_out(rt: &impl Abort, world: &mut World) {
    steps(rt, world, 0, 3);
    assert!(rt; posted(world) == 1 && flies(world, 0, 1, &SHIFT));
    arrives(rt, world, 0);
    steps(rt, world, 1, 3);
    assert!(rt; posted(world) == 4 && flies(world, 1, 2, &SPAWN));
    assert!(rt; flies(world, 2, 0, &BACK) && flies(world, 3, 0, &REPORT));
}

/// Main comes back, and waits for what was started at place 2.
fn comes_back(rt: &impl Abort, world: &mut World) {
    arrives(rt, world, 2);
    assert!(rt; waits(world, 0));
    arrives(rt, world, 3);
    assert!(rt; waits(world, 0));
    arrives(rt, world, 1);
    steps(rt, world, 2, 3);
    assert!(rt; posted(world) == 5 && flies(world, 4, 0, &OTHER_REPORT));
}

/// Main goes on with the last report, and has ended.
fn goes_on(rt: &impl Abort, world: &mut World) {
    assert!(rt; waits(world, 0));
    arrives(rt, world, 4);
    assert!(rt; moves(world, 0) && !is_closed(world));
    steps(rt, world, 0, 3);
    assert!(rt; is_closed(world) && posted(world) == 5);
    assert!(rt; printed(world, 0, 9) && printed(world, 2, 5));
    assert!(rt; lines_of(world, 1) == Some(0));
}

/// Main goes away and comes back, and waits for what was started at place 2.
fn goes_away(rt: &impl Abort, world: &mut World) {
    goes_out(rt, world);
    comes_back(rt, world);
    goes_on(rt, world);
}

#[test]
fn away_and_back(rt: HostRuntime) -> Result<(), Fail> {
    let bytes = assembled(rt.alloc(), AWAY)?;
    let verified = verified_of(rt.alloc(), &bytes)?;
    let mut world = world_of(rt.alloc(), &verified, 3)?;
    goes_away(&rt, &mut world);
    Ok(())
}

/// The objects go to place 1, whose report comes back.
fn goes_along(rt: &impl Abort, world: &mut World) {
    assert!(rt; makes(world, 0, 12));
    assert!(rt; posted(world) == 1 && flies(world, 0, 1, &CYCLE));
    assert!(rt; waits(world, 0));
    arrives(rt, world, 0);
    assert!(rt; makes(world, 1, 10));
    assert!(rt; posted(world) == 2 && flies(world, 1, 0, &REPORT_OF_TWO));
    assert!(rt; waits(world, 0));
    arrives(rt, world, 1);
    assert!(rt; makes(world, 0, 5));
    assert!(rt; is_closed(world));
    assert!(rt; printed(world, 0, 0) && printed(world, 1, 9));
}

#[test]
fn two_objects_go_along(rt: HostRuntime) -> Result<(), Fail> {
    let bytes = assembled(rt.alloc(), ALONG)?;
    let verified = verified_of(rt.alloc(), &bytes)?;
    let mut world = world_of(rt.alloc(), &verified, 2)?;
    goes_along(&rt, &mut world);
    Ok(())
}

/// What main sends comes to its own place.
fn goes_around(rt: &impl Abort, world: &mut World) {
    steps(rt, world, 0, 6);
    assert!(rt; !is_closed(world));
    assert!(rt; posted(world) == 1 && flies(world, 0, 0, &ALONE));
    arrives(rt, world, 0);
    steps(rt, world, 0, 1);
    assert!(rt; is_closed(world) && posted(world) == 1);
    assert!(rt; printed(world, 0, 0));
}

#[test]
fn around_to_itself(rt: HostRuntime) -> Result<(), Fail> {
    let bytes = assembled(rt.alloc(), AROUND)?;
    let verified = verified_of(rt.alloc(), &bytes)?;
    let mut world = world_of(rt.alloc(), &verified, 1)?;
    goes_around(&rt, &mut world);
    Ok(())
}
