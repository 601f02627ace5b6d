//! Worlds by their calls, and what they answer.
use crate::sources::verified_of;
use std::alloc::Global;
use std::test::*;
use x10_image::ImageFault;
use x10_kinds::Stop;
use x10_model::Event;
use x10_place::Line;
use x10_samples::{SEVEN, with_byte};
use x10_verify::{Verified, VerifyCause, VerifyFault};
use x10_world::{OpenFault, RunFault, Unfinished, World, run_image, run_rounds};

/// INTK r0 7, PRINT r1, RET, with two registers.
fn prints_r1() -> [u8; 64] {
    let mut bytes = with_byte(29, 2);
    bytes[49] = 1;
    bytes
}

/// A run of `SEVEN` at one place: whether it has ended, how many events were made, and what was printed.
fn outcome(alloc: Global, events: &[Event]) -> Result<(bool, usize, Option<i64>), Fail> {
    let run = run_image(alloc, &SEVEN, 1, events)?;
    let printed = match run.outputs.first() {
        Some(lines) => match lines.as_slice() {
            [Line::Int(line)] => Some(*line),
            _ => None,
        },
        None => None,
    };
    if run.stop.is_some() {
        return Err("the run has stopped".into());
    }
    Ok((run.closed, run.done, printed))
}

#[test]
fn runs_of_events(rt: HostRuntime) -> Result<(), Fail> {
    let steps = [Event::Step(0, 0); 100];
    assert!(rt; outcome(rt.alloc(), &[])? == (false, 0, None));
    assert!(rt; outcome(rt.alloc(), &steps[..2])? == (false, 2, Some(7)));
    assert!(rt; outcome(rt.alloc(), &steps)? == (true, 100, Some(7)));
    Ok(())
}

/// Why an image doesn't run at `places` places, if it doesn't.
fn fault_of(alloc: Global, image: &[u8], places: u16) -> Option<RunFault> {
    run_image(alloc, image, places, &[]).err()
}

/// At how many places an image runs.
fn places_of(alloc: Global, image: &[u8], places: u16) -> Option<usize> {
    match run_image(alloc, image, places, &[]) {
        Ok(run) => Some(run.outputs.len()),
        Err(_) => None,
    }
}

#[test]
fn refusals(rt: HostRuntime) {
    let alloc = rt.alloc();
    let unset = VerifyFault {
        cause: VerifyCause::Unset,
        function: 0,
        pc: 1,
    };
    let short = fault_of(alloc, &SEVEN[..63], 1);
    assert!(rt; short == Some(RunFault::Image(ImageFault::Short)));
    assert!(rt; fault_of(alloc, &prints_r1(), 1) == Some(RunFault::Verify(unset)));
    let least_two = with_byte(7, 2);
    for places in [0, 1, 65] {
        let fault = fault_of(alloc, &least_two, places);
        assert!(rt; fault == Some(RunFault::Open(OpenFault::Places)));
    }
    assert!(rt; places_of(alloc, &least_two, 64) == Some(64));
}

/// A world of `places` places for a program.
pub(crate) fn world_of<'a>(
    alloc: Global,
    verified: &'a Verified<'a>,
    places: u16,
) -> Result<World<'a>, Fail> {
    Ok(World::open(alloc, verified, places)?)
}

/// Whether a run has ended.
pub(crate) fn is_closed(world: &World) -> bool {
    world.closed()
}

/// How many frames were put out.
pub(crate) fn posted(world: &World) -> u64 {
    world.posted()
}

/// Whether a frame is in flight.
pub(crate) fn is_flying(world: &World, number: u64) -> bool {
    world.frame(number).is_some()
}

/// The first frame from a number on that is on its way to a place.
pub(crate) fn next_frame(world: &World, place: u16, from: u64) -> Option<u64> {
    world.next_frame(place, from)
}

/// How many lines a place has, if it is there.
pub(crate) fn lines_of(world: &World, place: u16) -> Option<usize> {
    world.output(place).map(|lines| lines.len())
}

/// Whether an event happens.
pub(crate) fn happens(world: &mut World, event: Event) -> bool {
    world.run(&[event]).is_ok()
}

/// How many places a world has.
fn count(world: &World) -> u16 {
    world.count()
}

/// How many steps of an activity are made, of at most `steps`.
fn ran(world: &mut World, place: u16, key: usize, steps: u64) -> Option<u64> {
    world.run_activity(place, key, steps).ok()
}

/// The least key in use at a place, if there is one.
fn first_key(world: &World, place: u16) -> Option<usize> {
    world.next_key(place, 0)
}

/// Whether a world has ended, and place 0 has printed the number 7.
fn has_ended(world: &World) -> bool {
    is_closed(world) && has_printed(world)
}

/// Whether place 0 has printed the number 7.
fn has_printed(world: &World) -> bool {
    matches!(world.output(0), Some([Line::Int(7)]))
}

/// What a test does with a world of `SEVEN` at two places.
fn in_world<F: FnOnce(&mut World) -> Result<(), Fail>>(alloc: Global, test: F) -> Result<(), Fail>
    requires { F.IsAlwaysCallable test }
{
    let verified = verified_of(alloc, &SEVEN)?;
    let mut world = world_of(alloc, &verified, 2)?;
    test(&mut world)
}

#[test]
fn at_a_stretch(rt: HostRuntime) -> Result<(), Fail> {
    in_world(rt.alloc(), |world| {
        let key = first_key(world, 0).ok_or("main is there")?;
        for (place, key, steps, made) in [
            (1, key, 5, 0),
            (2, key, 5, 0),
            (0, 99, 5, 0),
            (0, key, 2, 2),
        ] {
            assert!(rt; ran(world, place, key, steps) == Some(made));
        }
        assert!(rt; !is_closed(world));
        for made in [1, 0] {
            assert!(rt; ran(world, 0, key, 5) == Some(made) && has_ended(world));
        }
        Ok(())
    })
}

/// Why a world makes no more events in rounds, of at most `limit`.
fn halt(alloc: Global, world: &mut World, limit: u64) -> Option<Unfinished> {
    run_rounds(alloc, world, limit).err()
}

#[test]
fn in_rounds(rt: HostRuntime) -> Result<(), Fail> {
    in_world(rt.alloc(), |world| {
        assert!(rt; count(world) == 2);
        for limit in [0, 2] {
            assert!(rt; halt(rt.alloc(), world, limit) == Some(Unfinished::Limit));
        }
        assert!(rt; !is_closed(world));
        assert!(rt; halt(rt.alloc(), world, 2).is_none() && has_ended(world));
        Ok(())
    })
}

/// Why a world doesn't make some events.
fn stop(world: &mut World, events: &[Event]) -> Option<Stop> {
    world.run(events).err()
}

/// Whether nothing was sent, and place 1 has printed nothing.
fn is_alone(world: &World) -> bool {
    posted(world) == 0 && !is_flying(world, 0) && lines_of(world, 1) == Some(0)
}

#[test]
fn a_world(rt: HostRuntime) -> Result<(), Fail> {
    in_world(rt.alloc(), |world| {
        let key = first_key(world, 0).ok_or("main is there")?;
        assert!(rt; first_key(world, 1).is_none() && first_key(world, 2).is_none());
        assert!(rt; lines_of(world, 2).is_none() && !is_closed(world));
        let events = [
            Event::Step(1, 0),
            Event::Deliver(0),
            Event::Step(2, 0),
            Event::Step(0, key),
        ];
        assert!(rt; stop(world, &events).is_none());
        assert!(rt; stop(world, &[Event::Step(0, key); 2]).is_none());
        assert!(rt; has_ended(world) && is_alone(world));
        assert!(rt; first_key(world, 0).is_none());
        Ok(())
    })
}
