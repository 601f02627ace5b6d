//! Worlds of five places whose frames come in several orders, and one under many random events.
use super::calls::world_of;
use crate::sources::verified_of;
use std::alloc::Global;
use std::process::Abort;
use std::test::*;
use x10_asm::assemble;
use x10_model::Event;
use x10_place::Line;
use x10_samples::random;
use x10_world::{World, run_rounds};

/// Main starts 64 trees at the next place, in a finish: each activity prints how many levels are below it, and starts two
/// more at the place after its own, three levels deep. Main prints 9 when all have ended.
const TREES: &str = "places 5
int 3
int 1
int 9
func 3 0 none int
PRINT 0
JZ 0 @leaf
INTK 1 1
SUB 0 0 1
HERE 1
NEXTP 1 1
ATA 0 1 0
ATA 0 1 0
leaf:
RET 0
end
func 2 1 none
INTK 0 0
HERE 1
NEXTP 1 1
FINB
LOOP 0 64
again:
ATA 0 1 0
ENDL 0 @again
FINE
INTK 0 2
PRINT 0
RET 0
end
entry 1
";

/// How many activities print at each place.
const PRINTED: [usize; 5] = [1, 64, 128, 256, 512];

/// And at all of them.
const ALL: usize = 961;

/// Which of the frames in flight comes next.
#[derive(Clone, Copy, PartialEq, Eq)]
enum Order {
    Oldest,
    Newest,
    Shuffled,
}

/// Appends the numbers of the frames on their way to a place.
fn add_flying(world: &World, place: u16, numbers: &mut Vec<u64>) -> Result<(), Fail> {
    let mut from = 0u64;
    for _ in 0..world.posted() {
        let Some(number) = world.next_frame(place, from) else {
            break;
        };
        numbers.push(number)?;
        from = number.saturating_add(1);
    }
    Ok(())
}

/// The numbers of the frames in flight.
fn in_flight(alloc: Global, world: &World) -> Result<Vec<u64>, Fail> {
    let mut numbers = Vec::new(alloc);
    for place in 0..5u16 {
        add_flying(world, place, &mut numbers)?;
    }
    Ok(numbers)
}

/// The frame that comes next, if one is in flight.
fn next(flying: &[u64], order: Order, seed: &mut u64) -> Option<u64> {
    match order {
        Order::Oldest => flying.iter().min().copied(),
        Order::Newest => flying.iter().max().copied(),
        Order::Shuffled => flying
            .get(below(seed, flying.len() as u64) as usize)
            .copied(),
    }
}

/// Whether an activity goes as far as it can, and is not stopped.
fn goes_on(world: &mut World, place: u16, key: usize) -> bool {
    world.run_activity(place, key, 100).is_ok()
}

/// Whether an event happens.
fn happens(world: &mut World, event: Event) -> bool {
    world.run(&[event]).is_ok()
}

/// The least key in use at a place that is not below a number.
fn next_key(world: &World, place: u16, from: usize) -> Option<usize> {
    world.next_key(place, from)
}

/// Each activity goes as far as it can, at each place.
fn all_go_on(rt: &impl Abort, world: &mut World) {
    for place in 0..5u16 {
        let mut from = 0usize;
        for _ in 0..1_000u32 {
            let Some(key) = next_key(world, place, from) else {
                break;
            };
            assert!(rt; goes_on(world, place, key));
            from = key.saturating_add(1);
        }
    }
}

/// How many lines a place has.
fn lines(world: &World, place: u16) -> usize {
    world.output(place).map_or(0, |lines| lines.len())
}

/// How many lines there are, in all.
fn all_lines(world: &World) -> usize {
    let mut count = 0usize;
    for place in 0..5u16 {
        count = count.saturating_add(lines(world, place));
    }
    count
}

/// The run has ended: each place has its lines, and main's came last.
fn has_ended(rt: &impl Abort, world: &World) {
    assert!(rt; is_closed(world));
    assert!(rt; matches!(world.output(0), Some([Line::Int(9)])));
    for (place, count) in PRINTED.iter().enumerate() {
        assert!(rt; lines(world, place as u16) == *count);
    }
}

/// Runs the trees, with the frames in an order. Main waits until all others have printed.
fn in_order(alloc: Global, rt: &impl Abort, order: Order) -> Result<(), Fail> {
    let bytes = assemble(alloc, TREES)?;
    let verified = verified_of(alloc, &bytes)?;
    let mut world = world_of(alloc, &verified, 5)?;
    let mut seed = 1;
    for _ in 0..4_000u32 {
        all_go_on(rt, &mut world);
        let flying = in_flight(alloc, &world)?;
        let Some(next) = next(&flying, order, &mut seed) else {
            break;
        };
        assert!(rt; lines(&world, 0) == 0 || all_lines(&world) == ALL);
        assert!(rt; happens(&mut world, Event::Deliver(next)));
    }
    has_ended(rt, &world);
    Ok(())
}

#[test]
fn oldest_first(rt: HostRuntime) -> Result<(), Fail> {
    in_order(rt.alloc(), &rt, Order::Oldest)
}

#[test]
fn newest_first(rt: HostRuntime) -> Result<(), Fail> {
    in_order(rt.alloc(), &rt, Order::Newest)
}

#[test]
fn shuffled(rt: HostRuntime) -> Result<(), Fail> {
    in_order(rt.alloc(), &rt, Order::Shuffled)
}

/// Whether a frame in flight is one that begins an activity.
fn begins(world: &World, number: u64) -> bool {
    match world.frame(number) {
        Some((_, bytes)) => bytes.get(1).copied() == Some(1),
        None => false,
    }
}

/// Whether an activity is anywhere, or one is in flight.
fn is_busy(world: &World) -> bool {
    for place in 0..5u16 {
        if next_key(world, place, 0).is_some() {
            return true;
        }
    }
    for number in 0..world.posted() {
        if begins(world, number) {
            return true;
        }
    }
    false
}

/// Whether the run has ended.
fn is_closed(world: &World) -> bool {
    world.closed()
}

/// A number below another by chance.
fn below(seed: &mut u64, most: u64) -> u64 {
    if most == 0 {
        return 0;
    }
    random(seed) as u64 % most
}

/// A frame by chance, mostly one on its way to some place.
fn some_delivery(world: &World, seed: &mut u64) -> Event {
    let place = (random(seed) % 5) as u16;
    let from = below(seed, world.posted());
    Event::Deliver(world.next_frame(place, from).unwrap_or(from))
}

/// A step by chance, mostly of an activity at some place.
fn some_step(world: &World, seed: &mut u64) -> Event {
    let place = (random(seed) % 6) as u16;
    let most = random(seed) % 64;
    let from = random(seed) % (most + 1);
    Event::Step(place, next_key(world, place, from).unwrap_or(from))
}

/// An event by chance, and what holds after it: main prints last, and a run that has ended leaves nothing to do.
fn one_event(rt: &impl Abort, world: &mut World, seed: &mut u64) {
    let event = if random(seed) % 4 == 0 {
        some_delivery(world, seed)
    } else {
        some_step(world, seed)
    };
    assert!(rt; happens(world, event));
    assert!(rt; !is_closed(world) || !is_busy(world));
    assert!(rt; lines(world, 0) == 0 || all_lines(world) == ALL);
}

/// Whether the run ends where everything goes on in its turn.
fn ends(alloc: Global, world: &mut World) -> bool {
    run_rounds(alloc, world, 10_000).is_ok()
}

#[test]
fn twenty_thousand_events(rt: HostRuntime) -> Result<(), Fail> {
    let bytes = assemble(rt.alloc(), TREES)?;
    let verified = verified_of(rt.alloc(), &bytes)?;
    let mut world = world_of(rt.alloc(), &verified, 5)?;
    let mut seed = 1;
    for _ in 0..20_000u32 {
        one_event(&rt, &mut world, &mut seed);
    }
    let lines = all_lines(&world);
    assert!(rt; lines > 300 && lines < ALL, "{lines} lines");
    assert!(rt; ends(rt.alloc(), &mut world));
    has_ended(&rt, &world);
    Ok(())
}
