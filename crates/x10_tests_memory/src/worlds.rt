//! Worlds where memory is refused: nothing changes any more, and what was printed is a beginning.
use crate::begin::{assembled, have_first, with_program};
use crate::programs::{COPIED, PRINTED, SENT_OUT, THERE_AND_BACK};
use std::alloc::Global;
use std::process::Abort;
use std::test::*;
use x10_image::ImageFault;
use x10_kinds::Stop;
use x10_model::Event;
use x10_samples::{ALONG, LOOPS};
use x10_trace::trace_line;
use x10_verify::{Verified, VerifyCause};
use x10_world::{Ending, OpenFault, RunFault, World, run_image};

/// A program, at how many places it runs, and which numbers they print.
#[derive(Clone, Copy)]
struct Row {
    text: &'static str,
    places: u16,
    prints: &'static [&'static [i64]],
}

const SEVEN: Row = Row {
    text: PRINTED,
    places: 1,
    prints: &[&[7]],
};

const DOUBLED: Row = Row {
    text: LOOPS,
    places: 1,
    prints: &[&[4096]],
};

const SENT: Row = Row {
    text: ALONG,
    places: 2,
    prints: &[&[0], &[9]],
};

const CHANGED: Row = Row {
    text: COPIED,
    places: 1,
    prints: &[&[7, 0]],
};

/// The events of a round.
const ROUND: [Event; 6] = [
    Event::Deliver(0),
    Event::Deliver(1),
    Event::Deliver(2),
    Event::Step(0, 0),
    Event::Step(0, 1),
    Event::Step(1, 0),
];

/// The events of forty rounds, more than any of the runs has; many find nothing to do.
fn rounds(alloc: Global) -> Option<Vec<Event>> {
    let mut events = Vec::with_capacity(alloc, 240).ok()?;
    for _ in 0..40 {
        for event in ROUND {
            events.push(event).ok()?;
        }
    }
    Some(events)
}

/// A run came to its end, or was stopped for lack of memory, and its lines are right. Nothing where it was stopped.
fn is_whole(rt: &impl Abort, ending: &Ending, row: &Row) -> Option<()> {
    let all = ending.stop.is_none();
    assert!(rt; have_first(&ending.outputs, row.prints, all));
    assert!(rt; ending.closed == all || !all);
    assert!(rt; all || ending.stop == Some(Stop::Memory));
    all.then_some(())
}

/// Whether it was memory that lacked, wherever it was.
fn is_memory(fault: RunFault) -> bool {
    match fault {
        RunFault::Image(fault) => fault == ImageFault::Memory,
        RunFault::Verify(fault) => fault.cause == VerifyCause::Memory,
        RunFault::Open(fault) => fault == OpenFault::Memory,
        RunFault::Memory => true,
    }
}

/// The whole run of an image. Nothing where memory was refused.
fn ends(alloc: Global, rt: &impl Abort, row: &Row) -> Option<()> {
    let bytes = assembled(alloc, rt, row.text)?;
    let events = rounds(alloc)?;
    match run_image(alloc, &bytes, row.places, &events) {
        Ok(ending) => is_whole(rt, &ending, row),
        Err(fault) => {
            assert!(rt; is_memory(fault));
            None
        }
    }
}

/// A new world of a program. Nothing where memory was refused.
fn opened<'a>(
    alloc: Global,
    rt: &impl Abort,
    verified: &'a Verified<'a>,
    places: u16,
) -> Option<World<'a>> {
    match World::open(alloc, verified, places) {
        Ok(world) => Some(world),
        Err(fault) => {
            assert!(rt; fault == OpenFault::Memory);
            None
        }
    }
}

/// What a test does in a new world of a text's program. Nothing where memory was refused.
fn in_world<F: FnOnce(&mut World) -> Option<()>>(
    alloc: Global,
    rt: &impl Abort,
    verified: &Verified,
    places: u16,
    test: F,
) -> Option<()>
    requires { F.IsAlwaysCallable test }
{
    let mut world = opened(alloc, rt, verified, places)?;
    test(&mut world)
}

/// What can be seen of a world: how many frames were put out, the first on its way home, and how many lines two places have.
fn seen(world: &World) -> (u64, Option<u64>, usize) {
    let one = world.output(0).map_or(0, |lines| lines.len());
    let other = world.output(1).map_or(0, |lines| lines.len());
    (
        world.posted(),
        world.next_frame(0, 0),
        one.saturating_add(other),
    )
}

/// Whether a world takes no event any more.
fn is_over(world: &mut World) -> bool {
    world.run(&[]) == Err(Stop::Stopped)
        && world.run_activity(0, 0, 1) == Err(Stop::Stopped)
        && world.event(ROUND[3]).err() == Some(Stop::Stopped)
}

/// Events happen. Nothing where memory is refused, and then no later one happens; where there was only one, all is as before.
fn happen(rt: &impl Abort, world: &mut World, events: &[Event]) -> Option<()> {
    let before = seen(world);
    let why = world.run(events).err();
    if why.is_some() {
        assert!(rt; why == Some(Stop::Memory) && is_over(world));
        assert!(rt; events.len() > 1 || seen(world) == before);
        return None;
    }
    Some(())
}

/// The lines of a world are the first ones of a program's, or all of them. Nothing where memory was refused.
fn prints(alloc: Global, rt: &impl Abort, world: &World, row: &Row, all: bool) -> Option<()> {
    let outputs = world.outputs(alloc).ok()?;
    assert!(rt; have_first(&outputs, row.prints, all));
    Some(())
}

/// The events of a run happen in a world. After a stop what was printed is a beginning.
fn goes(alloc: Global, rt: &impl Abort, world: &mut World, row: &Row) -> Option<()> {
    let events = rounds(alloc)?;
    let ended = happen(rt, world, &events);
    prints(alloc, rt, world, row, ended.is_some())?;
    assert!(rt; world.closed() || ended.is_none());
    ended
}

/// The run of a program by calls of a world.
fn runs(alloc: Global, rt: &impl Abort, row: &Row) -> Option<()> {
    with_program(alloc, rt, row.text, |verified| {
        in_world(alloc, rt, verified, row.places, |world| {
            goes(alloc, rt, world, row)
        })
    })
}

/// A program, its events and how often each comes, and how many frames were put out and lines printed in the end.
struct Way {
    text: &'static str,
    events: &'static [(Event, u32)],
    frames: u64,
    lines: usize,
}

const BACK: Way = Way {
    text: THERE_AND_BACK,
    events: &[
        (Event::Step(0, 0), 9),
        (Event::Deliver(0), 1),
        (Event::Step(1, 0), 3),
        (Event::Deliver(1), 1),
        (Event::Deliver(2), 1),
        (Event::Step(0, 0), 4),
    ],
    frames: 3,
    lines: 2,
};

const OUT: Way = Way {
    text: SENT_OUT,
    events: &[
        (Event::Step(0, 0), 9),
        (Event::Deliver(0), 1),
        (Event::Step(1, 0), 3),
        (Event::Deliver(1), 1),
        (Event::Step(0, 0), 2),
    ],
    frames: 2,
    lines: 1,
};

/// The events of a way happen one by one, and the run has ended.
fn all_happen(rt: &impl Abort, world: &mut World, way: &Way) -> Option<()> {
    for (event, times) in way.events {
        for _ in 0..*times {
            happen(rt, world, &[*event])?;
        }
    }
    assert!(rt; world.closed() && seen(world) == (way.frames, None, way.lines));
    Some(())
}

/// The same from a text on.
fn goes_its_way(alloc: Global, rt: &impl Abort, way: &Way) -> Option<()> {
    with_program(alloc, rt, way.text, |verified| {
        in_world(alloc, rt, verified, 2, |world| all_happen(rt, world, way))
    })
}

/// The lines of the first event: main makes an object. Nothing where memory was refused.
fn traces(alloc: Global, rt: &impl Abort, world: &mut World) -> Option<()> {
    let event = Event::Step(0, 0);
    let done = world.event(event).ok()?;
    let line = trace_line(alloc, world, event, &done).ok()?;
    assert!(rt; line.as_str() == "S 0 0 1 0 NEW\n");
    Some(())
}

/// The same from a text on.
fn is_traced(alloc: Global, rt: &impl Abort) -> Option<()> {
    with_program(alloc, rt, ALONG, |verified| {
        in_world(alloc, rt, verified, 2, |world| traces(alloc, rt, world))
    })
}

#[test]
fn with_memory(rt: HostRuntime) {
    for row in [SEVEN, DOUBLED, SENT, CHANGED] {
        assert!(rt; ends(rt.alloc(), &rt, &row).is_some());
        assert!(rt; runs(rt.alloc(), &rt, &row).is_some());
    }
    assert!(rt; goes_its_way(rt.alloc(), &rt, &BACK).is_some());
    assert!(rt; goes_its_way(rt.alloc(), &rt, &OUT).is_some());
    assert!(rt; is_traced(rt.alloc(), &rt).is_some());
}

#[test]
fn memory_refused(rt: HostRuntime) {
    runs(rt.alloc(), &rt, &SEVEN);
}

#[test]
fn memory_refused_in_loops(rt: HostRuntime) {
    ends(rt.alloc(), &rt, &DOUBLED);
}

#[test]
fn memory_refused_between_places(rt: HostRuntime) {
    ends(rt.alloc(), &rt, &SENT);
}

#[test]
fn memory_refused_in_a_copy(rt: HostRuntime) {
    ends(rt.alloc(), &rt, &CHANGED);
}

#[test]
fn memory_refused_by_a_world(rt: HostRuntime) {
    runs(rt.alloc(), &rt, &SENT);
}

#[test]
fn memory_refused_in_a_world(rt: HostRuntime) {
    goes_its_way(rt.alloc(), &rt, &BACK);
}

#[test]
fn memory_refused_under_an_ata(rt: HostRuntime) {
    goes_its_way(rt.alloc(), &rt, &OUT);
}

#[test]
fn memory_refused_by_a_trace(rt: HostRuntime) {
    is_traced(rt.alloc(), &rt);
}
