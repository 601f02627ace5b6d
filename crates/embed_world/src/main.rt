//! Drives a world of two places event by event, and shows each event.
#![tactic(auto)]

ghost use Rattle.std.specs.Prelude.{IfOk, MatchOption};
ghost use Rattle.x10_world.specs.Happenings.{CanHappen, NothingCanHappen};

use anyhow::{Context, bail};
use std::{env, fs, io};
use x10_code::name;
use x10_image::ImageView;
use x10_model::Event;
use x10_verify::verify;
use x10_world::{Done, World};

/// The event that comes next: the delivery of a frame that is in flight or, where none is, a step.
fn pick(world: &World) -> Option<Event>
    ensures { MatchOption result (NothingCanHappen world.now) (CanHappen world.now) }
{
    for place in 0..world.count() {
        if let Some(number) = world.next_frame(place, 0) {
            let event = Event::Deliver(number);
            if world.can_happen(event) {
                return Some(event);
            }
        }
    }
    world.possible_event()
}

/// Shows an event, and what it did.
fn show(rt: &impl Print, event: Event, done: Done) -> io::Result<()> {
    match (event, done) {
        (Event::Step(place, key), Done::Moved { op, count: 0, .. }) => {
            println!(rt; "place {place}, activity {key}: {}", name(op))
        }
        (Event::Step(place, key), Done::Moved { op, count, .. }) => {
            println!(rt;
                "place {place}, activity {key}: {}, frames put out: {count}",
                name(op)
            )
        }
        (Event::Deliver(number), Done::Taken { to }) => {
            println!(rt; "frame {number} comes to place {to}")
        }
        _ => println!(rt; "nothing"),
    }
}

/// Makes events, and shows each, until nothing can happen any more.
fn drive(rt: &impl Print, world: &mut World) -> anyhow::Result<()>
    ensures { IfOk result (λ _. NothingCanHappen world.new) }
{
    for _ in 0..1_000 {
        let Some(event) = pick(world) else {
            return Ok(());
        };
        match world.event(event) {
            Ok(done) => show(rt, event, done)?,
            Err(stop) => bail!("{stop:?}"),
        }
    }
    bail!("it goes on after 1,000 events")
}

fn main(rt: HostRuntime) -> anyhow::Result<()> {
    let alloc = rt.alloc();
    let name = env::args(&rt)?.nth(1).context("embed_world IMAGE")?;
    let bytes = fs::read(&rt, name.as_str())?;
    let image = ImageView::read(alloc, &bytes)?;
    let verified = verify(alloc, image)?;
    let mut world = World::open(alloc, &verified, 2)?;
    drive(&rt, &mut world)?;
    println!(rt; "ended: {}", world.closed())?;
    Ok(())
}
