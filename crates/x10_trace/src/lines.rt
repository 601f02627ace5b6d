//! The lines of an event.
ghost use Rattle.std.specs.Prelude.{◌≡◌, ◌++◌, OnOk, IfOk};
ghost use Rattle.std.specs.String.{string_bytes};
ghost use Rattle.x10_model.specs.declared.event.Event.TheVariants.{Step};
ghost use Rattle.x10_flights.specs.Flights.{flight_of};
ghost use Rattle.x10_trace.specs.Trace.{flight_line, post_lines, in_range, delivered_line, trace_lines};

use std::alloc::{AllocError, Global};
use std::fmt::Write;
use x10_code::{Op, name};
use x10_model::Event;
use x10_world::{Done, World};

/// The lines for an event, in the world right after it: `S place key function pc NAME` for a step, and after that `P number
/// from to hex` for each frame that it put out and that is in flight, with its bytes in hexadecimal; `D number to` for a
/// delivery; `- place key` for a step that found nothing to do, and `- number` for a delivery of no frame. Each ends with a
/// line feed. Linear in the bytes of the frames.
pub fn trace_line(
    alloc: Global,
    world: &World,
    event: Event,
    done: &Done,
) -> Result<String, AllocError>
    ensures { IfOk result (λ text. string_bytes text ≡ trace_lines world.now event done.now) }
{
    let mut text = String::new(alloc);
    match event {
        Event::Step(place, key) => push_step(alloc, &mut text, world, place, key, done)?,
        Event::Deliver(number) => push_delivery(&mut text, number, done)?,
    }
    Ok(text)
}

/// The lines of a step.
fn push_step(
    alloc: Global,
    text: &mut String,
    world: &World,
    place: u16,
    key: usize,
    done: &Done,
) -> Result<(), AllocError>
    ensures { OnOk result (string_bytes text.new
        ≡ string_bytes text.old ++ trace_lines world.now (Step place key) done.now) }
{
    let Done::Moved {
        function,
        pc,
        op,
        first,
        count,
    } = *done
    else {
        return writeln!(text, "- {place} {key}");
    };
    let name = name(op);
    writeln!(text, "S {place} {key} {function} {pc} {name}")?;
    push_posts(alloc, text, world, place, first, count)
}

/// The lines of those frames in flight that are among the `count` numbered from `first` on.
fn push_posts(
    alloc: Global,
    text: &mut String,
    world: &World,
    from: u16,
    first: u64,
    count: u64,
) -> Result<(), AllocError>
    ensures { OnOk result (string_bytes text.new
        ≡ string_bytes text.old ++ post_lines world.now.flights from first (in_range first count)) }
{
    for number in first..first.saturating_add(count) {
        push_post(alloc, text, world, from, number)?;
    }
    Ok(())
}

/// The line of a frame, if it is in flight.
fn push_post(
    alloc: Global,
    text: &mut String,
    world: &World,
    from: u16,
    number: u64,
) -> Result<(), AllocError>
    ensures { OnOk result (string_bytes text.new
        ≡ string_bytes text.old ++ flight_line from (flight_of world.now.flights number)) }
{
    let Some((to, bytes)) = world.frame(number) else {
        return Ok(());
    };
    let dump = hex::encode(alloc, bytes)?;
    writeln!(text, "P {number} {from} {to} {dump}")
}

/// The line of a delivery.
fn push_delivery(text: &mut String, number: u64, done: &Done) -> Result<(), AllocError>
    ensures { OnOk result (string_bytes text.new
        ≡ string_bytes text.old ++ delivered_line number done.now) }
{
    match *done {
        Done::Taken { to } => writeln!(text, "D {number} {to}"),
        Done::Idle | Done::Moved { .. } => writeln!(text, "- {number}"),
    }
}
