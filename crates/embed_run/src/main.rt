//! Runs an image at two places, by a list of events: from its bytes to the lines that each place prints.
#![tactic(auto)]

ghost use Rattle.std.specs.Prelude.{IfOk, IsTrue};
ghost use Rattle.x10_verify.specs.Certified.{Certified};
ghost use Rattle.x10_world.specs.Endings.{IsImageOf, IsEndingOf, lines_in};

use anyhow::{Context, ensure};
use std::alloc::{AllocError, Global};
use std::{env, fs, io};
use x10_model::Event;
use x10_place::Line;
use x10_world::{Ending, run_image};

/// Events for a small program: each place makes steps of two activities, then a frame is delivered, and so on. An event that
/// finds nothing to do changes nothing.
fn events(alloc: Global) -> Result<Vec<Event>, AllocError> {
    let mut events = Vec::new(alloc);
    for number in 0..16 {
        for _ in 0..8 {
            for place in 0..2 {
                events.push(Event::Step(place, 0))?;
                events.push(Event::Step(place, 1))?;
            }
        }
        events.push(Event::Deliver(number))?;
    }
    Ok(events)
}

/// Runs an image at two places, to the end of its run.
fn run(alloc: Global, bytes: &[u8], events: &[Event]) -> anyhow::Result<Ending>
    ensures run { IfOk result (λ e. (c : Certified) × IsImageOf bytes.now c
        × IsEndingOf c 2 events.now (lines_in e.outputs.items) e) }
    ensures ended { IfOk result (λ e. IsTrue e.closed) }
{
    let ending = run_image(alloc, bytes, 2, events)?;
    ensure!(ending.closed, "the run hasn't ended");
    Ok(ending)
}

/// Prints the lines of each place, with its number.
fn show(rt: &impl Print, outputs: &[Vec<Line>]) -> io::Result<()> {
    for (place, lines) in outputs.iter().enumerate() {
        for line in lines {
            match line {
                Line::Int(number) => println!(rt; "{place}: {number}")?,
                Line::Text(text) => println!(rt; "{place}: {text}")?,
            }
        }
    }
    Ok(())
}

fn main(rt: HostRuntime) -> anyhow::Result<()> {
    let alloc = rt.alloc();
    let name = env::args(&rt)?.nth(1).context("embed_run IMAGE")?;
    let bytes = fs::read(&rt, name.as_str())?;
    let ending = run(alloc, &bytes, &events(alloc)?)?;
    show(&rt, &ending.outputs)?;
    Ok(())
}
