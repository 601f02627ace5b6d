//! Runs an image at four places, each in a thread of its own, and counts at the gate which of them were at work.
#![tactic(auto)]

ghost use Rattle.std.specs.Prelude.{IfOk};
ghost use Rattle.x10_workers.specs.Plays.{IsPlayed};
ghost use Rattle.x10_world.specs.Endings.{lines_in};

use anyhow::{Context, bail};
use std::alloc::Global;
use std::sync::Wait;
use std::sync::atomic::{AtomicU64, Ordering};
use std::thread::Threads;
use std::{env, fs, io};
use x10_image::ImageView;
use x10_place::Line;
use x10_verify::{Verified, verify};
use x10_workers::{Gate, RunReport, WorkFault, run_threads};

/// A gate that counts the places which have begun to work.
#[derive(Drop)]
struct Counting {
    places: AtomicU64,
}

impl Gate for Counting {
    fn inside(&self, _place: u16, turn: u64) {
        if turn == 0 {
            self.places.fetch_add(1, Ordering::SeqCst);
        }
    }
}

/// Runs a module to its end. Its log is a run of the machine, with these lines, whatever the threads did.
fn run<R: Threads + Wait + Sync>(
    rt: &R,
    alloc: Global,
    verified: &Verified,
    gate: &Counting,
) -> anyhow::Result<RunReport>
    ensures { IfOk result (λ r. IsPlayed verified.now 4 r.log.items (lines_in r.outputs.items)) }
{
    match run_threads(rt, alloc, verified, 4, 1_000_000, gate) {
        Ok(report) => Ok(report),
        Err(WorkFault::Stop(place, stop, _)) => bail!("place {place} stops: {stop:?}"),
        Err(WorkFault::Turns(_)) => bail!("it goes on after 1,000,000 turns"),
        Err(_) => bail!("it can't be run"),
    }
}

/// Prints the lines of each place, with its number.
fn show(rt: &impl Print, outputs: &[Vec<Line>]) -> io::Result<()> {
    for (place, lines) in outputs.iter().enumerate() {
        for line in lines {
            match line {
                Line::Int(number) => println!(rt; "{place}: {number}")?,
                Line::Text(text) => println!(rt; "{place}: {text}")?,
            }
        }
    }
    Ok(())
}

fn main(rt: HostRuntime) -> anyhow::Result<()> {
    let alloc = rt.alloc();
    let name = env::args(&rt)?.nth(1).context("embed_threads IMAGE")?;
    let bytes = fs::read(&rt, name.as_str())?;
    let image = ImageView::read(alloc, &bytes)?;
    let verified = verify(alloc, image)?;
    let gate = Counting {
        places: AtomicU64::new(0),
    };
    let report = run(&rt, alloc, &verified, &gate)?;
    show(&rt, &report.outputs)?;
    println!(rt; "places at work: {}", gate.places.load(Ordering::SeqCst))?;
    Ok(())
}
