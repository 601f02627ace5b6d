//! What a world has in flight and has printed, for the caller's buffer.
ghost use Rattle.std.specs.Prelude.{◌≡◌, ◌≢◌};
ghost use Rattle.x10_world.specs.StandsForWorld.{WorldState};
ghost use Rattle.x10_handles.specs.declared.inside.Inside.TheVariants as behind;
ghost use Rattle.x10_handles.specs.Histories.{IsRun};
ghost use Rattle.x10_c.specs.Handles.{IsFlightTo, IsLineOfWorld};

use crate::answer::{SMALL, copy};
use crate::handles::{CLOSED, NOTHING};
use crate::showing::line_among;
use std::alloc::Global;
use x10_handles::Inside;
use x10_world::World;

/// Copies a frame in flight.
fn flight_to(world: &World, number: u64, to: &mut u16, buffer: &mut [u8], needed: &mut usize) -> u32
    ensures { IsFlightTo world.now.flights number result to.new needed.new buffer.old buffer.new }
{
    *needed = 0;
    *to = 0;
    let Some((place, bytes)) = world.frame(number) else {
        return NOTHING;
    };
    *to = place;
    if copy(bytes, buffer, needed) {
        return 0;
    }
    SMALL
}

/// The same of what is behind a handle.
pub fn flight_in(
    inside: &Inside,
    number: u64,
    to: &mut u16,
    buffer: &mut [u8],
    needed: &mut usize,
) -> u32
    ensures lacks { result ≡ 7 → (x : WorldState) → inside.now ≡ behind.World x → ⊥ }
    ensures shows { result ≢ 7 → (x : WorldState) × (inside.now ≡ behind.World x)
        × IsRun x
        × IsFlightTo x.flights number result to.new needed.new buffer.old buffer.new }
{
    match inside {
        Inside::World(run) => flight_to(run.world(), number, to, buffer, needed),
        Inside::Module(_) => CLOSED,
        Inside::Place(_) => CLOSED,
    }
}

/// Copies a line that a place of a world printed.
fn line_at(
    alloc: Global,
    world: &World,
    place: u16,
    number: usize,
    buffer: &mut [u8],
    needed: &mut usize,
) -> u32
    ensures shown { IsLineOfWorld world.now.places place number result needed.new buffer.old
        buffer.new }
    ensures is { result ≢ 7 }
{
    let Some(lines) = world.output(place) else {
        *needed = 0;
        return NOTHING;
    };
    line_among(alloc, lines, number, buffer, needed)
}

/// The same of what is behind a handle.
pub fn line_of_world_in(
    alloc: Global,
    inside: &Inside,
    place: u16,
    number: usize,
    buffer: &mut [u8],
    needed: &mut usize,
) -> u32
    ensures lacks { result ≡ 7 → (x : WorldState) → inside.now ≡ behind.World x → ⊥ }
    ensures shows { result ≢ 7 → (x : WorldState) × (inside.now ≡ behind.World x)
        × IsRun x
        × IsLineOfWorld x.places place number result needed.new buffer.old buffer.new }
{
    match inside {
        Inside::World(run) => line_at(alloc, run.world(), place, number, buffer, needed),
        Inside::Module(_) => CLOSED,
        Inside::Place(_) => CLOSED,
    }
}
