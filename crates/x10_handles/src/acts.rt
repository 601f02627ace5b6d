//! What is done with the place behind a handle. Each call answers none where no place is behind it.
ghost use Rattle.std.specs.Prelude.{◌≡◌, ◌↔◌, ℕ, IsTrue, MatchOption, None};
ghost use Rattle.x10_place.specs.Opening.{IsNextKey};
ghost use Rattle.x10_place.specs.Stays.{IsDoneHere};
ghost use Rattle.x10_place.specs.StandsFor.{store_of};
ghost use Rattle.slab.specs.Slab.{get};
ghost use Rattle.x10_handles.specs.Handles.{Alters, LacksIn, LacksPlace, Works, Shows};
ghost use Rattle.x10_handles.specs.Stations.{IsReceived, IsStepped, IsFrom, IsClosed};

use crate::handle::Handle;
use crate::inside::Inside;
use crate::opening::{put, take};
use std::alloc::Global;
use x10_copy::Refusal;
use x10_kinds::Stop;

/// A step of what is behind a handle.
fn step_in(inside: &mut Inside, key: usize) -> Option<Result<bool, Stop>>
    ensures { MatchOption result (LacksIn inside.old inside.new)
        (λ r. Alters inside.old inside.new (λ s t. IsStepped s key r t)) }
{
    match inside {
        Inside::Place(station) => Some(station.step(key)),
        Inside::Module(_) => None,
        Inside::World(_) => None,
    }
}

/// One step of the activity with a key; whether it moved.
pub fn step(alloc: Global, handle: &mut Handle, key: usize) -> Option<Result<bool, Stop>>
    ensures { MatchOption result (LacksPlace handle.old handle.new)
        (λ r. Works handle.old handle.new (λ s t. IsStepped s key r t)) }
{
    let mut inside = take(alloc, handle)?;
    let stepped = step_in(&mut inside, key);
    put(handle, inside);
    stepped
}

/// Takes bytes into what is behind a handle.
fn receive_in(inside: &mut Inside, bytes: &[u8]) -> Option<Result<(), Refusal>>
    ensures { MatchOption result (LacksIn inside.old inside.new)
        (λ r. Alters inside.old inside.new (λ s t. IsReceived s bytes.now r t)) }
{
    match inside {
        Inside::Place(station) => Some(station.receive(bytes)),
        Inside::Module(_) => None,
        Inside::World(_) => None,
    }
}

/// Takes in bytes that come from a place.
pub fn receive(alloc: Global, handle: &mut Handle, bytes: &[u8]) -> Option<Result<(), Refusal>>
    ensures { MatchOption result (LacksPlace handle.old handle.new)
        (λ r. Works handle.old handle.new (λ s t. IsReceived s bytes.now r t)) }
{
    let mut inside = take(alloc, handle)?;
    let received = receive_in(&mut inside, bytes);
    put(handle, inside);
    received
}

/// The least key in use that is not below a number.
pub fn next_key(alloc: Global, handle: &mut Handle, from: usize) -> Option<Option<usize>>
    ensures { MatchOption result (LacksPlace handle.old handle.new)
        (λ found. Shows handle.old handle.new (λ s. IsFrom s from found)) }
{
    let inside = take(alloc, handle)?;
    let found = match &*inside {
        Inside::Place(station) => Some(station.place.next_key(from)),
        Inside::Module(_) => None,
        Inside::World(_) => None,
    };
    put(handle, inside);
    found
}

/// Whether the run has ended, as place 0 knows it; false at other places.
pub fn closed(alloc: Global, handle: &mut Handle) -> Option<bool>
    ensures { MatchOption result (LacksPlace handle.old handle.new)
        (λ closed. Shows handle.old handle.new (λ s. IsTrue closed ↔ IsClosed s)) }
{
    let inside = take(alloc, handle)?;
    let closed = match &*inside {
        Inside::Place(station) => Some(station.place.closed()),
        Inside::Module(_) => None,
        Inside::World(_) => None,
    };
    put(handle, inside);
    closed
}
