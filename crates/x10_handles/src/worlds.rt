//! A world behind a handle: all places of a run, and the frames between them. Each call answers none where no world is there.
ghost use Rattle.std.specs.Prelude.{◌≡◌, ◌⊎◌, [], None, Some, Err, IfOk, IfErr, MatchOption};
ghost use Rattle.x10_verify.specs.Certified.{Certified};
ghost use Rattle.x10_world.specs.Opening.{IsForbidden, IsOpenedWorld};
ghost use Rattle.x10_world.specs.StandsForWorld.{WorldState};
ghost use Rattle.x10_handles.specs.declared.inside.Inside.TheVariants as behind;
ghost use Rattle.x10_handles.specs.declared.unopened.Unopened.TheVariants as why;
ghost use Rattle.x10_handles.specs.Handles.{inside_of};
ghost use Rattle.x10_handles.specs.Histories.{IsRun, IsRunOf};
ghost use Rattle.x10_handles.specs.Worlds.{AltersWorld, IsEnded, IsFrameFrom, IsFromAt, IsMade, LacksWorld, LacksWorldIn, OpensWorld, ShowsWorld, WorksAsWorld};

use crate::handle::Handle;
use crate::inside::Inside;
use crate::made::{is_open, module_of};
use crate::opening::{put, take};
use crate::run::Run;
use crate::unopened::Unopened;
use std::alloc::Global;
use x10_kinds::Stop;
use x10_model::Event;
use x10_verify::Verified;
use x10_world::OpenFault;

/// A world of a module at the beginning.
fn opened(
    alloc: Global,
    verified: &'static Verified<'static>,
    places: u16,
) -> Result<Box<Inside>, Unopened>
    ensures opened { IfOk result (λ b. (x : WorldState) × (b.value ≡ behind.World x)
        × IsOpenedWorld verified.now places x × IsRunOf verified.now places [] x) }
    ensures places { result ≡ Err why.Places → IsForbidden verified.now places }
    ensures why { IfErr result (λ e. (e ≡ why.Places) ⊎ (e ≡ why.Memory)) }
{
    let run = match Run::open(alloc, verified, places) {
        Ok(run) => run,
        Err(OpenFault::Places) => return Err(Unopened::Places),
        Err(OpenFault::Memory) => return Err(Unopened::Memory),
    };
    let Ok(inside) = Box::new(alloc, Inside::World(run)) else {
        return Err(Unopened::Memory);
    };
    Ok(inside)
}

/// Opens a handle of a world of a module at the beginning: main is at place 0, and nothing at the others.
pub fn open_world(
    alloc: Global,
    of: &mut Handle,
    places: u16,
    handle: &mut Handle,
) -> Result<(), Unopened>
    ensures { OpensWorld (inside_of of.old) (inside_of of.new) (inside_of handle.old)
        (inside_of handle.new) places result }
{
    if is_open(handle) {
        return Err(Unopened::InUse);
    }
    let Some(verified) = module_of(alloc, of) else {
        return Err(Unopened::NoModule);
    };
    let inside = opened(alloc, verified, places)?;
    put(handle, inside);
    Ok(())
}

/// An event of what is behind a handle, and whether something moved.
fn happen_in(inside: &mut Inside, event: Event) -> Option<Result<bool, Stop>>
    ensures { MatchOption result (LacksWorldIn inside.old inside.new)
        (λ r. AltersWorld inside.old inside.new (λ x y. IsMade x event r y)) }
{
    match inside {
        Inside::World(run) => Some(run.happen(event)),
        Inside::Module(_) => None,
        Inside::Place(_) => None,
    }
}

/// An event: a step of an activity, or the delivery of a frame. Returns whether something moved: an event that names nothing able
/// to move changes nothing.
pub fn happen(alloc: Global, handle: &mut Handle, event: Event) -> Option<Result<bool, Stop>>
    ensures { MatchOption result (LacksWorld handle.old handle.new)
        (λ r. WorksAsWorld handle.old handle.new (λ x y. IsMade x event r y)) }
{
    let mut inside = take(alloc, handle)?;
    let made = happen_in(&mut inside, event);
    put(handle, inside);
    made
}

/// The least key in use at a place that is not below a number.
pub fn next_key_at(
    alloc: Global,
    handle: &mut Handle,
    place: u16,
    from: usize,
) -> Option<Option<usize>>
    ensures { MatchOption result (LacksWorld handle.old handle.new)
        (λ found. ShowsWorld handle.old handle.new (λ x. IsFromAt x place from found)) }
{
    let inside = take(alloc, handle)?;
    let found = match &*inside {
        Inside::World(run) => Some(run.world().next_key(place, from)),
        Inside::Module(_) => None,
        Inside::Place(_) => None,
    };
    put(handle, inside);
    found
}

/// The least number of a frame in flight to a place that is not below a number.
pub fn next_frame(alloc: Global, handle: &mut Handle, place: u16, from: u64) -> Option<Option<u64>>
    ensures { MatchOption result (LacksWorld handle.old handle.new)
        (λ found. ShowsWorld handle.old handle.new (λ x. IsFrameFrom x place from found)) }
{
    let inside = take(alloc, handle)?;
    let found = match &*inside {
        Inside::World(run) => Some(run.world().next_frame(place, from)),
        Inside::Module(_) => None,
        Inside::Place(_) => None,
    };
    put(handle, inside);
    found
}

/// Whether a run has ended.
fn ended_in(run: &Run) -> bool
    ensures ended { IsEnded run.now result }
    ensures run { IsRun run.now }
{
    run.world().closed()
}

/// Whether the run has ended, as place 0 knows it: then no activity lives.
pub fn has_ended(alloc: Global, handle: &mut Handle) -> Option<bool>
    ensures { MatchOption result (LacksWorld handle.old handle.new)
        (λ ended. ShowsWorld handle.old handle.new (λ x. IsEnded x ended)) }
{
    let inside = take(alloc, handle)?;
    let ended = match &*inside {
        Inside::World(run) => Some(ended_in(run)),
        Inside::Module(_) => None,
        Inside::Place(_) => None,
    };
    put(handle, inside);
    ended
}
