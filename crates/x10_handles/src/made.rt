//! Handles that are opened: of a module, and of a place.
ghost use Rattle.std.specs.Prelude.{◌≡◌, ◌↔◌, ◌<◌, ◌≤◌, ◌⊎◌, Some, None, Err, IsTrue, IsSome, IfOk, IfErr, MatchOption};
ghost use Rattle.x10_model.specs.Images.{spelling};
ghost use Rattle.x10_verify.specs.Certified.{Certified};
ghost use Rattle.x10_handles.specs.declared.inside.Inside.TheVariants as inside;
ghost use Rattle.x10_handles.specs.declared.unopened.Unopened.TheVariants as why;
ghost use Rattle.x10_handles.specs.Handles.{inside_of};
ghost use Rattle.x10_handles.specs.Opened.{IsForbidden, IsNewPlace, OpensPlace};

use crate::handle::{Handle, MARK};
use crate::inside::Inside;
use crate::loose::Loose;
use crate::module::Module;
use crate::opening::{put, take};
use crate::station::Station;
use crate::unopened::Unopened;
use std::alloc::{AllocError, Global};
use std_alloc::room::Vacant;
use x10_model::limits::MOST_PLACES;
use x10_verify::Verified;

/// Whether a handle is open.
pub fn is_open(handle: &Handle) -> bool
    ensures { IsTrue result ↔ IsSome (inside_of handle.now) }
{
    handle.mark == MARK
}

/// The module behind a handle, which stays there; none where none is.
pub(crate) fn module_of(alloc: Global, handle: &mut Handle) -> Option<&'static Verified<'static>>
    ensures module { MatchOption result
        ((v : Certified) → inside_of handle.old ≡ Some (inside.Module v) → ⊥)
        (λ v. inside_of handle.old ≡ Some (inside.Module v.now)) }
    ensures kept { inside_of handle.new ≡ inside_of handle.old }
{
    let inside = take(alloc, handle)?;
    let verified = match &*inside {
        Inside::Module(module) => Some(module.verified()),
        Inside::Place(_) => None,
        Inside::World(_) => None,
    };
    put(handle, inside);
    verified
}

/// A copy of bytes.
fn copied(alloc: Global, bytes: &[u8]) -> Result<Vec<u8>, AllocError>
    ensures { IfOk result (λ copy. copy.items ≡ bytes.now) }
{
    let mut copy = Vec::with_capacity(alloc, bytes.len())?;
    copy.extend_from_slice(bytes)?;
    Ok(copy)
}

/// Keeps a module to the end of the program, over a copy of its image. All memory was allocated before, so nothing is refused.
fn kept(
    room: Vacant<Verified<'static>, Global>,
    copy: Vec<u8>,
    verified: Verified,
) -> &'static Verified<'static>
    requires copy { copy.items ≡ spelling verified.program }
    ensures { result.now ≡ verified.entry }
{
    let bytes = copy.leak();
    Box::leak(Loose::write(room, verified.over(bytes)).into_box())
}

/// Opens a handle of a module that was verified. The module and a copy of its image stay to the end of the program. All memory is
/// allocated before any is kept, so where it is refused nothing stays.
pub fn open_module(
    alloc: Global,
    verified: Verified,
    image: &[u8],
    handle: &mut Handle,
) -> Result<(), Unopened>
    requires image { image.now ≡ spelling verified.program }
    ensures opened { IfOk result (λ _. inside_of handle.new ≡ Some (inside.Module verified.entry)) }
    ensures shut { IfOk result (λ _. inside_of handle.old ≡ None) }
    ensures used { result ≡ Err why.InUse → IsSome (inside_of handle.old) }
    ensures why { IfErr result (λ e. (e ≡ why.InUse) ⊎ (e ≡ why.Memory)) }
    ensures kept { IfErr result (λ _. inside_of handle.new ≡ inside_of handle.old) }
{
    if is_open(handle) {
        return Err(Unopened::InUse);
    }
    let Ok(copy) = copied(alloc, image) else {
        return Err(Unopened::Memory);
    };
    let Ok(room) = Vacant::take(alloc) else {
        return Err(Unopened::Memory);
    };
    let Ok(slot) = Vacant::take(alloc) else {
        drop(room.free());
        return Err(Unopened::Memory);
    };
    let module = Module::new(kept(room, copy, verified));
    let opened = Loose::write(slot, Inside::Module(module)).into_box();
    put(handle, opened);
    Ok(())
}

/// A place of a module at the beginning, where it is one of a number of places that the module runs at.
fn placed(
    alloc: Global,
    verified: &'static Verified<'static>,
    id: u16,
    places: u16,
) -> Result<Box<Inside>, Unopened>
    ensures opened { IfOk result (λ b. IsNewPlace verified.now id places (Some b.value)) }
    ensures places { result ≡ Err why.Places → IsForbidden verified.now id places }
    ensures why { IfErr result (λ e. (e ≡ why.Places) ⊎ (e ≡ why.Memory)) }
{
    verified.certificate();
    if places < verified.image().least() || places > MOST_PLACES || places <= id {
        return Err(Unopened::Places);
    }
    let Ok(station) = Station::new(alloc, verified, id, places) else {
        return Err(Unopened::Memory);
    };
    let Ok(inside) = Box::new(alloc, Inside::Place(station)) else {
        return Err(Unopened::Memory);
    };
    Ok(inside)
}

/// Opens a handle of a place of a module at the beginning: main at place 0, no activity elsewhere.
pub fn open_place(
    alloc: Global,
    of: &mut Handle,
    id: u16,
    places: u16,
    handle: &mut Handle,
) -> Result<(), Unopened>
    ensures { OpensPlace (inside_of of.old) (inside_of of.new) (inside_of handle.old)
        (inside_of handle.new) id places result }
{
    if is_open(handle) {
        return Err(Unopened::InUse);
    }
    let Some(verified) = module_of(alloc, of) else {
        return Err(Unopened::NoModule);
    };
    let inside = placed(alloc, verified, id, places)?;
    put(handle, inside);
    Ok(())
}

/// Closes a handle. A place or a world behind it goes, with all that it holds; a module stays in memory.
pub fn close(alloc: Global, handle: &mut Handle)
    ensures { inside_of handle.new ≡ None }
{
    let _ = take(alloc, handle);
}
