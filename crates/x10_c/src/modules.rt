//! The calls of the header about a module behind a handle.
ghost use Rattle.std.specs.Prelude.{◌≡◌, ◌≢◌, None, Some, IfOk, IfErr, IsSome};
ghost use Rattle.x10_verify.specs.Certified.{Certified};
ghost use Rattle.x10_world.specs.Endings.{IsImageOf};
ghost use Rattle.x10_handles.specs.declared.inside.Inside.TheVariants as behind;
ghost use Rattle.x10_handles.specs.Handles.{inside_of};
ghost use Rattle.x10_cli.specs.Answers.{IsDue, IsVerifiedImage, status_of};
ghost use Rattle.x10_c.specs.Numbers.{no_fault};
ghost use Rattle.x10_c.specs.Calls.{IsMutAddress, IsTold};

use crate::answer::{NULL, tell};
use crate::handles::IN_USE;
use crate::null::is_null;
use crate::numbers::FaultNumbers;
use std::alloc::Global;
use x10_cli::{Fault, verified_in};
use x10_handles::{Handle, Unopened, close, is_open, open_module};
use x10_verify::Verified;

/// The module of an image, verified.
fn module_of<'a>(alloc: Global, image: &'a [u8]) -> Result<Verified<'a>, Fault>
    ensures found { IfOk result (IsImageOf image.now) }
    ensures refused { IfErr result (λ e. status_of e ≡ 1 → IsVerifiedImage image.now → ⊥) }
    ensures due { IfErr result (IsDue None image.now) }
{
    match verified_in(alloc, image) {
        Ok(module) => Ok(module),
        Err(fault) => Err(fault),
    }
}

/// Verifies an image, and opens a handle of its module. 0: it is open; 1: the image isn't that of a module that the verifier
/// accepts, and the fault is the one that is due; 2: memory was refused; 8: the handle is open already. Where it isn't 0, no
/// memory stays taken.
#[unsafe(no_mangle)]
pub extern "C" fn burjeeg_module_new(
    alloc: Global,
    image: &[u8],
    handle: &mut Handle,
    told: &mut FaultNumbers,
) -> u32
    requires handle { IsMutAddress handle }
    requires told { IsMutAddress told }
    ensures opened { result ≡ 0 → (v : Certified) × IsImageOf image.now v
        × (inside_of handle.new ≡ Some (behind.Module v)) }
    ensures shut { result ≡ 0 → inside_of handle.old ≡ None }
    ensures clear { result ≡ 0 → told.new ≡ no_fault }
    ensures refused { result ≡ 1 → IsVerifiedImage image.now → ⊥ }
    ensures used { result ≡ 8 → IsSome (inside_of handle.old) }
    ensures due { result ≢ 0 → result ≢ 8 → IsTold image.now None result told.new }
    ensures kept { result ≢ 0 → inside_of handle.new ≡ inside_of handle.old }
{
    if is_null(&*handle) || is_null(&*told) {
        return NULL;
    }
    if is_open(handle) {
        return IN_USE;
    }
    match module_of(alloc, image) {
        Ok(module) => match open_module(alloc, module, image, handle) {
            Ok(()) => tell(Ok(()), told),
            Err(Unopened::Memory) => tell(Err(Fault::Memory), told),
            Err(_) => IN_USE,
        },
        Err(fault) => tell(Err(fault), told),
    }
}

/// Closes the handle of a module. The module stays in memory, since places borrow it.
#[unsafe(no_mangle)]
pub extern "C" fn burjeeg_module_free(alloc: Global, handle: &mut Handle)
    requires { IsMutAddress handle }
    ensures { inside_of handle.new ≡ None }
{
    if is_null(&*handle) {
        return;
    }
    close(alloc, handle);
}
