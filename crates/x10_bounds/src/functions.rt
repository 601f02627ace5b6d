//! The bounds and the regions of a module's functions.

ghost use Rattle.std.specs.Prelude.{◌≡◌, ℕ, ◌<◌, ◌≤◌, ◌^◌, length, None, Some, IfOk, IsSome, IsTrue};
ghost use Rattle.x10_code.specs.declared.instr.Instr.{Instr};
ghost use Rattle.x10_model.specs.Modules.{Function};
ghost use Rattle.x10_model.specs.Ranges.{function_at, instr_at};
ghost use Rattle.x10_model.specs.Structure.{bounds_of, nesting_fault};
ghost use Rattle.x10_model.specs.Structure as structure;
ghost use Rattle.x10_image.specs.Parts.{code_at};
ghost use Rattle.x10_bounds.specs.Faults.{Gives};
ghost use Rattle.x10_bounds.specs.Regions.{closer_of, is_opener};
ghost use Rattle.x10_bounds.specs.Regions as regions;
ghost use Rattle.x10_bounds.specs.Spots.{AreSpotsTo};

use crate::fault::BoundFault;
use crate::region::{Region, regions_of};
use crate::spot::{Spot, spots_of};
use crate::steps::checked_bound;
use std::alloc::{AllocError, Global};
use x10_code::Instr;
use x10_image::ImageView;

/// A function's instructions.
fn code_of(alloc: Global, image: &ImageView, f: usize) -> Result<Vec<Instr>, AllocError>
    requires { f < length image.now.functions }
    ensures code { IfOk result (λ code. code.items ≡ code_at image.now f) }
    ensures some { IfOk result (λ code. 1 ≤ length code.items) }
    ensures count { IfOk result (λ code. length code.items ≤ 4096) }
{
    let len = image.code_len(f);
    let mut code = Vec::with_capacity(alloc, len)?;
    for pc in 0..len {
        code.push(image.instr(f, pc))?;
    }
    Ok(code)
}

/// The bound of one function, given those of the functions before it, or its first fault: for callers that look at a
/// function by itself. The time and the memory taken are linear in its instructions.
pub fn bound_at(
    alloc: Global,
    image: &ImageView,
    f: usize,
    earlier: &[u64],
) -> Result<u64, BoundFault>
    requires function { f < length image.now.functions }
    requires few { f < 2 ^ 16 }
    requires earlier { f ≡ length earlier.now }
    ensures { (g : Function) → function_at image.now f ≡ Some g
        → Gives (λ b. b) result (structure.checked_bound f earlier.now g) }
{
    let code = code_of(alloc, image, f)?;
    checked_bound(alloc, f as u16, image.signature(f).loops(), earlier, &code)
}

/// How many steps each function of a module takes at most, with those of the functions that it calls by CALL and AT; or the
/// first fault of the least function that has one. The time is linear in the number of instructions, whatever they are; the
/// memory taken is 8 bytes for each function, and 32 for each instruction of one function while it is looked at. Lack of memory
/// is reported as Memory.
pub fn bounds(alloc: Global, image: &ImageView) -> Result<Vec<u64>, BoundFault>
    ensures exact { Gives (λ bounds. bounds.items) result (bounds_of image.now) }
    ensures nests { IfOk result (λ _. (f : ℕ) → f < length image.now.functions
        → nesting_fault (code_at image.now f) ≡ None) }
{
    let mut bounds = Vec::with_capacity(alloc, image.functions())?;
    for f in 0..image.functions() {
        let bound = bound_at(alloc, image, f, &bounds)?;
        bounds.push(bound)?;
    }
    Ok(bounds)
}

/// The loops, finishes and atomic regions of a function, by rising opener. The time and the memory taken are linear
/// in the number of its instructions.
pub fn regions(alloc: Global, image: &ImageView, f: usize) -> Result<Vec<Region>, AllocError>
    requires function { f < length image.now.functions }
    requires nests { nesting_fault (code_at image.now f) ≡ None }
    ensures exact { IfOk result (λ found. found.items ≡ regions.regions_of (code_at image.now f)) }
    ensures closed { (pc : ℕ) (i : Instr) → instr_at image.now f pc ≡ Some i
        → IsTrue (is_opener i.op)
        → IsSome (closer_of (code_at image.now f) pc) }
{
    let code = code_of(alloc, image, f)?;
    regions_of(alloc, &code)
}

/// What is around each instruction of a function, whatever its structure, and last what is after its end. The time is linear in
/// the number of its instructions; the memory taken is 24 bytes for each.
pub fn surroundings(alloc: Global, image: &ImageView, f: usize) -> Result<Vec<Spot>, AllocError>
    requires { f < length image.now.functions }
    ensures { IfOk result (λ found.
        AreSpotsTo (code_at image.now f) (length (code_at image.now f)) found.items) }
{
    let code = code_of(alloc, image, f)?;
    spots_of(alloc, &code)
}
