//! The regions of one function.

ghost use Rattle.std.specs.Prelude.{◌≡◌, ◌<◌, ◌≤◌, List, length, Some, IfOk, slice_get};
ghost use Rattle.x10_code.specs.declared.instr.Instr.{Instr};
ghost use Rattle.x10_model.specs.Structure.{around};
ghost use Rattle.x10_model.specs.Structure as structure;
ghost use Rattle.x10_bounds.specs.Regions.{AreClosersFrom, closed_by, first_opener, in_list, opened_by};
ghost use Rattle.x10_bounds.specs.Regions as regions;
ghost use Rattle.x10_bounds.specs.Spots.{AreSpotsTo, spot_of};

use crate::shape::{Shape, classify};
use crate::spot::{Innermost, Spot, instr_at, spot_at, spots_of};
use std::alloc::{AllocError, Global};
use x10_code::Instr;

/// A loop, a finish or an atomic region: the numbers of the instructions that open and close it, and how many turns it makes,
/// which is 1 but for a loop.
#[derive(Clone, Copy, Debug, PartialEq, Eq)]
pub struct Region {
    pub opener: u16,
    pub closer: u16,
    pub limit: u32,
}

/// The opener of the region that an instruction closes.
fn closed_at(code: &[Instr], spots: &[Spot], pc: usize) -> Option<u16>
    requires within { pc < length code.now }
    requires spots { AreSpotsTo code.now (length code.now) spots.now }
    ensures { (i : Instr) → slice_get code.now pc ≡ Some i
        → result ≡ closed_by i.op (around code.now pc) }
{
    match classify(instr_at(code, pc).op) {
        Shape::EndOfLoop | Shape::EndOfFinish | Shape::EndOfAtomic => opener(spot_at(
            code, spots, pc,
        )),
        _ => None,
    }
}

/// The opener of a spot's innermost region.
pub fn opener(spot: Spot) -> Option<u16>
    ensures { (rs : List structure.Region) → spot ≡ spot_of rs → result ≡ first_opener rs }
{
    match spot.innermost {
        Innermost::Nothing => None,
        Innermost::Loop(opener) | Innermost::Finish(opener) | Innermost::Atomic(opener) => {
            Some(opener)
        }
    }
}

/// A table where no region has a closer yet.
fn all_open(alloc: Global, code: &[Instr]) -> Result<Vec<Option<u16>>, AllocError>
    ensures { IfOk result (λ closers. AreClosersFrom code.now (length code.now) closers.items) }
{
    let mut closers = Vec::with_capacity(alloc, code.len())?;
    for _ in 0..code.len() {
        closers.push(None)?;
    }
    Ok(closers)
}

/// For each instruction, the first one that closes the region that it opens. A later one is written
/// first and overwritten.
fn closers_of(alloc: Global, code: &[Instr], spots: &[Spot]) -> Result<Vec<Option<u16>>, AllocError>
    requires count { length code.now ≤ 4096 }
    requires spots { AreSpotsTo code.now (length code.now) spots.now }
    ensures { IfOk result (λ closers. AreClosersFrom code.now 0 closers.items) }
{
    let mut closers = all_open(alloc, code)?;
    for pc in (0..code.len()).rev() {
        if let Some(opener) = closed_at(code, spots, pc) {
            closers[usize::from(opener)] = Some(pc as u16);
        }
    }
    Ok(closers)
}

/// The region that an instruction opens, with the first instruction that closes it.
fn opened_at(code: &[Instr], closers: &[Option<u16>], pc: usize) -> Option<Region>
    requires within { pc < length code.now }
    requires count { length code.now ≤ 4096 }
    requires closers { AreClosersFrom code.now 0 closers.now }
    ensures { (i : Instr) → slice_get code.now pc ≡ Some i
        → in_list result ≡ opened_by code.now pc i i.op }
{
    let instr = instr_at(code, pc);
    let limit = match classify(instr.op) {
        Shape::Loop => instr.x,
        Shape::Finish | Shape::Atomic => 1,
        _ => return None,
    };
    let closer = closers[pc]?;
    Some(Region {
        opener: pc as u16,
        closer,
        limit,
    })
}

/// The regions of a function's code, by rising opener.
pub fn regions_of(alloc: Global, code: &[Instr]) -> Result<Vec<Region>, AllocError>
    requires { length code.now ≤ 4096 }
    ensures { IfOk result (λ found. found.items ≡ regions.regions_of code.now) }
{
    let spots = spots_of(alloc, code)?;
    let closers = closers_of(alloc, code, &spots)?;
    let mut found = Vec::new(alloc);
    for pc in 0..code.len() {
        if let Some(region) = opened_at(code, &closers, pc) {
            found.push(region)?;
        }
    }
    Ok(found)
}
