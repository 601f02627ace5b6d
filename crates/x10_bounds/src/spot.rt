//! The table of what is around each instruction of a function.

ghost use Rattle.std.specs.Prelude.{◌≡◌, ◌+◌, ◌*◌, ◌<◌, ◌≤◌, ◌^◌, List, [], ◌∷◌, length, Some, IfOk, slice_get};
ghost use Rattle.x10_model.specs.Structure.{Region, Turning, Waiting, Atomic, around};
ghost use Rattle.x10_model.specs.Structure as structure;
ghost use Rattle.x10_bounds.specs.Spots.{AreSpotsTo, capped, spot_of};

use crate::shape::{Shape, classify};
use std::alloc::{AllocError, Global};
use x10_code::Instr;

/// The innermost region around an instruction, by the number of its opener.
#[derive(Clone, Copy, Debug, PartialEq, Eq)]
pub enum Innermost {
    Nothing,
    Loop(u16),
    Finish(u16),
    Atomic(u16),
}

/// What is around an instruction.
#[derive(Clone, Copy, Debug, PartialEq, Eq)]
pub struct Spot {
    pub innermost: Innermost,
    /// How many loops are around it.
    pub loops: u16,
    /// How many finishes are around it.
    pub finishes: u16,
    /// How many atomic regions are around it.
    pub atomics: u16,
    /// The product of the limits of the loops around it; 2^48 + 1 where it is greater.
    pub weight: u64,
}

/// The greatest bound plus one: every greater number of steps is kept as this number. Products of limits pass 2^128, also in
/// code that is refused later.
const TOO_MANY: u64 = (1 << 48) + 1;

pub fn capped_sum(a: u64, b: u64) -> u64
    ensures { result ≡ capped (a + b) }
{
    a.saturating_add(b).min(TOO_MANY)
}

pub fn capped_product(a: u64, b: u64) -> u64
    ensures { result ≡ capped (a * b) }
{
    a.saturating_mul(b).min(TOO_MANY)
}

fn outermost() -> Spot
    ensures { result ≡ spot_of [] }
{
    Spot {
        innermost: Innermost::Nothing,
        loops: 0,
        finishes: 0,
        atomics: 0,
        weight: 1,
    }
}

fn in_loop(spot: Spot, opener: u16, limit: u32) -> Spot
    requires { spot.loops < 4096 }
    ensures { (rs : List Region) → spot ≡ spot_of rs
        → result ≡ spot_of (Turning opener limit ∷ rs) }
{
    Spot {
        innermost: Innermost::Loop(opener),
        loops: spot.loops + 1,
        finishes: spot.finishes,
        atomics: spot.atomics,
        weight: capped_product(u64::from(limit), spot.weight),
    }
}

fn in_finish(spot: Spot, opener: u16) -> Spot
    requires { spot.finishes < 4096 }
    ensures { (rs : List Region) → spot ≡ spot_of rs → result ≡ spot_of (Waiting opener ∷ rs) }
{
    Spot {
        innermost: Innermost::Finish(opener),
        loops: spot.loops,
        finishes: spot.finishes + 1,
        atomics: spot.atomics,
        weight: spot.weight,
    }
}

fn in_atomic(spot: Spot, opener: u16) -> Spot
    requires { spot.atomics < 4096 }
    ensures { (rs : List Region) → spot ≡ spot_of rs → result ≡ spot_of (Atomic opener ∷ rs) }
{
    Spot {
        innermost: Innermost::Atomic(opener),
        loops: spot.loops,
        finishes: spot.finishes,
        atomics: spot.atomics + 1,
        weight: spot.weight,
    }
}

/// The instruction with a number.
pub fn instr_at(code: &[Instr], pc: usize) -> Instr
    requires { pc < length code.now }
    ensures { slice_get code.now pc ≡ Some result }
{
    code[pc]
}

/// The spot of an instruction, from a table that has it.
pub fn spot_at(code: &[Instr], spots: &[Spot], pc: usize) -> Spot
    requires { slice_get spots.now pc ≡ Some (spot_of (around code.now pc)) }
    ensures { result ≡ spot_of (around code.now pc) }
{
    spots[pc]
}

/// The spot outside an instruction's innermost region, which is the spot of its opener.
fn outside(code: &[Instr], spots: &[Spot], pc: usize) -> Spot
    requires { AreSpotsTo code.now pc spots.now }
    ensures { result ≡ spot_of (structure.outside (around code.now pc)) }
{
    match spot_at(code, spots, pc).innermost {
        Innermost::Nothing => outermost(),
        Innermost::Loop(opener) | Innermost::Finish(opener) | Innermost::Atomic(opener) => {
            spot_at(code, spots, usize::from(opener))
        }
    }
}

/// The spot of the instruction after the last one that has one.
fn after(code: &[Instr], spots: &[Spot], pc: usize) -> Spot
    requires spots { AreSpotsTo code.now pc spots.now }
    requires within { pc < length code.now }
    requires count { length code.now ≤ 4096 }
    ensures { result ≡ spot_of (around code.now (pc + 1)) }
{
    let instr = instr_at(code, pc);
    let spot = spot_at(code, spots, pc);
    match classify(instr.op) {
        Shape::Loop => in_loop(spot, pc as u16, instr.x),
        Shape::Finish => in_finish(spot, pc as u16),
        Shape::Atomic => in_atomic(spot, pc as u16),
        Shape::EndOfLoop | Shape::EndOfFinish | Shape::EndOfAtomic => outside(code, spots, pc),
        _ => spot,
    }
}

/// The spots of all instructions, and last the spot after the end. One pass; it takes 24 bytes for
/// each instruction.
pub fn spots_of(alloc: Global, code: &[Instr]) -> Result<Vec<Spot>, AllocError>
    requires { length code.now ≤ 4096 }
    ensures { IfOk result (λ spots. AreSpotsTo code.now (length code.now) spots.items) }
{
    let mut spots = Vec::with_capacity(alloc, code.len() + 1)?;
    spots.push(outermost())?;
    for pc in 0..code.len() {
        let next = after(code, &spots, pc);
        spots.push(next)?;
    }
    Ok(spots)
}
