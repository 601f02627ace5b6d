//! The rules of structure, each by one pass over a function's instructions.

ghost use Rattle.std.specs.Prelude.{◌≡◌, ◌<◌, ◌≤◌, ◌==◌, ◌&&◌, IsTrue, List, length, None, Some, slice_get, true};
ghost use Rattle.x10_code.specs.declared.instr.Instr.{Instr};
ghost use Rattle.x10_model.specs.Structure.{Region, around, first_failing};
ghost use Rattle.x10_model.specs.Structure as structure;
ghost use Rattle.x10_bounds.specs.Spots.{AreSpotsTo, begins_before, spot_of};

use crate::shape::{Shape, classify};
use crate::spot::{Innermost, Spot, instr_at, spot_at};
use x10_code::{Instr, Op};
use x10_model::limits::MOST_TURNS;

/// Whether an instruction closes the region that it is in, if it closes one, and ends the function outside every finish and
/// every atomic region, if it ends it.
fn nests(code: &[Instr], spots: &[Spot], pc: usize) -> bool
    requires within { pc < length code.now }
    requires spots { AreSpotsTo code.now (length code.now) spots.now }
    ensures { (i : Instr) → slice_get code.now pc ≡ Some i
        → result ≡ structure.nests i.op (around code.now pc) }
{
    let spot = spot_at(code, spots, pc);
    match classify(instr_at(code, pc).op) {
        Shape::EndOfLoop => matches!(spot.innermost, Innermost::Loop(_)),
        Shape::EndOfFinish => matches!(spot.innermost, Innermost::Finish(_)),
        Shape::EndOfAtomic => matches!(spot.innermost, Innermost::Atomic(_)),
        Shape::Return => is_in_loops(spot),
        _ => true,
    }
}

/// Whether nothing is open at the end and the last instruction ends the function.
fn ends_well(code: &[Instr], spots: &[Spot]) -> bool
    requires some { 1 ≤ length code.now }
    requires spots { AreSpotsTo code.now (length code.now) spots.now }
    ensures { result ≡ structure.ends_well code.now }
{
    let open = spot_at(code, spots, code.len()).innermost;
    matches!(open, Innermost::Nothing) && instr_at(code, code.len() - 1).op == Op::Ret
}

/// The first instruction that closes a region other than its innermost one, or ends the function
/// inside a finish or an atomic region.
fn first_mismatch(code: &[Instr], spots: &[Spot]) -> Option<u16>
    requires count { length code.now ≤ 4096 }
    requires spots { AreSpotsTo code.now (length code.now) spots.now }
    ensures { result ≡ first_failing (λ pc i. structure.nests i.op (around code.now pc)) 0
        code.now }
{
    for pc in 0..code.len() {
        if !nests(code, spots, pc) {
            return Some(pc as u16);
        }
    }
    None
}

/// The least instruction that breaks the nesting of regions; that something is open at the
/// end, or that the last instruction isn't RET, is a fault of the last instruction.
pub fn nesting_fault(code: &[Instr], spots: &[Spot]) -> Option<u16>
    requires some { 1 ≤ length code.now }
    requires count { length code.now ≤ 4096 }
    requires spots { AreSpotsTo code.now (length code.now) spots.now }
    ensures { result ≡ structure.nesting_fault code.now }
{
    let mismatch = first_mismatch(code, spots);
    if mismatch.is_some() {
        return mismatch;
    }
    if ends_well(code, spots) {
        return None;
    }
    Some((code.len() - 1) as u16)
}

/// Whether a jump goes forward, inside the function, and leaves only loops. A region determines the regions around it; so
/// the target's regions are around the jump too where the innermost of them begins before the jump, and no finish and no
/// atomic region is left where as many are around both. Constant time, however many regions there are.
fn jumps_forward(code: &[Instr], spots: &[Spot], pc: usize, x: u32) -> bool
    requires within { pc < length code.now }
    requires spots { AreSpotsTo code.now (length code.now) spots.now }
    ensures { result ≡ structure.jumps_forward code.now pc x }
{
    let target = x as usize;
    if target <= pc || target >= code.len() {
        return false;
    }
    let from = spot_at(code, spots, pc);
    let to = spot_at(code, spots, target);
    begins_before(to, pc) && keeps(from, to)
}

/// Whether as many finishes and as many atomic regions are around two spots.
fn keeps(from: Spot, to: Spot) -> bool
    ensures { result ≡ ((from.finishes == to.finishes) && (from.atomics == to.atomics)) }
{
    from.finishes == to.finishes && from.atomics == to.atomics
}

/// Whether no finish and no atomic region is around a spot.
fn is_in_loops(spot: Spot) -> bool
    ensures { result ≡ ((spot.finishes == 0) && (spot.atomics == 0)) }
{
    spot.finishes == 0 && spot.atomics == 0
}

/// Whether a spot's innermost region, if it has one, begins before an instruction.
fn begins_before(spot: Spot, pc: usize) -> bool
    ensures { (rs : List Region) → spot ≡ spot_of rs → result ≡ begins_before rs pc }
{
    match spot.innermost {
        Innermost::Nothing => true,
        Innermost::Loop(opener) | Innermost::Finish(opener) | Innermost::Atomic(opener) => {
            usize::from(opener) < pc
        }
    }
}

/// Whether a loop's end goes to the instruction after its LOOP.
fn jumps_back(spot: Spot, x: u32) -> bool
    ensures { (rs : List Region) → spot ≡ spot_of rs → result ≡ structure.jumps_back rs x }
{
    match spot.innermost {
        Innermost::Nothing => false,
        Innermost::Loop(opener) | Innermost::Finish(opener) | Innermost::Atomic(opener) => {
            u64::from(x) == u64::from(opener) + 1
        }
    }
}

/// Whether an instruction goes where it may, if it goes anywhere but to the next one.
fn jumps_well(code: &[Instr], spots: &[Spot], pc: usize) -> bool
    requires within { pc < length code.now }
    requires spots { AreSpotsTo code.now (length code.now) spots.now }
    ensures { (i : Instr) → slice_get code.now pc ≡ Some i
        → result ≡ structure.jumps_well code.now pc i i.op }
{
    let instr = instr_at(code, pc);
    match classify(instr.op) {
        Shape::EndOfLoop => jumps_back(spot_at(code, spots, pc), instr.x),
        Shape::Jump => jumps_forward(code, spots, pc, instr.x),
        _ => true,
    }
}

/// The first instruction that goes where it may not.
pub fn jump_fault(code: &[Instr], spots: &[Spot]) -> Option<u16>
    requires count { length code.now ≤ 4096 }
    requires spots { AreSpotsTo code.now (length code.now) spots.now }
    ensures { result ≡ structure.jump_fault code.now }
{
    for pc in 0..code.len() {
        if !jumps_well(code, spots, pc) {
            return Some(pc as u16);
        }
    }
    None
}

/// Whether a LOOP's slot is its depth among loops, its end's slot the same, and its count 1 to
/// 65,535.
fn has_slot(loops: u8, code: &[Instr], spots: &[Spot], pc: usize) -> bool
    requires within { pc < length code.now }
    requires spots { AreSpotsTo code.now (length code.now) spots.now }
    ensures { (i : Instr) → slice_get code.now pc ≡ Some i
        → result ≡ structure.has_slot loops (around code.now pc) i i.op }
{
    let instr = instr_at(code, pc);
    let depth = spot_at(code, spots, pc).loops;
    let slot = u16::from(instr.a);
    match classify(instr.op) {
        Shape::Loop => slot == depth
            && instr.a < loops
            && 1 <= instr.x
            && instr.x <= u32::from(MOST_TURNS),
        Shape::EndOfLoop => slot + 1 == depth && instr.a < loops,
        _ => true,
    }
}

/// The first LOOP or ENDL whose slot or count isn't what it has to be.
pub fn slot_fault(loops: u8, code: &[Instr], spots: &[Spot]) -> Option<u16>
    requires count { length code.now ≤ 4096 }
    requires spots { AreSpotsTo code.now (length code.now) spots.now }
    ensures { result ≡ structure.slot_fault loops code.now }
{
    for pc in 0..code.len() {
        if !has_slot(loops, code, spots, pc) {
            return Some(pc as u16);
        }
    }
    None
}

/// Whether an instruction calls a function of a smaller number, if it calls one.
fn calls_earlier(function: u16, instr: Instr) -> bool
    ensures { result ≡ structure.calls_earlier function instr }
{
    match classify(instr.op) {
        Shape::Call => instr.x < u32::from(function),
        _ => true,
    }
}

/// The first call of a function whose number isn't smaller.
pub fn order_fault(function: u16, code: &[Instr]) -> Option<u16>
    requires count { length code.now ≤ 4096 }
    ensures { result ≡ structure.order_fault function code.now }
{
    for pc in 0..code.len() {
        if !calls_earlier(function, instr_at(code, pc)) {
            return Some(pc as u16);
        }
    }
    None
}

/// Whether an operation begins a function, an activity, a finish or an atomic region, or goes to another place.
fn is_kept_out(op: Op) -> bool
    ensures { result ≡ structure.is_kept_out op }
{
    matches!(
        op,
        Op::Call | Op::At | Op::Ata | Op::Async | Op::Finb | Op::Atomb
    )
}

/// Whether an instruction stands outside every atomic region, if no such region may have it.
fn stays_out(code: &[Instr], spots: &[Spot], pc: usize) -> bool
    requires within { pc < length code.now }
    requires spots { AreSpotsTo code.now (length code.now) spots.now }
    ensures { (i : Instr) → slice_get code.now pc ≡ Some i
        → result ≡ structure.stays_out i.op (around code.now pc) }
{
    !is_kept_out(instr_at(code, pc).op) || spot_at(code, spots, pc).atomics == 0
}

/// The first instruction in an atomic region that no such region may have.
pub fn atomic_fault(code: &[Instr], spots: &[Spot]) -> Option<u16>
    requires count { length code.now ≤ 4096 }
    requires spots { AreSpotsTo code.now (length code.now) spots.now }
    ensures { result ≡ structure.atomic_fault code.now }
{
    for pc in 0..code.len() {
        if !stays_out(code, spots, pc) {
            return Some(pc as u16);
        }
    }
    None
}

/// Whether each rule holds at an instruction.
fn holds_at(function: u16, loops: u8, code: &[Instr], spots: &[Spot], pc: usize) -> bool
    requires within { pc < length code.now }
    requires spots { AreSpotsTo code.now (length code.now) spots.now }
    ensures nests { IsTrue result → (i : Instr) → slice_get code.now pc ≡ Some i
        → true ≡ structure.nests i.op (around code.now pc) }
    ensures jumps { IsTrue result → (i : Instr) → slice_get code.now pc ≡ Some i
        → true ≡ structure.jumps_well code.now pc i i.op }
    ensures slot { IsTrue result → (i : Instr) → slice_get code.now pc ≡ Some i
        → true ≡ structure.has_slot loops (around code.now pc) i i.op }
    ensures calls { IsTrue result → (i : Instr) → slice_get code.now pc ≡ Some i
        → true ≡ structure.calls_earlier function i }
    ensures atomics { IsTrue result → (i : Instr) → slice_get code.now pc ≡ Some i
        → true ≡ structure.stays_out i.op (around code.now pc) }
{
    nests(code, spots, pc)
        && jumps_well(code, spots, pc)
        && has_slot(loops, code, spots, pc)
        && calls_earlier(function, instr_at(code, pc))
        && stays_out(code, spots, pc)
}

/// Whether each rule holds at each instruction: one pass. Which one fails first, and where, is for the passes above.
pub fn all_hold(function: u16, loops: u8, code: &[Instr], spots: &[Spot]) -> bool
    requires some { 1 ≤ length code.now }
    requires count { length code.now ≤ 4096 }
    requires spots { AreSpotsTo code.now (length code.now) spots.now }
    ensures nesting { IsTrue result → structure.nesting_fault code.now ≡ None }
    ensures jump { IsTrue result → structure.jump_fault code.now ≡ None }
    ensures slot { IsTrue result → structure.slot_fault loops code.now ≡ None }
    ensures order { IsTrue result → structure.order_fault function code.now ≡ None }
    ensures atomic { IsTrue result → structure.atomic_fault code.now ≡ None }
{
    for pc in 0..code.len() {
        if !holds_at(function, loops, code, spots, pc) {
            return false;
        }
    }
    ends_well(code, spots)
}
