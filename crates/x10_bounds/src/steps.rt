//! The bound of one function.

ghost use Rattle.std.specs.Prelude.{◌≡◌, ◌≤◌, ℕ, length, None, Err, IfSome, IsTrue, Result};
ghost use Rattle.x10_model.specs.Modules.{Function};
ghost use Rattle.x10_model.specs.Structure as structure;
ghost use Rattle.x10_bounds.specs.Faults.{Gives, of_code, ruled};
ghost use Rattle.x10_bounds.specs.Spots.{AreSpotsTo, capped};

use crate::fault::{BoundCause, BoundFault};
use crate::rules::{all_hold, atomic_fault, jump_fault, nesting_fault, order_fault, slot_fault};
use crate::shape::{Shape, classify};
use crate::spot::{Spot, capped_product, capped_sum, instr_at, spot_at, spots_of};
use std::alloc::Global;
use x10_code::Instr;

/// The greatest bound that a function may have.
const GREATEST: u64 = 1 << 48;

/// One step, and those of the function that an instruction calls.
fn cost(earlier: &[u64], instr: Instr) -> u64
    requires { IsTrue (structure.calls_earlier (length earlier.now) instr) }
    ensures { result ≡ capped (structure.cost earlier.now instr) }
{
    match classify(instr.op) {
        Shape::Call => capped_sum(1, earlier[instr.x as usize]),
        _ => 1,
    }
}

/// The sum of what the instructions cost, each as often as the loops around it turn; 2^48 + 1 where
/// it is greater.
fn bound_of(earlier: &[u64], code: &[Instr], spots: &[Spot]) -> u64
    requires spots { AreSpotsTo code.now (length code.now) spots.now }
    requires order { structure.order_fault (length earlier.now) code.now ≡ None }
    ensures { result ≡ capped (structure.bound_of earlier.now code.now) }
{
    let mut steps = 0;
    for pc in 0..code.len() {
        let cost = cost(earlier, instr_at(code, pc));
        let weight = spot_at(code, spots, pc).weight;
        steps = capped_sum(steps, capped_product(cost, weight));
    }
    steps
}

/// The first fault of a function by rules, before its bound is looked at. Most functions have none, and one pass shows that.
fn rule_fault(function: u16, loops: u8, code: &[Instr], spots: &[Spot]) -> Option<BoundFault>
    requires some { 1 ≤ length code.now }
    requires count { length code.now ≤ 4096 }
    requires spots { AreSpotsTo code.now (length code.now) spots.now }
    ensures none { result ≡ None → (r : Result ℕ structure.BoundFault)
        → ruled function loops code.now r ≡ r }
    ensures order { result ≡ None → structure.order_fault function code.now ≡ None }
    ensures some { IfSome result (λ fault. (r : Result ℕ structure.BoundFault)
        → Gives (λ b. b) (Err fault) (ruled function loops code.now r)) }
{
    if all_hold(function, loops, code, spots) {
        return None;
    }
    if let Some(pc) = nesting_fault(code, spots) {
        return Some(BoundFault::at(BoundCause::Nesting, function, pc));
    }
    if let Some(pc) = jump_fault(code, spots) {
        return Some(BoundFault::at(BoundCause::Jump, function, pc));
    }
    if let Some(pc) = slot_fault(loops, code, spots) {
        return Some(BoundFault::at(BoundCause::LoopSlot, function, pc));
    }
    if let Some(pc) = order_fault(function, code) {
        return Some(BoundFault::at(BoundCause::CallOrder, function, pc));
    }
    let pc = atomic_fault(code, spots)?;
    Some(BoundFault::at(BoundCause::Atomic, function, pc))
}

/// The bound of a function, given its number, its loop slots and the bounds of the functions before
/// it; or its fault. A fixed number of passes over the code, whatever it holds; it takes 24 bytes for
/// each instruction while it works.
pub fn checked_bound(
    alloc: Global,
    function: u16,
    loops: u8,
    earlier: &[u64],
    code: &[Instr],
) -> Result<u64, BoundFault>
    requires number { function ≡ length earlier.now }
    requires some { 1 ≤ length code.now }
    requires count { length code.now ≤ 4096 }
    ensures exact { Gives (λ b. b) result
        (structure.checked_bound function earlier.now (of_code loops code.now)) }
{
    let spots = spots_of(alloc, code)?;
    if let Some(fault) = rule_fault(function, loops, code, &spots) {
        return Err(fault);
    }
    let bound = bound_of(earlier, code, &spots);
    if bound > GREATEST {
        return Err(BoundFault::at(BoundCause::TooLarge, function, 0));
    }
    Ok(bound)
}
