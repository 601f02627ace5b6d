//! One instruction of the work list: its rule, and what it gives to those that may follow.
ghost use Rattle.std.specs.Prelude.{◌≡◌, ◌⊎◌, ◌+◌, ◌<◌, ◌≤◌, ℕ, IfOk, Some, true, false, length, slice_get};
ghost use Rattle.x10_code.specs.Table.{form_of};
ghost use Rattle.x10_model.specs.Structure.{is_target};
ghost use Rattle.x10_model.specs.Modules.{Function};
ghost use Rattle.x10_verify.specs.Effects.{CanApply};
ghost use Rattle.x10_verify.specs.Named.{IsNamed};
ghost use Rattle.x10_verify.specs.Solving.{GoesOn, Jumps, SolvesOneMore};
ghost use Rattle.x10_verify.specs.States.{IsDone, total, waits};

use crate::decide::decide;
use crate::fault::FlowCause;
use crate::states::{Entry, advance, finish, known_at, lead};
use x10_code::{Effect, Instr, Op, Operand, form, goes_on};
use x10_image::ImageView;
use x10_model::Slot;

/// A waiting instruction of a function of `len` instructions, whose result is `slot`: where to look next, or the first
/// rule that doesn't hold. Where it jumps back to a state that changes, that is looked at next, else the next instruction.
/// Its own state is looked at where it is kept, without a copy.
pub(crate) fn step(
    image: &ImageView,
    slot: &Option<Slot>,
    instr: Instr,
    at: usize,
    len: usize,
    table: &mut Vec<Entry>,
) -> Result<usize, FlowCause>
    requires named { IsNamed image.now instr }
    requires at { at < len }
    requires room { len ≤ length table.old.items }
    requires waiting { waits table.old.items at ≡ true }
    ensures steps { (function : Function) → function.result ≡ slot.now
        → slice_get function.code at ≡ Some instr → length function.code ≡ len
        → SolvesOneMore image.now function at table.old.items result table.new.items }
    ensures size { IfOk result (λ _. length table.new.items ≡ length table.old.items) }
    ensures falls { IfOk result (λ next. ((next ≡ at + 1)
        × (total table.new.items ≤ total table.old.items))
        ⊎ ((next ≤ at) × (total table.new.items < total table.old.items))) }
{
    image.fits();
    finish(table, at);
    let effect = decide(image, slot, instr, known_at(table, at))?;
    let next = jump(instr, at, len, table)?;
    hand_on(instr, at, len, effect, table)?;
    Ok(next)
}

// To instruction x with the state as it is kept, where the operation jumps. Where to look next.
fn jump(instr: Instr, at: usize, len: usize, table: &mut Vec<Entry>) -> Result<usize, FlowCause>
    requires at { at < len }
    requires room { len ≤ length table.old.items }
    requires done { IsDone table.old.items at }
    ensures jumps { (entry : Entry) → slice_get table.old.items at ≡ Some entry
        → Jumps instr at len entry.known table.old.items result table.new.items }
    ensures kept { slice_get table.new.items at ≡ slice_get table.old.items at }
{
    if !jumps(instr.op) {
        return Ok(at + 1);
    }
    let target = instr.x as usize;
    if target >= len {
        return Err(FlowCause::Unset);
    }
    if lead(table, at, target) && target <= at {
        return Ok(target);
    }
    Ok(at + 1)
}

// To the next instruction with the effect, where the operation goes on.
fn hand_on(
    instr: Instr,
    at: usize,
    len: usize,
    effect: Effect,
    table: &mut Vec<Entry>,
) -> Result<(), FlowCause>
    requires at { at < len }
    requires room { len ≤ length table.old.items }
    requires can { CanApply instr.a effect }
    ensures { (entry : Entry) → slice_get table.old.items at ≡ Some entry
        → GoesOn instr at len effect entry.known table.old.items result table.new.items }
{
    if !goes_on(instr.op) {
        return Ok(());
    }
    if at + 1 >= len {
        return Err(FlowCause::Unset);
    }
    advance(table, at, instr.a, effect);
    Ok(())
}

// Whether an instruction may lead to instruction x.
fn jumps(op: Op) -> bool
    ensures { result ≡ is_target (form_of op).x }
{
    form(op).x == Operand::Target
}
