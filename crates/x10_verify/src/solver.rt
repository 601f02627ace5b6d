//! Whether a function has a consistent assignment: the least solution over its instructions, from a list of those that
//! wait, the least first.
ghost use Rattle.std.specs.Prelude.{◌≡◌, ◌⊎◌, ◌+◌, ◌<◌, ◌≤◌, ℕ, length, MatchResult, IfErr, IfOk, Some, slice_get, Ok};
ghost use Rattle.std.specs.List.{flat_map};
ghost use Rattle.x10_code.specs.Spelling.{spelling as instruction};
ghost use Rattle.x10_image.specs.Parts.{code_at};
ghost use Rattle.x10_model.specs.Assignments.{HasAssignment};
ghost use Rattle.x10_model.specs.Modules.{Module, Function};
ghost use Rattle.x10_model.specs.Ranges.{function_at};
ghost use Rattle.x10_verify.specs.Least.{HasLeast};
ghost use Rattle.x10_verify.specs.Named.{HasNames};
ghost use Rattle.x10_verify.specs.Printing.{AreNoted, bit_in};
ghost use Rattle.x10_verify.specs.Solving.{IsSolved, Shows, SolvesOneMore, Stops};
ghost use Rattle.x10_verify.specs.States.{IsFresh, total};

use crate::entry::entry;
use crate::fault::FlowCause;
use crate::printing::note;
use crate::states::{Entry, arrive, clear, is_waiting};
use crate::step::step;
use x10_image::ImageView;
use x10_model::Slot;

/// A rule that does not hold, and where.
#[derive(Clone, Copy, Debug, PartialEq, Eq)]
pub(crate) struct FlowFault {
    pub(crate) cause: FlowCause,
    pub(crate) pc: usize,
}

/// Fills a table without states with those of a function, or finds a rule that fails in every assignment of it. Code without
/// loops is walked once; an instruction in loops once, and again as often as what is known before it changes.
pub(crate) fn solve(image: &ImageView, f: usize, table: &mut Vec<Entry>) -> Result<(), FlowFault>
    requires there { f < length image.now.functions }
    requires names { HasNames image.now f }
    requires room { length (code_at image.now f) ≤ length table.old.items }
    requires fresh { IsFresh table.old.items }
    ensures solved { IfOk result (λ _. (function : Function)
        → function_at image.now f ≡ Some function → IsSolved image.now function table.new.items) }
    ensures without { IfErr result (λ _. (function : Function)
        → function_at image.now f ≡ Some function → HasAssignment image.now function → ⊥) }
    ensures cause { IfErr result (λ fault. (function : Function)
        → function_at image.now f ≡ Some function → Stops image.now function fault.pc fault.cause) }
    ensures shows { IfErr result (λ fault. (function : Function)
        → function_at image.now f ≡ Some function
        → Shows image.now function fault.pc fault.cause table.new.items) }
    ensures small { IfErr result (λ fault. fault.pc ≤ 4096) }
    ensures size { IfOk result (λ _. length table.new.items ≡ length table.old.items) }
{
    let signature = image.signature(f);
    let slot = signature.result();
    let code = image.code(f);
    let len = image.code_len(f);
    let first = entry(&signature);
    first.narrow();
    arrive(table, 0, &first);
    let mut at = 0;
    while at < len {
        match pass(image, code, f, &slot, at, len, table) {
            Err(cause) => return Err(FlowFault { cause, pc: at }),
            Ok(next) => at = next,
        }
    }
    Ok(())
}

/// A function has a consistent assignment, or some rule fails in every one. The table has no state before and after; the row
/// gets the answers of which instructions print a text. The time is that of `solve`.
pub(crate) fn check_function(
    image: &ImageView,
    f: usize,
    table: &mut Vec<Entry>,
    row: &mut Vec<bool>,
) -> Result<(), FlowFault>
    requires there { f < length image.now.functions }
    requires names { HasNames image.now f }
    requires room { length (code_at image.now f) ≤ length table.old.items }
    requires fresh { IsFresh table.old.items }
    requires row { length row.old.items ≡ length (code_at image.now f) }
    ensures decides { (function : Function) → function_at image.now f ≡ Some function
        → MatchResult result (λ _. HasLeast image.now function)
        (λ _. HasAssignment image.now function → ⊥) }
    ensures noted { IfOk result (λ _. AreNoted image.now (bit_in row.new.items) f) }
    ensures cause { (function : Function) → function_at image.now f ≡ Some function
        → IfErr result (λ fault. Stops image.now function fault.pc fault.cause) }
    ensures small { IfErr result (λ fault. fault.pc ≤ 4096) }
    ensures fresh { IfOk result (λ _. IsFresh table.new.items) }
    ensures size { IfOk result (λ _. length table.new.items ≡ length table.old.items) }
    ensures row { length row.new.items ≡ length row.old.items }
{
    if let Err(fault) = solve(image, f, table) {
        return Err(fault);
    }
    note(image, f, table, row);
    clear(table, image.code_len(f));
    Ok(())
}

// The instruction at the front, if it waits. `code` is the function's.
fn pass(
    image: &ImageView,
    code: &[u8],
    f: usize,
    slot: &Option<Slot>,
    at: usize,
    len: usize,
    table: &mut Vec<Entry>,
) -> Result<usize, FlowCause>
    requires there { f < length image.now.functions }
    requires names { HasNames image.now f }
    requires code { code.now ≡ flat_map instruction (code_at image.now f) }
    requires len { len ≡ length (code_at image.now f) }
    requires at { at < len }
    requires room { len ≤ length table.old.items }
    ensures steps { (function : Function) → function_at image.now f ≡ Some function
        → function.result ≡ slot.now → SolvesOneMore image.now function at table.old.items result
        table.new.items }
    ensures size { IfOk result (λ _. length table.new.items ≡ length table.old.items) }
    ensures falls { IfOk result (λ next. ((next ≡ at + 1)
        × (total table.new.items ≤ total table.old.items))
        ⊎ ((next ≤ at) × (total table.new.items < total table.old.items))) }
{
    if !is_waiting(table, at) {
        return Ok(at + 1);
    }
    step(image, slot, image.instr_from(code, f, at), at, len, table)
}
