//! All functions of a module, one after another.
ghost use Rattle.std.specs.Prelude.{◌≡◌, ◌<◌, ℕ, length, MatchOption, MatchResult, Some, IfOk, IfErr, IfSome, ◌≤◌};
ghost use Rattle.x10_model.specs.Modules.{Function};
ghost use Rattle.x10_model.specs.Ranges.{function_at};
ghost use Rattle.x10_model.specs.Assignments.{AreInRange};
ghost use Rattle.x10_image.specs.Parts.{code_at};
ghost use Rattle.x10_verify.specs.Solving.{StopsIn};
ghost use Rattle.x10_verify.specs.Least.{HasLeast};
ghost use Rattle.x10_verify.specs.Printing.{AreNoted, HasRows, bit_at};
ghost use Rattle.x10_verify.specs.States.{IsFresh};
ghost use Rattle.x10_verify.specs.Verdict.{AreInRangeTo, IsOutAt, IsFirstOut, IsFirstWithout};

use crate::ranges::in_range;
use crate::solver::{FlowFault, check_function};
use crate::states::Entry;
use x10_image::ImageView;

/// A position: a function, and an instruction of it.
#[derive(Clone, Copy, Debug, PartialEq, Eq)]
pub(crate) struct Position {
    pub(crate) function: usize,
    pub(crate) pc: usize,
}

/// The first instruction of a function that names what isn't there.
pub(crate) fn first_out(image: &ImageView, f: usize) -> Option<usize>
    requires { f < length image.now.functions }
    ensures first { (function : Function) → function_at image.now f ≡ Some function
        → MatchOption result (AreInRangeTo image.now function (length function.code))
        (λ pc. IsOutAt image.now function pc) }
    ensures small { IfSome result (λ pc. pc < 4096) }
{
    let signature = image.signature(f);
    for pc in 0..image.code_len(f) {
        if !in_range(image, f, &signature, image.instr(f, pc)) {
            return Some(pc);
        }
    }
    None
}

/// Whether all that the module's instructions name is there; else the first that names what isn't.
pub(crate) fn check_ranges(image: &ImageView) -> Result<(), Position>
    ensures ok { IfOk result (λ _. AreInRange image.now) }
    ensures err { IfErr result (λ at. IsFirstOut image.now at.function at.pc) }
    ensures small { IfErr result (λ at. (at.function < 256) × (at.pc < 4096)) }
{
    for function in 0..image.functions() {
        if let Some(pc) = first_out(image, function) {
            return Err(Position { function, pc });
        }
    }
    Ok(())
}

/// How many instructions the longest function has.
pub(crate) fn longest(image: &ImageView) -> usize
    ensures each { (f : ℕ) → length (code_at image.now f) ≤ result }
    ensures one { (f : ℕ) × (length (code_at image.now f) ≡ result) }
{
    let functions = image.functions();
    let mut longest = image.code_len(0);
    for function in 1..functions {
        longest = longest.max(image.code_len(function));
    }
    longest
}

/// Whether each function has a consistent assignment; else the first that has none. The table has room for the longest;
/// the rows get the answers of which instructions print a text.
pub(crate) fn check_flow(
    image: &ImageView,
    table: &mut Vec<Entry>,
    rows: &mut Vec<Vec<bool>>,
) -> Result<(), (usize, FlowFault)>
    requires range { AreInRange image.now }
    requires rows { HasRows image.now rows.old.items }
    requires room { (f : ℕ) → length (code_at image.now f) ≤ length table.old.items }
    requires fresh { IsFresh table.old.items }
    ensures ok { IfOk result (λ _. (f : ℕ) (function : Function)
        → function_at image.now f ≡ Some function → HasLeast image.now function) }
    ensures noted { IfOk result (λ _. (f : ℕ) → AreNoted image.now (bit_at rows.new.items f) f) }
    ensures err { IfErr result (λ at. IsFirstWithout image.now at.0) }
    ensures cause { IfErr result (λ at. StopsIn image.now at.0 at.1.pc at.1.cause) }
    ensures small { IfErr result (λ at. (at.0 < 256) × (at.1.pc ≤ 4096)) }
{
    image.fits();
    for function in 0..image.functions() {
        if let Err(fault) = check_function(image, function, table, &mut rows[function]) {
            return Err((function, fault));
        }
    }
    Ok(())
}
