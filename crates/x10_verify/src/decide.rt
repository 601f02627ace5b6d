//! Whether an instruction's rule holds in a state, and with which effect.
ghost use Rattle.std.specs.Prelude.{◌≡◌, ℕ, MatchResult, Ok, Err, Some, IfOk, IfErr};
ghost use Rattle.x10_model.specs.Modules.{Function};
ghost use Rattle.x10_verify.specs.Known.{state_of};
ghost use Rattle.x10_verify.specs.Knowledge.{point};
ghost use Rattle.x10_code.specs.Rules.{NamesSmall};
ghost use Rattle.x10_code.specs.Rules.{rule_for};
ghost use Rattle.x10_model.specs.Assignments.{Grants, IsKindIf, Settles};
ghost use Rattle.x10_verify.specs.Effects.{Decides};
ghost use Rattle.x10_verify.specs.declared.want.Want.TheVariants.{Fitting};
ghost use Rattle.x10_verify.specs.Causes.{IsCauseAt, IsCauseOf, IsRefused};
ghost use Rattle.x10_kinds.specs.declared.kind.Kind as kinds;

use crate::calls::{called, returned, started};
use crate::fault::FlowCause;
use crate::known::Known;
use crate::objects::{exported, got, made, opened, put, unwrapped};
use crate::places::{copied, found_here, found_same, located, printed};
use x10_code::{Effect, Instr, Outcome, rule_of};
use x10_image::ImageView;
use x10_kinds::Kind;
use x10_model::Slot;

/// The effect of an instruction in a state, if its rule holds there; else the first thing that is missing, by the order of the
/// operands. `slot` is the result of the function that it belongs to.
pub(crate) fn decide(
    image: &ImageView,
    slot: &Option<Slot>,
    instr: Instr,
    known: &Known,
) -> Result<Effect, FlowCause>
    requires { NamesSmall instr }
    ensures decides { (function : Function) (pc : ℕ) → function.result ≡ slot.now
        → Decides (Grants (rule_for instr.op instr) (point image.now function pc instr)
        (state_of known.now)) result }
    ensures cause { IfErr result (λ why. (function : Function) (pc : ℕ)
        → function.result ≡ slot.now → IsCauseAt (rule_for instr.op instr)
        (point image.now function pc instr) (state_of known.now) why) }
{
    let rule = rule_of(instr);
    asked(instr.a, rule.a, known)?;
    asked(instr.b, rule.b, known)?;
    asked(instr.c, rule.c, known)?;
    settled(image, slot, instr, rule.outcome, known)
}

// A register is asked for a kind, or for nothing.
fn asked(register: u8, want: Option<Kind>, known: &Known) -> Result<(), FlowCause>
    ensures asked { MatchResult result (λ _. IsKindIf (state_of known.now) register want)
        (λ _. IsKindIf (state_of known.now) register want → ⊥) }
    ensures cause { IfErr result (λ why. (kind : kinds.Kind) × (want ≡ Some kind)
        × IsRefused (state_of known.now) register (Fitting kind) why) }
{
    match want {
        None => Ok(()),
        Some(want) => known.ask(register, want),
    }
}

// What a row asks besides kinds, and the effect.
fn settled(
    image: &ImageView,
    slot: &Option<Slot>,
    instr: Instr,
    outcome: Outcome,
    known: &Known,
) -> Result<Effect, FlowCause>
    ensures decides { (function : Function) (pc : ℕ) → function.result ≡ slot.now
        → Decides (Settles outcome (point image.now function pc instr) (state_of known.now))
        result }
    ensures cause { IfErr result (λ why. (function : Function) (pc : ℕ)
        → function.result ≡ slot.now → IsCauseOf outcome (point image.now function pc instr)
        (state_of known.now) why) }
{
    match outcome {
        Outcome::Fixed(effect) => Ok(effect),
        Outcome::Copies => copied(instr, known),
        Outcome::Calls(at) => called(image, instr, at, known),
        Outcome::Returns => returned(*slot, instr, known),
        Outcome::Makes => made(image, instr, known),
        Outcome::Gets => got(image, instr, known),
        Outcome::Puts => put(image, instr, known),
        Outcome::Unwraps => unwrapped(instr, known),
        Outcome::Locates => located(instr, known),
        Outcome::Exports => exported(instr, known),
        Outcome::Opens => opened(instr, known),
        Outcome::FindsHere => found_here(instr, known),
        Outcome::FindsSame => found_same(instr, known),
        Outcome::Starts(at) => started(image, instr, at, known),
        Outcome::Prints => printed(instr, known),
    }
}
