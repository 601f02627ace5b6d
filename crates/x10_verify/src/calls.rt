//! The rules of functions: CALL, AT, ASYNC, ATA, RET.
ghost use Rattle.std.specs.Prelude.{◌≡◌, ◌≢◌, ◌+◌, ℕ, MatchResult, IfOk, IfErr, ◌<◌, ◌≤◌, length, Some, None, slice_get};
ghost use Rattle.x10_image.specs.Parts.{signature_of};
ghost use Rattle.x10_kinds.specs.Equations.{IsTerm};
ghost use Rattle.x10_model.specs.Assignments as model;
ghost use Rattle.x10_model.specs.Assignments.{FitsAs};
ghost use Rattle.x10_model.specs.Modules.{Function};
ghost use Rattle.x10_model.specs.Modules as modules;
ghost use Rattle.x10_verify.specs.Known.{state_of};
ghost use Rattle.x10_verify.specs.Knowledge.{point};
ghost use Rattle.x10_model.specs.Assignments.{IsCalled, IsPlaceTerm, Settles, SlotsAre};
ghost use Rattle.x10_verify.specs.Effects.{Decides};
ghost use Rattle.x10_verify.specs.Deciding.{SettlesIn, RefusesIn};
ghost use Rattle.x10_verify.specs.Causes.{IsCauseOf, IsNoPlace, IsUncalled, IsUnfit};
ghost use Rattle.x10_model.specs.declared.slot.Slot as slots;

use crate::fault::FlowCause;
use crate::known::Known;
use crate::places::like_if;
use x10_code::{Effect, Instr, Outcome};
use x10_image::{ImageView, SigView};
use x10_kinds::{Kind, Term};
use x10_model::Slot;

// A register fits a slot whose home, where it asks for one, is the place of a term.
fn fits_as(slot: Slot, register: u8, at: Term, known: &Known) -> Result<(), FlowCause>
    requires { IsTerm at }
    ensures fits { MatchResult result (λ _. FitsAs (state_of known.now) at register slot)
        (λ _. FitsAs (state_of known.now) at register slot → ⊥) }
    ensures cause { IfErr result (λ why. IsUnfit (state_of known.now) at register slot why) }
{
    known.ask(register, slot.kind)?;
    if slot.home_here && !known.homes.same(Term::Reg(register), at) {
        return Err(FlowCause::Home);
    }
    Ok(())
}

// The registers from `first` on fit the parameters, at the place of a term.
fn arguments_fit(signature: &SigView, first: u8, at: Term, known: &Known) -> Result<(), FlowCause>
    requires term { IsTerm at }
    requires few { length signature.now.parameters ≤ 16 }
    ensures fit { MatchResult result (λ _. SlotsAre
        (state_of known.now) at first signature.now.parameters)
        (λ _. SlotsAre (state_of known.now) at first signature.now.parameters → ⊥) }
    ensures cause { IfErr result (λ why. (n : ℕ) × (slot : slots.Slot)
        × (slice_get signature.now.parameters n ≡ Some slot)
        × IsUnfit (state_of known.now) at (first + n) slot why) }
{
    known.narrow();
    for n in 0..signature.parameters() {
        let slot = signature.parameter(n);
        let register = usize::from(first) + n;
        if register >= 64 {
            return Err(FlowCause::Unset);
        }
        fits_as(slot, register as u8, at, known)?;
    }
    Ok(())
}

// A term is here, or a register that holds a place.
fn place(at: Term, known: &Known) -> Result<(), FlowCause>
    ensures place { MatchResult result (λ _. IsPlaceTerm (state_of known.now) at)
        (λ _. IsPlaceTerm (state_of known.now) at → ⊥) }
    ensures term { IfOk result (λ _. IsTerm at) }
    ensures cause { IfErr result (λ why. IsNoPlace (state_of known.now) at why) }
{
    match at {
        Term::Here => Ok(()),
        Term::Place(_) => Err(FlowCause::Kind),
        Term::Reg(register) => known.ask(register, Kind::Place),
    }
}

// The signature of function x, whose parameters the registers from b on fit.
fn callee<'a>(
    image: &ImageView<'a>,
    instr: Instr,
    at: Term,
    known: &Known,
) -> Result<SigView<'a>, FlowCause>
    ensures found { (function : Function) (pc : ℕ) → MatchResult result
        (λ signature. (callee : modules.Function)
        × IsCalled (point image.now function pc instr) (state_of known.now) at callee
        × (signature ≡ signature_of callee))
        (λ _. (callee : modules.Function) → IsCalled (point image.now function pc instr)
        (state_of known.now) at callee → ⊥) }
    ensures cause { IfErr result (λ why. (function : Function) (pc : ℕ)
        → IsUncalled at (point image.now function pc instr) (state_of known.now) why) }
{
    place(at, known)?;
    if instr.x as usize >= image.functions() {
        return Err(FlowCause::Kind);
    }
    let signature = image.signature(instr.x as usize);
    arguments_fit(&signature, instr.b, at, known)?;
    Ok(signature)
}

// A result is written, at the place of a term where its home is said to be there.
fn given(slot: Slot, at: Term) -> Effect
    ensures { result ≡ Effect.Sets slot.kind (model.like_if slot.home_here at) }
{
    Effect::Sets(slot.kind, like_if(slot.home_here, at))
}

/// CALL and AT: the arguments fit function x at the place of a term; a gets the result, if there is one.
pub(crate) fn called(
    image: &ImageView,
    instr: Instr,
    at: Term,
    known: &Known,
) -> Result<Effect, FlowCause>
    ensures decides { SettlesIn image.now (Outcome.Calls at) instr (state_of known.now) result }
    ensures cause { RefusesIn image.now (Outcome.Calls at) instr (state_of known.now) result }
{
    let signature = callee(image, instr, at, known)?;
    match signature.result() {
        Some(slot) => Ok(given(slot, at)),
        None => {
            if instr.a == 0 {
                Ok(Effect::Keeps)
            } else {
                Err(FlowCause::Result)
            }
        }
    }
}

/// ASYNC and ATA: the same, of a function without a result.
pub(crate) fn started(
    image: &ImageView,
    instr: Instr,
    at: Term,
    known: &Known,
) -> Result<Effect, FlowCause>
    ensures decides { SettlesIn image.now (Outcome.Starts at) instr (state_of known.now) result }
    ensures cause { RefusesIn image.now (Outcome.Starts at) instr (state_of known.now) result }
{
    let signature = callee(image, instr, at, known)?;
    match signature.result() {
        Some(_) => Err(FlowCause::Result),
        None => Ok(Effect::Keeps),
    }
}

/// RET: register a fits the function's result, whose home is here where it has one; without a result a is 0.
pub(crate) fn returned(slot: Option<Slot>, instr: Instr, known: &Known) -> Result<Effect, FlowCause>
    ensures decides { (program : modules.Module) (function : Function) (pc : ℕ)
        → function.result ≡ slot → Decides (Settles Outcome.Returns
        (point program function pc instr) (state_of known.now)) result }
    ensures cause { IfErr result (λ why. (program : modules.Module) (function : Function) (pc : ℕ)
        → function.result ≡ slot → IsCauseOf Outcome.Returns (point program function pc instr)
        (state_of known.now) why) }
{
    match slot {
        None => {
            if instr.a != 0 {
                return Err(FlowCause::Result);
            }
        }
        Some(slot) => fits_as(slot, instr.a, Term::Here, known)?,
    }
    Ok(Effect::Keeps)
}
