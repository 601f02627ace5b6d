//! The rules that depend on the place in a register, or only on its kind: MOVE, HOME, IFHERE, IFSAME, PRINT.
ghost use Rattle.std.specs.Prelude.{◌≡◌, ℕ, ◌⊎◌, MatchResult, IfOk, IfErr, ◌<◌, Some, None};
ghost use Rattle.x10_kinds.specs.Kinds as kinds;
ghost use Rattle.x10_model.specs.Assignments as model;
ghost use Rattle.x10_model.specs.Assignments.{IsKind, IsPlaced};
ghost use Rattle.x10_verify.specs.Known.{state_of};
ghost use Rattle.x10_verify.specs.declared.want.Want.TheVariants.{APlaceOrReference, AReference};
ghost use Rattle.x10_verify.specs.Deciding.{SettlesAnywhere, RefusesAnywhere};
ghost use Rattle.x10_verify.specs.Causes.{IsRefused};

use crate::fault::FlowCause;
use crate::known::Known;
use x10_code::{Effect, Instr, Outcome};
use x10_kinds::{Kind, Term};

/// Whether values of a kind stand for a place.
pub(crate) fn has_place(kind: Kind) -> bool
    ensures { result ≡ kinds.has_place kind }
{
    matches!(kind, Kind::Place | Kind::GRef(_))
}

/// Whether a register stands for a place, by its kind.
pub(crate) fn holds_place(kind: Option<Kind>) -> bool
    ensures { result ≡ model.holds_place kind }
{
    match kind {
        None => false,
        Some(kind) => has_place(kind),
    }
}

/// A term, where the condition holds.
pub(crate) fn like_if(holds: bool, term: Term) -> Option<Term>
    ensures { result ≡ model.like_if holds term }
{
    if holds { Some(term) } else { None }
}

/// MOVE: register b is set; a gets its kind and its place.
pub(crate) fn copied(instr: Instr, known: &Known) -> Result<Effect, FlowCause>
    ensures decides { SettlesAnywhere Outcome.Copies instr (state_of known.now) result }
    ensures cause { RefusesAnywhere Outcome.Copies instr (state_of known.now) result }
{
    match known.kind(instr.b) {
        None => Err(FlowCause::Unset),
        Some(kind) => Ok(Effect::Sets(kind, like_if(has_place(kind), Term::Reg(instr.b)))),
    }
}

/// The class of the global reference in a register.
pub(crate) fn reference(register: u8, known: &Known) -> Result<u16, FlowCause>
    ensures class { MatchResult result (λ class. IsKind (state_of known.now) register
        (Kind.GRef class)) (λ _. (class : ℕ)
        → IsKind (state_of known.now) register (Kind.GRef class) → ⊥) }
    ensures within { IfOk result (λ _. register < 64) }
    ensures cause { IfErr result (λ why. IsRefused (state_of known.now) register AReference why) }
{
    match known.kind(register) {
        None => Err(FlowCause::Unset),
        Some(Kind::GRef(class)) => Ok(class),
        Some(_) => Err(FlowCause::Kind),
    }
}

/// HOME: register a gets the home of the reference in b.
pub(crate) fn located(instr: Instr, known: &Known) -> Result<Effect, FlowCause>
    ensures decides { SettlesAnywhere Outcome.Locates instr (state_of known.now) result }
    ensures cause { RefusesAnywhere Outcome.Locates instr (state_of known.now) result }
{
    reference(instr.b, known)?;
    Ok(Effect::Sets(Kind::Place, Some(Term::Reg(instr.b))))
}

// A register holds a place, or a reference with a home.
fn placed(register: u8, known: &Known) -> Result<(), FlowCause>
    ensures placed { MatchResult result (λ _. IsPlaced (state_of known.now) register)
        (λ _. IsPlaced (state_of known.now) register → ⊥) }
    ensures cause { IfErr result (λ why. IsRefused (state_of known.now) register APlaceOrReference
        why) }
{
    match known.kind(register) {
        None => Err(FlowCause::Unset),
        Some(Kind::Place) => Ok(()),
        Some(Kind::GRef(_)) => Ok(()),
        Some(_) => Err(FlowCause::Kind),
    }
}

/// IFHERE: on going on, what register a stands for is here.
pub(crate) fn found_here(instr: Instr, known: &Known) -> Result<Effect, FlowCause>
    ensures decides { SettlesAnywhere Outcome.FindsHere instr (state_of known.now) result }
    ensures cause { RefusesAnywhere Outcome.FindsHere instr (state_of known.now) result }
{
    placed(instr.a, known)?;
    Ok(Effect::Joins(Term::Reg(instr.a), Term::Here))
}

/// IFSAME: on going on, registers a and b stand for the same place.
pub(crate) fn found_same(instr: Instr, known: &Known) -> Result<Effect, FlowCause>
    ensures decides { SettlesAnywhere Outcome.FindsSame instr (state_of known.now) result }
    ensures cause { RefusesAnywhere Outcome.FindsSame instr (state_of known.now) result }
{
    placed(instr.a, known)?;
    placed(instr.b, known)?;
    Ok(Effect::Joins(Term::Reg(instr.a), Term::Reg(instr.b)))
}

/// PRINT: register a is a number or a text.
pub(crate) fn printed(instr: Instr, known: &Known) -> Result<Effect, FlowCause>
    ensures decides { SettlesAnywhere Outcome.Prints instr (state_of known.now) result }
    ensures cause { RefusesAnywhere Outcome.Prints instr (state_of known.now) result }
{
    match known.kind(instr.a) {
        None => Err(FlowCause::Unset),
        Some(Kind::Int | Kind::Text) => Ok(Effect::Keeps),
        Some(_) => Err(FlowCause::Kind),
    }
}
