//! The rules of objects and of global references to them: NEW, GET, PUT, IFOBJ, GNEW, GOPEN.
ghost use Rattle.std.specs.Prelude.{◌≡◌, ℕ, ◌⊎◌, MatchResult, IfErr, ◌<◌, ◌≤◌, ◌+◌, length, Some, None, List, slice_get};
ghost use Rattle.x10_kinds.specs.declared.kind.Kind as kinds;
ghost use Rattle.x10_model.specs.Assignments.{IsKind};
ghost use Rattle.x10_verify.specs.Known.{state_of};
ghost use Rattle.x10_model.specs.Assignments.{KindsAre, field_of};
ghost use Rattle.x10_verify.specs.declared.want.Want.TheVariants.{AnObject, Fitting};
ghost use Rattle.x10_verify.specs.Deciding.{SettlesIn, RefusesIn, SettlesAnywhere, RefusesAnywhere};
ghost use Rattle.x10_verify.specs.Causes.{IsRefused};

use crate::fault::FlowCause;
use crate::known::Known;
use crate::places::reference;
use x10_code::{Effect, Instr, Outcome};
use x10_image::{ClassView, ImageView};
use x10_kinds::{Kind, Term};

// The class of the object in a register.
fn object(register: u8, known: &Known) -> Result<u16, FlowCause>
    ensures class { MatchResult result (λ class. IsKind (state_of known.now) register
        (Kind.Obj class)) (λ _. (class : ℕ) → IsKind (state_of known.now) register
        (Kind.Obj class) → ⊥) }
    ensures cause { IfErr result (λ why. IsRefused (state_of known.now) register AnObject why) }
{
    match known.kind(register) {
        None => Err(FlowCause::Unset),
        Some(Kind::Obj(class)) => Ok(class),
        Some(_) => Err(FlowCause::Kind),
    }
}

// The kind of a class's field, where both are there.
fn field(image: &ImageView, class: u16, at: u8) -> Option<Kind>
    ensures { result ≡ field_of image.now class at }
{
    if usize::from(class) >= image.classes() {
        return None;
    }
    let fields = image.class(class.into());
    if usize::from(at) >= fields.len() {
        return None;
    }
    Some(fields.field(at.into()))
}

// The registers from `first` on have the kinds of a class's fields.
fn fields_fit(fields: &ClassView, first: u8, known: &Known) -> Result<(), FlowCause>
    requires { length fields.now ≤ 16 }
    ensures fit { MatchResult result (λ _. KindsAre (state_of known.now) first fields.now)
        (λ _. KindsAre (state_of known.now) first fields.now → ⊥) }
    ensures cause { IfErr result (λ why. (n : ℕ) × (want : kinds.Kind)
        × (slice_get fields.now n ≡ Some want)
        × IsRefused (state_of known.now) (first + n) (Fitting want) why) }
{
    known.narrow();
    for n in 0..fields.len() {
        let want = fields.field(n);
        let register = usize::from(first) + n;
        if register >= 64 {
            return Err(FlowCause::Unset);
        }
        known.ask(register as u8, want)?;
    }
    Ok(())
}

/// NEW: the registers from b on fit the fields of class x; a gets an object of it.
pub(crate) fn made(image: &ImageView, instr: Instr, known: &Known) -> Result<Effect, FlowCause>
    ensures decides { SettlesIn image.now Outcome.Makes instr (state_of known.now) result }
    ensures cause { RefusesIn image.now Outcome.Makes instr (state_of known.now) result }
{
    if instr.x as usize >= image.classes() {
        return Err(FlowCause::Kind);
    }
    fields_fit(&image.class(instr.x as usize), instr.b, known)?;
    Ok(Effect::Sets(Kind::Obj(instr.x as u16), None))
}

/// GET: register b is an object that has field c; a gets its kind.
pub(crate) fn got(image: &ImageView, instr: Instr, known: &Known) -> Result<Effect, FlowCause>
    ensures decides { SettlesIn image.now Outcome.Gets instr (state_of known.now) result }
    ensures cause { RefusesIn image.now Outcome.Gets instr (state_of known.now) result }
{
    let class = object(instr.b, known)?;
    match field(image, class, instr.c) {
        None => Err(FlowCause::Kind),
        Some(kind) => Ok(Effect::Sets(kind, None)),
    }
}

/// PUT: register a is an object that has field c, and b fits it.
pub(crate) fn put(image: &ImageView, instr: Instr, known: &Known) -> Result<Effect, FlowCause>
    ensures decides { SettlesIn image.now Outcome.Puts instr (state_of known.now) result }
    ensures cause { RefusesIn image.now Outcome.Puts instr (state_of known.now) result }
{
    let class = object(instr.a, known)?;
    let Some(kind) = field(image, class, instr.c) else {
        return Err(FlowCause::Kind);
    };
    known.ask(instr.b, kind)?;
    Ok(Effect::Keeps)
}

/// IFOBJ: register b is an object or null; on going on, a gets the object.
pub(crate) fn unwrapped(instr: Instr, known: &Known) -> Result<Effect, FlowCause>
    ensures decides { SettlesAnywhere Outcome.Unwraps instr (state_of known.now) result }
    ensures cause { RefusesAnywhere Outcome.Unwraps instr (state_of known.now) result }
{
    match known.kind(instr.b) {
        None => Err(FlowCause::Unset),
        Some(Kind::Obj(class) | Kind::Opt(class)) => Ok(Effect::Sets(Kind::Obj(class), None)),
        Some(_) => Err(FlowCause::Kind),
    }
}

/// GNEW: register b is an object; a gets a reference to it, whose home is here.
pub(crate) fn exported(instr: Instr, known: &Known) -> Result<Effect, FlowCause>
    ensures decides { SettlesAnywhere Outcome.Exports instr (state_of known.now) result }
    ensures cause { RefusesAnywhere Outcome.Exports instr (state_of known.now) result }
{
    let class = object(instr.b, known)?;
    Ok(Effect::Sets(Kind::GRef(class), Some(Term::Here)))
}

/// GOPEN: register b is a reference whose home is here; a gets the object.
pub(crate) fn opened(instr: Instr, known: &Known) -> Result<Effect, FlowCause>
    ensures decides { SettlesAnywhere Outcome.Opens instr (state_of known.now) result }
    ensures cause { RefusesAnywhere Outcome.Opens instr (state_of known.now) result }
{
    let class = reference(instr.b, known)?;
    if !known.homes.same(Term::Reg(instr.b), Term::Here) {
        return Err(FlowCause::Home);
    }
    Ok(Effect::Sets(Kind::Obj(class), None))
}
