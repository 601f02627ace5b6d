ghost use Rattle.std.specs.Prelude.{◌≡◌, ◌<◌, MatchResult, IfOk, IfErr, slice_get};
ghost use Rattle.std.specs.Option.{ForSome};
ghost use Rattle.x10_kinds.specs.Equations.{IsTerm, SameEquations, equations, written};
ghost use Rattle.x10_model.specs.Assignments.{IsKind, IsState, set};
ghost use Rattle.x10_verify.specs.Effects.{CanApply, IsNarrow};
ghost use Rattle.x10_verify.specs.Known.{state_of, kind_in};
ghost use Rattle.x10_verify.specs.Knowledge.{SameState};
ghost use Rattle.x10_model.specs.Assignments.{after};
ghost use Rattle.x10_verify.specs.declared.want.Want.TheVariants.{Fitting};
ghost use Rattle.x10_verify.specs.Causes.{IsRefused};

use crate::coded::{Kinds, decode, encode};
use crate::fault::FlowCause;
use crate::places::holds_place;
use x10_code::Effect;
use x10_kinds::{Homes, Kind, Term, fits};

/// What is known before an instruction: the kind of each register that is set, and which places are known to be the
/// same. It takes no memory.
#[derive(Clone, Copy, Debug)]
pub(crate) struct Known {
    pub(crate) kinds: Kinds,
    pub(crate) homes: Homes,
}

impl Known {
    /// The kind that a register is set to; none where there can't be such a register.
    pub(crate) fn kind(&self, register: u8) -> Option<Kind>
        ensures value { result ≡ kind_in self.now.kinds register }
    {
        if register < 64 {
            decode(self.kinds[register as usize])
        } else {
            None
        }
    }

    /// Asks that a register is set to a kind that fits.
    pub(crate) fn ask(&self, register: u8, want: Kind) -> Result<(), FlowCause>
        ensures asked { MatchResult result (λ _. IsKind (state_of self.now) register want)
            (λ _. IsKind (state_of self.now) register want → ⊥) }
        ensures within { IfOk result (λ _. register < 64) }
        ensures cause { IfErr result (λ why. IsRefused (state_of self.now) register
            (Fitting want) why) }
    {
        match self.kind(register) {
            None => Err(FlowCause::Unset),
            Some(have) => {
                if fits(have, want) {
                    Ok(())
                } else {
                    Err(FlowCause::Kind)
                }
            }
        }
    }

    /// What an instruction does to the state that goes on, where `register` is its operand a.
    pub(crate) fn apply(&mut self, register: u8, effect: Effect)
        requires { CanApply register effect }
        ensures { IsState (state_of self.old) → SameState (state_of self.new)
            (after register (state_of self.old) effect) }
    {
        match effect {
            Effect::Keeps => {}
            Effect::Sets(kind, like) => self.set(register, kind, like),
            Effect::Joins(one, other) => self.homes.join(one, other),
        }
    }

    // Sets a register to a kind, with the place of a term or one that nothing is known of.
    fn set(&mut self, register: u8, kind: Kind, like: Option<Term>)
        requires register { register < 64 }
        requires like { ForSome like IsTerm }
        ensures { IsState (state_of self.old) → SameState (state_of self.new)
            (set (state_of self.old) register kind like) }
    {
        self.relocate(register, like);
        self.kinds[register as usize] = encode(Some(kind));
    }

    // The register stands for the place of a term, or for one that nothing is known of. One that held none is alone already.
    fn relocate(&mut self, register: u8, like: Option<Term>)
        requires register { register < 64 }
        requires like { ForSome like IsTerm }
        ensures kinds { self.new.kinds ≡ self.old.kinds }
        ensures homes { IsState (state_of self.old) → SameEquations (equations self.new.homes)
            (written (equations self.old.homes) register like) }
    {
        if like.is_none() && !holds_place(self.kind(register)) {
            return;
        }
        self.homes.write(register, like);
    }

    /// Only registers below 64 are set: there can be no others. It does nothing.
    pub(crate) fn narrow(&self)
        ensures { IsNarrow (state_of self.now) }
    {
        let _ = &self.kinds;
    }
}
