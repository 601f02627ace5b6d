//! What is known where a function begins.
ghost use Rattle.std.specs.Prelude.{◌≡◌, ◌≤◌, ℕ, length, drop, slice_get};
ghost use Rattle.x10_kinds.specs.Equations.{SameEquations, equations};
ghost use Rattle.x10_model.specs.Assignments.{IsState, parameter_kind, homes_here};
ghost use Rattle.x10_verify.specs.Known.{state_of, kind_in, entered, FlagsFit};
ghost use Rattle.x10_verify.specs.Knowledge.{SameState};

use crate::coded::{Kinds, encode};
use crate::known::Known;
use x10_image::SigView;
use x10_kinds::{Homes, Term};

/// The parameters are set to their kinds, and those that ask for it have their home here.
pub(crate) fn entry(signature: &SigView) -> Known
    requires count { length signature.now.parameters ≤ 16 }
    requires flags { FlagsFit signature.now.parameters }
    ensures same { SameState (state_of result) (entered signature.now.parameters) }
    ensures valid { IsState (state_of result) }
{
    Known {
        kinds: kinds(signature),
        homes: homes(signature, 0),
    }
}

fn kinds(signature: &SigView) -> Kinds
    requires { length signature.now.parameters ≤ 16 }
    ensures { (r : ℕ) → kind_in result r ≡ parameter_kind (slice_get signature.now.parameters r) }
{
    let mut kinds = [0; 64];
    for i in 0..signature.parameters() {
        kinds[i] = encode(Some(signature.parameter(i).kind));
    }
    kinds
}

// The homes of the parameters from `from` on.
fn homes(signature: &SigView, from: usize) -> Homes
    requires count { length signature.now.parameters ≤ 16 }
    requires from { from ≤ length signature.now.parameters }
    ensures { SameEquations (equations result) (homes_here from
        (drop from signature.now.parameters)) }
{
    if from == signature.parameters() {
        return Homes::new();
    }
    let mut homes = homes(signature, from + 1);
    if signature.parameter(from).home_here {
        homes.join(Term::Reg(from as u8), Term::Here);
    }
    homes
}
