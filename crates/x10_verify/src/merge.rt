//! What is known where two ways meet.
ghost use Rattle.std.specs.Prelude.{◌≡◌, ◌≢◌, ◌<◌, ◌↔◌, IsTrue, true, false};
ghost use Rattle.x10_kinds.specs.Equations.{equations};
ghost use Rattle.x10_verify.specs.Effects.{IsKept};
ghost use Rattle.x10_verify.specs.Known.{kind_in, state_of};
ghost use Rattle.x10_verify.specs.Knowledge.{SameState};
ghost use Rattle.x10_verify.specs.Merging.{IsMet, IsWeakened, common_of, parted, rank_of};

use crate::coded::{encode, is_same_row};
use crate::known::Known;
use x10_kinds::{Kind, meet};

impl Known {
    /// Gives up what isn't known in the other state too, and answers whether there was anything to give up. Each time there
    /// was, the rank falls. One pass over the registers and, where an equation is given up, one over the terms.
    pub(crate) fn weaken(&mut self, other: &Known) -> bool
        ensures met { IsKept (state_of self.old) → IsKept (state_of other.now)
            → IsMet (state_of self.old) (state_of other.now) (state_of self.new) }
        ensures kept { result ≡ false → self.new ≡ self.old }
        ensures falls { result ≡ true → rank_of self.new < rank_of self.old }
    {
        let homes = self.homes.weaken(&other.homes);
        let kinds = self.weaken_kinds(other);
        homes || kinds
    }

    // The same of the kinds alone. A register that loses its kind, or is null or an object from then on, has no place.
    fn weaken_kinds(&mut self, other: &Known) -> bool
        ensures { IsWeakened self.old other.now 64 self.new result }
    {
        if is_same_row(&self.kinds, &other.kinds) {
            return false;
        }
        let mut changed = false;
        for register in 0..64_u8 {
            if self.weaken_register(register, other) {
                changed = true;
            }
        }
        changed
    }

    // The same of one register. Most have one number on both ways, and aren't decoded.
    fn weaken_register(&mut self, register: u8, other: &Known) -> bool
        requires { register < 64 }
        ensures same { result ≡ false → (self.new ≡ self.old)
            × (common_of (kind_in self.old.kinds register) (kind_in other.now.kinds register)
            ≡ kind_in self.old.kinds register) }
        ensures changed { result ≡ true → (common_of (kind_in self.old.kinds register)
            (kind_in other.now.kinds register) ≢ kind_in self.old.kinds register)
            × SameState (state_of self.new) (parted (state_of self.old) register
            (common_of (kind_in self.old.kinds register) (kind_in other.now.kinds register))) }
    {
        if self.kinds[register as usize] == other.kinds[register as usize] {
            return false;
        }
        let have = self.kind(register);
        let common = common(have, other.kind(register));
        if is_same(common, have) {
            return false;
        }
        self.kinds[register as usize] = encode(common);
        self.homes.write(register, None);
        true
    }
}

// The kind that a register has on both ways, if there is one.
fn common(have: Option<Kind>, other: Option<Kind>) -> Option<Kind>
    ensures { result ≡ common_of have other }
{
    match (have, other) {
        (Some(have), Some(other)) => meet(have, other),
        _ => None,
    }
}

fn is_same(one: Option<Kind>, other: Option<Kind>) -> bool
    ensures { IsTrue result ↔ one ≡ other }
{
    one == other
}
