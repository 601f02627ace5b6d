ghost use Rattle.std.specs.Prelude.{◌≡◌, ◌↔◌, ◌<◌, IsTrue, true, false};
ghost use Rattle.std.specs.Option.{ForSome};
ghost use Rattle.x10_kinds.specs.Labels.{IsCanonical};

use crate::labels::{self, Labels};

/// What an equation between places speaks of.
#[derive(Clone, Copy, Debug, PartialEq, Eq)]
pub enum Term {
    /// The place where the activity runs.
    Here,
    /// A place by its number, 0 to 63.
    Place(u16),
    /// The place that a register holds, or the home of the global reference in it; 0 to 63.
    Reg(u8),
}

impl Term {
    ghost use Rattle.x10_kinds.specs.Equations.{IsTerm, index_of};

    // The term's number in the row of all terms.
    fn index(self) -> usize
        requires { IsTerm self }
        ensures index { result ≡ index_of self }
        ensures within { result < 129 }
    {
        match self {
            Term::Here => 0,
            Term::Place(place) => place as usize + 1,
            Term::Reg(register) => register as usize + 65,
        }
    }
}

/// An equivalence on the 129 terms: which of them are known to be the same place. It is 129 bytes, and no operation
/// takes memory. `same` takes constant time, every other operation one pass over the bytes; in those of `meet` and `weaken`,
/// a term whose class has its first term on neither side looks for it among at most 129 terms before it.
#[derive(Clone, Copy, Debug)]
pub struct Homes {
    labels: Labels,
    ghost canonical: { IsCanonical labels },
}

impl Homes {
    ghost use Rattle.x10_kinds.specs.Equations.{IsTerm, Includes, SameEquations, alone, equations, joined, met, written};
    ghost use Rattle.x10_kinds.specs.Ranks.{rank};

    /// Nothing is known: every term is equal only to itself.
    #[tactic(auto, unfolding(crate::specs::Equations::equations))]
    pub fn new() -> Homes
        ensures { SameEquations (equations result) alone }
    {
        Homes {
            labels: labels::apart(),
        }
    }

    /// Whether the two terms are known to be the same place.
    #[tactic(auto, unfolding(crate::specs::Equations::equations))]
    pub fn same(&self, t: Term, u: Term) -> bool
        requires left { IsTerm t }
        requires right { IsTerm u }
        ensures { result ≡ equations self.now t u }
    {
        self.labels[t.index()] == self.labels[u.index()]
    }

    /// Learns that the two terms are the same place, and what follows from it.
    #[tactic(auto, unfolding(crate::specs::Equations::equations))]
    pub fn join(&mut self, t: Term, u: Term)
        requires left { IsTerm t }
        requires right { IsTerm u }
        ensures { SameEquations (equations self.new) (joined (equations self.old) t u) }
    {
        labels::join(&mut self.labels, t.index(), u.index());
    }

    /// The register is written: with the place that `like` stands for before the write, or, where that is `None`, with a place
    /// that nothing is known about. A register that is given its own place changes nothing.
    pub fn write(&mut self, reg: u8, like: Option<Term>)
        requires register { reg < 64 }
        requires like { ForSome like IsTerm }
        ensures { SameEquations (equations self.new) (written (equations self.old) reg like) }
    {
        match like {
            Some(term) => self.follow(reg, term),
            None => self.leave(reg),
        }
    }

    /// What is known on both of two ways to the same point: the equations that hold in both.
    #[tactic(auto, unfolding(crate::specs::Equations::equations))]
    pub fn meet(&self, other: &Homes) -> Homes
        ensures { SameEquations (equations result)
            (met (equations self.now) (equations other.now)) }
    {
        let mut both = *self;
        both.weaken(other);
        both
    }

    /// Whether every equation that `other` knows is known here too.
    pub fn entails(&self, other: &Homes) -> bool
        ensures { IsTrue result ↔ Includes (equations self.now) (equations other.now) }
    {
        labels::contains(&self.labels, &other.labels)
    }

    /// Gives up the equations that do not hold in `other` too, and answers whether there were any. Each time there were, the
    /// rank falls, so a row gives up equations 16,641 times at most.
    pub fn weaken(&mut self, other: &Homes) -> bool
        ensures met { SameEquations (equations self.new)
            (met (equations self.old) (equations other.now)) }
        ensures kept { result ≡ false → self.new ≡ self.old }
        ensures fewer { result ≡ true → rank self.new < rank self.old }
    {
        labels::weaken(&mut self.labels, &other.labels)
    }

    // The register stands for the place of the term.
    #[tactic(auto, unfolding(crate::specs::Equations::equations))]
    fn follow(&mut self, reg: u8, term: Term)
        requires register { reg < 64 }
        requires term { IsTerm term }
        ensures { SameEquations (equations self.new)
            (written (equations self.old) reg (Some term)) }
    {
        let register = Term::Reg(reg);
        if term == register {
            return;
        }
        self.leave(reg);
        self.join(register, term);
    }

    // Nothing is known about the register any more.
    fn leave(&mut self, reg: u8)
        requires { reg < 64 }
        ensures { SameEquations (equations self.new) (written (equations self.old) reg None) }
    {
        labels::leave(&mut self.labels, Term::Reg(reg).index());
    }
}
