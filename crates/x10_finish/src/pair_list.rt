//! Pairs of numbers that are all set to 0 at once.

ghost use Rattle.std.specs.Prelude.{◌≡◌, ◌<◌, IfErr, OnOk, length, replicate, slice_index_or, slice_set};
ghost use Rattle.x10_kinds.specs.declared.stop.Stop.TheVariants as stop;
ghost use Rattle.x10_finish.specs.Pairs.{no_pair};

use crate::pairs::Pair;
use std::alloc::Global;
use std::marker::Model;
use x10_kinds::Stop;

const NO_PAIR: Pair = Pair {
    sent: 0,
    received: 0,
};

/// A pair, and the round in which it was written.
#[derive(Clone, Copy, Debug, PartialEq, Eq)]
pub struct Stamped {
    round: u32,
    pair: Pair,
}

/// A list of pairs. What was written in an earlier round counts as two zeros, so all of them are set to 0 in constant time.
#[derive(Drop)]
pub struct PairList {
    round: u32,
    items: Vec<Stamped>,
}

impl Model for PairList {
    ghost use Rattle.std.specs.Prelude.{List, map};
    ghost use Rattle.x10_finish.specs.declared.pairs.Pair.{Pair};
    ghost use Rattle.x10_finish.specs.Pairs.{AreUpTo, seen_in};

    ghost Value = { List Pair };

    ghost view = { λ l. map (seen_in l.round) l.items.items };

    ghost invariant = { λ l. AreUpTo l.round l.items.items };
}

impl PairList {
    /// No pairs. Takes no memory.
    pub fn new(alloc: Global) -> PairList
        ensures { length result ≡ 0 }
    {
        PairList {
            round: 0,
            items: Vec::new(alloc),
        }
    }

    /// Makes so many pairs of zeros of the list. Takes constant time where it had as many, and asks for memory only where it had
    /// fewer; where that is refused, nothing has changed. (Once in 2^32 times it takes the time of as many pairs.)
    #[inline(always)]
    pub fn zero(&mut self, size: usize) -> Result<(), Stop>
        ensures ok { OnOk result (self.new ≡ replicate size no_pair) }
        ensures err { IfErr result (λ why. (why ≡ stop.Memory) × (self.new ≡ self.old)) }
    {
        match self.round.checked_add(1) {
            Some(round) if self.items.len() == size => {
                self.round = round;
                Ok(())
            }
            _ => self.fill(size),
        }
    }

    /// Makes so many pairs of zeros of the list, each written.
    fn fill(&mut self, size: usize) -> Result<(), Stop>
        ensures ok { OnOk result (self.new ≡ replicate size no_pair) }
        ensures err { IfErr result (λ why. (why ≡ stop.Memory) × (self.new ≡ self.old)) }
    {
        let none = Stamped {
            round: 0,
            pair: NO_PAIR,
        };
        if self.items.resize(size, none).is_err() {
            return Err(Stop::Memory);
        }
        self.items.fill(none);
        self.round = 0;
        Ok(())
    }

    /// A pair, by its number.
    #[inline(always)]
    pub fn get(&self, i: usize) -> Pair
        requires { i < length self.now }
        ensures { result ≡ slice_index_or self.now i no_pair }
    {
        let Stamped { round, pair } = self.items[i];
        if round == self.round { pair } else { NO_PAIR }
    }

    /// Writes a pair in place of the one with a number.
    #[inline(always)]
    pub fn set(&mut self, i: usize, pair: Pair)
        requires { i < length self.old }
        ensures { self.new ≡ slice_set self.old i pair }
    {
        self.items[i] = Stamped {
            round: self.round,
            pair,
        };
    }
}
