//! Sets of places.

ghost use Rattle.std.specs.Prelude.{◌≡◌, ◌≢◌, ℕ, ◌<◌, ◌||◌, true, false, IfSome};
ghost use Rattle.x10_flights.specs.Flights.{IsNext};
ghost use Rattle.x10_flights.specs.PlaceSets.{has_place};

use std::marker::Model;

/// A set of places below 64, one bit each. All calls take constant time and no memory.
#[derive(Clone, Copy)]
pub struct PlaceSet {
    bits: u64,
}

impl Model for PlaceSet {
    ghost use Rattle.std.specs.Prelude.{ℕ};

    ghost Value = { ℕ };

    ghost view = { λ s. s.bits };

    ghost inverse = { λ n. record { bits = n } };
}

impl PlaceSet {
    /// No place.
    #[inline(always)]
    pub fn new() -> PlaceSet
        ensures { (p : ℕ) → has_place result p ≡ false }
    {
        PlaceSet { bits: 0 }
    }

    /// Puts a place in.
    #[inline(always)]
    pub fn insert(&mut self, place: u16)
        requires { place < 64 }
        ensures same { has_place self.new place ≡ true }
        ensures others { (p : ℕ) → p ≢ place → has_place self.new p ≡ has_place self.old p }
    {
        self.bits |= 1 << place;
    }

    /// Takes a place out.
    #[inline(always)]
    pub fn remove(&mut self, place: u16)
        requires { place < 64 }
        ensures same { has_place self.new place ≡ false }
        ensures others { (p : ℕ) → p ≢ place → has_place self.new p ≡ has_place self.old p }
    {
        self.bits &= !(1 << place);
    }

    /// The places that are in one of two sets, or in both.
    #[inline(always)]
    pub fn union(self, other: PlaceSet) -> PlaceSet
        ensures { (p : ℕ) → has_place result p ≡ (has_place self p || has_place other p) }
    {
        PlaceSet {
            bits: self.bits | other.bits,
        }
    }

    /// The least place of the set, from `from` on.
    #[inline(always)]
    pub fn first_from(self, from: u16) -> Option<u16>
        ensures next { IsNext (has_place self) from result }
        ensures below { IfSome result (λ p. p < 64) }
    {
        let rest = self.bits.checked_shr(u32::from(from))?;
        if rest == 0 {
            return None;
        }
        Some(from + rest.trailing_zeros() as u16)
    }
}
