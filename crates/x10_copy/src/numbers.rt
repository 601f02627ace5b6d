ghost use Rattle.std.specs.Prelude.{◌≡◌, ℕ, ◌⊎◌, ◌<◌, ◌≤◌, IfOk, IfErr, [], length, nat_lt, slice_index};
ghost use Rattle.x10_kinds.specs.declared.stop.Stop.TheVariants as stop;
ghost use Rattle.x10_model.specs.declared.limits.TheConstants.{MOST_WIDE};
ghost use Rattle.x10_copy.specs.Names.{number, with_new};
ghost use Rattle.x10_copy.specs.Numbered.{AreNumbered};

use std::alloc::Global;
use std::marker::Model;
use x10_kinds::{Limit, Stop};
use x10_model::limits::MOST_WIDE;

/// Some parts of a heap, each with a number of its own, from 0. Clauses see the list of the parts.
///
/// `places` has each part's number at the position of that part, and anything at the others: a part has a number where `parts`
/// has it under the number at its position. So nothing has to be cleared for another message.
#[derive(Drop)]
pub struct Numbers {
    places: Vec<u32>,
    parts: Vec<u32>,
}

impl Model for Numbers {
    ghost use Rattle.std.specs.Prelude.{ℕ, List};
    ghost use Rattle.x10_copy.specs.Numbered.{AreNumbered};

    ghost Value = { List ℕ };

    ghost view = { λ n. n.parts.items };

    ghost invariant = { λ n. AreNumbered n.places.items n.parts.items };
}

/// Whether a part has a number: `parts` has it under the number at its position.
#[inline(always)]
fn is_numbered(places: &[u32], parts: &[u32], part: u32) -> bool
    requires { AreNumbered places.now parts.now }
    ensures { result ≡ nat_lt (number parts.now part) (length parts.now) }
{
    if part as usize >= places.len() {
        return false;
    }
    let k = places[part as usize] as usize;
    if k >= parts.len() {
        return false;
    }
    parts[k] == part
}

/// A position for a part, where there is none yet.
#[inline(always)]
fn make_place(places: &mut Vec<u32>, part: u32) -> Result<(), Stop>
    ensures ok { IfOk result (λ _. part < length places.new.items) }
    ensures err { IfErr result (λ why. why ≡ stop.Memory) }
    ensures longer { length places.old.items ≤ length places.new.items }
    ensures kept { (k : ℕ) → k < length places.old.items
        → slice_index places.new.items k ≡ slice_index places.old.items k }
{
    if (part as usize) < places.len() {
        return Ok(());
    }
    match places.resize(part as usize + 1, 0) {
        Ok(()) => Ok(()),
        Err(_) => Err(Stop::Memory),
    }
}

impl Numbers {
    /// No part has a number yet. Takes no memory.
    pub fn new(alloc: Global) -> Numbers
        ensures { result ≡ [] }
    {
        Numbers {
            places: Vec::new(alloc),
            parts: Vec::new(alloc),
        }
    }

    /// Takes all numbers back. The memory is kept.
    pub fn clear(&mut self)
        ensures { self.new ≡ [] }
    {
        self.parts.clear();
    }

    /// How many parts have a number.
    #[inline(always)]
    pub fn len(&self) -> usize
        ensures value { result ≡ length self.now }
        ensures few { result ≤ MOST_WIDE }
    {
        self.parts.len()
    }

    /// The part with a number.
    #[inline(always)]
    pub fn part(&self, number: usize) -> u32
        requires { number < length self.now }
        ensures { result ≡ slice_index self.now number }
    {
        self.parts[number]
    }

    /// The number of a part that has one.
    #[inline(always)]
    pub fn number(&self, part: u32) -> u32
        requires { number self.now part < length self.now }
        ensures { result ≡ number self.now part }
    {
        self.places[part as usize]
    }

    /// Gives a part the next number, where it has none. Refused where 1,048,576 have one already, and for lack of memory.
    #[inline(always)]
    pub fn note(&mut self, part: u32, limit: Limit) -> Result<(), Stop>
        ensures ok { IfOk result (λ _. self.new ≡ with_new self.old part) }
        ensures err { IfErr result (λ why. (why ≡ stop.Memory)
            ⊎ ((why ≡ stop.Limit limit) × (MOST_WIDE < length (with_new self.old part)))) }
    {
        if is_numbered(&self.places, &self.parts, part) {
            return Ok(());
        }
        let count = self.parts.len();
        if count >= MOST_WIDE as usize {
            return Err(Stop::Limit(limit));
        }
        make_place(&mut self.places, part)?;
        let Ok(()) = self.parts.push(part) else {
            return Err(Stop::Memory);
        };
        self.places[part as usize] = count as u32;
        Ok(())
    }
}
