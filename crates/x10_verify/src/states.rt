//! The states that are known so far before the instructions of one function.
ghost use Rattle.std.specs.Prelude.{◌≡◌, ◌+◌, ◌<◌, ◌≤◌, ℕ, IfOk, Some, length, slice_get, true};
ghost use Rattle.x10_verify.specs.Effects.{CanApply, IsNarrow};
ghost use Rattle.x10_verify.specs.Known.{state_of};
ghost use Rattle.x10_verify.specs.Solving.{Advances, ReceivesAfter};
ghost use Rattle.x10_verify.specs.States.{Arrives, IsDone, IsFresh, Receives, Takes, state_in, waits};

use crate::known::Known;
use std::alloc::{AllocError, Global};
use x10_code::Effect;
use x10_kinds::Homes;

/// What has become of an instruction.
#[derive(Clone, Copy, Debug, PartialEq, Eq)]
pub(crate) enum Mark {
    /// Nothing leads to it so far.
    Unreached,
    /// Its state has changed since it was last looked at.
    Waiting,
    /// It has been looked at in its state.
    Done,
}

/// An instruction's mark, and its state once it is reached.
#[derive(Clone, Copy, Debug)]
pub(crate) struct Entry {
    pub(crate) mark: Mark,
    pub(crate) known: Known,
}

impl Entry {
    /// What is known after an instruction, by its effect on what is known before it: like `receive`, but written where it is
    /// kept if this is the first way, without another copy.
    pub(crate) fn receive_after(&mut self, known: &Known, register: u8, effect: Effect)
        requires { CanApply register effect }
        ensures { ReceivesAfter known.now register effect self.old self.new }
    {
        if self.mark == Mark::Unreached {
            self.known = *known;
            self.known.apply(register, effect);
            self.known.narrow();
            self.mark = Mark::Waiting;
            return;
        }
        let mut after = *known;
        after.apply(register, effect);
        after.narrow();
        self.receive(&after);
    }

    /// What is known on one more way: kept as a whole where it is the first, otherwise as far as both ways know it. Answers
    /// whether that changed anything.
    pub(crate) fn receive(&mut self, known: &Known) -> bool
        ensures { Receives self.old known.now self.new result }
    {
        if self.mark == Mark::Unreached {
            self.known = *known;
            self.mark = Mark::Waiting;
            return true;
        }
        if !self.known.weaken(known) {
            return false;
        }
        self.mark = Mark::Waiting;
        true
    }
}

/// Whether an instruction waits.
pub(crate) fn is_waiting(table: &Vec<Entry>, at: usize) -> bool
    requires { at < length table.now.items }
    ensures { result ≡ waits table.now.items at }
{
    table[at].mark == Mark::Waiting
}

/// A waiting instruction is done from then on; its state stays where it is.
pub(crate) fn finish(table: &mut Vec<Entry>, at: usize)
    requires within { at < length table.old.items }
    requires waiting { waits table.old.items at ≡ true }
    ensures { (known : Known) × Takes table.old.items at known table.new.items }
{
    table[at].mark = Mark::Done;
}

/// What is known before an instruction that is reached.
pub(crate) fn known_at(table: &Vec<Entry>, at: usize) -> &Known
    requires { at < length table.now.items }
    ensures known { (entry : Entry) → slice_get table.now.items at ≡ Some entry
        → result.now ≡ entry.known }
    ensures narrow { IsNarrow (state_of result.now) }
{
    let known = &table[at].known;
    known.narrow();
    known
}

/// The next instruction receives what is known after one, by its effect: written where it is kept if this is the first way,
/// without a copy outside the table.
pub(crate) fn advance(table: &mut Vec<Entry>, at: usize, register: u8, effect: Effect)
    requires within { at + 1 < length table.old.items }
    requires can { CanApply register effect }
    ensures { (entry : Entry) → slice_get table.old.items at ≡ Some entry
        → Advances at register effect entry.known table.old.items table.new.items }
{
    let known = table[at].known;
    table[at + 1].receive_after(&known, register, effect);
}

/// What is known before an instruction that is done arrives at another one as it is, from where it is kept. Answers whether the
/// state there changed. One that leads to itself brings it nothing new.
pub(crate) fn lead(table: &mut Vec<Entry>, at: usize, target: usize) -> bool
    requires within { at < length table.old.items }
    requires target { target < length table.old.items }
    requires done { IsDone table.old.items at }
    ensures arrives { (entry : Entry) → slice_get table.old.items at ≡ Some entry
        → Arrives table.old.items target entry.known table.new.items result }
    ensures kept { slice_get table.new.items at ≡ slice_get table.old.items at }
{
    if target == at {
        return false;
    }
    if target < at {
        let (before, rest) = table.split_at_mut(at);
        return before[target].receive(&rest[0].known);
    }
    let (before, rest) = table.split_at_mut(target);
    rest[0].receive(&before[at].known)
}

/// One more way to an instruction. Answers whether its state changed.
pub(crate) fn arrive(table: &mut Vec<Entry>, target: usize, known: &Known) -> bool
    requires { target < length table.old.items }
    ensures { Arrives table.old.items target known.now table.new.items result }
{
    table[target].receive(known)
}

/// A table for functions of `len` instructions. 0.4 kB for each instruction.
pub(crate) fn blank(alloc: Global, len: usize) -> Result<Vec<Entry>, AllocError>
    ensures fresh { IfOk result (λ table. IsFresh table.items) }
    ensures size { IfOk result (λ table. length table.items ≡ len) }
{
    let mut table = Vec::with_capacity(alloc, len)?;
    for _ in 0..len {
        table.push(Entry {
            mark: Mark::Unreached,
            known: Known {
                kinds: [0; 64],
                homes: Homes::new(),
            },
        })?;
    }
    Ok(table)
}

/// Forgets the states of a function of `len` instructions.
pub(crate) fn clear(table: &mut Vec<Entry>, len: usize)
    requires { len ≤ length table.old.items }
    ensures cleared { (q : ℕ) → q < len → state_in (slice_get table.new.items q) ≡ None }
    ensures rest { (q : ℕ) → len ≤ q → slice_get table.new.items q ≡ slice_get table.old.items q }
    ensures size { length table.new.items ≡ length table.old.items }
{
    for at in 0..len {
        table[at].mark = Mark::Unreached;
    }
}
