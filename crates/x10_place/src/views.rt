//! What callers may look at: the stays of a place, their call frames, and what the place counts. Constant time, unless a call
//! says otherwise; no memory.
ghost use Rattle.std.specs.Prelude.{◌≡◌, ℕ, None, Some, MatchOption, length, reverse, slice_get, slice_index};
ghost use Rattle.slab.specs.Slab.{get};
ghost use Rattle.x10_finish.specs.Ledgers.{totals_of};
ghost use Rattle.x10_place.specs.Stays.{book_at, origin_as};

use crate::call_frame::CallFrame;
use crate::place::Place;
use crate::stay::{Origin, Stay};
use x10_finish::Book;
use x10_model::Finish;

impl<'a> Place<'a> {
    /// The number of the place.
    pub fn id(&self) -> u16
        ensures { result ≡ self.now.id }
    {
        self.ground.store.locality().here
    }

    /// How many places the run has.
    pub fn places(&self) -> u16
        ensures { result ≡ self.now.places }
    {
        self.ground.store.locality().places
    }

    /// The stay with a key.
    pub fn stay(&self, key: usize) -> Option<&Stay>
        ensures { MatchOption result (get self.now.stays key ≡ None)
            (λ stay. get self.now.stays key ≡ Some stay.now) }
    {
        self.ground.stays.get(key)
    }

    /// What the place has counted of a finish: how many activities under it live here, how many were sent to each place, and
    /// how many came from each. A list may be shorter than there are places: what lacks is 0. A look-up of the finish.
    pub fn counts(&self, finish: Finish) -> (u32, &[u32], &[u32])
        ensures live { result.0 ≡ (totals_of self.now.ledger finish).live }
        ensures sent { (p : ℕ) → slice_index result.1.now p
            ≡ (totals_of self.now.ledger finish).sent p }
        ensures received { (p : ℕ) → slice_index result.2.now p
            ≡ (totals_of self.now.ledger finish).received p }
    {
        self.ground.store.counts(finish)
    }

    /// What other places have reported of the finish with a number that was opened here and is open. Logarithmic in the finishes
    /// that are open here.
    pub fn book(&self, number: u32) -> Option<&Book>
        ensures { MatchOption result (book_at self.now.books number ≡ None)
            (λ book. book_at self.now.books number ≡ Some book.now) }
    {
        self.ground.store.book(number)
    }
}

impl Stay {
    /// The call frame of the function that it executes.
    #[inline(always)]
    pub fn frame(&self) -> &CallFrame
        ensures { result.now ≡ self.now.top }
    {
        &self.top
    }

    /// How many functions wait for one that they called.
    pub fn callers(&self) -> usize
        ensures { result ≡ length self.now.callers }
    {
        self.callers.len()
    }

    /// The call frame of one of those, counted from the function that began: it stands at its CALL.
    pub fn caller(&self, number: usize) -> Option<&CallFrame>
        ensures { MatchOption result (slice_get self.now.callers number ≡ None)
            (λ frame. slice_get self.now.callers number ≡ Some frame.now) }
    {
        match self.callers.get(number) {
            Some(frame) => Some(frame),
            None => None,
        }
    }

    /// The numbers of the finishes that it opened and hasn't closed, the last one last.
    pub fn finishes(&self) -> &[u32]
        ensures { reverse result.now ≡ self.now.finishes }
    {
        &self.finishes
    }

    /// The finish under which it began.
    pub fn inherited(&self) -> Finish
        ensures { result ≡ self.now.inherited }
    {
        self.inherited
    }

    /// Whether it waits for an AT to come back.
    pub fn is_away(&self) -> bool
        ensures { result ≡ self.now.away }
    {
        self.away
    }

    /// Whether it is inside an atomic region.
    pub fn is_inside(&self) -> bool
        ensures { result ≡ self.now.inside }
    {
        self.inside
    }

    /// The stay that its result goes back to, if it goes on at this place for one that is away.
    pub fn back(&self) -> Option<Origin>
        ensures { origin_as result ≡ self.now.back }
    {
        self.back
    }
}

impl CallFrame {
    /// The number of its function.
    pub fn function(&self) -> u16
        ensures { result ≡ self.now.function }
    {
        self.function
    }

    /// The number of its next instruction, or of the CALL at which it waits.
    pub fn pc(&self) -> u16
        ensures { result ≡ self.now.pc }
    {
        self.pc
    }

    /// A word for each register, and perhaps more. What it means, and whether it was ever set, the verifier knows.
    pub fn registers(&self) -> &[u64]
        ensures { result.now ≡ self.now.registers.items }
    {
        self.registers.as_slice()
    }

    /// How many turns the loop of each slot still makes, where the instruction is inside it.
    pub fn loops(&self) -> &[u32]
        ensures { result.now ≡ self.now.loops }
    {
        &self.loops
    }
}
