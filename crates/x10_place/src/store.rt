//! What a place keeps for all its stays.
ghost use Rattle.std.specs.Prelude.{◌≡◌, ◌≤◌, ◌<◌, ◌^◌, ◌++◌, ◌∷◌, [], ◌⊎◌, ◌↔◌, ◌+◌, true, false, None, Err, IfErr, IfOk, IfNone, IfSome, IsTrue, MatchOption, OnErr, OnOk, Some, length, slice_index, ℕ};
ghost use Rattle.x10_heap.specs.Heaps.{IsFull};
ghost use Rattle.x10_finish.specs.Counts.{IsLargest};
ghost use Rattle.x10_finish.specs.Ledgers.{gives_report, AreDue};
ghost use Rattle.x10_kinds.specs.declared.limit.Limit.TheVariants as limits;
ghost use Rattle.x10_kinds.specs.declared.stop.Stop.TheVariants as stop;
ghost use Rattle.x10_model.specs.Maps.{with_entry};
ghost use Rattle.x10_model.specs.Totals.{zeros, nothing, begins_one, ends_one, sends_to};
ghost use Rattle.x10_place.specs.Opening.{IsNewStore};
ghost use Rattle.x10_place.specs.Stays.{book_at, finish_at, totals_in, books_in, changed_at, Recounts, HasBook, IsDoneHere};
ghost use Rattle.x10_place.specs.Receiving.{report_of};
ghost use Rattle.x10_place.specs.Arrivals.{Merges, IsOpenHere, Comes, IsKeptOut};

use crate::books::Books;
use crate::call_frame::{CallFrame, first_frame};
use crate::line::Line;
use crate::stay::Locality;
use std::alloc::{AllocError, Global};
use std::marker::Model;
use x10_copy::Marks;
use x10_finish::{Book, Tally};
use x10_heap::Heap;
use x10_kinds::{Limit, Stop};
use x10_model::Finish;

/// What a place keeps for all its stays: the heap, the lines of output, and how many finishes it opened; what it has
/// counted of each finish, and a book of each that it opened and that is open; which parts of the heap the last message took
/// along; and the call frames of functions that ended, for those to come.
#[derive(Drop)]
pub(crate) struct Store {
    alloc: Global,
    pub(crate) heap: Heap,
    pub(crate) lines: Vec<Line>,
    opened: u32,
    tally: Tally,
    books: Books,
    pub(crate) marks: Marks,
    /// A call or an activity that begins takes one of these, so that calls in a loop ask for no more memory.
    spare: Vec<Box<CallFrame>>,
}

impl Model for Store {
    ghost use Rattle.x10_place.specs.Stays.{StoreState, AreBooks};

    ghost Value = { StoreState };

    ghost view = { λ s. record { heap = s.heap; lines = s.lines.items; opened = s.opened; here = s.tally.place; places = s.tally.places; ledger = s.tally; books = s.books } };

    ghost invariant = { λ s. AreBooks s.tally.place s.tally.places s.books };
}

impl Store {
    /// Nothing yet, except that place 0 begins with main under the root finish. Takes memory only at place 0.
    pub(crate) fn new(alloc: Global, locality: Locality) -> Result<Store, Stop>
        requires { locality.here < locality.places }
        ensures ok { IfOk result (IsNewStore locality.here locality.places) }
        ensures err { IfErr result (λ _. locality.here ≡ 0) }
    {
        let mut store = Store {
            alloc,
            heap: Heap::new(alloc),
            lines: Vec::new(alloc),
            opened: 0,
            tally: Tally::new(alloc, locality.here, locality.places),
            books: Books::new(alloc),
            marks: Marks::new(alloc),
            spare: Vec::new(alloc),
        };
        if locality.here == 0 {
            store.open_finish(0)?;
            store.begin(Finish { home: 0, number: 0 })?;
        }
        Ok(store)
    }

    /// Which place it is, of how many.
    #[inline(always)]
    pub(crate) fn locality(&self) -> Locality
        ensures here { result.here ≡ self.now.here }
        ensures places { result.places ≡ self.now.places }
    {
        Locality {
            here: self.tally.place(),
            places: self.tally.places(),
        }
    }

    /// One more line. Where memory is refused, nothing has changed.
    pub(crate) fn print(&mut self, line: Line) -> Result<(), AllocError>
        ensures ok { OnOk result (self.new ≡ record self.old
            { lines = self.old.lines ++ line ∷ [] }) }
        ensures err { OnErr result (self.new ≡ self.old) }
    {
        self.lines.push(line)?;
        Ok(())
    }

    /// A call frame with at least `count` registers, which hold any words, at any instruction: that of a function that ended,
    /// if there is one.
    #[inline(always)]
    pub(crate) fn frame(
        &mut self,
        alloc: Global,
        count: usize,
    ) -> Result<Box<CallFrame>, AllocError>
        ensures count { IfOk result (λ frame. count ≤ length frame.value.registers.items) }
        ensures kept { self.new ≡ self.old }
    {
        let Some(mut frame) = self.spare.pop() else {
            self.spare.reserve(1)?;
            return first_frame(alloc, 0, count);
        };
        if frame.registers.len() < count {
            frame.registers.resize(count, 0)?;
        }
        Ok(frame)
    }

    /// Takes the call frame of a function that ended. Takes no memory: where there is no room for it, it is dropped.
    #[inline(always)]
    pub(crate) fn keep(&mut self, frame: Box<CallFrame>)
        ensures { self.new ≡ self.old }
    {
        if self.spare.len() < self.spare.capacity() {
            self.spare.push_reserved(frame);
        }
    }
}

impl Store {
    /// Whether a finish with the number was opened here. Constant time.
    pub(crate) fn was_opened(&self, number: u32) -> bool
        ensures { IsTrue result ↔ (number < self.now.opened) }
    {
        number < self.opened
    }

    /// Whether there is a book of the finish with a number: whether it is open here.
    pub(crate) fn has_book(&self, number: u32) -> bool
        ensures { IsTrue result ↔ HasBook (books_in self.now) number }
    {
        self.books.get(number).is_some()
    }

    /// Whether a finish is open, if it is one of this place.
    pub(crate) fn is_open(&self, finish: Finish) -> bool
        ensures { IsTrue result ↔ IsOpenHere self.now finish }
    {
        finish.home != self.tally.place() || self.has_book(finish.number)
    }

    /// An activity that a place put out under a finish begins here. Where it is refused, nothing has changed.
    pub(crate) fn come(&mut self, finish: Finish, from: u16) -> Result<(), Stop>
        requires { from < self.old.places }
        ensures ok { OnOk result (Comes self.old from finish self.new) }
        ensures err { IfErr result (λ why. (self.new ≡ self.old)
            × IsKeptOut self.old from finish why) }
    {
        self.tally.came(finish, from)
    }

    /// The book of a finish that is open here takes in what a place reports: how many it sent to each place, and received
    /// from each. Takes no memory.
    pub(crate) fn merge(&mut self, from: u16, number: u32, sent: &[u32], received: &[u32])
        requires place { from < self.old.places }
        requires sent { length sent.now ≡ self.old.places }
        requires received { length received.now ≡ self.old.places }
        ensures { Merges self.old (report_of from number sent.now received.now) self.new }
    {
        self.books.merge(number, from, sent, received);
    }
}

impl Store {
    /// The finish with a number that was opened here.
    fn finish(&self, number: u32) -> Finish
        ensures { result ≡ finish_at self.now.here number }
    {
        Finish {
            home: self.tally.place(),
            number,
        }
    }

    /// The number that the next finish takes, if there can be one more.
    pub(crate) fn next_number(&self) -> Result<u32, Stop>
        ensures ok { IfOk result (λ number. (number ≡ self.now.opened) × (number + 1 < 2 ^ 32)) }
        ensures err { IfErr result (λ why. (why ≡ stop.Limit limits.Finishes)
            × IsFull self.now.opened) }
        ensures full { IsFull self.now.opened → result ≡ Err (stop.Limit limits.Finishes) }
    {
        if self.opened == u32::MAX {
            return Err(Stop::Limit(Limit::Finishes));
        }
        Ok(self.opened)
    }

    /// Opens the finish with the next number. Where memory is refused, nothing has changed.
    pub(crate) fn open_finish(&mut self, number: u32) -> Result<(), Stop>
        requires next { number ≡ self.old.opened }
        requires few { number + 1 < 2 ^ 32 }
        requires within { self.old.here < self.old.places }
        ensures ok { OnOk result (Recounts self.old self.new (self.old.opened + 1)
            (totals_in self.old) (with_entry (books_in self.old) self.old.opened
            (Some (λ p. zeros)))) }
        ensures err { IfErr result (λ why. (self.new ≡ self.old) × (why ≡ stop.Memory)) }
    {
        let (finish, places) = (self.finish(number), self.tally.places());
        self.books.open(finish, places)?;
        self.opened = number + 1;
        Ok(())
    }

    /// Whether a finish that is open here may end.
    pub(crate) fn is_done(&self, number: u32) -> bool
        requires { HasBook (books_in self.now) number }
        ensures { IsTrue result ↔ IsDoneHere self.now number }
    {
        match self.books.get(number) {
            Some(book) => book.done(&self.tally),
            None => false,
        }
    }

    /// Closes a finish that is open here: its book is dropped, and what was counted of it. Takes no memory.
    pub(crate) fn close_finish(&mut self, number: u32)
        ensures { Recounts self.old self.new self.old.opened
            (changed_at (totals_in self.old) (finish_at self.old.here number) (λ t. nothing))
            (with_entry (books_in self.old) number None) }
    {
        let finish = self.finish(number);
        self.books.close(number);
        self.tally.forget(finish);
    }

    /// What was counted of a finish: how many activities under it live here, were sent to each place, and came from each.
    pub(crate) fn counts(&self, finish: Finish) -> (u32, &[u32], &[u32])
        ensures live { result.0 ≡ (totals_in self.now finish).live }
        ensures sent { (p : ℕ) → slice_index result.1.now p ≡ (totals_in self.now finish).sent p }
        ensures received { (p : ℕ) → slice_index result.2.now p
            ≡ (totals_in self.now finish).received p }
    {
        self.tally.totals(finish)
    }

    /// The book of the finish with a number, if it is open here.
    pub(crate) fn book(&self, number: u32) -> Option<&Book>
        ensures { MatchOption result (book_at self.now.books number ≡ None)
            (λ book. book_at self.now.books number ≡ Some book.now) }
    {
        self.books.get(number)
    }

    /// How many activities under a finish live here.
    pub(crate) fn live(&self, finish: Finish) -> u32
        ensures { result ≡ (totals_in self.now finish).live }
    {
        self.tally.live(finish)
    }

    /// An activity begins here under a finish. Where it is refused, nothing has changed.
    pub(crate) fn begin(&mut self, finish: Finish) -> Result<(), Stop>
        ensures ok { OnOk result (Recounts self.old self.new self.old.opened
            (changed_at (totals_in self.old) finish begins_one) (books_in self.old)) }
        ensures err { IfErr result (λ why. (self.new ≡ self.old)
            × ((why ≡ stop.Memory) ⊎ ((why ≡ stop.Limit limits.Activities)
            × IsLargest (totals_in self.old finish).live))) }
    {
        self.tally.began(finish)
    }

    /// How many activities were sent to a place under a finish.
    pub(crate) fn sent(&self, finish: Finish, to: u16) -> u32
        ensures { result ≡ (totals_in self.now finish).sent to }
    {
        match self.tally.sent(finish).get(usize::from(to)) {
            Some(count) => *count,
            None => 0,
        }
    }

    /// An activity is sent to a place under a finish, or goes on there. Where it is refused, nothing has changed.
    pub(crate) fn spawned(&mut self, finish: Finish, to: u16) -> Result<(), Stop>
        requires { to < self.old.places }
        ensures ok { OnOk result (Recounts self.old self.new self.old.opened
            (changed_at (totals_in self.old) finish (λ t. sends_to t to))
            (books_in self.old)) }
        ensures err { IfErr result (λ why. (self.new ≡ self.old)
            × ((why ≡ stop.Memory) ⊎ ((why ≡ stop.Limit limits.Activities)
            × IsLargest ((totals_in self.old finish).sent to)))) }
    {
        self.tally.spawned(finish, to)
    }

    /// What is reported to the home of a finish when one more activity under it ends here, if anything is: how many were sent
    /// to each place, and received from each.
    pub(crate) fn due(&self, finish: Finish) -> Option<(&[u32], &[u32])>
        requires { 0 < (totals_in self.now finish).live }
        ensures none { IfNone result (gives_report self.now.ledger finish ≡ false) }
        ensures some { IfSome result (λ x. (gives_report self.now.ledger finish
            ≡ true) × AreDue self.now.ledger finish x.0.now x.1.now) }
        ensures here { self.now.ledger.place ≡ self.now.here }
        ensures places { self.now.ledger.places ≡ self.now.places }
    {
        self.tally.due(finish)
    }

    /// An activity under a finish ends here. Takes no memory.
    pub(crate) fn end(&mut self, finish: Finish)
        requires { 0 < (totals_in self.old finish).live }
        ensures { Recounts self.old self.new self.old.opened
            (changed_at (totals_in self.old) finish ends_one) (books_in self.old) }
    {
        self.tally.left(finish);
    }
}
