ghost use Rattle.std.specs.Prelude.{◌≡◌, ◌↔◌, ◌<◌, ◌*◌, ◌^◌, ◌≤◌, ℕ, IsTrue, IfOk, IfErr, OnOk, length, slice_index};
ghost use Rattle.x10_kinds.specs.declared.stop.Stop.TheVariants as stop;
ghost use Rattle.x10_model.specs.Totals.{Totals, IsBalanced, IsDoneAt, entry_of, seen_from};
ghost use Rattle.x10_finish.specs.Ledgers.{totals_of};
ghost use Rattle.x10_finish.specs.Books.{Kept, kept_of, IsOpened, MergesCounts, Merges};

use crate::pair_list::PairList;
use crate::pairs::{agrees, first_apart, merge};
use crate::tally::Tally;
use std::alloc::Global;
use std::cell::Cell;
use std::marker::Model;
use x10_frame::Report;
use x10_kinds::Stop;
use x10_model::Finish;

/// What the home of a finish keeps of the reports of other places. It is open from `open` to `close`.
#[derive(Drop)]
pub struct Book {
    finish: Finish,
    places: u16,
    pairs: PairList,
    unequal: usize,
    /// Whether no report was taken in yet, so that no pair has a number.
    blank: bool,
    /// The place that last disagreed with the home: it is looked at before the others.
    hint: Cell<u16>,
}

impl Model for Book {
    ghost use Rattle.x10_finish.specs.Books.{Kept, AreKept};

    ghost Value = { Kept };

    ghost view = { λ b. record { finish = b.finish; places = b.places; pairs = b.pairs } };

    ghost invariant = { λ b. AreKept b.finish.home b.places b.unequal b.blank b.pairs };
}

impl Book {
    /// The book of a finish that was opened at its home, one of `places` places; nothing was reported yet. Takes all the memory
    /// that the book will need: 12 bytes for each pair of places.
    pub fn open(alloc: Global, finish: Finish, places: u16) -> Result<Book, Stop>
        requires { finish.home < places }
        ensures ok { IfOk result (IsOpened finish places) }
        ensures err { IfErr result (λ why. why ≡ stop.Memory) }
    {
        let mut pairs = PairList::new(alloc);
        pairs.zero(usize::from(places) * usize::from(places))?;
        Ok(Book {
            finish,
            places,
            pairs,
            unequal: 0,
            blank: true,
            hint: Cell::new(0),
        })
    }

    /// Makes of the book of a finish that has ended that of one that was opened. Takes constant time where that was one of as many
    /// places, and asks for more memory only where it was one of fewer; where that is refused, nothing has changed.
    #[inline(always)]
    pub fn reopen(&mut self, finish: Finish, places: u16) -> Result<(), Stop>
        requires { finish.home < places }
        ensures ok { OnOk result (IsOpened finish places self.new) }
        ensures err { IfErr result (λ why. (why ≡ stop.Memory) × (self.new ≡ self.old)) }
    {
        self.pairs.zero(usize::from(places) * usize::from(places))?;
        self.finish = finish;
        self.places = places;
        self.unequal = 0;
        self.blank = true;
        self.hint.set(0);
        Ok(())
    }

    /// The finish whose book it is. Constant time.
    pub fn finish(&self) -> Finish
        ensures { result ≡ self.now.finish }
    {
        self.finish
    }

    /// How many places there are. Constant time.
    pub fn places(&self) -> u16
        ensures { result ≡ self.now.places }
    {
        self.places
    }

    /// Takes in what a place reports of the finish: how many activities it sent to each place, and received from each.
    /// Reports may come in any order: the larger of each number is kept. Linear in the number of places; takes no memory.
    pub fn merge_counts(&mut self, from: u16, sent: &[u32], received: &[u32])
        requires place { from < self.old.places }
        requires sent { length sent.now ≡ self.old.places }
        requires received { length received.now ≡ self.old.places }
        ensures { MergesCounts self.old from sent.now received.now self.new }
    {
        let home = usize::from(self.finish.home);
        self.blank = false;
        self.unequal = merge(
            &mut self.pairs,
            self.unequal,
            home,
            usize::from(from),
            sent,
            received,
        );
    }

    /// Takes in a report of the finish, as `merge_counts` does.
    pub fn merge(&mut self, report: &Report)
        requires place { report.now.place < self.old.places }
        requires sent { length report.now.sent.items ≡ self.old.places }
        requires received { length report.now.received.items ≡ self.old.places }
        ensures { Merges self.old report.now self.new }
    {
        self.merge_counts(report.place, &report.sent, &report.received);
    }

    /// Whether what each place sent to another is what the other received from it: by these numbers of the home, and by what was
    /// reported of the other places.
    fn balances(&self, sent: &[u32], received: &[u32]) -> bool
        ensures { (own : Totals) → ((p : ℕ) → slice_index sent.now p ≡ own.sent p)
            → ((p : ℕ) → slice_index received.now p ≡ own.received p)
            → IsTrue result ↔ IsBalanced self.now.places
            (seen_from self.now.finish.home (entry_of own) (kept_of self.now)) }
    {
        if self.unequal != 0 {
            return false;
        }
        if self.blank && sent.is_empty() && received.is_empty() {
            return true;
        }
        let (home, places) = (usize::from(self.finish.home), usize::from(self.places));
        let hint = usize::from(self.hint.get());
        if hint < places && !agrees(&self.pairs, home, places, sent, received, hint) {
            return false;
        }
        match first_apart(&self.pairs, home, self.places, sent, received) {
            Some(apart) => {
                self.hint.set(apart);
                false
            }
            None => true,
        }
    }

    /// Whether what each place sent to another is what the other received from it: by the home's own totals as they are now,
    /// and by what was reported of the other places. Apart from finding the totals, it takes constant time where the answer is
    /// no and neither the totals nor the book has changed since it was last no; otherwise it is linear in the number of places.
    pub fn balanced(&self, tally: &Tally) -> bool
        ensures { IsTrue result ↔ IsBalanced self.now.places
            (seen_from self.now.finish.home (entry_of (totals_of tally.now self.now.finish))
            (kept_of self.now)) }
    {
        let (_, sent, received) = tally.totals(self.finish);
        self.balances(sent, received)
    }

    /// Whether the finish may end: none of its activities lives at its home, and the book is balanced. Takes the time of
    /// `balanced`.
    pub fn done(&self, tally: &Tally) -> bool
        ensures { IsTrue result ↔ IsDoneAt self.now.places self.now.finish.home
            (totals_of tally.now self.now.finish) (kept_of self.now) }
    {
        let (live, sent, received) = tally.totals(self.finish);
        live == 0 && self.balances(sent, received)
    }

    /// The finish has ended: gives the book's memory back, and says whose book it was. Constant time.
    pub fn close(self) -> Finish
        ensures { result ≡ self.finish }
    {
        let Book { finish, .. } = self;
        finish
    }
}
