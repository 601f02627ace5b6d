ghost use Rattle.std.specs.Prelude.{◌≡◌, ◌+◌, ◌^◌, ◌<◌, ◌⊎◌, ℕ, true, false, IfErr, IfOk, IfNone, IfSome, OnOk, OnErr, Err, None, Some, if◌then◌else◌, length, slice_index};
ghost use Rattle.x10_kinds.specs.declared.limit.Limit.TheVariants as limits;
ghost use Rattle.x10_kinds.specs.declared.stop.Stop.TheVariants as stop;
ghost use Rattle.x10_model.specs.Totals.{nothing, begins_one, ends_one, sends_to, receives_from};
ghost use Rattle.x10_finish.specs.Counts.{Fits, IsFull, IsLargest, changed};
ghost use Rattle.x10_finish.specs.declared.count.Change.TheVariants as change;
ghost use Rattle.x10_finish.specs.Ledgers.{Ledger, count_of, totals_of, is_met, Counts, Forgets, Refuses, gives_report, AreDue, IsAnswer};

use crate::count::{Change, Count};
use crate::met::Met;
use std::alloc::Global;
use std::marker::Model;
use x10_frame::Report;
use x10_kinds::Stop;
use x10_model::Finish;

/// What one place counts of each finish that it met. Clauses see the totals of each finish. The finish that was met last is found
/// without a search, and another one by its hash, in constant time as a rule; each call takes that time unless it says otherwise.
/// The hash is the same in every run, so whoever may choose the numbers of finishes can choose ones whose hashes collide; a
/// machine's own finishes are numbered one after another. A finish is met where it is counted for the first time, which takes
/// memory for two numbers for each place, and now and then a larger table; afterwards counting takes none.
#[derive(Drop)]
pub struct Tally {
    alloc: Global,
    place: u16,
    places: u16,
    counts: Met,
}

impl Model for Tally {
    ghost use Rattle.x10_finish.specs.Ledgers.{Ledger, AreWhole};

    ghost Value = { Ledger };

    ghost view = { λ t. record { place = t.place; places = t.places; counts = t.counts } };

    ghost invariant = { λ t. AreWhole t.places t.counts };
}

impl Tally {
    /// The tally of a place that has counted nothing, one of `places` places.
    pub fn new(alloc: Global, place: u16, places: u16) -> Tally
        ensures place { result.place ≡ place }
        ensures places { result.places ≡ places }
        ensures totals { (f : Finish) → totals_of result f ≡ nothing }
        ensures met { (f : Finish) → is_met result f ≡ false }
    {
        Tally {
            alloc,
            place,
            places,
            counts: Met::new(alloc),
        }
    }

    /// The number of the place. Constant time.
    pub fn place(&self) -> u16
        ensures { result ≡ self.now.place }
    {
        self.place
    }

    /// How many places there are. Constant time.
    pub fn places(&self) -> u16
        ensures { result ≡ self.now.places }
    {
        self.places
    }

    fn count(&mut self, finish: Finish, change: Change) -> Result<(), Stop>
        requires { Fits change self.old.places }
        ensures ok { OnOk result (Counts self.old finish (changed change) self.new) }
        ensures full { IsFull change (totals_of self.old finish)
            → result ≡ Err (stop.Limit limits.Activities) }
        ensures err { IfErr result (λ why. (self.new ≡ self.old)
            × Refuses (is_met self.old finish)
            (IsFull change (totals_of self.old finish)) why) }
    {
        if let Some(counted) = self.counts.count(finish, change) {
            return counted;
        }
        self.counts.meet(finish, self.places)?;
        match self.counts.count(finish, change) {
            Some(counted) => counted,
            None => Ok(()),
        }
    }

    /// Makes room to count a finish: afterwards counting it is refused only by a limit. Nothing is counted.
    pub fn meet(&mut self, finish: Finish) -> Result<(), Stop>
        ensures ok { OnOk result (Counts self.old finish (λ t. t) self.new) }
        ensures err { IfErr result (λ why. (self.new ≡ self.old) × (why ≡ stop.Memory)
            × (is_met self.old finish ≡ false)) }
    {
        if self.counts.get(finish).is_some() {
            return Ok(());
        }
        self.counts.meet(finish, self.places)
    }

    /// An activity is put out to a place under a finish, or shifts there.
    pub fn spawned(&mut self, finish: Finish, to: u16) -> Result<(), Stop>
        requires { to < self.old.places }
        ensures ok { OnOk result (Counts self.old finish (λ t. sends_to t to) self.new) }
        ensures full { IsLargest ((totals_of self.old finish).sent to)
            → result ≡ Err (stop.Limit limits.Activities) }
        ensures err { IfErr result (λ why. (self.new ≡ self.old)
            × Refuses (is_met self.old finish)
            (IsLargest ((totals_of self.old finish).sent to)) why) }
    {
        self.count(finish, Change::Sends(to))
    }

    /// An activity that a place put out under a finish, or that shifted from there, arrives and begins.
    pub fn came(&mut self, finish: Finish, from: u16) -> Result<(), Stop>
        requires { from < self.old.places }
        ensures ok { OnOk result (Counts self.old finish
            (λ t. receives_from t from) self.new) }
        ensures full { IsFull (change.Receives from) (totals_of self.old finish)
            → result ≡ Err (stop.Limit limits.Activities) }
        ensures err { IfErr result (λ why. (self.new ≡ self.old)
            × Refuses (is_met self.old finish)
            (IsFull (change.Receives from) (totals_of self.old finish)) why) }
    {
        self.count(finish, Change::Receives(from))
    }

    /// An activity begins here under a finish, put out by this place.
    pub fn began(&mut self, finish: Finish) -> Result<(), Stop>
        ensures ok { OnOk result (Counts self.old finish begins_one self.new) }
        ensures full { IsLargest (totals_of self.old finish).live
            → result ≡ Err (stop.Limit limits.Activities) }
        ensures err { IfErr result (λ why. (self.new ≡ self.old)
            × Refuses (is_met self.old finish)
            (IsLargest (totals_of self.old finish).live) why) }
    {
        self.count(finish, Change::Begins)
    }

    /// What is reported to the home of a finish when one more activity ends here: how many were sent to each place and received
    /// from each, where that is the last one and the home is elsewhere. Nothing is counted yet.
    pub fn due(&self, finish: Finish) -> Option<(&[u32], &[u32])>
        requires { 0 < (totals_of self.now finish).live }
        ensures none { IfNone result (gives_report self.now finish ≡ false) }
        ensures some { IfSome result (λ x. (gives_report self.now finish ≡ true)
            × AreDue self.now finish x.0.now x.1.now) }
    {
        let count = self.counts.get(finish)?;
        if finish.home == self.place || count.live != 1 {
            return None;
        }
        Some((&count.sent, &count.received))
    }

    /// The report that goes to the home of a finish when one more activity ends here, as `due` says. The report takes memory
    /// for two numbers for each place.
    pub fn leaving(&self, finish: Finish) -> Result<Option<Report>, Stop>
        requires { 0 < (totals_of self.now finish).live }
        ensures ok { IfOk result (IsAnswer self.now finish) }
        ensures err { IfErr result (λ why. (why ≡ stop.Memory)
            × (gives_report self.now finish ≡ true)) }
    {
        let Some((sent, received)) = self.due(finish) else {
            return Ok(None);
        };
        let Ok(sent) = Vec::from_slice(self.alloc, sent) else {
            return Err(Stop::Memory);
        };
        let Ok(received) = Vec::from_slice(self.alloc, received) else {
            return Err(Stop::Memory);
        };
        Ok(Some(Report {
            place: self.place,
            number: finish.number,
            sent,
            received,
        }))
    }

    /// An activity under a finish ends here. Takes no memory and sends nothing.
    pub fn left(&mut self, finish: Finish)
        requires { 0 < (totals_of self.old finish).live }
        ensures { Counts self.old finish ends_one self.new }
    {
        self.counts.end(finish);
    }

    /// An activity under a finish ends here; the answer is what `leaving` answers.
    pub fn ended(&mut self, finish: Finish) -> Result<Option<Report>, Stop>
        requires { 0 < (totals_of self.old finish).live }
        ensures counted { OnOk result (Counts self.old finish ends_one self.new) }
        ensures report { IfOk result (IsAnswer self.old finish) }
        ensures err { IfErr result (λ why. (self.new ≡ self.old) × (why ≡ stop.Memory)
            × (gives_report self.old finish ≡ true)) }
    {
        let report = self.leaving(finish)?;
        self.left(finish);
        Ok(report)
    }

    /// A finish has ended at its home: what was counted of it is dropped. Its memory is kept for the next one that is met, or
    /// given back where some is kept.
    pub fn forget(&mut self, finish: Finish)
        ensures { Forgets self.old finish self.new }
    {
        self.counts.forget(finish);
    }

    /// What was counted of a finish, by one look: how many of its activities live here, how many were sent to each place, and how
    /// many came from each; no numbers where the finish was not met yet.
    #[inline(always)]
    pub fn totals(&self, finish: Finish) -> (u32, &[u32], &[u32])
        ensures live { result.0 ≡ (totals_of self.now finish).live }
        ensures sent { (p : ℕ) → slice_index result.1.now p
            ≡ (totals_of self.now finish).sent p }
        ensures received { (p : ℕ) → slice_index result.2.now p
            ≡ (totals_of self.now finish).received p }
    {
        match self.counts.get(finish) {
            Some(count) => (count.live, &count.sent, &count.received),
            None => (0, &[], &[]),
        }
    }

    /// How many activities under a finish live here.
    pub fn live(&self, finish: Finish) -> u32
        ensures { result ≡ (totals_of self.now finish).live }
    {
        match self.counts.get(finish) {
            Some(count) => count.live,
            None => 0,
        }
    }

    /// How many were sent to each place, or no numbers where the finish was not met yet.
    pub fn sent(&self, finish: Finish) -> &[u32]
        ensures numbers { (p : ℕ) → slice_index result.now p
            ≡ (totals_of self.now finish).sent p }
        ensures length { length result.now ≡ (if is_met self.now
            finish then self.now.places else 0) }
    {
        match self.counts.get(finish) {
            Some(count) => &count.sent,
            None => &[],
        }
    }

    /// How many came from each place, or no numbers where the finish was not met yet.
    pub fn received(&self, finish: Finish) -> &[u32]
        ensures numbers { (p : ℕ) → slice_index result.now p
            ≡ (totals_of self.now finish).received p }
        ensures length { length result.now ≡ (if is_met self.now
            finish then self.now.places else 0) }
    {
        match self.counts.get(finish) {
            Some(count) => &count.received,
            None => &[],
        }
    }
}
