ghost use Rattle.std.specs.Prelude.{◌≡◌, ◌≢◌, ◌==◌, ◌<◌, ◌≤◌, ◌↔◌, ◌⊎◌, ℕ, true, false, IsTrue, IfOk, IfErr, IfSome, MatchOption, MatchResult, Ok, Err, Some, None};
ghost use Rattle.slab.specs.Slab.{get, slab_len, ContainsKey};
ghost use Rattle.x10_kinds.specs.declared.limit.Limit.{Limit};
ghost use Rattle.x10_kinds.specs.declared.stop.Stop.TheVariants as stop;
ghost use Rattle.x10_place.specs.StandsFor.{PlaceState, store_of, LeadsAll, Keeps, IsIdleAt, IsOverfull, IsHindered, IsFirstAble, IsAt, IsOperation, inside_at, AreOutside, IsInsider};
ghost use Rattle.x10_place.specs.Opening.{IsNew, IsNextKey, Opens, keys_of};
ghost use Rattle.x10_place.specs.Stays.{StayState, IsDoneHere};
ghost use Rattle.x10_place.specs.Messages.{no_sent as nothing_sent};
ghost use Rattle.x10_place.specs.Receiving.{IsTaken, IsRefusedBytes, IsOfFrame, stops};
ghost use Rattle.x10_place.specs.Stretches.{Strides, StridesTo, BeginsLast};
ghost use Rattle.x10_copy.specs.declared.refusal.Refusal.TheVariants as refusal;

use crate::ground::Ground;
use crate::line::Line;
use crate::opening::with_main;
use crate::receiving::is_stop;
use crate::sent::{Sent, no_sent};
use crate::stay::Locality;
use crate::store::Store;
use slab::Slab;
use std::alloc::{AllocError, Global};
use std::marker::Model;
use x10_code::Op;
use x10_copy::Refusal;
use x10_heap::Heap;
use x10_kinds::Stop;
use x10_verify::Verified;

/// What a step did.
#[derive(Drop)]
pub enum Stepped {
    /// Nothing: there is no activity with the key, it is away, another is inside an atomic region, or it waits at the end of
    /// a finish.
    Idle,
    /// One move of the activity, and what it put out.
    Moved(Sent),
}

/// A place: the stays of activities by key, which of them is inside an atomic region, and what they share.
#[derive(Drop)]
pub struct Place<'a> {
    pub(crate) ground: Ground<'a>,
    /// The key of the stay that is inside an atomic region: a step of another key is idle after one comparison. Only `step`
    /// and `run` change it: what comes in, begins or ends is outside, since no instruction that does such things stands in a
    /// region.
    inside: Option<usize>,
    stopped: bool,
}

impl<'a> Model for Place<'a> {
    ghost use Rattle.x10_place.specs.StandsFor.{PlaceState, place_of, IsStanding, IsInsider};

    ghost Value = { PlaceState };

    ghost view = { λ a. place_of a.ground.verified.now a.ground.stays a.ground.store a.stopped };

    ghost invariant = { λ a. IsStanding (place_of a.ground.verified.now a.ground.stays a.ground.store a.stopped) × IsInsider a.ground.stays a.inside };
}

impl<'a> Place<'a> {
    /// One step of the activity with a key, and what it puts out. It is Idle, and nothing has changed, exactly where there
    /// is no such activity, where it is away, where another is inside an atomic region, or where it stands at the end of a
    /// finish that may not end yet. A Stop comes only where a growth was refused, where there can be no more of what the
    /// step would make or send (`x10_kinds::Limit`), or after another Stop; the output is then that of the steps before it.
    ///
    /// Constant time, except that CALL, ASYNC, NEW, RAIL, TEXTK, TCAT and PRINT of a text also copy or fill what they make,
    /// that AT, ATA and a RET that sends a result back copy all that they send, that FINB fills 12 bytes for each pair of
    /// places where more finishes are open here than ever before, that FINE looks at the places where nothing lives under its
    /// finish here, that the book of an open finish is looked up in logarithmic time, that a report has two numbers for each
    /// place, and that a list or table that grows is copied now and then. What makes, prints or sends something takes memory,
    /// and so do CALL, ASYNC and FINB.
    #[inline(always)]
    pub fn step(&mut self, key: usize) -> Result<Stepped, Stop>
        ensures idle { self.old.stopped ≢ true → IsIdleAt self.old key
            → (result ≡ Ok Stepped.Idle) × (self.new ≡ self.old) }
        ensures only { self.old.stopped ≢ true → result ≡ Ok Stepped.Idle → IsIdleAt self.old key }
        ensures some { (a : StayState) → get self.old.stays key ≡ Some a → a.away ≡ false
            → AreOutside self.old.stays key → IfOk result
            (λ stepped. LeadsAll self.old key stepped self.new) }
        ensures stopped { self.old.stopped ≡ true → result ≡ Err stop.Stopped }
        ensures refused { self.old.stopped ≢ true → IfErr result (IsHindered self.old key) }
        ensures full { self.old.stopped ≢ true → (limit : Limit) → IsOverfull self.old key limit
            → result ≡ Err (stop.Limit limit) }
        ensures stop { IfErr result (λ _. self.new ≡ record self.old { stopped = true }) }
        ensures goes { IfOk result (λ _. self.new.stopped ≢ true) }
        ensures kept { Keeps self.old self.new }
    {
        if self.stopped {
            return Err(Stop::Stopped);
        }
        if self.is_kept_out(key) {
            return Ok(Stepped::Idle);
        }
        let made = self.ground.step(&mut self.inside, key);
        self.stopped = made.is_err();
        made
    }

    /// Up to `most` steps of the activity with a key, one after another: as many as come before one that finds nothing to do or
    /// is refused, or up to one that ends the stay, begins an activity or puts something out. How many were made, and what the
    /// last one put out; or, where one was refused, why no more were made. Each is as `step` makes it, and moves; but the
    /// activity is looked up once, and operations of one call frame touch nothing else.
    pub fn run(&mut self, key: usize, most: u64) -> (u64, Result<Sent, Stop>)
        ensures ran { MatchResult result.1 (λ sent. StridesTo key self.old result.0 sent self.new)
            (λ why. (p : PlaceState) × Strides key self.old result.0 p
            × (self.new ≡ record p { stopped = true })
            × (self.old.stopped ≢ true → IsHindered p key why)) }
        ensures few { result.0 ≤ most }
        ensures all { IfOk result.1 (λ sent. result.0 < most
            → IsIdleAt self.new key ⊎ BeginsLast key self.old result.0 self.new
            ⊎ (sent ≢ nothing_sent)) }
        ensures stopped { self.old.stopped ≡ true → (result.0 ≡ 0) × (result.1 ≡ Err stop.Stopped) }
        ensures goes { IfOk result.1 (λ _. self.new.stopped ≢ true) }
        ensures kept { Keeps self.old self.new }
    {
        if self.stopped {
            return (0, Err(Stop::Stopped));
        }
        if self.is_kept_out(key) {
            return (0, Ok(no_sent()));
        }
        let (done, last) = self.ground.run_activity(&mut self.inside, key, most);
        self.stopped = last.is_err();
        (done, last)
    }
}

impl<'a> Place<'a> {
    /// Takes in bytes that come from a place: those of the frame of a message, by which an activity begins or goes on, or of a
    /// report of what was counted of a finish. Bytes of any kind may come: what isn't such a frame for this place, or doesn't
    /// fit it, is refused, and the first fault is reported. A report of a finish that was closed changes nothing. After a
    /// refusal for lack of memory or at a limit the place has stopped; after any other one it is as before. Linear in the
    /// bytes; takes memory.
    pub fn receive(&mut self, bytes: &[u8]) -> Result<(), Refusal>
        ensures ok { IfOk result (λ _. IsTaken self.old bytes.now self.new) }
        ensures refused { self.old.stopped ≢ true → IfErr result
            (IsRefusedBytes self.old bytes.now) }
        ensures read { self.old.stopped ≢ true → IfErr result
            (IsOfFrame self.old.places bytes.now) }
        ensures stopped { self.old.stopped ≡ true → result ≡ Err refusal.Stopped }
        ensures left { IfErr result (λ why. self.new ≡ record self.old { stopped = stops why }) }
        ensures goes { IfOk result (λ _. self.new.stopped ≢ true) }
        ensures kept { Keeps self.old self.new }
    {
        if self.stopped {
            return Err(Refusal::Stopped);
        }
        let taken = self.ground.receive(bytes);
        if let Err(why) = taken {
            self.stopped = is_stop(why);
        }
        taken
    }
}

impl<'a> Place<'a> {
    /// A place at the beginning: main at place 0, no activity elsewhere. The number of places is one that the module permits
    /// (`enough`), since PLACEK writes a number below the module's least one, which has to be a place of the run. Takes
    /// memory only at place 0.
    pub fn new(
        alloc: Global,
        verified: &'a Verified<'a>,
        id: u16,
        places: u16,
    ) -> Result<Place<'a>, AllocError>
        requires within { id < places }
        requires enough { verified.now.program.least_places ≤ places }
        requires few { places ≤ 64 }
        ensures fields { IfOk result (IsNew verified.now id places) }
        ensures elsewhere { IfErr result (λ _. id ≡ 0) }
        ensures opening { IfOk result Opens }
    {
        verified.certificate();
        verified.assignments();
        let stays = if id == 0 {
            with_main(alloc, verified)?
        } else {
            Slab::new(alloc)
        };
        let Ok(store) = Store::new(alloc, Locality { here: id, places }) else {
            return Err(AllocError);
        };
        Ok(Place {
            ground: Ground {
                alloc,
                verified,
                stays,
                store,
            },
            inside: None,
            stopped: false,
        })
    }

    /// The least key in use that is not below a number. Linear in the keys that it passes over.
    pub fn next_key(&self, from: usize) -> Option<usize>
        ensures { MatchOption result ((k : ℕ) → from ≤ k → get self.now.stays k ≡ None)
            (IsNextKey self.now.stays from) }
    {
        for key in from..self.ground.stays.capacity() {
            if self.ground.stays.contains(key) {
                return Some(key);
            }
        }
        None
    }

    /// The keys in use, by rising number. Linear in the keys that were ever in use at once; takes memory for the list.
    pub fn keys(&self, alloc: Global) -> Result<Vec<usize>, AllocError>
        ensures { IfOk result (λ keys. keys.items ≡ keys_of self.now.stays) }
    {
        let mut keys = Vec::with_capacity(alloc, self.live())?;
        for (key, _) in self.ground.stays.iter() {
            keys.push(key)?;
        }
        Ok(keys)
    }

    /// How many activities are here. Constant time.
    #[inline(always)]
    pub fn live(&self) -> usize
        ensures { result ≡ slab_len self.now.stays }
    {
        self.ground.stays.len()
    }

    /// Whether no activity is here. Constant time.
    #[inline(always)]
    pub fn is_empty(&self) -> bool
        ensures { result ≡ (slab_len self.now.stays == 0) }
    {
        self.ground.stays.is_empty()
    }

    /// Whether there is an activity with a key. Constant time.
    #[inline(always)]
    pub fn contains(&self, key: usize) -> bool
        ensures { IsTrue result ↔ ContainsKey self.now.stays key }
    {
        self.ground.stays.contains(key)
    }

    /// The key that the next activity that begins here gets. Constant time.
    #[inline(always)]
    pub fn vacant_key(&self) -> usize
        ensures value { result ≡ self.now.stays.vacant_key }
        ensures vacant { get self.now.stays result ≡ None }
    {
        self.ground.stays.vacant_key()
    }

    /// The key of the activity that is inside an atomic region: no other of this place moves until it has left it. Constant
    /// time.
    #[inline(always)]
    pub fn inside(&self) -> Option<usize>
        ensures { IsInsider self.now.stays result }
    {
        self.inside
    }

    /// Whether another activity than that with a key is inside an atomic region.
    #[inline(always)]
    fn is_kept_out(&self, key: usize) -> bool
        ensures out { IsTrue result → (other : ℕ) × (inside_at self.now.stays other ≡ true)
            × (other ≢ key) }
        ensures free { result ≡ false → AreOutside self.now.stays key }
    {
        match self.inside {
            Some(other) => other != key,
            None => false,
        }
    }

    /// The function and the number of the instruction at which the activity with a key stands, and its operation.
    /// Constant time.
    pub fn at(&self, key: usize) -> Option<(u16, u16, Op)>
        ensures place { MatchOption result (get self.now.stays key ≡ None)
            (λ at. IsAt self.now.stays key at.0 at.1) }
        ensures op { IfSome result (λ at. IsOperation self.now.program at.0 at.1 at.2) }
    {
        let stay = self.ground.stays.get(key)?;
        let top = stay.frame();
        let (function, pc) = (top.function, top.pc);
        let instr = self
            .ground
            .verified
            .fetch(usize::from(function), usize::from(pc));
        Some((function, pc, instr.op))
    }

    /// Whether a step of the activity with a key would find nothing to do: there is none, it is away, another is inside an
    /// atomic region, or it stands at the end of a finish that may not end yet. Takes what `step` takes to find that out.
    pub fn is_idle(&self, key: usize) -> bool
        ensures { IsTrue result ↔ IsIdleAt self.now key }
    {
        if self.is_kept_out(key) {
            return true;
        }
        let verified = self.ground.verified;
        verified.certificate();
        match self.ground.stays.get(key) {
            Some(stay) => stay.away || stay.is_waiting(verified, &self.ground.store),
            None => true,
        }
    }

    /// The least key of an activity that can move; none where none can. Takes what `is_idle` takes for each key that it passes
    /// over.
    pub fn first_able(&self) -> Option<usize>
        ensures { MatchOption result ((key : ℕ) → IsIdleAt self.now key) (IsFirstAble self.now) }
    {
        for key in 0..self.ground.stays.capacity() {
            if !self.is_idle(key) {
                return Some(key);
            }
        }
        None
    }

    /// The lines of output so far.
    pub fn output(&self) -> &[Line]
        ensures { result.now ≡ self.now.lines }
    {
        &self.ground.store.lines
    }

    /// What the activities here share. Constant time.
    pub fn heap(&self) -> &Heap
        ensures { result.now ≡ self.now.heap }
    {
        &self.ground.store.heap
    }

    /// Whether the root finish may end: at place 0, whether no activity under it lives here, and as many have come to each
    /// place as were sent there, as far as was reported; elsewhere false. Logarithmic time in the finishes that are open,
    /// but linear in the places where no activity lives here.
    pub fn closed(&self) -> bool
        ensures { IsTrue result ↔ ((self.now.id ≡ 0) × IsDoneHere (store_of self.now) 0) }
    {
        let here = self.ground.store.locality().here;
        here == 0 && self.ground.store.is_done(0)
    }
}
