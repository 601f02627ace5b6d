//! The frames in flight of a run, by number and by receiver.

ghost use Rattle.std.specs.Prelude.{◌≡◌, ◌↔◌, ℕ, true, ◌+◌, ◌<◌, ◌≤◌, ◌^◌, ◌⊎◌, [], IfOk, IfErr, IfSome, IfNone, MatchOption, Some, None, Err};
ghost use Rattle.x10_kinds.specs.declared.limit.Limit.TheVariants as limits;
ghost use Rattle.x10_kinds.specs.declared.stop.Stop.TheVariants as stop;
ghost use Rattle.x10_flights.specs.PlaceSets.{has_place};
ghost use Rattle.x10_flights.specs.Flights.{flight_of, flies_to, posted_to, taken_from, with_room, IsNext, AreInOrder};

use crate::place_set::PlaceSet;
use crate::queue::{Queue, open_queues, widen};
use crate::table::Table;
use std::alloc::{AllocError, Global};
use std::marker::Model;
use x10_kinds::{Limit, Stop};

/// No place: there are at most 64, and they count from 0.
const NONE: u16 = 65_535;

/// The frames in flight of a run, by number and by receiver. Frames are numbered from 0 in the order in which they are
/// posted. Memory is taken for the most frames that were in flight at once, not for all that ever were: slots of frames that
/// were taken are kept for no more frames than are in flight, or for 16.
#[derive(Drop)]
pub struct Flights {
    table: Table,
    queues: Vec<Queue>,
    /// How many frames can be posted before room is made again, at most two.
    room: u8,
    /// The places that were posted to since room was made, the latest first: all other queues have room for two.
    first: u16,
    second: u16,
    /// The places with frames in flight to them.
    awaited: PlaceSet,
}

impl Model for Flights {
    ghost use Rattle.std.specs.Prelude.{length};
    ghost use Rattle.x10_flights.specs.Flights.{FlightsState, AreFiled};

    ghost Value = { FlightsState };

    ghost view = { λ f. record { places = length f.queues.items; posted = f.table.posted; room = f.room; flying = f.table.flying } };

    ghost invariant = { λ f. AreFiled f.queues.items f.table f.room f.first f.second f.awaited };
}

impl Flights {
    /// Nothing was posted, and nothing is in flight. Takes memory for four numbers for each place.
    pub fn new(alloc: Global, places: u16) -> Result<Flights, AllocError>
        requires { places ≤ 64 }
        ensures { IfOk result (λ flights. flights ≡ record {
          places = places;
          posted = 0;
          room = 0;
          flying = [];
        }) }
    {
        let queues = open_queues(alloc, places)?;
        Ok(Flights {
            table: Table::new(alloc),
            queues,
            room: 0,
            first: NONE,
            second: NONE,
            awaited: PlaceSet::new(),
        })
    }

    /// How many frames were posted. Constant time.
    #[inline(always)]
    pub fn posted(&self) -> u64
        ensures value { result ≡ self.now.posted }
        ensures order { AreInOrder self.now }
    {
        self.table.posted()
    }

    /// Makes room for two more frames, which then cannot be refused. Constant time where there is room, and amortized.
    #[inline(always)]
    pub fn make_room(&mut self) -> Result<(), Stop>
        ensures ok { IfOk result (λ _. self.new ≡ with_room self.old) }
        ensures err { IfErr result (λ why. (self.new ≡ self.old)
            × ((why ≡ stop.Memory) ⊎ (why ≡ stop.Limit limits.Frames))) }
        ensures limit { (result ≡ Err (stop.Limit limits.Frames)) ↔ (2 ^ 64 ≤ self.old.posted + 2) }
    {
        if self.room == 2 {
            return Ok(());
        }
        if self.table.posted() > u64::MAX - 2 {
            return Err(Stop::Limit(Limit::Frames));
        }
        self.table.make_room()?;
        widen(&mut self.queues, self.first)?;
        widen(&mut self.queues, self.second)?;
        self.room = 2;
        self.first = NONE;
        self.second = NONE;
        Ok(())
    }

    /// Puts a frame out to a place, under the next number. Constant time; takes no memory.
    #[inline(always)]
    pub fn post(&mut self, to: u16, bytes: Vec<u8>)
        requires room { 0 < self.old.room }
        requires place { to < self.old.places }
        ensures { self.new ≡ posted_to self.old to bytes.items }
    {
        let number = self.table.posted();
        let queue = &mut self.queues[usize::from(to)];
        queue.push(number);
        self.awaited.insert(to);
        self.table.post(to, bytes);
        self.second = self.first;
        self.first = to;
        self.room -= 1;
    }

    /// Where the frame with a number goes, and its bytes. Logarithmic in the number of frames in flight.
    pub fn get(&self, number: u64) -> Option<(u16, &[u8])>
        ensures { MatchOption result (flight_of self.now number ≡ None)
            (λ x. flight_of self.now number ≡ Some
            (record { number = number; to = x.0; bytes = x.1.now })) }
    {
        self.table.get(number)
    }

    /// Takes the frame with a number out of flight. Logarithmic in the number of frames in flight, amortized; takes no memory.
    pub fn take(&mut self, number: u64) -> Option<(u16, Vec<u8>)>
        ensures none { IfNone result ((flight_of self.old number ≡ None) × (self.new ≡ self.old)) }
        ensures some { IfSome result (λ x. (flight_of self.old number ≡ Some
            (record { number = number; to = x.0; bytes = x.1.items }))
            × (self.new ≡ taken_from self.old number)) }
    {
        let Some((to, bytes)) = self.table.take(number) else {
            return None;
        };
        self.table.sweep();
        let queue = &mut self.queues[usize::from(to)];
        queue.sweep(&self.table, to, number);
        if queue.first().is_none() {
            self.awaited.remove(to);
        }
        Some((to, bytes))
    }

    /// The places with frames in flight to them. Constant time.
    #[inline(always)]
    pub fn awaited(&self) -> PlaceSet
        ensures { (p : ℕ) → (has_place result p ≡ true)
            ↔ ((n : ℕ) × (flies_to self.now.flying p n ≡ true)) }
    {
        self.awaited
    }

    /// The least number of a frame in flight to a place. Constant time.
    #[inline(always)]
    pub fn first_to(&self, place: u16) -> Option<u64>
        ensures { IsNext (flies_to self.now.flying place) 0 result }
    {
        if usize::from(place) >= self.queues.len() {
            return None;
        }
        self.queues[usize::from(place)].first()
    }

    /// The least number, from `from` on, of a frame in flight to a place. To go over all frames in flight to the place, ask for
    /// the next from each number plus 1. That takes logarithmic time for each frame, and for each that was taken lately, of
    /// which the place's queue has no more than are in flight to it, or 16.
    pub fn next_to(&self, place: u16, from: u64) -> Option<u64>
        ensures { IsNext (flies_to self.now.flying place) from result }
    {
        if usize::from(place) >= self.queues.len() {
            return None;
        }
        let queue = &self.queues[usize::from(place)];
        queue.next(&self.table, place, from)
    }
}
