//! The frames in flight by number.

ghost use Rattle.std.specs.Prelude.{◌≡◌, ◌≢◌, ◌+◌, ◌<◌, ◌≤◌, ◌^◌, ◌++◌, ◌∷◌, [], All, HoldsAt, IfErr, OnOk, IfSome, IfNone, MatchOption, length, Some, None};
ghost use Rattle.std.specs.List.Sorted.{IsNonDecreasingBy};
ghost use Rattle.x10_kinds.specs.declared.stop.Stop.TheVariants as stop;
ghost use Rattle.x10_flights.specs.Flights.{flight_among, flies_to, without};

use std::alloc::Global;
use std::marker::Model;
use x10_kinds::Stop;

/// How many frames are taken before it is worthwhile to give their slots back.
const FEW: usize = 16;

/// A frame, or what is left of one that was taken.
#[derive(Drop)]
struct Slot {
    number: u64,
    to: u16,
    bytes: Option<Vec<u8>>,
}

/// The position of the frame with a number, if it is as far behind the first one as their numbers say: so it is where no slot
/// between them was given back. Constant time.
#[inline(always)]
fn find_near(slots: &[Slot], number: u64) -> Option<usize>
    ensures { IfSome result (λ at. (at < length slots.now)
        × HoldsAt (λ s. s.number ≡ number) slots.now at) }
{
    let at = number.checked_sub(slots.first()?.number)? as usize;
    if at < slots.len() && slots[at].number == number {
        return Some(at);
    }
    None
}

/// The position of the frame with a number.
fn find(slots: &[Slot], number: u64) -> Option<usize>
    requires { IsNonDecreasingBy (λ s. s.number) slots.now }
    ensures some { IfSome result (λ at. (at < length slots.now)
        × HoldsAt (λ s. s.number ≡ number) slots.now at) }
    ensures none { IfNone result (All (λ s. s.number ≢ number) slots.now) }
{
    if let Some(at) = find_near(slots, number) {
        return Some(at);
    }
    let at = slots.partition_point(|slot| slot.number < number);
    if at < slots.len() && slots[at].number == number {
        return Some(at);
    }
    None
}

/// The frames by number.
#[derive(Drop)]
pub(crate) struct Table {
    posted: u64,
    slots: Vec<Slot>,
    /// How many of the slots are of frames that were taken. No clause speaks of it: it matters only for time and memory.
    taken: usize,
}

impl Model for Table {
    ghost use Rattle.std.specs.Prelude.{vec_len, vec_capacity, ◌-◌};
    ghost use Rattle.std.specs.List.{filter_map};
    ghost use Rattle.x10_flights.specs.Flights.{RisingBy, Tabled, held};

    ghost Value = { Tabled };

    ghost view = { λ t. record { posted = t.posted; spare = vec_capacity t.slots - vec_len t.slots; flying = filter_map (λ s. held s.number s.to s.bytes) t.slots.items } };

    ghost invariant = { λ t. RisingBy (λ s. s.number) 0 t.slots.items t.posted };
}

impl Table {
    pub(crate) fn new(alloc: Global) -> Table
        ensures { result ≡ record { posted = 0; spare = 0; flying = [] } }
    {
        Table {
            posted: 0,
            slots: Vec::new(alloc),
            taken: 0,
        }
    }

    #[inline(always)]
    pub(crate) fn posted(&self) -> u64
        ensures { result ≡ self.now.posted }
    {
        self.posted
    }

    /// Makes room for two more frames.
    #[inline(always)]
    pub(crate) fn make_room(&mut self) -> Result<(), Stop>
        ensures flying { self.new.flying ≡ self.old.flying }
        ensures posted { self.new.posted ≡ self.old.posted }
        ensures spare { self.old.spare ≤ self.new.spare }
        ensures ok { OnOk result (2 ≤ self.new.spare) }
        ensures err { IfErr result (λ why. why ≡ stop.Memory) }
    {
        match self.slots.try_reserve(2) {
            Ok(()) => Ok(()),
            Err(_) => Err(Stop::Memory),
        }
    }

    /// Puts a frame in under the next number.
    #[inline(always)]
    pub(crate) fn post(&mut self, to: u16, bytes: Vec<u8>)
        requires room { 0 < self.old.spare }
        requires few { self.old.posted + 1 < 2 ^ 64 }
        ensures posted { self.new.posted ≡ self.old.posted + 1 }
        ensures spare { self.old.spare ≤ self.new.spare + 1 }
        ensures flying { self.new.flying ≡ self.old.flying
            ++ (record { number = self.old.posted; to = to; bytes = bytes.items }) ∷ [] }
    {
        let slot = Slot {
            number: self.posted,
            to,
            bytes: Some(bytes),
        };
        let _ = self.slots.push(slot);
        self.posted += 1;
    }

    /// The place that the frame with a number goes to, and its bytes.
    pub(crate) fn get(&self, number: u64) -> Option<(u16, &[u8])>
        ensures { MatchOption result (flight_among self.now.flying number ≡ None)
            (λ x. flight_among self.now.flying number
            ≡ Some (record { number = number; to = x.0; bytes = x.1.now })) }
    {
        let Some(at) = find(&self.slots, number) else {
            return None;
        };
        let slot = &self.slots[at];
        match &slot.bytes {
            Some(bytes) => Some((slot.to, bytes.as_slice())),
            None => None,
        }
    }

    /// Whether the frame with a number is in flight to a place.
    pub(crate) fn flies_to(&self, place: u16, number: u64) -> bool
        ensures { result ≡ flies_to self.now.flying place number }
    {
        match self.get(number) {
            Some((to, _)) => to == place,
            None => false,
        }
    }

    /// Takes the frame with a number out.
    pub(crate) fn take(&mut self, number: u64) -> Option<(u16, Vec<u8>)>
        ensures posted { self.new.posted ≡ self.old.posted }
        ensures spare { self.new.spare ≡ self.old.spare }
        ensures none { IfNone result ((flight_among self.old.flying number ≡ None)
            × (self.new.flying ≡ self.old.flying)) }
        ensures some { IfSome result (λ x. (flight_among self.old.flying number
            ≡ Some (record { number = number; to = x.0; bytes = x.1.items }))
            × (self.new.flying ≡ without number self.old.flying)) }
    {
        let Some(at) = find(&self.slots, number) else {
            return None;
        };
        let slot = &mut self.slots[at];
        let to = slot.to;
        let Some(bytes) = slot.bytes.take() else {
            return None;
        };
        Some((to, bytes))
    }

    /// One frame was taken: gives back the slots of those that were, once they are more than half of all.
    pub(crate) fn sweep(&mut self)
        ensures flying { self.new.flying ≡ self.old.flying }
        ensures posted { self.new.posted ≡ self.old.posted }
        ensures spare { self.old.spare ≤ self.new.spare }
    {
        self.taken = self.taken.wrapping_add(1);
        if self.taken > FEW && self.taken > self.slots.len() / 2 {
            self.slots.retain(|slot| slot.bytes.is_some());
            self.taken = 0;
        }
    }
}
