ghost use Rattle.std.specs.Prelude.{◌≡◌, ◌≢◌, ◌<◌, ◌↔◌, ◌⊎◌, ℕ, true, false, IsTrue, IfOk, IfErr, IsErrOf, IfSome, IfNone, MatchOption, Ok, Err, Some, None, [], length, take};
ghost use Rattle.slab.specs.Slab.{ContainsKey};
ghost use Rattle.x10_kinds.specs.declared.stop.Stop.TheVariants as stop;
ghost use Rattle.x10_model.specs.Worlds as machine;
ghost use Rattle.x10_world.specs.declared.fault.OpenFault.TheVariants as fault;
ghost use Rattle.x10_place.specs.Opening.{IsNextKey};
ghost use Rattle.x10_world.specs.Endings.{lines_in, lines_at};
ghost use Rattle.x10_world.specs.Queries.{HasNoPlace, HasPlace, HasNoKey, IsNotFlying, IsFlyingTo, IsReportTo, IsPosted, IsClosed};
ghost use Rattle.x10_world.specs.Opening.{IsOpenedWorld, IsForbidden};
ghost use Rattle.x10_world.specs.StandsForWorld.{StandsForWorld, KeepsSetting};
ghost use Rattle.x10_world.specs.Runs.{Runs, Reaches, IsHaltedAt, IsHaltedRun};
ghost use Rattle.x10_flights.specs.Flights.{flight_of, flies_to, IsNext};

use crate::fault::OpenFault;
use crate::lines::copied_outputs;
use crate::places::Places;
use std::alloc::{AllocError, Global};
use std::marker::Model;
use x10_flights::Flights;
use x10_heap::Heap;
use x10_kinds::Stop;
use x10_model::Event;
use x10_model::limits::MOST_PLACES;
use x10_place::Line;
use x10_verify::Verified;

mod events;
mod order;
mod sweep;

pub(crate) use sweep::Swept;

/// A world: the places of a run, and the frames between them that are in flight.
#[derive(Drop)]
pub struct World<'a> {
    verified: &'a Verified<'a>,
    places: Places<'a>,
    flights: Flights,
    stopped: bool,
}

impl<'a> Model for World<'a> {
    ghost use Rattle.x10_world.specs.StandsForWorld.{WorldState, world_of, IsWorld};

    ghost Value = { WorldState };

    ghost view = { λ a. world_of a.verified.now a.places a.flights a.stopped };

    ghost invariant = { λ a. IsWorld a.verified.now.program a.verified.now.bounds a.places a.flights a.stopped };
}

impl<'a> World<'a> {
    /// Refuses where the world has stopped.
    #[inline(always)]
    pub fn going(&self) -> Result<(), Stop>
        ensures ok { IfOk result (λ _. self.now.stopped ≢ true) }
        ensures err { IfErr result (λ why. (why ≡ stop.Stopped) × (self.now.stopped ≡ true)) }
    {
        if self.stopped {
            return Err(Stop::Stopped);
        }
        Ok(())
    }
}

impl<'a> World<'a> {
    /// The events one after another, up to the first that is refused: how many were made, and why the next was not.
    #[inline(always)]
    pub(crate) fn make(&mut self, events: &[Event]) -> (usize, Option<Stop>)
        requires { self.old.stopped ≢ true }
        ensures runs { result.1 ≡ None → (w : machine.World) → StandsForWorld self.old w
            → Runs self.old w result.0 events.now self.new }
        ensures all { result.1 ≡ None → result.0 ≡ length events.now }
        ensures goes { result.1 ≡ None → self.new.stopped ≢ true }
        ensures less { IfSome result.1 (λ _. result.0 < length events.now) }
        ensures halted { IfSome result.1 (IsHaltedAt self.old events.now result.0 self.new) }
        ensures kept { KeepsSetting self.old self.new }
    {
        for done in 0..events.len() {
            if let Err(stop) = self.make_one(events[done]) {
                return (done, Some(stop));
            }
        }
        (events.len(), None)
    }
}

impl<'a> World<'a> {
    /// A world of `places` places at the beginning: main is at place 0, and nothing at the others.
    pub fn open(
        alloc: Global,
        verified: &'a Verified<'a>,
        places: u16,
    ) -> Result<World<'a>, OpenFault>
        ensures opened { IfOk result (IsOpenedWorld verified.now places) }
        ensures places { IsErrOf result fault.Places ↔ IsForbidden verified.now places }
    {
        verified.certificate();
        if places < verified.image().least() || places > MOST_PLACES {
            return Err(OpenFault::Places);
        }
        let list = Places::open(alloc, verified, places)?;
        let flights = Flights::new(alloc, places)?;
        Ok(World {
            verified,
            places: list,
            flights,
            stopped: false,
        })
    }

    /// The events, one after another. An event that names nothing able to move, or no frame in flight, changes nothing. A Stop
    /// comes only where a growth was refused, or where there can be no more of what an event would make (`x10_kinds::Limit`).
    /// After it every later call answers Stopped, and the output is that of the events before the one that was refused. A step
    /// waits at the end of a finish only where something lives that the finish governs (X10 2.2, chapter Activities, `finish`),
    /// or a frame is in flight.
    #[inline(always)]
    pub fn run(&mut self, events: &[Event]) -> Result<(), Stop>
        ensures all { IfOk result (λ _. (w : machine.World) → StandsForWorld self.old w
            → Runs self.old w (length events.now) events.now self.new) }
        ensures some { (w : machine.World) → StandsForWorld self.old w
            → (n : ℕ) × Reaches self.old w (take n events.now) self.new }
        ensures stopped { self.old.stopped ≡ true → (result ≡ Err stop.Stopped)
            × (self.new ≡ self.old) }
        ensures goes { IfOk result (λ _. self.new.stopped ≢ true) }
        ensures hindered { self.old.stopped ≢ true → IfErr result
            (IsHaltedRun self.old events.now self.new) }
        ensures stop { IfErr result (λ _. self.new.stopped ≡ true) }
        ensures kept { KeepsSetting self.old self.new }
    {
        self.going()?;
        match self.make(events) {
            (_, Some(stop)) => Err(stop),
            (_, None) => Ok(()),
        }
    }
}

impl<'a> World<'a> {
    /// How many places there are.
    pub fn count(&self) -> u16
        ensures { result ≡ length self.now.places }
    {
        self.places.list().len() as u16
    }

    /// The lines of a place so far; none where there is no such place.
    pub fn output(&self, place: u16) -> Option<&[Line]>
        ensures { MatchOption result (HasNoPlace self.now.places place)
            (λ lines. HasPlace self.now.places place (λ p. lines.now ≡ p.lines)) }
    {
        let place = self.places.list().get(usize::from(place))?;
        Some(place.output())
    }

    /// What the activities of a place share; none where there is no such place. Constant time.
    pub fn heap(&self, place: u16) -> Option<&Heap>
        ensures { MatchOption result (HasNoPlace self.now.places place)
            (λ heap. HasPlace self.now.places place (λ p. heap.now ≡ p.heap)) }
    {
        let place = self.places.list().get(usize::from(place))?;
        Some(place.heap())
    }

    /// A copy of the lines of each place. Linear in their bytes.
    pub fn outputs(&self, alloc: Global) -> Result<Vec<Vec<Line>>, AllocError>
        ensures { IfOk result (λ outputs. lines_in outputs.items ≡ lines_at self.now.places) }
    {
        copied_outputs(alloc, self.places.list())
    }

    /// The least key in use at a place that is not below a number; none where there is no such key, or no such place.
    pub fn next_key(&self, place: u16, from: usize) -> Option<usize>
        ensures { MatchOption result (HasNoKey self.now.places place from)
            (λ key. HasPlace self.now.places place (λ p. IsNextKey p.stays from key)) }
    {
        let place = self.places.list().get(usize::from(place))?;
        place.next_key(from)
    }

    /// Whether there is an activity with a key at a place. Constant time.
    #[inline(always)]
    pub fn has_key(&self, place: u16, key: usize) -> bool
        ensures { IsTrue result ↔ HasPlace self.now.places place (λ p. ContainsKey p.stays key) }
    {
        match self.places.list().get(usize::from(place)) {
            Some(place) => place.contains(key),
            None => false,
        }
    }

    /// How many frames were put out so far: they are numbered from 0, in that order. Constant time.
    #[inline(always)]
    pub fn posted(&self) -> u64
        ensures value { result ≡ self.now.flights.posted }
        ensures used { (w : machine.World) → StandsForWorld self.now w → IsPosted w result }
    {
        self.flights.posted()
    }

    /// The place that a frame in flight is for, and its bytes; none where no frame with the number is in flight.
    /// Logarithmic in the number of frames in flight.
    pub fn frame(&self, number: u64) -> Option<(u16, &[u8])>
        ensures value { MatchOption result (flight_of self.now.flights number ≡ None)
            (λ x. flight_of self.now.flights number
            ≡ Some (record { number = number; to = x.0; bytes = x.1.now })) }
        ensures none { (w : machine.World) → StandsForWorld self.now w
            → IfNone result (IsNotFlying w number) }
        ensures some { (w : machine.World) → StandsForWorld self.now w
            → IfSome result (λ x. IsFlyingTo w number x.0 ⊎ IsReportTo w number x.0) }
    {
        self.flights.get(number)
    }

    /// The least number, from `from` on, of a frame in flight to a place; none where there is none, or no such place.
    pub fn next_frame(&self, place: u16, from: u64) -> Option<u64>
        ensures { IsNext (flies_to self.now.flights.flying place) from result }
    {
        self.flights.next_to(place, from)
    }

    /// Whether the run has ended, as place 0 sees it by its own counts and by what was reported to it: then no activity lives.
    /// Conversely, where none lives and no frame is in flight, it has ended.
    pub fn closed(&self) -> bool
        ensures value { IsTrue result ↔ IsClosed self.now.places }
        ensures ended { (w : machine.World) → StandsForWorld self.now w → IsTrue result
            → machine.IsOver w }
        ensures over { (w : machine.World) → StandsForWorld self.now w → machine.IsOver w
            → self.now.flights.flying ≡ [] → IsTrue result }
    {
        match self.places.list().first() {
            Some(place) => place.closed(),
            None => true,
        }
    }
}
