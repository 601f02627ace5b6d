//! What the order of a program's events asks of a world.
ghost use Rattle.std.specs.Prelude.{◌≡◌, ◌↔◌, ℕ, true, IsTrue, IfOk, IfSome, MatchOption, Some, None, slice_get};
ghost use Rattle.x10_world.specs.Queries.{HasNoPlace, HasPlace};
ghost use Rattle.x10_model.specs.declared.event.Event.TheVariants.{Step};
ghost use Rattle.x10_place.specs.StandsFor.{inside_at};
ghost use Rattle.x10_world.specs.Happenings.{CanHappen, AllIdle, NoneFlies, NothingCanHappen};
ghost use Rattle.x10_world.specs.Vacant.{IsVacantAt};
ghost use Rattle.x10_flights.specs.PlaceSets.{has_place};
ghost use Rattle.x10_flights.specs.Flights.{flies_to, IsNext};
ghost use Rattle.x10_world.specs.Living.{keys_at, live_at};
ghost use Rattle.x10_world.specs.Rounds.{IsBusy, IsTurnAfter, IsEmptyWorld};

use crate::world::World;
use std::alloc::{AllocError, Global};
use x10_flights::PlaceSet;
use x10_model::Event;
use x10_place::Place;

impl<'a> World<'a> {
    /// Whether no activity is at place 0, as is so where the run has ended. Constant time.
    #[inline(always)]
    pub(crate) fn home_is_empty(&self) -> bool {
        match self.places.list().first() {
            Some(place) => place.is_empty(),
            None => true,
        }
    }

    /// The place with a number; none where there is no such place. Constant time.
    #[inline(always)]
    pub fn place(&self, place: u16) -> Option<&Place<'a>>
        ensures { MatchOption result (HasNoPlace self.now.places place)
            (λ p. slice_get self.now.places place ≡ Some p.now) }
    {
        self.places.list().get(usize::from(place))
    }

    /// The key that the next activity that begins at a place gets; none where there is no such place. Constant time.
    #[inline(always)]
    pub fn vacant_key(&self, place: u16) -> Option<usize>
        ensures { MatchOption result (HasNoPlace self.now.places place)
            (IsVacantAt self.now place) }
    {
        let place = self.places.list().get(usize::from(place))?;
        Some(place.vacant_key())
    }

    /// The least number of a frame in flight to a place; none where there is none, or no such place. Constant time.
    #[inline(always)]
    pub(crate) fn first_frame(&self, place: u16) -> Option<u64>
        ensures { IsNext (flies_to self.now.flights.flying place) 0 result }
    {
        self.flights.first_to(place)
    }

    /// How many activities are at a place. Constant time.
    #[inline(always)]
    pub fn live(&self, place: u16) -> usize
        ensures { result ≡ live_at self.now.places place }
    {
        match self.places.list().get(usize::from(place)) {
            Some(place) => place.live(),
            None => 0,
        }
    }

    /// The keys in use at a place, by rising number. Linear in the keys that were ever in use at once.
    pub(crate) fn keys(&self, alloc: Global, place: u16) -> Result<Vec<usize>, AllocError>
        ensures { IfOk result (λ keys. keys.items ≡ keys_at self.now.places place) }
    {
        match self.places.list().get(usize::from(place)) {
            Some(place) => place.keys(alloc),
            None => Ok(Vec::new(alloc)),
        }
    }

    /// The places that have an activity, or a frame in flight to them. Constant time.
    #[inline(always)]
    fn busy(&self) -> PlaceSet
        ensures { (id : ℕ) → has_place result id ≡ true ↔ IsBusy self.now id }
    {
        self.places.living().union(self.flights.awaited())
    }

    /// The next place behind one, and behind the last one the first, that has an activity or a frame in flight to it; none
    /// where no activity is anywhere and no frame is in flight. Constant time.
    #[inline(always)]
    pub(crate) fn busy_after(&self, place: u16) -> Option<u16>
        ensures some { IfSome result (IsTurnAfter self.now place) }
        ensures none { result ≡ None → IsEmptyWorld self.now }
    {
        let _ = &self.verified;
        let busy = self.busy();
        match busy.first_from(place.saturating_add(1)) {
            Some(next) => Some(next),
            None => busy.first_from(0),
        }
    }

    /// Whether one activity is at a place, none is anywhere else, and no frame is in flight. Constant time.
    #[inline(always)]
    pub(crate) fn has_only_one(&self, place: u16) -> bool {
        let living = self.places.living();
        self.live(place) == 1
            && living.first_from(0) == Some(place)
            && living.first_from(place.saturating_add(1)).is_none()
            && self.flights.awaited().first_from(0).is_none()
    }

    /// Whether an event would do something: a frame with the number is in flight, or an activity with the key is at the place
    /// and can move. Logarithmic in the number of frames in flight, or as long as a step takes to find out.
    pub fn can_happen(&self, event: Event) -> bool
        ensures { IsTrue result ↔ CanHappen self.now event }
    {
        match event {
            Event::Step(place, key) => match self.places.list().get(usize::from(place)) {
                Some(place) => !place.is_idle(key),
                None => false,
            },
            Event::Deliver(number) => self.flights.get(number).is_some(),
        }
    }

    /// The least key of an activity of a place that can move; none where none can.
    fn able_key(&self, place: u16) -> Option<usize>
        ensures { MatchOption result (AllIdle self.now place)
            (λ key. CanHappen self.now (Step place key)) }
    {
        let place = self.places.list().get(usize::from(place))?;
        place.first_able()
    }

    /// The first step that would do something, by place and key.
    fn possible_step(&self) -> Option<Event>
        ensures { MatchOption result ((id : ℕ) → AllIdle self.now id) (CanHappen self.now) }
    {
        for place in 0..self.count() {
            if let Some(key) = self.able_key(place) {
                return Some(Event::Step(place, key));
            }
        }
        None
    }

    /// The delivery of the frame that was put out first of those in flight to a place.
    fn possible_delivery(&self) -> Option<Event>
        ensures { MatchOption result (NoneFlies self.now) (CanHappen self.now) }
    {
        let place = self.flights.awaited().first_from(0)?;
        let number = self.flights.first_to(place)?;
        Some(Event::Deliver(number))
    }

    /// An event that can happen; none only where none can: the first step by place and key, and where no activity can move a
    /// delivery. Takes what `can_happen` takes for each key that was ever in use.
    pub fn possible_event(&self) -> Option<Event>
        ensures { MatchOption result (NothingCanHappen self.now) (CanHappen self.now) }
    {
        match self.possible_step() {
            Some(event) => Some(event),
            None => self.possible_delivery(),
        }
    }

    /// How many activities are at all places. Linear in the places.
    pub(crate) fn all_live(&self) -> u64 {
        let mut count = 0u64;
        for place in self.places.list() {
            count = count.saturating_add(place.live() as u64);
        }
        count
    }

    /// Whether an activity of a place is inside an atomic region. Constant time.
    #[inline(always)]
    pub fn is_entered(&self, place: u16) -> bool
        ensures { IsTrue result ↔ HasPlace self.now.places place
            (λ p. (key : ℕ) × (inside_at p.stays key ≡ true)) }
    {
        match self.places.list().get(usize::from(place)) {
            Some(place) => place.inside().is_some(),
            None => false,
        }
    }

    /// Whether no frame is in flight, and no activity of a place is inside an atomic region. Constant time.
    #[inline(always)]
    pub(crate) fn is_calm(&self, place: u16) -> bool {
        !self.is_entered(place) && self.flights.awaited().first_from(0).is_none()
    }
}
