//! What is seen of a world before an event.
ghost use Rattle.std.specs.Prelude.{◌≡◌, MatchOption, None, Some};
ghost use Rattle.x10_place.specs.Stays.{origin_as};
ghost use Rattle.x10_flights.specs.Flights.{flight_of};
ghost use Rattle.x10_stats.specs.Tallies.{IsSeen, IsSeenBefore, as_pair, back_of, sight_of, sight_to, stay_at, vacant_at};
ghost use Rattle.x10_model.specs.declared.event.Event.TheVariants.{Deliver};

use x10_model::Event;
use x10_place::{Origin, Stay};
use x10_world::World;

/// What is seen of a world before an event.
#[derive(Clone, Copy, Debug, PartialEq, Eq)]
pub(crate) struct Sight {
    /// The place where it happens.
    pub(crate) place: u16,
    /// Of a step: the key of the stay that makes it.
    pub(crate) key: usize,
    /// The key that the next stay gets that begins there.
    pub(crate) vacant: usize,
    /// Of a step: the place and the key of the stay that waits for the one that makes it, if one does.
    pub(crate) back: Option<(u16, usize)>,
}

/// What is seen of a world before an event. Constant time, of a delivery logarithmic in the frames in flight. Takes no memory.
pub(crate) fn look(world: &World, event: Event) -> Sight
    ensures sight { result ≡ sight_of world.now event }
    ensures seen { IsSeenBefore world.now event }
{
    match event {
        Event::Step(place, key) => Sight {
            place,
            key,
            vacant: vacant_key(world, place),
            back: back_at(world, place, key),
        },
        Event::Deliver(number) => look_at_frame(world, number),
    }
}

/// The same before the delivery of the frame with a number.
fn look_at_frame(world: &World, number: u64) -> Sight
    ensures sight { result ≡ sight_to world.now (flight_of world.now.flights number) }
    ensures seen { IsSeenBefore world.now (Deliver number) }
{
    match world.frame(number) {
        Some((place, _)) => Sight {
            place,
            key: 0,
            vacant: vacant_key(world, place),
            back: None,
        },
        None => Sight {
            place: 0,
            key: 0,
            vacant: 0,
            back: None,
        },
    }
}

/// The key that the next stay gets that begins at a place; 0 where there is no such place.
fn vacant_key(world: &World, place: u16) -> usize
    ensures key { result ≡ vacant_at world.now place }
    ensures seen { IsSeen world.now place }
{
    world.vacant_key(place).unwrap_or(0)
}

/// The stay with a key at a place; none where there is no such stay, or no such place.
pub(crate) fn stay_at<'a>(world: &'a World, place: u16, key: usize) -> Option<&'a Stay>
    ensures { MatchOption result (stay_at world.now place key ≡ None)
        (λ stay. stay_at world.now place key ≡ Some stay.now) }
{
    world.place(place)?.stay(key)
}

/// The place and the key of the stay that waits for the one with a key at a place, if one does.
fn back_at(world: &World, place: u16, key: usize) -> Option<(u16, usize)>
    ensures { result ≡ back_of (stay_at world.now place key) }
{
    match stay_at(world, place, key) {
        Some(stay) => pair_of(stay.back()),
        None => None,
    }
}

/// Where a stay is.
pub(crate) fn pair_of(origin: Option<Origin>) -> Option<(u16, usize)>
    ensures { result ≡ as_pair (origin_as origin) }
{
    match origin {
        Some(origin) => Some((origin.place, origin.key as usize)),
        None => None,
    }
}
