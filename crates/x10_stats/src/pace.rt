//! How many rounds a run went.
ghost use Rattle.std.specs.Prelude.{◌≡◌};
ghost use Rattle.x10_stats.specs.Paces.{goes_on, key_of, pace_at_first, paced, rises};

use x10_model::Event;

/// The round in which a run is, and where its last event stands in it.
#[derive(Clone, Copy, Debug, PartialEq, Eq)]
pub(crate) struct Pace {
    /// The round, counted from 1. A number that would pass 2^64 - 1 stays there.
    pub(crate) rounds: u64,
    /// The place of the last event.
    pub(crate) place: u16,
    /// Of a step: the key of the activity that made it.
    pub(crate) key: Option<usize>,
}

impl Pace {
    /// Before the first event.
    pub(crate) fn new() -> Pace
        ensures { result ≡ pace_at_first }
    {
        Pace {
            rounds: 1,
            place: 0,
            key: None,
        }
    }

    /// With one more event at a place.
    pub(crate) fn with(self, place: u16, event: Event) -> Pace
        ensures { result ≡ paced self place event }
    {
        let key = key_of(event);
        let rounds = if self.goes_on(place, key) {
            self.rounds
        } else {
            self.rounds.saturating_add(1)
        };
        Pace { rounds, place, key }
    }

    /// Whether an event at a place, of a step with this key, is of the same round.
    fn goes_on(self, place: u16, key: Option<usize>) -> bool
        ensures { result ≡ goes_on self place key }
    {
        self.place < place || self.place == place && rises(self.key, key)
    }
}

/// The key of a step; none of a delivery.
fn key_of(event: Event) -> Option<usize>
    ensures { result ≡ key_of event }
{
    match event {
        Event::Step(_, key) => Some(key),
        Event::Deliver(_) => None,
    }
}

/// Whether an event comes behind another one of its place in a round: frames are taken in first, and then keys rise.
fn rises(last: Option<usize>, key: Option<usize>) -> bool
    ensures { result ≡ rises last key }
{
    match (last, key) {
        (None, _) => true,
        (Some(_), None) => false,
        (Some(last), Some(key)) => last < key,
    }
}
