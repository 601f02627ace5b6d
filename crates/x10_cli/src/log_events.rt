//! The events of a log, one after another.
ghost use Rattle.std.specs.Prelude.{◌≡◌, ◌∷◌, [], MatchOption};
ghost use Rattle.x10_workers.specs.Plays.{events_in};
ghost use Rattle.x10_cli.specs.Shown.{left_of_turn};

use std::marker::Model;
use x10_hall::Turn;
use x10_model::Event;

/// How much of a turn has been made: so many of its frames were taken in, and so many of its steps made.
#[derive(Drop)]
struct Made {
    taken: usize,
    steps: usize,
}

impl Made {
    /// The next event of a turn, if any is left: a delivery for each frame, and then a step for each key.
    fn next(&mut self, turn: &Turn) -> Option<Event>
        ensures { MatchOption result (left_of_turn turn.now self.old.taken self.old.steps ≡ [])
            (λ event. left_of_turn turn.now self.old.taken self.old.steps
            ≡ event ∷ left_of_turn turn.now self.new.taken self.new.steps) }
    {
        if self.taken < turn.taken.len() {
            let number = turn.taken[self.taken];
            self.taken += 1;
            return Some(Event::Deliver(number));
        }
        if self.steps < turn.keys.len() {
            let key = turn.keys.at(self.steps);
            self.steps += 1;
            return Some(Event::Step(turn.place, key));
        }
        None
    }
}

/// The events of a log that are still to be made, turn by turn.
#[derive(Drop)]
pub(crate) struct LogEvents<'a> {
    turns: &'a [Turn],
    // the turn that is being made
    turn: usize,
    made: Made,
}

impl<'a> Model for LogEvents<'a> {
    ghost use Rattle.std.specs.Prelude.{List};
    ghost use Rattle.x10_model.specs.declared.event.Event.{Event};
    ghost use Rattle.x10_cli.specs.Shown.{left_of_turns};

    ghost Value = { List Event };

    ghost view = { λ e. left_of_turns e.turns.now e.turn e.made.taken e.made.steps };
}

impl<'a> LogEvents<'a> {
    /// All events of some turns.
    pub fn new(turns: &'a [Turn]) -> LogEvents<'a>
        ensures { result ≡ events_in turns.now }
    {
        LogEvents {
            turns,
            turn: 0,
            made: Made { taken: 0, steps: 0 },
        }
    }

    /// The next one, if any is left.
    pub fn next(&mut self) -> Option<Event>
        ensures { MatchOption result ((self.old ≡ []) × (self.new ≡ []))
            (λ event. self.old ≡ event ∷ self.new) }
    {
        let turns = self.turns;
        while self.turn < turns.len() {
            let event = self.made.next(&turns[self.turn]);
            if event.is_some() {
                return event;
            }
            self.turn += 1;
            self.made = Made { taken: 0, steps: 0 };
        }
        None
    }
}
