//! The hall: the log of all turns, and a row of frames for each place.

ghost use Rattle.std.specs.Prelude.{◌≡◌, ◌↔◌, ◌+◌, ◌<◌, ◌≤◌, ◌^◌, ◌⊎◌, IfOk, IfErr, MatchOption, Some, None, Err, is_some, length};
ghost use Rattle.x10_kinds.specs.declared.limit.Limit.TheVariants as limits;
ghost use Rattle.x10_kinds.specs.declared.stop.Stop.TheVariants as stop;
ghost use Rattle.x10_hall.specs.declared.state.HallState.TheVariants as is;
ghost use Rattle.x10_hall.specs.declared.turn.Turn.{Turn};
ghost use Rattle.x10_hall.specs.Repetitions.{IsLast};
ghost use Rattle.x10_hall.specs.Halls.{told, posted_in, next_frame, empty_hall, with_turn, moved_on, with_state, finished};

use crate::repeats::Repeats;
use crate::row::{Row, deliver, make_room, open_rows, share};
use crate::state::HallState;
use crate::turn::{Taken, Turn};
use std::alloc::{AllocError, Global};
use std::marker::Model;
use x10_kinds::{Limit, Stop};

/// Which limit it is: that of the frames.
const FRAMES: u8 = 11;

/// What the places of a run hand to each other: the log of their turns, in the order in which they were posted, and for
/// each place the row of the frames that go to it. Frames are numbered from 0 over the whole log, and a place takes its
/// own in this order.
#[derive(Drop)]
pub struct Hall {
    log: Repeats<Turn>,
    rows: Vec<Row>,
    /// How many frames the log has.
    posted: u64,
    state: HallState,
}

impl Model for Hall {
    ghost use Rattle.std.specs.Prelude.{length, map};
    ghost use Rattle.x10_hall.specs.Halls.{HallValue};
    ghost use Rattle.x10_hall.specs.Rows.{AreRowsOf};

    ghost Value = { HallValue };

    ghost view = { λ h. record { places = length h.rows.items; log = h.log.items; cursors = map (λ row. row.taken) h.rows.items; state = h.state } };

    ghost invariant = { λ h. AreRowsOf h.log.items h.posted h.rows.items };
}

impl Hall {
    /// A hall for `places` places, in which nothing was posted yet. Takes some words of memory for each place.
    pub fn new(alloc: Global, places: u16) -> Result<Hall, AllocError>
        ensures { IfOk result (λ hall. hall ≡ empty_hall places) }
    {
        let rows = open_rows(alloc, places)?;
        Ok(Hall {
            log: Repeats::new(alloc),
            rows,
            posted: 0,
            state: HallState::Open,
        })
    }

    /// Whether the run goes on.
    pub fn state(&self) -> HallState
        ensures { result ≡ self.now.state }
    {
        self.state
    }

    /// The turns that were posted, first to last.
    pub fn log(&self) -> &Repeats<Turn>
        ensures { result.now.items ≡ self.now.log }
    {
        &self.log
    }

    /// Whether there is a frame for a place to take. Constant time.
    pub fn has_frame(&self, place: u16) -> bool
        ensures { result ≡ is_some (next_frame self.now place) }
    {
        if usize::from(place) >= self.rows.len() {
            return false;
        }
        self.rows[usize::from(place)].has_frame()
    }

    /// Appends a turn to the log, and its frames to the rows of their places; a frame for a place that has no row is in
    /// the log alone. Constant time for each frame, amortized. Everything that takes memory is done before anything changes.
    pub fn post(&mut self, turn: Turn) -> Result<(), Stop>
        ensures ok { IfOk result (λ _. self.new ≡ with_turn self.old turn) }
        ensures err { IfErr result (λ why. (self.new ≡ self.old)
            × ((why ≡ stop.Memory) ⊎ (why ≡ stop.Limit limits.Frames))) }
        ensures limit { (result ≡ Err (stop.Limit limits.Frames))
            ↔ (2 ^ 64 ≤ posted_in self.old.log + length turn.frames.items) }
    {
        let count = turn.frames.len() as u64;
        if count > u64::MAX - self.posted {
            return Err(Stop::Limit(Limit::Frames));
        }
        let copies = share(self.log.allocator(), &turn.frames)?;
        if let Err(stop) = make_room(&mut self.rows, &turn.frames) {
            return Err(stop);
        }
        if let Err(_) = self.log.push(turn) {
            return Err(Stop::Memory);
        }
        deliver(&mut self.rows, self.posted, copies);
        self.posted += count;
        Ok(())
    }

    /// Appends the last turn once more, with its frames, as `post` does. Where it has no frame, this takes a word of memory.
    pub fn again(&mut self) -> Result<(), Stop>
        requires { 0 < length self.old.log }
        ensures ok { IfOk result (λ _. (turn : Turn) → IsLast self.old.log turn
            → self.new ≡ with_turn self.old turn) }
        ensures err { IfErr result (λ why. (self.new ≡ self.old)
            × ((why ≡ stop.Memory) ⊎ (why ≡ stop.Limit limits.Frames))) }
        ensures limit { (turn : Turn) → IsLast self.old.log turn
            → (result ≡ Err (stop.Limit limits.Frames))
            ↔ (2 ^ 64 ≤ posted_in self.old.log + length turn.frames.items) }
    {
        let turn = self.log.at(self.log.len() - 1);
        let count = turn.frames.len() as u64;
        if count > u64::MAX - self.posted {
            return Err(Stop::Limit(Limit::Frames));
        }
        let copies = share(self.log.allocator(), &turn.frames)?;
        if let Err(stop) = make_room(&mut self.rows, &turn.frames) {
            return Err(stop);
        }
        if let Err(_) = self.log.again() {
            return Err(Stop::Memory);
        }
        deliver(&mut self.rows, self.posted, copies);
        self.posted += count;
        Ok(())
    }

    /// The next frame of a place's row, if the place hasn't taken all of them. Constant time; takes no memory.
    pub fn take(&mut self, place: u16) -> Option<Taken>
        ensures { MatchOption result ((next_frame self.old place ≡ None) × (self.new ≡ self.old))
            (λ frame. (next_frame self.old place ≡ Some (told frame))
            × (self.new ≡ moved_on self.old place)) }
    {
        if usize::from(place) >= self.rows.len() {
            return None;
        }
        let row = &mut self.rows[usize::from(place)];
        row.take()
    }

    /// Notes that the run has ended, unless it had ended already, or was stopped.
    pub fn finish(&mut self)
        ensures { self.new ≡ with_state self.old (finished self.old.state) }
    {
        if self.state == HallState::Open {
            self.state = HallState::Finished;
        }
    }

    /// Stops the run, even if it has ended.
    pub fn stop(&mut self)
        ensures { self.new ≡ with_state self.old is.Stopped }
    {
        self.state = HallState::Stopped;
    }

    /// The turns that were posted, first to last. The frames that are left in the rows are dropped.
    pub fn into_log(self) -> Repeats<Turn>
        ensures { result.items ≡ self.log }
    {
        let Hall { log, .. } = self;
        log
    }
}
