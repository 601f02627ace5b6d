//! What a worker asks of the hall.
ghost use Rattle.std.specs.Prelude.{IfErr};
ghost use Rattle.x10_hall.specs.Mails.{IsPostFault};

use crate::turn::{Stint, Taken};
use thiserror::Error;
use x10_kinds::Stop;

/// What is there for a place to take.
#[derive(Drop)]
pub enum Take {
    /// The next frame of its row.
    Frame(Taken),
    /// Nothing: all frames of its row were taken.
    Nothing,
    /// A worker has stopped the run.
    Stopped,
}

/// Why a worker goes on after it has waited.
#[derive(Clone, Copy, Debug, PartialEq, Eq)]
pub enum Signal {
    /// There is a frame in the row of its place.
    Frame,
    /// The run has ended.
    Finished,
    /// A worker has stopped the run.
    Stopped,
}

/// How a worker ends the run for all.
#[derive(Clone, Copy, Debug, PartialEq, Eq)]
pub(crate) enum End {
    /// No activity is left.
    Finished,
    /// The worker can't go on.
    Stopped,
}

/// Why a turn isn't posted. Where there are several reasons, the first one is reported.
#[derive(Clone, Copy, Debug, PartialEq, Eq, Error)]
pub enum PostFault {
    /// A worker has stopped the run.
    #[error("Stopped")]
    Stopped,
    /// As many turns as were asked for have been posted.
    #[error("Turns")]
    Turns,
    /// Memory was refused, or the log would have more than 2^64 - 1 frames.
    #[error("Stop")]
    Stop(Stop),
}

/// The hall as a worker sees it. No method says what it does to what the threads share, since others may do the same at any
/// time; the methods of `Hall` say that. Of `post` it is known why turns aren't posted. A port knows whether `stop` was called
/// through it, which no other method changes.
pub trait Port {
    ghost use Rattle.std.specs.Prelude.{◌≡◌, Bool, true};

    ghost stopped: { Self → Bool } = { λ _. true };

    /// Takes the next frame of a place's row.
    fn take(&self, place: u16) -> Take;

    /// Appends turns to the log, one after another, and their frames to the rows of their receivers. Where one is refused,
    /// those before it are in the log.
    fn post(&self, stints: Vec<Stint>) -> Result<(), PostFault>
        ensures { IfErr result IsPostFault };

    /// Waits until there is a frame for a place, or the run has ended or was stopped.
    fn wait(&self, place: u16) -> Signal;

    /// Whether a worker has stopped the run. Waits for nobody, and costs next to nothing, so that it can be asked at each turn.
    fn is_stopped(&self) -> bool;

    /// Ends the run for all workers: no activity is left. Those that wait are woken, but not again where it had ended before.
    fn finish(&self);

    /// Stops the run for all workers, even if it has ended. Those that wait are woken, but not again where it was stopped before.
    fn stop(&mut self)
        ensures { Self.stopped self.new ≡ true };
}
