//! Why a text is refused.
ghost use Rattle.std.specs.Prelude.{◌≡◌};
ghost use Rattle.x10_log.specs.declared.fault.LogCause.TheVariants.{Memory};

use std::alloc::{AllocError, AllocFailed};
use thiserror::Error;

/// What is wrong with a line of a log.
#[derive(Clone, Copy, Debug, PartialEq, Eq, Error)]
pub enum LogCause {
    /// One of the first three lines isn't `x10 log 1`, `image` with 64 lowercase hexadecimal digits, or `places` with a
    /// number.
    #[error("Head")]
    Head,
    /// The number of places isn't 1 to 64, or a turn's place isn't one of them.
    #[error("Place")]
    Place,
    /// A frame that was taken isn't `<` with a number.
    #[error("Taken")]
    Taken,
    /// A step isn't a key, or a key, a star and how often.
    #[error("Key")]
    Key,
    /// A frame that was put out isn't `>` with a place, a colon and bytes in hexadecimal.
    #[error("Frame")]
    Frame,
    /// A line that was printed isn't `=` with a number, or a text between quotes.
    #[error("Printed")]
    Printed,
    /// More than 16 frames taken, or more than 64 steps, in a turn.
    #[error("Count")]
    Count,
    /// What the turn says has another spelling: another order, a run of a key in two parts, or a number in another form.
    #[error("Spelling")]
    Spelling,
    /// The last line doesn't end with a line feed.
    #[error("Ending")]
    Ending,
    /// A growth was refused for lack of memory.
    #[error("Memory")]
    Memory,
}

impl From<AllocError> for LogCause {
    ghost from_gives = { λ _ cause. cause ≡ Memory };

    fn from(_error: AllocError) -> LogCause {
        LogCause::Memory
    }
}

impl<T: Drop> From<AllocFailed<T>> for LogCause {
    ghost from_gives = { λ _ cause. cause ≡ Memory };

    fn from(_error: AllocFailed<T>) -> LogCause {
        LogCause::Memory
    }
}

/// Why a text is no log: a line that has a fault, counted from 1, and its cause.
#[derive(Clone, Copy, Debug, PartialEq, Eq, Error)]
#[error("line {line} {cause}")]
pub struct LogFault {
    /// The line, from 1. Where memory was refused, the one that was read then.
    pub line: usize,
    /// What is wrong with it.
    pub cause: LogCause,
}
