ghost use Rattle.std.specs.Prelude.{◌≡◌};
ghost use Rattle.x10_copy.specs.declared.refusal.Refusal.TheVariants.{Memory};

use std::alloc::{AllocError, AllocFailed};
use thiserror::Error;
use x10_frame::FrameFault;
use x10_kinds::Limit;

/// Why a place doesn't take a message in.
#[derive(Clone, Copy, Debug, PartialEq, Eq, Error)]
pub enum Refusal {
    /// The bytes are not a frame. Lack of memory is `Memory`.
    #[error("Frame")]
    Frame(FrameFault),
    /// It is for another place.
    #[error("NotHere")]
    NotHere,
    /// There is no such function, or a new activity's has a result.
    #[error("Function")]
    Function,
    /// The values don't fit the signature, or an object its class.
    #[error("Kind")]
    Kind,
    /// A global reference whose home has to be known has another one.
    #[error("Home")]
    Home,
    /// A global reference with its home here names no object of its class.
    #[error("Ref")]
    Ref,
    /// There is no such finish, or it is closed.
    #[error("Finish")]
    Finish,
    /// No activity waits for it.
    #[error("Segment")]
    Segment,
    /// A growth was refused for lack of memory.
    #[error("Memory")]
    Memory,
    /// A count would have passed its greatest value.
    #[error("Limit {0}")]
    Limit(Limit),
    /// The place had stopped before.
    #[error("Stopped")]
    Stopped,
}

impl From<AllocError> for Refusal {
    ghost from_gives = { λ _ refusal. refusal ≡ Memory };

    fn from(_error: AllocError) -> Refusal {
        Refusal::Memory
    }
}

impl<T: Drop> From<AllocFailed<T>> for Refusal {
    ghost from_gives = { λ _ refusal. refusal ≡ Memory };

    fn from(_error: AllocFailed<T>) -> Refusal {
        Refusal::Memory
    }
}
