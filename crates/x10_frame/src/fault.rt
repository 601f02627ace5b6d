ghost use Rattle.std.specs.Prelude.{◌≡◌};
ghost use Rattle.x10_frame.specs.declared.fault.FrameFault.TheVariants.{Memory};

use std::alloc::{AllocError, AllocFailed};
use thiserror::Error;

/// Why bytes are not a frame. It is the first fault from front to back.
#[derive(Clone, Copy, Debug, PartialEq, Eq, Error)]
pub enum FrameFault {
    /// The bytes end inside a field.
    #[error("Short")]
    Short,
    /// The version isn't 1 or 2.
    #[error("Version")]
    Version,
    /// The type isn't 1 to 4.
    #[error("FrameType")]
    FrameType,
    /// No such place, or a report for another number of places.
    #[error("Place")]
    Place,
    /// A value's tag isn't 1 to 7.
    #[error("Tag")]
    Tag,
    /// A text that isn't UTF-8.
    #[error("Text")]
    Text,
    /// Texts, rails or nodes that aren't numbered by first use, one that is never used, or too many
    /// or too long ones.
    #[error("Order")]
    Order,
    /// There are bytes after the frame.
    #[error("Trailing")]
    Trailing,
    /// A growth was refused for lack of memory.
    #[error("Memory")]
    Memory,
}

impl From<AllocError> for FrameFault {
    ghost from_gives = { λ _ fault. fault ≡ Memory };

    fn from(_error: AllocError) -> FrameFault {
        FrameFault::Memory
    }
}

impl<T: Drop> From<AllocFailed<T>> for FrameFault {
    ghost from_gives = { λ _ fault. fault ≡ Memory };

    fn from(_error: AllocFailed<T>) -> FrameFault {
        FrameFault::Memory
    }
}
