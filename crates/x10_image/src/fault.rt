ghost use Rattle.std.specs.Prelude.{◌≡◌};
ghost use Rattle.x10_image.specs.declared.fault.ImageFault.TheVariants.{Memory};

use std::alloc::{AllocError, AllocFailed};
use thiserror::Error;

/// Why bytes are not an image, or why a module has none. For bytes it is the first fault from front to back.
#[derive(Clone, Copy, Debug, PartialEq, Eq, Error)]
pub enum ImageFault {
    /// A part isn't complete.
    #[error("Short")]
    Short,
    /// The first four bytes aren't those of an image.
    #[error("Magic")]
    Magic,
    /// The version is neither 1 nor 2.
    #[error("Version")]
    Version,
    /// A number outside its range.
    #[error("Count")]
    Count,
    /// An unknown kind, a class that isn't there or has to be 0, or a home flag that the kind doesn't
    /// take.
    #[error("Kind")]
    Kind,
    /// A text that isn't UTF-8.
    #[error("Text")]
    Text,
    /// There are bytes after the last function.
    #[error("Trailing")]
    Trailing,
    /// A byte that has to be 0 isn't.
    #[error("Reserved")]
    Reserved,
    /// No function has the entry's number, or it takes or gives something.
    #[error("Entry")]
    Entry,
    /// Eight bytes that are no instruction, or one that the image's version doesn't have: the function's
    /// number and the instruction's number in it.
    #[error("Code {0} {1}")]
    Code(u16, u16),
    /// A growth was refused for lack of memory.
    #[error("Memory")]
    Memory,
}

impl From<AllocError> for ImageFault {
    ghost from_gives = { λ _ fault. fault ≡ Memory };

    fn from(_error: AllocError) -> ImageFault {
        ImageFault::Memory
    }
}

impl<T: Drop> From<AllocFailed<T>> for ImageFault {
    ghost from_gives = { λ _ fault. fault ≡ Memory };

    fn from(_error: AllocFailed<T>) -> ImageFault {
        ImageFault::Memory
    }
}
