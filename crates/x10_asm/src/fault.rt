ghost use Rattle.std.specs.Prelude.{◌≡◌};
ghost use Rattle.x10_asm.specs.declared.fault.AsmCause.TheVariants.{Memory};

use std::alloc::{AllocError, AllocFailed};
use thiserror::Error;

/// What is wrong with a line of a text. Where several causes apply, the first of them is named.
#[derive(Clone, Copy, Debug, PartialEq, Eq, Error)]
pub enum AsmCause {
    /// A first word that begins no line or names an operation that the version doesn't have, or a word
    /// that is no kind.
    #[error("Word")]
    Word,
    /// A word that is no number, or one outside its field.
    #[error("Number")]
    Number,
    /// Too few or too many words.
    #[error("Count")]
    Count,
    /// A line out of order, or one that is missing.
    #[error("Order")]
    Order,
    /// A label that is unknown, defined twice or ill-formed.
    #[error("Label")]
    Label,
    /// Quotes or escapes, or a text of more than 65,535 bytes.
    #[error("Text")]
    Text,
    /// A range of the image that isn't kept.
    #[error("Limit")]
    Limit,
    /// The entry function isn't there, or takes or gives something.
    #[error("Entry")]
    Entry,
    /// A growth was refused for lack of memory.
    #[error("Memory")]
    Memory,
}

impl From<AllocError> for AsmCause {
    ghost from_gives = { λ _ cause. cause ≡ Memory };

    fn from(_error: AllocError) -> AsmCause {
        AsmCause::Memory
    }
}

impl<T: Drop> From<AllocFailed<T>> for AsmCause {
    ghost from_gives = { λ _ cause. cause ≡ Memory };

    fn from(_error: AllocFailed<T>) -> AsmCause {
        AsmCause::Memory
    }
}

/// Why a text spells no module: the first line that has a fault, counted from 1, and its cause. The
/// line of `Memory` is 0.
#[derive(Clone, Copy, Debug, PartialEq, Eq, Error)]
#[error("line {line} {cause}")]
pub struct AsmFault {
    pub line: usize,
    pub cause: AsmCause,
}
