ghost use Rattle.std.specs.Prelude.{◌≡◌};
ghost use Rattle.x10_bounds.specs.declared.fault.BoundCause.TheVariants.{Memory};

use std::alloc::{AllocError, AllocFailed};
use thiserror::Error;

/// Which rule a function breaks.
#[derive(Clone, Copy, Debug, PartialEq, Eq, Error)]
pub enum BoundCause {
    /// A closer doesn't match the innermost region, a function ends inside a finish or an atomic
    /// region, something is open at its end, or its last instruction isn't RET.
    #[error("Nesting")]
    Nesting,
    /// A jump goes back, outside the function, into a region or out of a finish or an atomic region,
    /// or a loop's end doesn't go to the instruction after its LOOP.
    #[error("Jump")]
    Jump,
    /// A loop's slot isn't its depth among loops or isn't there, or its count isn't 1 to 65,535.
    #[error("LoopSlot")]
    LoopSlot,
    /// A call of a function whose number isn't smaller than the caller's.
    #[error("CallOrder")]
    CallOrder,
    /// A call, a start, a shift, a finish or another atomic region inside an atomic region.
    #[error("Atomic")]
    Atomic,
    /// The function's bound is above 2^48.
    #[error("TooLarge")]
    TooLarge,
    /// A growth was refused for lack of memory.
    #[error("Memory")]
    Memory,
}

/// Why a module has no bounds: the least function that breaks a rule, there the first rule, and there
/// the least instruction. TooLarge names instruction 0, Memory names function 0 and instruction 0.
#[derive(Clone, Copy, Debug, PartialEq, Eq, Error)]
#[error("{cause} {function} {pc}")]
pub struct BoundFault {
    pub cause: BoundCause,
    pub function: u16,
    pub pc: u16,
}

impl BoundFault {
    /// The fault of a rule at an instruction of a function.
    pub(crate) fn at(cause: BoundCause, function: u16, pc: u16) -> BoundFault
        ensures { result ≡ record { cause = cause; function = function; pc = pc } }
    {
        BoundFault {
            cause,
            function,
            pc,
        }
    }
}

const OUT_OF_MEMORY: BoundFault = BoundFault {
    cause: BoundCause::Memory,
    function: 0,
    pc: 0,
};

impl From<AllocError> for BoundFault {
    ghost from_gives = { λ _ fault. fault ≡ record { cause = Memory; function = 0; pc = 0 } };

    fn from(_error: AllocError) -> BoundFault {
        OUT_OF_MEMORY
    }
}

impl<T: Drop> From<AllocFailed<T>> for BoundFault {
    ghost from_gives = { λ _ fault. fault ≡ record { cause = Memory; function = 0; pc = 0 } };

    fn from(_error: AllocFailed<T>) -> BoundFault {
        OUT_OF_MEMORY
    }
}
