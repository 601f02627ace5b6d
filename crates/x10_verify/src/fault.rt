ghost use Rattle.std.specs.Prelude.{◌≡◌};
ghost use Rattle.x10_verify.specs.Faults.{flow_cause, structure_cause};

use thiserror::Error;
use x10_bounds::{BoundCause, BoundFault};

/// Why an instruction's rule does not hold.
#[derive(Clone, Copy, Debug, PartialEq, Eq)]
pub(crate) enum FlowCause {
    /// A register that is asked for is not set.
    Unset,
    /// It is set to a kind that does not fit.
    Kind,
    /// An equation that is asked for does not hold.
    Home,
    /// A register is named for a result, but there is none.
    Result,
}

/// What the verifier found against a module.
#[derive(Clone, Copy, Debug, PartialEq, Eq, Error)]
pub enum VerifyCause {
    /// A rule of structure is broken; which one (never `Memory`).
    #[error("Structure {0}")]
    Structure(BoundCause),
    /// An instruction names a register, constant, class, function or place that isn't there.
    #[error("Index")]
    Index,
    /// A register that is asked for isn't set.
    #[error("Unset")]
    Unset,
    /// It is set to a kind that doesn't fit.
    #[error("Kind")]
    Kind,
    /// An equation between places that is asked for doesn't hold.
    #[error("Home")]
    Home,
    /// A register is named for a result, but there is none; or a result is dropped.
    #[error("Result")]
    Result,
    /// A growth was refused for lack of memory.
    #[error("Memory")]
    Memory,
}

/// Why a module is refused, with the function and the instruction. Structure is looked at first over all functions, then Index,
/// then the flow of each function by itself: a cause from Unset to Result names the first function that has no consistent
/// assignment, and an instruction where it holds in a state that follows there from the entry; where there are several of
/// these, it is open which one is named.
#[derive(Clone, Copy, Debug, PartialEq, Eq, Error)]
#[error("{cause} {function} {pc}")]
pub struct VerifyFault {
    pub cause: VerifyCause,
    pub function: u16,
    pub pc: u16,
}

impl FlowCause {
    pub(crate) fn named(self) -> VerifyCause
        ensures { result ≡ flow_cause self }
    {
        match self {
            FlowCause::Unset => VerifyCause::Unset,
            FlowCause::Kind => VerifyCause::Kind,
            FlowCause::Home => VerifyCause::Home,
            FlowCause::Result => VerifyCause::Result,
        }
    }
}

/// A fault of structure as the verifier's.
pub(crate) fn structure(fault: BoundFault) -> VerifyFault
    ensures value { result.cause ≡ structure_cause fault.cause }
    ensures function { result.function ≡ fault.function }
    ensures pc { result.pc ≡ fault.pc }
{
    VerifyFault {
        cause: match fault.cause {
            BoundCause::Memory => VerifyCause::Memory,
            cause => VerifyCause::Structure(cause),
        },
        function: fault.function,
        pc: fault.pc,
    }
}

/// Memory ran out.
pub(crate) fn memory() -> VerifyFault
    ensures cause { result.cause ≡ VerifyCause.Memory }
    ensures function { result.function ≡ 0 }
    ensures pc { result.pc ≡ 0 }
{
    VerifyFault {
        cause: VerifyCause::Memory,
        function: 0,
        pc: 0,
    }
}
