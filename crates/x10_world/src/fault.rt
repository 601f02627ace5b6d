ghost use Rattle.std.specs.Prelude.{◌≡◌};
ghost use Rattle.x10_world.specs.declared.fault.OpenFault.TheVariants.{Memory};

use std::alloc::AllocError;
use thiserror::Error;

/// Why a world does not open.
#[derive(Clone, Copy, Debug, PartialEq, Eq, Error)]
pub enum OpenFault {
    /// The number of places is below the module's least, or above 64.
    #[error("Places")]
    Places,
    /// Memory was refused.
    #[error("Memory")]
    Memory,
}

impl From<AllocError> for OpenFault {
    ghost from_gives = { λ _ fault. fault ≡ Memory };

    fn from(_error: AllocError) -> OpenFault {
        OpenFault::Memory
    }
}
