//! Which operations an image of a version may have.

ghost use Rattle.std.specs.Prelude.{◌≡◌};
ghost use Rattle.x10_model.specs.Modules as model;

use x10_code::Op;
use x10_model::ImageVersion;

/// Whether an image of a version may have an operation: those of atomic regions are new in version 2. Constant time.
#[inline(always)]
pub fn is_known(version: ImageVersion, op: Op) -> bool
    ensures value { result ≡ model.is_known version op }
{
    match version {
        ImageVersion::One => !matches!(op, Op::Atomb | Op::Atome),
        ImageVersion::Two => true,
    }
}
