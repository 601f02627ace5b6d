//! What a rule asks of a register, for those who explain why it doesn't hold.
ghost use Rattle.std.specs.Prelude.{◌↔◌, IsTrue};
ghost use Rattle.x10_verify.specs.Causes.{Meets};

use x10_kinds::{Kind, fits};

/// What a register is asked for.
#[derive(Clone, Copy, Debug, PartialEq, Eq)]
pub enum Want {
    /// Any kind, if it is set.
    Anything,
    /// A kind that fits.
    Fitting(Kind),
    /// An object.
    AnObject,
    /// An object or null.
    AnObjectOrNull,
    /// A global reference.
    AReference,
    /// A place, or a global reference with its home.
    APlaceOrReference,
    /// A number or a text.
    AnIntOrText,
}

/// Whether a register that is set to this kind is what is asked for.
pub fn is_met(want: Want, have: Kind) -> bool
    ensures { IsTrue result ↔ Meets want have }
{
    match want {
        Want::Anything => true,
        Want::Fitting(kind) => fits(have, kind),
        Want::AnObject => matches!(have, Kind::Obj(_)),
        Want::AnObjectOrNull => matches!(have, Kind::Obj(_) | Kind::Opt(_)),
        Want::AReference => matches!(have, Kind::GRef(_)),
        Want::APlaceOrReference => matches!(have, Kind::Place | Kind::GRef(_)),
        Want::AnIntOrText => matches!(have, Kind::Int | Kind::Text),
    }
}
