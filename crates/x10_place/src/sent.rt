//! What a step puts out.

ghost use Rattle.std.specs.Prelude.{◌≡◌};
ghost use Rattle.x10_place.specs.Messages.{no_sent as nothing_sent};

use std::alloc::Global;

/// A frame for a place.
#[derive(Drop)]
pub struct Outgoing {
    /// The place that it goes to.
    pub to: u16,
    /// Its bytes.
    pub bytes: Vec<u8>,
}

/// What a step puts out: a message, and a report of what this place has counted of a finish. They go out in this order.
#[derive(Drop)]
pub struct Sent {
    /// A new activity, one that goes on elsewhere, or the result of one that did.
    pub message: Option<Outgoing>,
    /// The counts of a finish, for its home.
    pub report: Option<Outgoing>,
}

/// Nothing is put out.
pub(crate) fn no_sent() -> Sent
    ensures { result ≡ nothing_sent }
{
    Sent {
        message: None,
        report: None,
    }
}
