//! How many events a drawing has noted.
ghost use Rattle.std.specs.Prelude.{◌≡◌};
ghost use Rattle.x10_draw.specs.Counting.{counted};

use x10_world::Done;

/// How many events of each kind, up to 2^64 - 1.
#[derive(Clone, Copy, Debug, PartialEq, Eq)]
pub struct Counts {
    /// Steps that moved.
    pub steps: u64,
    /// Frames that were taken in.
    pub taken: u64,
    /// Events that did nothing.
    pub idle: u64,
}

impl Counts {
    /// The counts after one more event.
    pub(crate) fn after(self, done: Done) -> Counts
        ensures { result ≡ counted self done }
    {
        match done {
            Done::Idle => Counts {
                idle: self.idle.saturating_add(1),
                ..self
            },
            Done::Moved { .. } => Counts {
                steps: self.steps.saturating_add(1),
                ..self
            },
            Done::Taken { .. } => Counts {
                taken: self.taken.saturating_add(1),
                ..self
            },
        }
    }
}
