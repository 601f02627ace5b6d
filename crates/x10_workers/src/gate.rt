//! What is notified of a worker's turns.

/// Is notified of each turn of each worker, while no lock is held. With it a test can see that places work at the same time.
pub trait Gate {
    /// The worker of a place is in its turn with this number: after the frames that it took, and before its steps. Turns are
    /// counted from 0, and the number stays at 2^64 - 1. A turn counts where it took a frame or finds an activity.
    fn inside(&self, place: u16, turn: u64);
}

/// A gate that does nothing.
#[derive(Clone, Copy, Debug)]
pub struct Open;

impl Gate for Open {
    fn inside(&self, _place: u16, _turn: u64) {}
}
