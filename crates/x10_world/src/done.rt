//! What an event did.
use x10_code::Op;

/// What an event of a world did.
#[derive(Clone, Copy, Debug, PartialEq, Eq)]
pub enum Done {
    /// Nothing. Of a step: there is no such place, no activity with the key there, it is away, another activity of the place is
    /// inside an atomic region, or it waits at the end of a finish. Of a delivery: no frame with the number is in flight.
    Idle,
    /// An activity made a step.
    Moved {
        /// The function in which it stood.
        function: u16,
        /// The number of the instruction at which it stood, from 0.
        pc: u16,
        /// The operation of that instruction.
        op: Op,
        /// The number of the first frame that the step put out; if it put out none, that of the next frame of the world.
        first: u64,
        /// How many frames it put out, numbered one after another: at most 2.
        count: u64,
    },
    /// A place took a frame in.
    Taken {
        /// The place.
        to: u16,
    },
}
