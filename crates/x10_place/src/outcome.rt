//! What becomes of a stay in a step.

use x10_code::Instr;

/// How an activity goes to a place, by the operation.
#[derive(Clone, Copy, Debug, PartialEq, Eq)]
pub(crate) enum Departure {
    /// It goes on there, and its stay here waits.
    At,
    /// A new one begins there.
    Ata,
}

/// What a place makes for a stay.
#[derive(Clone, Copy, Debug, PartialEq, Eq)]
pub(crate) enum Deed {
    /// An activity begins here: ASYNC.
    Begin,
    /// An activity goes to a place: AT or ATA.
    Depart(Departure),
    /// The stay ends: a RET of its last function.
    Leave,
}

/// What becomes of a stay in a step.
#[derive(Clone, Copy, Debug, PartialEq, Eq)]
pub(crate) enum Outcome {
    /// It goes on.
    Goes,
    /// It waits at the end of a finish that may not end yet; nothing has changed.
    Waits,
    /// The step, which is one of this instruction, is for its place to make; nothing has changed.
    ForPlace(Deed, Instr),
}
