//! The limits of a turn.

/// The most frames that a turn takes in.
pub const MOST_TAKEN: u8 = 16;

/// The most steps of a turn.
pub const MOST_STEPS: u8 = 64;
