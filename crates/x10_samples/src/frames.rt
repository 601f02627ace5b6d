/// An activity that goes on at place 1.
pub const SHIFT: [u8; 32] = [
    2, 2, 0, 0, 0, 1, 0, 0, 0, 0, 0, 0, 0, 0, 0, 1, 0, 1, 0, 0, 0, 0, 0, 0, 0, 0, 0, 0, 0, 0, 0, 0,
];

/// A new activity with nothing passed.
pub const SPAWN: [u8; 28] = [
    2, 1, 0, 1, 0, 2, 0, 0, 0, 0, 0, 1, 0, 0, 0, 0, 0, 0, 0, 0, 0, 0, 0, 0, 0, 0, 0, 0,
];

/// The way back, with no result.
pub const BACK: [u8; 24] = [
    2, 3, 0, 1, 0, 0, 0, 0, 0, 0, 0, 0, 0, 0, 0, 0, 0, 0, 0, 0, 0, 0, 0, 0,
];

/// One sent to place 2, one received from place 0.
pub const REPORT: [u8; 36] = [
    2, 4, 0, 1, 0, 0, 0, 0, 0, 1, 0, 3, 0, 0, 0, 0, 0, 0, 0, 0, 0, 0, 0, 1, 0, 0, 0, 1, 0, 0, 0, 0,
    0, 0, 0, 0,
];

/// None sent, one received from place 1.
pub const OTHER_REPORT: [u8; 36] = [
    2, 4, 0, 2, 0, 0, 0, 0, 0, 1, 0, 3, 0, 0, 0, 0, 0, 0, 0, 0, 0, 0, 0, 0, 0, 0, 0, 0, 0, 0, 0, 1,
    0, 0, 0, 0,
];

/// A new activity with two objects, each of which holds the other, a rail that they share, and a global
/// reference.
pub const CYCLE: [u8; 83] = [
    2, 1, 0, 0, 0, 1, 0, 0, 0, 0, 0, 1, 0, 0, 0, 1, 0, 0, 0, 0, 0, 0, 0, 1, 0, 0, 0, 2, 5, 0, 0, 0,
    0, 0, 0, 0, 2, 0, 0, 0, 0, 3, 5, 0, 0, 0, 1, 4, 0, 0, 0, 0, 7, 0, 0, 0, 0, 0, 0, 0, 1, 0, 0, 3,
    5, 0, 0, 0, 0, 4, 0, 0, 0, 0, 7, 0, 0, 0, 0, 0, 0, 0, 1,
];

/// A new activity at the only place.
pub const ALONE: [u8; 28] = [
    2, 1, 0, 0, 0, 0, 0, 0, 0, 0, 0, 0, 0, 0, 0, 0, 0, 0, 0, 0, 0, 0, 0, 0, 0, 0, 0, 0,
];

/// `SHIFT` in version 1.
pub const NARROW_SHIFT: [u8; 26] = [
    1, 2, 0, 0, 0, 1, 0, 0, 0, 0, 0, 0, 0, 0, 0, 1, 0, 1, 0, 0, 0, 0, 0, 0, 0, 0,
];

/// `BACK` in version 1.
pub const NARROW_BACK: [u8; 18] = [1, 3, 0, 1, 0, 0, 0, 0, 0, 0, 0, 0, 0, 0, 0, 0, 0, 0];

/// `REPORT` in version 1.
pub const NARROW_REPORT: [u8; 36] = [
    1, 4, 0, 1, 0, 0, 0, 0, 0, 1, 0, 3, 0, 0, 0, 0, 0, 0, 0, 0, 0, 0, 0, 1, 0, 0, 0, 1, 0, 0, 0, 0,
    0, 0, 0, 0,
];

/// `CYCLE` in version 1.
pub const NARROW_CYCLE: [u8; 67] = [
    1, 1, 0, 0, 0, 1, 0, 0, 0, 0, 0, 1, 0, 0, 0, 1, 0, 0, 0, 1, 0, 2, 5, 0, 0, 0, 0, 0, 2, 0, 0, 0,
    0, 3, 5, 0, 1, 4, 0, 0, 7, 0, 0, 0, 0, 0, 0, 0, 1, 0, 0, 3, 5, 0, 0, 4, 0, 0, 7, 0, 0, 0, 0, 0,
    0, 0, 1,
];
