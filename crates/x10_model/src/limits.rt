//! The limits of a module and of what it makes. Definitions, checks and messages all use these constants.

/// The most places of a run, and the most that a module may ask for.
pub const MOST_PLACES: u16 = 64;

/// The most classes, the most ints and the most texts of a module.
pub const MOST_ENTRIES: u16 = 65_535;

/// The most functions of a module.
pub const MOST_FUNCTIONS: u16 = 256;

/// The most fields of a class.
pub const MOST_FIELDS: u8 = 16;

/// The most parameters of a function.
pub const MOST_PARAMETERS: u8 = 16;

/// The most values that one message carries, which are a function's arguments.
pub const MOST_ROOTS: u16 = MOST_PARAMETERS as u16;

/// The most registers of a function.
pub const MOST_REGISTERS: u8 = 64;

/// The most loop slots of a function, which is how deep loops may be nested.
pub const MOST_LOOPS: u8 = 8;

/// The most instructions of a function.
pub const MOST_INSTRUCTIONS: u16 = 4096;

/// The most turns of a loop.
pub const MOST_TURNS: u16 = 65_535;

/// The most bytes of a text or a rail.
pub const MOST_BYTES: u16 = 65_535;

/// The most texts, rails or objects of a frame of version 1, whose numbers have 16 bits.
pub const MOST_NARROW: u16 = 65_535;

/// The most texts, rails or objects of a frame of version 2, whose numbers have 32 bits.
pub const MOST_WIDE: u32 = 1_048_576;
