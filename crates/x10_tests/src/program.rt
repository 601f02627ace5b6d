//! The commands of the program, and explanations.
pub(crate) mod explaining;
pub(crate) mod logs;
pub(crate) mod threads;
pub(crate) mod usage;
pub(crate) mod writers;
