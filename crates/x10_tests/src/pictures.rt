//! Pictures of runs.
pub(crate) mod drawing;
pub(crate) mod drawn;
