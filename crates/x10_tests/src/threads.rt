//! Halls, runs with a thread for each place, and logs.
pub(crate) mod changed;
pub(crate) mod ends;
pub(crate) mod halls;
pub(crate) mod logs;
pub(crate) mod meeting;
pub(crate) mod ports;
pub(crate) mod runs;
pub(crate) mod small_logs;
pub(crate) mod turns;
pub(crate) mod weaving;
