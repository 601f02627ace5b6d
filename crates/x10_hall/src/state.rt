//! Whether a run goes on.

/// Whether the run of a hall goes on.
#[derive(Clone, Copy, Debug, PartialEq, Eq)]
pub enum HallState {
    /// It goes on.
    Open,
    /// It has ended: no activity is left.
    Finished,
    /// A worker has stopped it.
    Stopped,
}
