//! Why a log is refused.
use thiserror::Error;
use x10_kinds::Stop;

/// Why a log is not a run of a module.
#[derive(Clone, Copy, Debug, PartialEq, Eq, Error)]
pub enum AuditFault {
    /// The turn with this number, from 0, is not what its place does then: it took what was not in flight to it, or put out
    /// or printed something else; or there is no such place. From `weave`: the number of all turns, where a trail has one more.
    #[error("Differs {0}")]
    Differs(usize),
    /// Memory was refused, or a limit of a place was met.
    #[error("Stop")]
    Stop(Stop),
    /// After all turns some activity may be left.
    #[error("Open")]
    Open,
}
