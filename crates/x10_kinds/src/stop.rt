use crate::limit::Limit;

/// Why a machine stopped.
#[derive(Clone, Copy, Debug, PartialEq, Eq)]
pub enum Stop {
    /// A growth was refused for lack of memory.
    Memory,
    /// A count would have passed its greatest value.
    Limit(Limit),
    /// It had stopped before.
    Stopped,
}
