use x10_kinds::Kind;

/// What a parameter or a result is.
#[derive(Clone, Copy, Debug, PartialEq, Eq)]
pub struct Slot {
    pub kind: Kind,
    /// Only for a global reference: whether its home is the place where the function runs.
    pub home_here: bool,
}
