/// An object that global references of all places may name.
#[derive(Clone, Copy, Debug, PartialEq, Eq)]
pub struct Export {
    /// The number of its class.
    pub class: u16,
    /// Its number among the objects.
    pub object: u32,
}
