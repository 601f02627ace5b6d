/// Why a handle isn't opened.
#[derive(Clone, Copy, Debug, PartialEq, Eq)]
pub enum Unopened {
    /// It is open already.
    InUse,
    /// The handle of the module isn't that of one.
    NoModule,
    /// The module doesn't run at so many places, or there is no such place among them.
    Places,
    /// Memory was refused.
    Memory,
}
