use crate::module::Module;
use crate::run::Run;
use crate::station::Station;

/// What is behind a handle.
#[derive(Drop)]
pub enum Inside {
    /// A verified module.
    Module(Module),
    /// A place.
    Place(Station),
    /// All places of a run, and the frames between them.
    World(Run),
}
