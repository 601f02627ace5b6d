//! A world behind a handle, from its opening on.
ghost use Rattle.std.specs.Prelude.{◌≡◌, ◌↔◌, [], IfOk, IsErrOf};
ghost use Rattle.x10_world.specs.declared.fault.OpenFault.TheVariants as fault;
ghost use Rattle.x10_world.specs.Opening.{IsForbidden, IsOpenedWorld};
ghost use Rattle.x10_handles.specs.Histories.{IsRun, IsRunOf};
ghost use Rattle.x10_handles.specs.Worlds.{IsMade};

use std::alloc::Global;
use std::marker::Model;
use x10_kinds::Stop;
use x10_model::Event;
use x10_verify::Verified;
use x10_world::{OpenFault, World};

/// A world that was opened here, and has made no events but those of `happen`.
#[derive(Drop)]
pub struct Run {
    world: World<'static>,
}

impl Model for Run {
    ghost use Rattle.x10_world.specs.StandsForWorld.{WorldState};
    ghost use Rattle.x10_handles.specs.Histories.{IsRun};

    ghost Value = { WorldState };

    ghost view = { λ r. r.world };

    ghost invariant = { λ r. IsRun r.world };
}

impl Run {
    /// A world of a module at the beginning.
    pub(crate) fn open(
        alloc: Global,
        verified: &'static Verified<'static>,
        places: u16,
    ) -> Result<Run, OpenFault>
        ensures opened { IfOk result (IsOpenedWorld verified.now places) }
        ensures begun { IfOk result (IsRunOf verified.now places []) }
        ensures places { IsErrOf result fault.Places ↔ IsForbidden verified.now places }
    {
        verified.certificate();
        let world = World::open(alloc, verified, places)?;
        Ok(Run { world })
    }

    /// The world.
    pub fn world(&self) -> &World<'static>
        ensures world { result.now ≡ self.now }
        ensures run { IsRun self.now }
    {
        &self.world
    }

    /// An event, and whether something moved.
    pub(crate) fn happen(&mut self, event: Event) -> Result<bool, Stop>
        ensures { IsMade self.old event result self.new }
    {
        self.world.going()?;
        self.world.make_one(event)
    }
}
