//! Steps of a stay, one after another.
ghost use Rattle.std.specs.Prelude.{◌≡◌, ◌≢◌, ◌<◌, ◌≤◌, Ok};
ghost use Rattle.x10_place.specs.declared.outcome.Outcome.TheVariants as outcome;
ghost use Rattle.x10_place.specs.WorkingStays.{IsWorking};
ghost use Rattle.x10_place.specs.declared.stay.Locality.{Locality};
ghost use Rattle.x10_place.specs.Stays.{location};
ghost use Rattle.x10_place.specs.Stretches.{Paused};

use crate::outcome::Outcome;
use crate::stay::{Locality, Stay};
use crate::store::Store;
use std::alloc::Global;
use x10_kinds::Stop;
use x10_verify::Verified;

impl Stay {
    /// `most` steps, or as many as come before one that waits, is for the place to make, or is refused: how many were made,
    /// and what became of the stay then. Operations of the top call frame alone are made in a loop of their own.
    pub(crate) fn run_stretch(
        &mut self,
        alloc: Global,
        verified: &Verified,
        locality: Locality,
        store: &mut Store,
        most: u64,
    ) -> (u64, Result<Outcome, Stop>)
        requires { IsWorking (location verified.now.program locality) store.old self.old }
        ensures ran { Paused result.1 (location verified.now.program locality) self.old store.old
            result.0 self.new store.new }
        ensures few { result.0 ≤ most }
        ensures all { result.1 ≡ Ok outcome.Goes → result.0 ≡ most }
        ensures less { result.1 ≢ Ok outcome.Goes → result.0 < most }
    {
        verified.certificate();
        // one number for both loops: how many steps are left
        let mut left = most;
        loop {
            let (count, next) = self.top.run_instructions(&mut store.heap, verified, left);
            left -= count;
            let Some(instr) = next else {
                return (most - left, Ok(Outcome::Goes));
            };
            let made = self.step(alloc, verified, locality, store, instr);
            if made != Ok(Outcome::Goes) {
                return (most - left, made);
            }
            left -= 1;
        }
    }
}
