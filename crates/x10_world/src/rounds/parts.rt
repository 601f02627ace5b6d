//! The parts of a turn.
ghost use Rattle.std.specs.Prelude.{◌≢◌, ◌≤◌, true};
ghost use Rattle.x10_world.specs.Rounds.{Advances};

use crate::rounds::{Rounds, Unfinished};
use crate::world::World;

/// A part of a turn. Each is a type, and the loop over it a function of its own: one for all parts would be too large to be put
/// where it is called.
pub(crate) trait Part {
    /// Makes the next event of the part, or more of them; none where there is none. Answers how many events these are.
    fn make_some(rounds: &mut Rounds, world: &mut World, left: u64) -> Result<u64, Unfinished>
        requires going { world.old.stopped ≢ true }
        requires some { 1 ≤ left }
        ensures made { Advances world.old left result world.new };
}

/// The frames that a turn takes in.
pub(crate) struct Frames;

/// The steps of a turn, one after another.
pub(crate) struct Steps;

/// The steps of a turn, all in one go.
pub(crate) struct Sweeps;

impl Part for Frames {
    #[inline(always)]
    fn make_some(rounds: &mut Rounds, world: &mut World, left: u64) -> Result<u64, Unfinished> {
        rounds.take_next(world, left)
    }
}

impl Part for Steps {
    #[inline(always)]
    fn make_some(rounds: &mut Rounds, world: &mut World, left: u64) -> Result<u64, Unfinished> {
        rounds.step_next(world, left)
    }
}

impl Part for Sweeps {
    #[inline(always)]
    fn make_some(rounds: &mut Rounds, world: &mut World, left: u64) -> Result<u64, Unfinished> {
        rounds.sweep_next(world, left)
    }
}
