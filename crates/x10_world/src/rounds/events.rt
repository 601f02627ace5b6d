//! Events of a world that rounds make, one or several at a time.
ghost use Rattle.std.specs.Prelude.{◌≡◌, ◌≢◌, ◌<◌, ◌≤◌, ℕ, true, false, IfOk, IfErr, MatchResult, length};
ghost use Rattle.x10_world.specs.Rounds.{IsCut, HasMade, Advances};
ghost use Rattle.x10_world.specs.Runs.{IsSameWorld};

use crate::rounds::Unfinished;
use crate::world::{Swept, World};
use x10_model::Event;

/// Makes one event, and answers whether it did anything.
#[inline(always)]
pub(crate) fn make(world: &mut World, event: Event) -> Result<bool, Unfinished>
    requires going { world.old.stopped ≢ true }
    ensures made { IfOk result (λ _. HasMade world.old 1 1 world.new) }
    ensures idle { IfOk result (λ moved. moved ≡ false → IsSameWorld world.old world.new) }
    ensures cut { IfErr result (λ why. (limit : ℕ) → IsCut world.old limit world.new why) }
{
    let moved = world.make_one(event)?;
    Ok(moved)
}

/// A step of an activity, by its place and key, where it is rarely made.
#[inline(never)]
fn try_step(world: &mut World, activity: (u16, usize)) -> Result<bool, Unfinished>
    requires going { world.old.stopped ≢ true }
    ensures made { IfOk result (λ _. HasMade world.old 1 1 world.new) }
    ensures idle { IfOk result (λ moved. moved ≡ false → IsSameWorld world.old world.new) }
    ensures cut { IfErr result (λ why. (limit : ℕ) → IsCut world.old limit world.new why) }
{
    make(world, Event::Step(activity.0, activity.1))
}

/// A step of each of the activities of a place with the first of some keys, at most `left`, up to one that begins or ends an
/// activity or puts out a frame.
#[inline(always)]
pub(crate) fn sweep_first(
    world: &mut World,
    place: u16,
    keys: &[usize],
    left: u64,
) -> Result<Swept, Unfinished>
    requires going { world.old.stopped ≢ true }
    ensures made { MatchResult result (λ swept. HasMade world.old left swept.made world.new)
        (IsCut world.old left world.new) }
    ensures few { IfOk result (λ swept. swept.made ≤ length keys.now) }
{
    let most = keys.len().min(left as usize);
    if most == 0 {
        return Ok(Swept { made: 0, moved: 0 });
    }
    let swept = world.sweep(place, &keys[..most])?;
    Ok(swept)
}

/// Steps of an activity in one stretch, with the idle steps of the others between them, and answers how many events these
/// are: a round has `round` of them, and `waiter` is one of the others. Only its idle step is tried. Where it isn't idle, or
/// the activity can't move, one event was made.
#[inline(never)]
pub(crate) fn beside(
    world: &mut World,
    activity: (u16, usize),
    waiter: (u16, usize),
    round: u64,
    left: u64,
) -> Result<u64, Unfinished>
    requires going { world.old.stopped ≢ true }
    requires some { 1 ≤ left }
    requires others { 1 < round }
    ensures made { Advances world.old left result world.new }
    ensures some { IfOk result (λ made. 1 ≤ made) }
{
    if try_step(world, waiter)? {
        return Ok(1);
    }
    let steps = world.run_activity(activity.0, activity.1, left.div_ceil(round))?;
    if steps == 0 {
        try_step(world, activity)?;
        return Ok(1);
    }
    Ok((steps - 1) * round + 1)
}
