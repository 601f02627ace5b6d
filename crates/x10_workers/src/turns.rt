//! Making the events of a turn in a world, and comparing what they do with what the turn says.
ghost use Rattle.std.specs.Prelude.{◌≡◌, ◌≢◌, ◌↔◌, true, IsTrue, IsFalse, IfOk, IfErr, MatchOption, Some, length};
ghost use Rattle.x10_model.specs.declared.event.Event.TheVariants.{Step, Deliver};
ghost use Rattle.x10_flights.specs.Flights.{flight_of};
ghost use Rattle.x10_world.specs.Queries.{HasNoPlace, HasPlace};
ghost use Rattle.x10_world.specs.StandsForWorld.{WorldState};
ghost use Rattle.x10_workers.specs.Audits.{IsNotFor, HasPrinted, IsOther, IsRefusedAt, HaltsTaking, HaltsStepping, HaltsTurn};
ghost use Rattle.x10_workers.specs.Plays.{TakesFrames, TakesOne, StepsAll, StepsKey, PutsOutFrames, PlaysTurn, flight_as};

use crate::lines::are_behind;
use x10_hall::{Keys, Posted, Turn};
use x10_kinds::Stop;
use x10_model::Event;
use x10_place::Line;
use x10_world::{Done, World};

/// Takes a frame in, and answers whether it was in flight to the place.
fn take_one(world: &mut World, place: u16, number: u64) -> Result<bool, Stop>
    requires { world.old.stopped ≢ true }
    ensures takes { IfOk result (λ same. IsTrue same → TakesOne world.old place number world.new) }
    ensures refuses { IfOk result (λ same. IsFalse same → IsNotFor world.old number place) }
    ensures goes { IfOk result (λ _. world.new.stopped ≢ true) }
    ensures halted { IfErr result (IsRefusedAt world.old (Deliver number)) }
{
    match world.event(Event::Deliver(number))? {
        Done::Taken { to } => Ok(to == place),
        _ => Ok(false),
    }
}

/// Takes frames in, one after another, and answers whether each was in flight to the place then.
fn take_all(world: &mut World, place: u16, taken: &[u64]) -> Result<bool, Stop>
    requires { world.old.stopped ≢ true }
    ensures takes { IfOk result (λ same. IsTrue same
        → TakesFrames world.old place taken.now world.new) }
    ensures refuses { IfOk result (λ same. IsFalse same → (y : WorldState)
        → TakesFrames world.old place taken.now y → ⊥) }
    ensures goes { IfOk result (λ _. world.new.stopped ≢ true) }
    ensures halted { IfErr result (HaltsTaking world.old place taken.now) }
{
    for at in 0..taken.len() {
        if !take_one(world, place, taken[at])? {
            return Ok(false);
        }
    }
    Ok(true)
}

/// One step of the activity with a key at a place, if it is there.
fn step_one(world: &mut World, place: u16, key: usize) -> Result<(), Stop>
    requires { world.old.stopped ≢ true }
    ensures steps { IfOk result (λ _. StepsKey world.old place key world.new) }
    ensures goes { IfOk result (λ _. world.new.stopped ≢ true) }
    ensures halted { IfErr result (IsRefusedAt world.old (Step place key)) }
{
    world.event(Event::Step(place, key))?;
    Ok(())
}

/// One step of each key, one after another.
fn step_all(world: &mut World, place: u16, keys: &Keys) -> Result<(), Stop>
    requires { world.old.stopped ≢ true }
    ensures steps { IfOk result (λ _. StepsAll world.old place keys.now world.new) }
    ensures goes { IfOk result (λ _. world.new.stopped ≢ true) }
    ensures halted { IfErr result (HaltsStepping world.old place keys.now) }
{
    for at in 0..keys.len() {
        step_one(world, place, keys.at(at))?;
    }
    Ok(())
}

/// Whether a frame is in flight under a number.
fn is_flying(world: &World, number: u64, frame: &Posted) -> bool
    ensures { IsTrue result ↔ (flight_of world.now.flights number
        ≡ Some (flight_as number frame.now)) }
{
    match world.frame(number) {
        Some((to, bytes)) => to == frame.to && bytes == frame.bytes.as_slice(),
        None => false,
    }
}

/// Whether these frames are in flight under the numbers from `first` on, and no others were numbered since.
fn were_posted(world: &World, first: u64, frames: &[Posted]) -> bool
    ensures { IsTrue result ↔ PutsOutFrames first frames.now world.now }
{
    let posted = world.posted();
    if posted < first || posted - first != frames.len() as u64 {
        return false;
    }
    for at in 0..frames.len() {
        if !is_flying(world, first + at as u64, &frames[at]) {
            return false;
        }
    }
    true
}

/// Whether a place printed these lines, after as many as a number says.
fn were_printed(world: &World, place: u16, before: usize, lines: &[Line]) -> bool
    ensures { IsTrue result ↔ HasPrinted world.now place before lines.now }
{
    match world.output(place) {
        Some(all) => are_behind(all, before, lines),
        None => false,
    }
}

/// Whether what was put out and printed since is what a turn says.
fn is_told(world: &World, first: u64, before: usize, turn: &Turn) -> bool
    ensures { IsTrue result ↔ (PutsOutFrames first turn.now.frames.items world.now
        × HasPrinted world.now turn.now.place before turn.now.lines.items) }
{
    were_posted(world, first, &turn.frames) && were_printed(world, turn.place, before, &turn.lines)
}

/// How many lines a place has printed; none where there is no such place.
fn printed_at(world: &World, place: u16) -> Option<usize>
    ensures { MatchOption result (HasNoPlace world.now.places place)
        (λ count. HasPlace world.now.places place (λ p. count ≡ length p.lines)) }
{
    Some(world.output(place)?.len())
}

/// Makes the events of a turn, and answers whether they took in, put out and printed what the turn says.
pub(crate) fn replay_turn(world: &mut World, turn: &Turn) -> Result<bool, Stop>
    requires { world.old.stopped ≢ true }
    ensures plays { IfOk result (λ same. IsTrue same → PlaysTurn world.old turn.now world.new) }
    ensures refuses { IfOk result (λ same. IsFalse same → IsOther world.old turn.now) }
    ensures goes { IfOk result (λ _. world.new.stopped ≢ true) }
    ensures halted { IfErr result (HaltsTurn world.old turn.now) }
{
    let Some(before) = printed_at(world, turn.place) else {
        return Ok(false);
    };
    let first = world.posted();
    if !take_all(world, turn.place, &turn.taken)? {
        return Ok(false);
    }
    step_all(world, turn.place, &turn.keys)?;
    Ok(is_told(world, first, before, turn))
}
