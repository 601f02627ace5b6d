//! Whether a log is a run, found out from the trails of its places.
ghost use Rattle.std.specs.Prelude.{◌≡◌, ◌↔◌, ℕ, ◌+◌, ◌<◌, ◌^◌, ◌++◌, List, Option, Some, IsTrue, IsFalse, IfOk, IfErr, IfSome, IfNone, length, map, slice_get};
ghost use Rattle.x10_hall.specs.Halls.{PostedFrame, frame_of, told};
ghost use Rattle.x10_place.specs.StandsFor.{line_as};
ghost use Rattle.x10_verify.specs.Certified.{Certified, IsCertified};
ghost use Rattle.x10_world.specs.Endings.{lines_in};
ghost use Rattle.x10_workers.specs.Plays.{IsPlayed};
ghost use Rattle.x10_workers.specs.Trails.{IsTrail};
ghost use Rattle.x10_workers.specs.Workings.{AreTrails};
ghost use Rattle.x10_workers.specs.declared.trail.Trail as trail;
ghost use Rattle.x10_workers.specs.Weaves.{Woven, IsTurnOf, TakesOff, TakesOffEach, IsNextTurn, Weaves, WeavesAll, AreAllWoven, AreWithin, IsWovenWhole, IsNotWoven, ExplainsWeave, all_flying, nothing_woven};
ghost use Rattle.x10_workers.specs.Looms.{woven};
ghost use Rattle.x10_workers.specs.declared.trail.OwnTurn as turn;

use crate::fault::AuditFault;
use crate::lines::same_lines;
use crate::trail::{OwnTurn, Trail};
use std::alloc::{AllocError, Global};
use x10_hall::{Posted, Repeats, Taken, Turn};
use x10_kinds::Stop;
use x10_place::Line;
use x10_world::copied_lines;

/// How far a log was found in the trails.
#[derive(Drop)]
struct Loom<'l> {
    /// How many turns of each trail are in the log so far.
    cursors: Vec<usize>,
    /// The frames that were posted, by number; none where the frame was taken.
    flying: Vec<Option<&'l Posted>>,
}

/// Whether the numbers of some frames are these.
fn same_numbers(taken: &[Taken], numbers: &[u64]) -> bool
    ensures { IsTrue result ↔ (map (λ f. f.number) taken.now ≡ numbers.now) }
{
    if taken.len() != numbers.len() {
        return false;
    }
    for at in 0..taken.len() {
        if taken[at].number != numbers[at] {
            return false;
        }
    }
    true
}

/// Whether two frames go to the same place and have the same bytes.
fn same_frame(one: &Posted, other: &Posted) -> bool
    ensures { IsTrue result ↔ (frame_of one.now ≡ frame_of other.now) }
{
    one.to == other.to && one.bytes.as_slice() == other.bytes.as_slice()
}

/// Whether two lists of frames are the same.
fn same_frames(one: &[Posted], other: &[Posted]) -> bool
    ensures { IsTrue result ↔ (map frame_of one.now ≡ map frame_of other.now) }
{
    if one.len() != other.len() {
        return false;
    }
    for at in 0..one.len() {
        if !same_frame(&one[at], &other[at]) {
            return false;
        }
    }
    true
}

/// Whether a turn of the log is what a place kept of its turn.
fn is_turn_of(own: &OwnTurn, turn: &Turn) -> bool
    ensures { IsTrue result ↔ IsTurnOf own.now turn.now }
{
    same_numbers(&own.taken, &turn.taken)
        && own.keys.is_same(&turn.keys)
        && same_frames(&own.frames, &turn.frames)
        && same_lines(&own.lines, &turn.lines)
}

/// Whether a frame was posted to a place, with these bytes.
fn goes_to(posted: &Posted, place: u16, frame: &Taken) -> bool
    ensures { IsTrue result ↔ (frame_of posted.now
        ≡ record { to = place; bytes = (told frame.now).bytes }) }
{
    posted.to == place && posted.bytes.as_slice() == frame.bytes.as_slice()
}

impl<'l> Loom<'l> {
    /// A loom for these places, with nothing logged.
    fn new(alloc: Global, places: usize) -> Result<Loom<'l>, AllocError>
        ensures { IfOk result (λ loom. woven loom ≡ nothing_woven places) }
    {
        Ok(Loom {
            cursors: vec![in alloc; 0; places]?,
            flying: Vec::new(alloc),
        })
    }

    /// Takes a frame that a place took in, and answers whether it was in flight to this place.
    fn take_one(&mut self, place: u16, frame: &Taken) -> bool
        ensures cursors { self.new.cursors ≡ self.old.cursors }
        ensures takes { IsTrue result → TakesOff (woven self.old).flying place (told frame.now)
            (woven self.new).flying }
        ensures refuses { IsFalse result → (after : List (Option PostedFrame))
            → TakesOff (woven self.old).flying place (told frame.now) after → ⊥ }
    {
        let number = frame.number as usize;
        if number >= self.flying.len() {
            return false;
        }
        match self.flying[number] {
            Some(posted) if goes_to(posted, place, frame) => {
                self.flying[number] = None;
                true
            }
            _ => false,
        }
    }

    /// Takes frames, one after another, and answers whether each was in flight to the place then.
    fn take_all(&mut self, place: u16, frames: &[Taken]) -> bool
        ensures cursors { self.new.cursors ≡ self.old.cursors }
        ensures takes { IsTrue result → TakesOffEach (woven self.old).flying place
            (map told frames.now) (woven self.new).flying }
        ensures refuses { IsFalse result → (after : List (Option PostedFrame))
            → TakesOffEach (woven self.old).flying place (map told frames.now) after → ⊥ }
    {
        for at in 0..frames.len() {
            if !self.take_one(place, &frames[at]) {
                return false;
            }
        }
        true
    }

    /// Puts frames under the next numbers.
    fn post_all(&mut self, frames: &'l [Posted]) -> Result<(), AllocError>
        ensures cursors { self.new.cursors ≡ self.old.cursors }
        ensures flying { IfOk result (λ _. (woven self.new).flying
            ≡ (woven self.old).flying ++ all_flying (map frame_of frames.now)) }
    {
        for at in 0..frames.len() {
            self.flying.push(Some(&frames[at]))?;
        }
        Ok(())
    }

    /// The next turn of a place's trail, and its number.
    fn next_of<'t>(&self, trails: &'t [Trail], place: usize) -> Option<(usize, &'t OwnTurn)>
        ensures next { IfSome result (λ next. IsNextTurn trails.now
            (woven self.now).cursors place next.0 next.1.now) }
        ensures small { IfSome result (λ next. next.0 + 1 < 2 ^ 64) }
        ensures none { IfNone result ((cursor : ℕ) (own : turn.OwnTurn)
            → IsNextTurn trails.now (woven self.now).cursors place cursor own → ⊥) }
    {
        if place >= trails.len() {
            return None;
        }
        if place >= self.cursors.len() {
            return None;
        }
        let cursor = self.cursors[place];
        let turns = trails[place].turns();
        if cursor >= turns.len() {
            return None;
        }
        Some((cursor, turns.at(cursor)))
    }

    /// Whether a turn is the next one of its place's trail, and took what was in flight to this place. If so, it is counted.
    fn weave_turn(&mut self, trails: &[Trail], turn: &'l Turn) -> Result<bool, AllocError>
        ensures weaves { IfOk result (λ same. IsTrue same
            → Weaves trails.now (woven self.old) turn.now (woven self.new)) }
        ensures refuses { IfOk result (λ same. IsFalse same → (after : Woven)
            → Weaves trails.now (woven self.old) turn.now after → ⊥) }
    {
        let place = usize::from(turn.place);
        let Some((cursor, own)) = self.next_of(trails, place) else {
            return Ok(false);
        };
        if !is_turn_of(own, turn) {
            return Ok(false);
        }
        if !self.take_all(turn.place, &own.taken) {
            return Ok(false);
        }
        self.post_all(&turn.frames)?;
        self.cursors[place] = cursor + 1;
        Ok(true)
    }

    /// Goes through a log, up to the first turn that differs.
    fn weave_all(&mut self, trails: &[Trail], log: &'l Repeats<Turn>) -> Result<(), AuditFault>
        ensures ok { IfOk result (λ _. WeavesAll trails.now (woven self.old) log.now.items
            (woven self.new)) }
        ensures err { IfErr result (IsNotWoven trails.now (woven self.old) log.now.items) }
    {
        for at in 0..log.len() {
            match self.weave_turn(trails, log.at(at)) {
                Ok(true) => {}
                Ok(false) => return Err(AuditFault::Differs(at)),
                Err(_) => return Err(AuditFault::Stop(Stop::Memory)),
            }
        }
        Ok(())
    }

    /// Whether all turns of the trail with a number are in the log.
    fn is_at_end(&self, at: usize, trail: &Trail) -> bool
        ensures { IsTrue result ↔ (slice_get self.now.cursors.items at
            ≡ Some (length trail.now.turns)) }
    {
        at < self.cursors.len() && self.cursors[at] == trail.turns().len()
    }

    /// Whether all turns of the trails are in the log.
    fn is_done(&self, trails: &[Trail]) -> bool
        ensures { IsTrue result ↔ AreAllWoven trails.now (woven self.now) }
    {
        for at in 0..trails.len() {
            if !self.is_at_end(at, &trails[at]) {
                return false;
            }
        }
        true
    }
}

/// A copy of the lines of each place.
fn outputs_of(alloc: Global, trails: &[Trail]) -> Result<Vec<Vec<Line>>, AllocError>
    ensures { IfOk result (λ outputs. lines_in outputs.items
        ≡ map (λ t. map line_as t.lines) trails.now) }
{
    let mut outputs = Vec::with_capacity(alloc, trails.len())?;
    for at in 0..trails.len() {
        let lines = copied_lines(alloc, trails[at].lines())?;
        outputs.push(lines)?;
    }
    Ok(outputs)
}

/// All trails are trails, as each one is.
fn assure(trails: &[Trail])
    ensures { (id : ℕ) (t : trail.Trail) → slice_get trails.now id ≡ Some t
        → IsTrail t × IsCertified t.certified }
{
    for at in 0..trails.len() {
        trails[at].assure();
    }
}

/// Compares a log with the trails of its places, of which the first is that of place 0, and answers what each place printed.
/// Each turn has to be the next one of its place's trail, and each frame that it took in has to be one that was posted earlier
/// to this place under this number, with these bytes, and not taken before. It refuses the first turn that differs; then a
/// trail with a turn that isn't in the log, by the number of turns that are; then trails after which some activity may be left.
/// An Ok says that all turns of the log are in the trails and all turns of the trails in the log, whoever made them. No step is
/// made. Linear in the turns, with the bytes of their frames and lines.
pub fn weave(
    alloc: Global,
    log: &Repeats<Turn>,
    trails: &[Trail],
) -> Result<Vec<Vec<Line>>, AuditFault>
    ensures ok { (c : Certified) → AreTrails c trails.now
        → IfOk result (λ outputs. IsPlayed c (length trails.now) log.now.items
        (lines_in outputs.items)) }
    ensures whole { IfOk result (λ _. IsWovenWhole trails.now log.now.items) }
    ensures within { IfOk result (λ _. AreWithin (length trails.now) log.now.items) }
    ensures lines { IfOk result (λ outputs. lines_in outputs.items
        ≡ map (λ t. map line_as t.lines) trails.now) }
    ensures err { IfErr result (ExplainsWeave trails.now log.now.items) }
{
    assure(trails);
    let Ok(mut loom) = Loom::new(alloc, trails.len()) else {
        return Err(AuditFault::Stop(Stop::Memory));
    };
    loom.weave_all(trails, log)?;
    if !loom.is_done(trails) {
        return Err(AuditFault::Differs(log.len()));
    }
    match trails.first() {
        Some(trail) if trail.is_closed() => {}
        _ => return Err(AuditFault::Open),
    }
    match outputs_of(alloc, trails) {
        Ok(outputs) => Ok(outputs),
        Err(_) => Err(AuditFault::Stop(Stop::Memory)),
    }
}
