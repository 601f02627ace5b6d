//! A turn of which words are read one by one.

ghost use Rattle.std.specs.Prelude.{◌≡◌, ◌≤◌, ◌++◌, ◌∷◌, [], IfOk, IfErr, OnOk, length, replicate, MatchResult, List};
ghost use Rattle.std.specs.List.{flat_map, AllByRecursion};
ghost use Rattle.x10_hall.specs.declared.limits.TheConstants.{MOST_TAKEN, MOST_STEPS};
ghost use Rattle.x10_log.specs.declared.fault.LogCause.TheVariants.{Memory};
ghost use Rattle.x10_log.specs.Logs.{turn_value};
ghost use Rattle.x10_log.specs.Reading.{Said, said, said_text, FitsSaid, tail_bytes, draft_value, nothing_said, with_said, with_all, AreFew, IsKept};

use crate::fault::LogCause;
use crate::item::{Item, item_at};
use std::alloc::{AllocError, Global};
use x10_hall::limits::{MOST_STEPS, MOST_TAKEN};
use x10_hall::{Keys, Posted, Turn};
use x10_place::Line;

/// What the words of a turn said so far.
#[derive(Drop)]
pub struct Draft {
    place: u16,
    taken: Vec<u64>,
    keys: Vec<usize>,
    frames: Vec<Posted>,
    lines: Vec<Line>,
}

/// Appends the number of a frame that was taken in; refused where there would be too many.
fn push_number(taken: &mut Vec<u64>, number: u64) -> Result<(), LogCause>
    ensures ok { OnOk result (taken.new.items ≡ taken.old.items ++ number ∷ []) }
    ensures few { OnOk result (length taken.new.items ≤ MOST_TAKEN) }
    ensures err { IfErr result (λ cause. length (taken.old.items ++ number ∷ []) ≤ MOST_TAKEN
        → cause ≡ Memory) }
{
    if taken.len() >= usize::from(MOST_TAKEN) {
        return Err(LogCause::Count);
    }
    taken.push(number)?;
    Ok(())
}

/// Appends a key, so often; refused where there would be too many.
fn push_steps(keys: &mut Vec<usize>, key: usize, count: usize) -> Result<(), LogCause>
    ensures ok { OnOk result (keys.new.items ≡ keys.old.items ++ replicate count key) }
    ensures few { OnOk result (length keys.new.items ≤ MOST_STEPS) }
    ensures err { IfErr result (λ cause. length (keys.old.items ++ replicate count key) ≤ MOST_STEPS
        → cause ≡ Memory) }
{
    let most = usize::from(MOST_STEPS);
    if keys.len() > most || count > most - keys.len() {
        return Err(LogCause::Count);
    }
    for _ in 0..count {
        keys.push(key)?;
    }
    Ok(())
}

impl Draft {
    /// Nothing but the place.
    pub fn new(alloc: Global, place: u16) -> Draft
        ensures { draft_value result ≡ nothing_said place }
    {
        Draft {
            place,
            taken: Vec::new(alloc),
            keys: Vec::new(alloc),
            frames: Vec::new(alloc),
            lines: Vec::new(alloc),
        }
    }

    /// Appends what a word says; refused where the turn would have too many frames taken or steps.
    fn add(&mut self, item: Item) -> Result<(), LogCause>
        ensures ok { OnOk result (draft_value self.new
            ≡ with_said (draft_value self.old) (said item)) }
        ensures kept { OnOk result (IsKept (draft_value self.old) (draft_value self.new)) }
        ensures err { IfErr result (λ cause.
            AreFew (with_said (draft_value self.old) (said item)) → cause ≡ Memory) }
    {
        match item {
            Item::Taken(number) => push_number(&mut self.taken, number)?,
            Item::Steps(key, count) => push_steps(&mut self.keys, key, count)?,
            Item::Sent(frame) => self.frames.push(frame)?,
            Item::Printed(line) => self.lines.push(line)?,
        }
        Ok(())
    }

    /// Appends what the words of a line say.
    pub fn add_all(&mut self, alloc: Global, text: Option<&str>) -> Result<(), LogCause>
        ensures kept { OnOk result (IsKept (draft_value self.old) (draft_value self.new)) }
        ensures found { (ss : List Said) → AllByRecursion FitsSaid ss
            → tail_bytes text.entry ≡ flat_map said_text ss
            → AreFew (with_all (draft_value self.old) ss)
            → MatchResult result (λ _. draft_value self.new ≡ with_all (draft_value self.old) ss)
            (λ cause. cause ≡ Memory) }
    {
        let mut rest = text;
        while let Some(here) = rest {
            let (item, after) = item_at(alloc, here)?;
            self.add(item)?;
            rest = after;
        }
        Ok(())
    }

    /// The turn.
    pub fn turn(self, alloc: Global) -> Result<Turn, AllocError>
        ensures { IfOk result (λ turn. turn_value turn ≡ draft_value self) }
    {
        let keys = Keys::new(alloc, &self.keys)?;
        Ok(Turn {
            place: self.place,
            taken: self.taken,
            keys,
            frames: self.frames,
            lines: self.lines,
        })
    }
}
