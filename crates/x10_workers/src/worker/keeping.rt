//! What a worker keeps of its turns, and posts of them.
ghost use Rattle.std.specs.Prelude.{◌≡◌, IsTrue, IfErr, IfOk};
ghost use Rattle.x10_place.specs.StandsFor.{PlaceState};
ghost use Rattle.x10_workers.specs.Causes.{Halts};
ghost use Rattle.x10_workers.specs.Workings.{IsSilent, AreAlike, IsAgain, KeepsTurn};

use crate::frames::shared;
use crate::halt::Halt;
use crate::trail::OwnTurn;
use crate::worker::{MOST_UNPOSTED, Worker};
use std::alloc::AllocError;
use std::mem;
use x10_hall::{Port, Stint, Turn};
use x10_world::copied_lines;

/// Whether two turns took nothing in, put nothing out, and stepped the same keys.
fn is_same_silent(one: &OwnTurn, other: &OwnTurn) -> bool
    ensures { IsTrue result → AreAlike one.now other.now }
{
    is_silent(one) && is_silent(other) && one.keys.is_same(&other.keys)
}

/// Whether a turn took no frame in, and put none out, and printed nothing.
fn is_silent(own: &OwnTurn) -> bool
    ensures { IsTrue result → IsSilent own.now }
{
    own.taken.is_empty() && own.frames.is_empty() && own.lines.is_empty()
}

impl<'a> Worker<'a> {
    /// Keeps what a turn did. A turn that sends a frame is posted at once, with those before it; else several are posted together.
    pub(super) fn keep(&mut self, own: OwnTurn, port: &impl Port) -> Result<(), Halt>
        ensures place { self.new.place ≡ self.old.place }
        ensures kept { IfOk result (λ _. KeepsTurn own self.old.kept.items self.new.kept.items) }
        ensures halts { IfErr result (Halts self.old.place) }
    {
        let sends = !own.frames.is_empty();
        self.add(own)?;
        if sends || self.waiting >= MOST_UNPOSTED {
            self.post(port)?;
        }
        Ok(())
    }

    /// Keeps what a turn did; where that is the same again, only that it is.
    fn add(&mut self, own: OwnTurn) -> Result<(), AllocError>
        ensures place { self.new.place ≡ self.old.place }
        ensures kept { IfOk result (λ _. KeepsTurn own self.old.kept.items self.new.kept.items) }
    {
        if self.is_again(&own) {
            self.wait_again(&own)?;
            self.kept.again()?;
            return Ok(());
        }
        self.wait_to_be_posted(&own)?;
        self.kept.push(own)?;
        Ok(())
    }

    /// Whether a turn took nothing in, put nothing out and did the same as the last one that was kept.
    fn is_again(&self, own: &OwnTurn) -> bool
        ensures { IsTrue result → IsAgain self.now.kept.items own.now }
    {
        if self.kept.len() == 0 {
            return false;
        }
        is_same_silent(self.kept.at(self.kept.len() - 1), own)
    }

    /// Notes that a turn is to be posted.
    fn wait_to_be_posted(&mut self, own: &OwnTurn) -> Result<(), AllocError>
        ensures place { self.new.place ≡ self.old.place }
        ensures kept { self.new.kept ≡ self.old.kept }
    {
        let turn = self.told(own)?;
        self.unposted.push(Stint { turn, times: 1 })?;
        self.waiting = self.waiting.saturating_add(1);
        Ok(())
    }

    /// Notes that the last turn, which did the same as this one, is to be posted once more.
    fn wait_again(&mut self, own: &OwnTurn) -> Result<(), AllocError>
        ensures place { self.new.place ≡ self.old.place }
        ensures kept { self.new.kept ≡ self.old.kept }
    {
        let Some(stint) = self.unposted.last_mut() else {
            return self.wait_to_be_posted(own);
        };
        stint.times = stint.times.saturating_add(1);
        self.waiting = self.waiting.saturating_add(1);
        Ok(())
    }

    /// Posts the turns that are not yet in the log.
    pub fn post(&mut self, port: &impl Port) -> Result<(), Halt>
        ensures place { self.new.place ≡ self.old.place }
        ensures kept { self.new.kept ≡ self.old.kept }
        ensures halts { IfErr result (λ why. (p : PlaceState) → Halts p why) }
    {
        if self.unposted.is_empty() {
            return Ok(());
        }
        let stints = mem::replace(&mut self.unposted, Vec::new(self.alloc));
        self.waiting = 0;
        port.post(stints)?;
        Ok(())
    }

    /// The turn that was just made, in the form of the log.
    fn told(&mut self, own: &OwnTurn) -> Result<Turn, AllocError>
        ensures place { self.new.place ≡ self.old.place }
        ensures kept { self.new.kept ≡ self.old.kept }
    {
        let taken = mem::replace(&mut self.begun.taken, Vec::new(self.alloc));
        Ok(Turn {
            place: self.id,
            taken,
            keys: own.keys.copied(self.alloc)?,
            frames: shared(self.alloc, &own.frames)?,
            lines: copied_lines(self.alloc, &own.lines)?,
        })
    }
}
