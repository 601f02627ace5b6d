//! A step of each of several activities, one after another.
ghost use Rattle.std.specs.Prelude.{◌≡◌, ◌≢◌, ◌↔◌, ◌<◌, ◌≤◌, ◌+◌, ◌^◌, true, IsTrue, IfOk, IfErr, IfNone, IfSome, MatchResult, Err, length};
ghost use Rattle.x10_kinds.specs.declared.stop.Stop.TheVariants as stop;
ghost use Rattle.x10_place.specs.Messages.{no_sent as nothing_sent};
ghost use Rattle.x10_place.specs.StandsFor.{Keeps};
ghost use Rattle.x10_place.specs.Sweeps.{EndsSweep, GoesOn, HasEndedIn, IsHaltedSweep, IsRefusedPace, SweepsTo};

use crate::place::{Place, Stepped};
use crate::sent::{Sent, no_sent};
use x10_kinds::Stop;

/// What a sweep over some keys did.
#[derive(Drop)]
pub struct Sweep {
    /// How many steps were made, of the first keys, idle ones included.
    pub made: usize,
    /// How many of them moved.
    pub moved: usize,
    /// What the last one put out; or why the one after it was refused.
    pub last: Result<Sent, Stop>,
}

/// Whether nothing is put out.
#[inline(always)]
fn is_nothing(sent: &Sent) -> bool
    ensures { IsTrue result ↔ sent.now ≡ nothing_sent }
{
    sent.message.is_none() && sent.report.is_none()
}

impl<'a> Place<'a> {
    /// A step of the activity with a key, and whether a sweep goes on after it: nothing where it does, what was put out where
    /// it doesn't. Moves are counted.
    #[inline(always)]
    fn pace(&mut self, key: usize, moved: &mut usize) -> Result<Option<Sent>, Stop>
        requires few { moved.old + 1 < 2 ^ 64 }
        ensures goes_on { IfOk result (λ out. IfNone out
            (GoesOn key moved.old self.old moved.new self.new)) }
        ensures ends { IfOk result (λ out. IfSome out
            (λ sent. EndsSweep key moved.old self.old sent moved.new self.new)) }
        ensures refused { IfErr result (λ why. IsRefusedPace key self.old why self.new
            × (moved.new ≡ moved.old)) }
        ensures stopped { self.old.stopped ≡ true → result ≡ Err stop.Stopped }
        ensures goes { IfOk result (λ _. self.new.stopped ≢ true) }
        ensures kept { Keeps self.old self.new }
    {
        let (vacant, live) = (self.vacant_key(), self.live());
        match self.step(key)? {
            Stepped::Idle => Ok(None),
            Stepped::Moved(sent) => {
                *moved += 1;
                if is_nothing(&sent) && !self.contains(vacant) && self.live() == live {
                    return Ok(None);
                }
                Ok(Some(sent))
            }
        }
    }

    /// A step of each of the activities with some keys, in this order, as `step` makes it: idle steps and moves alike, up to
    /// the first move that puts something out, or after which one activity more or one less is here; or up to a step that is
    /// refused. Takes a part of the time of single steps.
    pub fn sweep(&mut self, keys: &[usize]) -> Sweep
        ensures ran { MatchResult result.last
            (λ sent. SweepsTo keys.now self.old result.made result.moved sent self.new)
            (λ why. IsHaltedSweep keys.now self.old result.made result.moved why self.new) }
        ensures few { result.made ≤ length keys.now }
        ensures all { IfOk result.last (λ sent. result.made < length keys.now
            → HasEndedIn keys.now self.old result.made result.moved sent self.new) }
        ensures stopped { self.old.stopped ≡ true → 0 < length keys.now
            → (result.made ≡ 0) × (result.last ≡ Err stop.Stopped) × (self.new ≡ self.old) }
        ensures goes { self.old.stopped ≢ true → IfOk result.last (λ _. self.new.stopped ≢ true) }
        ensures kept { Keeps self.old self.new }
    {
        let mut moved = 0;
        for at in 0..keys.len() {
            match self.pace(keys[at], &mut moved) {
                Ok(None) => {}
                Ok(Some(sent)) => {
                    return Sweep {
                        made: at + 1,
                        moved,
                        last: Ok(sent),
                    };
                }
                Err(why) => {
                    return Sweep {
                        made: at,
                        moved,
                        last: Err(why),
                    };
                }
            }
        }
        Sweep {
            made: keys.len(),
            moved,
            last: Ok(no_sent()),
        }
    }
}
