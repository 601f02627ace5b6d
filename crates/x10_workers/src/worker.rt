//! A worker: one place, and the turns that it makes.
ghost use Rattle.std.specs.Prelude.{◌≡◌, ◌≢◌, ◌+◌, ◌<◌, ◌≤◌, ◌^◌, ◌++◌, ◌∷◌, ◌⊎◌, [], true, false, IsTrue, IfOk, IfErr, length, map};
ghost use Rattle.x10_hall.specs.Halls.{frame_of, told};
ghost use Rattle.x10_hall.specs.declared.limits.TheConstants.{MOST_TAKEN, MOST_STEPS};
ghost use Rattle.x10_place.specs.StandsFor.{PlaceState};
ghost use Rattle.x10_workers.specs.Causes.{Halts};
ghost use Rattle.x10_workers.specs.Trails.{TakesFrame, TakesEach, StepsEach};
ghost use Rattle.x10_workers.specs.Workings.{AddsSteps, WorksOn, KeepsTurn, IsKeptWhole};

use crate::frames::put_sent;
use crate::gate::Gate;
use crate::halt::{Begun, Halt, Halted};
use crate::lines::push_copies;
use crate::step_order::StepOrder;
use crate::trail::{Kept, OwnTurn};
use std::alloc::{AllocError, Global};
use x10_hall::limits::{MOST_STEPS, MOST_TAKEN};
use x10_hall::{Keys, Port, Posted, Repeats, Stint, Take, Taken};
use x10_place::{Place, Stepped, Sweep};
use x10_world::copied_lines;

mod keeping;

/// The most turns that are posted at once. Posting takes a lock that all workers share, which costs as much as a turn's steps.
const MOST_UNPOSTED: usize = 16;

/// How a turn went.
#[derive(Clone, Copy, Debug, PartialEq, Eq)]
pub(crate) enum Went {
    /// There may be more to do.
    On,
    /// No activity here can move until a frame comes.
    Idle,
}

/// The steps of a turn.
#[derive(Drop)]
struct Steps {
    keys: Keys,
    frames: Vec<Posted>,
    /// Whether one of them moved.
    moved: bool,
    went: Went,
}

/// A place, the order of its steps, and the turns that were posted.
#[derive(Drop)]
pub(crate) struct Worker<'a> {
    alloc: Global,
    id: u16,
    place: Place<'a>,
    order: StepOrder,
    /// Room for the keys of a round.
    round: Vec<usize>,
    /// How many turns the gate was notified of.
    turns: u64,
    /// The turn that is being made.
    begun: Begun,
    kept: Repeats<OwnTurn>,
    /// The last of them, in the form of the log, which are still to be posted.
    unposted: Vec<Stint>,
    /// How many turns these are.
    waiting: usize,
    /// Whether it has ended the run.
    has_ended: bool,
}

/// Adds keys behind those of a turn.
fn push_keys(alloc: Global, more: &[usize], keys: &mut Keys) -> Result<(), AllocError>
    requires { length keys.old + length more.now < 2 ^ 64 }
    ensures { IfOk result (λ _. keys.new ≡ keys.old ++ more.now) }
{
    for at in 0..more.len() {
        keys.push(alloc, more[at], 1)?;
    }
    Ok(())
}

impl<'a> Worker<'a> {
    /// The worker of a place at its beginning.
    pub fn new(alloc: Global, id: u16, place: Place<'a>) -> Result<Worker<'a>, AllocError>
        ensures { IfOk result (λ worker. (worker.place ≡ place.entry) × (worker.kept.items ≡ [])) }
    {
        let order = StepOrder::new(alloc, &place)?;
        Ok(Worker {
            alloc,
            id,
            place,
            order,
            round: Vec::new(alloc),
            turns: 0,
            begun: Begun {
                taken: Vec::new(alloc),
                keys: Keys::none(),
            },
            kept: Repeats::new(alloc),
            unposted: Vec::new(alloc),
            waiting: 0,
            has_ended: false,
        })
    }

    /// One turn: takes frames, makes steps, and keeps what it did, if it did something.
    pub fn turn(&mut self, port: &impl Port, gate: &impl Gate) -> Result<Went, Halt>
        requires { self.old.place.stopped ≢ true }
        ensures works { IfOk result (λ _. WorksOn self.old.place self.old.kept.items self.new.place
            self.new.kept.items) }
        ensures halts { IfErr result (Halts self.old.place) }
    {
        let printed = self.place.output().len();
        let taken = self.take_frames(port)?;
        if taken.is_empty() && self.place.is_empty() {
            return Ok(Went::Idle);
        }
        gate.inside(self.id, self.turns);
        self.turns = self.turns.saturating_add(1);
        let Steps {
            keys,
            frames,
            moved,
            went,
        } = self.make_steps()?;
        if taken.is_empty() && !moved {
            return Ok(went);
        }
        let mut lines = Vec::new(self.alloc);
        push_copies(self.alloc, self.place.output(), printed, &mut lines)?;
        let own = OwnTurn {
            taken,
            keys: keys.folded(self.alloc)?,
            frames,
            lines,
        };
        self.keep(own, port)?;
        Ok(went)
    }

    /// Ends the run, once, where no activity of it is left, which only place 0 knows; all turns are posted first. Where an activity
    /// is here, this takes no look at the counts of the root finish.
    pub fn end(&mut self, port: &impl Port) -> Result<(), Halt>
        ensures place { self.new.place ≡ self.old.place }
        ensures kept { self.new.kept ≡ self.old.kept }
        ensures halts { IfErr result (Halts self.old.place) }
    {
        if self.has_ended || !self.place.is_empty() || !self.place.closed() {
            return Ok(());
        }
        self.post(port)?;
        port.finish();
        self.has_ended = true;
        Ok(())
    }

    /// What was kept of the place with a number, at the end.
    pub fn into_kept(self, id: u16) -> Result<Kept, AllocError>
        ensures { IfOk result (IsKeptWhole id self.entry.place self.entry.kept.items) }
    {
        let lines = copied_lines(self.alloc, self.place.output())?;
        let closed = self.place.closed();
        let Worker { kept, .. } = self;
        Ok(Kept {
            id,
            turns: kept,
            lines,
            closed,
        })
    }

    /// How it stopped, with the turn that it had begun. The turns before are posted first. Where they can't be, this is why it
    /// stopped.
    pub fn into_halted(mut self, why: Halt, port: &impl Port) -> Halted
        ensures { (result.why ≡ why) ⊎ ((p : PlaceState) → Halts p result.why) }
    {
        if let Err(lost) = self.post(port) {
            return Halted {
                why: lost,
                begun: None,
            };
        }
        let Worker { begun, .. } = self;
        Halted {
            why,
            begun: Some(begun),
        }
    }

    /// Takes in the frames that are there, up to the most that a turn takes. While turns are still to be posted it takes none, so
    /// that the lock is taken once for several turns, and only looks whether the run was stopped.
    fn take_frames(&mut self, port: &impl Port) -> Result<Vec<Taken>, Halt>
        requires { self.old.place.stopped ≢ true }
        ensures takes { IfOk result (λ taken. TakesEach self.old.place
            (map told taken.items) self.new.place) }
        ensures goes { IfOk result (λ _. self.new.place.stopped ≢ true) }
        ensures few { IfOk result (λ taken. length taken.items ≤ MOST_TAKEN) }
        ensures halts { IfErr result (Halts self.old.place) }
        ensures kept { self.new.kept ≡ self.old.kept }
    {
        let mut taken = Vec::new(self.alloc);
        if !self.unposted.is_empty() {
            if port.is_stopped() {
                return Err(Halt::Ended);
            }
            return Ok(taken);
        }
        for _ in 0..MOST_TAKEN {
            match port.take(self.id) {
                Take::Frame(frame) => self.accept(frame, &mut taken)?,
                Take::Nothing => return Ok(taken),
                Take::Stopped => return Err(Halt::Ended),
            }
        }
        Ok(taken)
    }

    /// Takes a frame in.
    fn accept(&mut self, frame: Taken, taken: &mut Vec<Taken>) -> Result<(), Halt>
        requires { self.old.place.stopped ≢ true }
        ensures takes { IfOk result (λ _. TakesFrame self.old.place
            (told frame).bytes self.new.place) }
        ensures taken { IfOk result (λ _. taken.new.items ≡ taken.old.items ++ frame ∷ []) }
        ensures halts { IfErr result (Halts self.old.place) }
        ensures kept { self.new.kept ≡ self.old.kept }
    {
        taken.reserve(1)?;
        self.begun.taken.reserve(1)?;
        self.begun.taken.push_reserved(frame.number);
        let vacant = self.place.vacant_key();
        self.place.receive(&frame.bytes)?;
        self.order.came(&self.place, vacant)?;
        taken.push_reserved(frame);
        Ok(())
    }

    /// Makes the steps of a turn, up to the most that a turn makes, or until all keys were tried since something moved.
    fn make_steps(&mut self) -> Result<Steps, Halt>
        requires { self.old.place.stopped ≢ true }
        ensures steps { IfOk result (λ steps. StepsEach self.old.place steps.keys
            (map frame_of steps.frames.items) self.new.place) }
        ensures goes { IfOk result (λ _. self.new.place.stopped ≢ true) }
        ensures few { IfOk result (λ steps. length steps.keys ≤ MOST_STEPS) }
        ensures halts { IfErr result (Halts self.old.place) }
        ensures still { IfOk result (λ steps. steps.moved ≡ false
            → self.new.place ≡ self.old.place) }
        ensures kept { self.new.kept ≡ self.old.kept }
    {
        let mut steps = Steps {
            keys: Keys::none(),
            frames: Vec::new(self.alloc),
            moved: false,
            went: Went::On,
        };
        for _ in 0..MOST_STEPS {
            if steps.keys.len() >= usize::from(MOST_STEPS) {
                return Ok(steps);
            }
            let Some(key) = self.order.next_key(&self.place)? else {
                steps.went = Went::Idle;
                return Ok(steps);
            };
            if let Err(why) = self.make_some(key, &mut steps) {
                self.note_refused(key, steps.keys)?;
                return Err(why);
            }
        }
        Ok(steps)
    }

    /// Notes the keys of a turn of which a step was refused, and behind them those that were tried last, from `key` on.
    fn note_refused(&mut self, key: usize, mut keys: Keys) -> Result<(), AllocError>
        ensures place { self.new.place ≡ self.old.place }
        ensures kept { self.new.kept ≡ self.old.kept }
    {
        let most = usize::from(MOST_STEPS).saturating_sub(keys.len());
        if self.order.is_single() {
            keys.push(self.alloc, key, most)?;
        } else {
            let count = most.min(self.round.len());
            push_keys(self.alloc, &self.round[..count], &mut keys)?;
        }
        self.begun.keys = keys;
        Ok(())
    }

    /// A step of the activity with a key; where no other activity can move, as many steps as the turn may still make; and where
    /// none is inside an atomic region, a step of each of the next ones too.
    fn make_some(&mut self, key: usize, steps: &mut Steps) -> Result<(), Halt>
        requires goes { self.old.place.stopped ≢ true }
        requires few { length steps.old.keys < 64 }
        ensures adds { IfOk result (λ _. AddsSteps self.old.place steps.old self.new.place
            steps.new) }
        ensures halts { IfErr result (Halts self.old.place) }
        ensures kept { self.new.kept ≡ self.old.kept }
    {
        if self.order.is_single() {
            return self.make_stretch(key, steps);
        }
        if self.place.inside().is_some() {
            return self.make_step(key, steps);
        }
        self.make_round(key, steps)
    }

    /// A step of the activity with a key, and then of each of the next ones, as many as the turn may still make: up to one that
    /// sends something, or begins or ends an activity.
    fn make_round(&mut self, key: usize, steps: &mut Steps) -> Result<(), Halt>
        requires goes { self.old.place.stopped ≢ true }
        requires few { length steps.old.keys < 64 }
        ensures adds { IfOk result (λ _. AddsSteps self.old.place steps.old self.new.place
            steps.new) }
        ensures halts { IfErr result (Halts self.old.place) }
        ensures kept { self.new.kept ≡ self.old.kept }
    {
        let most = usize::from(MOST_STEPS).saturating_sub(steps.keys.len());
        self.order.fill_round(key, most, &mut self.round)?;
        let vacant = self.place.vacant_key();
        let Sweep { made, moved, last } = self.place.sweep(&self.round);
        let sent = last?;
        push_keys(self.alloc, &self.round[..made], &mut steps.keys)?;
        steps.moved |= moved > 0;
        self.order
            .swept(&self.place, &self.round[..made], moved, vacant)?;
        put_sent(self.alloc, sent, &mut steps.frames)?;
        Ok(())
    }

    /// Steps of the activity with a key, one after another, as many as the turn may still make: up to one that sends something
    /// or begins or ends an activity, or one that finds nothing to do.
    fn make_stretch(&mut self, key: usize, steps: &mut Steps) -> Result<(), Halt>
        requires goes { self.old.place.stopped ≢ true }
        requires few { length steps.old.keys < 64 }
        ensures adds { IfOk result (λ _. AddsSteps self.old.place steps.old self.new.place
            steps.new) }
        ensures halts { IfErr result (Halts self.old.place) }
        ensures kept { self.new.kept ≡ self.old.kept }
    {
        let most = usize::from(MOST_STEPS).saturating_sub(steps.keys.len());
        let vacant = self.place.vacant_key();
        let (made, last) = self.place.run(key, most as u64);
        let sent = last?;
        if made == 0 {
            return self.make_step(key, steps);
        }
        steps.keys.push(self.alloc, key, made as usize)?;
        steps.moved = true;
        self.order.stepped(&self.place, key, vacant)?;
        put_sent(self.alloc, sent, &mut steps.frames)?;
        Ok(())
    }

    /// One step of the activity with a key.
    fn make_step(&mut self, key: usize, steps: &mut Steps) -> Result<(), Halt>
        requires goes { self.old.place.stopped ≢ true }
        requires few { length steps.old.keys < 64 }
        ensures adds { IfOk result (λ _. AddsSteps self.old.place steps.old self.new.place
            steps.new) }
        ensures halts { IfErr result (Halts self.old.place) }
        ensures kept { self.new.kept ≡ self.old.kept }
    {
        steps.keys.push(self.alloc, key, 1)?;
        let vacant = self.place.vacant_key();
        match self.place.step(key)? {
            Stepped::Idle => {
                self.order.waits(key)?;
                Ok(())
            }
            Stepped::Moved(sent) => {
                steps.moved = true;
                self.order.stepped(&self.place, key, vacant)?;
                put_sent(self.alloc, sent, &mut steps.frames)?;
                Ok(())
            }
        }
    }
}
