//! The order in which a program makes events: round after round, place after place, key after key.
ghost use Rattle.std.specs.Prelude.{◌≡◌, ℕ, IsTrue, IfOk, IfErr, IfSome, Some, None, List};
ghost use Rattle.x10_world.specs.declared.rounds.Unfinished.TheVariants as halt;
ghost use Rattle.x10_world.specs.Living.{keys_at};
ghost use Rattle.x10_world.specs.Rounds.{RoundsState, NamesNext, IsTurnOver, TurnsTo, IsNextEvent, IsStepOf, IsFirstInUse, IsEmptyWorld};

use crate::lull::Lull;
use crate::round_keys::RoundKeys;
use crate::world::World;
use std::alloc::{AllocError, Global};
use std::marker::Model;
use std::mem;
use thiserror::Error;
use x10_kinds::Stop;
use x10_model::Event;

mod drive;
mod events;
mod parts;

pub use drive::run_rounds;

/// Why no more rounds were made before the run had ended.
#[derive(Clone, Copy, Debug, PartialEq, Eq, Error)]
pub enum Unfinished {
    /// The world stopped.
    #[error("Stop")]
    Stop(Stop),
    /// As many events were made as were allowed.
    #[error("Limit")]
    Limit,
    /// Memory for the list of keys was refused.
    #[error("Memory")]
    Memory,
}

impl From<Stop> for Unfinished {
    ghost from_gives = { λ stop made. made ≡ halt.Stop stop };

    fn from(stop: Stop) -> Unfinished {
        Unfinished::Stop(stop)
    }
}

impl From<AllocError> for Unfinished {
    ghost from_gives = { λ _ made. made ≡ halt.Memory };

    fn from(_error: AllocError) -> Unfinished {
        Unfinished::Memory
    }
}

/// How far a place is in its turn.
#[derive(Clone, Copy)]
enum Phase {
    /// It takes in the frames that are in flight to it.
    TakesIn,
    /// Its activities make their steps, from this position in the turn's list of keys on.
    Steps(usize),
    /// It is over, and no list of keys was taken for it: one activity was alone.
    Over,
}

/// The order of a program's events. In a round each place, by rising number, takes in the frames that are in flight to it
/// when its turn comes, by rising number, and then makes a step of each of its activities that are there, by rising key;
/// what these begin waits for the next round. It isn't notified of the events: it looks at the world before each one, so
/// nothing else may happen to the world meanwhile. A round takes time for its events alone. Contracts see the place whose
/// turn it is, and the keys whose steps are left.
#[derive(Drop)]
pub struct Rounds {
    alloc: Global,
    /// The keys that each place may have in use.
    lists: Vec<RoundKeys>,
    /// A place, and the key that an activity has that the last event may have begun there.
    next_key: Option<(u16, usize)>,
    /// The place whose turn it is.
    place: u16,
    phase: Phase,
    lull: Lull,
    /// The keys of the turn, while its steps are made; otherwise empty.
    keys: Vec<usize>,
}

impl Model for Rounds {
    ghost use Rattle.x10_world.specs.Rounds.{RoundsState, keys_left};

    ghost Value = { RoundsState };

    ghost view = { λ a. record { place = a.place; left = keys_left a.phase a.keys.items } };
}

/// Whether a list is that of the keys in use at a place, by rising number: it is where its keys rise, each is in use, and
/// there are as many as there are activities. Linear in the list.
fn is_exact(keys: &[usize], world: &World, place: u16) -> bool
    ensures { IsTrue result → keys.now ≡ keys_at world.now.places place }
{
    let mut least = 0;
    for key in keys {
        if *key < least || !world.has_key(place, *key) {
            return false;
        }
        let Some(next) = key.checked_add(1) else {
            return false;
        };
        least = next;
    }
    keys.len() == world.live(place)
}

/// The first position from one on at which a list has a key that is in use at a place; the list's length where there is none.
#[inline(always)]
fn next_in_use(keys: &[usize], from: usize, world: &World, place: u16) -> usize
    ensures { IsFirstInUse world.now place keys.now from result }
{
    for position in from..keys.len() {
        if world.has_key(place, keys[position]) {
            return position;
        }
    }
    keys.len()
}

impl Rounds {
    /// The rounds of a world from now on: the turn of place 0 begins. Takes time and memory for the keys that were ever in
    /// use at once.
    pub fn new(alloc: Global, world: &World) -> Result<Rounds, AllocError>
        ensures { IfOk result (λ rounds. rounds ≡ record { place = 0; left = None }) }
    {
        let mut lists = Vec::with_capacity(alloc, usize::from(world.count()))?;
        for place in 0..world.count() {
            let keys = RoundKeys::new(alloc, world.keys(alloc, place)?);
            lists.push(keys)?;
        }
        Ok(Rounds {
            alloc,
            lists,
            next_key: None,
            place: 0,
            phase: Phase::TakesIn,
            lull: Lull::new(),
            keys: Vec::new(alloc),
        })
    }

    /// The event that comes next in the rounds, and no other one; none only where no frame is in flight and no activity is
    /// anywhere. Takes memory for keys; where that is refused, the turn has not gone on.
    pub fn next(&mut self, world: &World) -> Result<Option<Event>, AllocError>
        ensures next { IfOk result (λ event. IfSome event
            (λ e. IsNextEvent world.now self.old e self.new)) }
        ensures none { IfOk result (λ event. event ≡ None → IsEmptyWorld world.now) }
        ensures refused { IfErr result (λ _. TurnsTo world.now self.old self.new) }
    {
        self.look(world)?;
        let event = self.find(world)?;
        self.watch(world, self.place);
        Ok(event)
    }

    /// The event that comes next: of this turn, or of the next one where it is over.
    #[inline(always)]
    fn find(&mut self, world: &World) -> Result<Option<Event>, AllocError>
        ensures next { IfOk result (λ event. IfSome event
            (λ e. IsNextEvent world.now self.old e self.new)) }
        ensures none { IfOk result (λ event. event ≡ None → IsEmptyWorld world.now) }
        ensures refused { IfErr result (λ _. TurnsTo world.now self.old self.new) }
    {
        if let Some(event) = self.in_turn(world)? {
            return Ok(Some(event));
        }
        let Some(place) = world.busy_after(self.place) else {
            return Ok(None);
        };
        self.begin_turn(place);
        self.in_turn(world)
    }

    /// The next event of the turn, if it isn't over.
    #[inline(always)]
    fn in_turn(&mut self, world: &World) -> Result<Option<Event>, AllocError>
        ensures some { IfOk result (λ event. IfSome event
            (λ e. NamesNext world.now self.old e self.new)) }
        ensures none { IfOk result (λ event. event ≡ None
            → IsTurnOver world.now self.old × (self.new.place ≡ self.old.place)) }
        ensures refused { IfErr result (λ _. self.new ≡ self.old) }
    {
        match self.phase {
            Phase::TakesIn => self.first_in_turn(world),
            Phase::Steps(_) => Ok(self.step(world)),
            Phase::Over => Ok(None),
        }
    }

    /// The next event of a turn that takes in frames: the delivery of the first one, or a step where there is none.
    #[inline(always)]
    fn first_in_turn(&mut self, world: &World) -> Result<Option<Event>, AllocError>
        requires { self.old.left ≡ None }
        ensures some { IfOk result (λ event. IfSome event
            (λ e. NamesNext world.now self.old e self.new)) }
        ensures none { IfOk result (λ event. event ≡ None
            → IsTurnOver world.now self.old × (self.new.place ≡ self.old.place)) }
        ensures refused { IfErr result (λ _. self.new ≡ self.old) }
    {
        if let Some(number) = world.first_frame(self.place) {
            return Ok(Some(Event::Deliver(number)));
        }
        self.begin_steps(world)?;
        Ok(self.step(world))
    }

    /// Makes the list of the keys that are in use at the place whose turn it is, which has taken in all frames.
    #[inline(always)]
    fn begin_steps(&mut self, world: &World) -> Result<(), AllocError>
        requires { self.old.left ≡ None }
        ensures ok { IfOk result (λ _. self.new ≡ record {
          place = self.old.place;
          left = Some (keys_at world.now.places self.old.place);
        }) }
        ensures refused { IfErr result (λ _. self.new ≡ self.old) }
    {
        self.recall(world)?;
        if !is_exact(&self.keys, world, self.place) {
            self.keys = world.keys(self.alloc, self.place)?;
        }
        self.phase = Phase::Steps(0);
        Ok(())
    }

    /// Takes the list of the keys that the place whose turn it is may have in use.
    #[inline(always)]
    fn recall(&mut self, world: &World) -> Result<(), AllocError>
        requires { self.old.left ≡ None }
        ensures { self.new ≡ self.old }
    {
        if let (Some(list), Some(place)) = (
            self.lists.get_mut(usize::from(self.place)),
            world.place(self.place),
        ) {
            list.refresh(place)?;
            mem::swap(&mut self.keys, &mut list.known);
        }
        Ok(())
    }

    /// The step of the first activity whose step is left, if there is one.
    #[inline(always)]
    fn step(&mut self, world: &World) -> Option<Event>
        ensures { (keys : List ℕ) → self.old.left ≡ Some keys
            → IsStepOf world.now self.old.place keys result self.new }
    {
        let Phase::Steps(from) = self.phase else {
            return None;
        };
        let at = next_in_use(&self.keys, from, world, self.place);
        if at >= self.keys.len() {
            self.phase = Phase::Steps(at);
            return None;
        }
        self.phase = Phase::Steps(at + 1);
        Some(Event::Step(self.place, self.keys[at]))
    }

    /// Begins the turn of a place, and puts the list of keys of the last one back.
    #[inline(always)]
    fn begin_turn(&mut self, place: u16)
        ensures { self.new ≡ record { place = place; left = None } }
    {
        if let (Phase::Steps(_), Some(list)) = (
            self.phase,
            self.lists.get_mut(usize::from(self.place)),
        ) {
            mem::swap(&mut self.keys, &mut list.known);
        }
        self.place = place;
        self.phase = Phase::TakesIn;
    }

    /// Looks at whether the last event began an activity, and remembers its key.
    #[inline(always)]
    fn look(&mut self, world: &World) -> Result<(), AllocError>
        ensures { self.new ≡ self.old }
    {
        let Some((place, key)) = self.next_key else {
            return Ok(());
        };
        self.next_key = None;
        if !world.has_key(place, key) {
            return Ok(());
        }
        self.begun(place, key)
    }

    /// Remembers that an activity with a key began at a place.
    #[inline(never)]
    fn begun(&mut self, place: u16, key: usize) -> Result<(), AllocError>
        ensures { self.new ≡ self.old }
    {
        self.lull.forget();
        if let Some(list) = self.lists.get_mut(usize::from(place)) {
            list.begin(key)?;
        }
        Ok(())
    }

    /// Remembers which key the next activity that begins at a place gets.
    #[inline(always)]
    fn watch(&mut self, world: &World, place: u16)
        ensures { self.new ≡ self.old }
    {
        self.next_key = match world.vacant_key(place) {
            Some(key) => Some((place, key)),
            None => None,
        };
    }
}
