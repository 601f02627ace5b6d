//! Makes the events of rounds, and doesn't try steps that are known to be idle.
ghost use Rattle.std.specs.Prelude.{◌≡◌, ◌≢◌, ◌≤◌, ℕ, true, IfOk, IfErr, Err};
ghost use Rattle.x10_kinds.specs.declared.stop.Stop.TheVariants as stop;
ghost use Rattle.x10_world.specs.declared.rounds.Unfinished.TheVariants as halt;
ghost use Rattle.x10_world.specs.Queries.{IsClosed};
ghost use Rattle.x10_world.specs.Rounds.{NoneIsLeft, RunsTo, IsOpenAt, IsHalted, HasMade, Advances, AdvancesOrEnds};

use crate::rounds::events::{beside, make, sweep_first};
use crate::rounds::parts::{Frames, Part, Steps, Sweeps};
use crate::rounds::{Phase, Rounds, Unfinished};
use crate::world::World;
use std::alloc::{AllocError, Global};
use x10_model::Event;

impl Rounds {
    /// Whether the turn has not begun its steps, and has a frame to take in or a step to make.
    #[inline(always)]
    fn is_ahead(&self, world: &World) -> bool {
        let Phase::TakesIn = self.phase else {
            return false;
        };
        world.live(self.place) > 0 || world.first_frame(self.place).is_some()
    }

    /// Where the turn is over, begins that of the next busy place, if there is one.
    #[inline(always)]
    fn pass(&mut self, world: &World) {
        if self.is_ahead(world) {
            return;
        }
        if let Some(place) = world.busy_after(self.place) {
            self.begin_turn(place);
        }
    }

    /// The key of the one activity that there is, where the place's turn has nothing to take in; none where there are others,
    /// or where a frame is in flight.
    #[inline(always)]
    fn lone(&self, world: &World) -> Option<usize> {
        let Phase::TakesIn = self.phase else {
            return None;
        };
        if !world.has_only_one(self.place) {
            return None;
        }
        let list = self.lists.get(usize::from(self.place))?;
        list.first(world.place(self.place)?)
    }

    /// Goes on with a turn, or where it is over with that of the next busy place, and answers how many events were made; none
    /// only where nothing is in flight and no activity is anywhere. The steps of a turn are made one after another. Where one
    /// activity is alone, its steps are made in one stretch, each a round of its own, up to one that begins an activity or
    /// puts out a frame.
    fn run_turn(&mut self, world: &mut World, left: u64) -> Result<u64, Unfinished>
        requires going { world.old.stopped ≢ true }
        requires some { 1 ≤ left }
        ensures made { AdvancesOrEnds world.old left result world.new }
    {
        self.look(world)?;
        let made = self.go_on(world, left)?;
        if made > 0 {
            return Ok(made);
        }
        let Some(key) = self.lone(world) else {
            return self.make_all(world, left);
        };
        self.watch(world, self.place);
        self.lull.forget();
        let made = world.run_activity(self.place, key, left)?;
        self.look(world)?;
        if made == 0 {
            return self.make_next(world, left);
        }
        self.phase = Phase::Over;
        Ok(made)
    }

    /// Makes the steps that are left of a turn. Where it is over, the turn of the next busy place begins: it takes in its frames,
    /// or where there is none and several activities move, their steps are made. Answers how many events these are.
    #[inline(always)]
    fn go_on(&mut self, world: &mut World, left: u64) -> Result<u64, Unfinished>
        requires going { world.old.stopped ≢ true }
        requires some { 1 ≤ left }
        ensures made { Advances world.old left result world.new }
    {
        let made = self.make_rest(world, left)?;
        if made > 0 {
            return Ok(made);
        }
        self.pass(world);
        self.begin(world, left)
    }

    /// Takes in the frames of a turn; where there is none and several activities move, makes their steps. Answers how many
    /// events these are.
    #[inline(always)]
    fn begin(&mut self, world: &mut World, left: u64) -> Result<u64, Unfinished>
        requires going { world.old.stopped ≢ true }
        requires some { 1 ≤ left }
        ensures made { Advances world.old left result world.new }
    {
        let made = self.make_each::<Frames>(world, left)?;
        if made > 0 {
            return Ok(made);
        }
        self.sweep_all(world, left)
    }

    /// Where a turn has nothing to take in and several activities move, makes their steps. Answers how many events these are.
    #[inline(always)]
    fn sweep_all(&mut self, world: &mut World, left: u64) -> Result<u64, Unfinished>
        requires going { world.old.stopped ≢ true }
        requires some { 1 ≤ left }
        ensures made { Advances world.old left result world.new }
    {
        if !self.begin_sweep(world)? {
            return Ok(0);
        }
        self.make_sweeps(world, left)
    }

    /// Makes the steps that are left of a turn, or some of them, and answers how many events these are.
    #[inline(always)]
    fn make_rest(&mut self, world: &mut World, left: u64) -> Result<u64, Unfinished>
        requires going { world.old.stopped ≢ true }
        requires some { 1 ≤ left }
        ensures made { Advances world.old left result world.new }
    {
        if self.lull.has_several() {
            return self.make_sweeps(world, left);
        }
        self.make_each::<Steps>(world, left)
    }

    /// Begins the steps of a turn that has taken in all frames, where several activities move. Answers whether they do.
    #[inline(always)]
    fn begin_sweep(&mut self, world: &World) -> Result<bool, AllocError> {
        let Phase::TakesIn = self.phase else {
            return Ok(false);
        };
        if !self.lull.has_several() {
            return Ok(false);
        }
        self.recall(world)?;
        self.phase = Phase::Steps(0);
        Ok(true)
    }

    /// Where several activities move, makes the steps that are left of a turn, and those of the turns after it while these are of
    /// the same activities, up to one that begins or ends an activity or puts out a frame. Answers how many events these are.
    #[inline(never)]
    fn make_sweeps(&mut self, world: &mut World, left: u64) -> Result<u64, Unfinished>
        requires going { world.old.stopped ≢ true }
        requires some { 1 ≤ left }
        ensures made { Advances world.old left result world.new }
    {
        self.make_each::<Sweeps>(world, left)
    }

    /// Makes what there is of one part of a turn, up to an event that leaves place 0 empty. Answers how many events these are.
    #[inline(always)]
    fn make_each<P: Part>(&mut self, world: &mut World, left: u64) -> Result<u64, Unfinished>
        requires going { world.old.stopped ≢ true }
        requires some { 1 ≤ left }
        ensures made { Advances world.old left result world.new }
    {
        let mut made = 0;
        for _ in 0..left {
            let more = P::make_some(self, world, left - made)?;
            made += more;
            if more == 0 {
                return Ok(made);
            }
            self.look(world)?;
            if made == left || (self.place == 0 && world.home_is_empty()) {
                return Ok(made);
            }
        }
        Ok(made)
    }

    /// Takes in the first frame that is in flight to the place whose turn it is. Answers how many events this is.
    #[inline(always)]
    pub(crate) fn take_next(&mut self, world: &mut World, left: u64) -> Result<u64, Unfinished>
        requires going { world.old.stopped ≢ true }
        requires some { 1 ≤ left }
        ensures made { Advances world.old left result world.new }
    {
        let Phase::TakesIn = self.phase else {
            return Ok(0);
        };
        let Some(number) = world.first_frame(self.place) else {
            return Ok(0);
        };
        self.watch(world, self.place);
        make(world, Event::Deliver(number))?;
        self.lull.forget();
        Ok(1)
    }

    /// Makes the next step of a turn, or a stretch of them. Answers how many events these are.
    #[inline(always)]
    pub(crate) fn step_next(&mut self, world: &mut World, left: u64) -> Result<u64, Unfinished>
        requires going { world.old.stopped ≢ true }
        requires some { 1 ≤ left }
        ensures made { Advances world.old left result world.new }
    {
        let Some(event) = self.step(world) else {
            return Ok(0);
        };
        self.watch(world, self.place);
        self.make_event(world, event, left)
    }

    /// Makes the steps that are left of a turn, up to one that begins or ends an activity or puts out a frame; where none is left and
    /// the next turn is of the same activities, its steps. Answers how many events these are.
    #[inline(always)]
    pub(crate) fn sweep_next(&mut self, world: &mut World, left: u64) -> Result<u64, Unfinished>
        requires going { world.old.stopped ≢ true }
        requires some { 1 ≤ left }
        ensures made { Advances world.old left result world.new }
    {
        let Some(from) = self.first_to_sweep(world) else {
            return Ok(0);
        };
        self.watch(world, self.place);
        if from >= self.keys.len() {
            return Ok(0);
        }
        let swept = sweep_first(world, self.place, &self.keys[from..], left)?;
        self.look(world)?;
        self.lull.swept(swept.moved);
        self.phase = Phase::Steps(from + swept.made);
        Ok(swept.made as u64)
    }

    /// From which position of the turn's list of keys on a sweep makes steps, where several activities move.
    #[inline(always)]
    fn first_to_sweep(&self, world: &World) -> Option<usize> {
        let Phase::Steps(from) = self.phase else {
            return None;
        };
        if !self.lull.has_several() {
            return None;
        }
        if from < self.keys.len() {
            return Some(from);
        }
        if self.comes_round(world) {
            Some(0)
        } else {
            None
        }
    }

    /// Where a turn is over, whether the next one is of the same place and activities, and has nothing to take in.
    #[inline(always)]
    fn comes_round(&self, world: &World) -> bool {
        let Some(list) = self.lists.get(usize::from(self.place)) else {
            return false;
        };
        list.fresh.is_empty()
            && self.keys.len() == world.live(self.place)
            && world.first_frame(self.place).is_none()
            && world.busy_after(self.place) == Some(self.place)
    }

    /// Makes the steps of a turn that has taken in all frames. Where there is none to make, the next event, wherever it is.
    #[inline(always)]
    fn make_all(&mut self, world: &mut World, left: u64) -> Result<u64, Unfinished>
        requires going { world.old.stopped ≢ true }
        requires some { 1 ≤ left }
        ensures made { AdvancesOrEnds world.old left result world.new }
    {
        let made = self.begin_all(world, left)?;
        if made > 0 {
            return Ok(made);
        }
        self.make_next(world, left)
    }

    /// Where a turn has nothing to take in, makes its steps, and answers how many events these are.
    #[inline(always)]
    fn begin_all(&mut self, world: &mut World, left: u64) -> Result<u64, Unfinished>
        requires going { world.old.stopped ≢ true }
        requires some { 1 ≤ left }
        ensures made { Advances world.old left result world.new }
    {
        let Phase::TakesIn = self.phase else {
            return Ok(0);
        };
        if world.first_frame(self.place).is_some() {
            return Ok(0);
        }
        if let Some(key) = self.only_key(world) {
            let place = self.place;
            self.watch(world, place);
            self.phase = Phase::Over;
            return self.make_event(world, Event::Step(place, key), left);
        }
        self.begin_steps(world)?;
        self.make_each::<Steps>(world, left)
    }

    /// The key of the activity that is alone at the place whose turn it is, if that is known without a search.
    #[inline(always)]
    fn only_key(&self, world: &World) -> Option<usize> {
        if world.live(self.place) != 1 {
            return None;
        }
        self.lists.get(usize::from(self.place))?.only()
    }

    /// Makes the next event, or more.
    #[inline(always)]
    fn make_next(&mut self, world: &mut World, left: u64) -> Result<u64, Unfinished>
        requires going { world.old.stopped ≢ true }
        requires some { 1 ≤ left }
        ensures made { AdvancesOrEnds world.old left result world.new }
    {
        match self.next(world)? {
            Some(event) => self.make_event(world, event, left),
            None => Ok(0),
        }
    }

    /// Makes an event, and answers how many were made. Where it is a step of the activity that alone can move, its steps are
    /// made in one stretch, with the idle steps of the others between them, up to one that begins an activity or puts out a
    /// frame.
    #[inline(always)]
    fn make_event(&mut self, world: &mut World, event: Event, left: u64) -> Result<u64, Unfinished>
        requires going { world.old.stopped ≢ true }
        requires some { 1 ≤ left }
        ensures made { Advances world.old left result world.new }
        ensures some { IfOk result (λ made. 1 ≤ made) }
    {
        if let Event::Step(place, key) = event {
            if let Some((waiter, round)) = self.lull.round_of((place, key)) {
                if round == world.all_live() && world.is_calm(place) {
                    let made = beside(world, (place, key), waiter, round, left)?;
                    self.lull.note((place, key), true);
                    return Ok(made);
                }
            }
        }
        let moved = make(world, event)?;
        match event {
            Event::Step(place, key) => self.lull.note((place, key), moved),
            Event::Deliver(_) => self.lull.forget(),
        }
        Ok(1)
    }
}

impl<'a> World<'a> {
    /// What a run returns that has made `limit` events, as many as were allowed: Limit, unless the last of them ended it.
    pub fn at_limit(&self, limit: u64) -> Result<(), Unfinished>
        ensures ended { IfOk result (λ _. NoneIsLeft self.now) }
        ensures closed { IfOk result (λ _. IsClosed self.now.places) }
        ensures open { IfErr result (λ why. (why ≡ halt.Limit) × IsOpenAt limit self.now) }
    {
        if limit > 0 && self.closed() {
            return Ok(());
        }
        Err(Unfinished::Limit)
    }
}

/// Runs a world in rounds until the run has ended, with at most `limit` events, idle ones included: those of `Rounds`, one
/// after another. Whether the run has ended is checked after each event, before whether there may be another one: only events
/// at place 0 can end it. The answer is Limit exactly where `limit` events were made and the last one didn't end it. A world
/// that has stopped answers so, and stays as it is.
pub fn run_rounds(alloc: Global, world: &mut World, limit: u64) -> Result<(), Unfinished>
    ensures runs { RunsTo world.old world.new }
    ensures made { world.old.stopped ≢ true → IfOk result
        (λ _. (n : ℕ) × HasMade world.old limit n world.new) }
    ensures ended { IfOk result (λ _. NoneIsLeft world.new) }
    ensures closed { IfOk result (λ _. IsClosed world.new.places) }
    ensures halted { world.old.stopped ≢ true → IfErr result (IsHalted world.old limit world.new) }
    ensures stopped { world.old.stopped ≡ true → (result ≡ Err (halt.Stop stop.Stopped))
        × (world.new ≡ world.old) }
{
    world.going()?;
    let mut rounds = Rounds::new(alloc, world)?;
    let mut left = limit;
    for _ in 0..limit {
        let is_first = left == limit;
        let made = rounds.run_turn(world, left)?;
        if made == 0 {
            return Ok(());
        }
        if (is_first || rounds.place == 0) && world.home_is_empty() && world.closed() {
            return Ok(());
        }
        left -= made;
        if left == 0 {
            return world.at_limit(limit);
        }
    }
    world.at_limit(limit)
}
