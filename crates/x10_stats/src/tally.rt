//! Activities that are followed from place to place, and what is told of the functions with which they began.
ghost use Rattle.std.specs.Prelude.{◌≡◌, ◌<◌, IfOk, OnErr, OnOk, [], length, replicate, slice_get};
ghost use Rattle.x10_stats.specs.Tallies.{activity_at, arrived, begun_as, begun_from, empty_tally, gone_back, left, next_one, none_begun, noted, one_more, reaching, ready, stepped, taken_over, tally_at_first, with_activity, with_begun, with_known, with_next_room, with_room, with_rooms, with_steps};

use crate::activity::{Activity, Row};
use crate::sight::{Sight, pair_of, stay_at};
use std::alloc::{AllocError, Global};
use std::marker::Model;
use x10_verify::Verified;
use x10_world::{Done, World};

/// What is told of a function. A number that would pass 2^64 - 1 stays there.
#[derive(Clone, Copy, Debug, PartialEq, Eq)]
pub struct Begun {
    /// How many activities began with it.
    pub activities: u64,
    /// The most steps that one of them made.
    pub most: u64,
}

impl Begun {
    /// None yet.
    fn new() -> Begun
        ensures { result ≡ none_begun }
    {
        Begun {
            activities: 0,
            most: 0,
        }
    }

    /// With one activity more.
    fn with_one(self) -> Begun
        ensures { result ≡ one_more self }
    {
        Begun {
            activities: self.activities.saturating_add(1),
            most: self.most,
        }
    }

    /// With so many steps of one of them.
    fn reaching(self, steps: u64) -> Begun
        ensures { result ≡ reaching self steps }
    {
        Begun {
            activities: self.activities,
            most: self.most.max(steps),
        }
    }
}

/// Which activity each stay is of. An activity begins with main, an ASYNC or a Spawn frame, and goes on with its steps in the
/// stay that a Shift frame begins, and then in the one that waited for that.
#[derive(Drop)]
pub struct Tally {
    /// By place.
    rows: Vec<Row>,
    /// By the number of a function.
    functions: Vec<Begun>,
    /// By their own numbers, where all are kept.
    all: Row,
    /// The number that the next one gets.
    next: usize,
    /// Whether all are kept.
    kept: bool,
}

impl Model for Tally {
    ghost use Rattle.x10_stats.specs.Tallies.{TallyState};

    ghost Value = { TallyState };

    ghost view = { λ a. record {
      rows = a.rows.items;
      functions = a.functions.items;
      all = a.all;
      next = a.next;
      kept = a.kept;
    } };
}

/// Places without activities.
fn empty_rows(alloc: Global, places: u16) -> Result<Vec<Row>, AllocError>
    ensures { IfOk result (λ rows. rows.items ≡ replicate places []) }
{
    let mut rows = Vec::new(alloc);
    for _ in 0..places {
        rows.push(Row::new(alloc))?;
    }
    Ok(rows)
}

/// Functions with which none began.
fn no_functions(alloc: Global, count: usize) -> Result<Vec<Begun>, AllocError>
    ensures { IfOk result (λ functions. functions.items ≡ replicate count none_begun) }
{
    let mut functions = Vec::new(alloc);
    functions.resize(count, Begun::new())?;
    Ok(functions)
}

impl Tally {
    /// Before the first event of a world: main is at place 0, with key 0. Linear in the functions and the places.
    pub(crate) fn new(
        alloc: Global,
        verified: &Verified,
        world: &World,
        kept: bool,
    ) -> Result<Tally, AllocError>
        ensures { IfOk result (λ tally. tally ≡ tally_at_first verified.now kept world.now) }
    {
        let mut tally = Tally {
            rows: empty_rows(alloc, world.count())?,
            functions: no_functions(alloc, verified.image().functions())?,
            all: Row::new(alloc),
            next: 0,
            kept,
        };
        tally.make_rooms(0, 0)?;
        tally.arrive(world, 0, 0);
        Ok(tally)
    }

    /// What is told of each function, by its number.
    pub(crate) fn functions(&self) -> &[Begun]
        ensures { result.now ≡ self.now.functions }
    {
        &self.functions
    }

    /// How many activities began.
    pub(crate) fn count(&self) -> usize
        ensures { result ≡ self.now.next }
    {
        self.next
    }

    /// The activity with a number, where it is kept.
    pub(crate) fn find(&self, number: usize) -> Option<Activity>
        ensures { result ≡ slice_get self.now.all number }
    {
        self.all.find(number)
    }

    /// Makes room for a stay with a key at a place. Constant time, but a list that grows is copied now and then.
    fn make_room(&mut self, place: u16, key: usize) -> Result<(), AllocError>
        ensures ok { OnOk result (self.new ≡ with_room self.old place key) }
        ensures err { OnErr result (self.new ≡ self.old) }
    {
        if usize::from(place) >= self.rows.len() {
            return Ok(());
        }
        self.rows[usize::from(place)].make_room(key)
    }

    /// Makes room for the next activity, where all are kept.
    fn make_next_room(&mut self) -> Result<(), AllocError>
        ensures ok { OnOk result (self.new ≡ with_next_room self.old) }
        ensures err { OnErr result (self.new ≡ self.old) }
    {
        if self.kept {
            self.all.make_room(self.next)
        } else {
            Ok(())
        }
    }

    /// Makes room for a stay with a key at a place, and for the activity that it may begin. Where there is no memory for both,
    /// neither has room.
    fn make_rooms(&mut self, place: u16, key: usize) -> Result<(), AllocError>
        ensures ok { OnOk result (self.new ≡ with_rooms self.old place key) }
        ensures err { OnErr result (self.new ≡ self.old) }
    {
        let count = self.all.len();
        self.make_next_room()?;
        match self.make_room(place, key) {
            Ok(()) => Ok(()),
            Err(fault) => {
                self.all.shorten(count);
                Err(fault)
            }
        }
    }

    /// Makes room for what an event may begin.
    pub(crate) fn prepare(&mut self, sight: &Sight) -> Result<(), AllocError>
        ensures ok { OnOk result (self.new ≡ ready self.old sight.now) }
        ensures err { OnErr result (self.new ≡ self.old) }
    {
        self.make_rooms(sight.place, sight.vacant)
    }

    /// What an event did more, from what was seen before it, in the world right after it. Constant time; takes no memory.
    pub(crate) fn note(&mut self, sight: &Sight, world: &World, done: &Done)
        ensures { self.new ≡ noted self.old sight.now world.now done.now }
    {
        match *done {
            Done::Idle => {}
            Done::Moved { .. } => {
                self.step(sight.place, sight.key);
                self.arrive(world, sight.place, sight.vacant);
                self.leave(sight, world);
            }
            Done::Taken { .. } => self.arrive(world, sight.place, sight.vacant),
        }
    }
}

impl Tally {
    /// The activity of the stay with a key at a place.
    fn activity(&self, place: u16, key: usize) -> Activity
        ensures { result ≡ activity_at self.now place key }
    {
        match self.rows.get(usize::from(place)) {
            Some(row) => row.get(key),
            None => Activity::nobody(),
        }
    }

    /// The stay with a key at a place is of this activity now.
    fn set(&mut self, place: u16, key: usize, activity: Activity)
        ensures { self.new ≡ with_activity self.old place key activity }
    {
        if usize::from(place) < self.rows.len() {
            self.rows[usize::from(place)].set(key, activity);
        }
    }

    /// The stay with a key at a place is of the activity that another one is of.
    fn take_over(&mut self, place: u16, key: usize, from: u16, waiting: usize)
        ensures { self.new ≡ taken_over self.old place key from waiting }
    {
        let activity = self.activity(from, waiting);
        self.set(place, key, activity);
    }

    /// What an activity is now stands at its number, if it has room.
    fn know(&mut self, activity: Activity)
        ensures { self.new ≡ with_known self.old activity }
    {
        self.all.set(activity.number, activity);
    }

    /// An activity more began with a function.
    fn add(&mut self, function: usize)
        ensures { self.new ≡ with_begun self.old function }
    {
        if function < self.functions.len() {
            self.functions[function] = self.functions[function].with_one();
        }
    }

    /// An activity that began with a function has made so many steps.
    fn reach(&mut self, function: usize, steps: u64)
        ensures { self.new ≡ with_steps self.old function steps }
    {
        if function < self.functions.len() {
            self.functions[function] = self.functions[function].reaching(steps);
        }
    }

    /// The activity of a stay has made a step more.
    fn step(&mut self, place: u16, key: usize)
        ensures { self.new ≡ stepped self.old place key }
    {
        let activity = self.activity(place, key).stepped();
        self.set(place, key, activity);
        self.know(activity);
        self.reach(usize::from(activity.function), activity.steps);
    }

    /// The activity that begins next, at a place and with a function.
    fn next_one(&self, place: u16, function: u16) -> Activity
        ensures { result ≡ next_one self.now place function }
    {
        Activity {
            number: self.next,
            place,
            function,
            steps: 0,
        }
    }

    /// An activity begins with the stay that has a key at a place.
    fn begin_as(&mut self, place: u16, key: usize, first: Activity)
        ensures { self.new ≡ begun_as self.old place key first }
    {
        self.set(place, key, first);
        self.know(first);
        self.next = self.next.saturating_add(1);
        self.add(usize::from(first.function));
    }

    /// A stay that executes a function began with a key at a place, for the one that waits for it, if one does.
    fn begin(&mut self, place: u16, key: usize, function: u16, back: Option<(u16, usize)>)
        ensures { self.new ≡ begun_from self.old place key function back }
    {
        match back {
            Some((from, waiting)) => self.take_over(place, key, from, waiting),
            None => self.begin_as(place, key, self.next_one(place, function)),
        }
    }

    /// A stay began with a key at a place, if there is one now.
    fn arrive(&mut self, world: &World, place: u16, key: usize)
        ensures { self.new ≡ arrived self.old world.now place key }
    {
        if let Some(stay) = stay_at(world, place, key) {
            let (function, back) = (stay.frame().function(), pair_of(stay.back()));
            self.begin(place, key, function, back);
        }
    }

    /// The stay that made a step has ended, if there is none now: the one that waits for it goes on with its activity.
    fn leave(&mut self, sight: &Sight, world: &World)
        ensures { self.new ≡ left self.old world.now sight.now }
    {
        if stay_at(world, sight.place, sight.key).is_none()
            && let Some((place, key)) = sight.back
        {
            self.take_over(place, key, sight.place, sight.key);
        }
    }
}
