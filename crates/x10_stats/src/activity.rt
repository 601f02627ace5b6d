//! The activities at one place, by the keys of their stays.
ghost use Rattle.std.specs.Prelude.{◌≡◌, OnErr, OnOk, [], length, slice_get, slice_set, take};
ghost use Rattle.x10_stats.specs.Tallies.{in_row, nobody, one_step, or_nobody, row_with_room};

use std::alloc::{AllocError, Global};
use std::marker::Model;

/// An activity that is followed.
#[derive(Clone, Copy, Debug, PartialEq, Eq)]
pub(crate) struct Activity {
    /// How many began before it.
    pub(crate) number: usize,
    /// The place where it began.
    pub(crate) place: u16,
    /// The function with which it began.
    pub(crate) function: u16,
    /// How many steps it has made. A number that would pass 2^64 - 1 stays there.
    pub(crate) steps: u64,
}

impl Activity {
    /// What stands where no stay was followed.
    pub(crate) fn nobody() -> Activity
        ensures { result ≡ nobody }
    {
        Activity {
            number: 0,
            place: 0,
            function: 0,
            steps: 0,
        }
    }

    /// With one step more.
    pub(crate) fn stepped(self) -> Activity
        ensures { result ≡ one_step self }
    {
        Activity {
            number: self.number,
            place: self.place,
            function: self.function,
            steps: self.steps.saturating_add(1),
        }
    }
}

/// The activities at a place by the keys of their stays. A key that isn't in use has the one that was there last. Or all that
/// began, by their numbers.
#[derive(Drop)]
pub(crate) struct Row {
    list: Vec<Activity>,
}

impl Model for Row {
    ghost use Rattle.std.specs.Prelude.{List};
    ghost use Rattle.x10_stats.specs.declared.activity.Activity.{Activity};

    ghost Value = { List Activity };

    ghost view = { λ a. a.list.items };
}

impl Row {
    /// Without any. Takes no memory.
    pub(crate) fn new(alloc: Global) -> Row
        ensures { result ≡ [] }
    {
        Row {
            list: Vec::new(alloc),
        }
    }

    /// How many keys have room.
    pub(crate) fn len(&self) -> usize
        ensures { result ≡ length self.now }
    {
        self.list.len()
    }

    /// What stands at a key, if it has room.
    pub(crate) fn find(&self, key: usize) -> Option<Activity>
        ensures { result ≡ slice_get self.now key }
    {
        self.list.get(key).copied()
    }

    /// The activity of the stay with a key.
    pub(crate) fn get(&self, key: usize) -> Activity
        ensures { result ≡ in_row self.now key }
    {
        match self.list.get(key) {
            Some(activity) => *activity,
            None => Activity::nobody(),
        }
    }

    /// The stay with a key is of this activity, if there is room for it.
    pub(crate) fn set(&mut self, key: usize, activity: Activity)
        ensures { self.new ≡ slice_set self.old key activity }
    {
        if key < self.list.len() {
            self.list[key] = activity;
        }
    }

    /// Makes room for a stay with a key.
    pub(crate) fn make_room(&mut self, key: usize) -> Result<(), AllocError>
        ensures ok { OnOk result (self.new ≡ row_with_room self.old key) }
        ensures err { OnErr result (self.new ≡ self.old) }
    {
        let count = key.saturating_add(1);
        if count <= self.list.len() {
            return Ok(());
        }
        self.list.resize(count, Activity::nobody())
    }

    /// Without room for keys from a number on.
    pub(crate) fn shorten(&mut self, count: usize)
        ensures { self.new ≡ take count self.old }
    {
        self.list.truncate(count);
    }
}
