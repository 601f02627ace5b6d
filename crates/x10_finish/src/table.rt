//! Counts by their finishes.
ghost use Rattle.std.specs.Prelude.{◌≡◌, ◌-◌, ◌<◌, ℕ, Some, None, OnOk, OnErr, Err, MatchOption, [], length};
ghost use Rattle.x10_finish.specs.Counts.{Fits};
ghost use Rattle.x10_finish.specs.Ledgers.{count_of, counted_or_nothing};
ghost use Rattle.x10_finish.specs.Met.{IsCounted, Lowers, Removes, Writes};

use crate::count::{Change, Count, apply};
use std::alloc::Global;
use std::collections::HashMap;
use std::marker::Model;
use x10_kinds::Stop;
use x10_model::Finish;

/// Counts by their finishes. A finish with a greater number than any that was entered isn't searched for: the finishes of one
/// place are numbered one after another, so one that is met now mostly has the greatest number.
#[derive(Drop)]
pub struct Table {
    highest: u32,
    counts: HashMap<Finish, Count>,
}

impl Model for Table {
    ghost use Rattle.std.specs.Prelude.{List};
    ghost use Rattle.x10_model.specs.declared.finish.Finish.{Finish};
    ghost use Rattle.x10_finish.specs.declared.count.Count.{Count};
    ghost use Rattle.x10_finish.specs.Met.{NoneAbove};

    ghost Value = { List (Finish × Count) };

    ghost view = { λ t. t.counts.entries };

    ghost invariant = { λ t. NoneAbove t.highest t.counts.entries };
}

/// Counts what changes of a finish, if it is there.
fn count_in(
    counts: &mut HashMap<Finish, Count>,
    finish: Finish,
    change: Change,
) -> Option<Result<(), Stop>>
    requires { (c : Count) → count_of counts.old.entries finish ≡ Some c
        → Fits change (length c.sent.items) × (length c.received.items ≡ length c.sent.items) }
    ensures { MatchOption result ((count_of counts.old.entries finish ≡ None)
        × (counts.new.entries ≡ counts.old.entries))
        (λ counted. IsCounted counts.old.entries finish change counted counts.new.entries) }
{
    let count = counts.get_mut(&finish)?;
    Some(apply(count, change))
}

/// One activity less lives under a finish.
fn end_in(counts: &mut HashMap<Finish, Count>, finish: Finish)
    requires { 0 < (counted_or_nothing (count_of counts.old.entries finish)).live }
    ensures { Lowers counts.old.entries finish counts.new.entries }
{
    let Some(count) = counts.get_mut(&finish) else {
        return;
    };
    count.live -= 1;
}

impl Table {
    /// No counts. Takes no memory.
    pub fn new(alloc: Global) -> Table
        ensures { result ≡ [] }
    {
        Table {
            highest: 0,
            counts: HashMap::new(alloc),
        }
    }

    /// The count of a finish, if it is there.
    #[inline(always)]
    pub fn get(&self, finish: Finish) -> Option<&Count>
        ensures { MatchOption result (count_of self.now finish ≡ None)
            (λ count. count_of self.now finish ≡ Some count.now) }
    {
        if finish.number > self.highest {
            return None;
        }
        self.counts.get(&finish)
    }

    /// Counts what changes of a finish, if it is there.
    #[inline(always)]
    pub fn count(&mut self, finish: Finish, change: Change) -> Option<Result<(), Stop>>
        requires { (c : Count) → count_of self.old finish ≡ Some c
            → Fits change (length c.sent.items) × (length c.received.items ≡ length c.sent.items) }
        ensures { MatchOption result ((count_of self.old finish ≡ None) × (self.new ≡ self.old))
            (λ counted. IsCounted self.old finish change counted self.new) }
    {
        if finish.number > self.highest {
            return None;
        }
        count_in(&mut self.counts, finish, change)
    }

    /// One activity less lives under a finish, of which one does.
    pub fn end(&mut self, finish: Finish)
        requires { 0 < (counted_or_nothing (count_of self.old finish)).live }
        ensures { Lowers self.old finish self.new }
    {
        end_in(&mut self.counts, finish);
    }

    /// Enters the count of a finish, in place of one that is there. Where memory is refused, nothing has changed, and the count
    /// comes back.
    pub fn insert(&mut self, finish: Finish, count: Count) -> Result<(), Count>
        ensures ok { OnOk result (Writes self.old finish count self.new) }
        ensures err { OnErr result ((result ≡ Err count) × (self.new ≡ self.old)) }
    {
        match self.counts.insert(finish, count) {
            Ok(_) => {
                self.highest = self.highest.max(finish.number);
                Ok(())
            }
            Err(failed) => Err(failed.value.1),
        }
    }

    /// Takes the count of a finish away, if it is there.
    #[inline(always)]
    pub fn remove(&mut self, finish: Finish) -> Option<Count>
        ensures { Removes self.old finish self.new }
    {
        if finish.number > self.highest {
            return None;
        }
        self.counts.remove(&finish)
    }
}
