//! The counts of the finishes that a place has met.
ghost use Rattle.std.specs.Prelude.{◌≡◌, ◌-◌, ◌<◌, ℕ, Some, None, OnOk, IfErr, MatchOption, [], length};
ghost use Rattle.x10_kinds.specs.declared.stop.Stop.TheVariants as stop;
ghost use Rattle.x10_finish.specs.Counts.{Fits};
ghost use Rattle.x10_finish.specs.Ledgers.{count_of, counted_or_nothing};
ghost use Rattle.x10_finish.specs.Met.{IsCounted, Lowers, Meets, Removes, if_met, is_of_finish, listed};

use crate::count::{Change, Count, apply, clear, fresh_count, keep_count};
use crate::table::Table;
use std::alloc::Global;
use std::marker::Model;
use x10_kinds::Stop;
use x10_model::Finish;

/// A count, and the finish that it is of.
#[derive(Drop)]
pub struct Named {
    pub finish: Finish,
    pub count: Count,
}

/// What is counted of each finish that was met. The one that was met last lies beside the others until the next one is met: so it
/// takes no search, and a finish that ends before another one is met none at all; then its count stays where it lies for the next.
#[derive(Drop)]
pub struct Met {
    alloc: Global,
    /// Whether the latest count is that of a finish. Else the next finish takes it.
    is_met: bool,
    latest: Option<Named>,
    others: Table,
    /// Counts of finishes that ended: one that is met takes one of these, so that finishes in a loop ask for no more memory.
    spare: Vec<Count>,
}

impl Model for Met {
    ghost use Rattle.std.specs.Prelude.{List};
    ghost use Rattle.x10_model.specs.declared.finish.Finish.{Finish};
    ghost use Rattle.x10_finish.specs.declared.count.Count.{Count};
    ghost use Rattle.x10_finish.specs.Met.{IsApart, if_met, listed};

    ghost Value = { List (Finish × Count) };

    ghost view = { λ m. listed (if_met m.is_met m.latest) m.others };

    ghost invariant = { λ m. IsApart (if_met m.is_met m.latest) m.others };
}

/// Puts the latest count among the others. Where memory is refused, nothing has changed.
fn set_aside(latest: &mut Option<Named>, others: &mut Table) -> Result<(), Stop>
    ensures ok { OnOk result ((latest.new ≡ None) × ((f : Finish) → count_of others.new f
        ≡ count_of (listed latest.old others.old) f)) }
    ensures err { IfErr result (λ why. (why ≡ stop.Memory) × (latest.new ≡ latest.old)
        × (others.new ≡ others.old)) }
{
    let Some(Named { finish, count }) = latest.take() else {
        return Ok(());
    };
    match others.insert(finish, count) {
        Ok(()) => Ok(()),
        Err(count) => {
            *latest = Some(Named { finish, count });
            Err(Stop::Memory)
        }
    }
}

/// Whether the latest count is that of a finish.
#[inline(always)]
fn is_of(is_met: bool, latest: &Option<Named>, finish: Finish) -> bool
    ensures { result ≡ is_of_finish (if_met is_met latest.now) finish }
{
    match latest {
        Some(latest) => is_met && finish == latest.finish,
        None => false,
    }
}

impl Met {
    /// None.
    pub fn new(alloc: Global) -> Met
        ensures { result ≡ [] }
    {
        Met {
            alloc,
            is_met: false,
            latest: None,
            others: Table::new(alloc),
            spare: Vec::new(alloc),
        }
    }

    /// The count of a finish, if it was met.
    #[inline(always)]
    pub fn get(&self, finish: Finish) -> Option<&Count>
        ensures { MatchOption result (count_of self.now finish ≡ None)
            (λ count. count_of self.now finish ≡ Some count.now) }
    {
        match &self.latest {
            Some(latest) if self.is_met && finish == latest.finish => Some(&latest.count),
            _ => self.others.get(finish),
        }
    }

    /// Counts what changes, if the finish was met.
    #[inline(always)]
    pub fn count(&mut self, finish: Finish, change: Change) -> Option<Result<(), Stop>>
        requires { (c : Count) → count_of self.old finish ≡ Some c
            → Fits change (length c.sent.items) × (length c.received.items ≡ length c.sent.items) }
        ensures { MatchOption result ((count_of self.old finish ≡ None) × (self.new ≡ self.old))
            (λ counted. IsCounted self.old finish change counted self.new) }
    {
        if !is_of(self.is_met, &self.latest, finish) {
            return self.others.count(finish, change);
        }
        match &mut self.latest {
            Some(latest) => Some(apply(&mut latest.count, change)),
            None => None,
        }
    }

    /// One activity less lives under a finish, of which one does.
    #[inline(always)]
    pub fn end(&mut self, finish: Finish)
        requires { 0 < (counted_or_nothing (count_of self.old finish)).live }
        ensures { Lowers self.old finish self.new }
    {
        if !is_of(self.is_met, &self.latest, finish) {
            return self.others.end(finish);
        }
        if let Some(latest) = &mut self.latest {
            latest.count.live -= 1;
        }
    }

    /// A finish of so many places is met now, of which nothing was counted. Where memory is refused, nothing has changed.
    pub fn meet(&mut self, finish: Finish, places: u16) -> Result<(), Stop>
        requires { count_of self.old finish ≡ None }
        ensures ok { OnOk result (Meets self.old finish places self.new) }
        ensures err { IfErr result (λ why. (why ≡ stop.Memory) × (self.new ≡ self.old)) }
    {
        if !self.is_met {
            if let Some(latest) = &mut self.latest {
                if clear(&mut latest.count, places).is_err() {
                    return Err(Stop::Memory);
                }
                latest.finish = finish;
                self.is_met = true;
                return Ok(());
            }
        }
        let Ok(count) = fresh_count(self.alloc, &mut self.spare, places) else {
            return Err(Stop::Memory);
        };
        set_aside(&mut self.latest, &mut self.others)?;
        self.latest = Some(Named { finish, count });
        self.is_met = true;
        Ok(())
    }

    /// Takes the count of a finish away, if it was met. Asks for no memory: where there is no room to keep it for the next finish,
    /// it is dropped.
    pub fn forget(&mut self, finish: Finish)
        ensures { Removes self.old finish self.new }
    {
        if is_of(self.is_met, &self.latest, finish) {
            self.is_met = false;
            return;
        }
        if let Some(count) = self.others.remove(finish) {
            keep_count(&mut self.spare, count);
        }
    }
}
