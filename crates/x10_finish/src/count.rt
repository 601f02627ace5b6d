//! What one place counts of one finish.

ghost use Rattle.std.specs.Prelude.{◌≡◌, ◌+◌, ◌-◌, ◌<◌, ◌^◌, ℕ, IfOk, IfErr, OnOk, length, Err};
ghost use Rattle.x10_kinds.specs.declared.limit.Limit.TheVariants as limits;
ghost use Rattle.x10_kinds.specs.declared.stop.Stop.TheVariants as stop;
ghost use Rattle.x10_model.specs.Totals.{nothing, ends_one};
ghost use Rattle.x10_finish.specs.Counts.{Fits, IsFull, changed, counted, IsWhole};

use std::alloc::{AllocError, Global};
use x10_kinds::{Limit, Stop};

/// The activities under a finish that live at the place, and how many were sent to and received from each place.
#[derive(Debug, Drop)]
pub struct Count {
    pub live: u32,
    pub sent: Vec<u32>,
    pub received: Vec<u32>,
}

/// What is counted.
#[derive(Clone, Copy, Debug, PartialEq, Eq)]
pub enum Change {
    /// An activity begins here.
    Begins,
    /// One is put out to a place.
    Sends(u16),
    /// One that a place put out begins here.
    Receives(u16),
}

/// Nothing counted yet, for `places` places.
fn no_count(alloc: Global, places: u16) -> Result<Count, AllocError>
    ensures nothing { IfOk result (λ c. counted c ≡ nothing) }
    ensures whole { IfOk result (IsWhole places) }
{
    let places = usize::from(places);
    let sent = vec![in alloc; 0u32; places]?;
    let received = vec![in alloc; 0u32; places]?;
    Ok(Count {
        live: 0,
        sent,
        received,
    })
}

/// Makes a count one of nothing. Asks for memory only where it was of fewer places.
pub fn clear(count: &mut Count, places: u16) -> Result<(), AllocError>
    ensures nothing { OnOk result (counted count.new ≡ nothing) }
    ensures whole { OnOk result (IsWhole places count.new) }
{
    let places = usize::from(places);
    count.live = 0;
    count.sent.clear();
    count.sent.resize(places, 0)?;
    count.received.clear();
    count.received.resize(places, 0)?;
    Ok(())
}

/// A count of nothing for `places` places: one of those to spare, where there is one. Else there is room for one afterwards.
pub fn fresh_count(alloc: Global, spare: &mut Vec<Count>, places: u16) -> Result<Count, AllocError>
    ensures nothing { IfOk result (λ c. counted c ≡ nothing) }
    ensures whole { IfOk result (IsWhole places) }
{
    let Some(mut count) = spare.pop() else {
        spare.reserve(1)?;
        return no_count(alloc, places);
    };
    clear(&mut count, places)?;
    Ok(count)
}

/// Takes a count of a finish that ended. Asks for no memory: where there is no room for it, it is dropped.
pub fn keep_count(spare: &mut Vec<Count>, count: Count) {
    if spare.len() < spare.capacity() {
        spare.push_reserved(count);
    }
}

fn raised(count: u32) -> Result<u32, Stop>
    ensures ok { IfOk result (λ n. n ≡ count + 1) }
    ensures full { count + 1 ≡ 2 ^ 32 → result ≡ Err (stop.Limit limits.Activities) }
    ensures err { IfErr result (λ why. (why ≡ stop.Limit limits.Activities)
        × (count + 1 ≡ 2 ^ 32)) }
{
    match count.checked_add(1) {
        Some(more) => Ok(more),
        None => Err(Stop::Limit(Limit::Activities)),
    }
}

/// Adds one to what changes, where that is within the limit.
pub fn apply(count: &mut Count, change: Change) -> Result<(), Stop>
    requires sent { Fits change (length count.old.sent.items) }
    requires received { length count.old.received.items ≡ length count.old.sent.items }
    ensures ok { OnOk result (counted count.new ≡ changed change (counted count.old)) }
    ensures whole { IsWhole (length count.old.sent.items) count.new }
    ensures full { IsFull change (counted count.old) → result ≡ Err (stop.Limit limits.Activities) }
    ensures err { IfErr result (λ why. (why ≡ stop.Limit limits.Activities)
        × IsFull change (counted count.old) × (count.new ≡ count.old)) }
{
    match change {
        Change::Begins => count.live = raised(count.live)?,
        Change::Sends(to) => {
            let to = usize::from(to);
            count.sent[to] = raised(count.sent[to])?;
        }
        Change::Receives(from) => {
            let from = usize::from(from);
            let received = raised(count.received[from])?;
            count.live = raised(count.live)?;
            count.received[from] = received;
        }
    }
    Ok(())
}
