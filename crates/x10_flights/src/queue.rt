//! The numbers of the frames in flight to one place.

ghost use Rattle.std.specs.Prelude.{◌≡◌, ℕ, ◌+◌, ◌<◌, ◌≤◌, ◌⊎◌, ◌++◌, ◌∷◌, [], true, false, All, IfOk, IfErr, OnOk, length, filter, drop, slice_get, slice_index, vec_len, vec_capacity, find as find_in};
ghost use Rattle.x10_kinds.specs.declared.stop.Stop.TheVariants as stop;
ghost use Rattle.x10_flights.specs.Flights.{flies_to, IsNext, RisingBy, FirstFlies, Has, numbers_at, spare_at};

use crate::table::Table;
use std::alloc::{AllocError, Global};
use std::marker::Model;
use x10_kinds::Stop;

/// How many frames are taken before it is worthwhile to drop their numbers.
const FEW: usize = 16;

/// The first of some numbers whose frame is in flight to a place.
fn first_flying(numbers: &[u64], table: &Table, place: u16) -> Option<u64>
    ensures { result ≡ find_in (flies_to table.now.flying place) numbers.now }
{
    numbers
        .iter()
        .copied()
        .find(|number| table.flies_to(place, *number))
}

/// How many of some numbers come before the first whose frame is in flight to a place. The frame `gone` isn't.
fn passed(numbers: &[u64], table: &Table, place: u16, gone: u64) -> usize
    requires { flies_to table.now.flying place gone ≡ false }
    ensures within { result ≤ length numbers.now }
    ensures before { (k : ℕ) → k < result → flies_to table.now.flying place
        (slice_index numbers.now k) ≡ false }
    ensures found { result < length numbers.now → flies_to table.now.flying place
        (slice_index numbers.now result) ≡ true }
{
    for (at, number) in numbers.iter().enumerate() {
        if *number != gone && table.flies_to(place, *number) {
            return at;
        }
    }
    numbers.len()
}

/// Drops the first of some numbers.
fn drop_first(numbers: &mut Vec<u64>, count: usize)
    requires { count ≤ vec_len numbers.old }
    ensures items { numbers.new.items ≡ drop count numbers.old.items }
    ensures len { vec_len numbers.new ≤ vec_len numbers.old }
    ensures capacity { vec_capacity numbers.new ≡ vec_capacity numbers.old }
{
    let left = numbers.len() - count;
    numbers.rotate_left(count);
    numbers.truncate(left);
}

/// The numbers of the frames to one place, in rising order.
#[derive(Drop)]
pub(crate) struct Queue {
    numbers: Vec<u64>,
    /// How many numbers were passed: their frames were taken, and the queue begins behind them.
    head: usize,
    /// How many of the numbers are of frames that were taken. No clause speaks of it: it matters only for time and memory.
    taken: usize,
}

impl Model for Queue {
    ghost use Rattle.std.specs.Prelude.{vec_len, vec_capacity, ◌-◌, ◌≤◌, drop};
    ghost use Rattle.x10_flights.specs.Flights.{Queued};

    ghost Value = { Queued };

    ghost view = { λ q. record { numbers = drop q.head q.numbers.items; spare = vec_capacity q.numbers - vec_len q.numbers } };

    ghost invariant = { λ q. q.head ≤ vec_len q.numbers };
}

impl Queue {
    pub(crate) fn open(alloc: Global) -> Result<Queue, AllocError>
        ensures { IfOk result (λ queue. (queue.numbers ≡ []) × (2 ≤ queue.spare)) }
    {
        let numbers = Vec::with_capacity(alloc, 4)?;
        Ok(Queue {
            numbers,
            head: 0,
            taken: 0,
        })
    }

    /// Makes room for two more numbers.
    #[inline(always)]
    pub(crate) fn make_room(&mut self) -> Result<(), Stop>
        ensures numbers { self.new.numbers ≡ self.old.numbers }
        ensures spare { self.old.spare ≤ self.new.spare }
        ensures ok { OnOk result (2 ≤ self.new.spare) }
        ensures err { IfErr result (λ why. why ≡ stop.Memory) }
    {
        match self.numbers.try_reserve(2) {
            Ok(()) => Ok(()),
            Err(_) => Err(Stop::Memory),
        }
    }

    pub(crate) fn push(&mut self, number: u64)
        requires { 0 < self.old.spare }
        ensures numbers { self.new.numbers ≡ self.old.numbers ++ number ∷ [] }
        ensures spare { self.old.spare ≤ self.new.spare + 1 }
    {
        let _ = self.numbers.push(number);
    }

    /// The first of the numbers.
    #[inline(always)]
    pub(crate) fn first(&self) -> Option<u64>
        ensures { result ≡ slice_get self.now.numbers 0 }
    {
        self.numbers.get(self.head).copied()
    }

    /// The least of the numbers, from `from` on, whose frame is in flight to the place.
    pub(crate) fn next(&self, table: &Table, place: u16, from: u64) -> Option<u64>
        requires rising { RisingBy (λ n. n) 0 self.now.numbers table.now.posted }
        requires filed { (n : ℕ) → flies_to table.now.flying place n ≡ true
            → Has self.now.numbers n }
        ensures { IsNext (flies_to table.now.flying place) from result }
    {
        let numbers = &self.numbers[self.head..];
        let start = numbers.partition_point(|number| *number < from);
        first_flying(&numbers[start..], table, place)
    }

    /// Passes the numbers at the front whose frames aren't in flight to the place. The frame `gone` isn't.
    fn pass(&mut self, table: &Table, place: u16, gone: u64)
        requires { flies_to table.now.flying place gone ≡ false }
        ensures kept { (n : ℕ) → flies_to table.now.flying place n ≡ true → Has self.old.numbers n
            → Has self.new.numbers n }
        ensures rising { (top : ℕ) → RisingBy (λ n. n) 0 self.old.numbers top
            → RisingBy (λ n. n) 0 self.new.numbers top }
        ensures first { FirstFlies table.now.flying place self.new.numbers }
        ensures spare { self.new.spare ≡ self.old.spare }
    {
        self.head += passed(&self.numbers[self.head..], table, place, gone);
    }

    /// Drops what was passed, and where frames were taken from between others, the numbers of those too.
    fn cut(&mut self, table: &Table, place: u16)
        ensures numbers { (self.new.numbers ≡ self.old.numbers)
            ⊎ (self.new.numbers ≡ filter (flies_to table.now.flying place) self.old.numbers) }
        ensures spare { self.old.spare ≤ self.new.spare }
    {
        let scattered = self.taken > self.head;
        drop_first(&mut self.numbers, self.head);
        self.head = 0;
        self.taken = 0;
        if scattered {
            self.numbers.retain(|number| table.flies_to(place, *number));
        }
    }

    /// The frame `gone` was taken: passes the numbers at the front whose frames aren't in flight, and drops those of frames
    /// that were taken, once they are more than half of all, or all.
    pub(crate) fn sweep(&mut self, table: &Table, place: u16, gone: u64)
        requires { flies_to table.now.flying place gone ≡ false }
        ensures kept { (n : ℕ) → flies_to table.now.flying place n ≡ true → Has self.old.numbers n
            → Has self.new.numbers n }
        ensures rising { (top : ℕ) → RisingBy (λ n. n) 0 self.old.numbers top
            → RisingBy (λ n. n) 0 self.new.numbers top }
        ensures first { FirstFlies table.now.flying place self.new.numbers }
        ensures spare { self.old.spare ≤ self.new.spare }
    {
        self.taken = self.taken.wrapping_add(1);
        self.pass(table, place, gone);
        let all = self.numbers.len();
        if self.head == all || (self.taken > FEW && self.taken > all / 2) {
            self.cut(table, place);
        }
    }
}

/// Makes room for two more numbers in the queue of a place, if there is such a place.
pub(crate) fn widen(queues: &mut Vec<Queue>, place: u16) -> Result<(), Stop>
    ensures count { length queues.new.items ≡ length queues.old.items }
    ensures numbers { (p : ℕ) → numbers_at queues.new.items p ≡ numbers_at queues.old.items p }
    ensures spare { (p : ℕ) → spare_at queues.old.items p ≤ spare_at queues.new.items p }
    ensures ok { OnOk result (place < length queues.old.items
        → 2 ≤ spare_at queues.new.items place) }
    ensures err { IfErr result (λ why. why ≡ stop.Memory) }
{
    if usize::from(place) >= queues.len() {
        return Ok(());
    }
    let queue = &mut queues[usize::from(place)];
    queue.make_room()
}

/// A queue for each place.
pub(crate) fn open_queues(alloc: Global, places: u16) -> Result<Vec<Queue>, AllocError>
    ensures count { IfOk result (λ queues. length queues.items ≡ places) }
    ensures empty { IfOk result (λ queues. All (λ q. (q.numbers ≡ []) × (2 ≤ q.spare))
        queues.items) }
{
    let mut queues = Vec::with_capacity(alloc, usize::from(places))?;
    for _ in 0..places {
        queues.push(Queue::open(alloc)?)?;
    }
    Ok(queues)
}
