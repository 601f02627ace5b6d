//! What the home of a finish keeps of reports: for each pair of places two numbers, and how many pairs differ.

ghost use Rattle.std.specs.Prelude.{◌≡◌, ◌+◌, ◌*◌, ◌<◌, ◌≤◌, ◌^◌, ℕ, true, false, IfNone, IfSome, length, slice_index};
ghost use Rattle.x10_finish.specs.Pairs.{pair_at, difference, unequal_in, raised_at, merged_to, agreed};

use crate::pair_list::PairList;

/// How many activities one place has reported that it sent to another, and the other that it received from the one.
#[derive(Clone, Copy, Debug, PartialEq, Eq)]
pub struct Pair {
    pub sent: u32,
    pub received: u32,
}

/// 1 where the numbers of a pair differ and neither place is the home, whose own numbers are looked up in its tally.
fn differs(home: usize, from: usize, to: usize, pair: Pair) -> usize
    ensures value { result ≡ difference home from to pair }
    ensures small { result ≤ 1 }
{
    if from == home || to == home {
        return 0;
    }
    usize::from(pair.sent != pair.received)
}

/// The larger of each number for one pair. Takes how many pairs differ, and answers how many do afterwards. Constant time.
#[inline(always)]
pub fn raise(
    pairs: &mut PairList,
    unequal: usize,
    home: usize,
    places: usize,
    from: usize,
    to: usize,
    by: Pair,
) -> usize
    requires few { places < 2 ^ 16 }
    requires from { from < places }
    requires to { to < places }
    requires whole { length pairs.old ≡ places * places }
    requires unequal { unequal ≡ unequal_in home places pairs.old }
    ensures whole { length pairs.new ≡ places * places }
    ensures unequal { result ≡ unequal_in home places pairs.new }
    ensures pairs { (a b : ℕ) → pair_at places pairs.new a b
        ≡ raised_at from to by (pair_at places pairs.old) a b }
{
    let i = from * places + to;
    let old = pairs.get(i);
    if by.sent <= old.sent && by.received <= old.received {
        return unequal;
    }
    let new = Pair {
        sent: old.sent.max(by.sent),
        received: old.received.max(by.received),
    };
    pairs.set(i, new);
    unequal + differs(home, from, to, new) - differs(home, from, to, old)
}

/// Takes in how many activities a place sent to another one and received from it, the larger of each number. Takes how many pairs
/// differ, and answers how many do afterwards. Constant time.
#[inline(always)]
fn raise_both(
    pairs: &mut PairList,
    unequal: usize,
    home: usize,
    places: usize,
    place: usize,
    other: usize,
    sent: u32,
    received: u32,
) -> usize
    requires few { places < 2 ^ 16 }
    requires place { place < places }
    requires other { other < places }
    requires whole { length pairs.old ≡ places * places }
    requires unequal { unequal ≡ unequal_in home places pairs.old }
    ensures whole { length pairs.new ≡ places * places }
    ensures unequal { result ≡ unequal_in home places pairs.new }
    ensures pairs { (a b : ℕ) → pair_at places pairs.new a b
        ≡ raised_at other place (record { sent = 0; received = received })
        (raised_at place other (record { sent = sent; received = 0 })
        (pair_at places pairs.old)) a b }
{
    let went = Pair { sent, received: 0 };
    let unequal = raise(pairs, unequal, home, places, place, other, went);
    let came = Pair { sent: 0, received };
    raise(pairs, unequal, home, places, other, place, came)
}

/// Whether one of the two counts of four places, from one on, isn't 0.
#[inline(always)]
fn has_counted(sent: &[u32], received: &[u32], from: usize) -> bool
    requires from { from + 4 ≤ length sent.now }
    requires received { length received.now ≡ length sent.now }
    ensures sent { result ≡ false → (q : ℕ) → from ≤ q → q < from + 4 → slice_index sent.now q ≡ 0 }
    ensures received { result ≡ false → (q : ℕ) → from ≤ q → q < from + 4
        → slice_index received.now q ≡ 0 }
{
    let mut all = 0;
    for q in 0..4 {
        all |= sent[from + q] | received[from + q];
    }
    all != 0
}

/// A place, from one on, before which both counts of each place are 0: these are looked at by fours, up to four of which one isn't.
#[inline(always)]
fn past_zeros(sent: &[u32], received: &[u32], from: usize) -> usize
    requires from { from ≤ length sent.now }
    requires received { length received.now ≡ length sent.now }
    ensures past { from ≤ result }
    ensures within { result ≤ length sent.now }
    ensures sent { (q : ℕ) → from ≤ q → q < result → slice_index sent.now q ≡ 0 }
    ensures received { (q : ℕ) → from ≤ q → q < result → slice_index received.now q ≡ 0 }
{
    let mut at = from;
    for _ in from..sent.len() {
        if sent.len() - at < 4 || has_counted(sent, received, at) {
            return at;
        }
        at += 4;
    }
    at
}

/// The first place, from one on, of which one of two counts isn't 0; the number of places where there is none.
// (inlined, its loop takes twice as many machine instructions)
#[inline(never)]
fn next_counted(sent: &[u32], received: &[u32], from: usize) -> usize
    requires from { from ≤ length sent.now }
    requires received { length received.now ≡ length sent.now }
    ensures past { from ≤ result }
    ensures within { result ≤ length sent.now }
    ensures sent { (q : ℕ) → from ≤ q → q < result → slice_index sent.now q ≡ 0 }
    ensures received { (q : ℕ) → from ≤ q → q < result → slice_index received.now q ≡ 0 }
{
    let first = past_zeros(sent, received, from);
    for q in first..sent.len() {
        if sent[q] != 0 || received[q] != 0 {
            return q;
        }
    }
    sent.len()
}

/// Takes in how many activities a place sent to each other and received from each, the larger of each number. Takes how many
/// pairs differ, and answers how many do afterwards. Linear in the number of places; where both counts are 0, as most of a report
/// are, no pair is looked at.
pub fn merge(
    pairs: &mut PairList,
    mut unequal: usize,
    home: usize,
    place: usize,
    sent: &[u32],
    received: &[u32],
) -> usize
    requires few { length sent.now < 2 ^ 16 }
    requires place { place < length sent.now }
    requires received { length received.now ≡ length sent.now }
    requires whole { length pairs.old ≡ length sent.now * length sent.now }
    requires unequal { unequal ≡ unequal_in home (length sent.now) pairs.old }
    ensures whole { length pairs.new ≡ length sent.now * length sent.now }
    ensures unequal { result ≡ unequal_in home (length sent.now) pairs.new }
    ensures pairs { (a b : ℕ) → pair_at (length sent.now) pairs.new a b
        ≡ merged_to place sent.now received.now (length sent.now)
        (pair_at (length sent.now) pairs.old) a b }
{
    let places = sent.len();
    let mut at = 0;
    for _done in 0..places {
        let q = next_counted(sent, received, at);
        if q >= places {
            return unequal;
        }
        unequal = raise_both(pairs, unequal, home, places, place, q, sent[q], received[q]);
        at = q + 1;
    }
    unequal
}

fn number(counts: &[u32], q: usize) -> u32
    ensures { result ≡ slice_index counts.now q }
{
    if q < counts.len() { counts[q] } else { 0 }
}

/// Whether the home and a place agree on what they sent each other, by the home's own numbers and the pairs.
pub fn agrees(
    pairs: &PairList,
    home: usize,
    places: usize,
    sent: &[u32],
    received: &[u32],
    q: usize,
) -> bool
    requires few { places < 2 ^ 16 }
    requires home { home < places }
    requires place { q < places }
    requires whole { length pairs.now ≡ places * places }
    ensures { result ≡ agreed home (pair_at places pairs.now) sent.now received.now q }
{
    if q == home {
        return number(sent, home) == number(received, home);
    }
    let (to, from) = (pairs.get(home * places + q), pairs.get(q * places + home));
    number(sent, q) == to.received && from.sent == number(received, q)
}

/// The first place that doesn't agree with the home. Linear in the number of places.
pub fn first_apart(
    pairs: &PairList,
    home: usize,
    places: u16,
    sent: &[u32],
    received: &[u32],
) -> Option<u16>
    requires home { home < places }
    requires whole { length pairs.now ≡ places * places }
    ensures none { IfNone result ((q : ℕ) → q < places
        → agreed home (pair_at places pairs.now) sent.now received.now q ≡ true) }
    ensures some { IfSome result (λ q. (q < places)
        × (agreed home (pair_at places pairs.now) sent.now received.now q ≡ false)) }
{
    for q in 0..places {
        if !agrees(
            pairs,
            home,
            usize::from(places),
            sent,
            received,
            usize::from(q),
        ) {
            return Some(q);
        }
    }
    None
}
