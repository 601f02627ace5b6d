//! Rows of labels: an equivalence on the terms by their numbers. Each term has as its label the number of the first
//! term that it is known to be equal to. Every function here is a pass over the row.
ghost use Rattle.std.specs.Prelude.{◌≡◌, ◌↔◌, ◌+◌, ◌*◌, ◌<◌, ◌==◌, ◌&&◌, MatchOption, IsTrue, true, false};
ghost use Rattle.x10_kinds.specs.Labels.{IsCanonical, IsFirstAlike, IsMetTo, IsNextOf, HasNoNext, Relabels};
ghost use Rattle.x10_kinds.specs.Labels.{AreSameIn, Says, ContainsRow, alike, eight_from, joined_row, parted_row};

/// How many terms there are: here, the places 0 to 63, the registers 0 to 63.
pub const TERMS: usize = 129;

/// The terms but the first, which is its own label in each row, are looked at in parts of this length.
const LENGTH: usize = 16;

/// How many parts there are.
const PARTS: usize = 8;

/// A label for each term.
pub type Labels = [u8; TERMS];

/// Each term alone.
pub fn apart() -> Labels
    ensures canonical { IsCanonical result }
    ensures alone { Says result (λ i k. i == k) }
{
    let mut labels = [0; TERMS];
    for (at, label) in labels.iter_mut().enumerate() {
        *label = at as u8;
    }
    labels
}

/// Puts the class of one term into that of the other.
pub fn join(labels: &mut Labels, at: usize, other: usize)
    requires canonical { IsCanonical labels.old }
    requires at_within { at < 129 }
    requires other_within { other < 129 }
    ensures canonical { IsCanonical labels.new }
    ensures joined { Says labels.new (joined_row labels.old at other) }
{
    let (one, two) = (labels[at], labels[other]);
    relabel(labels, one.max(two), one.min(two));
}

/// Takes a term out of its class.
pub fn leave(labels: &mut Labels, at: usize)
    requires canonical { IsCanonical labels.old }
    requires within { at < 129 }
    ensures canonical { IsCanonical labels.new }
    ensures left { Says labels.new (parted_row labels.old at) }
{
    if let Some(next) = next_of(labels, at) {
        relabel(labels, at as u8, next as u8);
    }
    labels[at] = at as u8;
}

/// Gives up the equations that another row lacks, and answers whether there were any. Where ways meet most labels are the
/// same in both rows: the parts where they are cost a look each.
pub fn weaken(labels: &mut Labels, other: &Labels) -> bool
    requires left { IsCanonical labels.old }
    requires right { IsCanonical other.now }
    ensures canonical { IsCanonical labels.new }
    ensures met { Says labels.new (λ i k. alike labels.old i k && alike other.now i k) }
    ensures kept { result ≡ false → labels.new ≡ labels.old }
    ensures lacking { result ≡ true → ContainsRow other.now labels.old → ⊥ }
{
    let Some(first) = first_other(labels, other) else {
        return false;
    };
    let before = *labels;
    let mut changed = false;
    for part in first..PARTS {
        if weaken_part(labels, &before, other, part) {
            changed = true;
        }
    }
    changed
}

// The first part in which two rows differ, if they do.
fn first_other(labels: &Labels, other: &Labels) -> Option<usize>
    ensures { MatchOption result (AreSameIn labels.now other.now 1 129)
        (λ part. (part < 8) × AreSameIn labels.now other.now 1 (16 * part + 1)) }
{
    for part in 0..PARTS {
        if !is_same_part(labels, other, part) {
            return Some(part);
        }
    }
    None
}

// The same of one part of the terms, where those before it are done.
fn weaken_part(labels: &mut Labels, before: &Labels, other: &Labels, part: usize) -> bool
    requires left { IsCanonical before.now }
    requires right { IsCanonical other.now }
    requires part { part < 8 }
    requires done { IsMetTo before.now other.now (16 * part + 1) labels.old }
    ensures done { IsMetTo before.now other.now (16 * part + 17) labels.new }
    ensures kept { result ≡ false → labels.new ≡ labels.old }
    ensures lacking { result ≡ true → ContainsRow other.now before.now → ⊥ }
{
    if is_same_part(before, other, part) {
        return false;
    }
    let mut changed = false;
    for at in LENGTH * part + 1..LENGTH * part + LENGTH + 1 {
        let first = first_alike(before, other, at);
        if first != before[at] as usize {
            labels[at] = first as u8;
            changed = true;
        }
    }
    changed
}

// Whether two rows have the same labels in one part. Two comparisons.
fn is_same_part(labels: &Labels, other: &Labels, part: usize) -> bool
    requires { part < 8 }
    ensures { result ≡ true → AreSameIn labels.now other.now (16 * part + 1) (16 * part + 17) }
{
    let from = LENGTH * part + 1;
    eight(labels, from) == eight(other, from) && eight(labels, from + 8) == eight(other, from + 8)
}

// Eight labels as one number.
fn eight(labels: &Labels, at: usize) -> u64
    requires { at < 122 }
    ensures { result ≡ eight_from labels.now at }
{
    u64::from_le_bytes([
        labels[at],
        labels[at + 1],
        labels[at + 2],
        labels[at + 3],
        labels[at + 4],
        labels[at + 5],
        labels[at + 6],
        labels[at + 7],
    ])
}

/// Whether terms that are equal by one row are equal by the other too.
pub fn contains(labels: &Labels, less: &Labels) -> bool
    requires { IsCanonical less.now }
    ensures { IsTrue result ↔ ContainsRow labels.now less.now }
{
    for (at, label) in less.iter().enumerate() {
        if labels[at] != labels[*label as usize] {
            return false;
        }
    }
    true
}

// Writes another label in place of one. No branches.
fn relabel(labels: &mut Labels, from: u8, to: u8)
    ensures { Relabels labels.old labels.new from to }
{
    for label in labels.iter_mut() {
        let kept = *label;
        *label = if kept == from { to } else { kept };
    }
}

// The first term above one that has its number as label, if there is one. Only a term that is its own label has one.
fn next_of(labels: &Labels, at: usize) -> Option<usize>
    requires canonical { IsCanonical labels.now }
    requires within { at < 129 }
    ensures { MatchOption result (HasNoNext labels.now at) (IsNextOf labels.now at) }
{
    if labels[at] as usize != at {
        return None;
    }
    for next in at + 1..TERMS {
        if labels[next] as usize == at {
            return Some(next);
        }
    }
    None
}

// The first term that has the labels of a term in both rows. Mostly it is the first of the term's class in one of them.
fn first_alike(a: &Labels, b: &Labels, at: usize) -> usize
    requires left { IsCanonical a.now }
    requires right { IsCanonical b.now }
    requires within { at < 129 }
    ensures { IsFirstAlike a.now b.now at result }
{
    let (one, two) = (a[at] as usize, b[at] as usize);
    if b[one] as usize == two {
        return one;
    }
    if a[two] as usize == one {
        return two;
    }
    first_between(a, b, at)
}

// The same, term by term. It is not below either label.
fn first_between(a: &Labels, b: &Labels, at: usize) -> usize
    requires left { IsCanonical a.now }
    requires right { IsCanonical b.now }
    requires within { at < 129 }
    ensures { IsFirstAlike a.now b.now at result }
{
    let from = a[at].max(b[at]) as usize;
    for first in from..at {
        if a[first] == a[at] && b[first] == b[at] {
            return first;
        }
    }
    at
}
