//! The keys that a place's activities may have, as rounds remember them. No clause speaks of them: they save a search.
use std::alloc::{AllocError, Global};
use std::mem;
use x10_place::Place;

/// The keys of a place's activities.
#[derive(Drop)]
pub struct RoundKeys {
    /// Those that were in use when the place's last round began, by rising number.
    pub known: Vec<usize>,
    /// Those of activities that began since, in no particular order.
    pub fresh: Vec<usize>,
    /// Room in which the next list is made.
    spare: Vec<usize>,
}

impl RoundKeys {
    /// The keys of a list.
    pub fn new(alloc: Global, known: Vec<usize>) -> RoundKeys {
        RoundKeys {
            known,
            fresh: Vec::new(alloc),
            spare: Vec::new(alloc),
        }
    }

    /// Notes that an activity with a key began. Logarithmic in the known keys, of which it may be one: that of an activity that ended.
    #[inline(always)]
    pub(crate) fn begin(&mut self, key: usize) -> Result<(), AllocError> {
        if self.known.binary_search(&key).is_err() {
            self.fresh.push(key)?;
        }
        Ok(())
    }

    /// The one key that there may be; none where there may be several, or none.
    #[inline(always)]
    pub(crate) fn only(&self) -> Option<usize> {
        match self.known.as_slice() {
            [key] if self.fresh.is_empty() => Some(*key),
            _ => None,
        }
    }

    /// Makes the keys in use now the known ones. Linear in the keys, except that new ones are sorted; constant time where no
    /// activity began or ended.
    #[inline(always)]
    pub fn refresh(&mut self, place: &Place) -> Result<(), AllocError> {
        if self.fresh.is_empty() && self.known.len() == place.live() {
            return Ok(());
        }
        self.renew(place)
    }

    /// Drops the known keys that are no longer in use, and puts those of activities that began among them.
    #[inline(never)]
    pub fn renew(&mut self, place: &Place) -> Result<(), AllocError> {
        self.known.retain(|key| place.contains(*key));
        self.fresh.sort_unstable();
        self.fresh.dedup();
        if self.known.is_empty() {
            mem::swap(&mut self.known, &mut self.fresh);
        } else if !self.fresh.is_empty() {
            merge(&self.known, &self.fresh, &mut self.spare)?;
            mem::swap(&mut self.known, &mut self.spare);
        }
        self.fresh.clear();
        Ok(())
    }

    /// The first of the keys that is in use.
    pub fn first(&self, place: &Place) -> Option<usize> {
        self.known
            .iter()
            .chain(self.fresh.iter())
            .copied()
            .find(|key| place.contains(*key))
    }
}

/// Puts the numbers of two sorted lists, each once, by rising number, in place of what the third list has.
fn merge(old: &[usize], new: &[usize], all: &mut Vec<usize>) -> Result<(), AllocError> {
    all.clear();
    let mut position = 0;
    for key in new {
        position = push_below(old, position, *key, all)?;
        all.push(*key)?;
    }
    push_below(old, position, usize::MAX, all)?;
    Ok(())
}

/// Pushes the numbers of a sorted list from a position on that are below a number, and answers at which position the larger
/// ones begin.
fn push_below(
    list: &[usize],
    from: usize,
    number: usize,
    all: &mut Vec<usize>,
) -> Result<usize, AllocError> {
    for position in from..list.len() {
        let next = list[position];
        if next == number {
            return Ok(position + 1);
        }
        if next > number {
            return Ok(position);
        }
        all.push(next)?;
    }
    Ok(list.len())
}
