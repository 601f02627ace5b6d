//! Sets of keys.
use std::alloc::{AllocError, Global};

/// How many numbers lie side by side in one word.
const WORD: usize = 64;

/// The most levels: 64 to the 11th is more than there are keys.
const MOST_LEVELS: usize = 11;

/// A set of keys, from which the least one at or above a number is found in a step for each level of it: one for keys below 64, two
/// below 4,096, and so on. A level has a bit for each word of the level below it, which says whether that one has bits; the
/// lowest has a bit for each key. Takes an eighth of a byte for each number up to the greatest key that was put in.
#[derive(Drop)]
pub(crate) struct KeySet {
    alloc: Global,
    /// From the lowest up; the last one has one word.
    levels: Vec<Vec<u64>>,
    /// How many keys there are.
    count: usize,
}

/// The bit of a position in its word.
fn bit(position: usize) -> u64 {
    1 << (position % WORD)
}

impl KeySet {
    /// No key.
    pub fn new(alloc: Global) -> KeySet {
        KeySet {
            alloc,
            levels: Vec::new(alloc),
            count: 0,
        }
    }

    /// How many keys there are. Constant time.
    pub fn len(&self) -> usize {
        self.count
    }

    /// Whether there is no key. Constant time.
    pub fn is_empty(&self) -> bool {
        self.count == 0
    }

    /// Puts a key in, if it isn't there.
    pub fn insert(&mut self, key: usize) -> Result<(), AllocError> {
        self.make_room(key)?;
        if self.contains(key) {
            return Ok(());
        }
        self.count = self.count.saturating_add(1);
        let mut position = key;
        for level in 0..self.levels.len() {
            let before = self.change(level, position, true);
            if before != 0 {
                return Ok(());
            }
            position /= WORD;
        }
        Ok(())
    }

    /// Takes a key out, if it is there.
    pub fn remove(&mut self, key: usize) {
        if !self.contains(key) {
            return;
        }
        self.count = self.count.saturating_sub(1);
        let mut position = key;
        for level in 0..self.levels.len() {
            self.change(level, position, false);
            if self.word(level, position / WORD) != 0 {
                return;
            }
            position /= WORD;
        }
    }

    /// The least key at or above a number.
    pub fn first_from(&self, from: usize) -> Option<usize> {
        let mut position = from;
        for level in 0..self.levels.len() {
            let word = self.word(level, position / WORD) & (u64::MAX << (position % WORD));
            if word != 0 {
                return Some(self.least_below(level, position / WORD, word));
            }
            position = position / WORD + 1;
        }
        None
    }

    /// Whether a key is in the set.
    fn contains(&self, key: usize) -> bool {
        self.word(0, key / WORD) & bit(key) != 0
    }

    /// The least key that the first bit of a word stands for.
    fn least_below(&self, level: usize, index: usize, word: u64) -> usize {
        let mut position = at_bit(index, word);
        for below in (0..level).rev() {
            position = at_bit(position, self.word(below, position));
        }
        position
    }

    /// A word of a level; 0 where there is none.
    fn word(&self, level: usize, index: usize) -> u64 {
        match self.levels.get(level) {
            Some(words) => words.get(index).copied().unwrap_or(0),
            None => 0,
        }
    }

    /// Sets or clears the bit of a position in a level, and answers its word as it was.
    fn change(&mut self, level: usize, position: usize, on: bool) -> u64 {
        let Some(words) = self.levels.get_mut(level) else {
            return 0;
        };
        let Some(word) = words.get_mut(position / WORD) else {
            return 0;
        };
        let before = *word;
        *word = if on {
            before | bit(position)
        } else {
            before & !bit(position)
        };
        before
    }

    /// Makes room for a key in each level, and as many levels as that takes.
    fn make_room(&mut self, key: usize) -> Result<(), AllocError> {
        let mut last = key / WORD;
        for level in 0..MOST_LEVELS {
            self.widen(level, last)?;
            if last == 0 {
                return Ok(());
            }
            last /= WORD;
        }
        Ok(())
    }

    /// Makes a level reach a word, and the level itself if there are just those below it.
    fn widen(&mut self, level: usize, last: usize) -> Result<(), AllocError> {
        if level == self.levels.len() {
            let has_bits = level > 0 && self.word(level - 1, 0) != 0;
            let words = Vec::from_slice(self.alloc, &[u64::from(has_bits)])?;
            self.levels.push(words)?;
        }
        let Some(words) = self.levels.get_mut(level) else {
            return Ok(());
        };
        if last >= words.len() {
            words.resize(last.saturating_add(1), 0)?;
        }
        Ok(())
    }
}

/// The position of the first bit of a word with an index in its level.
fn at_bit(index: usize, word: u64) -> usize {
    index
        .saturating_mul(WORD)
        .saturating_add(word.trailing_zeros() as usize)
}
