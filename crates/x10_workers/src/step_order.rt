//! The order of a place's steps.
ghost use Rattle.std.specs.Prelude.{◌≤◌, IfOk, length};

use crate::key_set::KeySet;
use std::alloc::{AllocError, Global};
use x10_place::Place;

/// Which activity of a place makes the next step: that with the least key above the last one stepped, or with the least of all
/// where there is none above. So an activity that begins, or comes back, is stepped at its place in this order at once. While
/// one is inside an atomic region, the others are passed over. One that finds nothing to do, since it is away or waits for a
/// finish, is set aside. It comes back once a frame has come in, an activity has ended here, or no other one can move.
#[derive(Drop)]
pub(crate) struct StepOrder {
    /// The keys in use that aren't set aside.
    ready: KeySet,
    /// The keys that were set aside.
    aside: Vec<usize>,
    /// How many of them were set aside since something moved or came in.
    tried: usize,
    /// Where the search for the next key begins.
    next: usize,
}

impl StepOrder {
    /// The order of a place's steps at its beginning.
    pub fn new(alloc: Global, place: &Place) -> Result<StepOrder, AllocError> {
        let mut ready = KeySet::new(alloc);
        if let Some(main) = place.next_key(0) {
            ready.insert(main)?;
        }
        Ok(StepOrder {
            ready,
            aside: Vec::new(alloc),
            tried: 0,
            next: 0,
        })
    }

    /// A frame came in; an activity that it began has the key `vacant`, which was free before.
    pub fn came(&mut self, place: &Place, vacant: usize) -> Result<(), AllocError> {
        self.note(place, vacant)?;
        self.come_back()
    }

    /// The activity with a key moved; an activity that it began has the key `vacant`, which was free before.
    pub fn stepped(&mut self, place: &Place, key: usize, vacant: usize) -> Result<(), AllocError> {
        self.note(place, vacant)?;
        if place.contains(key) {
            return Ok(());
        }
        self.ready.remove(key);
        self.come_back()
    }

    /// The activity with this key, whose step it was, found nothing to do.
    pub fn waits(&mut self, key: usize) -> Result<(), AllocError> {
        self.aside.push(key)?;
        self.ready.remove(key);
        self.tried = self.tried.saturating_add(1);
        Ok(())
    }

    /// The keys of the next steps, of which the first is `key`, each once, and at most so many.
    pub fn fill_round(
        &self,
        key: usize,
        most: usize,
        round: &mut Vec<usize>,
    ) -> Result<(), AllocError>
        ensures few { IfOk result (λ _. length round.new.items ≤ most) }
    {
        round.clear();
        let mut next = key;
        for _ in 0..most.min(self.ready.len()) {
            let Some(found) = self.first_ready(next) else {
                return Ok(());
            };
            round.push(found)?;
            next = found.saturating_add(1);
        }
        Ok(())
    }

    /// Steps of activities with these keys were made, of which so many moved; an activity that the last one began has the key
    /// `vacant`, which was free before. Where the others found nothing to do for themselves, and not because of an atomic region,
    /// they are set aside.
    pub fn swept(
        &mut self,
        place: &Place,
        keys: &[usize],
        moved: usize,
        vacant: usize,
    ) -> Result<(), AllocError> {
        let Some(last) = keys.last() else {
            return Ok(());
        };
        self.next = last.saturating_add(1);
        if moved < keys.len() && place.inside().is_none() {
            self.set_aside(place, keys)?;
        }
        if moved == 0 {
            return Ok(());
        }
        self.stepped(place, *last, vacant)
    }

    /// Those of the activities with these keys are set aside that now find nothing to do.
    fn set_aside(&mut self, place: &Place, keys: &[usize]) -> Result<(), AllocError> {
        for key in keys {
            if place.contains(*key) && place.is_idle(*key) {
                self.waits(*key)?;
            }
        }
        Ok(())
    }

    /// Whether no other activity can move, until the one that can puts something out, or one begins or ends.
    pub fn is_single(&self) -> bool {
        self.ready.len() == 1
    }

    /// The next key; none where all keys in use were tried since something moved. Takes the steps of a search in the set of keys;
    /// where those that were set aside come back, also some for each of them.
    pub fn next_key(&mut self, place: &Place) -> Result<Option<usize>, AllocError> {
        if self.ready.is_empty() {
            if self.tried == self.aside.len() {
                return Ok(None);
            }
            self.come_back()?;
        }
        let key = self.next_ready(place);
        if let Some(key) = key {
            self.next = key.saturating_add(1);
        }
        Ok(key)
    }

    /// The next key that isn't set aside and that nobody keeps out.
    fn next_ready(&self, place: &Place) -> Option<usize> {
        if let Some(insider) = place.inside() {
            return Some(insider);
        }
        self.first_ready(self.next)
    }

    /// The least key from a number on that isn't set aside, or the least of all where there is none.
    fn first_ready(&self, from: usize) -> Option<usize> {
        match self.ready.first_from(from) {
            Some(key) => Some(key),
            None => self.ready.first_from(0),
        }
    }

    /// Something moved or came in.
    fn note(&mut self, place: &Place, vacant: usize) -> Result<(), AllocError> {
        self.tried = 0;
        if place.contains(vacant) {
            self.ready.insert(vacant)?;
        }
        Ok(())
    }

    /// The keys that were set aside take part again.
    fn come_back(&mut self) -> Result<(), AllocError> {
        for key in &self.aside {
            self.ready.insert(*key)?;
        }
        self.aside.clear();
        self.tried = 0;
        Ok(())
    }
}
