//! Lists in which an item that comes again and again is kept once.

ghost use Rattle.std.specs.Prelude.{◌≡◌, ◌↔◌, ◌<◌, ◌++◌, ◌∷◌, [], IsTrue, IfOk, IfErr, Some, length, slice_get};
ghost use Rattle.x10_hall.specs.Repetitions.{IsLast};

use std::alloc::{AllocError, Global};
use std::marker::Model;

/// A list whose last item can be put behind itself again without a copy: each position takes a word, and each item that was pushed
/// its own size once, however often it was repeated.
#[derive(Drop)]
pub struct Repeats<T> {
    kept: Vec<T>,
    /// Which of them stands at each position.
    order: Vec<usize>,
}

impl<T> Model for Repeats<T> {
    ghost use Rattle.x10_hall.specs.Repetitions.{Items, items_code};

    ghost Value = { Items T };

    ghost coded = { items_code T.code };

    ghost use Rattle.std.specs.Prelude.{length};
    ghost use Rattle.x10_hall.specs.Repetitions.{picked, AreWithin};

    ghost view = { λ r. record { items = picked r.kept.items r.order.items } };

    ghost invariant = { λ r. AreWithin (length r.kept.items) r.order.items };
}

impl<T: Drop> Repeats<T> {
    /// A list with nothing in it. Takes no memory.
    pub fn new(alloc: Global) -> Repeats<T>
        ensures { result.items ≡ [] }
    {
        Repeats {
            kept: Vec::new(alloc),
            order: Vec::new(alloc),
        }
    }

    /// Where its memory comes from.
    pub(crate) fn allocator(&self) -> Global {
        *self.order.allocator()
    }

    /// How many items it has.
    pub fn len(&self) -> usize
        ensures { result ≡ length self.now.items }
    {
        self.order.len()
    }

    /// Whether it has none.
    pub fn is_empty(&self) -> bool
        ensures { IsTrue result ↔ (length self.now.items ≡ 0) }
    {
        self.len() == 0
    }

    /// The item at a position. Constant time.
    pub fn at(&self, position: usize) -> &T
        requires { position < length self.now.items }
        ensures { slice_get self.now.items position ≡ Some result.now }
    {
        &self.kept[self.order[position]]
    }

    /// Puts an item behind the others. Constant time, amortized. Where memory is refused, the list is as it was.
    pub fn push(&mut self, item: T) -> Result<(), AllocError>
        ensures ok { IfOk result (λ _. self.new.items ≡ self.old.items ++ item ∷ []) }
        ensures err { IfErr result (λ _. self.new.items ≡ self.old.items) }
    {
        self.order.reserve(1)?;
        let number = self.kept.len();
        self.kept.push(item)?;
        self.order.push_reserved(number);
        Ok(())
    }

    /// Puts the last item behind itself again. Constant time, amortized; takes a word. Where memory is refused, the list is as it was.
    pub fn again(&mut self) -> Result<(), AllocError>
        requires { 0 < length self.old.items }
        ensures ok { IfOk result (λ _. (item : T) → IsLast self.old.items item
            → self.new.items ≡ self.old.items ++ item ∷ []) }
        ensures err { IfErr result (λ _. self.new.items ≡ self.old.items) }
    {
        let last = self.order[self.order.len() - 1];
        self.order.push(last)?;
        Ok(())
    }
}
