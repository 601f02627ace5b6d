//! A box in its two parts.
ghost use Rattle.std.specs.Prelude.{◌≡◌};
ghost use Rattle.std.specs.Box.Ownership.{box_owns};

use std::alloc::Allocator;
use std::marker::Model;
use std_alloc::room::Vacant;

/// The block of a box, and the allocator that it is of.
pub(crate) struct Loose<T, A: Allocator> {
    pub(crate) at: *mut T,
    pub(crate) alloc: A,
    pub(crate) ghost value: { T },
}

impl<T, A: Allocator> Model for Loose<T, A> {
    ghost also_owns = { λ l. box_owns (A.dealloc_token l.alloc) T.row l.at l.value };
}

impl<T, A: Allocator> Loose<T, A> {
    /// Takes a box apart.
    pub(crate) fn of(whole: Box<T, A>) -> Loose<T, A>
    where
        T: Drop,
        ensures { result.value ≡ whole.value }
    {
        let (at, alloc) = Box::into_raw_with_allocator(whole);
        Loose { at, alloc }
    }

    /// Puts a value into memory that was allocated for it.
    pub(crate) fn write(room: Vacant<T, A>, value: T) -> Loose<T, A>
        ensures { result.value ≡ value }
    {
        let Vacant { ptr, alloc } = room;
        unsafe {
            ptr.write(value);
        }
        Loose { at: ptr, alloc }
    }

    /// The box again.
    pub(crate) fn into_box(self) -> Box<T, A>
        ensures { result.value ≡ self.value }
    {
        let Loose { at, alloc } = self;
        unsafe { Box::from_raw(alloc, at) }
    }
}
