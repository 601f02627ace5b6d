//! The part of a handle that owns memory.
ghost use Rattle.std.specs.Prelude.{◌≡◌, Option, Some, None, IsSome};
ghost use Rattle.x10_handles.specs.Held.{holds};
ghost use Rattle.x10_handles.specs.declared.inside.Inside.{Inside};

use crate::inside::Inside;
use crate::loose::Loose;
use std::alloc::Global;
use std::marker::Model;
use std::ptr;

/// A pointer to what is behind a handle, which owns it, or one that owns nothing. The pointer is to bytes: C sees no more of it.
#[repr(C)]
#[derive(Drop)]
pub(crate) struct Held {
    at: *mut u8,
    pub(crate) ghost inside: { Option Inside },
}

impl Model for Held {
    ghost also_owns = { λ h. holds h.at h.inside };
}

impl Held {
    /// Nothing is behind it.
    pub(crate) fn empty() -> Held
        ensures { result.inside ≡ None }
    {
        Held {
            at: ptr::null_mut(),
        }
    }

    /// Keeps the block of a box.
    pub(crate) fn of(loose: Loose<Inside, Global>) -> Held
        ensures { result.inside ≡ Some loose.value }
    {
        let Loose { at, alloc: _ } = loose;
        Held { at: at as *mut u8 }
    }

    /// The block that it keeps.
    pub(crate) fn into_loose(self, alloc: Global) -> Loose<Inside, Global>
        requires { IsSome self.inside }
        ensures { Some result.value ≡ self.inside }
    {
        let Held { at } = self;
        Loose {
            at: at as *mut Inside,
            alloc,
        }
    }
}
