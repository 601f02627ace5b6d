//! Opening and closing handles.
ghost use Rattle.std.specs.Prelude.{◌≡◌, Some, None, MatchOption};
ghost use Rattle.x10_handles.specs.Handles.{inside_of};

use crate::handle::{Handle, MARK};
use crate::held::Held;
use crate::inside::Inside;
use crate::loose::Loose;
use std::alloc::Global;
use std::mem;

/// A handle that is closed.
fn closed() -> Handle
    ensures { inside_of result ≡ None }
{
    Handle {
        mark: 0,
        held: Held::empty(),
    }
}

/// Takes what is behind a handle, which is closed then; none where it was closed.
pub fn take(alloc: Global, handle: &mut Handle) -> Option<Box<Inside>>
    ensures taken { MatchOption result (inside_of handle.old ≡ None)
        (λ inside. inside_of handle.old ≡ Some inside.value) }
    ensures left { inside_of handle.new ≡ None }
{
    let Handle { mark, held } = mem::replace(handle, closed());
    if mark != MARK {
        return None;
    }
    Some(held.into_loose(alloc).into_box())
}

/// Opens a handle with what is to be behind it. It is for one that is closed: what an open one has is lost.
pub fn put(handle: &mut Handle, inside: Box<Inside>)
    ensures { inside_of handle.new ≡ Some inside.value }
{
    *handle = Handle {
        mark: MARK,
        held: Held::of(Loose::of(inside)),
    };
}
