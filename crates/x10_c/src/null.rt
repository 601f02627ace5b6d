//! Pointers from programs that aren't Rattle.
ghost use Rattle.std.specs.Prelude.{◌≡◌, false};
ghost use Rattle.x10_c.specs.Calls.{IsAddress};

use std::ptr::{self, NonNull};

/// Whether a reference is a null pointer. No reference of Rattle is; one that a program in C passes may be.
pub fn is_null<T>(at: &T) -> bool
    requires { IsAddress at }
    ensures { result ≡ false }
{
    NonNull::new(ptr::from_ref(at).cast_mut()).is_none()
}
