//! A handle: a place for a pointer, in memory of a program that isn't Rattle.
ghost use Rattle.std.specs.Prelude.{◌≡◌, ◌≢◌, None, IsSome};
ghost use Rattle.x10_handles.specs.Marks.{the_mark};

use crate::held::Held;

/// The mark of an open handle: "Burjeeg1" as a number.
pub(crate) const MARK: u64 = 0x4275_726a_6565_6731;

/// A handle, `burjeeg_module` and `burjeeg_place` in C. It is closed where its mark is another number, as where all its bytes
/// are 0; it is open where the library opened it and has not closed it since. It owns what is behind it, so a copy of its bytes
/// is no handle.
#[repr(C)]
#[derive(Drop)]
pub struct Handle {
    pub(crate) mark: u64,
    pub(crate) held: Held,
    ghost open: { mark ≡ the_mark → IsSome held.inside },
    ghost shut: { mark ≢ the_mark → held.inside ≡ None },
}
