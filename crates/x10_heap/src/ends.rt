//! Things that lie one after another in one list, by where each ends.

ghost use Rattle.std.specs.Prelude.{◌≡◌, ◌≤◌, length};
ghost use Rattle.x10_heap.specs.Laid.{start_of};

/// Where one of them starts: where the one before it ends.
#[inline(always)]
pub(crate) fn start_in(ends: &[usize], number: usize) -> usize
    requires { number ≤ length ends.now }
    ensures { result ≡ start_of 0 number ends.now }
{
    if number == 0 {
        return 0;
    }
    ends[number - 1]
}
