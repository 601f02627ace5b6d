//! Which events of a run are shown.
ghost use Rattle.std.specs.Prelude.{◌≡◌, ◌-◌, Some, true, false, option_map};
ghost use Rattle.x10_cli.specs.Windows.{IsReached, IsWithin};

use x10_task::Window;

/// How many events aren't shown, since they come before the first one that is.
pub(crate) fn before(window: Window) -> u64
    ensures { result ≡ window.from - 1 }
{
    window.from.saturating_sub(1)
}

/// The number of the last event that is made, where at most so many are, and whether it is the last one that is shown.
pub(crate) fn last_of(window: Window, limit: u64) -> (u64, bool)
    ensures within { IsWithin window.to result.0 }
    ensures reached { result.1 ≡ true → IsReached window.to result.0 }
{
    match window.to {
        Some(to) if to <= limit => (to, true),
        _ => (limit, false),
    }
}

/// How many events are left to show behind so many, where that is limited.
pub(crate) fn left_of(window: Window, before: u64) -> Option<u64>
    ensures { result ≡ option_map (λ to. to - before) window.to }
{
    match window.to {
        Some(to) => Some(to.saturating_sub(before)),
        None => None,
    }
}

/// Whether none is left.
pub(crate) fn is_over(left: Option<u64>) -> bool
    ensures yes { result ≡ true → left ≡ Some 0 }
    ensures no { result ≡ false → left ≡ Some 0 → ⊥ }
{
    matches!(left, Some(0))
}

/// One fewer.
pub(crate) fn fewer(left: Option<u64>) -> Option<u64>
    ensures { result ≡ option_map (λ n. n - 1) left }
{
    match left {
        Some(left) => Some(left.saturating_sub(1)),
        None => None,
    }
}
