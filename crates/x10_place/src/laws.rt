//! Laws of places. Each function does nothing: its contract is a law, and the check proves it.

ghost use Rattle.x10_place.specs.Laws.{NoStrideIsIdle};

/// A step of an activity, as a stretch has them, is never one that finds nothing to do.
pub fn no_stride_is_idle()
    ensures { NoStrideIsIdle }
{}
