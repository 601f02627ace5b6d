//! Laws of what is counted. Each function does nothing: its contract is a law, and the check proves it.
ghost use Rattle.x10_stats.specs.Laws.{EachIsCountedOnce, EachIsWithinMost, FramesAreCountedByType, NoneMadeMoreSteps};
ghost use Rattle.x10_stats.specs.MachineRuns.{BookIsCounted, MachineRunsBeside};

/// Each event is counted once: as a step, as idle, or as a delivery.
pub fn each_is_counted_once()
    ensures { EachIsCountedOnce }
{}

/// A frame is counted by its type, with the bytes that spell it.
pub fn frames_are_counted_by_type()
    ensures { FramesAreCountedByType }
{}

/// No activity has made more steps than there were.
pub fn none_made_more_steps()
    ensures { NoneMadeMoreSteps }
{}

/// No activity that is kept has made more steps than the most of its function.
pub fn each_is_within_most()
    ensures { EachIsWithinMost }
{}

/// Beside the events that are counted from the opening on there is a run of the machine.
pub fn machine_runs_beside()
    ensures { MachineRunsBeside }
{}

/// In each such run the machine's book has as many activities as are counted, besides those whose Spawn frame is in flight. In
/// the order in which their first stays began, each has the function and the steps that are counted of it.
pub fn book_is_counted()
    ensures { BookIsCounted }
{}
