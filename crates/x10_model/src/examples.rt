//! Worked examples of the definitions: the check computes them.
ghost use Rattle.x10_model.specs.Relay.{RelayRuns};
ghost use Rattle.x10_model.specs.Refused.{EachMoveGoesWrong, EachMessageMisfits, SharedArrives};
ghost use Rattle.x10_model.specs.Examples.{DoublingIsBounded, LongLoopsAreBounded, JumpsAreRefused, EachGroupMoves, SevenRuns, CycleIsCopied, ReportsBalance};

/// A loop of 4 in a loop of 3 takes at most 34 steps.
pub fn doubling_is_bounded()
    ensures { DoublingIsBounded }
{}

/// Three loops of 65,535 turns pass the greatest bound, 2^48, by two more instructions.
pub fn long_loops_are_bounded()
    ensures { LongLoopsAreBounded }
{}

/// A jump goes into no loop, out of no finish and not backward.
pub fn jumps_are_refused()
    ensures { JumpsAreRefused }
{}

/// One move of each group of operations.
pub fn each_group_moves()
    ensures { EachGroupMoves }
{}

/// The module that prints 7, from its opening to its end in three steps.
pub fn seven_runs()
    ensures { SevenRuns }
{}

/// Two objects that name each other and share a rail are copied with the cycle and the sharing.
pub fn cycle_is_copied()
    ensures { CycleIsCopied }
{}

/// Three reports of two places, in several orders, and what balances after each.
pub fn reports_balance()
    ensures { ReportsBalance }
{}

/// A run at three places: main opens a finish, goes to the second place, where an activity is begun at the third, comes
/// back, waits at the end of its finish until that activity has ended, and goes on.
pub fn relay_runs()
    ensures { RelayRuns }
{}

/// One wrong move of each cause.
pub fn each_move_goes_wrong()
    ensures { EachMoveGoesWrong }
{}

/// One misfit of each cause.
pub fn each_message_misfits()
    ensures { EachMessageMisfits }
{}

/// One object that is passed twice is one object where it arrives.
pub fn shared_arrives()
    ensures { SharedArrives }
{}
