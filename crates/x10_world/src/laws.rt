//! Laws of worlds. Each function does nothing: its contract is a law, and the check proves it.

ghost use Rattle.x10_world.specs.Budget.{BudgetAtOpening, BudgetAfterMove, BudgetAfterDelivery, BudgetAfterEvent, BudgetBounds, RunsAreWithinBounds};
ghost use Rattle.x10_world.specs.Links.{AnsweredAtOpening, AnsweredAfterMove, AnsweredAfterDelivery, AnsweredAfterEvent, FittingIsNoMisfit, FittingResultIsAwaited};
ghost use Rattle.x10_world.specs.StandsForWorld.{StepLeads, DeliveryLeads, NoneIsRefused, EndedIsDoneHere};

/// At the opening the activities are within their budgets.
pub fn budget_at_opening()
    ensures { BudgetAtOpening }
{}

/// And after a move, of any operation.
pub fn budget_after_move()
    ensures { BudgetAfterMove }
{}

/// And after a delivery.
pub fn budget_after_delivery()
    ensures { BudgetAfterDelivery }
{}

/// And so after any event.
pub fn budget_after_event()
    ensures { BudgetAfterEvent }
{}

/// And where they are, none has taken more steps than its bound.
pub fn budget_bounds()
    ensures { BudgetBounds }
{}

/// In each world of a run, in which finishes close only where they are quiet, none has: the program is one that has
/// bounds, there is a place at least, and any number of activities and messages are on their way.
pub fn runs_are_within_bounds()
    ensures { RunsAreWithinBounds }
{}

/// Where places and frames in flight stand for a world of the machine, a step of one of the places that leads each place of
/// the machine on leads that world on, and with the frames that it puts out they then stand for what it leads to.
pub fn step_leads()
    ensures { StepLeads }
{}

/// And so does a frame in flight that its receiver takes in.
pub fn delivery_leads()
    ensures { DeliveryLeads }
{}

/// A frame in flight is refused only for lack of memory or at a limit.
pub fn none_is_refused()
    ensures { NoneIsRefused }
{}

/// Where they stand for a world of the machine in which a finish may end, and no frame is in flight, its home lets it end: its
/// owner's step there is one that closes it.
pub fn ended_is_done_here()
    ensures { EndedIsDoneHere }
{}

/// At the opening each message in flight, there being none, fits the place that it goes to.
pub fn answered_at_opening()
    ensures { AnsweredAtOpening }
{}

/// And after each move: what it sends fits the place where it goes, and the stay that a result comes back to waits for it
/// there.
pub fn answered_after_move()
    ensures { AnsweredAfterMove }
{}

/// And after each delivery, also of a result, for which a stay waited.
pub fn answered_after_delivery()
    ensures { AnsweredAfterDelivery }
{}

/// And so after any event.
pub fn answered_after_event()
    ensures { AnsweredAfterEvent }
{}

/// A message that fits the place where it goes is no misfit there, where its graph has the fields of its classes and names
/// what the place exported. Where it brings a result, a stay waits for it.
pub fn fitting_is_no_misfit()
    ensures misfit { FittingIsNoMisfit }
    ensures awaited { FittingResultIsAwaited }
{}
