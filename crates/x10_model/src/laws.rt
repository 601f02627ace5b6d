ghost use Rattle.x10_model.specs.Laws.{EnclosingIsTransitive, GoverningIsTransitive, MovesAreNotWrong, DeliveriesAreNotWrong, ReadyIsAbleOrWrong, ArrivedIsTakenOrMisfit, BalanceIsTested, EventsAreNotWrong, TotalsGoOn, ReportsAreDue, LogsGoOn, FramesCarryTo};

/// Enclosing is transitive: what is inside a finish that is inside another one is inside that one too.
pub fn enclosing_is_transitive()
    ensures { EnclosingIsTransitive }
{}

/// A finish governs each activity that a finish inside it governs (X10 2.2, chapter Activities, `finish`: all activities that
/// the body started, directly or through others).
pub fn governing_is_transitive()
    ensures { GoverningIsTransitive }
{}

/// What an activity can do is never wrong: the moves and the causes of wrongness exclude each other.
pub fn moves_are_not_wrong()
    ensures { MovesAreNotWrong }
{}

/// What a place can take in is never a misfit.
pub fn deliveries_are_not_wrong()
    ensures { DeliveriesAreNotWrong }
{}

/// A ready activity can move or is wrong, where its place has room: nothing is stuck in between.
pub fn ready_is_able_or_wrong()
    ensures { ReadyIsAbleOrWrong }
{}

/// A message that reaches its place is taken in or is a misfit, where there is room for it: none is left over.
pub fn arrived_is_taken_or_misfit()
    ensures { ArrivedIsTakenOrMisfit }
{}

/// Whether a cut balances is found by comparing each pair of places.
pub fn balance_is_tested()
    ensures { BalanceIsTested }
{}

/// What happens at an event is never wrong, whether something moves, a message is taken in or nothing
/// is there that could.
pub fn events_are_not_wrong()
    ensures { EventsAreNotWrong }
{}

/// What a place counted is what it had counted before, and then what happened last.
pub fn totals_go_on()
    ensures { TotalsGoOn }
{}

/// A report is due where the last stay of a finish ends away from its home, and at no other happening.
pub fn reports_are_due()
    ensures { ReportsAreDue }
{}

/// A log that goes on stands for its events so far and then for those of what follows.
pub fn logs_go_on()
    ensures { LogsGoOn }
{}

/// Where a frame carries a message, it goes to the message's receiver.
pub fn frames_carry_to()
    ensures { FramesCarryTo }
{}
