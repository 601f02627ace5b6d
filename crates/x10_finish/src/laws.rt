//! Laws of finishes. Each function does nothing: its contract is a law, and the check proves it.

ghost use Rattle.x10_finish.specs.Detection.{DoneIsAtRest, AtRestIsDone};
ghost use Rattle.x10_finish.specs.Stays.{StaysChange};
ghost use Rattle.x10_finish.specs.Telling.{DoneIsQuiet, QuietIsDone, MovesAreCounted, DeliveriesAreCounted, OpeningIsCounted, OpeningIsInRange, MovesStayInRange, DeliveriesStayInRange};
ghost use Rattle.x10_finish.specs.Closing.{QuietIsIdeal, EndedIsQuiet, RootIsOver, OpeningIsSound, QuietEventIsIdeal, StaysAreListed, OverIsQuiet};
ghost use Rattle.x10_finish.specs.Watching.{OpeningIsWatched, MovesAreWatched, DeliveriesAreWatched, ReportsAreWatched, DoneIsOver, OverIsDone, EndedIsDone, StaysAreCounted};

/// After any events under a finish, reports taken in late and in any order: where nothing lives at its home and the
/// book balances, nothing under the finish lives anywhere or is in flight.
pub fn done_is_at_rest()
    ensures { DoneIsAtRest }
{}

/// And where nothing under the finish lives or is in flight, and no report is, nothing lives at its home and the book
/// balances.
pub fn at_rest_is_done()
    ensures { AtRestIsDone }
{}

/// Each move changes the stays at its place as its effect says.
pub fn stays_change()
    ensures { StaysChange }
{}

/// A run in which each finish closes only where no activity under it has a stay or is in flight is a run in which each
/// closes only where every activity that it governs has ended, those in finishes inside it too (X10 2.2, chapter
/// Activities, `finish`).
pub fn quiet_is_ideal()
    ensures { QuietIsIdeal }
{}

/// And where all that a finish governs has ended, no message is in flight and its owner works at its end, it may close
/// in such a run.
pub fn ended_is_quiet()
    ensures { EndedIsQuiet }
{}

/// In such a run no activity lives where none under the root has a stay or is in flight.
pub fn root_is_over()
    ensures { RootIsOver }
{}

/// The same event by event, from any world of which holds what is kept of stays, finishes and messages: what happens by
/// the quiet rule happens by the ideal rule, and it holds of the world that this leads to. It holds at the opening.
pub fn quiet_event_is_ideal()
    ensures opening { OpeningIsSound }
    ensures event { QuietEventIsIdeal }
{}

/// In such a world the stays that the book lists of an activity are those that are there and belong to it.
pub fn stays_are_listed()
    ensures { StaysAreListed }
{}

/// In such a world, where no activity lives and no message is in flight, every finish is quiet, the root among them.
pub fn over_is_quiet()
    ensures { OverIsQuiet }
{}

/// Where counts that tell of the machine's net let the home end its finish, the finish is quiet.
pub fn done_is_quiet()
    ensures { DoneIsQuiet }
{}

/// And where it is quiet and no report is in flight, they let it.
pub fn quiet_is_done()
    ensures { QuietIsDone }
{}

/// Counts that tell of the machine's net tell of it after each move: for each finish the move is one event that is
/// counted, or none, and the totals of its place change as they do by that event.
pub fn moves_are_counted()
    ensures { MovesAreCounted }
{}

/// And after each delivery.
pub fn deliveries_are_counted()
    ensures { DeliveriesAreCounted }
{}

/// And they tell of it at the opening: main's stay lives under the root.
pub fn opening_is_counted()
    ensures { OpeningIsCounted }
{}

/// In every world stays are at places, and what is in flight under a finish goes from place to place: at the opening, and after
/// each move that sends to a place and each delivery at one.
pub fn all_is_in_range()
    ensures opening { OpeningIsInRange }
    ensures moves { MovesStayInRange }
    ensures deliveries { DeliveriesStayInRange }
{}

/// What is kept of a world and the counts of all its finishes that haven't closed holds at the opening, where main's stay
/// alone is counted.
pub fn opening_is_watched()
    ensures { OpeningIsWatched }
{}

/// And after each move that closes a finish only where its home may let it end, when the counts of each other finish change
/// as a place's do: such a move is a step in which a finish closes only where every activity that it governs has ended.
pub fn moves_are_watched()
    ensures { MovesAreWatched }
{}

/// And after each delivery.
pub fn deliveries_are_watched()
    ensures { DeliveriesAreWatched }
{}

/// And after each report that the home of a finish takes in, or drops where the finish has closed.
pub fn reports_are_watched()
    ensures { ReportsAreWatched }
{}

/// In such a world no activity lives where the home of the root may let it end.
pub fn done_is_over()
    ensures { DoneIsOver }
{}

/// And where no activity lives, no message and no report of the root is in flight, its home may let it end.
pub fn over_is_done()
    ensures { OverIsDone }
{}

/// So may the home of a finish whose owner works at its end, where all that it governs has ended and no message and no
/// report of it is in flight.
pub fn ended_is_done()
    ensures { EndedIsDone }
{}

/// In such a world what a stay inherited is the root or open, and counts as live at its place.
pub fn stays_are_counted()
    ensures { StaysAreCounted }
{}
