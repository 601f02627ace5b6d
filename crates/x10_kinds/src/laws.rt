//! Laws of the definitions that the contracts cite. The functions do nothing: their contracts are the laws.
ghost use Rattle.x10_kinds.specs.Laws.{FittingIsReflexive, FittingIsTransitive, FittingIsAntisymmetric};
ghost use Rattle.x10_kinds.specs.Laws.{MeetIsAbove, MeetIsLeast, NoMeetIsNone};
ghost use Rattle.x10_kinds.specs.Laws.{EquationsAreAnEquivalence, AloneIsLeast};
ghost use Rattle.x10_kinds.specs.Laws.{JoinKeeps, JoinEquates, JoinIsAnEquivalence, JoinIsLeast, JoinIsMonotone};
ghost use Rattle.x10_kinds.specs.Laws.{MetIsAnEquivalence, MetIsBelow, MetIsGreatest};
ghost use Rattle.x10_kinds.specs.Laws.{WriteOfATermIsAnEquivalence, WriteOfAnyPlaceIsAnEquivalence};
ghost use Rattle.x10_kinds.specs.Laws.{WriteOfATermIsMonotone, WriteOfAnyPlaceIsMonotone};

/// `fits` is an order: each kind fits itself, and what fits a kind fits each kind that this one fits.
pub fn fitting_is_an_order()
    ensures reflexive { FittingIsReflexive }
    ensures transitive { FittingIsTransitive }
    ensures antisymmetric { FittingIsAntisymmetric }
{}

/// `meet` is the least kind that both kinds fit, and where it is `None` there is none.
pub fn meet_is_least()
    ensures above { MeetIsAbove }
    ensures least { MeetIsLeast }
    ensures none { NoMeetIsNone }
{}

/// What a `Homes` says is an equivalence on the terms.
pub fn homes_are_equivalences()
    ensures { EquationsAreAnEquivalence }
{}

/// `Homes::new` knows the least: what it knows holds in every equivalence.
pub fn new_is_least()
    ensures { AloneIsLeast }
{}

/// `Homes::join` gives the least equivalence that keeps what was known and makes the two terms equal.
pub fn join_is_least()
    ensures keeps { JoinKeeps }
    ensures equates { JoinEquates }
    ensures equivalence { JoinIsAnEquivalence }
    ensures least { JoinIsLeast }
{}

/// `Homes::meet` gives the greatest equivalence within both.
pub fn met_is_greatest()
    ensures equivalence { MetIsAnEquivalence }
    ensures below { MetIsBelow }
    ensures greatest { MetIsGreatest }
{}

/// `Homes::write` leaves an equivalence.
pub fn write_is_an_equivalence()
    ensures term { WriteOfATermIsAnEquivalence }
    ensures any_place { WriteOfAnyPlaceIsAnEquivalence }
{}

/// `Homes::join` and `Homes::write` of what knows more give what knows more.
pub fn operations_are_monotone()
    ensures join { JoinIsMonotone }
    ensures write_of_a_term { WriteOfATermIsMonotone }
    ensures write_of_any_place { WriteOfAnyPlaceIsMonotone }
{}
