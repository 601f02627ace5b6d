//! Laws of what a fault of flow says. Each function does nothing: its contract is a law, and the check proves it.

ghost use Rattle.x10_verify.specs.LawsOfFaults.{CausesRefuteRules, FollowedIsKnown, FoundIsWithout};

/// A cause and the rule of an instruction exclude each other: a fault names a cause only where the rule doesn't hold.
pub fn causes_refute_rules()
    ensures { CausesRefuteRules }
{}

/// What follows from the entry at an instruction is what every consistent assignment knows there, or more.
pub fn followed_is_known()
    ensures { FollowedIsKnown }
{}

/// So where a cause is found at an instruction its function has no consistent assignment: no fault can be reported of a
/// function that has one.
pub fn found_is_without()
    ensures { FoundIsWithout }
{}
