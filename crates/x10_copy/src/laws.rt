//! Laws of captures and arrivals. Each function does nothing: its contract is a law, and the check proves it.

ghost use Rattle.x10_copy.specs.Laws.{StandingIsSound, CapturesFit, FittingIsTaken, ArrivalsFit, FaultsAreMisfits, FittingStays};

/// Where cells stand for a heap and values for words, all is sound that a capture asks for.
pub fn standing_is_sound()
    ensures { StandingIsSound }
{}

/// What was captured has all that is asked for where it arrives, in any heap of the same module: so it is refused only for lack
/// of room. The homes are those of the values, and global references to objects of the place where it arrives are as good as
/// what the sender knew about them.
pub fn captures_arrive()
    ensures fit { CapturesFit }
    ensures taken { FittingIsTaken }
{}

/// What an arrival asks of a frame's graph is what the machine asks where a place takes a message in; and a graph that is
/// refused for its values is one that the machine doesn't take in. What fits still fits when exports are added.
pub fn arrivals_fit()
    ensures asked { ArrivalsFit }
    ensures faults { FaultsAreMisfits }
    ensures stays { FittingStays }
{}
