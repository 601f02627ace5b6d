//! Laws of what is shown. Each function does nothing: its contract is a law, and the check proves it.
ghost use Rattle.x10_states.specs.Laws.{RegistersAreShownAsHeld, WordsAreShownAsValues};

/// A word that stands for a value of the machine is shown as that value.
#[tactic(auto, using(crate::proofs::ValueLaws::shown))]
pub fn words_are_shown_as_values()
    ensures { WordsAreShownAsValues }
{}

/// In a call frame that stands for one of the machine each register that is known to be set is shown as the value that the
/// machine's register holds.
pub fn registers_are_shown_as_held()
    ensures { RegistersAreShownAsHeld }
{}
