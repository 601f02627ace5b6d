//! What was read last of a text, and which line may follow.

ghost use Rattle.std.specs.Prelude.{◌≡◌};
ghost use Rattle.x10_asm.specs.Reading as reading;

/// What was read last of a text, as far as it says which lines may follow.
#[derive(Clone, Copy, Debug, PartialEq, Eq)]
pub enum Stage {
    /// Nothing.
    Start,
    /// The places, and perhaps classes.
    Classes,
    /// A constant number.
    Ints,
    /// A constant text.
    Texts,
    /// The end of a function.
    Functions,
    /// The beginning of a function.
    Inside,
    /// The entry.
    Finished,
}

pub fn takes_int(stage: Stage) -> bool
    ensures { result ≡ reading.takes_int stage }
{
    matches!(stage, Stage::Classes | Stage::Ints)
}

pub fn takes_text(stage: Stage) -> bool
    ensures { result ≡ reading.takes_text stage }
{
    matches!(stage, Stage::Classes | Stage::Ints | Stage::Texts)
}

/// A function or the entry, after the first line and outside functions.
pub fn takes_func(stage: Stage) -> bool
    ensures { result ≡ reading.takes_func stage }
{
    matches!(
        stage,
        Stage::Classes | Stage::Ints | Stage::Texts | Stage::Functions
    )
}

/// A line inside a function.
pub fn is_inside(stage: Stage) -> bool
    ensures { result ≡ reading.is_inside stage }
{
    stage == Stage::Inside
}

/// Nothing but lines that say nothing.
pub fn is_finished(stage: Stage) -> bool
    ensures { result ≡ reading.is_finished stage }
{
    stage == Stage::Finished
}
