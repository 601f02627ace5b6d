/// A group of operations. An operation is found under the name of its group in the table, the machine's definition, the
/// verifier's rules, the place's step and the tests.
#[derive(Clone, Copy, Debug, PartialEq, Eq)]
pub enum Group {
    /// Numbers of 64 bits.
    Numbers,
    /// Jumps, loops, calls.
    Control,
    /// Texts, which don't change.
    Texts,
    /// Objects with fields.
    Objects,
    /// Rows of bytes, which change.
    Rails,
    /// Places, and references that are opened at their home.
    Places,
    /// Activities, shifts of place, finishes.
    Activities,
    /// Lines of output.
    Output,
}
