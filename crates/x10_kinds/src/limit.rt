ghost use Rattle.std.specs.Prelude.{◌≡◌, Some, decimal};
ghost use Rattle.x10_kinds.specs.Limits.{number_of};

use std::fmt;

/// What there would be too many of.
#[derive(Clone, Copy, Debug, PartialEq, Eq)]
pub enum Limit {
    /// Objects of a place.
    Objects,
    /// Texts of a place.
    Texts,
    /// Rails of a place.
    Rails,
    /// Global references of a place.
    References,
    /// Finishes that a place opened, those that have ended among them.
    Finishes,
    /// Activities that live under one finish at a place, or were sent under it to another.
    Activities,
    /// Objects that a frame takes along.
    FrameObjects,
    /// Texts that a frame takes along.
    FrameTexts,
    /// Rails that a frame takes along.
    FrameRails,
    /// Keys of the activities of a place.
    Keys,
    /// Frames posted in a run.
    Frames,
}

impl Limit {
    /// The number that is printed for it.
    pub fn number(self) -> u8
        ensures { result ≡ number_of self }
    {
        match self {
            Limit::Objects => 1,
            Limit::Texts => 2,
            Limit::Rails => 3,
            Limit::References => 4,
            Limit::Finishes => 5,
            Limit::Activities => 6,
            Limit::FrameObjects => 7,
            Limit::FrameTexts => 8,
            Limit::FrameRails => 9,
            Limit::Keys => 10,
            Limit::Frames => 11,
        }
    }
}

impl fmt::Display for Limit {
    ghost output = { λ limit. Some (decimal (number_of limit)) };

    fn fmt<W: fmt::Write>(&self, f: &mut fmt::Formatter<W>) -> fmt::Result {
        let number = self.number();
        write!(f, "{number}")
    }
}
