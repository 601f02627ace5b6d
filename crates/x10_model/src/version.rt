/// The version of an image, a number in its head. The instructions say which of them an image of version 1 may not have; all
/// else is the same in both.
#[derive(Clone, Copy, Debug, PartialEq, Eq)]
pub enum ImageVersion {
    /// Version 1.
    One,
    /// Version 2.
    Two,
}

/// How a frame is spelled. It is the frame's first byte, and says how wide the counts and the numbers of its texts, rails and
/// objects are. All else is the same in both.
#[derive(Clone, Copy, Debug, PartialEq, Eq)]
pub enum FrameVersion {
    /// Version 1: two bytes for each.
    Narrow,
    /// Version 2: four bytes for each.
    Wide,
}
