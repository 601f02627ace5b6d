//! What the page of faults says of a cause. Written by `make` beside `src` from docs/FAULTS.md; change that, not this.

pub(crate) const FRAME_TYPE: &str =
    "frame: FrameType. A type other than 1 to 4 (Spawn, Shift, Back, Report).
";

pub(crate) const TAG: &str = "frame: Tag. A value has a tag other than 1 to 7.
";
