//! What the page of faults says of a cause. Written by `make` beside `src` from docs/FAULTS.md; change that, not this.

pub(crate) const HEAD: &str =
    "log: Head. One of the first three lines is wrong: the file isn't a log.

    ; $ x10p audit head.x10 head.asm
    ; status 1: log: line 1 Head
    places 1
    func 1 0 none
      RET 0
    end
    entry 0
";

pub(crate) const IMAGE: &str =
    "log: Image: the log of another image. Any change of the module makes another
image.
";

pub(crate) const PLACE: &str =
    "log: Place: the number of places isn't 1 to 64, or a turn doesn't begin with a
place.

frame: Place. A place that isn't below the number of places, or a Report for
another number of places: `--places` isn't that of the run.

    ; $ x10p frame 02040001000000000000000200000000000000000000000100000000 --places 3
    ; status 1: frame: Place
    ; $ x10p frame 02040001000000000000000200000000000000000000000100000000 --places 1
    ; status 1: frame: Place
    ; $ x10p frame 020400010000000000000002 --places 2
    ; status 1: frame: Short
    ; $ x10p frame 030100000001 --places 2
    ; status 1: frame: Version
    ; $ x10p frame 020500000001 --places 2
    ; status 1: frame: FrameType
    ; $ x10p frame 0204000100000000000000020000000000000000000000010000000000 --places 2
    ; status 1: frame: Trailing
    places 1
    func 1 0 none
      RET 0
    end
    entry 0
";

pub(crate) const TAKEN: &str = "log: Taken: a frame taken in isn't `<` and a number.
";

pub(crate) const KEY: &str = "log: Key: a step isn't a key, or a key, a star and a number.
";

pub(crate) const FRAME: &str =
    "log: Frame: a frame sent isn't `>`, a place, a colon and hexadecimal digits.
";

pub(crate) const PRINTED: &str =
    "log: Printed: a printed line isn't `=` and a number, or a text in quotes.
";

pub(crate) const SPELLING: &str = "log: Spelling: a turn, but not in its one spelling.
";

pub(crate) const ENDING: &str = "log: Ending: the last line has no line feed: the log was cut off.
";
