//! What the page of faults says of a cause. Written by `make` beside `src` from docs/FAULTS.md; change that, not this.

pub(crate) const SHORT: &str = "image: Short. The bytes end too early: the file was cut off.

    ; $ x10p verify short.x10
    ; status 1: image: Short
    58313050

frame: Short. The bytes end too early: some digits weren't copied.
";

pub(crate) const MAGIC: &str =
    "image: Magic. The first four bytes aren't \"X10P\": another kind of file, such as
a text whose name doesn't end in `.asm`.

    ; $ x10p verify magic.x10
    ; status 1: image: Magic
    7f454c46 0001 0001 0000 0000 0000 0001 0000 0000
";

pub(crate) const VERSION: &str = "image: Version. A version other than 1 and 2.

    ; $ x10p verify version.x10
    ; status 1: image: Version
    58313050 0003 0001 0000 0000 0000 0001 0000 0000

frame: Version. A version other than 1 and 2: the bytes aren't a frame.
";

pub(crate) const RESERVED: &str = "image: Reserved. A reserved field isn't 0.

    ; $ x10p verify reserved.x10
    ; status 1: image: Reserved
    58313050 0001 0001 0000 0000 0000 0001 0000 0001
";

pub(crate) const CODE: &str =
    "image: Code f pc. Instruction pc of function f has an unknown code, one of
version 2 in version 1, or an unused operand that isn't 0.

    ; $ x10p verify code.x10
    ; status 1: image: Code 0 0
    58313050 0001 0001 0000 0000 0000 0001 0000 0000
    00010000 00000000 0001 0000 ff00000000000000
";

pub(crate) const TRAILING: &str = "image: Trailing. Bytes after the last function.

    ; $ x10p verify trailing.x10
    ; status 1: image: Trailing
    58313050 0001 0001 0000 0000 0000 0001 0000 0000
    00010000 00000000 0001 0000 2900000000000000 00

frame: Trailing. Bytes after the last field.
";
