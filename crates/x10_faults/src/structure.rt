//! What the page of faults says of a cause. Written by `make` beside `src` from docs/FAULTS.md; change that, not this.

pub(crate) const NESTING: &str =
    "verify: Structure Nesting: a RET in a finish or atomic region, or openers and
closers that don't match.

    ; $ x10p verify nesting.x10
    ; status 1: verify: Structure Nesting 0 1
    places 1
    func 1 0 none
      FINB
      RET 0
      FINE
      RET 0
    end
    entry 0

Jump to the FINE or ATOME, and return after it. A function that doesn't end with
RET is Nesting too.
";

pub(crate) const JUMP: &str =
    "verify: Structure Jump: backward, into a region, or out of a finish or atomic
region.

    ; $ x10p verify jump.x10
    ; status 1: verify: Structure Jump 0 1
    places 1
    func 1 0 none
    again:
      HERE 0
      JMP @again
      RET 0
    end
    entry 0

Only ENDL goes back. For \"until\", use a counted loop and a jump past its ENDL.
To leave a finish or atomic region early, jump to its closer.
";

pub(crate) const LOOP_SLOT: &str =
    "verify: Structure LoopSlot: the slot isn't the loop's depth, or the count is
outside 1 to 65,535.

    ; $ x10p verify slot.x10
    ; status 1: verify: Structure LoopSlot 0 0
    places 1
    func 1 2 none
      LOOP 1 3
    turn:
      ENDL 1 @turn
      RET 0
    end
    entry 0

The outermost loop has slot 0, a loop in it slot 1; ENDL repeats the slot. The
second number of `func` is the number of slots.
";

pub(crate) const CALL_ORDER: &str =
    "verify: Structure CallOrder: CALL or AT of a function that isn't above.

    ; $ x10p verify recursion.x10
    ; status 1: verify: Structure CallOrder 0 0
    places 1
    func 1 0 none
      CALL 0 0 0
      RET 0
    end
    entry 0

Put the called function first. Recursion needs ASYNC or ATA.
";

pub(crate) const ATOMIC: &str =
    "verify: Structure Atomic: a CALL, AT, ATA, ASYNC, FINB or ATOMB inside an atomic
region.

    ; $ x10p verify atomic.x10
    ; status 1: verify: Structure Atomic 0 1
    version 2
    places 1
    func 1 0 none
      ATOMB
      ASYNC 0 0
      ATOME
      RET 0
    end
    entry 0

Start, go and wait before the ATOMB or after the ATOME, and write out what a
called function does.
";

pub(crate) const TOO_LARGE: &str = "verify: Structure TooLarge: the bound is above 2^48.

    ; $ x10p verify large.x10
    ; status 1: verify: Structure TooLarge 0 0
    places 1
    func 1 4 none
      LOOP 0 65535
      LOOP 1 65535
      LOOP 2 65535
      LOOP 3 65535
      ENDL 3 4
      ENDL 2 3
      ENDL 1 2
      ENDL 0 1
      RET 0
    end
    entry 0

Use smaller counts. The bound assumes every turn, even those that a jump skips.
";
