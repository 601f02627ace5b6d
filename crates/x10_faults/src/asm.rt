//! What the page of faults says of a cause. Written by `make` beside `src` from docs/FAULTS.md; change that, not this.

pub(crate) const WORD: &str = "asm: Word: an unknown word.

    ; $ x10p asm word.asm word.x10
    ; status 1: asm: line 5 Word
    places 1
    func 1 0 none
      print 0
      RET 0
    end
    entry 0

Names of instructions are in capitals: `PRINT 0`. Word is also an unknown kind
(`integer`, `here:0` in a class), ATOMB or ATOME without `version 2`, and a tab,
since only spaces separate words.
";

pub(crate) const NUMBER: &str =
    "asm: Number: not a number, or one out of range. `--explain` marks the word:

    ; $ x10p asm --explain number.asm number.x10
    ; status 1: asm: line 8 Number
    ; > number.asm:8:5: Number: int 7.5
    ; >                             ^^^
    ; > `7.5` isn't a whole number, and there are no others.
    ; > Expected: int N, from -9223372036854775808 to 9223372036854775807.
    places 1
    int 7.5
    func 1 0 none
      RET 0
    end
    entry 0

Write a whole decimal number: `int 7`. Number is also an `int` above 2^63 - 1,
an operand above 255, a class that doesn't exist (`obj:3` with three classes),
and `@label` outside of a jump.
";

pub(crate) const COUNT: &str = "asm: Count: too few or too many words.

    ; $ x10p asm count.asm count.x10
    ; status 1: asm: line 6 Count
    places 1
    int 7
    func 1 0 none
      INTK 0
      RET 0
    end
    entry 0

Write `INTK 0 0`, register and constant. docs/INSTRUCTIONS.md has the operands.

asm: Count again: a comment after an instruction.

    ; $ x10p asm comment.asm comment.x10
    ; status 1: asm: line 7 Count
    places 1
    int 7
    func 1 0 none
      INTK 0 0
      PRINT 0 ; the number
      RET 0
    end
    entry 0

Put the comment on a line of its own. If an operand is missing too, as in `INTK
0 ; seven`, the cause is Number.

image: Count. A number out of range; here the least number of places is 0.

    ; $ x10p verify least.x10
    ; status 1: image: Count
    58313050 0001 0000 0000 0000 0000 0001 0000 0000

log: Count: more than 16 frames taken in, or more than 64 steps.
";

pub(crate) const ORDER: &str = "asm: Order: a line is out of order or missing.

    ; $ x10p asm order.asm order.x10
    ; status 1: asm: line 7 Order
    places 1
    func 1 0 none
      RET 0
    end

Add `entry 0`. A missing line is reported after the last one. The order is
`places`, classes, ints, texts, functions, `entry`.

frame: Order. Texts, rails and objects aren't numbered by first use, one is
never used, or there are too many.
";

pub(crate) const LABEL: &str = "asm: Label: unknown, defined twice, or ill-formed.

    ; $ x10p asm label.asm label.x10
    ; status 1: asm: line 5 Label
    places 1
    func 1 0 none
      JMP @uot
    out:
      RET 0
    end
    entry 0

Write `JMP @out`. A label is known only in its own function.
";

pub(crate) const TEXT: &str = "asm: Text: quotes, escapes, or too many bytes.

    ; $ x10p asm quotes.asm quotes.x10
    ; status 1: asm: line 4 Text
    places 1
    text \"hello
    func 1 0 none
      RET 0
    end
    entry 0

Close the quotes. The escapes are `\\\"`, `\\\\` and `\\n`.

image: Text. A text isn't UTF-8.

    ; $ x10p verify text.x10
    ; status 1: image: Text
    58313050 0001 0001 0000 0000 0001 0001 0000 0000
    0001 ff

frame: Text. A text isn't UTF-8.
";

pub(crate) const LIMIT: &str = "asm: Limit: more than a module may have.

    ; $ x10p asm many.asm many.x10
    ; status 1: asm: line 4 Limit
    places 1
    func 65 0 none
      RET 0
    end
    entry 0

A function has 1 to 64 registers, and not fewer than parameters (all ranges
(docs/FORMATS.md)). A function without instructions is Limit at its `end`.

limit: the run isn't over after the events that `--limit` permits.

    ; $ x10p run endless.x10 --limit 100
    ; status 2: limit
    places 1
    func 1 0 none
      ASYNC 0 0
      RET 0
    end
    entry 0

Each activity here starts another one before it ends. If a run is just long,
give a greater `--limit` (default 1,000,000). Idle events count too.

stop: Limit n: a limit of the machine would be exceeded.

    ; $ x10p run list.x10 --limit 3000000
    ; status 2: stop: Limit 7
    places 1
    class opt:0
    func 1 0 none opt:0
      RET 0
    end
    func 2 2 none
      NULL 0 0
      LOOP 0 1024
    turn:
      LOOP 1 1024
    again:
      NEW 0 0 0
      ENDL 1 @again
      ENDL 0 @turn
      NEW 0 0 0
      HERE 1
      ATA 0 1 0
      RET 0
    end
    entry 1

1,048,577 objects are too many for one frame: send them in parts. A program can
also meet the limits 8 (texts) and 9 (rails); see all limits (docs/LIMITS.md).
";

pub(crate) const ENTRY: &str =
    "asm: Entry: the entry function doesn't exist, or has a parameter or a result.

    ; $ x10p asm main.asm main.x10
    ; status 1: asm: line 7 Entry
    places 1
    func 1 0 none int
      RET 0
    end
    entry 0

Main takes and returns nothing: `func 1 0 none`.

image: Entry. The entry function doesn't exist, or has a parameter or a result.

    ; $ x10p verify entry.x10
    ; status 1: image: Entry
    58313050 0001 0001 0000 0000 0000 0001 0001 0000
    00010000 00000000 0001 0000 2900000000000000
";
