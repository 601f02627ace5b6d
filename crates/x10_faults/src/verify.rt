//! What the page of faults says of a cause. Written by `make` beside `src` from docs/FAULTS.md; change that, not this.

pub(crate) const INDEX: &str = "verify: Index: an operand names nothing.

    ; $ x10p verify index.x10
    ; status 1: verify: Index 0 0
    places 1
    func 1 0 none
      HERE 1
      RET 0
    end
    entry 0

The function has one register, number 0. Index is also a constant, class or
function that doesn't exist, arguments past the last register, and PLACEK of a
place that `places` doesn't guarantee.
";

pub(crate) const UNSET: &str = "verify: Unset: a register is read that isn't set on every path.

    ; $ x10p verify unset.x10
    ; status 1: verify: Unset 0 3
    places 1
    func 2 0 none
      COUNT 0
      JZ 0 @print
      COUNT 1
    print:
      PRINT 1
      RET 0
    end
    entry 0

Set the register on every path that leads here. If two paths join with different
kinds, it is unset too. A jump to a label writes nothing: `DIV 2 0 1 @zero` sets
register 2 only if it doesn't jump.
";

pub(crate) const KIND: &str = "verify: Kind: a register holds another kind than required.

    ; $ x10p verify kind.x10
    ; status 1: verify: Kind 0 1
    places 1
    func 1 0 none
      HERE 0
      PRINT 0
      RET 0
    end
    entry 0

PRINT takes a number or a text: put `PLACEI 0 0` first. Most often `obj:c` is
required and `opt:c` given: put IFOBJ first.

image: Kind. An unknown tag, a class that doesn't exist, or a misplaced home
flag.

    ; $ x10p verify kinds.x10
    ; status 1: image: Kind
    58313050 0001 0001 0001 0000 0000 0001 0000 0000
    01 080000
";

pub(crate) const HOME: &str =
    "verify: Home: the home isn't known to be here, or where the reference goes.

    ; $ x10p verify home.x10
    ; status 1: verify: Home 0 0
    places 1
    class
    func 2 0 none gref:0
      GOPEN 1 0
      RET 0
    end
    func 1 0 none
      RET 0
    end
    entry 1

Test it: `IFHERE 0 @else`. Or go there: `HOME 1 0`, then AT with register 1, to
a function with a parameter `here:0`. Or flag the parameter, `here:0`, so that
the caller must know it.
";

pub(crate) const RESULT: &str = "verify: Result: a result where there is none, or of an activity.

    ; $ x10p verify result.x10
    ; status 1: verify: Result 1 0
    places 1
    func 1 0 place
      HERE 0
      RET 0
    end
    func 1 0 none
      ASYNC 0 0
      RET 0
    end
    entry 1

Nobody waits for the result of ASYNC or ATA: pass an object or a global
reference to put it into. If a function has no result, the a of its RET, and of
a CALL or AT of it, is 0.
";
