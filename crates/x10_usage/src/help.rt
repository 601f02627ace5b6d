//! What stands at the end of each help: an example, and the exit statuses.

pub const PROGRAM: &str = "Example:
  x10p asm examples/doubles.asm doubles.x10
  x10p run doubles.x10

Exit status:
  0  done
  1  refused: the text, the image, its module, or the number of places
  2  stopped: lack of memory, a limit of the machine, or --limit
  3  the command line is wrong
  4  a file can't be read, or the output can't be written";

pub const ASM: &str = "Example:
  x10p asm examples/doubles.asm doubles.x10

Exit status:
  0  done
  1  refused: the text
  2  lack of memory
  3  the command line is wrong
  4  a file can't be read, or the output can't be written";

pub const LIST: &str = "Example:
  x10p list examples/seven.x10

Exit status:
  0  done
  1  refused: the text or image
  2  lack of memory
  3  the command line is wrong
  4  a file can't be read, or the output can't be written";

pub const CHECK: &str = "Example:
  x10p check examples/doubles.asm

Exit status:
  0  done
  1  refused: the text, the image, or the module
  2  lack of memory
  3  the command line is wrong
  4  a file can't be read, or the output can't be written";

pub const VERIFY: &str = "Example:
  x10p verify examples/seven.x10

Exit status:
  0  done
  1  refused: the text or image, or its module
  2  lack of memory
  3  the command line is wrong
  4  a file can't be read, or the output can't be written";

pub const BOUNDS: &str = "Example:
  x10p bounds examples/seven.x10

Exit status:
  0  done
  1  refused: the text or image, or its module's structure
  2  lack of memory
  3  the command line is wrong
  4  a file can't be read, or the output can't be written";

pub const RUN: &str = "Example:
  x10p run examples/seven.x10 --places 4
  x10p run examples/seven.x10 --places 4 --seed 1
  x10p run examples/seven.x10 --places 4 --stats
  x10p run examples/seven.x10 --places 4 --threads
  x10p run examples/seven.x10 --threads --log seven.log

Exit status:
  0  done
  1  refused: the text or image, its module, or the number of places
  2  stopped: lack of memory or of a thread, a limit of the machine, or --limit
  3  the command line is wrong
  4  a file can't be read, or the output can't be written";

pub const RUNS: &str = "Example:
  x10p runs examples/any_order.asm --seeds 200

Exit status:
  0  done; also where a run was at its limit
  1  refused: the text or image, its module, or the number of places
  2  stopped: lack of memory, or a limit of the machine
  3  the command line is wrong
  4  a file can't be read, or the output can't be written";

pub const AUDIT: &str = "Example:
  x10p run examples/seven.x10 --threads --log seven.log
  x10p audit examples/seven.x10 seven.log

Exit status:
  0  done
  1  refused: the text or image, its module, the log, or its number of places
  2  stopped: lack of memory, or a limit of the machine
  3  the command line is wrong
  4  a file can't be read, or the output can't be written";

pub const TRACE: &str = "Example:
  x10p trace examples/seven.x10 --limit 100
  x10p trace examples/seven.x10 --verbose
  x10p trace examples/seven.x10 --from 2 --to 3
  x10p run examples/seven.x10 --threads --log seven.log
  x10p trace examples/seven.x10 --log seven.log

Exit status:
  0  done
  1  refused: the text or image, its module, the number of places, or the log
  2  stopped: lack of memory, a limit of the machine, or --limit
  3  the command line is wrong
  4  a file can't be read, or the output can't be written";

pub const DRAW: &str = "Example:
  x10p draw examples/seven.x10 seven.svg
  x10p draw examples/seven.x10 seven.html
  x10p draw examples/seven.x10 seven.html --from 2 --to 3
  x10p draw examples/seven.x10 seven.svg --log seven.log

Exit status:
  0  done
  1  refused: the text or image, its module, the number of places, or the log
  2  stopped: lack of memory, a limit of the machine, or --limit
  3  the command line is wrong
  4  a file can't be read, or the output can't be written";

pub const FRAME: &str = "Example:
  x10p frame 02040001000000000000000200000000000000000000000100000000 --places 2

Exit status:
  0  done
  1  refused: it isn't a frame where there are so many places
  2  lack of memory
  3  the command line is wrong
  4  a file can't be read, or the output can't be written";

pub const EXPLAIN: &str = "Example:
  x10p explain Kind

Exit status:
  0  done
  2  lack of memory
  3  the command line is wrong
  4  the output can't be written";
