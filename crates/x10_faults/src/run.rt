//! What the page of faults says of a cause. Written by `make` beside `src` from docs/FAULTS.md; change that, not this.

pub(crate) const PLACES: &str = "places: the module doesn't run at this number of places.

    ; $ x10p run places.x10 --places 1
    ; status 1: places
    ; $ x10p run places.x10
    ; 0: 2
    places 2
    func 1 0 none
      COUNT 0
      PRINT 0
      RET 0
    end
    entry 0

Give at least the number in the line `places`.
";

pub(crate) const TURNS: &str =
    "turns: with `--threads`, the run isn't over after the turns that `--limit`
permits.

    ; $ x10p run turns.x10 --threads --limit 100
    ; 0: 1
    ; status 2: turns
    places 1
    int 1
    func 1 0 none
      ASYNC 0 0
      RET 0
    end
    func 1 0 none
      INTK 0 0
      PRINT 0
      ASYNC 0 0
      RET 0
    end
    entry 1

Like `limit`, but it counts turns of workers, each of at most 16 frames and 64
steps. The output of these turns comes before the line.
";

pub(crate) const FILE: &str = "file, and usage.

    ; $ x10p run file.x10
    ; $ x10p run nowhere.x10
    ; status 4: file
    ; $ x10p run
    ; status 3
    ; $ x10p run file.x10 --places 65
    ; status 3
    places 1
    func 1 0 none
      RET 0
    end
    entry 0

`file`: a file can't be read or written, or a text isn't UTF-8. Status 3: the
command line is wrong, and the line says where; see `x10p run --help`.
";

pub(crate) const THREAD: &str =
    "thread: with `--threads`, a worker couldn't be started. Use fewer places, or
permit more threads (`ulimit -u`).
";

pub(crate) const REFUSED: &str =
    "refused: place p, and differs: turn t: with `--threads`, place p refused a
frame, or turn t of the log isn't what its worker did. This is a bug of x10p,
not of the module: report it with the image. No case is known.
";

pub(crate) const DIFFERS: &str =
    "refused: place p, and differs: turn t: with `--threads`, place p refused a
frame, or turn t of the log isn't what its worker did. This is a bug of x10p,
not of the module: report it with the image. No case is known.

differs: turn t, and open: from `audit`, or from `trace` and `draw` with
`--log`: turn t of the log, from 0, isn't what its place does then; or the run
isn't over after the last turn. The log was changed, or its run was stopped.
";

pub(crate) const OPEN: &str =
    "differs: turn t, and open: from `audit`, or from `trace` and `draw` with
`--log`: turn t of the log, from 0, isn't what its place does then; or the run
isn't over after the last turn. The log was changed, or its run was stopped.
";

pub(crate) const MEMORY: &str =
    "stop: Memory, and memory: out of memory, in a run or outside. Nothing is removed
from heaps during a run: make less.
";
