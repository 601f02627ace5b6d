//! The arguments that commands take, a row each.
use clap::ArgAction;
use clap::builder::ValueParser;
use x10_faults::CAUSES;
use x10_model::limits::MOST_PLACES;

/// The greatest number of events that can be asked for.
pub const MOST_EVENTS: u64 = 1_000_000_000;

/// The greatest number of runs that can be asked for.
pub(crate) const MOST_SEEDS: u64 = 1_000_000;

/// A set of commands, with a bit for each.
pub(crate) type Commands = u16;

pub(crate) const ASM: Commands = 1;

pub(crate) const LIST: Commands = 1 << 1;

pub(crate) const CHECK: Commands = 1 << 2;

pub(crate) const VERIFY: Commands = 1 << 3;

pub(crate) const BOUNDS: Commands = 1 << 4;

pub(crate) const FRAME: Commands = 1 << 5;

pub(crate) const EXPLAIN: Commands = 1 << 6;

pub(crate) const RUN: Commands = 1 << 7;

pub(crate) const RUNS: Commands = 1 << 8;

pub(crate) const AUDIT: Commands = 1 << 9;

pub(crate) const TRACE: Commands = 1 << 10;

pub(crate) const DRAW: Commands = 1 << 11;

/// The commands that show the events of a run.
const SHOWING: Commands = TRACE | DRAW;

/// The commands that run a module.
const RUNNING: Commands = RUN | RUNS | SHOWING;

/// The commands that may report a fault of a file.
const FAULTY: Commands = ASM | LIST | CHECK | VERIFY | BOUNDS | FRAME | RUNNING | AUDIT;

/// A word in its place, an option with a value, or a flag.
pub(crate) struct Argument {
    /// The commands that have it.
    pub(crate) commands: Commands,
    /// The name by which its value is found.
    pub(crate) id: &'static str,
    /// The name of an option or a flag. A word in its place has none.
    pub(crate) option: Option<&'static str>,
    /// What the help calls its value. A flag has none.
    pub(crate) value: Option<&'static str>,
    pub(crate) help: &'static str,
    pub(crate) action: ArgAction,
    pub(crate) parser: ValueParser<'static>,
    /// Its value where it isn't there.
    pub(crate) default: Option<&'static str>,
    /// Its value where the option stands alone. A value of its own then stands behind `=` in the same word.
    pub(crate) alone: Option<&'static str>,
    pub(crate) beside: Beside,
    pub(crate) is_required: bool,
    /// Whether capitals and small letters are the same.
    pub(crate) ignores_case: bool,
    /// Whether a value such as -1 is read as a number, and refused as one that is out of range.
    pub(crate) is_number: bool,
}

/// What may stand beside an argument.
pub(crate) enum Beside {
    Anything,
    /// It needs another one.
    With(&'static str),
    /// It is in conflict with others.
    Without(&'static [&'static str]),
}

const OPTION: Argument = Argument {
    commands: 0,
    id: "",
    option: None,
    value: None,
    help: "",
    action: ArgAction::Set,
    parser: ValueParser::String,
    default: None,
    alone: None,
    beside: Beside::Anything,
    is_required: false,
    ignores_case: false,
    is_number: false,
};

const WORD: Argument = Argument {
    is_required: true,
    ..OPTION
};

const FLAG: Argument = Argument {
    action: ArgAction::SetTrue,
    parser: ValueParser::Bool,
    ..OPTION
};

/// A number of an event, or of events.
const NUMBER: Argument = Argument {
    parser: ValueParser::Unsigned(1, MOST_EVENTS),
    is_number: true,
    ..OPTION
};

/// The arguments. A caller sees only that there are rows, so that its proof doesn't go through them.
pub(crate) fn arguments() -> &'static [Argument] {
    ARGUMENTS
}

/// Each command takes those that name it, and its help has them in this order.
const ARGUMENTS: &[Argument] = &[
    Argument {
        commands: ASM,
        id: "INPUT",
        value: Some("TEXT"),
        help: "The file of the assembler text, or - for standard input",
        ..WORD
    },
    Argument {
        commands: LIST | VERIFY | BOUNDS | RUNNING | AUDIT,
        id: "INPUT",
        value: Some("IMAGE"),
        help: "The file of the module's image or of a text, or - for standard input",
        ..WORD
    },
    Argument {
        commands: CHECK,
        id: "INPUT",
        value: Some("FILE"),
        help: "The file of a text, or of a module's image, or - for standard input",
        ..WORD
    },
    Argument {
        commands: FRAME,
        id: "INPUT",
        value: Some("FRAME"),
        help: "The frame as hexadecimal digits, or the file of its bytes, or - for standard input",
        ..WORD
    },
    Argument {
        commands: EXPLAIN,
        id: "INPUT",
        value: Some("CAUSE"),
        help: "The name that the fault's line has",
        parser: ValueParser::Names(&CAUSES),
        ignores_case: true,
        ..WORD
    },
    Argument {
        commands: ASM,
        id: "OUTPUT",
        value: Some("IMAGE"),
        help: "The file to write, the module's image",
        ..WORD
    },
    Argument {
        commands: AUDIT,
        id: "LOG",
        value: Some("LOG"),
        help: "The file of the log, as `run --threads --log LOG` writes it",
        ..WORD
    },
    Argument {
        commands: LIST,
        id: "verbose",
        option: Some("verbose"),
        help: "With what the verifier knows at each instruction, in comments",
        ..FLAG
    },
    Argument {
        commands: LIST,
        id: "json",
        option: Some("json"),
        help: "Print JSON, for other programs",
        beside: Beside::Without(&["verbose"]),
        ..FLAG
    },
    Argument {
        commands: CHECK | AUDIT,
        id: "json",
        option: Some("json"),
        help: "Print JSON, for other programs",
        ..FLAG
    },
    Argument {
        commands: RUNS,
        id: "seeds",
        option: Some("seeds"),
        value: Some("N"),
        help: "How many runs, by the seeds 1 to N; N is 1 to 1000000",
        parser: ValueParser::Unsigned(1, MOST_SEEDS),
        default: Some("100"),
        ..NUMBER
    },
    Argument {
        commands: FRAME,
        id: "places",
        option: Some("places"),
        value: Some("N"),
        help: "How many places there are where the frame is sent, 1 to 64",
        parser: ValueParser::Signed(1, MOST_PLACES as i64),
        is_required: true,
        ..NUMBER
    },
    Argument {
        commands: RUNNING,
        id: "places",
        option: Some("places"),
        value: Some("N"),
        help: "How many places, 1 to 64 [default: the module's least number]",
        parser: ValueParser::Signed(1, MOST_PLACES as i64),
        ..NUMBER
    },
    Argument {
        commands: RUNNING,
        id: "limit",
        option: Some("limit"),
        value: Some("N"),
        help: "How many events at most, 1 to 1000000000",
        default: Some("1000000"),
        ..NUMBER
    },
    Argument {
        commands: RUN | SHOWING,
        id: "schedule",
        option: Some("schedule"),
        value: Some("ORDER"),
        help: "The order of events [default: rounds; with --seed: random]",
        parser: ValueParser::Names(&["rounds", "random", "oldest", "newest"]),
        ..OPTION
    },
    Argument {
        commands: RUN | SHOWING,
        id: "seed",
        option: Some("seed"),
        value: Some("N"),
        help: "Which random order, 0 to 18446744073709551615",
        parser: ValueParser::Unsigned(0, u64::MAX),
        ..NUMBER
    },
    Argument {
        commands: FAULTY,
        id: "explain",
        option: Some("explain"),
        value: Some("WHETHER"),
        help: "Say more about a fault, in lines after its own [default: on a terminal alone]",
        parser: ValueParser::Names(&["yes", "no"]),
        alone: Some("yes"),
        ..OPTION
    },
    Argument {
        commands: FAULTY,
        id: "color",
        option: Some("color"),
        value: Some("WHEN"),
        help: "Say it in colors [default: auto, on a terminal where NO_COLOR isn't set]",
        parser: ValueParser::Names(&["auto", "always", "never"]),
        ..OPTION
    },
    Argument {
        commands: RUN,
        id: "threads",
        option: Some("threads"),
        help: "A thread for each place, and no schedule; --limit then counts turns of workers",
        beside: Beside::Without(&["schedule", "seed"]),
        ..FLAG
    },
    Argument {
        commands: RUN,
        id: "LOG",
        option: Some("log"),
        value: Some("LOG"),
        help: "The file to write, the log of the run; only with --threads",
        beside: Beside::With("threads"),
        ..OPTION
    },
    Argument {
        commands: RUN,
        id: "json",
        option: Some("json"),
        help: "Print JSON, for other programs",
        ..FLAG
    },
    Argument {
        commands: RUN,
        id: "stats",
        option: Some("stats"),
        help: "Tell what was in the run, in lines on standard error; not with --threads",
        beside: Beside::Without(&["threads"]),
        ..FLAG
    },
    Argument {
        commands: RUN,
        id: "verbose",
        option: Some("verbose"),
        help: "Tell of each activity in the run too; only with --stats",
        beside: Beside::With("stats"),
        ..FLAG
    },
    Argument {
        commands: SHOWING,
        id: "from",
        option: Some("from"),
        value: Some("N"),
        help: "The first event to show, 1 to 1000000000; those before it are made and not shown",
        default: Some("1"),
        ..NUMBER
    },
    Argument {
        commands: SHOWING,
        id: "to",
        option: Some("to"),
        value: Some("N"),
        help: "The last event to show; the run is made no further [default: the last one of the run]",
        ..NUMBER
    },
    Argument {
        commands: SHOWING,
        id: "LOG",
        option: Some("log"),
        value: Some("LOG"),
        help: "A log that `run --threads --log LOG` wrote: show that run, in place of a new one",
        beside: Beside::Without(&["places", "limit", "schedule", "seed"]),
        ..OPTION
    },
    Argument {
        commands: TRACE,
        id: "verbose",
        option: Some("verbose"),
        help: "With notes on each event in words, behind its lines",
        ..FLAG
    },
    Argument {
        commands: DRAW,
        id: "OUTPUT",
        value: Some("SVG"),
        help: "The file to write, the picture of the run; named .html a page that shows it step by step",
        ..WORD
    },
];
