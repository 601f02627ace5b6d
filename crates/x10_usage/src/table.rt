//! The commands, a row each.
use crate::arguments::{
    ASM, AUDIT, BOUNDS, CHECK, Commands, DRAW, EXPLAIN, FRAME, LIST, RUN, RUNS, TRACE, VERIFY,
};
use crate::help;

/// A command, and what its help says before and after its arguments.
pub(crate) struct Row {
    pub(crate) bit: Commands,
    pub(crate) name: &'static str,
    pub(crate) about: &'static str,
    pub(crate) after: &'static str,
}

/// The commands. A caller sees only that there are rows, so that its proof doesn't go through them.
pub(crate) fn commands() -> &'static [Row] {
    COMMANDS
}

/// The commands in the order in which the help has them: first those that run nothing.
const COMMANDS: &[Row] = &[
    Row {
        bit: ASM,
        name: "asm",
        about: "Assemble a text into a module's image; where the text is refused, nothing is written",
        after: help::ASM,
    },
    Row {
        bit: LIST,
        name: "list",
        about: "Print a module as assembler text, which assembles to the same image",
        after: help::LIST,
    },
    Row {
        bit: CHECK,
        name: "check",
        about: "Tell all that is wrong with a text or an image, or the most steps of each function",
        after: help::CHECK,
    },
    Row {
        bit: VERIFY,
        name: "verify",
        about: "Verify a module: print how many functions it has and the bound of its entry function",
        after: help::VERIFY,
    },
    Row {
        bit: BOUNDS,
        name: "bounds",
        about: "Print the most steps that each function takes, a line `FUNCTION STEPS` each",
        after: help::BOUNDS,
    },
    Row {
        bit: FRAME,
        name: "frame",
        about: "Tell what a frame between two places says, a line for each thing",
        after: help::FRAME,
    },
    Row {
        bit: EXPLAIN,
        name: "explain",
        about: "Tell what a cause of faults means, with a small program that has it, and its repair",
        after: help::EXPLAIN,
    },
    Row {
        bit: RUN,
        name: "run",
        about: "Verify a module, run it, and print each place's lines, `PLACE: LINE` each",
        after: help::RUN,
    },
    Row {
        bit: RUNS,
        name: "runs",
        about: "Verify a module, run it in many random orders, and print each different output once",
        after: help::RUNS,
    },
    Row {
        bit: AUDIT,
        name: "audit",
        about: "Make the turns of a logged run again, and print each place's lines if it is a run of the module",
        after: help::AUDIT,
    },
    Row {
        bit: TRACE,
        name: "trace",
        about: "Verify a module, run it, and print what happens, event by event",
        after: help::TRACE,
    },
    Row {
        bit: DRAW,
        name: "draw",
        about: "Verify a module, run it, and draw what happens as an SVG document, or as a page in HTML",
        after: help::DRAW,
    },
];
