//! What is said about a fault of a log besides its line, for people.

use std::alloc::{AllocError, Global};
use x10_log::{LogCause, LogFault};
use x10_task::Task;

/// At most this many bytes of a line are shown.
const MOST_SHOWN: usize = 1000;

/// The name of the log.
pub(crate) fn log_of<'a>(task: &Task<'a>) -> &'a str {
    task.log.unwrap_or("the log")
}

pub(crate) fn of_log(alloc: Global, task: &Task, fault: LogFault) -> Result<String, AllocError> {
    let log = log_of(task);
    let line = fault.line;
    let what = wanted(fault.cause);
    format!(in alloc; "{log}, line {line}: {what}.\n")
}

/// What a log has, where it is refused for a cause.
fn wanted(cause: LogCause) -> &'static str {
    match cause {
        LogCause::Head => {
            "a log begins with `x10 log 1`, `image` and 64 digits, and `places` and a number"
        }
        LogCause::Place => {
            "there are 1 to 64 places, and a turn begins with the number of one of them"
        }
        LogCause::Taken => "a frame that was taken in is `<` and a number",
        LogCause::Key => "a step is a key, or a key, `*` and how often",
        LogCause::Frame => {
            "a frame that was put out is `>`, a place, `:` and two digits for each byte"
        }
        LogCause::Printed => "a line that was printed is `=` and a number, or a text in quotes",
        LogCause::Count => "a turn takes in 16 frames and makes 64 steps at most",
        LogCause::Spelling => {
            "a turn has one spelling: frames taken in, steps, frames put out, lines"
        }
        LogCause::Ending => "the last line ends with a line feed too",
        LogCause::Memory => "the system gives no more memory to the program",
    }
}

pub(crate) fn of_other_image(alloc: Global, task: &Task) -> Result<String, AllocError> {
    let (log, input) = (log_of(task), task.input);
    format!(in alloc; "{log} is the log of another image: its digest isn't that of {input}.\n")
}

/// A turn that differs, with its line.
pub(crate) fn of_turn(
    alloc: Global,
    task: &Task,
    log: &[u8],
    turn: usize,
) -> Result<String, AllocError> {
    let name = log_of(task);
    let number = turn.saturating_add(4);
    let line = line_at(log, turn.saturating_add(3)).unwrap_or_default();
    format!(in alloc;
        "{name}, line {number}: {line}\nThis is turn {turn}, counted from 0. It took in a frame that wasn't in flight to its place, or put out or printed something else than its steps do.\n"
    )
}

/// The front of a line of a log, by its number from 0 on.
fn line_at(log: &[u8], number: usize) -> Option<&str> {
    let text = str::from_utf8(log).ok()?;
    let line = text.split('\n').nth(number)?;
    line.get(..line.floor_char_boundary(MOST_SHOWN))
}

pub(crate) fn of_open_log(alloc: Global, task: &Task) -> Result<String, AllocError> {
    let log = log_of(task);
    format!(in alloc;
        "No turn of {log} differs, but the run isn't over after the last: it was stopped, or turns are missing.\n"
    )
}
