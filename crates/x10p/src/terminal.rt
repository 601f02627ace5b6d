//! What people at a terminal see in another form: explanations in colors, and a check of a good file in words.
use std::alloc::{AllocError, Global};
use std::env::{self, VarError};
use std::fmt::Write as _;
use std::io::{self, ErrorKind, IsTerminal, Write};
use x10_files::colored;
use x10_task::{Color, Task, Verb};
use x10_usage::MOST_EVENTS;

/// Prints what was said about a fault on standard error, in colors where they are wanted. Where there is no memory for colors,
/// there are none.
fn say(rt: &HostRuntime, task: &Task, told: &[u8]) -> io::Result<()> {
    let mut err = rt.stderr();
    let is_colored = has_colors(rt, task, err.is_terminal());
    match with_colors(rt.alloc(), told, is_colored) {
        Some(text) => err.write_all(text.as_bytes()),
        None => err.write_all(told),
    }
}

/// Prints what was said about a fault, and answers the exit status. Where the reader of a pipe has gone, nothing is printed.
pub fn speak(
    rt: &HostRuntime,
    task: &Task,
    failure: Option<&io::Error>,
    told: &[u8],
    status: u8,
) -> u8 {
    let said = match failure {
        Some(error) if error.kind() == ErrorKind::BrokenPipe => Ok(()),
        Some(error) if task.explain => say(rt, task, told).and_then(|()| writeln!(
            rt.stderr(),
            "Standard output can't be written: {error}."
        )),
        _ => say(rt, task, told),
    };
    match said {
        Ok(()) => status,
        Err(_) => 4,
    }
}

/// Whether a task's report goes to a terminal.
pub fn shows_report(rt: &HostRuntime, task: &Task) -> bool {
    task.verb == Verb::Check && !task.json && rt.stdout().is_terminal()
}

/// Prints the report of a check on standard output, a terminal: of a good file in words, of another in colors.
pub fn show_report(rt: &HostRuntime, task: &Task, is_good: bool, report: &[u8]) -> io::Result<()> {
    let mut out = rt.stdout();
    let text = if is_good {
        in_words(rt.alloc(), report)
    } else {
        with_colors(rt.alloc(), report, has_colors(rt, task, true))
    };
    match text {
        Some(text) => out.write_all(text.as_bytes()),
        None => out.write_all(report),
    }
}

fn with_colors(alloc: Global, told: &[u8], is_colored: bool) -> Option<String> {
    if !is_colored {
        return None;
    }
    let text = str::from_utf8(told).ok()?;
    colored(alloc, text).ok()
}

/// Lines of bounds in words.
fn in_words(alloc: Global, report: &[u8]) -> Option<String> {
    let text = str::from_utf8(report).ok()?;
    bounds_in_words(alloc, text).ok()
}

fn bounds_in_words(alloc: Global, text: &str) -> Result<String, AllocError> {
    let mut out = String::new(alloc);
    for line in text.lines() {
        match line.split_once(' ') {
            Some((function, "1")) => writeln!(out, "function {function}: at most 1 step")?,
            Some((function, bound)) if is_above_limit(bound) => writeln!(
                out,
                "function {function}: at most {bound} steps; --limit permits {MOST_EVENTS} events at most"
            )?,
            Some((function, bound)) => writeln!(out, "function {function}: at most {bound} steps")?,
            None => writeln!(out, "{line}")?,
        }
    }
    Ok(out)
}

/// Whether a bound is above the greatest limit of a run, which then may meet it, whatever is asked for.
fn is_above_limit(bound: &str) -> bool {
    match bound.parse::<u64>() {
        Ok(bound) => bound > MOST_EVENTS,
        Err(_) => false,
    }
}

/// Whether a stream has colors: as the words say, or else on a terminal, where the environment has no NO_COLOR, and a TERM other
/// than `dumb`.
fn has_colors(rt: &HostRuntime, task: &Task, is_terminal: bool) -> bool {
    match task.color {
        Color::Always => true,
        Color::Never => false,
        Color::Auto => is_terminal && !is_set(rt, "NO_COLOR") && !is_dumb(rt),
    }
}

/// Whether the environment has a value that isn't empty. One that isn't UTF-8 is one.
fn is_set(rt: &HostRuntime, name: &str) -> bool {
    match env::var(rt, name) {
        Ok(value) => !value.is_empty(),
        Err(error) => error != VarError::NotPresent,
    }
}

fn is_dumb(rt: &HostRuntime) -> bool {
    match env::var(rt, "TERM") {
        Ok(value) => value.as_str() == "dumb",
        Err(_) => false,
    }
}
