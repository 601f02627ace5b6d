//! What the words of a command line ask for.
ghost use Rattle.std.specs.Prelude.{◌≡◌, ◌≢◌, IfOk, IfErr, IfSome, IsTrue, option_map};
ghost use Rattle.clap.specs.Words.{kind_of};
ghost use Rattle.x10_usage.specs.Tasks.{IsReadFrom, IsTask, color_named, explained_by, schedule_named, tells_activities, verb_named};
ghost use Rattle.x10_usage.specs.Tasks as tasks;
ghost use Rattle.x10_usage.specs.Usages.{IsAnswer, text_of};

use crate::checks::is_task;
use crate::words::program;
use clap::error::ErrorKind;
use clap::{ArgMatches, Error};
use std::alloc::Global;
use x10_task::{Color, Schedule, Task, Verb, Window};

/// What is printed instead of doing something: help that was asked for, or what is wrong with the words.
#[derive(Debug, Drop)]
pub struct Usage {
    // None where memory was refused.
    text: Option<String>,
    /// The exit status: 0 for help, to be printed on standard output; 3 for a fault of usage and 2 where memory was refused,
    /// on standard error.
    pub status: u8,
}

impl Usage {
    /// What to print, with its line ends.
    pub fn text(&self) -> &str
        ensures { result.now ≡ text_of self.now.text }
    {
        match &self.text {
            Some(text) => text.as_str(),
            None => "x10p: memory\n",
        }
    }
}

/// How many events a run has at most, where the words don't say so.
pub(crate) const EVENTS: u64 = 1_000_000;

/// How many runs there are, where the words don't say so.
pub(crate) const SEEDS: u64 = 100;

/// How the name of a page ends.
const PAGE: &str = ".html";

/// Reads the words of a command line, of which the program's name is the first. A task has what its command takes, and its
/// numbers are in their ranges. Where the words don't say whether more is said about a fault than its line, `explain` does.
pub fn parse<'a>(alloc: Global, words: &'a [String], explain: bool) -> Result<Task<'a>, Usage>
    ensures task { IfOk result IsTask }
    ensures answer { IfErr result IsAnswer }
{
    // An option that asks for the help of `help` is left out: that is the program's help.
    let is_help_of_help = words.len() == 3
        && words[1].as_str() == "help"
        && matches!(words[2].as_str(), "--help" | "-h");
    let words = if is_help_of_help { &words[..2] } else { words };
    match matched(alloc, words, explain) {
        Ok(task) => Ok(task),
        Err(error) => Err(refusal(alloc, &error)),
    }
}

/// What to say where a word of the command line isn't UTF-8: no name of a file is taken that isn't, as the system's names
/// are text here.
pub fn no_text(alloc: Global) -> Usage
    ensures answer { IsAnswer result }
    ensures refused { result.status ≢ 0 }
{
    let Ok(mut command) = program(alloc) else {
        return Usage {
            text: None,
            status: 2,
        };
    };
    match command.error(ErrorKind::InvalidValue, "a word isn't UTF-8") {
        Ok(error) => refusal(alloc, &error),
        Err(_) => Usage {
            text: None,
            status: 2,
        },
    }
}

fn refusal(alloc: Global, error: &Error) -> Usage
    ensures answer { IsAnswer result }
    ensures refused { kind_of error.now ≡ ErrorKind.InvalidValue → result.status ≢ 0 }
{
    let text = format!(in alloc; "{error}");
    let status = if error.use_stderr() { 3 } else { 0 };
    match text {
        Ok(text) if error.kind() != ErrorKind::OutOfMemory => Usage {
            text: Some(text),
            status,
        },
        _ => Usage {
            text: None,
            status: 2,
        },
    }
}

/// The task that was asked for. What a command takes and the ranges of its numbers are looked at again here, so that they don't
/// rest on how the command is put together.
fn matched<'a>(alloc: Global, words: &'a [String], explain: bool) -> Result<Task<'a>, Error>
    ensures { IfOk result IsTask }
{
    let mut command = program(alloc)?;
    let matches = command.try_get_matches_from_mut(words)?;
    let why = match task_in(&matches, explain) {
        Some(task) if is_task(&task) => return Ok(task),
        Some(task) => why_not(&task),
        None => "a command and what it works with are wanted",
    };
    Err(command.error(ErrorKind::ArgumentConflict, why)?)
}

/// What is wrong with options that are right one by one. The library refuses all other words by itself.
fn why_not(task: &Task) -> &'static str {
    if task.seed.is_some() && task.schedule != Schedule::Random {
        return "--seed is for a random schedule alone";
    }
    if task.activities && !task.stats {
        return "--verbose is for a run with --stats alone";
    }
    if task.log.is_some() && task.verb == Verb::Run {
        return "--log is for a run with --threads alone";
    }
    if task.log.is_some() {
        return "with --log the log says the places and the order";
    }
    if task.window != Window::all() {
        return "--to is before --from";
    }
    "these options don't go together"
}

fn task_in<'a>(matches: &ArgMatches<'a>, explain: bool) -> Option<Task<'a>>
    ensures { IfSome result (IsReadFrom explain matches.now) }
{
    let (name, matches) = matches.subcommand()?;
    let seed = matches.get_one("seed");
    let output = matches.get_str("OUTPUT");
    let is_verbose = matches.get_flag("verbose");
    let verb = verb_of(name, is_verbose, is_page(output));
    Some(Task {
        verb,
        input: matches.get_str("INPUT")?,
        output,
        log: matches.get_str("LOG"),
        places: matches.get_one("places"),
        limit: matches.get_one("limit").unwrap_or(EVENTS),
        schedule: schedule_of(matches.get_str("schedule"), seed.is_some()),
        seed,
        seeds: matches.get_one("seeds").unwrap_or(SEEDS),
        window: Window {
            from: matches.get_one("from").unwrap_or(1),
            to: matches.get_one("to"),
        },
        threads: matches.get_flag("threads"),
        json: matches.get_flag("json"),
        stats: matches.get_flag("stats"),
        activities: tells_activities(verb, is_verbose),
        explain: is_explained(matches.get_str("explain"), explain),
        color: color_of(matches.get_str("color")),
    })
}

/// Whether the file to write is a page, by the end of its name.
fn is_page(output: Option<&str>) -> bool
    ensures { result ≡ tasks.is_page (option_map (λ s. s.now) output.entry) }
{
    match output {
        Some(name) => name.ends_with(PAGE),
        None => false,
    }
}

fn verb_of(name: &str, is_verbose: bool, is_page: bool) -> Verb
    ensures { result ≡ verb_named name.now is_verbose is_page }
{
    match name {
        "asm" => Verb::Asm,
        "list" if is_verbose => Verb::ListVerbose,
        "list" => Verb::List,
        "check" => Verb::Check,
        "verify" => Verb::Verify,
        "bounds" => Verb::Bounds,
        "runs" => Verb::Runs,
        "audit" => Verb::Audit,
        "trace" if is_verbose => Verb::TraceVerbose,
        "trace" => Verb::Trace,
        "draw" if is_page => Verb::DrawPage,
        "draw" => Verb::Draw,
        "frame" => Verb::Frame,
        "explain" => Verb::Explain,
        _ => Verb::Run,
    }
}

/// Whether a command tells of each activity.
fn tells_activities(verb: Verb, is_verbose: bool) -> bool
    ensures { result ≡ tells_activities verb is_verbose }
{
    is_verbose && matches!(verb, Verb::Run)
}

/// The schedule of a name; where none is given, rounds, or, where a seed is, a random one.
fn schedule_of(name: Option<&str>, has_seed: bool) -> Schedule
    ensures { result ≡ schedule_named (option_map (λ s. s.now) name.entry) has_seed }
{
    match name {
        None if has_seed => Schedule::Random,
        None => Schedule::Rounds,
        Some("random") => Schedule::Random,
        Some("oldest") => Schedule::Oldest,
        Some("newest") => Schedule::Newest,
        Some(_) => Schedule::Rounds,
    }
}

/// Whether more is said about a fault, by the word that asks for it; where there is none, as it is without one.
fn is_explained(word: Option<&str>, otherwise: bool) -> bool
    ensures { result ≡ explained_by (option_map (λ s. s.now) word.entry) otherwise }
{
    match word {
        None => otherwise,
        Some("no") => false,
        Some(_) => true,
    }
}

/// The colors of a name.
fn color_of(name: Option<&str>) -> Color
    ensures { result ≡ color_named (option_map (λ s. s.now) name.entry) }
{
    match name {
        Some("always") => Color::Always,
        Some("never") => Color::Never,
        _ => Color::Auto,
    }
}
