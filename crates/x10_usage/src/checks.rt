//! Whether a task has what its command takes.
ghost use Rattle.std.specs.Prelude.{◌≡◌, ◌≢◌, IfSome, IsTrue, None, true, false, is_some};
ghost use Rattle.x10_usage.specs.Tasks.{IsOneTo, IsTask, IsUpTo, has_output};
ghost use Rattle.x10_usage.specs.Tasks as tasks;

use crate::arguments::{MOST_EVENTS, MOST_SEEDS};
use crate::usage::{EVENTS, SEEDS};
use x10_model::limits::MOST_PLACES;
use x10_task::{Schedule, Task, Verb, Window};

/// What a task may have, by its command.
#[derive(Clone, Copy)]
struct Takes {
    /// A file to write. It always has one.
    output: bool,
    /// A limit and a schedule.
    run: bool,
    /// The first and the last event to show.
    shown: bool,
    places: bool,
    json: bool,
}

const NOTHING: Takes = Takes {
    output: false,
    run: false,
    shown: false,
    places: false,
    json: false,
};

const RUN: Takes = Takes {
    run: true,
    places: true,
    ..NOTHING
};

/// Whether a task has what its command takes, with its numbers in their ranges.
pub(crate) fn is_task(task: &Task) -> bool
    ensures { IsTrue result → IsTask task.now }
{
    is_in_range(task)
        && has_what_it_takes(task)
        && is_schedule(task)
        && stats_are_for_run(task)
        && has_log_as_asked(task)
}

fn is_in_range(task: &Task) -> bool
    ensures places { IsTrue result → IfSome task.now.places (IsOneTo 64) }
    ensures limit { IsTrue result → IsOneTo 1000000000 task.now.limit }
    ensures seeds { IsTrue result → IsOneTo 1000000 task.now.seeds }
    ensures from { IsTrue result → IsOneTo 1000000000 task.now.window.from }
    ensures to { IsTrue result → IfSome task.now.window.to (IsUpTo task.now.window.from) }
{
    let window = task.window;
    match task.places {
        Some(places) if places < 1 || places > MOST_PLACES => false,
        _ => {
            task.limit >= 1
                && task.limit <= MOST_EVENTS
                && task.seeds >= 1
                && task.seeds <= MOST_SEEDS
                && window.from >= 1
                && window.from <= MOST_EVENTS
                && match window.to {
                    Some(to) => window.from <= to && to <= MOST_EVENTS,
                    None => true,
                }
        }
    }
}

/// What its command doesn't take is as it is without a word for it; the places of a frame are always said.
fn has_what_it_takes(task: &Task) -> bool
    ensures output { IsTrue result → is_some task.now.output ≡ has_output task.now.verb }
    ensures run { IsTrue result → tasks.is_run task.now.verb ≡ false → task.now.limit ≡ 1000000 }
    ensures shown { IsTrue result → tasks.is_shown task.now.verb ≡ false
        → task.now.window ≡ record { from = 1; to = None } }
    ensures placed { IsTrue result → tasks.has_places task.now.verb ≡ false
        → task.now.places ≡ None }
    ensures frame { IsTrue result → task.now.verb ≡ Verb.Frame → is_some task.now.places ≡ true }
    ensures json { IsTrue result → task.now.json ≡ true → tasks.has_json task.now.verb ≡ true }
    ensures runs { IsTrue result → task.now.verb ≢ Verb.Runs → task.now.seeds ≡ 100 }
    ensures threads { IsTrue result → task.now.threads ≡ true → task.now.verb ≡ Verb.Run }
{
    let takes = taken_by(task.verb);
    task.output.is_some() == takes.output
        && (takes.run || task.limit == EVENTS)
        && (takes.places || task.places.is_none())
        && (task.places.is_some() || !matches!(task.verb, Verb::Frame))
        && (takes.json || !task.json)
        && (task.seeds == SEEDS || matches!(task.verb, Verb::Runs))
        && (!task.threads || matches!(task.verb, Verb::Run))
        && (takes.shown || task.window == Window::all())
}

fn taken_by(verb: Verb) -> Takes
    ensures { result ≡ record {
      output = has_output verb;
      run = tasks.is_run verb;
      shown = tasks.is_shown verb;
      places = tasks.has_places verb;
      json = tasks.has_json verb;
    } }
{
    match verb {
        Verb::ListVerbose | Verb::Verify | Verb::Bounds | Verb::Explain => NOTHING,
        Verb::List | Verb::Check | Verb::Audit => Takes {
            json: true,
            ..NOTHING
        },
        Verb::Asm => Takes {
            output: true,
            ..NOTHING
        },
        Verb::Frame => Takes {
            places: true,
            ..NOTHING
        },
        Verb::Run => Takes { json: true, ..RUN },
        Verb::Runs => RUN,
        Verb::Trace | Verb::TraceVerbose => Takes { shown: true, ..RUN },
        Verb::Draw | Verb::DrawPage => Takes {
            output: true,
            shown: true,
            ..RUN
        },
    }
}

/// What was in a run is told of one in this thread, and each activity only besides that.
fn stats_are_for_run(task: &Task) -> bool
    ensures stats { IsTrue result → task.now.stats ≡ true → (task.now.verb ≡ Verb.Run)
        × (task.now.threads ≡ false) }
    ensures activities { IsTrue result → task.now.activities ≡ true → task.now.stats ≡ true }
{
    if task.stats {
        matches!(task.verb, Verb::Run) && !task.threads
    } else {
        !task.activities
    }
}

/// An audit reads a log, a trace or a picture may be of one, and a run with threads may write one. Where a log is read, it says how
/// many places there are, and which events happen in which order.
fn has_log_as_asked(task: &Task) -> bool
    ensures log { IsTrue result → is_some task.now.log ≡ true
        → tasks.may_have_log task.now.verb task.now.threads ≡ true }
    ensures audit { IsTrue result → task.now.verb ≡ Verb.Audit → is_some task.now.log ≡ true }
    ensures logged { IsTrue result → is_some task.now.log ≡ true → task.now.verb ≢ Verb.Run
        → (task.now.places ≡ None) × (task.now.limit ≡ 1000000)
        × (task.now.schedule ≡ Schedule.Rounds) }
{
    if task.log.is_none() {
        return !matches!(task.verb, Verb::Audit);
    }
    match task.verb {
        Verb::Run => task.threads,
        Verb::Audit | Verb::Trace | Verb::TraceVerbose | Verb::Draw | Verb::DrawPage => {
            task.places.is_none() && task.limit == EVENTS && task.schedule == Schedule::Rounds
        }
        _ => false,
    }
}

/// A schedule is for a run in this thread, and a seed for a random one.
fn is_schedule(task: &Task) -> bool
    ensures schedule { IsTrue result → task.now.schedule ≢ Schedule.Rounds
        → (tasks.is_run task.now.verb ≡ true) × (task.now.threads ≡ false) }
    ensures runs { IsTrue result → task.now.verb ≡ Verb.Runs → task.now.schedule ≡ Schedule.Rounds }
    ensures seed { IsTrue result → is_some task.now.seed ≡ true
        → task.now.schedule ≡ Schedule.Random }
{
    let runs_here = taken_by(task.verb).run && !matches!(task.verb, Verb::Runs) && !task.threads;
    match task.schedule {
        Schedule::Random => runs_here,
        Schedule::Rounds => task.seed.is_none(),
        Schedule::Oldest | Schedule::Newest => runs_here && task.seed.is_none(),
    }
}
