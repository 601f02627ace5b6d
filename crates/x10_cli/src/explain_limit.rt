//! What is said where a run ends early: at its limit, or where the machine stops. Who lives then, and how many events were idle.

use crate::audited::world_again;
use crate::commands::{opened, verified_in};
use crate::fault::Fault;
use crate::log_events::LogEvents;
use crate::log_shown::skip_turns;
use crate::schedule::schedule_of;
use std::alloc::{AllocError, Global};
use x10_bounds::bounds;
use x10_explain::Source;
use x10_image::ImageView;
use x10_log::read_log;
use x10_schedule::run_by;
use x10_stats::{Counts, count_run};
use x10_survey::survey;
use x10_task::Task;
use x10_verify::Verified;
use x10_world::{Unfinished, World};

/// How it begins what is said of those who live in a world.
const THEN: &str = "Who lives then:\n";

const AFTER_LOG: &str = "Who lives after the turns in the log:\n";

/// What is said of a run with threads that isn't logged.
const NOT_LOGGED: &str = "With --log LOG it is told too who lives after the turns in the log.\n";

/// The most events of a run that is made once more event by event, so that its idle ones are counted.
const MOST_COUNTED: u64 = 10_000_000;

/// How many events a run had, and how many of them were idle.
#[derive(Clone, Copy)]
struct Share {
    idle: u64,
    events: u64,
}

/// A text with what there is to say of the end of a run, which the fault tells: the share of idle events, and who lives then. The
/// run is made once more for that, by the same schedule, so it goes the same way; of a run with threads the turns in its log.
/// Nothing comes behind the text where it doesn't end so again, as where memory was refused only once, or where there is no
/// memory; nor of a run in a log that is read.
pub(crate) fn with_end(
    alloc: Global,
    text: String,
    task: &Task,
    bytes: &[u8],
    source: Option<&str>,
    log: &[u8],
    fault: Fault,
) -> Result<String, AllocError> {
    let end = if task.threads {
        threads_end(alloc, task, bytes, source, log)
    } else if task.log.is_some() {
        return Ok(text);
    } else {
        end_of(alloc, task, bytes, source, fault)
    };
    let mut text = text;
    if let Ok(end) = end {
        // where it is refused memory, the text is as it was
        _ = text.push_str(end.as_str());
    }
    Ok(text)
}

/// The lines on the end of a run with threads: who lives after the turns in its log.
fn threads_end(
    alloc: Global,
    task: &Task,
    bytes: &[u8],
    source: Option<&str>,
    log: &[u8],
) -> Result<String, AllocError> {
    if task.log.is_none() {
        return String::from_str(alloc, NOT_LOGGED);
    }
    let Ok(verified) = verified_in(alloc, bytes) else {
        return Err(AllocError);
    };
    let Ok(world) = world_after(alloc, &verified, log) else {
        return Err(AllocError);
    };
    let mut text = String::from_str(alloc, AFTER_LOG)?;
    push_living(alloc, &mut text, &verified, &world, source)?;
    Ok(text)
}

/// The world after the turns of a log.
fn world_after<'a>(
    alloc: Global,
    verified: &'a Verified<'a>,
    log: &[u8],
) -> Result<World<'a>, Fault> {
    let Ok(text) = str::from_utf8(log) else {
        return Err(Fault::File);
    };
    let read = read_log(alloc, text)?;
    let mut world = world_again(alloc, verified, read.places)?;
    let mut events = LogEvents::new(&read.turns);
    skip_turns(&mut events, &mut world, u64::MAX)?;
    Ok(world)
}

/// The lines on the end of a run.
fn end_of(
    alloc: Global,
    task: &Task,
    bytes: &[u8],
    source: Option<&str>,
    fault: Fault,
) -> Result<String, AllocError> {
    let Ok(verified) = verified_in(alloc, bytes) else {
        return Err(AllocError);
    };
    match counted_end(alloc, task, &verified, source, fault)? {
        Some(end) => Ok(end),
        None => made_end(alloc, task, &verified, source, fault),
    }
}

/// The lines on the end of a run that is made event by event; none where it is too long for that.
fn counted_end(
    alloc: Global,
    task: &Task,
    verified: &Verified,
    source: Option<&str>,
    fault: Fault,
) -> Result<Option<String>, AllocError> {
    let Ok(mut world) = opened(alloc, task.places, verified) else {
        return Err(AllocError);
    };
    let Some(share) = share_of(alloc, task, verified, &mut world, fault)? else {
        return Ok(None);
    };
    let Share { idle, events } = share;
    let mut text = format!(in alloc; "Idle events: {idle} of {events}.\n{THEN}")?;
    push_living(alloc, &mut text, verified, &world, source)?;
    Ok(Some(text))
}

/// The lines on the end of a run whose events aren't counted.
fn made_end(
    alloc: Global,
    task: &Task,
    verified: &Verified,
    source: Option<&str>,
    fault: Fault,
) -> Result<String, AllocError> {
    let Ok(mut world) = opened(alloc, task.places, verified) else {
        return Err(AllocError);
    };
    remake(alloc, task, &mut world, fault)?;
    let mut text = String::from_str(alloc, THEN)?;
    push_living(alloc, &mut text, verified, &world, source)?;
    Ok(text)
}

/// Makes a run event by event, and answers the share of its idle events; none where it is too long for that.
fn share_of(
    alloc: Global,
    task: &Task,
    verified: &Verified,
    world: &mut World,
    fault: Fault,
) -> Result<Option<Share>, AllocError> {
    let most = task.limit.min(MOST_COUNTED);
    if fault == Fault::Limit && most < task.limit {
        return Ok(None);
    }
    let mut counts = Counts::new(alloc, verified, world, false)?;
    match count_run(alloc, world, schedule_of(task), most, &mut counts) {
        Err(halt) if Fault::from(halt) == fault => {}
        Err(Unfinished::Limit) if most < task.limit => return Ok(None),
        _ => return Err(AllocError),
    }
    let stats = counts.stats();
    let moved = stats.steps.saturating_add(stats.deliveries);
    Ok(Some(Share {
        idle: stats.idle,
        events: moved.saturating_add(stats.idle),
    }))
}

/// Makes a run, which has to end as the fault says.
fn remake(alloc: Global, task: &Task, world: &mut World, fault: Fault) -> Result<(), AllocError> {
    match run_by(alloc, world, schedule_of(task), task.limit) {
        Err(halt) if Fault::from(halt) == fault => Ok(()),
        _ => Err(AllocError),
    }
}

/// Pushes who lives in a world. Where there is a text, its lines are named.
fn push_living(
    alloc: Global,
    text: &mut String,
    verified: &Verified,
    world: &World,
    source: Option<&str>,
) -> Result<(), AllocError> {
    let living = match source {
        Some(source) => {
            let source = Source::read(alloc, source)?;
            survey(alloc, verified, world, Some(&source))?
        }
        None => survey(alloc, verified, world, None)?,
    };
    text.push_str(living.as_str())
}

/// How many events the limit permits, and main has steps.
pub(crate) fn of_events(alloc: Global, task: &Task, bytes: &[u8]) -> Result<String, AllocError> {
    let limit = task.limit;
    let events = counted_word(limit, "event", "events");
    match bound_of_main(alloc, bytes) {
        Some(bound) => {
            let steps = counted_word(bound, "step", "steps");
            format!(in alloc;
                "--limit permits {limit} {events}, and after that the root finish was open. Main takes {bound} {steps} at most; the steps of all other activities count too, and deliveries and idle events.\n"
            )
        }
        None => format!(in alloc;
            "--limit permits {limit} {events}, and after that the root finish was open.\n"
        ),
    }
}

/// The word for one, or the one for several.
pub(crate) fn counted_word<'a>(count: u64, one: &'a str, many: &'a str) -> &'a str {
    if count == 1 { one } else { many }
}

/// How many turns of workers the limit permits.
pub(crate) fn of_turns(alloc: Global, task: &Task) -> Result<String, AllocError> {
    let limit = task.limit;
    let turns = counted_word(limit, "turn", "turns");
    format!(in alloc;
        "--limit permits {limit} {turns} of workers, and a worker had one more. In a turn a worker takes in 16 frames and makes 64 steps at most.\n"
    )
}

fn bound_of_main(alloc: Global, bytes: &[u8]) -> Option<u64> {
    let image = ImageView::read(alloc, bytes).ok()?;
    let bounds = bounds(alloc, &image).ok()?;
    let bound = bounds.get(usize::from(image.entry()))?;
    Some(*bound)
}
