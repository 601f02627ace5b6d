//! The commands `trace` and `draw` of a log: what happened in a run that was logged, shown event by event.
ghost use Rattle.std.specs.Prelude.{true, ◌≡◌, ◌≢◌, ◌⊎◌, ◌-◌, ◌<◌, ◌≤◌, ◌++◌, [], List, IfOk, IfErr, OnOk, length};
ghost use Rattle.std.specs.Io.KnownBytes.{Keeps};
ghost use Rattle.x10_model.specs.declared.event.Event.{Event};
ghost use Rattle.x10_workers.specs.Plays.{events_in};
ghost use Rattle.x10_cli.specs.declared.fault.Fault.TheVariants as fault;
ghost use Rattle.x10_cli.specs.Answers.{IsStatus, status_of};
ghost use Rattle.x10_cli.specs.Events.{Skips};
ghost use Rattle.x10_cli.specs.Showing.{Follows, TellsLog, TellsLogStopped, manner_of};
ghost use Rattle.x10_cli.specs.Shown.{HasShownLog, HasShownSomeOfLog, IsShownDue, IsStoppedIn, ShowsAll, ShowsFirst, TellsShown};

use crate::audited::{played_log, world_again};
use crate::commands::{refuse, tell, verified_in};
use crate::fault::Fault;
use crate::log_events::LogEvents;
use crate::show::{Show, begin};
use crate::shown::show_event;
use crate::window::{before, fewer, is_over, left_of};
use std::alloc::Global;
use std::io::Write;
use x10_hall::Turn;
use x10_task::{Task, Window};
use x10_verify::Verified;
use x10_world::World;

/// Audits a log, and where that is done makes its events once more and prints the lines of those that are asked for, as `trace`
/// does for a run, or for `draw` their picture or page. The arguments and the exit status are as for `audit_logged`. At 1 nothing
/// was printed; at 2 nothing, or what is shown of the first events of the log. Takes time linear in the log and in the events of
/// its turns, and no more memory than the audit and the picture, if there is one.
pub fn show_logged<O: Write, E: Write>(
    alloc: Global,
    task: &Task,
    bytes: &[u8],
    source: Option<&str>,
    log: &[u8],
    out: &mut O,
    err: &mut E,
) -> u8
    ensures status { IsStatus result }
    ensures done { result ≡ 0 → HasShownLog task.now.verb task.now.window bytes.now log.now
        (O.contents out.old) (O.contents out.new) }
    ensures left_refused { result ≡ 1 → Keeps (O.contents out.old) (O.contents out.new) }
    ensures left_stopped { result ≡ 2 → Keeps (O.contents out.old) (O.contents out.new)
        ⊎ HasShownSomeOfLog task.now.verb task.now.window bytes.now log.now (O.contents out.old)
        (O.contents out.new) }
    ensures told { (result ≡ 1) ⊎ (result ≡ 2) → TellsShown task.now.explain bytes.now log.now
        result (E.contents err.old) (E.contents err.new) }
{
    let done = print_log(alloc, task, bytes, log, out);
    if out.flush().is_err() {
        return tell(Fault::File, err);
    }
    match done {
        Ok(()) => 0,
        Err(fault) => refuse(alloc, task, bytes, source, log, fault, err),
    }
}

/// Audits a log, and prints what a command shows of its events. Reports no fault.
fn print_log<O: Write>(
    alloc: Global,
    task: &Task,
    bytes: &[u8],
    log: &[u8],
    out: &mut O,
) -> Result<(), Fault>
    ensures done { OnOk result (HasShownLog task.now.verb task.now.window bytes.now log.now
        (O.contents out.old) (O.contents out.new)) }
    ensures due { IfErr result (IsShownDue bytes.now log.now) }
    ensures refused_early { IfErr result (λ e. status_of e ≡ 1
        → Keeps (O.contents out.old) (O.contents out.new)) }
    ensures stopped { IfErr result (λ e. status_of e ≡ 2
        → Keeps (O.contents out.old) (O.contents out.new)
        ⊎ HasShownSomeOfLog task.now.verb task.now.window bytes.now log.now (O.contents out.old)
        (O.contents out.new)) }
{
    let verified = verified_in(alloc, bytes)?;
    let read = played_log(alloc, &verified, bytes, log)?;
    let mut world = world_again(alloc, &verified, read.places)?;
    show_log(alloc, task, &verified, &mut world, &read.turns, out)
}

/// Makes the events of some turns, and prints what a command shows of them, even where one is refused.
fn show_log<'a, O: Write>(
    alloc: Global,
    task: &Task,
    verified: &'a Verified<'a>,
    world: &mut World,
    turns: &[Turn],
    out: &mut O,
) -> Result<(), Fault>
    requires goes { world.old.stopped ≢ true }
    requires program { world.old.program ≡ verified.now.program }
    ensures shown { OnOk result (ShowsAll task.now.verb task.now.window world.old
        (events_in turns.now) (O.contents out.old) (O.contents out.new)) }
    ensures some { IfErr result (λ e. (e ≡ fault.File)
        ⊎ Keeps (O.contents out.old) (O.contents out.new)
        ⊎ ShowsFirst task.now.verb task.now.window world.old (events_in turns.now)
        (O.contents out.old) (O.contents out.new)) }
    ensures status { IfErr result (λ e. status_of e ≢ 1) }
    ensures why { IfErr result (λ e. (e ≡ fault.File) ⊎ (e ≡ fault.Memory)
        ⊎ IsStoppedIn world.old (events_in turns.now) e) }
{
    let mut events = LogEvents::new(turns);
    let skipped = skip_turns(&mut events, world, before(task.window))?;
    let mut show = begin(alloc, task.verb, verified, world, skipped, out)?;
    let ended = show_turns(
        alloc,
        &mut show,
        &mut events,
        world,
        skipped,
        task.window,
        out,
    );
    show.close(ended, out)
}

/// Makes so many of some events without showing them, unless there are fewer, and answers how many there were.
pub(crate) fn skip_turns(
    events: &mut LogEvents,
    world: &mut World,
    count: u64,
) -> Result<u64, Fault>
    requires { world.old.stopped ≢ true }
    ensures skips { IfOk result (λ n. (made : List Event) × Skips world.old made world.new
        × (length made ≡ n) × (made ++ events.new ≡ events.old)) }
    ensures few { IfOk result (λ n. n ≤ count) }
    ensures ended { IfOk result (λ n. n < count → events.new ≡ []) }
    ensures goes { IfOk result (λ _. world.new.stopped ≢ true) }
    ensures status { IfErr result (λ e. status_of e ≢ 1) }
    ensures why { IfErr result (IsStoppedIn world.old events.old) }
{
    for made in 0..count {
        let Some(event) = events.next() else {
            return Ok(made);
        };
        world.event(event)?;
    }
    Ok(count)
}

/// Makes some events, behind so many that were skipped, up to the last one that is asked for, and prints what is told of each.
/// Answers whether these are all.
fn show_turns<O: Write>(
    alloc: Global,
    show: &mut Show,
    events: &mut LogEvents,
    world: &mut World,
    skipped: u64,
    window: Window,
    out: &mut O,
) -> Result<bool, Fault>
    requires goes { world.old.stopped ≢ true }
    requires follows { Follows show.old world.old }
    requires few { skipped ≤ window.from - 1 }
    requires ended { skipped < window.from - 1 → events.old ≡ [] }
    ensures told { IfOk result (TellsLog (manner_of show.old) window skipped world.old world.new
        events.old (O.contents out.old) (O.contents out.new)) }
    ensures some { IfErr result (λ e. (e ≡ fault.File) ⊎ TellsLogStopped (manner_of show.old)
        window skipped world.old events.old (O.contents out.old) (O.contents out.new)) }
    ensures manner { manner_of show.new ≡ manner_of show.old }
    ensures status { IfErr result (λ e. status_of e ≢ 1) }
    ensures why { IfErr result (λ e. (e ≡ fault.File) ⊎ (e ≡ fault.Memory)
        ⊎ IsStoppedIn world.old events.old e) }
{
    if skipped < before(window) {
        return Ok(true);
    }
    let mut left = left_of(window, skipped);
    while let Some(event) = events.next() {
        if is_over(left) {
            return Ok(false);
        }
        show_event(alloc, show, world, event, out)?;
        left = fewer(left);
    }
    Ok(true)
}
