//! The commands `trace` and `draw`: what happens in a run, shown event by event.
ghost use Rattle.std.specs.Prelude.{◌≡◌, ◌≢◌, ◌⊎◌, ◌-◌, ◌<◌, ◌≤◌, true, List, IfOk, IfErr, OnOk, length};
ghost use Rattle.std.specs.Io.KnownBytes.{Keeps};
ghost use Rattle.x10_model.specs.declared.event.Event.{Event};
ghost use Rattle.x10_model.specs.Worlds as machine;
ghost use Rattle.x10_world.specs.Rounds.{NoneIsLeft};
ghost use Rattle.x10_world.specs.StandsForWorld.{KeepsSetting, MakesEvent, StandsForWorld};
ghost use Rattle.x10_cli.specs.declared.fault.Fault.TheVariants as fault;
ghost use Rattle.x10_cli.specs.Answers.{CanBeDone, IsDue, LeavesAsked, LeavesStopped, Prints, ShowsAsked, status_of};
ghost use Rattle.x10_cli.specs.Events.{IsShowing, ShowsRun, ShowsStopped, Skips};
ghost use Rattle.x10_cli.specs.Showing.{Follows, TellsEvent, TellsRun, TellsStopped, manner_of};
ghost use Rattle.x10_cli.specs.Shown.{IsStoppedAt};

use crate::commands::{opened, verified_in};
use crate::fault::Fault;
use crate::schedule::schedule_of;
use crate::show::{Show, begin};
use crate::window::{before, last_of};
use std::alloc::Global;
use std::io::Write;
use x10_model::Event;
use x10_schedule::Scheduler;
use x10_task::Task;
use x10_verify::Verified;
use x10_world::World;

/// Runs a module, and prints what its command shows of each event that is asked for when it has happened, even where the run stops
/// before its end.
pub(crate) fn print_shown<O: Write>(
    alloc: Global,
    task: &Task,
    bytes: &[u8],
    out: &mut O,
) -> Result<(), Fault>
    requires { IsShowing task.now.verb }
    ensures done { IfOk result (λ _. CanBeDone task.now.verb task.now.places bytes.now) }
    ensures printed { OnOk result (Prints task.now.verb task.now.json task.now.places bytes.now
        (O.contents out.old) (O.contents out.new)) }
    ensures shown { OnOk result (ShowsAsked task.now.verb task.now.window task.now.places bytes.now
        (O.contents out.old) (O.contents out.new)) }
    ensures refused { IfErr result (λ e. status_of e ≡ 1
        → CanBeDone task.now.verb task.now.places bytes.now → ⊥) }
    ensures due { IfErr result (IsDue task.now.places bytes.now) }
    ensures refused_early { IfErr result (λ e. status_of e ≡ 1
        → Keeps (O.contents out.old) (O.contents out.new)) }
    ensures stopped { IfErr result (λ e. status_of e ≡ 2
        → LeavesStopped task.now.verb task.now.json task.now.threads task.now.places bytes.now
        (O.contents out.old) (O.contents out.new)) }
    ensures left { IfErr result (λ e. status_of e ≡ 2
        → LeavesAsked task.now.verb task.now.window task.now.places bytes.now
        (O.contents out.old) (O.contents out.new)) }
{
    let verified = verified_in(alloc, bytes)?;
    let mut world = opened(alloc, task.places, &verified)?;
    show_all(alloc, task, &verified, &mut world, out)
}

/// Makes the events of a run as a task asks for them, and prints what its command shows.
fn show_all<'a, O: Write>(
    alloc: Global,
    task: &Task,
    verified: &'a Verified<'a>,
    world: &mut World,
    out: &mut O,
) -> Result<(), Fault>
    requires { world.old.program ≡ verified.now.program }
    ensures shown { OnOk result (ShowsRun task.now.verb task.now.window world.old world.new
        (O.contents out.old) (O.contents out.new)) }
    ensures some { IfErr result (λ e. (e ≡ fault.File)
        ⊎ Keeps (O.contents out.old) (O.contents out.new)
        ⊎ ShowsStopped task.now.verb task.now.window world.old (O.contents out.old)
        (O.contents out.new)) }
    ensures status { IfErr result (λ e. status_of e ≢ 1) }
{
    let mut scheduler = Scheduler::new(alloc, world, schedule_of(task))?;
    let skipped = skip_events(&mut scheduler, world, before(task.window), task.limit)?;
    let mut show = begin(alloc, task.verb, verified, world, skipped, out)?;
    let ended = show_run(alloc, &mut show, &mut scheduler, world, skipped, task, out);
    show.close(ended, out)
}

/// Makes so many events of a run without showing them, unless it ends before, and answers how many there were.
fn skip_events(
    scheduler: &mut Scheduler,
    world: &mut World,
    count: u64,
    limit: u64,
) -> Result<u64, Fault>
    ensures skips { IfOk result (λ n. (events : List Event) × Skips world.old events world.new
        × (length events ≡ n)) }
    ensures few { IfOk result (λ n. n ≤ count) }
    ensures ended { IfOk result (λ n. n < count → NoneIsLeft world.new) }
    ensures status { IfErr result (λ e. status_of e ≢ 1) }
{
    for made in 0..count {
        if world.closed() {
            return Ok(made);
        }
        if made >= limit {
            return Err(Fault::Limit);
        }
        let event = scheduler.next(world)?.ok_or(Fault::Limit)?;
        world.event(event)?;
    }
    Ok(count)
}

/// Makes the events of a program behind so many that were skipped, up to the last one that is asked for, and prints what is told of
/// each. Answers whether the run has ended.
fn show_run<O: Write>(
    alloc: Global,
    show: &mut Show,
    scheduler: &mut Scheduler,
    world: &mut World,
    skipped: u64,
    task: &Task,
    out: &mut O,
) -> Result<bool, Fault>
    requires follows { Follows show.old world.old }
    requires few { skipped ≤ task.now.window.from - 1 }
    requires ended { skipped < task.now.window.from - 1 → NoneIsLeft world.old }
    ensures told { IfOk result (TellsRun (manner_of show.old) task.now.window skipped world.old
        world.new (O.contents out.old) (O.contents out.new)) }
    ensures some { IfErr result (λ e. (e ≡ fault.File) ⊎ TellsStopped (manner_of show.old)
        task.now.window skipped world.old (O.contents out.old) (O.contents out.new)) }
    ensures manner { manner_of show.new ≡ manner_of show.old }
    ensures status { IfErr result (λ e. status_of e ≢ 1) }
{
    if skipped < before(task.window) {
        return Ok(true);
    }
    let (last, is_asked) = last_of(task.window, task.limit);
    for made in skipped..last {
        if world.closed() {
            return Ok(true);
        }
        let event = scheduler.next(world)?.ok_or(Fault::Limit)?;
        show_event(alloc, show, world, event, out)?;
    }
    if world.closed() {
        return Ok(true);
    }
    if is_asked {
        Ok(false)
    } else {
        Err(Fault::Limit)
    }
}

/// Makes an event, and prints what is told of it.
pub(crate) fn show_event<O: Write>(
    alloc: Global,
    show: &mut Show,
    world: &mut World,
    event: Event,
    out: &mut O,
) -> Result<(), Fault>
    requires { Follows show.old world.old }
    ensures told { OnOk result (TellsEvent (manner_of show.old) world.old event world.new
        (O.contents out.old) (O.contents out.new)) }
    ensures follows { OnOk result (Follows show.new world.new) }
    ensures manner { manner_of show.new ≡ manner_of show.old }
    ensures still { IfErr result (λ e. (e ≡ fault.File)
        ⊎ Keeps (O.contents out.old) (O.contents out.new)) }
    ensures made { OnOk result ((w : machine.World) → StandsForWorld world.old w
        → MakesEvent world.old w event world.new) }
    ensures kept { KeepsSetting world.old world.new }
    ensures status { IfErr result (λ e. status_of e ≢ 1) }
    ensures goes { IfOk result (λ _. world.new.stopped ≢ true) }
    ensures why { world.old.stopped ≢ true → IfErr result (λ e. (e ≡ fault.File)
        ⊎ (e ≡ fault.Memory) ⊎ IsStoppedAt world.old event e) }
{
    show.look(world, event)?;
    let done = world.event(event)?;
    let text = show.tell(alloc, world, event, &done)?;
    out.write_all(text.as_bytes())?;
    Ok(())
}
