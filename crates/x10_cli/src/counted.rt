//! The command `run` with what was in the run.
ghost use Rattle.std.specs.Prelude.{true, ◌≡◌, ◌≢◌, ◌⊎◌, IfOk, IfErr, OnOk, Some, None, option_map};
ghost use Rattle.std.specs.Io.KnownBytes.{Appends, Keeps};
ghost use Rattle.std.specs.String.{string_bytes};
ghost use Rattle.x10_world.specs.Endings.{lines_at};
ghost use Rattle.x10_stats.specs.Lines.{stats_lines};
ghost use Rattle.x10_task.specs.declared.task.Verb.TheVariants as verb;
ghost use Rattle.x10_cli.specs.declared.fault.Fault.TheVariants as fault;
ghost use Rattle.x10_cli.specs.Answers.{CanBeDone, IsDue, IsStatus, Prints, status_of};
ghost use Rattle.x10_cli.specs.Counts.{CountsAll, CountsSome, LeavesCounts, LeavesSomeCounts, LeavesStoppedCounts, PrintsCounts};
ghost use Rattle.x10_cli.specs.Lines.{all_lines};
ghost use Rattle.x10_cli.specs.Telling.{Tells};

use crate::commands::{opened, refuse, tell, verified_in};
use crate::fault::Fault;
use crate::lines::print_outputs;
use crate::schedule::schedule_of;
use std::alloc::Global;
use std::io::Write;
use x10_stats::{Counts, count_run, stats_text};
use x10_task::Task;
use x10_verify::Verified;
use x10_world::World;

/// Runs a module in one thread, as `execute` does for a task without threads, and leaves in `stats` the lines that tell what
/// was in the run: where it has ended, and where it stopped, until then. There are none where it was refused, or where memory
/// for them or for the lines of places was; then nothing was printed. They tell of each activity where the task asks for that.
/// Each event is made by itself: where one activity works alone, that takes some 35 times as long as `execute`.
pub fn run_counted<O: Write, E: Write>(
    alloc: Global,
    task: &Task,
    bytes: &[u8],
    source: Option<&str>,
    out: &mut O,
    err: &mut E,
    stats: &mut Option<String>,
) -> u8
    ensures status { IsStatus result }
    ensures done { result ≡ 0 → CanBeDone verb.Run task.now.places bytes.now }
    ensures printed { result ≡ 0 → Prints verb.Run task.now.json task.now.places bytes.now
        (O.contents out.old) (O.contents out.new) }
    ensures counted { result ≡ 0 → LeavesCounts task.now.places bytes.now
        (CountsAll task.now.limit task.now.activities) task.now.json
        (option_map string_bytes stats.new) (O.contents out.old) (O.contents out.new) }
    ensures refused { result ≡ 1 → CanBeDone verb.Run task.now.places bytes.now → ⊥ }
    ensures left_refused { result ≡ 1 → (stats.new ≡ None)
        × Keeps (O.contents out.old) (O.contents out.new) }
    ensures left_stopped { result ≡ 2 → LeavesStoppedCounts task.now.places bytes.now
        task.now.limit task.now.activities task.now.json task.now.explain
        (option_map string_bytes stats.new) (O.contents out.old) (O.contents out.new)
        (E.contents err.old) (E.contents err.new) }
    ensures told { (result ≡ 1) ⊎ (result ≡ 2) → Tells task.now.explain task.now.places bytes.now
        result (E.contents err.old) (E.contents err.new) }
{
    *stats = None;
    let done = print_counted(alloc, task, bytes, out, stats);
    if out.flush().is_err() {
        return tell(Fault::File, err);
    }
    match done {
        Ok(()) => 0,
        Err(fault) => refuse(alloc, task, bytes, source, b"", fault, err),
    }
}

/// Runs a module, prints what its places printed, and leaves the lines that tell what was in the run. Reports no fault.
fn print_counted<O: Write>(
    alloc: Global,
    task: &Task,
    bytes: &[u8],
    out: &mut O,
    stats: &mut Option<String>,
) -> Result<(), Fault>
    requires { stats.old ≡ None }
    ensures done { IfOk result (λ _. CanBeDone verb.Run task.now.places bytes.now) }
    ensures counted { OnOk result (LeavesCounts task.now.places bytes.now
        (CountsAll task.now.limit task.now.activities) task.now.json
        (option_map string_bytes stats.new) (O.contents out.old) (O.contents out.new)) }
    ensures refused { IfErr result (λ e. status_of e ≡ 1
        → CanBeDone verb.Run task.now.places bytes.now → ⊥) }
    ensures due { IfErr result (IsDue task.now.places bytes.now) }
    ensures refused_early { IfErr result (λ e. status_of e ≡ 1
        → (stats.new ≡ None) × Keeps (O.contents out.old) (O.contents out.new)) }
    ensures stopped { IfErr result (λ e. status_of e ≡ 2
        → LeavesSomeCounts task.now.places bytes.now task.now.limit task.now.activities e
        task.now.json (option_map string_bytes stats.new) (O.contents out.old)
        (O.contents out.new)) }
{
    let verified = verified_in(alloc, bytes)?;
    let mut world = opened(alloc, task.places, &verified)?;
    print_events(alloc, task, &verified, &mut world, out, stats)
}

/// Makes the events of a program until the run has ended, as many as the task permits, and counts them. Prints what its places
/// printed until then, and leaves the lines that tell what was in the run.
fn print_events<O: Write>(
    alloc: Global,
    task: &Task,
    verified: &Verified,
    world: &mut World,
    out: &mut O,
    stats: &mut Option<String>,
) -> Result<(), Fault>
    requires goes { world.old.stopped ≢ true }
    requires none { stats.old ≡ None }
    ensures ended { OnOk result (PrintsCounts verified.now world.old
        (CountsAll task.now.limit task.now.activities verified.now) task.now.json
        (option_map string_bytes stats.new) (O.contents out.old) (O.contents out.new)) }
    ensures stopped { IfErr result (λ e. (e ≡ fault.File)
        ⊎ ((e ≡ fault.Memory) × (option_map string_bytes stats.new ≡ None)
        × Keeps (O.contents out.old) (O.contents out.new))
        ⊎ PrintsCounts verified.now world.old
        (CountsSome task.now.limit task.now.activities e verified.now) task.now.json
        (option_map string_bytes stats.new) (O.contents out.old) (O.contents out.new)) }
    ensures status { IfErr result (λ e. status_of e ≢ 1) }
{
    let mut counts = Counts::new(alloc, verified, world, task.activities)?;
    let ended = count_run(alloc, world, schedule_of(task), task.limit, &mut counts);
    print_with_counts(alloc, task.json, verified, &counts, world, out, stats)?;
    Ok(ended?)
}

/// Prints the lines of places, and then leaves the lines that tell what was in the run, for which there is memory before
/// anything is printed.
fn print_with_counts<O: Write>(
    alloc: Global,
    json: bool,
    verified: &Verified,
    counts: &Counts,
    world: &World,
    out: &mut O,
    stats: &mut Option<String>,
) -> Result<(), Fault>
    requires { stats.old ≡ None }
    ensures ok { OnOk result (Appends (O.contents out.old) (O.contents out.new)
        (all_lines json 0 (lines_at world.now.places))) }
    ensures told { OnOk result (option_map string_bytes stats.new
        ≡ Some (stats_lines verified.now counts.now world.now.places)) }
    ensures err { IfErr result (λ e. (e ≡ fault.File)
        ⊎ Keeps (O.contents out.old) (O.contents out.new)) }
    ensures none { IfErr result (λ _. option_map string_bytes stats.new ≡ None) }
    ensures kind { IfErr result (λ e. (e ≡ fault.File) ⊎ (e ≡ fault.Memory)) }
{
    let text = stats_text(alloc, verified, counts, world)?;
    print_outputs(alloc, world, json, out)?;
    *stats = Some(text);
    Ok(())
}
