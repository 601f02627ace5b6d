//! The command `run` with a thread for each place, and the log of its turns.
ghost use Rattle.std.specs.Prelude.{◌≡◌, ◌≢◌, ◌⊎◌, IfOk, IfErr, OnOk, None, option_map};
ghost use Rattle.std.specs.Io.KnownBytes.{Appends, Keeps};
ghost use Rattle.std.specs.String.{string_bytes};
ghost use Rattle.x10_world.specs.Endings.{lines_in};
ghost use Rattle.x10_task.specs.declared.task.Verb.TheVariants as verb;
ghost use Rattle.x10_cli.specs.declared.fault.Fault.TheVariants as fault;
ghost use Rattle.x10_cli.specs.Answers.{CanBeDone, IsDue, IsStatus, lines_told, status_of};
ghost use Rattle.x10_cli.specs.Lines.{all_lines};
ghost use Rattle.x10_cli.specs.Logs.{HasLogText, HasLogTold, LeavesEnded, LeavesLog};
ghost use Rattle.x10_cli.specs.Telling.{Tells};

use crate::commands::{places_of, refuse, tell, verified_in};
use crate::fault::Fault;
use crate::lines::print_report;
use std::alloc::Global;
use std::io::Write;
use std::sync::Wait;
use std::thread::Threads;
use x10_digest::digest_of;
use x10_log::write_log;
use x10_task::Task;
use x10_workers::{Open, RunReport, WorkFault, run_threads};

/// Runs a module with a thread for each place, as `execute` does for a task that asks for threads, and leaves the text of the
/// log of its turns in `log`: where the run has ended, and where it stopped with a report of its turns. There is none where it
/// was refused, or where another fault than `Turns` and a stop is told; then nothing was printed. May wait: that it returns
/// isn't promised. The text takes memory linear in the log.
pub fn run_logged<R: Threads + Wait + Sync, O: Write, E: Write>(
    rt: &R,
    alloc: Global,
    task: &Task,
    bytes: &[u8],
    source: Option<&str>,
    out: &mut O,
    err: &mut E,
    log: &mut Option<String>,
) -> u8
    ensures status { IsStatus result }
    ensures done { result ≡ 0 → CanBeDone verb.Run task.now.places bytes.now }
    ensures ended { result ≡ 0 → LeavesEnded task.now.places task.now.json bytes.now
        (option_map string_bytes log.new) (O.contents out.old) (O.contents out.new) }
    ensures refused { result ≡ 1 → CanBeDone verb.Run task.now.places bytes.now → ⊥ }
    ensures left_refused { result ≡ 1 → (log.new ≡ None)
        × Keeps (O.contents out.old) (O.contents out.new) }
    ensures left_stopped { result ≡ 2 → LeavesLog task.now.places task.now.json bytes.now
        (option_map string_bytes log.new) (O.contents out.old) (O.contents out.new) }
    ensures told { (result ≡ 1) ⊎ (result ≡ 2) → Tells task.now.explain task.now.places bytes.now
        result (E.contents err.old) (E.contents err.new) }
{
    *log = None;
    let done = print_logged(rt, alloc, task, bytes, out, log);
    if out.flush().is_err() {
        return tell(Fault::File, err);
    }
    match done {
        Ok(()) => 0,
        Err(fault) => refuse(alloc, task, bytes, source, bytes_of(log), fault, err),
    }
}

/// The bytes of a text, if there is one.
fn bytes_of(text: &Option<String>) -> &[u8] {
    match text {
        Some(text) => text.as_bytes(),
        None => b"",
    }
}

/// Runs a module, prints the lines of its report, and leaves the text of its log. Reports no fault.
fn print_logged<R: Threads + Wait + Sync, O: Write>(
    rt: &R,
    alloc: Global,
    task: &Task,
    bytes: &[u8],
    out: &mut O,
    log: &mut Option<String>,
) -> Result<(), Fault>
    requires { log.old ≡ None }
    ensures done { IfOk result (λ _. CanBeDone verb.Run task.now.places bytes.now) }
    ensures ended { OnOk result (LeavesEnded task.now.places task.now.json bytes.now
        (option_map string_bytes log.new) (O.contents out.old) (O.contents out.new)) }
    ensures refused { IfErr result (λ e. status_of e ≡ 1
        → CanBeDone verb.Run task.now.places bytes.now → ⊥) }
    ensures due { IfErr result (IsDue task.now.places bytes.now) }
    ensures refused_early { IfErr result (λ e. status_of e ≡ 1
        → (log.new ≡ None) × Keeps (O.contents out.old) (O.contents out.new)) }
    ensures stopped { IfErr result (λ e. status_of e ≡ 2
        → LeavesLog task.now.places task.now.json bytes.now (option_map string_bytes log.new)
        (O.contents out.old) (O.contents out.new)) }
{
    let verified = verified_in(alloc, bytes)?;
    let places = places_of(task.places, &verified);
    match run_threads(rt, alloc, &verified, places, task.limit, &Open) {
        Ok(report) => print_with_log(alloc, bytes, places, &report, task.json, out, log),
        Err(why) => {
            print_told_with_log(alloc, bytes, places, &why, task.json, out, log)?;
            Err(Fault::from(why))
        }
    }
}

/// The lines and the log that a fault's report has, if it has one.
fn print_told_with_log<O: Write>(
    alloc: Global,
    bytes: &[u8],
    places: u16,
    why: &WorkFault,
    json: bool,
    out: &mut O,
    log: &mut Option<String>,
) -> Result<(), Fault>
    requires { log.old ≡ None }
    ensures ok { OnOk result (Appends (O.contents out.old) (O.contents out.new)
        (all_lines json 0 (lines_told why.now))) }
    ensures log { OnOk result (HasLogTold bytes.now (option_map string_bytes log.new) places
        why.now) }
    ensures err { IfErr result (λ e. (e ≡ fault.File)
        ⊎ Keeps (O.contents out.old) (O.contents out.new)) }
    ensures none { IfErr result (λ _. log.new ≡ None) }
    ensures status { IfErr result (λ e. status_of e ≢ 1) }
{
    match why {
        WorkFault::Stop(_, _, report) | WorkFault::Turns(report) => {
            print_with_log(alloc, bytes, places, report, json, out, log)
        }
        _ => Ok(()),
    }
}

/// Prints the lines of a report, and then leaves the text of its log, for which there is memory before anything is printed.
fn print_with_log<O: Write>(
    alloc: Global,
    bytes: &[u8],
    places: u16,
    report: &RunReport,
    json: bool,
    out: &mut O,
    log: &mut Option<String>,
) -> Result<(), Fault>
    requires { log.old ≡ None }
    ensures ok { OnOk result (Appends (O.contents out.old) (O.contents out.new)
        (all_lines json 0 (lines_in report.now.outputs.items))) }
    ensures log { OnOk result (HasLogText bytes.now (option_map string_bytes log.new) places
        report.now.log.items) }
    ensures err { IfErr result (λ e. (e ≡ fault.File)
        ⊎ Keeps (O.contents out.old) (O.contents out.new)) }
    ensures none { IfErr result (λ _. log.new ≡ None) }
    ensures status { IfErr result (λ e. status_of e ≢ 1) }
{
    let text = write_log(alloc, &digest_of(bytes), places, &report.log)?;
    print_report(alloc, &report.outputs, json, out)?;
    *log = Some(text);
    Ok(())
}
