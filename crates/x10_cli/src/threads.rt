//! The command `run` with a thread for each place.
ghost use Rattle.std.specs.Prelude.{true, ◌≡◌, ◌≢◌, ◌⊎◌, IfOk, IfErr, OnOk};
ghost use Rattle.std.specs.Io.KnownBytes.{Appends, Keeps};
ghost use Rattle.x10_cli.specs.Lines.{all_lines};
ghost use Rattle.x10_task.specs.declared.task.Verb.TheVariants as verb;
ghost use Rattle.x10_cli.specs.declared.fault.Fault.TheVariants as fault;
ghost use Rattle.x10_cli.specs.Answers.{CanBeDone, IsDue, LeavesStopped, Prints, lines_told, status_of};

use crate::commands::{places_of, verified_in};
use crate::fault::Fault;
use crate::lines::print_report;
use std::alloc::Global;
use std::io::Write;
use std::sync::Wait;
use std::thread::Threads;
use x10_task::Task;
use x10_workers::{Open, WorkFault, run_threads};

/// Runs a module with a thread for each place, and prints what its places printed; where the run stops, the lines that its
/// fault's report has. Nothing is printed before all threads have ended. May wait: that it returns isn't promised.
pub(crate) fn print_threaded<R: Threads + Wait + Sync, O: Write>(
    rt: &R,
    alloc: Global,
    task: &Task,
    bytes: &[u8],
    out: &mut O,
) -> Result<(), Fault>
    ensures done { IfOk result (λ _. CanBeDone verb.Run task.now.places bytes.now) }
    ensures printed { OnOk result (Prints verb.Run task.now.json task.now.places bytes.now
        (O.contents out.old) (O.contents out.new)) }
    ensures refused { IfErr result (λ e. status_of e ≡ 1
        → CanBeDone verb.Run task.now.places bytes.now → ⊥) }
    ensures due { IfErr result (IsDue task.now.places bytes.now) }
    ensures refused_early { IfErr result (λ e. status_of e ≡ 1
        → Keeps (O.contents out.old) (O.contents out.new)) }
    ensures stopped { IfErr result (λ e. status_of e ≡ 2
        → LeavesStopped verb.Run task.now.json true task.now.places bytes.now (O.contents out.old)
        (O.contents out.new)) }
{
    let verified = verified_in(alloc, bytes)?;
    let places = places_of(task.places, &verified);
    match run_threads(rt, alloc, &verified, places, task.limit, &Open) {
        Ok(report) => print_report(alloc, &report.outputs, task.json, out),
        Err(why) => {
            print_told(alloc, &why, task.json, out)?;
            Err(Fault::from(why))
        }
    }
}

/// The lines that a fault's report has, if it has one.
fn print_told<O: Write>(
    alloc: Global,
    why: &WorkFault,
    json: bool,
    out: &mut O,
) -> Result<(), Fault>
    ensures ok { OnOk result (Appends (O.contents out.old) (O.contents out.new)
        (all_lines json 0 (lines_told why.now))) }
    ensures err { IfErr result (λ e. (e ≡ fault.File)
        ⊎ Keeps (O.contents out.old) (O.contents out.new)) }
    ensures status { IfErr result (λ e. status_of e ≢ 1) }
{
    match why {
        WorkFault::Stop(_, _, report) | WorkFault::Turns(report) => {
            print_report(alloc, &report.outputs, json, out)
        }
        _ => Ok(()),
    }
}
