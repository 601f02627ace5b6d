//! The command `runs`: what a module prints in many random orders, each different output once.
ghost use Rattle.std.specs.Prelude.{true, ◌≡◌, ◌≢◌, ◌⊎◌, ℕ, List, IfOk, IfErr, OnOk};
ghost use Rattle.std.specs.Io.KnownBytes.{Appends, Keeps};
ghost use Rattle.x10_world.specs.Endings.{IsImageOf};
ghost use Rattle.x10_world.specs.Opening.{IsForbidden};
ghost use Rattle.x10_task.specs.declared.task.Verb.TheVariants as verb;
ghost use Rattle.x10_cli.specs.declared.fault.Fault.TheVariants as fault;
ghost use Rattle.x10_cli.specs.Answers.{CanBeDone, IsDue, PrintsRuns, places_for, status_of};
ghost use Rattle.x10_cli.specs.Runs.{FoundIn, IsOutput, end_text, findings_text, head_of, often};

use crate::commands::{opened, verified_in};
use crate::fault::Fault;
use crate::lines::print_outputs;
use std::alloc::Global;
use std::io::Write;
use x10_findings::{Finding, Findings};
use x10_schedule::{Schedule, run_by};
use x10_task::Task;
use x10_verify::Verified;
use x10_world::{Unfinished, World};

/// Runs a module by the random schedules of the seeds 1, 2 and so on, and prints each different output once, with how often it
/// came.
pub(crate) fn print_runs<O: Write>(
    alloc: Global,
    task: &Task,
    bytes: &[u8],
    out: &mut O,
) -> Result<(), Fault>
    ensures done { IfOk result (λ _. CanBeDone verb.Runs task.now.places bytes.now) }
    ensures printed { OnOk result (PrintsRuns task.now.places task.now.limit task.now.seeds
        bytes.now (O.contents out.old) (O.contents out.new)) }
    ensures refused { IfErr result (λ e. status_of e ≡ 1
        → CanBeDone verb.Runs task.now.places bytes.now → ⊥) }
    ensures due { IfErr result (IsDue task.now.places bytes.now) }
    ensures kept { IfErr result (λ e. (e ≡ fault.File)
        ⊎ Keeps (O.contents out.old) (O.contents out.new)) }
{
    let verified = verified_in(alloc, bytes)?;
    let findings = findings_of(alloc, task, &verified)?;
    print_findings(&findings, task.seeds, out)
}

/// What the runs of a module print. Where it doesn't run at so many places, there is no run.
fn findings_of<'a>(
    alloc: Global,
    task: &Task,
    verified: &'a Verified<'a>,
) -> Result<Findings, Fault>
    ensures found { IfOk result (FoundIn verified.now
        (places_for task.now.places verified.now) task.now.limit task.now.seeds) }
    ensures permitted { IfOk result (λ _. IsForbidden verified.now
        (places_for task.now.places verified.now) → ⊥) }
    ensures due { (bytes : List ℕ) → IsImageOf bytes verified.now
        → IfErr result (IsDue task.now.places bytes) }
    ensures refused { (bytes : List ℕ) → IsImageOf bytes verified.now
        → IfErr result (λ e. status_of e ≡ 1 → CanBeDone verb.Run task.now.places bytes → ⊥) }
{
    opened(alloc, task.places, verified)?;
    let mut findings = Findings::new(alloc);
    for before in 0..task.seeds {
        let seed = before + 1;
        let mut world = opened(alloc, task.places, verified)?;
        let (output, ended) = output_by(alloc, &mut world, seed, task.limit)?;
        findings.add(output, ended, seed)?;
    }
    Ok(findings)
}

/// What a world prints by the random schedule of a seed, with at most `limit` events, and whether the run ended.
fn output_by(
    alloc: Global,
    world: &mut World,
    seed: u64,
    limit: u64,
) -> Result<(Vec<u8>, bool), Fault>
    requires { world.old.stopped ≢ true }
    ensures run { IfOk result (λ r. IsOutput world.old limit r.1 r.0.items) }
    ensures status { IfErr result (λ e. status_of e ≢ 1) }
{
    let ended = match run_by(alloc, world, Schedule::Random(seed), limit) {
        Ok(()) => true,
        Err(Unfinished::Limit) => false,
        Err(why) => return Err(why.into()),
    };
    let mut output = Vec::new(alloc);
    match print_outputs(alloc, world, false, &mut output) {
        Ok(()) => Ok((output, ended)),
        Err(_) => Err(Fault::Memory),
    }
}

/// The outputs of some runs, each behind a line that says how often it came.
fn print_findings<O: Write>(findings: &Findings, runs: u64, out: &mut O) -> Result<(), Fault>
    ensures ok { OnOk result (Appends (O.contents out.old) (O.contents out.new)
        (findings_text runs findings.now)) }
    ensures err { IfErr result (λ e. e ≡ fault.File) }
{
    for finding in findings.list() {
        print_head(finding, runs, out)?;
        out.write_all(&finding.output)?;
    }
    let others = findings.others();
    if others > 0 {
        writeln!(out, "{others} of {runs} runs had other outputs")?;
    }
    Ok(())
}

/// The line that says how often an output came.
fn print_head<O: Write>(finding: &Finding, runs: u64, out: &mut O) -> Result<(), Fault>
    ensures ok { OnOk result (Appends (O.contents out.old) (O.contents out.new)
        (head_of runs finding.now)) }
    ensures err { IfErr result (λ e. e ≡ fault.File) }
{
    print_often(finding, runs, out)?;
    let end = end_of(finding.ended);
    writeln!(out, "{end}")?;
    Ok(())
}

/// How often an output came.
fn print_often<O: Write>(finding: &Finding, runs: u64, out: &mut O) -> Result<(), Fault>
    ensures ok { OnOk result (Appends (O.contents out.old) (O.contents out.new)
        (often runs finding.now)) }
    ensures err { IfErr result (λ e. e ≡ fault.File) }
{
    let (count, seed) = (finding.count, finding.seed);
    if count == runs {
        write!(out, "same output in all {runs} runs")?;
        return Ok(());
    }
    write!(out, "{count} of {runs} runs, the first by seed {seed}")?;
    Ok(())
}

/// How the line ends, where the runs ended or where they were at the limit.
fn end_of(ended: bool) -> &'static str
    ensures { result.now ≡ end_text ended }
{
    if ended { ":" } else { ", at the limit:" }
}
