//! The command `audit`: a logged run, made again.
ghost use Rattle.std.specs.Prelude.{true, ◌≡◌, ◌≢◌, ◌⊎◌, List, ℕ, IfOk, IfErr, OnOk};
ghost use Rattle.std.specs.Io.KnownBytes.{Keeps};
ghost use Rattle.x10_workers.specs.Plays.{IsPlayed};
ghost use Rattle.x10_world.specs.Endings.{IsImageOf, lines_in};
ghost use Rattle.x10_world.specs.Opening.{IsForbidden, IsOpenedWorld};
ghost use Rattle.x10_cli.specs.declared.fault.Fault.TheVariants as fault;
ghost use Rattle.x10_cli.specs.Answers.{IsStatus, IsVerifiedImage, status_of};
ghost use Rattle.x10_cli.specs.Logs.{HasAudited, IsAuditDue, ReadsLog, TellsAudit};
ghost use Rattle.x10_cli.specs.Shown.{IsLogOfRun};

use crate::commands::{refuse, tell, verified_in};
use crate::fault::Fault;
use crate::lines::print_report;
use std::alloc::Global;
use std::io::Write;
use x10_digest::is_digest_of;
use x10_log::{Log, read_log};
use x10_model::limits::MOST_PLACES;
use x10_place::Line;
use x10_task::Task;
use x10_verify::Verified;
use x10_workers::audit;
use x10_world::World;

/// Makes the turns of a log again, at as many places as it says, and prints what the places print: the lines are those of a run
/// of the module that has ended. `log` is the text of the log, and the other arguments are as for `execute`. Answers the exit
/// status: 0 done; 1 where the image or the log is refused, or the log isn't played to an end; 2 where memory is refused, or an
/// event of a turn; 4 where a write failed, or the log isn't UTF-8. At 1 and 2 nothing was printed. Takes time and memory linear
/// in the log and in the events of its turns, of which each turn has 80 at most.
pub fn audit_logged<O: Write, E: Write>(
    alloc: Global,
    task: &Task,
    bytes: &[u8],
    source: Option<&str>,
    log: &[u8],
    out: &mut O,
    err: &mut E,
) -> u8
    ensures status { IsStatus result }
    ensures done { result ≡ 0 → HasAudited task.now.json bytes.now log.now (O.contents out.old)
        (O.contents out.new) }
    ensures left { (result ≡ 1) ⊎ (result ≡ 2) → Keeps (O.contents out.old) (O.contents out.new) }
    ensures told { (result ≡ 1) ⊎ (result ≡ 2) → TellsAudit task.now.explain bytes.now log.now
        result (E.contents err.old) (E.contents err.new) }
{
    let done = print_audited(alloc, task, bytes, log, out);
    if out.flush().is_err() {
        return tell(Fault::File, err);
    }
    match done {
        Ok(()) => 0,
        Err(fault) => refuse(alloc, task, bytes, source, log, fault, err),
    }
}

/// Makes the turns of a log again, and prints what the places print. Reports no fault.
fn print_audited<O: Write>(
    alloc: Global,
    task: &Task,
    bytes: &[u8],
    log: &[u8],
    out: &mut O,
) -> Result<(), Fault>
    ensures done { OnOk result (HasAudited task.now.json bytes.now log.now (O.contents out.old)
        (O.contents out.new)) }
    ensures due { IfErr result (IsAuditDue bytes.now log.now) }
    ensures kept { IfErr result (λ e. (e ≡ fault.File)
        ⊎ Keeps (O.contents out.old) (O.contents out.new)) }
{
    let verified = verified_in(alloc, bytes)?;
    let read = log_in(alloc, bytes, log)?;
    let outputs = outputs_of(alloc, &verified, &read)?;
    print_report(alloc, &outputs, task.json, out)
}

/// The log that a text spells, if its turns are a run of a module that has ended.
pub(crate) fn played_log(
    alloc: Global,
    verified: &Verified,
    bytes: &[u8],
    log: &[u8],
) -> Result<Log, Fault>
    requires { IsImageOf bytes.now verified.now }
    ensures plays { IfOk result (λ read. IsLogOfRun bytes.now log.now verified.now read.places
        read.turns.items) }
    ensures due { IfErr result (IsAuditDue bytes.now log.now) }
{
    let read = log_in(alloc, bytes, log)?;
    outputs_of(alloc, verified, &read)?;
    Ok(read)
}

/// The world in which the turns of a log that was played are made once more.
pub(crate) fn world_again<'a>(
    alloc: Global,
    verified: &'a Verified<'a>,
    places: u16,
) -> Result<World<'a>, Fault>
    ensures opened { IfOk result (IsOpenedWorld verified.now places) }
    ensures goes { IfOk result (λ world. world.stopped ≢ true) }
    ensures err { IfErr result (λ e. e ≡ fault.Memory) }
{
    match World::open(alloc, verified, places) {
        Ok(world) => Ok(world),
        Err(_) => Err(Fault::Memory),
    }
}

/// The log that a text spells, if it is one of an image.
fn log_in(alloc: Global, bytes: &[u8], log: &[u8]) -> Result<Log, Fault>
    ensures reads { IfOk result (ReadsLog bytes.now log.now) }
    ensures due { IfErr result (IsAuditDue bytes.now log.now) }
{
    let Ok(text) = str::from_utf8(log) else {
        return Err(Fault::File);
    };
    let read = read_log(alloc, text)?;
    if !is_digest_of(bytes, &read.digest) {
        return Err(Fault::LogImage);
    }
    Ok(read)
}

/// Whether a module runs at a number of places.
fn permit(verified: &Verified, places: u16) -> Result<(), Fault>
    ensures ok { IfOk result (λ _. IsForbidden verified.now places → ⊥) }
    ensures err { IfErr result (λ e. (e ≡ fault.Places) × IsForbidden verified.now places) }
{
    if places < verified.image().least() || places > MOST_PLACES {
        return Err(Fault::Places);
    }
    Ok(())
}

/// What the places of a module print by the turns of a log.
fn outputs_of(alloc: Global, verified: &Verified, log: &Log) -> Result<Vec<Vec<Line>>, Fault>
    ensures plays { IfOk result (λ outputs. IsPlayed verified.now log.now.places
        log.now.turns.items (lines_in outputs.items)) }
    ensures due { (bytes text : List ℕ) → IsImageOf bytes verified.now
        → ReadsLog bytes text log.now → IfErr result (IsAuditDue bytes text) }
{
    permit(verified, log.places)?;
    Ok(audit(alloc, verified, log.places, &log.turns)?)
}
