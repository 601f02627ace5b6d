//! The command `check`: all that can be reported about a text or an image.
ghost use Rattle.std.specs.Prelude.{◌≡◌, ◌≢◌, ◌↔◌, ◌⊎◌, ℕ, List, Option, IfOk, IfErr, OnOk, IsTrue, None, false};
ghost use Rattle.std.specs.Io.KnownBytes.{Appends};
ghost use Rattle.x10_explain.specs.Verdicts.{Reports};
ghost use Rattle.x10_cli.specs.declared.fault.Fault.TheVariants as fault;
ghost use Rattle.x10_task.specs.declared.task.Verb.TheVariants as verb;
ghost use Rattle.x10_cli.specs.Answers.{CanBeDone, Prints, IsChecked, IsDue, RefusesFile, begins_as_image, of_refusal, status_of};

use crate::fault::Fault;
use std::alloc::Global;
use std::io::Write;
use x10_explain::{CheckFault, Checked, Form, check_image, check_text};
use x10_task::Task;

/// Prints the bounds of the module that a file is, or what is wrong with it.
pub fn print_check<O: Write>(
    alloc: Global,
    task: &Task,
    bytes: &[u8],
    out: &mut O,
) -> Result<(), Fault>
    ensures done { IfOk result (λ _. CanBeDone verb.Check None bytes.now) }
    ensures printed { OnOk result (Prints verb.Check false None bytes.now (O.contents out.old)
        (O.contents out.new)) }
    ensures refused { IfErr result (λ e. status_of e ≡ 1 → CanBeDone verb.Check None bytes.now
        → ⊥) }
    ensures due { (asked : Option ℕ) → IfErr result (IsDue asked bytes.now) }
    ensures reported { IfErr result (λ e. (e ≡ fault.File)
        ⊎ ((text : List ℕ) × Appends (O.contents out.old) (O.contents out.new) text)) }
{
    let report = report_of(alloc, bytes, form_of(task))?;
    out.write_all(report.text.as_bytes())?;
    match report.refusal {
        None => Ok(()),
        Some(refusal) => Err(fault_of(refusal)),
    }
}

/// Whether a file is taken as an image, by its first four bytes; otherwise it is taken as a text.
pub fn is_image(bytes: &[u8]) -> bool
    ensures { result ≡ begins_as_image bytes.now }
{
    bytes.starts_with(b"X10P")
}

/// How a task asks for its report.
fn form_of<'a>(task: &Task<'a>) -> Form<'a> {
    if task.json {
        Form::Json(task.input)
    } else {
        Form::Lines
    }
}

fn report_of(alloc: Global, bytes: &[u8], form: Form) -> Result<Checked, Fault>
    ensures verdict { IfOk result (λ report. IsTrue report.verified ↔ IsChecked bytes.now) }
    ensures why { IfOk result (λ report. Reports report.verified report.refusal
        (RefusesFile (begins_as_image bytes.now) bytes.now)) }
    ensures status { IfErr result (λ e. status_of e ≢ 1) }
    ensures due { (asked : Option ℕ) → IfErr result (IsDue asked bytes.now) }
{
    if is_image(bytes) {
        return Ok(check_image(alloc, bytes, form)?);
    }
    let Ok(text) = str::from_utf8(bytes) else {
        return Err(Fault::File);
    };
    Ok(check_text(alloc, text, form)?)
}

/// The fault of a file that isn't a verified module, as the other commands report it.
fn fault_of(refusal: CheckFault) -> Fault
    ensures { result ≡ of_refusal refusal }
{
    match refusal {
        CheckFault::Asm(fault) => Fault::from(fault),
        CheckFault::Image(fault) => Fault::from(fault),
        CheckFault::Verify(fault) => Fault::from(fault),
    }
}
