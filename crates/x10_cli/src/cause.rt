//! The command `explain`: what is known of a cause of faults.
ghost use Rattle.std.specs.Prelude.{◌≡◌, ◌⊎◌, ℕ, Option, false, IfErr, IfOk, OnOk, None};
ghost use Rattle.std.specs.Io.KnownBytes.{Keeps};
ghost use Rattle.x10_task.specs.declared.task.Verb.TheVariants as verb;
ghost use Rattle.x10_cli.specs.declared.fault.Fault.TheVariants as fault;
ghost use Rattle.x10_cli.specs.Answers.{CanBeDone, IsDue, Prints, status_of};

use crate::fault::Fault;
use std::io::Write;
use x10_faults::section;

/// Prints what the page of faults says of a cause, by its name; nothing where it has no such cause.
pub(crate) fn print_section<O: Write>(cause: &[u8], out: &mut O) -> Result<(), Fault>
    ensures done { IfOk result (λ _. CanBeDone verb.Explain None cause.now) }
    ensures printed { OnOk result (Prints verb.Explain false None cause.now (O.contents out.old)
        (O.contents out.new)) }
    ensures refused { IfErr result (λ e. status_of e ≡ 1 → CanBeDone verb.Explain None cause.now
        → ⊥) }
    ensures due { (asked : Option ℕ) → IfErr result (IsDue asked cause.now) }
    ensures kept { IfErr result (λ e. (e ≡ fault.File)
        ⊎ Keeps (O.contents out.old) (O.contents out.new)) }
{
    let text = section(str::from_utf8(cause).unwrap_or_default());
    out.write_all(text.unwrap_or_default().as_bytes())?;
    Ok(())
}
