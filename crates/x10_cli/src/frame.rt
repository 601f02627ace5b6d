//! The command `frame`: what a frame says.
ghost use Rattle.std.specs.Prelude.{◌≡◌, ◌⊎◌, false, IfErr, IfOk, OnOk, Some, option_map};
ghost use Rattle.std.specs.Io.KnownBytes.{Keeps};
ghost use Rattle.std.specs.String.{string_bytes};
ghost use Rattle.x10_frame_lines.specs.Lines.{IsTold};
ghost use Rattle.x10_task.specs.declared.task.Verb.TheVariants as verb;
ghost use Rattle.x10_cli.specs.declared.fault.Fault.TheVariants as fault;
ghost use Rattle.x10_cli.specs.Answers.{CanBeDone, IsDue, Prints, status_of};
ghost use Rattle.x10_cli.specs.Frames.{digits_of};

use crate::fault::Fault;
use hex::FromHexError;
use std::alloc::{AllocError, Global};
use std::io::Write;
use x10_frame_lines::frame_lines;

/// Prints the lines of a frame, where there are as many places as the task says.
pub(crate) fn print_frame<O: Write>(
    alloc: Global,
    places: Option<u16>,
    bytes: &[u8],
    out: &mut O,
) -> Result<(), Fault>
    ensures done { IfOk result (λ _. CanBeDone verb.Frame places bytes.now) }
    ensures printed { OnOk result (Prints verb.Frame false places bytes.now (O.contents out.old)
        (O.contents out.new)) }
    ensures refused { IfErr result (λ e. status_of e ≡ 1 → CanBeDone verb.Frame places bytes.now
        → ⊥) }
    ensures due { IfErr result (IsDue places bytes.now) }
    ensures kept { IfErr result (λ e. (e ≡ fault.File)
        ⊎ Keeps (O.contents out.old) (O.contents out.new)) }
{
    let Some(places) = places else {
        return Err(Fault::File);
    };
    let text = lines_of(alloc, places, bytes)?;
    out.write_all(text.as_bytes())?;
    Ok(())
}

/// The lines of a frame where there are so many places.
fn lines_of(alloc: Global, places: u16, bytes: &[u8]) -> Result<String, Fault>
    ensures told { IfOk result (λ text. IsTold places bytes.now (string_bytes text)) }
    ensures done { IfOk result (λ _. CanBeDone verb.Frame (Some places) bytes.now) }
    ensures refused { IfErr result (λ e. status_of e ≡ 1
        → CanBeDone verb.Frame (Some places) bytes.now → ⊥) }
    ensures due { IfErr result (IsDue (Some places) bytes.now) }
{
    Ok(frame_lines(alloc, bytes, places)?)
}

/// The bytes that a word of hexadecimal digits spells, two digits for each; none where the word is empty or something else.
/// Capitals and small letters are the same.
pub fn digits_in(alloc: Global, word: &str) -> Result<Option<Vec<u8>>, AllocError>
    ensures { IfOk result (λ found. option_map (λ v. v.items) found ≡ digits_of word.now) }
{
    if word.is_empty() {
        return Ok(None);
    }
    match hex::decode(alloc, word.as_bytes()) {
        Ok(bytes) => Ok(Some(bytes)),
        Err(FromHexError::OutOfMemory) => Err(AllocError),
        Err(_) => Ok(None),
    }
}
