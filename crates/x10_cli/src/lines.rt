//! The lines of places, for people or as JSON.
ghost use Rattle.std.specs.Prelude.{false, true, ◌≡◌, ◌≢◌, ◌⊎◌, IfErr, IfOk, OnOk, map};
ghost use Rattle.std.specs.Io.KnownBytes.{Appends, Keeps};
ghost use Rattle.std.specs.String.{string_bytes};
ghost use Rattle.json.specs.Print.{quoted};
ghost use Rattle.x10_place.specs.StandsFor.{line_as};
ghost use Rattle.x10_world.specs.Endings.{lines_at, lines_in};
ghost use Rattle.x10_cli.specs.Lines.{all_lines, object_line, place_lines};
ghost use Rattle.x10_cli.specs.declared.fault.Fault.TheVariants as fault;
ghost use Rattle.x10_cli.specs.Answers.{status_of};

use crate::fault::Fault;
use crate::numbered::PlaceLines;
use std::alloc::{AllocError, Global};
use std::io::Write;
use x10_place::Line;
use x10_world::World;

/// Prints the lines of each place of a world. As JSON all of them or, where memory lacks, none.
pub(crate) fn print_outputs<O: Write>(
    alloc: Global,
    world: &World,
    json: bool,
    out: &mut O,
) -> Result<(), Fault>
    ensures ok { OnOk result (Appends (O.contents out.old) (O.contents out.new)
        (all_lines json 0 (lines_at world.now.places))) }
    ensures err { IfErr result (λ e. (e ≡ fault.File)
        ⊎ Keeps (O.contents out.old) (O.contents out.new)) }
    ensures status { IfErr result (λ e. status_of e ≢ 1) }
    ensures kind { IfErr result (λ e. (e ≡ fault.File) ⊎ (e ≡ fault.Memory)) }
{
    if !json {
        return write_outputs(alloc, world, json, out);
    }
    let mut text = Vec::new(alloc);
    if write_outputs(alloc, world, json, &mut text).is_err() {
        return Err(Fault::Memory);
    }
    out.write_all(&text)?;
    Ok(())
}

/// Prints the lines of each place of a report, in the same way.
pub(crate) fn print_report<O: Write>(
    alloc: Global,
    outputs: &[Vec<Line>],
    json: bool,
    out: &mut O,
) -> Result<(), Fault>
    ensures ok { OnOk result (Appends (O.contents out.old) (O.contents out.new)
        (all_lines json 0 (lines_in outputs.now))) }
    ensures err { IfErr result (λ e. (e ≡ fault.File)
        ⊎ Keeps (O.contents out.old) (O.contents out.new)) }
    ensures status { IfErr result (λ e. status_of e ≢ 1) }
    ensures kind { IfErr result (λ e. (e ≡ fault.File) ⊎ (e ≡ fault.Memory)) }
{
    if !json {
        return write_report(alloc, outputs, json, out);
    }
    let mut text = Vec::new(alloc);
    if write_report(alloc, outputs, json, &mut text).is_err() {
        return Err(Fault::Memory);
    }
    out.write_all(&text)?;
    Ok(())
}

/// Writes the lines of each place of a world. Where not as JSON, it fails for want of a file alone.
fn write_outputs<O: Write>(
    alloc: Global,
    world: &World,
    json: bool,
    out: &mut O,
) -> Result<(), Fault>
    ensures ok { OnOk result (Appends (O.contents out.old) (O.contents out.new)
        (all_lines json 0 (lines_at world.now.places))) }
    ensures err { json ≡ false → IfErr result (λ e. e ≡ fault.File) }
{
    for place in 0..world.count() {
        match world.output(place) {
            Some(lines) => write_lines(alloc, usize::from(place), lines, json, out)?,
            None => {}
        }
    }
    Ok(())
}

/// Writes the lines of each place of a report, from place 0 on.
fn write_report<O: Write>(
    alloc: Global,
    outputs: &[Vec<Line>],
    json: bool,
    out: &mut O,
) -> Result<(), Fault>
    ensures ok { OnOk result (Appends (O.contents out.old) (O.contents out.new)
        (all_lines json 0 (lines_in outputs.now))) }
    ensures err { json ≡ false → IfErr result (λ e. e ≡ fault.File) }
{
    for place in 0..outputs.len() {
        write_lines(alloc, place, &outputs[place], json, out)?;
    }
    Ok(())
}

/// Writes the lines of a place, each with its number.
fn write_lines<O: Write>(
    alloc: Global,
    place: usize,
    lines: &[Line],
    json: bool,
    out: &mut O,
) -> Result<(), Fault>
    ensures ok { OnOk result (Appends (O.contents out.old) (O.contents out.new)
        (place_lines json place (map line_as lines.now))) }
    ensures err { json ≡ false → IfErr result (λ e. e ≡ fault.File) }
{
    if json {
        write_objects(alloc, place, lines, out)
    } else {
        write_numbered(place, lines, out)
    }
}

/// Writes the lines of a place for people.
fn write_numbered<O: Write>(place: usize, lines: &[Line], out: &mut O) -> Result<(), Fault>
    ensures ok { OnOk result (Appends (O.contents out.old) (O.contents out.new)
        (place_lines false place (map line_as lines.now))) }
    ensures err { IfErr result (λ e. e ≡ fault.File) }
{
    let mut numbered = PlaceLines::new(place);
    for line in lines {
        match line {
            Line::Int(number) => numbered.write_int(*number, out)?,
            Line::Text(text) => numbered.write_text(text, out)?,
        }
    }
    Ok(())
}

/// Writes the lines of a place as JSON objects.
fn write_objects<O: Write>(
    alloc: Global,
    place: usize,
    lines: &[Line],
    out: &mut O,
) -> Result<(), Fault>
    ensures { OnOk result (Appends (O.contents out.old) (O.contents out.new)
        (place_lines true place (map line_as lines.now))) }
{
    for line in lines {
        write_object(alloc, place, line, out)?;
    }
    Ok(())
}

/// Writes a line of a place as a JSON object.
fn write_object<O: Write>(
    alloc: Global,
    place: usize,
    line: &Line,
    out: &mut O,
) -> Result<(), Fault>
    ensures ok { OnOk result (Appends (O.contents out.old) (O.contents out.new)
        (object_line place (line_as line.now))) }
{
    match line {
        Line::Int(number) => writeln!(out, "{{\"place\":{place},\"number\":{number}}}")?,
        Line::Text(text) => {
            let text = in_quotes(alloc, text)?;
            writeln!(out, "{{\"place\":{place},\"text\":{text}}}")?
        }
    }
    Ok(())
}

/// A text as JSON has it.
fn in_quotes(alloc: Global, text: &str) -> Result<String, AllocError>
    ensures { IfOk result (λ s. string_bytes s ≡ quoted text.now) }
{
    match serde_json::to_string(alloc, &text) {
        Ok(text) => Ok(text),
        Err(_) => Err(AllocError),
    }
}
