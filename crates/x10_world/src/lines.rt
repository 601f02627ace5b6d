//! Copying lines of output.
ghost use Rattle.std.specs.Prelude.{◌≡◌, ◌++◌, IfOk, map};
ghost use Rattle.x10_place.specs.StandsFor.{line_as};
ghost use Rattle.x10_world.specs.Endings.{lines_in, lines_at};

use std::alloc::{AllocError, Global};
use x10_place::{Line, Place};

/// A copy of a line.
fn copied(alloc: Global, line: &Line) -> Result<Line, AllocError>
    ensures { IfOk result (λ copy. line_as copy ≡ line_as line.now) }
{
    match line {
        Line::Int(number) => Ok(Line::Int(*number)),
        Line::Text(text) => Ok(Line::Text(String::from_str(alloc, text)?)),
    }
}

/// Pushes copies of lines.
pub fn push_lines(alloc: Global, lines: &[Line], to: &mut Vec<Line>) -> Result<(), AllocError>
    ensures { IfOk result
        (λ _. map line_as to.new.items ≡ map line_as to.old.items ++ map line_as lines.now) }
{
    for line in lines {
        let copy = copied(alloc, line)?;
        to.push(copy)?;
    }
    Ok(())
}

/// A copy of lines.
pub fn copied_lines(alloc: Global, lines: &[Line]) -> Result<Vec<Line>, AllocError>
    ensures { IfOk result (λ copy. map line_as copy.items ≡ map line_as lines.now) }
{
    let mut copy = Vec::with_capacity(alloc, lines.len())?;
    push_lines(alloc, lines, &mut copy)?;
    Ok(copy)
}

/// A copy of the lines of each place.
pub(crate) fn copied_outputs(alloc: Global, places: &[Place]) -> Result<Vec<Vec<Line>>, AllocError>
    ensures { IfOk result (λ outputs. lines_in outputs.items ≡ lines_at places.now) }
{
    let mut outputs = Vec::with_capacity(alloc, places.len())?;
    for place in places {
        let lines = copied_lines(alloc, place.output())?;
        outputs.push(lines)?;
    }
    Ok(outputs)
}
