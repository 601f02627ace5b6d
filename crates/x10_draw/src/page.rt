//! The whole picture as an SVG document.
ghost use Rattle.std.specs.Prelude.{◌≡◌, IfOk};
ghost use Rattle.std.specs.String.{string_bytes};
ghost use Rattle.x10_draw.specs.Pages.{IsPage};

use crate::counts::Counts;
use crate::elements::push_elements;
use crate::grid::Grid;
use crate::legend::push_legend;
use crate::parts::Part;
use crate::sketch::Sketch;
use crate::template::fill;
use std::alloc::{AllocError, Global};

/// How the document begins.
const HEAD: &str =
    "<?xml version=\"1.0\" encoding=\"UTF-8\"?>\n<svg xmlns=\"http://www.w3.org/2000/svg\" version=\"1.1\" ";

/// How it ends.
const TAIL: &str = "</svg>\n";

/// The width of a letter of the first line, and the space around that line.
const FIRST: u64 = 8;

const AROUND: u64 = 24;
/// From the legend to the first row: the places' names and the lanes' numbers are there.
const NAMES: u64 = 48;

/// The first line: the counts, and which events are shown if there were some before them.
const COUNTS: &str = "Places: $a. Steps: $b, frames taken in: $c, idle events: $d.";

const PART: &str =
    "Events $e to $f of the run. Places: $a. Steps: $b, frames taken in: $c, idle events: $d.";

/// The size, the title, the heads of arrows, the first line, and the legend.
const FRONT: &str =
    r##"width="$a" height="$b" viewBox="0 0 $a $b" font-family="monospace" font-size="10">
<title>The events of a run. Places: $c</title>
<defs>
<marker id="spawn" viewBox="0 0 8 8" refX="7" refY="4" markerUnits="userSpaceOnUse" markerWidth="8" markerHeight="8" orient="auto">
<path d="M0 1L8 4L0 7z" fill="#00795c"/>
</marker>
<marker id="shift" viewBox="0 0 8 8" refX="7" refY="4" markerUnits="userSpaceOnUse" markerWidth="9" markerHeight="9" orient="auto">
<path d="M0 1L8 4L0 7z" fill="#d55e00"/>
</marker>
<marker id="back" viewBox="0 0 8 8" refX="7" refY="4" markerUnits="userSpaceOnUse" markerWidth="8" markerHeight="8" orient="auto">
<path d="M0 1L8 4L0 7z" fill="#8f3a84"/>
</marker>
<marker id="report" viewBox="0 0 8 8" refX="7" refY="4" markerUnits="userSpaceOnUse" markerWidth="8" markerHeight="8" orient="auto">
<path d="M0 1L8 4L0 7z" fill="#777777"/>
</marker>
</defs>
<rect width="$a" height="$b" fill="#ffffff"/>
<text x="12" y="22" font-size="13" font-weight="bold">$A</text>
$B"##;

/// The picture of what was seen, with the counts of its events.
pub(crate) fn page(alloc: Global, counts: Counts, sketch: &Sketch) -> Result<String, AllocError>
    ensures { IfOk result (λ text. IsPage (string_bytes text)) }
{
    let body = body(alloc, counts, sketch)?;
    let mut text = String::from_str(alloc, HEAD)?;
    text.push_str(&body)?;
    text.push_str(TAIL)?;
    Ok(text)
}

/// Everything between the head and the tail.
fn body(alloc: Global, counts: Counts, sketch: &Sketch) -> Result<String, AllocError> {
    let line = first_line(alloc, sketch, counts)?;
    let letters = line.len() as u64;
    let least = FIRST.saturating_mul(letters).saturating_add(AROUND);
    let mut grid = Grid::new(alloc, &sketch.columns, least)?;
    let open = sketch.open_bars()?;
    body_of(alloc, sketch, &line, &mut grid, &open)
}

/// The first line: which events are shown, where there were some before them, and the counts.
fn first_line(alloc: Global, sketch: &Sketch, counts: Counts) -> Result<String, AllocError> {
    let Counts { steps, taken, idle } = counts;
    let places = sketch.columns.len() as u64;
    let first = sketch.before.saturating_add(1);
    let all = steps.saturating_add(taken).saturating_add(idle);
    let last = sketch.before.saturating_add(all);
    let template = if sketch.before > 0 { PART } else { COUNTS };
    let mut line = String::new(alloc);
    fill(
        &mut line,
        template,
        &[places, steps, taken, idle, first, last],
        &[],
    )?;
    Ok(line)
}

/// The same, where the columns are laid out, and the pieces of bars that haven't ended are known. The rows begin under the legend.
fn body_of(
    alloc: Global,
    sketch: &Sketch,
    line: &str,
    grid: &mut Grid,
    open: &[Part],
) -> Result<String, AllocError> {
    let mut seen = sketch.seen;
    for bar in open {
        seen.see(bar.shape);
    }
    let places = sketch.columns.len() as u64;
    let mut legend = String::new(alloc);
    let end = push_legend(&mut legend, seen, grid.width, places > 1, grid.shared)?;
    grid.top = end.saturating_add(NAMES);
    let height = grid.y(grid.bottom).saturating_add(AROUND);
    let mut out = String::new(alloc);
    fill(
        &mut out,
        FRONT,
        &[grid.width, height, places],
        &[line, &legend],
    )?;
    push_elements(&mut out, grid, sketch, open)?;
    Ok(out)
}
