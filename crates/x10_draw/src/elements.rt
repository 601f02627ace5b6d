//! The elements of a picture, layer by layer.
use crate::grid::{Grid, Track, letters_wide, prefix_letters};
use crate::parts::{Label, Part, Point};
use crate::sketch::Sketch;
use crate::table::{Layer, Shape, Tone, names, styles};
use crate::template::{Pushed, fill};

/// From a bar to an arrow, and from a label to one.
const NEAR: u64 = 4;
/// From this number on every second lane has its number above it: others would have no room.
const NUMBERED: usize = 100;
/// The lifeline of one place, and of several.
const PLACE: &str = r##"<path d="M$a $cV$e" stroke="#999999" stroke-dasharray="6 4"/>
<text x="$b" y="$d" font-size="12" font-weight="bold">place $f</text>
"##;

const PLACES: &str = r##"<path d="M$a $cV$e" stroke="#999999" stroke-dasharray="6 4"/>
<text x="$b" y="$d" font-size="12" font-weight="bold">places $f to $g</text>
"##;
/// The number above a lane.
const NUMBER: &str = "<text x=\"$a\" y=\"$b\" fill=\"#4a76b8\" text-anchor=\"middle\">$c</text>\n";
/// A piece of a bar; an ASYNC or the end of a stay; a finish; and a frame.
const UPRIGHT: &str = "<path d=\"M$a $cV$d\" $A/>\n";

const LEVEL: &str = "<path d=\"M$a $cH$b\" $A/>\n";

const BRACKET: &str = "<path d=\"M$a $cH$eV$dH$b\" $A><title>finish $g.$f</title></path>\n";

const ARROW: &str =
    "<path d=\"M$a $cL$b $d\" fill=\"none\" $A><title>$B $f from place $g to place $h$C</title></path>\n";

/// Lifelines, bars with their brackets, arrows, and labels above all else.
pub(crate) fn push_elements(
    out: &mut String,
    grid: &Grid,
    sketch: &Sketch,
    open: &[Part],
) -> Pushed {
    let labels = &sketch.labels;
    for column in &sketch.columns {
        push_column(out, grid, column.place)?;
    }
    push_layer(out, grid, labels, Layer::Leader)?;
    push_parts(out, grid, labels, &sketch.bars)?;
    push_parts(out, grid, labels, open)?;
    push_layer(out, grid, labels, Layer::Break)?;
    push_parts(out, grid, labels, &sketch.finishes)?;
    push_parts(out, grid, labels, &sketch.ends)?;
    push_parts(out, grid, labels, &sketch.forks)?;
    push_parts(out, grid, labels, &sketch.arrows)?;
    push_layer(out, grid, labels, Layer::Mark)?;
    push_layer(out, grid, labels, Layer::Ground)?;
    push_layer(out, grid, labels, Layer::Words)
}

/// The lifeline of a place with its name, or those of all places for which its column stands, and the numbers of its lanes.
fn push_column(out: &mut String, grid: &Grid, place: u16) -> Pushed {
    let band = grid.band(place);
    let Some(more) = band.stands.checked_sub(1) else {
        return Ok(());
    };
    let (x, y) = (grid.track(place, 0).bar, grid.y(0));
    let (left, top) = (x.saturating_sub(8), y.saturating_sub(17));
    let (title, bottom) = (y.saturating_sub(23), grid.y(grid.bottom));
    let (first, last) = (u64::from(place), u64::from(place.saturating_add(more)));
    let template = if more == 0 { PLACE } else { PLACES };
    fill(
        out,
        template,
        &[x, left, top, title, bottom, first, last],
        &[],
    )?;
    for lane in 1..band.lanes {
        let key = lane.saturating_sub(1);
        if band.lanes > 2 && (key < NUMBERED || key % 2 == 0) {
            let x = grid.track(place, lane).bar;
            fill(out, NUMBER, &[x, y.saturating_sub(9), key as u64], &[])?;
        }
    }
    Ok(())
}

fn push_parts(out: &mut String, grid: &Grid, labels: &[Label], parts: &[Part]) -> Pushed {
    for part in parts {
        push_part(out, grid, labels, *part)?;
    }
    Ok(())
}

/// A part, by its shape. The bracket of an outer finish is farther from the bar, and one is open above or below where the finish
/// is.
fn push_part(out: &mut String, grid: &Grid, labels: &[Label], part: Part) -> Pushed {
    let (from, to) = (part.from, part.to);
    let open = to.row == 0;
    let bottom = if open { grid.bottom } else { to.row };
    let bar = grid.track(from.place, from.lane).bar;
    let tip = grid.track(to.place, to.lane).bar;
    let hook = bar.saturating_sub(4);
    let line = hook.saturating_sub(3 * (3 - part.depth.min(2)));
    let (template, a, b) = match part.shape {
        Shape::Finish => {
            let above = if from.row > 0 { hook } else { line };
            (BRACKET, above, if open { line } else { hook })
        }
        Shape::End => (LEVEL, bar.saturating_sub(5), bar.saturating_add(5)),
        Shape::Async | Shape::Spawn | Shape::Shift | Shape::Back | Shape::Report => {
            let template = match part.shape {
                Shape::Async => LEVEL,
                _ => ARROW,
            };
            (
                template,
                touch(grid, labels, from, tip),
                touch(grid, labels, to, bar),
            )
        }
        _ => (UPRIGHT, bar, tip),
    };
    let (c, d) = (grid.y(from.row), grid.y(bottom));
    let (f, g, h) = (part.number, u64::from(from.place), u64::from(to.place));
    let flying = if open { ", in flight at the end" } else { "" };
    let shape = part.shape as usize;
    let texts = [styles()[shape], names()[shape], flying];
    fill(out, template, &[a, b, c, d, line, f, g, h], &texts)
}

/// Where an arrow touches a point that goes between it and another position: beside the bar, or behind the label if that is on
/// the way.
fn touch(grid: &Grid, labels: &[Label], point: Point, other: u64) -> u64 {
    let track = grid.track(point.place, point.lane);
    if other < track.bar {
        return track.bar.saturating_sub(NEAR);
    }
    let end = match point.label {
        Some(at) if at < labels.len() && track.labels <= other => {
            track.labels.saturating_add(width_of(grid, &labels[at]))
        }
        _ => track.bar,
    };
    end.saturating_add(NEAR)
}

/// How wide a label is, with its lane, which is told where lanes share the room for labels.
fn width_of(grid: &Grid, label: &Label) -> u64 {
    let prefix = match label.tone {
        Tone::Shortened => 0,
        _ if grid.band(label.at.place).shared => prefix_letters(label.at.lane),
        _ => 0,
    };
    letters_wide(label.letters.saturating_add(prefix))
}

fn push_layer(out: &mut String, grid: &Grid, labels: &[Label], layer: Layer) -> Pushed {
    let path = layer.path();
    out.push_str(path)?;
    for label in labels {
        push_label(out, grid, label, layer)?;
    }
    out.push_str(if path.is_empty() { "" } else { "\"/>\n" })
}

/// What a layer shows of a label.
fn push_label(out: &mut String, grid: &Grid, label: &Label, layer: Layer) -> Pushed {
    let (place, lane) = (label.at.place, label.at.lane);
    let band = grid.band(place);
    let last = band.lanes.saturating_sub(1);
    let (i, j) = (grid.track(place, 1).bar, grid.track(place, last).bar);
    let (i, j) = (i.saturating_sub(5), j.saturating_add(5));
    let Track { bar, labels } = grid.track(place, lane);
    let (d, h) = (labels.saturating_sub(2), bar.saturating_sub(3));
    let (e, y) = (width_of(grid, label), grid.y(label.at.row));
    let (f, g) = (y.saturating_sub(5), y.saturating_add(3));
    let (k, l) = (label.steps, lane.saturating_sub(1) as u64);
    let template = layer.template(label.tone, lane, band.shared);
    let texts = three(label.tone.style(), &label.text, &label.full);
    fill(
        out,
        template,
        &[bar, y, labels, d, e, f, g, h, i, j, k, l],
        &texts,
    )
}

/// Three texts of one lifetime.
fn three<'t>(a: &'t str, b: &'t str, c: &'t str) -> [&'t str; 3] {
    [a, b, c]
}
