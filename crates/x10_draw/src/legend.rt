//! The legend of a picture: what each shape means that occurs in it.
ghost use Rattle.std.specs.Prelude.{◌<◌};

use crate::grid::letters_wide;
use crate::table::{SHAPES, Shape, names, path_of, styles};
use crate::template::fill;
use std::alloc::AllocError;

/// The left edge and the top of the legend.
const LEFT: u64 = 12;

const TOP: u64 = 32;
/// The space behind a shape, and that behind words.
const GAP: u64 = 6;

const SPACE: u64 = 18;
/// From a line to the next one: of shapes, and of words.
const SHAPES_LINE: u64 = 20;

const WORDS_LINE: u64 = 14;
/// A shape, a line of words, and all those.
const ITEM: &str =
    "<g transform=\"translate($a $b)\"><path d=\"$A\" $B/><text x=\"$c\" y=\"10\">$C</text></g>\n";

const LINE: &str = "<text x=\"12\" y=\"$a\">$A</text>\n";

const LINES: [&str; 5] = [
    "Time goes down: at a place by its events, between places by frames.",
    "Time goes down.",
    "2:7 ADD: instruction 7 of function 2, from 0. f2: function 2.",
    "[3] before a label: it belongs to lane 3.",
    "\u{22EE} n more: n steps in a row of one place that send nothing.",
];

/// What occurs in a picture.
#[derive(Clone, Copy)]
pub(crate) struct Seen {
    shapes: [bool; SHAPES],
    /// Whether steps share a row.
    pub(crate) shortened: bool,
}

/// Nothing.
pub(crate) const NOTHING: Seen = Seen {
    shapes: [false; SHAPES],
    shortened: false,
};

impl Seen {
    /// A shape occurs.
    pub(crate) fn see(&mut self, shape: Shape) {
        self.shapes[shape as usize] = true;
    }

    /// The shapes of the legend: one stands for Spawn and ASYNC, if both occur.
    fn items(self) -> [bool; SHAPES] {
        let mut items = self.shapes;
        if items[Shape::Spawn as usize] && items[Shape::Async as usize] {
            items[Shape::Started as usize] = true;
            items[Shape::Spawn as usize] = false;
            items[Shape::Async as usize] = false;
        }
        items
    }
}

/// Pushes a shape and what it means at a position, or on the next line where this one is full. Answers where the next shape is.
fn push_shape(
    out: &mut String,
    shape: usize,
    at: (u64, u64),
    width: u64,
) -> Result<(u64, u64), AllocError>
    requires { shape < 14 }
{
    let (mut x, mut y) = at;
    let (path, wide) = path_of(shape);
    let name = names()[shape];
    let words = wide.saturating_add(GAP);
    let wide = words.saturating_add(letters_wide(name.len()));
    if x > LEFT && x.saturating_add(wide).saturating_add(LEFT) > width {
        (x, y) = (LEFT, y.saturating_add(SHAPES_LINE));
    }
    fill(out, ITEM, &[x, y, words], &[path, styles()[shape], name])?;
    Ok((x.saturating_add(wide).saturating_add(SPACE), y))
}

/// Pushes the legend of what is seen, on a page of a width: of several places or of one, and of lanes that share the room for
/// labels or don't. Answers where it ends.
pub(crate) fn push_legend(
    out: &mut String,
    seen: Seen,
    width: u64,
    several: bool,
    shared: bool,
) -> Result<u64, AllocError> {
    let (mut x, mut y) = (LEFT, TOP);
    let items = seen.items();
    for shape in 0..SHAPES {
        if items[shape] {
            (x, y) = push_shape(out, shape, (x, y), width)?;
        }
    }
    if x > LEFT {
        y = y.saturating_add(SHAPES_LINE);
    }
    let shown = [several, !several, true, shared, seen.shortened];
    for line in 0..shown.len() {
        if shown[line] {
            fill(out, LINE, &[y.saturating_add(10)], &[LINES[line]])?;
            y = y.saturating_add(WORDS_LINE);
        }
    }
    Ok(y)
}
