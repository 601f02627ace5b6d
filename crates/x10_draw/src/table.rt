//! The elements of a picture as data: shapes, tones and layers, and the templates of SVG 1.1. `template.rt` says how these are read.

/// What a shape shows. Its number is that of its row in each table.
#[derive(Clone, Copy, PartialEq, Eq)]
pub(crate) enum Shape {
    /// A stay makes steps.
    Working,
    /// It makes steps, inside an atomic region.
    Inside,
    /// It found that it may not go on yet: it is at a FINE, or another stay of its place is inside an atomic region.
    Waiting,
    /// It goes on at another place, by AT.
    Away,
    /// It goes on in another stay of its own place, by an AT to here.
    Beside,
    /// In the legend: a Spawn and an ASYNC, which are drawn alike.
    Started,
    /// A frame of the type, as the three after ASYNC.
    Spawn,
    /// A stay begins beside the one that started it.
    Async,
    Shift,
    Back,
    Report,
    /// A finish of a stay.
    Finish,
    /// A line of output.
    Print,
    /// The end of a stay.
    End,
}

/// How many shapes there are.
pub(crate) const SHAPES: usize = 14;

/// The attributes of each shape.
const STYLES: [&str; SHAPES] = [
    "stroke=\"#4a76b8\" stroke-width=\"6\"",
    "stroke=\"#17365f\" stroke-width=\"8\"",
    "stroke=\"#4a76b8\" stroke-width=\"6\" stroke-dasharray=\"1 3\"",
    "stroke=\"#4a76b8\" stroke-dasharray=\"4 3\"",
    "stroke=\"#4a76b8\" stroke-width=\"2\"",
    "stroke=\"#00795c\" stroke-width=\"1.5\" marker-end=\"url(#spawn)\"",
    "stroke=\"#00795c\" stroke-width=\"1.5\" marker-end=\"url(#spawn)\"",
    "stroke=\"#00795c\" stroke-width=\"1.5\" marker-end=\"url(#spawn)\"",
    "stroke=\"#d55e00\" stroke-width=\"2\" marker-end=\"url(#shift)\"",
    "stroke=\"#8f3a84\" stroke-width=\"1.5\" stroke-dasharray=\"7 3\" marker-end=\"url(#back)\"",
    "stroke=\"#777777\" stroke-dasharray=\"2 3\" marker-end=\"url(#report)\"",
    "fill=\"none\" stroke=\"#c08000\" stroke-width=\"1.5\"",
    "fill=\"#b00040\"",
    "stroke=\"#111111\" stroke-width=\"2\"",
];

/// The attributes of each shape. A caller sees only how many there are, so that its proof doesn't go through them.
pub(crate) fn styles() -> &'static [&'static str; SHAPES] {
    &STYLES
}

/// What each shape means; of a frame, its type.
const NAMES: [&str; SHAPES] = [
    "at work",
    "atomic region",
    "waits",
    "away, at another place",
    "goes on in another lane, by AT to here",
    "Spawn or ASYNC",
    "Spawn",
    "ASYNC",
    "Shift",
    "Back",
    "Report",
    "FINB to its FINE",
    "PRINT",
    "has ended here",
];

/// What each shape means; of a frame, its type.
pub(crate) fn names() -> &'static [&'static str; SHAPES] {
    &NAMES
}

/// The path of each shape in the legend, which is 14 pixels high, and its width.
pub(crate) fn path_of(shape: usize) -> (&'static str, u64) {
    match shape {
        0..=2 => ("M5 0V14", 10),
        3 | 4 => ("M5 0V14", 8),
        5..=10 => ("M0 7H24", 24),
        11 => ("M8 0H2V14H8", 10),
        12 => ("M6 2l5 5l-5 5l-5 -5z", 12),
        _ => ("M1 7H11", 12),
    }
}

/// What a label shows. Its number is that of its row in each table.
#[derive(Clone, Copy)]
pub(crate) enum Tone {
    /// A step that put nothing out.
    Quiet,
    /// A step or a delivery that others may see.
    Notable,
    /// A line of output, and one that the label cuts.
    Printed,
    Cut,
    /// Where a stay stands when the drawing begins: shown where each lane has its labels beside it.
    Standing,
    /// Several steps that share a row.
    Shortened,
}

impl Tone {
    /// The attributes of a label.
    pub(crate) fn style(self) -> &'static str {
        match self {
            Tone::Quiet | Tone::Standing => "fill=\"#666666\"",
            Tone::Notable => "fill=\"#111111\"",
            Tone::Printed | Tone::Cut => "fill=\"#b00040\"",
            Tone::Shortened => "fill=\"#666666\" font-style=\"italic\"",
        }
    }
}

/// What is drawn of all labels before anything else is.
#[derive(Clone, Copy)]
pub(crate) enum Layer {
    /// The line from a bar to the label of its event.
    Leader,
    /// A gap in the bars of a place, where steps share a row.
    Break,
    /// The mark of an event on its bar.
    Mark,
    /// A rectangle behind a label: an arrow passes behind it.
    Ground,
    /// What a label says.
    Words,
}

/// How the path of each layer begins, if it is one.
const PATHS: [&str; 5] = [
    "<path stroke=\"#c8c8c8\" d=\"M0 0",
    "<path stroke=\"#ffffff\" stroke-width=\"3\" d=\"M0 0",
    "",
    "<path fill=\"#ffffff\" d=\"M0 0",
    "",
];

impl Layer {
    /// How its path begins, if it is one.
    pub(crate) fn path(self) -> &'static str {
        PATHS[self as usize]
    }

    /// What it shows of a label, in a lane of a place whose lanes share the room for labels or don't. A label tells its lane, where
    /// they do.
    pub(crate) fn template(self, tone: Tone, lane: usize, shared: bool) -> &'static str {
        match (self, tone) {
            (Layer::Break, Tone::Shortened) => "M$i $bH$j",
            (Layer::Break, _) => "",
            (Layer::Leader, Tone::Shortened) | (_, Tone::Standing) if shared => "",
            (Layer::Leader | Layer::Mark, _) if lane == 0 => "",
            (Layer::Leader, _) => "M$a $bH$d",
            (Layer::Mark, Tone::Quiet) => "<path d=\"M$h $bh6\" stroke=\"#ffffff\"/>\n",
            (Layer::Mark, Tone::Notable) => CIRCLE,
            (Layer::Mark, Tone::Printed | Tone::Cut) => DIAMOND,
            (Layer::Mark, _) => "",
            (Layer::Ground, _) => "M$c $fh$ev10h-$ez",
            (Layer::Words, Tone::Shortened) => STEPS,
            (Layer::Words, Tone::Cut) if shared => CUT_AMONG,
            (Layer::Words, Tone::Cut) => CUT,
            (Layer::Words, _) if shared && lane > 0 => AMONG,
            (Layer::Words, _) => "<text x=\"$c\" y=\"$g\" $A>$B</text>\n",
        }
    }
}

const CIRCLE: &str = "<circle cx=\"$a\" cy=\"$b\" r=\"2\" fill=\"#ffffff\" stroke=\"#111111\"/>\n";

const DIAMOND: &str = "<path d=\"M$a $fl5 5l-5 5l-5 -5z\" fill=\"#b00040\"/>\n";

const STEPS: &str = "<text x=\"$c\" y=\"$g\" $A>\u{22EE} $k more</text>\n";

const CUT_AMONG: &str = "<text x=\"$c\" y=\"$g\" $A><title>$C</title>[$l] $B</text>\n";

const CUT: &str = "<text x=\"$c\" y=\"$g\" $A><title>$C</title>$B</text>\n";

const AMONG: &str = "<text x=\"$c\" y=\"$g\" $A>[$l] $B</text>\n";
