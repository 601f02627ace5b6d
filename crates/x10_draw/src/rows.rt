//! The rows of a place's events. The longer a picture grows, the more steps share a row.
ghost use Rattle.std.specs.Prelude.{◌≡◌, ◌≤◌, ◌<◌, ◌-◌, ◌^◌};

/// Up to this row as many quiet steps are shown as a picture shows; then two.
const DENSE: u64 = 96;
/// Up to this row a few quiet steps are shown, and all others; from there on steps share rows.
const LONG: u64 = 160;
/// How many rows there are before twice as many steps share one.
const STRETCH: u64 = 16;

/// The row of a step.
#[derive(Clone, Copy)]
pub(crate) enum Row {
    /// A row of its own.
    Own(u64),
    /// A new row, which it shares with the steps after it.
    Opened(u64),
    /// The row of the steps before it, and the number of their label.
    Shared(u64, usize),
}

impl Row {
    /// The number of the row.
    pub(crate) fn number(self) -> u64 {
        match self {
            Row::Own(row) | Row::Opened(row) | Row::Shared(row, _) => row,
        }
    }
}

/// The rows of a place so far.
#[derive(Clone, Copy)]
pub(crate) struct Rows {
    /// The last row.
    pub(crate) last: u64,
    /// How many quiet steps in a row have rows of their own in a short picture, and how many did since the last other step.
    shown: u64,
    quiet: u64,
    /// Whether the last row is one that steps share, the number of its label, and how many of them aren't quiet.
    shared: bool,
    label: usize,
    local: u64,
    /// How many steps that aren't quiet may share a row, and how many rows did since that grew.
    most: u64,
    opened: u64,
}

impl Rows {
    /// Before the first row.
    pub(crate) fn new(shown: u64) -> Rows {
        Rows {
            last: 0,
            shown,
            quiet: 0,
            shared: false,
            label: 0,
            local: 0,
            most: 2,
            opened: 0,
        }
    }

    /// A new row, below all rows so far of the place and below another one.
    pub(crate) fn next(&mut self, below: u64) -> u64
        ensures last { self.new.last ≡ result }
        ensures below { self.old.last < 2 ^ 64 - 1 → self.old.last < result }
        ensures other { below < 2 ^ 64 - 1 → below < result }
        ensures kept { self.old.last ≤ self.new.last }
    {
        self.quiet = 0;
        self.shared = false;
        self.last = self.last.max(below).saturating_add(1);
        self.last
    }

    /// A new row that steps share, with the number of its label: one of them is local, or none.
    fn open(&mut self, local: u64, label: usize) -> Row
        ensures { self.old.last ≤ self.new.last }
    {
        self.shared = true;
        self.label = label;
        self.local = local;
        self.last = self.last.saturating_add(1);
        Row::Opened(self.last)
    }

    /// The row of a step that its own stay alone can notice: its own for the first few in a row, and one for all that follow.
    fn quiet(&mut self, label: usize) -> Row
        ensures { self.old.last ≤ self.new.last }
    {
        let shown = match self.last {
            0..DENSE => self.shown,
            DENSE..LONG => self.shown.min(2),
            _ => 0,
        };
        if self.shared {
            return Row::Shared(self.last, self.label);
        }
        if self.quiet >= shown {
            return self.open(0, label);
        }
        self.quiet = self.quiet.saturating_add(1);
        self.last = self.last.saturating_add(1);
        Row::Own(self.last)
    }

    /// The row of a step: if it is quiet, its own stay alone can notice it, and if it is local, stays of its place alone. A row
    /// that steps share gets the label with a number.
    pub(crate) fn step(&mut self, quiet: bool, local: bool, label: usize) -> Row
        ensures { self.old.last ≤ self.new.last }
    {
        if quiet {
            return self.quiet(label);
        }
        if local {
            return self.local(label);
        }
        Row::Own(self.next(0))
    }

    /// The row of a step that stays of its place alone can notice: its own, unless the picture is long.
    fn local(&mut self, label: usize) -> Row
        ensures { self.old.last ≤ self.new.last }
    {
        if self.last < LONG {
            return Row::Own(self.next(0));
        }
        if self.shared && self.local < self.most {
            self.local = self.local.saturating_add(1);
            return Row::Shared(self.last, self.label);
        }
        self.opened = self.opened.saturating_add(1);
        if self.opened >= STRETCH {
            self.opened = 0;
            self.most = self.most.saturating_mul(2);
        }
        self.open(1, label)
    }
}
