ghost use Rattle.std.specs.Prelude.{◌≡◌, None};

/// What a command does with a file.
#[derive(Clone, Copy, Debug, PartialEq, Eq)]
pub enum Verb {
    /// Assemble a text into an image.
    Asm,
    /// Print the canonical listing of an image.
    List,
    /// Print the listing with what the verifier knows at each instruction.
    ListVerbose,
    /// Report all faults of a text or an image that can be reported by themselves, or the bound of each function.
    Check,
    /// Verify it, and report how many functions it has and the bound of its entry function.
    Verify,
    /// Report the bound of each function.
    Bounds,
    /// Verify it, run it, and print what it prints.
    Run,
    /// Verify it, run it by many seeds, and print each different output once.
    Runs,
    /// Verify it, make the turns of a log again, and print what the places print.
    Audit,
    /// Verify it, run it, and print what happens, event by event.
    Trace,
    /// The same, with notes for people behind the lines of each event.
    TraceVerbose,
    /// Verify it, run it, and draw what happens.
    Draw,
    /// Verify it, run it, and write a page that shows what happens, step by step.
    DrawPage,
    /// Print what a frame says, of a file or in hexadecimal in place of a file's name.
    Frame,
    /// Print what is known of a cause of faults. Its name stands in place of a file's.
    Explain,
}

/// In which order the events of a run happen.
#[derive(Clone, Copy, Debug, PartialEq, Eq)]
pub enum Schedule {
    /// Round after round.
    Rounds,
    /// Each drawn from all that can happen.
    Random,
    /// Activities before frames, and of these the one that was put out first.
    Oldest,
    /// The same, but the one that was put out last.
    Newest,
}

/// Which events of a run are shown, by their numbers: the first one of a run is 1.
#[derive(Clone, Copy, Debug, PartialEq, Eq)]
pub struct Window {
    /// The first one that is shown.
    pub from: u64,
    /// The last one that is shown, and that is made; left out, the last one of the run.
    pub to: Option<u64>,
}

impl Window {
    /// All events of a run.
    pub fn all() -> Window
        ensures { result ≡ record { from = 1; to = None } }
    {
        Window { from: 1, to: None }
    }
}

/// Whether what is said about a fault has colors.
#[derive(Clone, Copy, Debug, PartialEq, Eq)]
pub enum Color {
    /// On a terminal, unless the environment says otherwise.
    Auto,
    Always,
    Never,
}

/// What the words of a command line ask for.
#[derive(Clone, Copy, Debug, PartialEq, Eq)]
pub struct Task<'a> {
    pub verb: Verb,
    /// The name of the file to read.
    pub input: &'a str,
    /// The name of the file to write, only for `asm` and `draw`.
    pub output: Option<&'a str>,
    /// The name of the log: the file to write for `run` with threads, where there is one; the file to read for `audit`, and for
    /// `trace` and `draw` of a run that was logged.
    pub log: Option<&'a str>,
    /// How many places; left out, the module's least number. For a frame it isn't left out.
    pub places: Option<u16>,
    /// How many events at most, including those in which nothing moves; with threads, how many turns of workers.
    pub limit: u64,
    /// In which order the events of a run happen; with threads, Rounds, which doesn't matter then.
    pub schedule: Schedule,
    /// Where the generator of a random schedule begins.
    pub seed: Option<u64>,
    /// How many runs there are, by the seeds 1, 2 and so on. No other verb than `Runs` looks at it.
    pub seeds: u64,
    /// Which events are shown. Only for `trace` and `draw`.
    pub window: Window,
    /// Whether a run has a thread for each place. No other verb looks at it.
    pub threads: bool,
    /// Whether what is printed is JSON, for other programs. Only for `list`, `check`, `run` and `audit`.
    pub json: bool,
    /// Whether it is told what was in a run, besides what it prints. Only for `run` without threads.
    pub stats: bool,
    /// Whether each activity is told there too. Only beside `stats`.
    pub activities: bool,
    /// Whether more is said about a fault than its line.
    pub explain: bool,
    /// Whether that has colors.
    pub color: Color,
}
