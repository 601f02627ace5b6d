//! Outputs of runs, each once.
ghost use Rattle.std.specs.Prelude.{◌≡◌, ◌↔◌, [], Some, IfOk, IfErr, IsTrue, MatchOption, slice_get};
ghost use Rattle.x10_findings.specs.declared.findings.Finding.{Finding};
ghost use Rattle.x10_findings.specs.Findings.{IsAdded, IsNew, IsThis};

use std::alloc::{AllocError, Global};
use std::marker::Model;

/// How many outputs are kept at most; the runs with others are counted.
pub const MOST_KEPT: usize = 100;

/// An output that some runs had.
#[derive(Drop)]
pub struct Finding {
    /// What was printed.
    pub output: Vec<u8>,
    /// Whether these runs ended.
    pub ended: bool,
    /// How many runs had it.
    pub count: u64,
    /// The seed of the first of them.
    pub seed: u64,
}

impl Finding {
    /// Whether it is that of a run.
    fn is_this(&self, output: &[u8], ended: bool) -> bool
        ensures { IsTrue result ↔ IsThis self.now output.now ended }
    {
        self.ended == ended && self.output.as_slice() == output
    }
}

/// The outputs of some runs, in the order in which they were found first.
#[derive(Drop)]
pub struct Findings {
    list: Vec<Finding>,
    others: u64,
}

impl Model for Findings {
    ghost use Rattle.x10_findings.specs.Findings.{FindingsState};

    ghost Value = { FindingsState };

    ghost view = { λ a. record { found = a.list.items; others = a.others } };
}

impl Findings {
    /// None yet. Takes no memory.
    pub fn new(alloc: Global) -> Findings
        ensures { result ≡ record { found = []; others = 0 } }
    {
        Findings {
            list: Vec::new(alloc),
            others: 0,
        }
    }

    /// The outputs, in the order in which they were found first.
    pub fn list(&self) -> &[Finding]
        ensures { result.now ≡ self.now.found }
    {
        &self.list
    }

    /// How many runs had an output that wasn't kept.
    pub fn others(&self) -> u64
        ensures { result ≡ self.now.others }
    {
        self.others
    }

    /// Counts the output of a run with a seed. Linear in the outputs that were found; where memory is refused, nothing has
    /// changed.
    pub fn add(&mut self, output: Vec<u8>, ended: bool, seed: u64) -> Result<(), AllocError>
        ensures added { IfOk result (λ _. IsAdded self.old output ended seed self.new) }
        ensures refused { IfErr result (λ _. self.new ≡ self.old) }
    {
        if let Some(at) = self.position(&output, ended) {
            let count = &mut self.list[at].count;
            *count = count.saturating_add(1);
            return Ok(());
        }
        if self.list.len() >= MOST_KEPT {
            self.others = self.others.saturating_add(1);
            return Ok(());
        }
        self.list.push(Finding {
            output,
            ended,
            count: 1,
            seed,
        })?;
        Ok(())
    }

    /// Where an output is in the list.
    fn position(&self, output: &[u8], ended: bool) -> Option<usize>
        ensures { MatchOption result (IsNew self.now.found output.now ended)
            (λ at. (f : Finding) × (slice_get self.now.found at ≡ Some f)
            × IsThis f output.now ended) }
    {
        for at in 0..self.list.len() {
            if self.list[at].is_this(output, ended) {
                return Some(at);
            }
        }
        None
    }
}
