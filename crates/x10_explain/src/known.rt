//! What is known of a function, instruction by instruction.
ghost use Rattle.std.specs.Prelude.{◌<◌, length};

use crate::faults::{Finding, next_finding};
use crate::labels::label_in;
use crate::lack::are_same;
use crate::site::Site;
use crate::source::Source;
use crate::teller::{Name, Teller};
use std::alloc::{AllocError, Global};
use x10_asm::{Statement, line_of, next_line};
use x10_bounds::{Shape, Spot, classify};
use x10_image::ImageView;
use x10_kinds::{Kind, Term};
use x10_verify::VerifyCause;

/// A label of a function: the number of the instruction that it stands before, and its name.
#[derive(Clone, Copy)]
struct Label<'a> {
    pc: usize,
    name: &'a str,
}

/// A function, and what is known of its instructions: how many steps are left at most before each, and whether it is inside an
/// atomic region, where the function's structure is right; and its labels, by rising number of the instruction.
#[derive(Drop)]
pub(crate) struct Known<'a> {
    pub(crate) finding: Finding,
    left: Vec<u64>,
    spots: Vec<Spot>,
    labels: Vec<Label<'a>>,
}

impl<'a> Known<'a> {
    /// Looks at the function after those whose bounds are given, and adds its bound to them; nothing where there is none.
    pub(crate) fn read(
        alloc: Global,
        image: &ImageView,
        source: Option<&Source<'a>>,
        bounds: &mut Vec<u64>,
    ) -> Result<Option<Known<'a>>, AllocError> {
        let Some(site) = Site::new(image, None, bounds.len()) else {
            return Ok(None);
        };
        let left = steps_left(alloc, &site, bounds)?;
        let spots = site.spots(alloc)?;
        let labels = labels_of(alloc, source, site.f)?;
        match next_finding(alloc, image, bounds)? {
            Some(finding) => Ok(Some(Known {
                finding,
                left,
                spots,
                labels,
            })),
            None => Ok(None),
        }
    }

    /// Whether an instruction is where no states are shown: after a fault of the flow, or anywhere where what is named isn't
    /// there, since the flow wasn't looked at then.
    pub(crate) fn is_past(&self, pc: usize) -> bool {
        match self.finding.flow.fault() {
            None => false,
            Some(fault) => fault.cause == VerifyCause::Index || pc > usize::from(fault.pc),
        }
    }

    /// How many steps are left at most before an instruction, where the function's structure is right.
    pub(crate) fn left_at(&self, pc: usize) -> Option<u64> {
        if self.finding.bound == 0 {
            return None;
        }
        self.left.get(pc).copied()
    }

    /// Whether an instruction is inside an atomic region.
    pub(crate) fn is_inside(&self, pc: usize) -> bool {
        self.spots.get(pc).is_some_and(|spot| spot.atomics > 0)
    }

    // How many labels stand before the instructions before one.
    fn first_at(&self, pc: usize) -> usize {
        self.labels.partition_point(|label| label.pc < pc)
    }

    /// Tells the names of the labels before an instruction: `, `turn``.
    pub(crate) fn tell_labels(&self, out: &mut Teller, pc: usize) {
        for label in self.labels.iter().skip(self.first_at(pc)) {
            if label.pc != pc {
                return;
            }
            out.say(", `{}`", &[Name::Word(label.name)]);
        }
    }

    /// Tells which label an instruction has that another one names; nothing where it has none.
    pub(crate) fn tell_target(&self, out: &mut Teller, pc: usize) {
        if let Some(label) = self.labels.get(self.first_at(pc))
            && label.pc == pc
        {
            out.say(
                "; instruction {} is `{}`",
                &[Name::Usize(pc), Name::Word(label.name)],
            );
        }
    }
}

// The labels of function `f` of a text, where there is one. One pass over the function's lines.
fn labels_of<'a>(
    alloc: Global,
    source: Option<&Source<'a>>,
    f: usize,
) -> Result<Vec<Label<'a>>, AllocError> {
    let mut labels = Vec::new(alloc);
    let mut pc: usize = 0;
    let mut rest = match source {
        Some(source) => source.from_function(f).unwrap_or(""),
        None => "",
    };
    for _ in 0..rest.len() {
        let Some((line, after)) = next_line(rest) else {
            break;
        };
        rest = after;
        match line_of(line).statement {
            Statement::End => break,
            Statement::Instruction(_) => pc = pc.saturating_add(1),
            _ => {}
        }
        if let Some(name) = label_in(line) {
            labels.push(Label { pc, name })?;
        }
    }
    Ok(labels)
}

/// The first term that a register of a kind is known to be the same place as: here, a place by its number, a register before it.
/// Only a place or a global reference is at one.
pub(crate) fn term_of(
    known: &Known,
    image: &ImageView,
    pc: usize,
    register: u8,
    kind: Kind,
) -> Option<Term> {
    if !matches!(kind, Kind::Place | Kind::GRef(_)) {
        return None;
    }
    let flow = &known.finding.flow;
    let this = Term::Reg(register);
    if are_same(flow, pc, this, Term::Here) {
        return Some(Term::Here);
    }
    for place in 0..image.least() {
        if are_same(flow, pc, this, Term::Place(place)) {
            return Some(Term::Place(place));
        }
    }
    for other in 0..register {
        if are_same(flow, pc, this, Term::Reg(other)) {
            return Some(Term::Reg(other));
        }
    }
    None
}

// ---- how many steps are left

fn number_at(numbers: &[u64], at: usize) -> u64 {
    numbers.get(at).copied().unwrap_or(0)
}

// For each instruction of a function, given the bounds of those before it, how many steps it takes at most from there to its
// end, where the loops around it are in their first turn; at instruction 0 this is the function's bound. Two passes. It says
// nothing about a function whose structure is broken.
fn steps_left(alloc: Global, site: &Site, bounds: &[u64]) -> Result<Vec<u64>, AllocError> {
    let mut left = vec![in alloc; 0_u64; site.len().saturating_add(1)]?;
    fill_backward(site, bounds, &mut left);
    add_turns(site, &mut left);
    Ok(left)
}

// From each instruction to the end, where the loops around it are in their last turn.
fn fill_backward(site: &Site, bounds: &[u64], left: &mut [u64]) {
    // of the loop in each slot, the steps from its end on
    let mut ends = [0_u64; 8];
    let mut after: u64 = 0;
    for pc in (0..site.len()).rev() {
        let Some(instr) = site.instr(pc) else {
            return;
        };
        let slot = usize::from(instr.a % 8);
        let mut total = after.saturating_add(1);
        match classify(instr.op) {
            Shape::Call => total = total.saturating_add(number_at(bounds, instr.x as usize)),
            Shape::EndOfLoop => ends[slot] = after,
            Shape::Loop => {
                let turn = after.saturating_sub(ends[slot]);
                let more = u64::from(instr.x).saturating_sub(1);
                total = total.saturating_add(more.saturating_mul(turn));
            }
            _ => {}
        }
        if let Some(steps) = left.get_mut(pc) {
            *steps = total;
        }
        after = total;
    }
}

// The turns that are left of the loops around each instruction.
fn add_turns(site: &Site, left: &mut [u64]) {
    let mut open = [0_u64; 8];
    let mut turns: u64 = 0;
    for pc in 0..site.len() {
        let Some(instr) = site.instr(pc) else {
            return;
        };
        let slot = usize::from(instr.a % 8);
        let (here, after) = (number_at(left, pc), number_at(left, pc.saturating_add(1)));
        if let Some(steps) = left.get_mut(pc) {
            *steps = here.saturating_add(turns);
        }
        match classify(instr.op) {
            Shape::Loop => {
                open[slot] = here.saturating_sub(after).saturating_sub(1);
                turns = turns.saturating_add(open[slot]);
            }
            Shape::EndOfLoop => turns = turns.saturating_sub(open[slot]),
            _ => {}
        }
    }
}
