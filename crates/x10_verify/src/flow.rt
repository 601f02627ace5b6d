//! What the verifier knows before each instruction of one function, for those who explain its answer.
ghost use Rattle.std.specs.Prelude.{◌≡◌, ◌↔◌, ◌<◌, ◌≤◌, IfOk, IsSome, IsTrue, length, Some};
ghost use Rattle.x10_image.specs.Parts.{code_at};
ghost use Rattle.x10_kinds.specs.Equations.{IsTerm};
ghost use Rattle.x10_model.specs.Modules.{Function};
ghost use Rattle.x10_model.specs.Ranges.{function_at};
ghost use Rattle.x10_verify.specs.Flows.{Judges, kind_of, same_of, states_of};
ghost use Rattle.x10_verify.specs.States.{IsFresh, stated, state_if};

use crate::fault::{VerifyCause, VerifyFault};
use crate::solver::solve;
use crate::states::{Entry, Mark, blank};
use crate::whole::first_out;
use std::alloc::{AllocError, Global};
use std::marker::Model;
use x10_image::ImageView;
use x10_kinds::{Kind, Term};

/// What the verifier knows of one function: its fault, if it has one, and the state before each instruction that the flow
/// reaches. Where there is a fault, these are the states that were known when it was found, that of the faulty instruction
/// among them. They are those of the verifier's own solver, so that they can't contradict its answer.
#[derive(Drop)]
pub struct Flow {
    fault: Option<VerifyFault>,
    table: Vec<Entry>,
}

impl Model for Flow {
    ghost use Rattle.x10_verify.specs.Flows.{FlowFacts};

    ghost Value = { FlowFacts };

    ghost view = { λ a. record { fault = a.fault; table = a.table.items } };
}

/// Looks at one function by itself: whether all that it names is there, and then the flow. The fault is the one that `verify`
/// reports where the module's structure holds and nothing before this function is at fault. What `verify` asks of structure
/// isn't looked at. The time is that of `verify` for this function alone; 0.4 kB for each instruction of it.
pub fn known_flow(alloc: Global, image: &ImageView, f: usize) -> Result<Flow, AllocError>
    requires { f < length image.now.functions }
    ensures { IfOk result (λ flow. (function : Function) → function_at image.now f ≡ Some function
        → Judges flow.fault image.now f function flow.table) }
{
    let mut table = blank(alloc, image.code_len(f))?;
    let fault = flow_fault(image, f, &mut table);
    Ok(Flow { fault, table })
}

// The fault of a function, whose states fill a table that has none.
fn flow_fault(image: &ImageView, f: usize, table: &mut Vec<Entry>) -> Option<VerifyFault>
    requires there { f < length image.now.functions }
    requires room { length (code_at image.now f) ≤ length table.old.items }
    requires fresh { IsFresh table.old.items }
    ensures { (function : Function) → function_at image.now f ≡ Some function
        → Judges result image.now f function table.new.items }
{
    image.fits();
    image.functions();
    if let Some(pc) = first_out(image, f) {
        return Some(VerifyFault {
            cause: VerifyCause::Index,
            function: f as u16,
            pc: pc as u16,
        });
    }
    match solve(image, f, table) {
        Ok(()) => None,
        Err(fault) => Some(VerifyFault {
            cause: fault.cause.named(),
            function: f as u16,
            pc: fault.pc as u16,
        }),
    }
}

impl Flow {
    /// The function's fault, if it has one. Constant time and no memory, like all that follow.
    pub fn fault(&self) -> Option<VerifyFault>
        ensures { result ≡ self.now.fault }
    {
        self.fault
    }

    /// Whether the flow reaches an instruction.
    pub fn is_reached(&self, pc: usize) -> bool
        ensures { IsTrue result ↔ IsSome (states_of self.now pc) }
    {
        is_reached(&self.table, pc)
    }

    /// The kind that a register is known to have before an instruction; none where it isn't known to be set, or where the flow
    /// doesn't reach the instruction.
    pub fn kind(&self, pc: usize, register: u8) -> Option<Kind>
        ensures { result ≡ kind_of (states_of self.now pc) register }
    {
        kind_in(&self.table, pc, register)
    }

    /// Whether two terms are known to be the same place before an instruction; false where the flow doesn't reach it.
    pub fn same(&self, pc: usize, one: Term, other: Term) -> bool
        requires one { IsTerm one }
        requires other { IsTerm other }
        ensures { result ≡ same_of (states_of self.now pc) one other }
    {
        are_same(&self.table, pc, one, other)
    }
}

fn is_reached(table: &Vec<Entry>, pc: usize) -> bool
    ensures { IsTrue result ↔ IsSome (stated table.now.items pc) }
{
    match table.get(pc) {
        None => false,
        Some(entry) => entry.mark != Mark::Unreached,
    }
}

fn kind_in(table: &Vec<Entry>, pc: usize, register: u8) -> Option<Kind>
    ensures { result ≡ kind_of (stated table.now.items pc) register }
{
    match table.get(pc) {
        None => None,
        Some(entry) => kind_before(entry, register),
    }
}

fn kind_before(entry: &Entry, register: u8) -> Option<Kind>
    ensures { result ≡ kind_of (state_if entry.now.mark entry.now.known) register }
{
    match entry.mark {
        Mark::Unreached => None,
        Mark::Waiting | Mark::Done => entry.known.kind(register),
    }
}

fn are_same(table: &Vec<Entry>, pc: usize, one: Term, other: Term) -> bool
    requires one { IsTerm one }
    requires other { IsTerm other }
    ensures { result ≡ same_of (stated table.now.items pc) one other }
{
    match table.get(pc) {
        None => false,
        Some(entry) => are_same_before(entry, one, other),
    }
}

fn are_same_before(entry: &Entry, one: Term, other: Term) -> bool
    requires one { IsTerm one }
    requires other { IsTerm other }
    ensures { result ≡ same_of (state_if entry.now.mark entry.now.known) one other }
{
    match entry.mark {
        Mark::Unreached => false,
        Mark::Waiting | Mark::Done => entry.known.homes.same(one, other),
    }
}
