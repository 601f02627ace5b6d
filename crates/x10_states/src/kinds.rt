//! What the verifier knows of the registers of all functions.
ghost use Rattle.std.specs.Prelude.{◌≡◌, ◌<◌, IfOk, Some, length};
ghost use Rattle.x10_model.specs.Modules.{Function};
ghost use Rattle.x10_model.specs.Ranges.{function_at};
ghost use Rattle.x10_states.specs.Kinds.{AreLeast, known_kind, known_registers};
ghost use Rattle.x10_verify.specs.Flows.{states_of};
ghost use Rattle.x10_verify.specs.Least.{IsLeast};

use std::alloc::{AllocError, Global};
use std::marker::Model;
use x10_kinds::Kind;
use x10_verify::{Flow, Verified, known_flow};

/// The kind that each register is known to have before each instruction of each function.
#[derive(Drop)]
pub struct Kinds {
    flows: Vec<Flow>,
}

impl Model for Kinds {
    ghost use Rattle.std.specs.Prelude.{List};
    ghost use Rattle.x10_verify.specs.Flows.{FlowFacts};

    ghost Value = { List FlowFacts };

    ghost view = { λ a. a.flows.items };
}

/// What the verifier knows of one function: its least assignment.
fn least_flow(alloc: Global, verified: &Verified, f: usize) -> Result<Flow, AllocError>
    requires { f < length verified.now.program.functions }
    ensures { IfOk result (λ flow. (function : Function)
        → function_at verified.now.program f ≡ Some function
        → IsLeast verified.now.program function (states_of flow)) }
{
    verified.certificate();
    known_flow(alloc, verified.image(), f)
}

impl Kinds {
    /// The least assignment of each function: what is known of a register is known in every consistent assignment. Takes the time
    /// that `verify` takes for the flow, and 0.4 kB for each instruction of all functions.
    pub fn new(alloc: Global, verified: &Verified) -> Result<Kinds, AllocError>
        ensures { IfOk result (AreLeast verified.now.program) }
    {
        let count = verified.image().functions();
        let mut flows = Vec::with_capacity(alloc, count)?;
        for f in 0..count {
            flows.push(least_flow(alloc, verified, f)?)?;
        }
        Ok(Kinds { flows })
    }

    /// The kind that a register is known to have before an instruction of a function; none where it isn't known to be set.
    /// Constant time.
    pub fn kind(&self, function: u16, pc: u16, register: u8) -> Option<Kind>
        ensures { result ≡ known_kind self.now function pc register }
    {
        match self.flows.get(usize::from(function)) {
            Some(flow) => flow.kind(usize::from(pc), register),
            None => None,
        }
    }

    /// The registers of which the kind is known before an instruction of a function, by rising number.
    #[tactic(auto, unfolding(crate::specs::Kinds::known_registers))]
    pub fn registers(&self, alloc: Global, function: u16, pc: u16) -> Result<Vec<u8>, AllocError>
        ensures { IfOk result (λ registers. registers.items
            ≡ known_registers (known_kind self.now function pc)) }
    {
        let mut registers = Vec::new(alloc);
        for register in 0..64 {
            if self.kind(function, pc, register).is_some() {
                registers.push(register)?;
            }
        }
        Ok(registers)
    }
}
