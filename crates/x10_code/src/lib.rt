//! The instructions of the machine, and their eight bytes.
#![tactic(auto)]

mod groups;
mod instr;
pub mod laws;
mod op;
mod operands;
mod rule;
mod spelling;
mod table;

pub use groups::Group;
pub use instr::{CodeFault, Instr};
pub use op::Op;
pub use operands::{Form, Operand};
pub use rule::{Effect, Outcome, Rule, goes_on, rule_of};
pub use spelling::{decode, decode_slice, encode, has_spelling};
pub use table::{code, form, group, name, op_named, op_with_code};
