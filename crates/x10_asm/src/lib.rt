//! Assembler text: the listing of an image, and the image that a text spells.
#![tactic(auto)]

mod assembling;
mod escape;
mod fault;
mod flaws;
mod kind;
mod label;
pub mod laws;
mod lines;
mod listing;
mod literal;
mod number;
mod operand;
mod source;
mod split;
mod stage;
mod statement;
mod words;

pub use assembling::{assemble, classes_in, version_in};
pub use escape::push_quoted;
pub use fault::{AsmCause, AsmFault};
pub use flaws::{Flaw, flaw_in, flaw_of};
pub use listing::{
    list, push_class, push_end, push_entry, push_func, push_instruction, push_int_line,
    push_places, push_text_line, push_version,
};
pub use literal::scan_quoted;
pub use number::number_of;
pub use split::{next_line, next_word};
pub use statement::{Line, Statement, line_of};
pub use words::{push_int, push_kind, push_number, push_result, push_slot, push_word};
