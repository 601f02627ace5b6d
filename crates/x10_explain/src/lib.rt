//! Explanations for people: of a fault of the verifier, the assembler or the image reader, and the listing that shows what
//! the verifier knows.
#![tactic(auto)]

mod asm;
mod caret;
mod check;
mod commented;
mod faults;
mod faulty;
mod flaws;
mod head;
mod image;
mod index;
mod json;
mod known;
mod labels;
mod lack;
mod module;
mod names;
mod nearest;
mod order;
mod origin;
mod part;
mod quotes;
mod regions;
mod repair;
mod site;
mod source;
mod teller;
mod text;
mod verbose;
mod verify;

pub use asm::{explain_asm, explain_asm_in};
pub use check::{CheckFault, Checked, Form, check_image, check_text};
pub use image::explain_image;
pub use module::list_json;
pub use names::{asm_name, image_name, verify_name};
pub use source::Source;
pub use verbose::list_verbose;
pub use verify::{explain_verify, explain_verify_in};
