//! What docs/FAULTS.md says of each cause of a fault.
#![tactic(auto)]

mod asm;
mod frame;
mod image;
mod log;
mod run;
mod structure;
mod table;
mod verify;

pub use table::CAUSES;
use table::TEXTS;

/// What the page says of a cause, as it is printed, with its line ends; capitals and small letters are the same. Where several
/// parts of the page have a cause of this name, what each says.
pub fn section(cause: &str) -> Option<&'static str> {
    let at = CAUSES
        .iter()
        .position(|name| name.eq_ignore_ascii_case(cause))?;
    Some(TEXTS[at])
}
