//! What a place shows at a moment of a run, as text.
#![tactic(auto)]

mod frames;
mod heap;
mod json;
mod kinds;
pub mod laws;
mod lists;
mod parts;
mod stays;
mod values;

pub use frames::{push_frame, push_kind};
pub use heap::{push_export, push_object, push_rail};
pub use json::{push_comma, push_json};
pub use kinds::Kinds;
pub use parts::{Parts, parts_of};
pub use stays::{push_finish, push_stay};
pub use values::push_value;
