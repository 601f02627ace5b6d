//! Reading bytes: numbers and parts at the front of them, and by their positions.
#![tactic(auto)]

mod fault;
mod front;
mod offsets;

pub use fault::ReadFault;
pub use front::{byte_at, has, i64_at, past, past_text, u16_at, u32_at};
pub use offsets::{bytes_from, i64_in, u16_in, u32_in};
