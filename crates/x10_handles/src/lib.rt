//! Handles: what a program that isn't Rattle holds of a verified module, of a place and of a world, between two calls.
#![tactic(auto)]

mod acts;
mod handle;
mod held;
mod inside;
mod loose;
mod made;
mod module;
mod opening;
mod run;
mod station;
mod unopened;
mod worlds;

pub use acts::{closed, next_key, receive, step};
pub use handle::Handle;
pub use inside::Inside;
pub use made::{close, is_open, open_module, open_place};
pub use module::Module;
pub use opening::{put, take};
pub use run::Run;
pub use station::Station;
pub use unopened::Unopened;
pub use worlds::{happen, has_ended, next_frame, next_key_at, open_world};
