//! The machine as a static library for programs in C, and in languages that call C: calls that keep nothing, and
//! calls about handles. The header `include/burjeeg.h` declares them.
#![tactic(auto)]

mod answer;
mod calls;
mod handles;
mod kinds;
mod modules;
mod null;
mod numbers;
mod places;
mod showing;
mod work;
mod world_views;
mod worlds;

pub use calls::{
    burjeeg_assemble, burjeeg_bounds, burjeeg_check, burjeeg_fault_line, burjeeg_list, burjeeg_run,
    burjeeg_verify,
};
pub use modules::{burjeeg_module_free, burjeeg_module_new};
pub use numbers::FaultNumbers;
pub use places::{
    burjeeg_place_closed, burjeeg_place_free, burjeeg_place_line, burjeeg_place_new,
    burjeeg_place_next_key, burjeeg_place_receive, burjeeg_place_sent, burjeeg_place_step,
};
pub use worlds::{
    burjeeg_world_closed, burjeeg_world_deliver, burjeeg_world_frame, burjeeg_world_free,
    burjeeg_world_line, burjeeg_world_new, burjeeg_world_next_frame, burjeeg_world_next_key,
    burjeeg_world_step,
};
