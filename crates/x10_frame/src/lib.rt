//! Frames, which places exchange: reading them in place, and writing them.
#![tactic(auto)]

mod body;
mod fault;
mod fields;
mod graph;
mod head;
mod item;
mod known;
mod node_view;
mod nodes;
mod offsets;
mod parts;
mod report;
mod spell;
mod tables;
mod used;
mod values;
mod view;
mod writer;

pub use fault::FrameFault;
pub use head::{Head, What};
pub use item::Item;
pub use node_view::NodeView;
pub use nodes::{Nodes, NodesByVersion};
pub use report::Report;
pub use values::Values;
pub use view::FrameView;
pub use writer::{FrameWriter, Sizes, write_counts, write_report};
