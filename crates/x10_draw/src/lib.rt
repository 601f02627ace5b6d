//! The picture of a run: a space-time diagram of its events, as SVG.
#![tactic(auto)]

mod columns;
mod counts;
mod drawing;
mod elements;
mod escape;
mod grid;
mod known;
mod legend;
mod page;
mod parts;
mod rows;
mod sketch;
mod table;
mod template;
mod words;

pub use counts::Counts;
pub use drawing::Drawing;
pub use escape::push_escaped;
