//! Images of modules: reading them in place, and writing them.
#![tactic(auto)]

mod class_view;
mod fault;
mod field;
mod fields;
mod fitting;
mod header;
mod kinds;
mod known;
mod misfit;
mod module;
mod offsets;
mod parts;
mod sig_view;
mod tables;
mod view;
mod writing;

pub use class_view::ClassView;
pub use fault::ImageFault;
pub use field::{Field, Meaning};
pub use fitting::signature_fits;
pub use known::is_known;
pub use misfit::{Item, Misfit, misfit_in};
pub use module::{Function, Module};
pub use sig_view::SigView;
pub use view::ImageView;
pub use writing::write;
