//! A module as a view of its file's bytes.
#![tactic(auto)]

mod found;
mod gather;
pub mod laws;
mod locals;
mod module;
mod types;
mod viewing;

pub use ctw_form::{ConstExpr, FormFault, FormKind, Segment};
pub use module::Module;
pub use types::{Custom, Element, ExternKind, Global1, Import};
pub use viewing::view;
