//! The canonical spelling of a module, and a writer of sections. The modules are for the crates that spell what a module
//! becomes.
#![tactic(auto)]

pub mod code;
pub mod entry;
pub mod laws;
pub mod section;
pub mod text;
mod whole;
mod writer;

pub use whole::canon;
pub use writer::{ModuleWriter, put_header};
