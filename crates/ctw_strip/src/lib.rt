//! The erased module of a module, canonically spelled.
#![tactic(auto)]

mod code;
mod entry;
mod item;
pub mod laws;
mod section;
mod whole;

pub use whole::strip;
