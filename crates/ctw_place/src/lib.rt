//! A plain module with labels placed in it: as a CT module, canonically spelled.
#![tactic(auto)]

mod code;
mod entry;
mod functions;
mod item;
mod labels;
pub mod laws;
mod lift;
mod made;
mod named;
mod op;
mod orderly;
mod pass;
mod section;
mod setting;
mod uses;
mod variants;
mod whole;

pub use orderly::is_orderly;
pub use whole::place;
