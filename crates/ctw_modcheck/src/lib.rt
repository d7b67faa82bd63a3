//! Whether a module is valid.
#![tactic(auto)]

mod around;
mod bodies;
mod exports;
mod fault;
mod functions;
mod globals;
mod imports;
mod limits;
mod names;
mod segments;
mod types;
mod whole;

pub use fault::Invalid;
pub use whole::check;
