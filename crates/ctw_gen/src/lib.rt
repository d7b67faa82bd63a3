//! The workload of a seed and a size: a plain module with marks, a script and a vault.
#![tactic(auto)]

mod code;
mod draws;
pub mod laws;
mod section;
mod whole;

pub use whole::{Workload, generate};
