//! Sets of modules that import from each other.
#![tactic(auto)]

mod bodies;
mod externals;
mod fault;
mod linking;
mod names;
mod numbers;
mod offers;
mod resolve;
mod set;
mod sizes;
mod tables;
mod types;
mod users;

pub use fault::LinkFault;
pub use linking::link;
pub use set::{LinkedSet, Part};
pub use types::is_same;
