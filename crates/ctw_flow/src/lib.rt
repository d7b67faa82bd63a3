//! Graphs whose links have a rule: which nodes are reached from a start, and the least shortest path to a goal.
#![tactic(auto)]

mod graph;
mod order;
mod path;
mod search;

pub use graph::{Edge, Graph};
pub use path::{Marked, Path};
