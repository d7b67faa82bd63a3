//! The least labelling that fits, and the shortest flows of secrets into public places: definitions and their laws,
//! over the paths of graphs.
#![tactic(auto)]

pub mod laws;
