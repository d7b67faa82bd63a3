//! What the marks, the sites and the launch of each workload are, under every profile and labelling: laws, and no work.
#![tactic(auto)]

pub mod laws;
