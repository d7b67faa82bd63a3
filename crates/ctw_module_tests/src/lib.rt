//! Tests of the crates that read, check, write and link modules: values from outside, and each public call once where
//! memory is ample.
#![tactic(auto)]

#[cfg(test)]
mod bodies;
#[cfg(test)]
mod cases;
#[cfg(test)]
mod linked_sets;
#[cfg(test)]
mod module_views;
#[cfg(test)]
mod reading;
#[cfg(test)]
mod validity;
#[cfg(test)]
mod writing;
