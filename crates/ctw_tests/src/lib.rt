//! Tests of the library crates: values from outside, and each public call once where memory is ample.
//!
//! A crate with tests is proved twice, so the tests of all crates stand in four light ones: here, in those of modules and
//! of labels, and in those of the command line. What this crate offers to others is how rows of a table of cases are read.
#![tactic(auto)]

mod rows;

pub use rows::{answer, bytes_of, question};

#[cfg(test)]
mod arithmetic;
#[cfg(test)]
mod cases;
#[cfg(test)]
mod files;
#[cfg(test)]
mod graphs;
#[cfg(test)]
mod instructions;
#[cfg(test)]
mod numbers;
#[cfg(test)]
mod operand_stack;
#[cfg(test)]
mod operations;
#[cfg(test)]
mod scripts;
#[cfg(test)]
mod stores;
#[cfg(test)]
mod text_tokens;
