//! The words of the command line: which command they have the form of, with its files and numbers.
#![tactic(auto)]

mod words;

pub use words::{ArgumentWords, Command, Once, PartWords, Run, command_of};
