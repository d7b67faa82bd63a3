//! Tests of the command line: worked rows, and tables of words, files and answers.
#![tactic(auto)]

#[cfg(test)]
mod assembles;
#[cfg(test)]
mod calls;
#[cfg(test)]
mod infers;
#[cfg(test)]
mod links;
#[cfg(test)]
mod modules;
#[cfg(test)]
mod rows;
#[cfg(test)]
mod runs;
#[cfg(test)]
mod sessions;
#[cfg(test)]
mod texts;
#[cfg(test)]
mod works;
