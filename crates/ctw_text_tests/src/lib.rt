//! Tests of the crates of the text form: texts and the bytes that they are assembled to, faults of texts, and printed
//! texts, with values worked by hand or from outside.
#![tactic(auto)]

#[cfg(test)]
mod assembling;
#[cfg(test)]
mod faults;
#[cfg(test)]
mod printing;
#[cfg(test)]
mod words;
