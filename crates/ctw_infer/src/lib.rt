//! The least labelling of a plain module that fits its marks; where none fits, a shortest flow of a secret into a
//! public place, or the call or table entry that misuses trust.
#![tactic(auto)]

mod fault;
mod inference;
pub mod laws;
mod marked;
mod search;
mod trust;
mod witness;

pub use fault::InferFault;
pub use inference::{infer, infer_sites};
