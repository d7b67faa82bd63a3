//! Flows of a secret into a public place: whether a witness is one, and the lines that tell it.
#![tactic(auto)]

mod check;
mod text;

pub use check::check_witness;
pub use text::{add_site, witness_text};
