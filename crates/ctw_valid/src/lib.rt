//! Whether a function's body has its function's type.
#![tactic(auto)]

mod around;
mod blocks;
mod check;
mod control;
mod fault;
mod levels;
mod lookup;
mod operands;
mod pass;
mod row;
mod tables;
mod values;

pub use check::{Checker, check_body};
pub use fault::BodyFault;
