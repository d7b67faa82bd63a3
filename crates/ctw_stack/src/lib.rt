//! The stack of operands and open blocks of a pass over a body, and the law that such a pass follows the typing.
#![tactic(auto)]

pub mod laws;
mod slot;
mod stack;

pub use slot::{Slot, Underflow};
pub use stack::Stack;
