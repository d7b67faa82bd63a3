//! The machine: running calls of a linked set, with words in place of typed values and places in the bytes of bodies in
//! place of instructions; one step of a call, and turns of many.
#![tactic(auto)]

mod activation;
mod calls;
mod control;
mod free;
mod indirect;
mod leaving;
mod memory;
mod numeric;
mod one_step;
mod operands;
mod placed;
mod reduce;
mod running;
mod sets;
mod short;
mod short_control;
mod turning;
mod weight;
mod words;

pub use activation::{Activation, enter, step};
pub use running::Stepped;
pub use turning::{TurnNoMemory, Turned, turn};
