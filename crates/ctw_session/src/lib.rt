//! Sessions: running calls in 64 slots over the store of a linked set, a vault and sealed bytes, and the moves of a
//! script.
#![tactic(auto)]

mod allocation;
mod arguments;
mod bytes;
mod constants;
mod exports;
mod fault;
mod live;
mod memories;
mod segments;
mod session;
mod slots;
mod starts;
mod vault;

pub use fault::{ActNoMemory, LaunchFault};
pub use session::{Session, launch};
