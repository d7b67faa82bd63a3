//! Integer arithmetic as WebAssembly defines it.
#![tactic(auto)]

mod apply;
pub mod laws;
mod trap;
mod width32;
mod width64;

pub use apply::{apply1, apply2};
pub use trap::NumTrap;
