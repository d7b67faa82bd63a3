//! The assembler: the canonical bytes of the module that a text denotes (W3C WebAssembly Core 1.0, chapters 5 and 6,
//! within the profile, with own words), or the first fault of a text that denotes none.
#![tactic(auto)]

mod code;
mod excess;
mod fault;
mod item;
mod section;
mod whole;

pub use fault::TextFault;
pub use whole::assemble;
