//! The text of a module (W3C WebAssembly Core 1.0, chapter 6, and own words).
#![tactic(auto)]

mod code;
mod field;
mod item;
mod whole;
mod word;

pub use whole::print;
