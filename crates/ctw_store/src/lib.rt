//! Memories, globals and tables by their numbers. A memory is a list of pages that are made when they are first
//! written.
#![tactic(auto)]

mod fault;
mod number;
mod page;
mod store;

pub use fault::{OutOfBounds, StoreFault};
pub use store::Store;
