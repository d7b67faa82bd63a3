//! The numbers and names of the WebAssembly binary format, and a position in a lent slice.
#![tactic(auto)]

mod cursor;
mod fault;
mod number;
mod writing;

pub use cursor::Cursor;
pub use fault::LebFault;
pub use number::front_u32;
pub use writing::{put_s64, put_u32};
