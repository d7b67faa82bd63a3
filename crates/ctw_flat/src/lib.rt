//! The instructions of a function body where they stand in its bytes, and where its blocks end.
#![tactic(auto)]

mod blocks;
mod body;
mod fault;
mod instr;
pub mod laws;
mod nesting;
mod opcode;
mod reading;
mod targets;
mod walk;

pub use blocks::{Block, BlockBuilder, BlockMap, build};
pub use body::Body;
pub use fault::{BuildFault, CodeFault, CodeKind};
pub use instr::Instr;
pub use nesting::Nesting;
pub use opcode::{
    Access, Bare, Form, Indexed, Opener, SECRET_PREFIX, byte_of_type, is_float_opcode, opcode_of,
    type_of_byte,
};
pub use targets::Targets;
pub use walk::Walk;
