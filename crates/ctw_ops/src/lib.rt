//! The types of a module, its numeric operations, and the definitions that the other crates share.
#![tactic(auto)]

mod fault;
pub mod laws;
mod numeric;
mod owned;
mod types;

pub use fault::{SecretRule, Space, What};
pub use numeric::{NumOp, NumSig, Profile, leaks, num_op, signature, timed};
pub use owned::{Name, Octets};
pub use types::{
    ExternTag, FuncType, GlobalType, Label, Limits, MemType, Trust, ValType, Width, erase_type,
};
