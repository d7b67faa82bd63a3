//! At most one activation stands for a running call: each operand has the one type that its function's body gives it
//! at its place. This crate has definitions and their laws, and no work.
#![tactic(auto)]

mod laws;

pub use laws::{
    begun_calls_hold_by_bodies, every_typing_gives_the_same_types, one_activation_stands,
    running_calls_hold_by_bodies,
};
