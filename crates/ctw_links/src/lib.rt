//! The links between the sites of a plain module: where one is secret, another one is; and the sites that have to be
//! public.
#![tactic(auto)]

mod asking;
mod asks;
pub mod bodies;
mod body;
mod gather;
pub mod globals;
mod key;
mod links;
mod pass;
mod tell;
mod user;
pub mod users;

pub use links::{Links, collect};
pub use user::User;
