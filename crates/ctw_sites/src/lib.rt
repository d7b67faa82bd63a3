//! The sites of a plain module, labels for them, flows through them, and release points.
#![tactic(auto)]

pub mod around;
mod bodies;
mod body;
pub mod control;
mod fault;
pub mod gather;
pub mod head;
mod labelling;
pub mod leaf;
pub mod packer;
pub mod pass;
mod points;
pub mod row;
pub mod select;
mod sites;
mod unpack;
mod witness;

pub use fault::SitesFault;
pub use labelling::Labelling;
pub use points::Points;
pub use sites::Sites;
pub use witness::Witness;
