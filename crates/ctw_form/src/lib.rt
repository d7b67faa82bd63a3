//! The form of a module's file: the grammar of its items and sections and the readers of these, each of
//! which answers what is spelled at a cursor or the first fault there.
#![tactic(auto)]

mod bytes;
mod constant;
mod entry;
mod fault;
pub mod items;
pub mod laws;
pub mod lists;
mod sections;
mod segment;
mod slots;
mod table;

pub use constant::ConstExpr;
pub use entry::{
    ExportEntry, GlobalEntry, ImportEntry, ImportKind, LocalGroup, SegmentHead, TypeEntry,
};
pub use fault::{FormFault, FormKind};
pub use sections::Seen;
pub use segment::Segment;
pub use slots::{CodeSlot, ElementSlot, LocalRun};
pub use table::{ConstantForm, EntryForm, Held, MemoryForm, SectionKind};
