//! The third pass of the assembler: the module that the pieces of a text stand for, with numbers in place of names,
//! or the first fault of a name or a typeuse.
#![tactic(auto)]

mod body;
mod constant;
mod counts;
mod customs;
mod defined;
mod entries;
mod exports;
mod fault;
mod function;
mod gather;
mod imports;
mod labels;
mod locals;
mod naming;
mod note;
mod op;
mod order;
mod resolve;
mod segments;
mod sizes;
mod space;
mod table;
mod types;
mod typeuse;
mod whole;
mod wide;

pub use fault::{Fault, FaultKind};
pub use naming::{NamesFault, named};
pub use op::{Op, OpKind};
pub use types::Spelled;
pub use wide::{
    Wide, WideConstant, WideCustom, WideElement, WideEntry, WideExport, WideExtern, WideFunction,
    WideGlobal, WideImport, WideSegment,
};
