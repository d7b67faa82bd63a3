//! The text form (W3C WebAssembly Core 1.0, chapter 6, within the profile, with own words): what its words stand for,
//! its grammar, the module that a text denotes, the first fault of a text that denotes none, and the printed text.
#![tactic(auto)]

mod fields;
mod front;
mod keys;
pub mod laws;
mod pieces;
mod sorts;
mod toks;
mod words;

pub use fields::{Draft, Field, Item, NamedEntry, Raw, Use, Variable};
pub use front::FrontList;
pub use keys::{Form, Indexed, Key, Leaf, LeafKind, Opener, Part, Shape};
pub use pieces::{FieldKind, Index, Name, Piece, Quote, Quoted, Role};
pub use sorts::{Before, Filling, Place, Sort, Stage, Tail};
pub use toks::Tok;
pub use words::key_of;
