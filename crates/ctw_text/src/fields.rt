// The fields of a module as they are spelled, each with what its pieces say of it.

use crate::front::FrontList;
use crate::keys::{Indexed, Leaf, Shape};
use crate::pieces::{FieldKind, Index, Name, Quote};
use ctw_ops::{ExternTag, Trust, ValType};

/// A parameter or a local.
#[derive(Drop)]
pub struct Variable<'a> {
    /// Its name, if it has one.
    pub name: Option<Name<'a>>,
    /// Its type.
    pub ty: ValType,
}

/// An entry that a typeuse names.
#[derive(Drop)]
pub struct NamedEntry<'a> {
    /// The offset of the `(` of its `(type`.
    pub place: u32,
    /// The entry.
    pub index: Index<'a>,
}

/// A typeuse, or the type of a type field.
#[derive(Drop)]
pub struct Use<'a> {
    /// The entry that it names.
    pub entry: Option<NamedEntry<'a>>,
    /// Whether `trusted` is spelled.
    pub trust: Trust,
    /// The parameters that are spelled.
    pub params: FrontList<Variable<'a>>,
    /// The results that are spelled.
    pub results: FrontList<ValType>,
}

/// An instruction with its names.
#[derive(Drop)]
pub enum Raw<'a> {
    /// One without an index.
    Single(Leaf),
    /// One with an index.
    Uses(Indexed, Index<'a>),
    /// `br_table` with its targets, the default last.
    Targets(FrontList<Index<'a>>),
    /// `call_indirect`
    Indirect(Use<'a>),
    /// `block`, `loop` or `if`, with its label and the type of its result.
    Opens(Shape, Option<Name<'a>>, Option<ValType>),
    /// `else`, and the label that it repeats.
    Else(Option<Name<'a>>),
    /// `end`, and the label that it repeats.
    End(Option<Name<'a>>),
}

/// An instruction, or where a folded one begins or ends.
#[derive(Drop)]
pub enum Item<'a> {
    /// An instruction.
    Op(Raw<'a>),
    /// The next instruction comes where this is closed.
    Folds,
    /// A folded instruction ends.
    Unfolds,
}

/// What is known of a field, and of an instruction whose first piece has not been met yet.
#[derive(Drop)]
pub struct Draft<'a> {
    /// The field's own name.
    pub name: Option<Name<'a>>,
    /// The names of its inline exports.
    pub exports: FrontList<Quote<'a>>,
    /// The module that it is imported from.
    pub from: Option<Quote<'a>>,
    /// The name under which it is imported.
    pub imported: Quote<'a>,
    /// The name of an export or a custom section.
    pub title: Quote<'a>,
    /// The strings of a `data` or a custom section.
    pub strings: FrontList<Quote<'a>>,
    /// What is imported or exported.
    pub kind: ExternTag,
    /// What an export, a start, an element, a segment or a variant refers to.
    pub target: Option<Index<'a>>,
    /// The functions of an `elem`.
    pub items: FrontList<Index<'a>>,
    /// Limits, or the place of a custom section.
    pub numbers: FrontList<u32>,
    /// Whether a memory is secret.
    pub secret: bool,
    /// Whether a global is mutable.
    pub mutable: bool,
    /// Whether the field holds its data or elements.
    pub inline: bool,
    /// The type of a global.
    pub value: Option<ValType>,
    /// Its typeuse, or its type.
    pub sig: Use<'a>,
    /// The declared locals.
    pub locals: FrontList<Variable<'a>>,
    /// The instructions.
    pub code: FrontList<Item<'a>>,
    /// The targets of the next instruction.
    pub targets: FrontList<Index<'a>>,
    /// The offset of the next instruction.
    pub offset: u32,
    /// The exponent of the alignment of the next instruction.
    pub align: Option<u32>,
    /// The label of the next instruction.
    pub label: Option<Name<'a>>,
    /// The result of the next instruction.
    pub yields: Option<ValType>,
}

/// A field of a module.
#[derive(Drop)]
pub struct Field<'a> {
    /// What it is.
    pub kind: FieldKind,
    /// What its pieces say.
    pub draft: Draft<'a>,
}
