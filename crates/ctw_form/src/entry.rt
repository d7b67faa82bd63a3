use crate::constant::ConstExpr;
use ctw_ops::{ExternTag, FuncType, GlobalType, Limits, MemType, ValType};
use std::marker::Model;

/// A type entry as it stands in a file.
#[derive(Drop)]
pub struct TypeEntry<'a> {
    /// The index of the entry that it is a variant of.
    pub base: Option<u32>,
    /// Its type.
    pub ty: FuncType<'a>,
}

impl<'a> Model for TypeEntry<'a> {
    ghost use Rattle.ctw_ops.specs.Tree.{TypeEntry as Entry};
    ghost use Rattle.ctw_ops.specs.declared.types.Label.{Label};

    ghost Value = { Entry Label };

    ghost view = { λ e. record { base = e.base; type = e.ty } };
}

/// What an import asks for, as it stands in a file.
#[derive(Clone, Copy, Debug, PartialEq, Eq)]
pub enum ImportKind {
    /// A function of the type with this index.
    Func(u32),
    /// A table of these sizes.
    Table(Limits),
    /// A memory of this type.
    Memory(MemType),
    /// A global of this type.
    Global(GlobalType),
}

/// An import as it stands in a file.
#[derive(Drop)]
pub struct ImportEntry<'a> {
    /// The name of the module that it is imported from.
    pub module: &'a str,
    /// Its name there.
    pub name: &'a str,
    /// What it is.
    pub kind: ImportKind,
}

impl<'a> Model for ImportEntry<'a> {
    ghost use Rattle.ctw_ops.specs.Tree.{Import};
    ghost use Rattle.ctw_ops.specs.declared.types.Label.{Label};
    ghost use Rattle.ctw_form.specs.Shown.{extern_of};

    ghost Value = { Import Label };

    ghost view = { λ e. record { module_name = e.«module».now; name = e.name.now; kind = extern_of e.kind } };
}

/// An export as it stands in a file.
#[derive(Drop)]
pub struct ExportEntry<'a> {
    /// Its name.
    pub name: &'a str,
    /// What it is.
    pub kind: ExternTag,
    /// Its index among those of its kind.
    pub index: u32,
}

impl<'a> Model for ExportEntry<'a> {
    ghost use Rattle.ctw_ops.specs.Tree.{Export};

    ghost Value = { Export };

    ghost view = { λ e. record { name = e.name.now; kind = e.kind; index = e.index } };
}

/// A defined global as it stands in a file.
#[derive(Clone, Copy, Debug, PartialEq, Eq)]
pub struct GlobalEntry {
    /// Its type.
    pub ty: GlobalType,
    /// Its initial value.
    pub init: ConstExpr,
}

/// What an element or data segment begins with.
#[derive(Clone, Copy, Debug, PartialEq, Eq)]
pub struct SegmentHead {
    /// The index of the table or memory.
    pub index: u32,
    /// Where the segment begins in it.
    pub offset: ConstExpr,
}

/// So many locals of one type.
#[derive(Clone, Copy, Debug, PartialEq, Eq)]
pub struct LocalGroup {
    /// How many.
    pub count: u32,
    /// Their type.
    pub ty: ValType,
}
