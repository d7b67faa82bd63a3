ghost use Rattle.std.specs.Prelude.{◌≡◌, ◌<◌, ◌^◌, length, slice_get, Some};

use ctw_form::ConstExpr;
use ctw_ops::{FuncType, GlobalType, Limits, MemType};
use std::marker::Model;

/// What an import asks for (W3C WebAssembly Core 1.0, section 2.5.11).
#[derive(Drop)]
pub enum ExternKind<'a> {
    /// A function.
    Func {
        /// The index of its type entry.
        type_index: u32,
        /// Its type; an untrusted one without parameters and result where the index names no entry.
        ty: FuncType<'a>,
    },
    /// A table of these sizes.
    Table(Limits),
    /// A memory of this type.
    Memory(MemType),
    /// A global of this type.
    Global(GlobalType),
}

/// An import: the module that it is imported from, its name there, and what it asks for.
#[derive(Drop)]
pub struct Import<'a> {
    /// The name of the module that it is imported from.
    pub module: &'a str,
    /// Its name there.
    pub name: &'a str,
    /// What it asks for.
    pub kind: ExternKind<'a>,
}

/// A global, imported or defined.
#[derive(Clone, Copy, Debug, PartialEq, Eq)]
pub struct Global1 {
    /// Its type.
    pub ty: GlobalType,
    /// Its initial value; None where it is imported.
    pub init: Option<ConstExpr>,
}

/// Functions that are put into a table (W3C WebAssembly Core 1.0, section 2.5.7).
#[derive(Drop)]
pub struct Element<'a> {
    /// The index of the table.
    pub table: u32,
    /// Where they begin in it.
    pub offset: ConstExpr,
    /// Their indexes.
    pub(crate) functions: &'a [u32],
}

impl<'a> Model for Element<'a> {
    ghost use Rattle.std.specs.Prelude.{◌<◌, ◌^◌, length};
    ghost use Rattle.ctw_ops.specs.Tree.{Element as Segment};
    ghost use Rattle.ctw_ops.specs.declared.types.Label.{Label};
    ghost use Rattle.ctw_form.specs.Shown.{constant_of};

    ghost Value = { Segment Label };

    ghost view = { λ e. record { table = e.table; offset = constant_of e.offset; functions = e.functions.now } };

    ghost invariant = { λ e. length e.functions.now < 2 ^ 32 };
}

impl<'a> Element<'a> {
    /// How many functions there are.
    pub fn count(&self) -> u32
        ensures { result ≡ length self.now.functions }
    {
        self.functions.len() as u32
    }

    /// The index of a function, by its number from 0 on, which is below the count.
    pub fn func(&self, i: u32) -> u32
        requires { i < length self.now.functions }
        ensures { slice_get self.now.functions i ≡ Some result }
    {
        self.functions[i as usize]
    }
}

/// A custom section (W3C WebAssembly Core 1.0, section 5.5.3).
#[derive(Drop)]
pub struct Custom<'a> {
    /// The id of the last section before it that has items; 0 where there is none.
    pub place: u8,
    /// Its name.
    pub name: &'a str,
    /// Its bytes behind the name.
    pub bytes: &'a [u8],
}

impl<'a> Model for Custom<'a> {
    ghost use Rattle.ctw_ops.specs.Tree.{Custom as Tree};

    ghost Value = { Tree };

    ghost view = { λ c. record { place = c.place; name = c.name.now; bytes = c.bytes.now } };
}
