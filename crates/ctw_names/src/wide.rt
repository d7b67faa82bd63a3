// A module with numbers in place of names, without limits: entries may have many results, and there may be many tables,
// memories and start functions.

use crate::op::Op;
use crate::types::Spelled;
use ctw_ops::{ExternTag, GlobalType, Limits, MemType, ValType};
use std::marker::Model;

/// An entry of the types.
#[derive(Drop)]
pub struct WideEntry {
    /// The index of the entry that it is a variant of.
    pub base: Option<u32>,
    /// Its type.
    pub ty: Spelled,
}

impl Model for WideEntry {
    ghost use Rattle.ctw_text.specs.Names.{WideEntry as NamedEntry};

    ghost Value = { NamedEntry };

    ghost view = { λ e. record { base = e.base; type = e.ty } };
}

/// What is imported.
#[derive(Drop)]
pub enum WideExtern {
    /// A function, by the index of its entry.
    Function(u32),
    /// A table of these sizes.
    Table(Limits),
    /// A memory of this type.
    Memory(MemType),
    /// A global of this type.
    Global(GlobalType),
}

/// An import.
#[derive(Drop)]
pub struct WideImport {
    /// The bytes of the name of the module that it is imported from.
    pub module_name: Vec<u8>,
    /// Those of its name there.
    pub name: Vec<u8>,
    /// What it is.
    pub kind: WideExtern,
}

impl Model for WideImport {
    ghost use Rattle.ctw_ops.specs.Tree.{Import};
    ghost use Rattle.ctw_ops.specs.declared.types.Label.{Label};
    ghost use Rattle.ctw_names.specs.Wides.{extern_in};

    ghost Value = { Import Label };

    ghost view = { λ i. record { module_name = i.module_name.items; name = i.name.items; kind = extern_in i.kind } };
}

/// A defined function.
#[derive(Drop)]
pub struct WideFunction {
    /// The index of its entry.
    pub ty: u32,
    /// The types of its declared locals.
    pub locals: Vec<ValType>,
    /// Its instructions, the last `end` among them.
    pub code: Vec<Op>,
}

impl Model for WideFunction {
    ghost use Rattle.ctw_text.specs.Names.{WideFunction as NamedFunction};

    ghost Value = { NamedFunction };

    ghost view = { λ f. record { type = f.ty; locals = f.locals.items; code = f.code.items } };
}

/// A constant expression.
#[derive(Clone, Copy, Debug, PartialEq, Eq)]
pub enum WideConstant {
    /// A number by its type and its bits.
    Number(ValType, u64),
    /// The value of a global.
    ValueOf(u32),
}

/// A defined global.
#[derive(Drop)]
pub struct WideGlobal {
    /// Its type.
    pub ty: GlobalType,
    /// Its initial value.
    pub init: WideConstant,
}

impl Model for WideGlobal {
    ghost use Rattle.ctw_ops.specs.Tree.{Global as DefinedGlobal};
    ghost use Rattle.ctw_ops.specs.declared.types.Label.{Label};
    ghost use Rattle.ctw_names.specs.Wides.{constant_of};

    ghost Value = { DefinedGlobal Label };

    ghost view = { λ g. record { type = g.ty; init = constant_of g.init } };
}

/// An export.
#[derive(Drop)]
pub struct WideExport {
    /// The bytes of its name.
    pub name: Vec<u8>,
    /// What it is.
    pub kind: ExternTag,
    /// Its index among those of its kind.
    pub index: u32,
}

impl Model for WideExport {
    ghost use Rattle.ctw_ops.specs.Tree.{Export};

    ghost Value = { Export };

    ghost view = { λ e. record { name = e.name.items; kind = e.kind; index = e.index } };
}

/// Functions that are put into a table.
#[derive(Drop)]
pub struct WideElement {
    /// The index of the table.
    pub table: u32,
    /// Where they begin in it.
    pub offset: WideConstant,
    /// Their indexes.
    pub functions: Vec<u32>,
}

impl Model for WideElement {
    ghost use Rattle.ctw_ops.specs.Tree.{Element};
    ghost use Rattle.ctw_ops.specs.declared.types.Label.{Label};
    ghost use Rattle.ctw_names.specs.Wides.{constant_of};

    ghost Value = { Element Label };

    ghost view = { λ e. record { table = e.table; offset = constant_of e.offset; functions = e.functions.items } };
}

/// Bytes that are put into a memory.
#[derive(Drop)]
pub struct WideSegment {
    /// The index of the memory.
    pub memory: u32,
    /// Where they begin in it.
    pub offset: WideConstant,
    /// The bytes.
    pub bytes: Vec<u8>,
}

impl Model for WideSegment {
    ghost use Rattle.ctw_ops.specs.Tree.{Segment};
    ghost use Rattle.ctw_ops.specs.declared.types.Label.{Label};
    ghost use Rattle.ctw_names.specs.Wides.{constant_of};

    ghost Value = { Segment Label };

    ghost view = { λ s. record { memory = s.memory; offset = constant_of s.offset; bytes = s.bytes.items } };
}

/// A custom section.
#[derive(Drop)]
pub struct WideCustom {
    /// The id of the last section before it that has items; 0 where there is none.
    pub place: u32,
    /// The bytes of its name.
    pub name: Vec<u8>,
    /// Its bytes behind the name.
    pub bytes: Vec<u8>,
}

impl Model for WideCustom {
    ghost use Rattle.ctw_ops.specs.Tree.{Custom};

    ghost Value = { Custom };

    ghost view = { λ c. record { place = c.place; name = c.name.items; bytes = c.bytes.items } };
}

/// A module with numbers in place of names, without limits.
#[derive(Drop)]
pub struct Wide {
    /// Whether it is a CT module.
    pub ct: bool,
    /// The entries of its types.
    pub types: Vec<WideEntry>,
    /// Its imports.
    pub imports: Vec<WideImport>,
    /// Its defined functions.
    pub functions: Vec<WideFunction>,
    /// The sizes of its defined tables.
    pub tables: Vec<Limits>,
    /// The types of its defined memories.
    pub memories: Vec<MemType>,
    /// Its defined globals.
    pub globals: Vec<WideGlobal>,
    /// Its exports.
    pub exports: Vec<WideExport>,
    /// The indexes of its start functions.
    pub start: Vec<u32>,
    /// Its element segments.
    pub elements: Vec<WideElement>,
    /// Its data segments.
    pub segments: Vec<WideSegment>,
    /// Its custom sections, by place.
    pub customs: Vec<WideCustom>,
}

impl Model for Wide {
    ghost use Rattle.ctw_text.specs.Names.{Wide as NamedModule};

    ghost Value = { NamedModule };

    ghost view = { λ m. record {
      ct = m.ct;
      types = m.types.items;
      imports = m.imports.items;
      functions = m.functions.items;
      tables = m.tables.items;
      memories = m.memories.items;
      globals = m.globals.items;
      exports = m.exports.items;
      start = m.start.items;
      elements = m.elements.items;
      segments = m.segments.items;
      customs = m.customs.items;
    } };
}
