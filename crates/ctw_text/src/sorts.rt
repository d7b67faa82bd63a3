// The nonterminals of the grammar.

use crate::keys::Part;
use crate::pieces::{Quoted, Role};
use ctw_ops::{ExternTag, Label, Width};

/// What the fields before say.
#[derive(Clone, Copy, Debug, PartialEq, Eq)]
pub struct Before {
    /// Whether one of them defines a function, table, memory or global.
    pub defined: bool,
    /// Whether one is a `start`.
    pub started: bool,
}

/// How far the parts of a typeuse have come; they stand in this order.
#[derive(Clone, Copy, Debug, PartialEq, Eq)]
pub enum Stage {
    AtType,
    AtTrusted,
    AtParams,
    AtResults,
    AtLocals,
}

/// What may still belong to the thing before, each part of it once and in this order.
#[derive(Clone, Copy, Debug, PartialEq, Eq)]
pub enum Tail {
    NoTail,
    /// The `id?` behind `end` or `else`.
    MayRepeat,
    /// The `id? (result t)?` of a block.
    MayLabel,
    /// The `(result t)?` of a block.
    MayYield,
    /// The `offset? align?` of a load or store.
    MayOffset,
    /// The `align?` of a load or store.
    MayAlign,
    /// The `idx*` of a `br_table`.
    MayTarget,
    /// The rest of a typeuse from this stage on, with locals in a function's head.
    InUse(bool, Stage),
}

/// Where instructions stand, and so what closes them.
#[derive(Clone, Copy, Debug, PartialEq, Eq)]
pub enum Place {
    /// A function's body, up to its `)`.
    Body,
    /// A plain block, up to its `end`.
    InBlock,
    /// A plain `if`, up to its `end` or `else`.
    InIf,
    /// A folded block, up to its `)`.
    InFolded,
    /// Operands of a folded instruction, up to the `)`.
    InOperands,
    /// Operands of a folded `if`, up to its `(then`.
    InConditions,
    /// The `then` of a folded `if`, up to its `)`.
    InThen,
    /// The `else` of a folded `if`, up to its `)`.
    InElse,
    /// No instructions: a `)`.
    Nothing,
}

/// What follows the offset of a segment.
#[derive(Clone, Copy, Debug, PartialEq, Eq)]
pub enum Filling {
    /// The functions of an `elem`.
    Functions,
    /// The strings of a `data`.
    Bytes,
}

/// A nonterminal.
#[derive(Clone, Copy, Debug, PartialEq, Eq)]
pub enum Sort {
    /// A whole module.
    Module,
    /// `id? ct? field* )`; whether the identifier has come.
    Head(bool),
    /// `field* )`
    Fields(Before),
    /// `)`
    Closing,
    /// `id?`, and then `(func ..)` or `(variant ..)`; whether the identifier has come.
    TypeHead(bool),
    /// `(func ..)`
    FuncType,
    /// The tail of what stands before, and then instructions up to what closes them.
    After(Tail, Place),
    /// `(else ..)? )`
    AfterThen,
    /// `id type )` or `type* )`
    Group(Part),
    /// `type* )`
    Types(Part),
    /// A type.
    OneType(Part),
    /// The type of a block's result.
    YieldType,
    /// The type of a global's value.
    ValueType,
    /// An index.
    AnIndex(Role),
    /// The number of a constant.
    AConst(Width, Label),
    /// A string.
    AString(Quoted),
    /// `id? export* (import ..)?`, and the rest of a `func`, `table`, `memory` or `global` field and of the fields
    /// behind it; whether the identifier has come or may come no more.
    ExternHead(ExternTag, Before, bool),
    /// The rest of a `table` field that defines, but for its `)`.
    TableBody,
    /// The rest of a `global` field that defines, but for its `)`.
    GlobalBody,
    /// `secret? limits )`, and where that is so `secret? (data ..) )`
    MemoryBody(bool),
    /// The same behind `secret`.
    Pages(bool),
    /// `id?`, and then the type of an import with the `)`.
    NamedType(ExternTag),
    /// The sizes of a table, `funcref` and `)`.
    TableType,
    /// The type of an imported global and `)`.
    GlobalType,
    /// `max? funcref`
    TableMax,
    /// `max? )`
    MemoryMax,
    /// `funcref`
    Funcref,
    /// `(elem ..)`
    InlineElem,
    /// `idx* )`
    Items,
    /// `str* )`
    Strings,
    /// One constant or one `global.get`, plain or folded.
    Expr,
    /// `(offset expr)` or a folded `expr`
    Offset,
    /// `idx?`, an offset, and then what follows it.
    SegmentHead(Role, Filling),
    /// `(func ..)`, `(table ..)`, `(memory ..)` or `(global ..)` of an import.
    ImportKind,
    /// The same of an export.
    ExportKind,
    /// The place of a custom section.
    CustomPlace,
}
