// What the words of the text form stand for.

use ctw_ops::{ExternTag, Label, ValType, Width};
use std::marker::Model;

/// What types are listed for.
#[derive(Clone, Copy, Debug, PartialEq, Eq)]
pub enum Part {
    /// Parameters of a function.
    Param,
    /// Results of a function or a block.
    Result,
    /// Further locals of a function.
    Local,
}

/// An instruction with one index.
#[derive(Clone, Copy, Debug, PartialEq, Eq)]
pub enum Indexed {
    Br,
    BrIf,
    Call,
    LocalGet,
    LocalSet,
    LocalTee,
    GlobalGet,
    GlobalSet,
}

/// An instruction without an index, but for those that open or close a block.
#[derive(Clone, Copy, Debug, PartialEq, Eq)]
pub enum LeafKind {
    Unreachable,
    Nop,
    Return,
    Drop,
    Select(Label),
    MemorySize,
    MemoryGrow,
    /// A load of `bytes` bytes, which are extended to the width with their sign where `signed` says so; `align` is
    /// an exponent.
    Load {
        width: Width,
        label: Label,
        bytes: u8,
        signed: bool,
        align: u32,
        offset: u32,
    },
    /// A store of the lowest `bytes` bytes; `align` is an exponent.
    Store {
        width: Width,
        label: Label,
        bytes: u8,
        align: u32,
        offset: u32,
    },
    /// A constant, by the bits of its number; those of width 32 are below 2^32.
    Const {
        width: Width,
        label: Label,
        bits: u64,
    },
    /// A numeric operation, by its opcode.
    Numeric(u8, Label),
    Classify(Width),
    Declassify(Width),
}

/// An instruction without an index, seen as the leaf of a tree of instructions.
#[derive(Clone, Copy)]
pub struct Leaf {
    /// Which one it is.
    pub kind: LeafKind,
}

impl Model for Leaf {
    ghost use Rattle.ctw_ops.specs.Code.{Leaf as TreeLeaf};
    ghost use Rattle.ctw_ops.specs.declared.types.Label.{Label};
    ghost use Rattle.std.proofs.Common.{ap};
    ghost use Rattle.ctw_text.specs.Leaves.{leaf_of, kind_of_leaf, leaf_back};

    ghost Value = { TreeLeaf Label };

    ghost view = { λ l. leaf_of l.kind };

    ghost inverse = { λ leaf. record { kind = kind_of_leaf leaf } };

    ghost inverse_ok = { λ l holds. ap (λ k. record { kind = k }) (leaf_back l.kind) };
}

/// What opens a block.
#[derive(Clone, Copy, Debug, PartialEq, Eq)]
pub enum Opener {
    Block,
    Loop,
    If,
}

/// What opens a block, seen as the opener of a tree of instructions.
#[derive(Clone, Copy)]
pub struct Shape {
    /// Which one it is.
    pub opener: Opener,
}

impl Model for Shape {
    ghost use Rattle.ctw_ops.specs.Code.{Shape as TreeShape};
    ghost use Rattle.std.proofs.Common.{ap};
    ghost use Rattle.ctw_text.specs.Leaves.{shape_of, opener_of, shape_back};

    ghost Value = { TreeShape };

    ghost view = { λ s. shape_of s.opener };

    ghost inverse = { λ shape. record { opener = opener_of shape } };

    ghost inverse_ok = { λ s holds. ap (λ o. record { opener = o }) (shape_back s.opener) };
}

/// What an instruction's word stands for.
#[derive(Clone, Copy)]
pub enum Form {
    /// The whole instruction.
    Bare(Leaf),
    /// A load or store, behind which `offset=` and `align=` may stand; it has no offset and its natural align.
    Access(Leaf),
    /// A constant, behind which its number stands.
    Const(Width, Label),
    /// Behind it stands an index.
    Uses(Indexed),
    /// Behind it stand one or more indexes.
    BrTable,
    /// Behind it stands a typeuse.
    CallIndirect,
}

/// What a word stands for.
#[derive(Clone, Copy)]
pub enum Key {
    Module,
    Ct,
    Type,
    Variant,
    Trusted,
    Import,
    Export,
    Start,
    Elem,
    Data,
    Custom,
    Mut,
    Secret,
    Funcref,
    Offset,
    Then,
    Else,
    End,
    /// `func`, `table`, `memory` or `global`
    Extern(ExternTag),
    /// `param`, `result` or `local`
    Group(Part),
    /// `block`, `loop` or `if`
    Shape(Shape),
    /// `i32`, `i64`, `s32` or `s64`
    Ty(ValType),
    /// An instruction that opens and closes nothing
    Op(Form),
}
