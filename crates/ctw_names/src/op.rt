use ctw_ops::ValType;
use ctw_text::{Indexed, Leaf, Shape};
use std::marker::Model;

/// Which instruction a body has at a place, its closing `end` among them.
#[derive(Drop)]
pub enum OpKind {
    /// One without an index.
    Single(Leaf),
    /// One with an index.
    Uses(Indexed, u32),
    /// `br_table` with its labels, the default last.
    Targets(Vec<u32>),
    /// `call_indirect` with an entry.
    Indirect(u32),
    /// `block`, `loop` or `if`, with the type of its result.
    Opens(Shape, Option<ValType>),
    /// `else`
    Else,
    /// `end`
    End,
}

/// An instruction, or what opens or closes a block, with numbers in place of names.
#[derive(Drop)]
pub struct Op {
    /// Which one it is.
    pub kind: OpKind,
}

impl Model for Op {
    ghost use Rattle.ctw_ops.specs.Code.{Op as FlatOp};
    ghost use Rattle.ctw_ops.specs.declared.types.Label.{Label};

    ghost Value = { FlatOp Label };

    ghost use Rattle.ctw_names.specs.Ops.{op_in};

    ghost view = { λ op. op_in op.kind };
}
