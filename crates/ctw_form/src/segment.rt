use crate::constant::ConstExpr;
use std::marker::Model;

/// Bytes that are put into a memory (W3C WebAssembly Core 1.0, section 2.5.8).
#[derive(Drop)]
pub struct Segment<'a> {
    /// The index of the memory.
    pub memory: u32,
    /// Where they begin in it.
    pub offset: ConstExpr,
    /// The bytes.
    pub bytes: &'a [u8],
}

impl<'a> Model for Segment<'a> {
    ghost use Rattle.ctw_ops.specs.Tree.{Segment as Tree};
    ghost use Rattle.ctw_ops.specs.declared.types.Label.{Label};
    ghost use Rattle.ctw_form.specs.Shown.{constant_of};

    ghost Value = { Tree Label };

    ghost view = { λ s. record { memory = s.memory; offset = constant_of s.offset; bytes = s.bytes.now } };
}
