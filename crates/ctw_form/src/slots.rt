use crate::constant::ConstExpr;
use ctw_ops::ValType;
use std::marker::Model;

/// Locals of one type in a row.
#[derive(Clone, Copy, Debug, PartialEq, Eq)]
pub struct LocalRun {
    /// How many locals of the function are declared up to its end.
    pub end: u32,
    /// Their type.
    pub ty: ValType,
}

/// The code of a defined function.
#[derive(Drop)]
pub struct CodeSlot<'a> {
    /// Its instructions with the closing end.
    pub code: &'a [u8],
    /// How many runs of locals the functions up to it have.
    pub runs: usize,
}

impl<'a> Model for CodeSlot<'a> {
    ghost use Rattle.ctw_form.specs.Slots.{Coded};

    ghost Value = { Coded };

    ghost view = { λ s. record { code = s.code.now; runs = s.runs } };
}

/// Where functions are put into a table.
#[derive(Clone, Copy, Debug, PartialEq, Eq)]
pub struct ElementSlot {
    /// The index of the table.
    pub table: u32,
    /// Where they begin in it.
    pub offset: ConstExpr,
    /// How many functions the elements up to it have.
    pub functions: usize,
}
