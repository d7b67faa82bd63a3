ghost use Rattle.std.specs.Prelude.{◌≡◌, true, false, Some, None};
ghost use Rattle.ctw_valid.specs.declared.row.Row.TheVariants.{Moves};
ghost use Rattle.ctw_valid.specs.declared.row.Types.TheVariants.{One};

use ctw_ops::{Label, SecretRule, ValType, Width};

/// The type of a condition, an index, an address and a number of pages.
pub const NUMBER: ValType = ValType {
    width: Width::W32,
    label: Label::Public,
};

/// The types of operands that are taken, the first one first.
#[derive(Clone, Copy)]
pub enum Types<'a> {
    /// At most one.
    One(Option<ValType>),
    /// Those of a function's parameters, a byte for each.
    Params(&'a [u8]),
}

/// What an instruction takes off the operands and what it puts on.
#[derive(Clone, Copy)]
pub struct Move<'a> {
    /// The operands that are taken last.
    pub first: Types<'a>,
    /// The rule that a secret breaks above them, where a public number of 32 bits is taken.
    pub index: Option<SecretRule>,
    /// The type of the operand above it, which is taken first of all.
    pub last: Option<ValType>,
    /// Whether all else that the instruction wants is met.
    pub fits: bool,
    /// The type of the value that is put on.
    pub gives: Option<ValType>,
    /// Whether the rest of the block is dead, where nothing is put on.
    pub ends: bool,
}

/// A row of the typing's table, with all that its instruction names looked up.
#[derive(Clone, Copy)]
pub enum Row<'a> {
    /// A value of any type is taken.
    Drops,
    /// One of two values of the label and of one width is chosen by a third of the label.
    Selects(Label),
    /// Operands of known types are taken.
    Moves(Move<'a>),
}

/// A row that takes at most one value and gives at most one.
#[inline(always)]
pub fn simple<'a>(last: Option<ValType>, gives: Option<ValType>) -> Row<'a>
    ensures { result
        ≡ Moves (record { first = One None; index = None; last = last; fits = true; gives = gives; ends = false }) }
{
    Row::Moves(Move {
        first: Types::One(None),
        index: None,
        last,
        fits: true,
        gives,
        ends: false,
    })
}

/// A row behind which the block is dead.
#[inline(always)]
pub fn ending<'a>(first: Option<ValType>, index: Option<SecretRule>, fits: bool) -> Row<'a>
    ensures { result
        ≡ Moves (record { first = One first; index = index; last = None; fits = fits; gives = None; ends = true }) }
{
    Row::Moves(Move {
        first: Types::One(first),
        index,
        last: None,
        fits,
        gives: None,
        ends: true,
    })
}

/// A row that takes a public number of 32 bits under a rule, above one value at most.
#[inline(always)]
pub fn indexed<'a>(
    first: Option<ValType>,
    rule: SecretRule,
    fits: bool,
    gives: Option<ValType>,
) -> Row<'a>
    ensures { result
        ≡ Moves (record {
          first = One first;
          index = Some rule;
          last = None;
          fits = fits;
          gives = gives;
          ends = false;
        }) }
{
    Row::Moves(Move {
        first: Types::One(first),
        index: Some(rule),
        last: None,
        fits,
        gives,
        ends: false,
    })
}
