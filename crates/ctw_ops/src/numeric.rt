ghost use Rattle.std.specs.Prelude.{◌≡◌, true, if◌then◌else◌, Option, Some, None};
ghost use Rattle.ctw_ops.specs.Numeric.{is_numeric, num_sig_of, is_timed, leaks};

use crate::types::Width;
use std::marker::Model;

/// Which operations are taken to run for a time that depends on their operands, so that these have to be public.
#[derive(Clone, Copy, Debug, PartialEq, Eq)]
pub enum Profile {
    /// The divisions and remainders.
    Divide,
    /// These and the multiplications, for processors that multiply in such a time.
    Multiply,
}

/// A numeric operation on integers (W3C WebAssembly Core 1.0, section 2.4.1, and the five sign extensions that
/// came after it), seen as its opcode.
#[derive(Clone, Copy, Debug, PartialEq, Eq)]
pub struct NumOp {
    code: u8,
}

impl Model for NumOp {
    ghost use Rattle.std.specs.Prelude.{◌≡◌, ℕ, true};
    ghost use Rattle.ctw_ops.specs.Numeric.{is_numeric};

    ghost Value = { ℕ };

    ghost view = { λ op. op.code };

    ghost invariant = { λ op. is_numeric op.code ≡ true };

    ghost inverse = { λ code. record { code = code } };
}

impl NumOp {
    /// The operation's opcode.
    pub const fn code(self) -> u8
        ensures value { result ≡ self }
        ensures numeric { is_numeric result ≡ true }
    {
        self.code
    }
}

/// What a numeric operation takes and gives.
#[derive(Clone, Copy, Debug, PartialEq, Eq)]
pub struct NumSig {
    /// How many operands it takes: 1 or 2.
    pub arity: u8,
    /// The operands' width.
    pub operand: Width,
    /// The result's width.
    pub result: Width,
}

/// The numeric operation of an opcode; None exactly where the byte isn't in 45 to 5A, 67 to 8A, A7, AC, AD or
/// C0 to C4.
#[tactic(auto, unfolding(crate::specs::Numeric::is_numeric))]
pub fn num_op(code: u8) -> Option<NumOp>
    ensures { result ≡ (if is_numeric code then Some code else None) }
{
    match code {
        0x45..=0x5A | 0x67..=0x8A | 0xA7 | 0xAC | 0xAD | 0xC0..=0xC4 => Some(NumOp { code }),
        _ => None,
    }
}

const fn sig(arity: u8, operand: Width, gives: Width) -> NumSig
    ensures { result ≡ record { arity = arity; operand = operand; result = gives } }
{
    NumSig {
        arity,
        operand,
        result: gives,
    }
}

/// How many operands an operation has, their width and its result's.
#[tactic(auto, unfolding(crate::specs::Numeric::num_sig_of, crate::specs::Numeric::is_numeric))]
pub fn signature(op: NumOp) -> NumSig
    ensures { num_sig_of op ≡ Some result }
{
    match op.code {
        0x45 => sig(1, Width::W32, Width::W32),
        0x46..=0x4F => sig(2, Width::W32, Width::W32),
        0x50 => sig(1, Width::W64, Width::W32),
        0x51..=0x5A => sig(2, Width::W64, Width::W32),
        0x67..=0x69 => sig(1, Width::W32, Width::W32),
        0x6A..=0x78 => sig(2, Width::W32, Width::W32),
        0x79..=0x7B => sig(1, Width::W64, Width::W64),
        0x7C..=0x8A => sig(2, Width::W64, Width::W64),
        0xA7 => sig(1, Width::W64, Width::W32),
        0xAC..=0xAD => sig(1, Width::W32, Width::W64),
        0xC0..=0xC1 => sig(1, Width::W32, Width::W32),
        0xC2..=0xC4 => sig(1, Width::W64, Width::W64),
        _ => unreachable!(),
    }
}

/// Whether an operation is a division or a remainder, whose time depends on its operands everywhere.
#[tactic(auto, unfolding(crate::specs::Numeric::is_timed))]
pub fn timed(op: NumOp) -> bool
    ensures { result ≡ is_timed op }
{
    matches!(op.code, 0x6D..=0x70 | 0x7F..=0x82)
}

/// Whether an operation is taken to run for a time that depends on its operands: the divisions and remainders, and
/// under the profile Multiply i32.mul and i64.mul too.
#[tactic(auto, unfolding(crate::specs::Numeric::leaks, crate::specs::Numeric::is_product))]
pub fn leaks(op: NumOp, p: Profile) -> bool
    ensures { result ≡ leaks op p }
{
    timed(op) || (p == Profile::Multiply && matches!(op.code, 0x6C | 0x7E))
}
