ghost use Rattle.std.specs.Prelude.{◌≡◌, ◌↔◌, true, false, IfSome, IfOk, IsOk, Some, Err};
ghost use Rattle.ctw_ops.specs.Types.{FitsWidth};
ghost use Rattle.ctw_ops.specs.Numeric.{num_sig_of, is_timed};
ghost use Rattle.ctw_num.specs.Values.{value1, value2, DividesLeastByMinusOne};

use crate::trap::NumTrap;
use crate::width32::{binary32, unary32};
use crate::width64::{binary64, unary64};
use ctw_ops::{NumOp, Width, signature};

/// The value of an operation with one operand: eqz, clz, ctz, popcnt, wrap, extend_s or extend_u
/// (W3C WebAssembly Core 1.0, section 4.3), or a sign extension.
///
/// The operand is below 2^32 for an operation on 32 bits, and so is the result where it has 32 bits.
pub fn apply1(op: NumOp, a: u64) -> u64
    requires takes_one { IfSome (num_sig_of op) (λ sig. (sig.arity ≡ 1) × FitsWidth sig.operand a) }
    ensures value { value1 op a ≡ Some result }
    ensures below { IfSome (num_sig_of op) (λ sig. FitsWidth sig.result result) }
{
    match signature(op).operand {
        Width::W32 => unary32(op.code(), a as u32),
        Width::W64 => unary64(op.code(), a),
    }
}

/// The value of an operation with two operands (W3C WebAssembly Core 1.0, section 4.3).
///
/// The operands are below 2^32 for an operation on 32 bits, and so is the result where it has 32 bits.
///
/// # Errors
///
/// `DivZero` exactly where a division or a remainder has the divisor 0, and `DivOverflow` exactly
/// where `div_s` divides the least number by -1.
pub fn apply2(op: NumOp, a: u64, b: u64) -> Result<u64, NumTrap>
    requires takes_two { IfSome (num_sig_of op)
        (λ sig. (sig.arity ≡ 2) × FitsWidth sig.operand a × FitsWidth sig.operand b) }
    ensures value { value2 op a b ≡ Some result }
    ensures below { IfSome (num_sig_of op) (λ sig. IfOk result (FitsWidth sig.result)) }
    ensures zero { (result ≡ Err NumTrap.DivZero) ↔ ((is_timed op ≡ true) × (b ≡ 0)) }
    ensures overflow { (result ≡ Err NumTrap.DivOverflow) ↔ DividesLeastByMinusOne op a b }
    ensures untimed { is_timed op ≡ false → IsOk result }
{
    match signature(op).operand {
        Width::W32 => binary32(op.code(), a as u32, b as u32),
        Width::W64 => binary64(op.code(), a, b),
    }
}
