ghost use Rattle.std.specs.Prelude.{◌≡◌, ◌||◌, ◌==◌, true, Some};
ghost use Rattle.ctw_ops.specs.Numeric.{within};
ghost use Rattle.ctw_num.specs.Integers.{truth};
ghost use Rattle.ctw_num.specs.Values.{comparison64, division64, shift64, arithmetic64, count64, unary64, binary64};

use crate::trap::NumTrap;

/// The value of an operation on one number of 64 bits: a test, a count, the wrap to 32 bits or a sign extension.
#[tactic(auto, unfolding(crate::specs::Values::unary64))]
pub(crate) fn unary64(code: u8, n: u64) -> u64
    requires listed { (code == 0x50 || within 0x79 0x7B code || code == 0xA7 || within 0xC2 0xC4 code) ≡ true }
    ensures { unary64 code n ≡ Some result }
{
    match code {
        0x50 => u64::from(n == 0),
        0x79..=0x7B => u64::from(count64(code, n)),
        0xA7 => n % (1 << 32),
        0xC2 => i64::from(((n % 256) as u8).cast_signed()).cast_unsigned(),
        0xC3 => i64::from(((n % 65536) as u16).cast_signed()).cast_unsigned(),
        0xC4 => i64::from(((n % (1 << 32)) as u32).cast_signed()).cast_unsigned(),
        _ => unreachable!(),
    }
}

/// The value of an operation on two numbers of 64 bits, or why it has none.
#[tactic(auto, unfolding(crate::specs::Values::binary64))]
pub(crate) fn binary64(code: u8, a: u64, b: u64) -> Result<u64, NumTrap>
    requires listed { (within 0x51 0x5A code || within 0x7C 0x8A code) ≡ true }
    ensures { binary64 code a b ≡ Some result }
{
    match code {
        0x51..=0x5A => Ok(u64::from(compare64(code, a, b))),
        0x7F..=0x82 => divide64(code, a, b),
        0x86..=0x8A => Ok(shift64(code, a, b)),
        0x7C..=0x7E | 0x83..=0x85 => Ok(arithmetic64(code, a, b)),
        _ => unreachable!(),
    }
}

/// The count of zeros or ones that an opcode asks for: clz, ctz or popcnt.
#[tactic(auto, using(crate::proofs::Bits::leading_is, crate::proofs::Bits::trailing_is, crate::proofs::Bits::ones_is), unfolding(crate::specs::Values::count64))]
fn count64(code: u8, n: u64) -> u32
    requires listed { within 0x79 0x7B code ≡ true }
    ensures { count64 code n ≡ Some result }
{
    match code {
        0x79 => n.leading_zeros(),
        0x7A => n.trailing_zeros(),
        0x7B => n.count_ones(),
        _ => unreachable!(),
    }
}

/// Whether the comparison of an opcode holds.
#[tactic(auto, unfolding(crate::specs::Values::comparison64))]
fn compare64(code: u8, a: u64, b: u64) -> bool
    requires listed { within 0x51 0x5A code ≡ true }
    ensures { comparison64 code a b ≡ Some (truth result) }
{
    match code {
        0x51 => a == b,
        0x52 => a != b,
        0x53 => a.cast_signed() < b.cast_signed(),
        0x54 => a < b,
        0x55 => a.cast_signed() > b.cast_signed(),
        0x56 => a > b,
        0x57 => a.cast_signed() <= b.cast_signed(),
        0x58 => a <= b,
        0x59 => a.cast_signed() >= b.cast_signed(),
        0x5A => a >= b,
        _ => unreachable!(),
    }
}

/// The sum, difference, product, or the bits of both, either or just one.
#[tactic(auto, using(crate::proofs::Bits::and_is, crate::proofs::Bits::or_is, crate::proofs::Bits::xor_is), unfolding(crate::specs::Values::arithmetic64))]
fn arithmetic64(code: u8, a: u64, b: u64) -> u64
    requires listed { (within 0x7C 0x7E code || within 0x83 0x85 code) ≡ true }
    ensures { arithmetic64 code a b ≡ Some result }
{
    match code {
        0x7C => a.wrapping_add(b),
        0x7D => a.wrapping_sub(b),
        0x7E => a.wrapping_mul(b),
        0x83 => a & b,
        0x84 => a | b,
        0x85 => a ^ b,
        _ => unreachable!(),
    }
}

/// A shift or a rotation, by a count modulo 64.
#[tactic(auto, using(crate::proofs::Shifts::rotl64, crate::proofs::Shifts::rotr64), unfolding(crate::specs::Values::shift64, crate::specs::Integers::ishl, crate::specs::Integers::ishr_u))]
fn shift64(code: u8, a: u64, b: u64) -> u64
    requires listed { within 0x86 0x8A code ≡ true }
    ensures { shift64 code a b ≡ Some result }
{
    let count = (b % 64) as u32;
    match code {
        0x86 => a.wrapping_shl(count),
        0x87 => a.cast_signed().wrapping_shr(count).cast_unsigned(),
        0x88 => a.wrapping_shr(count),
        0x89 => a.rotate_left(count),
        0x8A => a.rotate_right(count),
        _ => unreachable!(),
    }
}

/// A quotient or a remainder.
#[tactic(auto, unfolding(crate::specs::Values::division64, crate::specs::Integers::idiv_s, crate::specs::Integers::irem_s))]
fn divide64(code: u8, a: u64, b: u64) -> Result<u64, NumTrap>
    requires listed { within 0x7F 0x82 code ≡ true }
    ensures { division64 code a b ≡ Some result }
{
    if b == 0 {
        return Err(NumTrap::DivZero);
    }
    match code {
        0x7F => match a.cast_signed().checked_div(b.cast_signed()) {
            Some(quotient) => Ok(quotient.cast_unsigned()),
            None => Err(NumTrap::DivOverflow),
        },
        0x80 => Ok(a / b),
        0x81 => Ok(
            a.cast_signed()
                .wrapping_rem(b.cast_signed())
                .cast_unsigned(),
        ),
        0x82 => Ok(a % b),
        _ => unreachable!(),
    }
}
