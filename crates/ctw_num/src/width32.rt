ghost use Rattle.std.specs.Prelude.{◌≡◌, ◌||◌, ◌==◌, true, Some};
ghost use Rattle.ctw_ops.specs.Numeric.{within};
ghost use Rattle.ctw_num.specs.Integers.{truth};
ghost use Rattle.ctw_num.specs.Values.{comparison32, division32, shift32, arithmetic32, count32, unary32, binary32};

use crate::trap::NumTrap;

/// The value of an operation on one number of 32 bits: a test, a count, an extension to 64 bits or a sign extension.
#[tactic(auto, unfolding(crate::specs::Values::unary32))]
pub(crate) fn unary32(code: u8, n: u32) -> u64
    requires listed { (code == 0x45 || within 0x67 0x69 code || within 0xAC 0xAD code || within 0xC0 0xC1 code) ≡ true }
    ensures { unary32 code n ≡ Some result }
{
    match code {
        0x45 => u64::from(n == 0),
        0x67..=0x69 => u64::from(count32(code, n)),
        0xAC => i64::from(n.cast_signed()).cast_unsigned(),
        0xAD => u64::from(n),
        0xC0 => u64::from(i32::from(((n % 256) as u8).cast_signed()).cast_unsigned()),
        0xC1 => u64::from(i32::from(((n % 65536) as u16).cast_signed()).cast_unsigned()),
        _ => unreachable!(),
    }
}

/// The value of an operation on two numbers of 32 bits, or why it has none.
#[tactic(auto, unfolding(crate::specs::Values::binary32))]
pub(crate) fn binary32(code: u8, a: u32, b: u32) -> Result<u64, NumTrap>
    requires listed { (within 0x46 0x4F code || within 0x6A 0x78 code) ≡ true }
    ensures { binary32 code a b ≡ Some result }
{
    match code {
        0x46..=0x4F => Ok(u64::from(compare32(code, a, b))),
        0x6D..=0x70 => divide32(code, a, b).map(u64::from),
        0x74..=0x78 => Ok(u64::from(shift32(code, a, b))),
        0x6A..=0x6C | 0x71..=0x73 => Ok(u64::from(arithmetic32(code, a, b))),
        _ => unreachable!(),
    }
}

/// The count of zeros or ones that an opcode asks for: clz, ctz or popcnt.
#[tactic(auto, using(crate::proofs::Bits::leading_is, crate::proofs::Bits::trailing_is, crate::proofs::Bits::ones_is), unfolding(crate::specs::Values::count32))]
fn count32(code: u8, n: u32) -> u32
    requires listed { within 0x67 0x69 code ≡ true }
    ensures { count32 code n ≡ Some result }
{
    match code {
        0x67 => n.leading_zeros(),
        0x68 => n.trailing_zeros(),
        0x69 => n.count_ones(),
        _ => unreachable!(),
    }
}

/// Whether the comparison of an opcode holds.
#[tactic(auto, unfolding(crate::specs::Values::comparison32))]
fn compare32(code: u8, a: u32, b: u32) -> bool
    requires listed { within 0x46 0x4F code ≡ true }
    ensures { comparison32 code a b ≡ Some (truth result) }
{
    match code {
        0x46 => a == b,
        0x47 => a != b,
        0x48 => a.cast_signed() < b.cast_signed(),
        0x49 => a < b,
        0x4A => a.cast_signed() > b.cast_signed(),
        0x4B => a > b,
        0x4C => a.cast_signed() <= b.cast_signed(),
        0x4D => a <= b,
        0x4E => a.cast_signed() >= b.cast_signed(),
        0x4F => a >= b,
        _ => unreachable!(),
    }
}

/// The sum, difference, product, or the bits of both, either or just one.
#[tactic(auto, using(crate::proofs::Bits::and_is, crate::proofs::Bits::or_is, crate::proofs::Bits::xor_is), unfolding(crate::specs::Values::arithmetic32))]
fn arithmetic32(code: u8, a: u32, b: u32) -> u32
    requires listed { (within 0x6A 0x6C code || within 0x71 0x73 code) ≡ true }
    ensures { arithmetic32 code a b ≡ Some result }
{
    match code {
        0x6A => a.wrapping_add(b),
        0x6B => a.wrapping_sub(b),
        0x6C => a.wrapping_mul(b),
        0x71 => a & b,
        0x72 => a | b,
        0x73 => a ^ b,
        _ => unreachable!(),
    }
}

/// A shift or a rotation, by a count modulo 32.
#[tactic(auto, using(crate::proofs::Shifts::rotl32, crate::proofs::Shifts::rotr32), unfolding(crate::specs::Values::shift32, crate::specs::Integers::ishl, crate::specs::Integers::ishr_u))]
fn shift32(code: u8, a: u32, b: u32) -> u32
    requires listed { within 0x74 0x78 code ≡ true }
    ensures { shift32 code a b ≡ Some result }
{
    let count = b;
    match code {
        0x74 => a.wrapping_shl(count),
        0x75 => a.cast_signed().wrapping_shr(count).cast_unsigned(),
        0x76 => a.wrapping_shr(count),
        0x77 => a.rotate_left(count),
        0x78 => a.rotate_right(count),
        _ => unreachable!(),
    }
}

/// A quotient or a remainder.
#[tactic(auto, unfolding(crate::specs::Values::division32, crate::specs::Integers::idiv_s, crate::specs::Integers::irem_s))]
fn divide32(code: u8, a: u32, b: u32) -> Result<u32, NumTrap>
    requires listed { within 0x6D 0x70 code ≡ true }
    ensures { division32 code a b ≡ Some result }
{
    if b == 0 {
        return Err(NumTrap::DivZero);
    }
    match code {
        0x6D => match a.cast_signed().checked_div(b.cast_signed()) {
            Some(quotient) => Ok(quotient.cast_unsigned()),
            None => Err(NumTrap::DivOverflow),
        },
        0x6E => Ok(a / b),
        0x6F => Ok(
            a.cast_signed()
                .wrapping_rem(b.cast_signed())
                .cast_unsigned(),
        ),
        0x70 => Ok(a % b),
        _ => unreachable!(),
    }
}
