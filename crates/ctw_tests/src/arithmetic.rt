ghost use Rattle.std.specs.Prelude.{◌↔◌, IsTrue};
ghost use Rattle.ctw_ops.specs.Types.{FitsWidth};

use crate::cases::agrees;
use crate::question;
use ctw_num::{NumTrap, apply1, apply2};
use ctw_ops::{Width, num_op, signature};
use std::alloc::{AllocError, Global};

/// An instruction, its opcode and its operands, and what the standard gives for them, in hexadecimal.
const VALUES: &str = "\
i32.eq 46 5 5 => 1
i32.eq 46 5 6 => 0
i32.ne 47 5 6 => 1
i32.ne 47 5 5 => 0
i32.lt_s 48 FFFFFFFF 0 => 1
i32.lt_s 48 80000000 7FFFFFFF => 1
i32.lt_s 48 5 5 => 0
i32.lt_u 49 FFFFFFFF 0 => 0
i32.lt_u 49 0 FFFFFFFF => 1
i32.lt_u 49 5 5 => 0
i32.gt_s 4A FFFFFFFF 0 => 0
i32.gt_s 4A 7FFFFFFF 80000000 => 1
i32.gt_u 4B FFFFFFFF 0 => 1
i32.gt_u 4B 5 5 => 0
i32.le_s 4C 80000000 7FFFFFFF => 1
i32.le_s 4C 5 5 => 1
i32.le_s 4C 0 FFFFFFFF => 0
i32.le_u 4D 80000000 7FFFFFFF => 0
i32.le_u 4D 5 5 => 1
i32.ge_s 4E 80000000 7FFFFFFF => 0
i32.ge_s 4E 5 5 => 1
i32.ge_u 4F 80000000 7FFFFFFF => 1
i32.ge_u 4F 0 FFFFFFFF => 0
i64.eq 51 5 5 => 1
i64.eq 51 5 6 => 0
i64.ne 52 5 6 => 1
i64.ne 52 5 5 => 0
i64.lt_s 53 FFFFFFFFFFFFFFFF 0 => 1
i64.lt_s 53 8000000000000000 7FFFFFFFFFFFFFFF => 1
i64.lt_s 53 5 5 => 0
i64.lt_u 54 FFFFFFFFFFFFFFFF 0 => 0
i64.lt_u 54 0 FFFFFFFFFFFFFFFF => 1
i64.lt_u 54 5 5 => 0
i64.gt_s 55 FFFFFFFFFFFFFFFF 0 => 0
i64.gt_s 55 7FFFFFFFFFFFFFFF 8000000000000000 => 1
i64.gt_u 56 FFFFFFFFFFFFFFFF 0 => 1
i64.gt_u 56 5 5 => 0
i64.le_s 57 8000000000000000 7FFFFFFFFFFFFFFF => 1
i64.le_s 57 5 5 => 1
i64.le_s 57 0 FFFFFFFFFFFFFFFF => 0
i64.le_u 58 8000000000000000 7FFFFFFFFFFFFFFF => 0
i64.le_u 58 5 5 => 1
i64.ge_s 59 8000000000000000 7FFFFFFFFFFFFFFF => 0
i64.ge_s 59 5 5 => 1
i64.ge_u 5A 8000000000000000 7FFFFFFFFFFFFFFF => 1
i64.ge_u 5A 0 FFFFFFFFFFFFFFFF => 0
i32.add 6A FFFFFFFF 1 => 0
i32.add 6A 7FFFFFFF 1 => 80000000
i32.sub 6B 0 1 => FFFFFFFF
i32.sub 6B 80000000 1 => 7FFFFFFF
i32.mul 6C 10000 10000 => 0
i32.mul 6C FFFFFFFF FFFFFFFF => 1
i32.mul 6C 80000000 FFFFFFFF => 80000000
i32.and 71 FF00FF00 FF00FF0 => F000F00
i32.or 72 FF00FF00 FF00FF0 => FFF0FFF0
i32.xor 73 FF00FF00 FF00FF0 => F0F0F0F0
i64.add 7C FFFFFFFFFFFFFFFF 1 => 0
i64.add 7C 7FFFFFFFFFFFFFFF 1 => 8000000000000000
i64.add 7C FFFFFFFF 1 => 100000000
i64.sub 7D 0 1 => FFFFFFFFFFFFFFFF
i64.mul 7E 100000000 100000000 => 0
i64.mul 7E FFFFFFFFFFFFFFFF FFFFFFFFFFFFFFFF => 1
i64.and 83 FF00FF0000000001 FF00FF000000003 => F000F0000000001
i64.or 84 FF00FF0000000001 FF00FF000000002 => FFF0FFF000000003
i64.xor 85 FF00FF0000000001 FF00FF000000003 => F0F0F0F000000002
i32.div_s 6D FFFFFFF9 2 => FFFFFFFD
i32.div_s 6D 7 FFFFFFFE => FFFFFFFD
i32.div_s 6D FFFFFFF9 FFFFFFFE => 3
i32.div_s 6D 80000000 1 => 80000000
i32.div_s 6D 80000001 FFFFFFFF => 7FFFFFFF
i32.div_s 6D 80000000 FFFFFFFF => DivOverflow
i32.div_s 6D 80000000 0 => DivZero
i32.div_s 6D 0 0 => DivZero
i32.div_u 6E FFFFFFF9 2 => 7FFFFFFC
i32.div_u 6E 80000000 FFFFFFFF => 0
i32.div_u 6E 1 0 => DivZero
i32.rem_s 6F FFFFFFF9 2 => FFFFFFFF
i32.rem_s 6F 7 FFFFFFFE => 1
i32.rem_s 6F 80000000 FFFFFFFF => 0
i32.rem_s 6F 1 0 => DivZero
i32.rem_u 70 FFFFFFF9 2 => 1
i32.rem_u 70 80000000 FFFFFFFF => 80000000
i32.rem_u 70 1 0 => DivZero
i64.div_s 7F FFFFFFFFFFFFFFF9 2 => FFFFFFFFFFFFFFFD
i64.div_s 7F 7 FFFFFFFFFFFFFFFE => FFFFFFFFFFFFFFFD
i64.div_s 7F FFFFFFFFFFFFFFF9 FFFFFFFFFFFFFFFE => 3
i64.div_s 7F 8000000000000000 1 => 8000000000000000
i64.div_s 7F 8000000000000001 FFFFFFFFFFFFFFFF => 7FFFFFFFFFFFFFFF
i64.div_s 7F 8000000000000000 FFFFFFFFFFFFFFFF => DivOverflow
i64.div_s 7F 8000000000000000 0 => DivZero
i64.div_s 7F 0 0 => DivZero
i64.div_u 80 FFFFFFFFFFFFFFF9 2 => 7FFFFFFFFFFFFFFC
i64.div_u 80 8000000000000000 FFFFFFFFFFFFFFFF => 0
i64.div_u 80 1 0 => DivZero
i64.rem_s 81 FFFFFFFFFFFFFFF9 2 => FFFFFFFFFFFFFFFF
i64.rem_s 81 7 FFFFFFFFFFFFFFFE => 1
i64.rem_s 81 8000000000000000 FFFFFFFFFFFFFFFF => 0
i64.rem_s 81 1 0 => DivZero
i64.rem_u 82 FFFFFFFFFFFFFFF9 2 => 1
i64.rem_u 82 8000000000000000 FFFFFFFFFFFFFFFF => 8000000000000000
i64.rem_u 82 1 0 => DivZero
i32.shl 74 1 1F => 80000000
i32.shl 74 1 20 => 1
i32.shl 74 1 21 => 2
i32.shl 74 80000000 1 => 0
i32.shr_s 75 80000000 1F => FFFFFFFF
i32.shr_s 75 80000000 20 => 80000000
i32.shr_s 75 7FFFFFFF 1E => 1
i32.shr_u 76 80000000 1F => 1
i32.shr_u 76 FFFFFFFF 21 => 7FFFFFFF
i32.rotl 77 ABCD9876 1 => 579B30ED
i32.rotl 77 12345678 8 => 34567812
i32.rotl 77 12345678 0 => 12345678
i32.rotl 77 12345678 20 => 12345678
i32.rotl 77 1 1F => 80000000
i32.rotr 78 1 1 => 80000000
i32.rotr 78 12345678 8 => 78123456
i32.rotr 78 12345678 0 => 12345678
i32.rotr 78 12345678 20 => 12345678
i32.rotr 78 1 1F => 2
i64.shl 86 1 3F => 8000000000000000
i64.shl 86 1 40 => 1
i64.shl 86 1 41 => 2
i64.shr_s 87 8000000000000000 3F => FFFFFFFFFFFFFFFF
i64.shr_s 87 8000000000000000 40 => 8000000000000000
i64.shr_u 88 8000000000000000 3F => 1
i64.shr_u 88 FFFFFFFFFFFFFFFF 41 => 7FFFFFFFFFFFFFFF
i64.shr_u 88 8 100000003 => 1
i64.rotl 89 ABCD987602468ACE 1 => 579B30EC048D159D
i64.rotl 89 1 0 => 1
i64.rotl 89 1 3F => 8000000000000000
i64.rotl 89 3 40 => 3
i64.rotr 8A ABCD987602468ACE 1 => 55E6CC3B01234567
i64.rotr 8A 1 0 => 1
i64.rotr 8A 1 3F => 2
i64.rotr 8A 3 40 => 3
i32.eqz 45 0 => 1
i32.eqz 45 80000000 => 0
i32.clz 67 0 => 20
i32.clz 67 1 => 1F
i32.clz 67 8000 => 10
i32.clz 67 FFFFFFFF => 0
i32.ctz 68 0 => 20
i32.ctz 68 1 => 0
i32.ctz 68 10000 => 10
i32.ctz 68 80000000 => 1F
i32.popcnt 69 0 => 0
i32.popcnt 69 AAAA5555 => 10
i32.popcnt 69 FFFFFFFF => 20
i64.eqz 50 0 => 1
i64.eqz 50 100000000 => 0
i64.clz 79 0 => 40
i64.clz 79 1 => 3F
i64.clz 79 FFFFFFFFFFFFFFFF => 0
i64.ctz 7A 0 => 40
i64.ctz 7A 1 => 0
i64.ctz 7A 8000000000000000 => 3F
i64.popcnt 7B 0 => 0
i64.popcnt 7B DEADBEEFDEADBEEF => 30
i64.popcnt 7B FFFFFFFFFFFFFFFF => 40
i32.wrap_i64 A7 100000000 => 0
i32.wrap_i64 A7 123456789ABCDEF0 => 9ABCDEF0
i32.wrap_i64 A7 FFFFFFFFFFFFFFFF => FFFFFFFF
i64.extend_i32_s AC 80000000 => FFFFFFFF80000000
i64.extend_i32_s AC 7FFFFFFF => 7FFFFFFF
i64.extend_i32_s AC FFFFFFFF => FFFFFFFFFFFFFFFF
i64.extend_i32_u AD 80000000 => 80000000
i64.extend_i32_u AD FFFFFFFF => FFFFFFFF
i32.extend8_s C0 0 => 0
i32.extend8_s C0 7F => 7F
i32.extend8_s C0 80 => FFFFFF80
i32.extend8_s C0 FF => FFFFFFFF
i32.extend8_s C0 100 => 0
i32.extend8_s C0 180 => FFFFFF80
i32.extend8_s C0 80000000 => 0
i32.extend8_s C0 FFFFFFFF => FFFFFFFF
i32.extend16_s C1 80 => 80
i32.extend16_s C1 7FFF => 7FFF
i32.extend16_s C1 8000 => FFFF8000
i32.extend16_s C1 FFFF => FFFFFFFF
i32.extend16_s C1 10000 => 0
i32.extend16_s C1 18000 => FFFF8000
i32.extend16_s C1 7FFFFFFF => FFFFFFFF
i64.extend8_s C2 7F => 7F
i64.extend8_s C2 80 => FFFFFFFFFFFFFF80
i64.extend8_s C2 FF => FFFFFFFFFFFFFFFF
i64.extend8_s C2 100 => 0
i64.extend8_s C2 180 => FFFFFFFFFFFFFF80
i64.extend8_s C2 8000000000000000 => 0
i64.extend8_s C2 FFFFFFFF => FFFFFFFFFFFFFFFF
i64.extend16_s C3 7FFF => 7FFF
i64.extend16_s C3 8000 => FFFFFFFFFFFF8000
i64.extend16_s C3 FFFF => FFFFFFFFFFFFFFFF
i64.extend16_s C3 10000 => 0
i64.extend16_s C3 8000000000000000 => 0
i64.extend16_s C3 7FFFFFFFFFFFFFFF => FFFFFFFFFFFFFFFF
i64.extend32_s C4 8000 => 8000
i64.extend32_s C4 7FFFFFFF => 7FFFFFFF
i64.extend32_s C4 80000000 => FFFFFFFF80000000
i64.extend32_s C4 FFFFFFFF => FFFFFFFFFFFFFFFF
i64.extend32_s C4 100000000 => 0
i64.extend32_s C4 180000000 => FFFFFFFF80000000
i64.extend32_s C4 8000000000000000 => 0
i64.extend32_s C4 FFFFFFFFFFFFFFFF => FFFFFFFFFFFFFFFF
";

fn fits(width: Width, n: u64) -> bool
    ensures { IsTrue result ↔ FitsWidth width n }
{
    match width {
        Width::W32 => n < 1 << 32,
        Width::W64 => true,
    }
}

/// What an opcode gives for one or two operands; None where the call may not be made.
fn given(code: u8, a: u64, b: Option<u64>) -> Option<Result<u64, NumTrap>> {
    let op = num_op(code)?;
    let sig = signature(op);
    if !fits(sig.operand, a) {
        return None;
    }
    match b {
        None if sig.arity == 1 => Some(Ok(apply1(op, a))),
        Some(b) if sig.arity == 2 && fits(sig.operand, b) => Some(apply2(op, a, b)),
        _ => None,
    }
}

/// The same of the words of a question, as text.
fn shown(alloc: Global, call: &str) -> Result<String, AllocError> {
    let mut words = call.split_whitespace();
    let _name = words.next();
    let code = u8::from_str_radix(words.next().unwrap_or(""), 16).unwrap_or(0);
    let a = number(words.next().unwrap_or(""));
    let b = words.next().map(number);
    match given(code, a, b) {
        Some(Ok(value)) => format!(in alloc; "{value:X}"),
        Some(Err(trap)) => format!(in alloc; "{trap:?}"),
        None => format!(in alloc; "no such call"),
    }
}

fn number(word: &str) -> u64 {
    u64::from_str_radix(word, 16).unwrap_or(0)
}

#[test]
fn operations_give_the_numbers_of_the_standard(rt: HostRuntime) {
    for row in VALUES.lines() {
        agrees(&rt, row, shown(rt.alloc(), question(row)));
    }
}
