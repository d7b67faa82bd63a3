use crate::assembling::assembled;
use ctw_parse::{TextFault, assemble};
use ctw_tests::{answer, bytes_of, question};
use std::alloc::Global;
use std::process::Abort;

/// Each instruction that plain modules have, and its bytes in hexadecimal.
const PUBLIC: &str = "\
unreachable => 00
nop => 01
block end => 02 40 0B
loop end => 03 40 0B
if end => 04 40 0B
if else end => 04 40 05 0B
block (result i32) end => 02 7F 0B
loop (result i64) end => 03 7E 0B
br 3 => 0C 03
br_if 3 => 0D 03
br_table 1 2 3 => 0E 02 01 02 03
return => 0F
call 5 => 10 05
call_indirect (type 5) => 11 05 00
drop => 1A
select => 1B
local.get 5 => 20 05
local.set 5 => 21 05
local.tee 5 => 22 05
global.get 5 => 23 05
global.set 5 => 24 05
i32.load => 28 02 00
i64.load => 29 03 00
i32.load8_s => 2C 00 00
i32.load8_u => 2D 00 00
i32.load16_s => 2E 01 00
i32.load16_u => 2F 01 00
i64.load8_s => 30 00 00
i64.load8_u => 31 00 00
i64.load16_s => 32 01 00
i64.load16_u => 33 01 00
i64.load32_s => 34 02 00
i64.load32_u => 35 02 00
i32.store => 36 02 00
i64.store => 37 03 00
i32.store8 => 3A 00 00
i32.store16 => 3B 01 00
i64.store8 => 3C 00 00
i64.store16 => 3D 01 00
i64.store32 => 3E 02 00
memory.size => 3F 00
memory.grow => 40 00
i32.const -1 => 41 7F
i64.const -1 => 42 7F
i32.eqz => 45
i32.eq => 46
i32.ne => 47
i32.lt_s => 48
i32.lt_u => 49
i32.gt_s => 4A
i32.gt_u => 4B
i32.le_s => 4C
i32.le_u => 4D
i32.ge_s => 4E
i32.ge_u => 4F
i64.eqz => 50
i64.eq => 51
i64.ne => 52
i64.lt_s => 53
i64.lt_u => 54
i64.gt_s => 55
i64.gt_u => 56
i64.le_s => 57
i64.le_u => 58
i64.ge_s => 59
i64.ge_u => 5A
i32.clz => 67
i32.ctz => 68
i32.popcnt => 69
i32.add => 6A
i32.sub => 6B
i32.mul => 6C
i32.div_s => 6D
i32.div_u => 6E
i32.rem_s => 6F
i32.rem_u => 70
i32.and => 71
i32.or => 72
i32.xor => 73
i32.shl => 74
i32.shr_s => 75
i32.shr_u => 76
i32.rotl => 77
i32.rotr => 78
i64.clz => 79
i64.ctz => 7A
i64.popcnt => 7B
i64.add => 7C
i64.sub => 7D
i64.mul => 7E
i64.div_s => 7F
i64.div_u => 80
i64.rem_s => 81
i64.rem_u => 82
i64.and => 83
i64.or => 84
i64.xor => 85
i64.shl => 86
i64.shr_s => 87
i64.shr_u => 88
i64.rotl => 89
i64.rotr => 8A
i32.wrap_i64 => A7
i64.extend_i32_s => AC
i64.extend_i32_u => AD
i32.extend8_s => C0
i32.extend16_s => C1
i64.extend8_s => C2
i64.extend16_s => C3
i64.extend32_s => C4
";

/// Each one that CT modules alone have.
const OWN: &str = "\
secret.select => E0 1B
s32.load => E0 28 02 00
s64.load => E0 29 03 00
s32.load8_s => E0 2C 00 00
s32.load8_u => E0 2D 00 00
s32.load16_s => E0 2E 01 00
s32.load16_u => E0 2F 01 00
s64.load8_s => E0 30 00 00
s64.load8_u => E0 31 00 00
s64.load16_s => E0 32 01 00
s64.load16_u => E0 33 01 00
s64.load32_s => E0 34 02 00
s64.load32_u => E0 35 02 00
s32.store => E0 36 02 00
s64.store => E0 37 03 00
s32.store8 => E0 3A 00 00
s32.store16 => E0 3B 01 00
s64.store8 => E0 3C 00 00
s64.store16 => E0 3D 01 00
s64.store32 => E0 3E 02 00
s32.const -1 => E0 41 7F
s64.const -1 => E0 42 7F
s32.eqz => E0 45
s32.eq => E0 46
s32.ne => E0 47
s32.lt_s => E0 48
s32.lt_u => E0 49
s32.gt_s => E0 4A
s32.gt_u => E0 4B
s32.le_s => E0 4C
s32.le_u => E0 4D
s32.ge_s => E0 4E
s32.ge_u => E0 4F
s64.eqz => E0 50
s64.eq => E0 51
s64.ne => E0 52
s64.lt_s => E0 53
s64.lt_u => E0 54
s64.gt_s => E0 55
s64.gt_u => E0 56
s64.le_s => E0 57
s64.le_u => E0 58
s64.ge_s => E0 59
s64.ge_u => E0 5A
s32.clz => E0 67
s32.ctz => E0 68
s32.popcnt => E0 69
s32.add => E0 6A
s32.sub => E0 6B
s32.mul => E0 6C
s32.div_s => E0 6D
s32.div_u => E0 6E
s32.rem_s => E0 6F
s32.rem_u => E0 70
s32.and => E0 71
s32.or => E0 72
s32.xor => E0 73
s32.shl => E0 74
s32.shr_s => E0 75
s32.shr_u => E0 76
s32.rotl => E0 77
s32.rotr => E0 78
s64.clz => E0 79
s64.ctz => E0 7A
s64.popcnt => E0 7B
s64.add => E0 7C
s64.sub => E0 7D
s64.mul => E0 7E
s64.div_s => E0 7F
s64.div_u => E0 80
s64.rem_s => E0 81
s64.rem_u => E0 82
s64.and => E0 83
s64.or => E0 84
s64.xor => E0 85
s64.shl => E0 86
s64.shr_s => E0 87
s64.shr_u => E0 88
s64.rotl => E0 89
s64.rotr => E0 8A
s32.wrap_s64 => E0 A7
s64.extend_s32_s => E0 AC
s64.extend_s32_u => E0 AD
s32.extend8_s => E0 C0
s32.extend16_s => E0 C1
s64.extend8_s => E0 C2
s64.extend16_s => E0 C3
s64.extend32_s => E0 C4
i32.classify => E1
i64.classify => E2
s32.declassify => E3
s64.declassify => E4
";

/// How many bytes stand before the instructions of a module's one function, which has no locals.
const FRONT: usize = 23;

/// The instructions of a module whose one function these are, in a text that begins like this, are those of the row.
fn is_encoded(rt: &impl Abort, alloc: Global, front: &str, row: &str) {
    let text = format!(in alloc; "{front} (func {}))", question(row)).expect(rt, "memory");
    let bytes = assembled(rt, alloc, text.as_str());
    let mut want = bytes_of(alloc, answer(row)).expect(rt, "memory");
    want.push(0x0b).expect(rt, "memory");
    assert_eq!(rt; bytes.get(FRONT..), Some(want.as_slice()), "{row}");
}

#[test]
fn each_instruction_has_its_bytes(rt: HostRuntime) {
    for row in PUBLIC.lines() {
        is_encoded(&rt, rt.alloc(), "(module", row);
        is_encoded(&rt, rt.alloc(), "(module ct", row);
    }
    for row in OWN.lines() {
        is_encoded(&rt, rt.alloc(), "(module ct", row);
    }
}

/// Where the token begins and ends that the grammar has no place for, if that is a text's first fault.
fn unexpected(rt: &impl Abort, alloc: Global, text: &str) -> Option<(u32, u32)> {
    assert!(rt; text.len() < 10_000_000);
    let Err(TextFault::Unexpected { start, end }) = assemble(alloc, text) else {
        return None;
    };
    Some((start, end))
}

#[test]
fn own_words_stand_in_ct_modules_alone(rt: HostRuntime) {
    for row in OWN.lines() {
        let text = format!(in rt.alloc(); "(module (func {}))", question(row)).expect(
            &rt, "memory",
        );
        let word = question(row).split(' ').next().unwrap_or("");
        let spans = match unexpected(&rt, rt.alloc(), text.as_str()) {
            Some((start, end)) => start == 14 && end as usize == 14 + word.len(),
            None => false,
        };
        assert!(&rt; spans, "{row}");
    }
}
