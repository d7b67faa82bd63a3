ghost use Rattle.std.specs.Prelude.{◌<◌, length};

use crate::cases::{agrees, bytes_in};
use crate::{answer, question};
use ctw_leb::{Cursor, LebFault, put_s64, put_u32};
use std::alloc::{AllocError, Global};
use std::fmt::Display;

/// A read, the bytes from byte 10 on, its value or fault, and how many bytes are then left.
///
/// For each kind of number: the edges of each length, spellings longer than needed, unused bits that are
/// wrong, one byte too many (at the end too), and cut ones. Names: text of one to four bytes a character;
/// cut in the size and in the text; no size; a lone byte, a wrong second byte, a surrogate, a character
/// that the size cuts, and one that is longer than needed.
const READS: &str = "\
u32 00 => 0, 0 left
u32 7F => 127, 0 left
u32 80 01 => 128, 0 left
u32 FF 7F => 16383, 0 left
u32 80 80 01 => 16384, 0 left
u32 FF FF 7F => 2097151, 0 left
u32 80 80 80 01 => 2097152, 0 left
u32 FF FF FF 7F => 268435455, 0 left
u32 80 80 80 80 01 => 268435456, 0 left
u32 FF FF FF FF 0F => 4294967295, 0 left
u32 E5 8E 26 => 624485, 0 left
u32 E5 8E 26 80 => 624485, 1 left
u32 80 00 => 0, 0 left
u32 83 80 00 => 3, 0 left
u32 80 80 80 80 00 => 0, 0 left
u32 80 80 80 80 80 00 => no legal number begins at byte 10, 6 left
u32 80 80 80 80 80 => no legal number begins at byte 10, 5 left
u32 FF FF FF FF 10 => no legal number begins at byte 10, 5 left
u32 FF FF FF FF 1F => no legal number begins at byte 10, 5 left
u32 80 80 80 80 40 => no legal number begins at byte 10, 5 left
u32 => the bytes end too early, 0 left
u32 80 => the bytes end too early, 1 left
u32 E5 8E => the bytes end too early, 2 left
u32 80 80 80 => the bytes end too early, 3 left
u32 FF FF FF FF => the bytes end too early, 4 left
s32 00 => 0, 0 left
s32 3F => 63, 0 left
s32 40 => -64, 0 left
s32 7F => -1, 0 left
s32 C0 00 => 64, 0 left
s32 BF 7F => -65, 0 left
s32 FF 3F => 8191, 0 left
s32 80 40 => -8192, 0 left
s32 80 C0 00 => 8192, 0 left
s32 FF FF 3F => 1048575, 0 left
s32 80 80 40 => -1048576, 0 left
s32 FF FF FF 3F => 134217727, 0 left
s32 80 80 80 40 => -134217728, 0 left
s32 FF FF FF FF 07 => 2147483647, 0 left
s32 80 80 80 80 78 => -2147483648, 0 left
s32 C0 BB 78 => -123456, 0 left
s32 80 00 => 0, 0 left
s32 FF 7F => -1, 0 left
s32 80 80 80 80 00 => 0, 0 left
s32 FF FF FF FF 7F => -1, 0 left
s32 80 80 80 80 08 => no legal number begins at byte 10, 5 left
s32 FF FF FF FF 0F => no legal number begins at byte 10, 5 left
s32 80 80 80 80 70 => no legal number begins at byte 10, 5 left
s32 FF FF FF FF 3F => no legal number begins at byte 10, 5 left
s32 FF FF FF FF 4F => no legal number begins at byte 10, 5 left
s32 80 80 80 80 80 00 => no legal number begins at byte 10, 6 left
s32 FF FF FF FF FF 7F => no legal number begins at byte 10, 6 left
s32 FF FF FF FF FF => no legal number begins at byte 10, 5 left
s32 => the bytes end too early, 0 left
s32 80 => the bytes end too early, 1 left
s32 C0 BB => the bytes end too early, 2 left
s32 FF FF FF FF => the bytes end too early, 4 left
s64 00 => 0, 0 left
s64 7F => -1, 0 left
s64 C0 BB 78 => -123456, 0 left
s64 3F => 63, 0 left
s64 40 => -64, 0 left
s64 FF 3F => 8191, 0 left
s64 80 40 => -8192, 0 left
s64 FF FF 3F => 1048575, 0 left
s64 80 80 40 => -1048576, 0 left
s64 FF FF FF 3F => 134217727, 0 left
s64 80 80 80 40 => -134217728, 0 left
s64 FF FF FF FF 3F => 17179869183, 0 left
s64 80 80 80 80 40 => -17179869184, 0 left
s64 FF FF FF FF FF 3F => 2199023255551, 0 left
s64 80 80 80 80 80 40 => -2199023255552, 0 left
s64 FF FF FF FF FF FF 3F => 281474976710655, 0 left
s64 80 80 80 80 80 80 40 => -281474976710656, 0 left
s64 FF FF FF FF FF FF FF 3F => 36028797018963967, 0 left
s64 80 80 80 80 80 80 80 40 => -36028797018963968, 0 left
s64 FF FF FF FF FF FF FF FF 3F => 4611686018427387903, 0 left
s64 80 80 80 80 80 80 80 80 40 => -4611686018427387904, 0 left
s64 FF FF FF FF FF FF FF FF FF 00 => 9223372036854775807, 0 left
s64 80 80 80 80 80 80 80 80 80 7F => -9223372036854775808, 0 left
s64 80 80 80 80 08 => 2147483648, 0 left
s64 80 80 80 80 80 80 80 80 80 00 => 0, 0 left
s64 FF FF FF FF FF FF FF FF FF 7F => -1, 0 left
s64 80 80 80 80 80 80 80 80 80 01 => no legal number begins at byte 10, 10 left
s64 FF FF FF FF FF FF FF FF FF 01 => no legal number begins at byte 10, 10 left
s64 80 80 80 80 80 80 80 80 80 7E => no legal number begins at byte 10, 10 left
s64 80 80 80 80 80 80 80 80 80 40 => no legal number begins at byte 10, 10 left
s64 80 80 80 80 80 80 80 80 80 80 00 => no legal number begins at byte 10, 11 left
s64 FF FF FF FF FF FF FF FF FF FF => no legal number begins at byte 10, 10 left
s64 => the bytes end too early, 0 left
s64 C0 BB => the bytes end too early, 2 left
s64 80 80 80 80 80 80 80 80 80 => the bytes end too early, 9 left
name 00 => , 0 left
name 01 61 => a, 0 left
name 02 61 62 63 => ab, 1 left
name 02 C3 A9 => é, 0 left
name 03 E2 82 AC => €, 0 left
name 04 F0 9F 98 80 => 😀, 0 left
name 82 80 00 68 69 => hi, 0 left
name => the bytes end too early, 0 left
name 80 => the bytes end too early, 1 left
name 01 => the bytes end too early, 1 left
name 03 61 62 => the bytes end too early, 3 left
name 02 FF => the bytes end too early, 2 left
name FF FF FF FF 0F => the bytes end too early, 5 left
name 80 80 80 80 80 00 => no legal number begins at byte 10, 6 left
name 01 FF => the name at byte 11 isn't UTF-8, 2 left
name 02 C3 28 => the name at byte 11 isn't UTF-8, 3 left
name 03 ED A0 80 => the name at byte 11 isn't UTF-8, 4 left
name 02 E2 82 AC => the name at byte 11 isn't UTF-8, 4 left
name 02 C0 AF => the name at byte 11 isn't UTF-8, 3 left
name 81 80 00 FF => the name at byte 13 isn't UTF-8, 4 left
";

/// A number that is put, and its bytes.
const PUTS: &str = "\
u32 0 => 00
u32 127 => 7F
u32 128 => 80 01
u32 16383 => FF 7F
u32 16384 => 80 80 01
u32 624485 => E5 8E 26
u32 2097152 => 80 80 80 01
u32 268435456 => 80 80 80 80 01
u32 4294967295 => FF FF FF FF 0F
s64 0 => 00
s64 63 => 3F
s64 64 => C0 00
s64 -1 => 7F
s64 -64 => 40
s64 -65 => BF 7F
s64 -123456 => C0 BB 78
s64 2147483647 => FF FF FF FF 07
s64 -2147483648 => 80 80 80 80 78
s64 9223372036854775807 => FF FF FF FF FF FF FF FF FF 00
s64 -9223372036854775808 => 80 80 80 80 80 80 80 80 80 7F
";

fn shown<T: Display + Drop>(
    alloc: Global,
    answer: Result<T, LebFault>,
    left: u32,
) -> Result<String, AllocError> {
    match answer {
        Ok(value) => format!(in alloc; "{value}, {left} left"),
        Err(fault) => format!(in alloc; "{fault}, {left} left"),
    }
}

/// What reading gives for a kind and bytes.
fn read(alloc: Global, kind: &str, bytes: &[u8]) -> Result<String, AllocError>
    requires { length bytes.now < 1000 }
{
    let mut cursor = Cursor::new(bytes, 10);
    match kind {
        "u32" => {
            let value = cursor.read_u32();
            shown(alloc, value, cursor.left())
        }
        "s32" => {
            let value = cursor.read_s32();
            shown(alloc, value, cursor.left())
        }
        "s64" => {
            let value = cursor.read_s64();
            shown(alloc, value, cursor.left())
        }
        _ => {
            let value = cursor.name();
            shown(alloc, value, cursor.left())
        }
    }
}

#[test]
fn reads_numbers_and_names(rt: HostRuntime) {
    for row in READS.lines() {
        let (kind, digits) = question(row).split_once(' ').unwrap_or((question(row), ""));
        let bytes = bytes_in(&rt, rt.alloc(), digits);
        agrees(&rt, row, read(rt.alloc(), kind, &bytes));
    }
}

/// What a number of a kind is spelled by.
fn put(alloc: Global, kind: &str, number: &str) -> Result<Vec<u8>, AllocError> {
    let mut out = Vec::new(alloc);
    match kind {
        "u32" => put_u32(&mut out, number.parse().unwrap_or(0))?,
        _ => put_s64(&mut out, number.parse().unwrap_or(0))?,
    }
    Ok(out)
}

#[test]
fn puts_numbers(rt: HostRuntime) {
    for row in PUTS.lines() {
        let (kind, number) = question(row).split_once(' ').unwrap_or(("", ""));
        let out = put(rt.alloc(), kind, number).expect(&rt, "memory");
        assert!(rt; out == bytes_in(&rt, rt.alloc(), answer(row)), "{row}");
    }
}

#[test]
fn takes_bytes_one_after_another(rt: HostRuntime) {
    let bytes = [0x07, 0x08, 0x09, 0x80, 0x01];
    let mut cursor = Cursor::new(&bytes, 10);
    assert!(rt; cursor.left() == 5);
    assert!(rt; cursor.byte() == Ok(7));
    assert!(rt; cursor.take(5) == Err(LebFault::Truncated));
    assert!(rt; cursor.take(2) == Ok([0x08, 0x09].as_slice()));
    assert!(rt; cursor.rest() == [0x80, 0x01].as_slice());
    assert!(rt; cursor.place() == 13);
}
