ghost use Rattle.std.specs.Prelude.{◌<◌, ◌^◌, length};

use crate::cases::{agrees, bytes_in};
use ctw_read::read;
use ctw_tests::question;
use std::alloc::{AllocError, Global};
use std::process::Abort;

/// The first eight bytes of a plain module.
const PLAIN: &str = "00 61 73 6D 01 00 00 00";

/// The first eight bytes of a CT module.
const CT: &str = "00 61 73 6D 01 00 43 54";

/// A plain module's first 18 bytes: a type without parameters and result, and a function of it.
const PLAIN_FUNCTION: &str = "00 61 73 6D 01 00 00 00 01 04 01 60 00 00 03 02 01 00";

/// The same of a CT module.
const CT_FUNCTION: &str = "00 61 73 6D 01 00 43 54 01 04 01 60 00 00 03 02 01 00";

/// Files, and what reading answers.
const FILES: &str = "\
none => Truncated at byte 0
01 02 03 => Truncated at byte 3
00 61 73 6D 01 00 00 => Truncated at byte 7
00 61 73 6E 02 00 00 00 => BadMagic at byte 0
00 61 73 6D 02 00 00 00 => BadVersion at byte 4
00 61 73 6D 01 00 43 53 FF => BadVersion at byte 4
00 61 73 6D 01 00 00 00 => a module
00 61 73 6D 01 00 43 54 => a module
";

/// Sections behind the first eight bytes of a plain module, and what reading answers: sections, numbers, names, types,
/// tables and memories, imports and exports, globals, segments, and then functions and code.
const PLAIN_SECTIONS: &str = "\
0C 00 => BadSection at byte 8
FF => BadSection at byte 8
01 01 00 01 01 00 => BadSection at byte 11
0B 01 00 0A 01 00 => BadSection at byte 11
01 => Truncated at byte 9
01 80 => Truncated at byte 10
01 05 01 => Truncated at byte 11
01 7F 01 7D => Truncated at byte 12
01 80 80 80 80 10 => BadLeb at byte 9
01 01 01 => SizeMismatch at byte 11
01 02 00 00 => SizeMismatch at byte 11
01 06 80 80 80 80 80 00 => BadLeb at byte 10
03 06 01 80 80 80 80 80 => BadLeb at byte 11
03 02 01 80 => SizeMismatch at byte 12
00 03 02 FF FE => BadUtf8 at byte 11
00 02 05 61 => SizeMismatch at byte 12
00 00 => SizeMismatch at byte 10
02 07 01 01 FF 01 62 00 00 => BadUtf8 at byte 12
02 07 01 01 61 01 FF 00 00 => BadUtf8 at byte 14
01 02 01 5F => BadType at byte 11
01 02 01 7D => BadType at byte 11
01 02 01 61 => LabelsInPlain at byte 11
01 02 01 62 => LabelsInPlain at byte 11
01 05 01 60 01 7B 00 => BadType at byte 13
01 05 01 60 01 7C 00 => Floats at byte 13
01 05 01 60 01 79 00 => LabelsInPlain at byte 13
01 05 01 60 00 01 7D => Floats at byte 14
01 05 01 60 00 01 7A => LabelsInPlain at byte 14
01 04 01 60 00 02 => TooMany { what: Results, limit: 1 } at byte 13
04 04 01 6F 00 01 => BadType at byte 11
04 04 01 7D 00 01 => BadType at byte 11
04 04 01 70 02 01 => BadType at byte 12
04 04 01 70 10 01 => BadType at byte 12
04 07 02 70 00 01 70 00 01 => TooMany { what: Tables, limit: 1 } at byte 10
05 03 01 02 01 => BadType at byte 11
05 03 01 10 01 => LabelsInPlain at byte 11
05 04 01 11 01 02 => LabelsInPlain at byte 11
05 05 02 00 01 00 01 => TooMany { what: Memories, limit: 1 } at byte 10
02 07 01 01 61 01 62 04 00 => BadType at byte 15
07 05 01 01 61 04 00 => BadType at byte 13
02 0F 02 01 61 01 62 02 00 01 01 61 01 63 02 00 01 => TooMany { what: Memories, limit: 1 } at byte 22
02 08 01 01 61 01 62 02 00 01 05 03 01 00 01 => TooMany { what: Memories, limit: 1 } at byte 20
02 11 02 01 61 01 62 01 70 00 01 01 61 01 63 01 70 00 01 => TooMany { what: Tables, limit: 1 } at byte 23
06 06 01 7F 02 41 00 0B => BadType at byte 12
06 05 01 7F 00 6A 0B => BadOpcode at byte 13
06 05 01 7F 00 43 0B => Floats at byte 13
06 05 01 7F 00 E0 0B => LabelsInPlain at byte 13
06 04 01 7F 00 0B => BadOpcode at byte 13
06 07 01 7F 00 41 00 6A 0B => BadOpcode at byte 15
06 07 01 7F 00 41 00 43 0B => Floats at byte 15
06 07 01 7F 00 41 00 E4 0B => LabelsInPlain at byte 15
0B 07 01 00 41 00 0B 05 61 => SizeMismatch at byte 17
09 07 01 00 41 00 0B 02 00 => SizeMismatch at byte 17
03 02 01 00 => CountMismatch at byte 12
03 02 01 00 0B 02 00 00 => SizeMismatch at byte 15
0A 01 01 => CountMismatch at byte 10
01 05 80 80 80 80 00 => a module
04 01 00 05 01 00 => a module
02 08 01 01 61 01 62 02 00 01 05 01 00 => a module
03 01 00 0A 01 00 => a module
03 01 00 => a module
";

/// Code of one function of a plain module, and what reading answers: sizes of entries, open bodies, opcodes, block
/// types and locals. Bytes that stand for labels elsewhere are here bytes like any other. 50,000 is D0 86 03, and the
/// limit on a function's locals comes before the type of a group and before the limit on the locals of all functions.
const PLAIN_CODE: &str = "\
0A 01 00 => CountMismatch at byte 20
0A 02 01 00 => SizeMismatch at byte 22
0A 05 01 7F 00 D0 0B => SizeMismatch at byte 25
0A 05 01 03 00 41 80 => SizeMismatch at byte 25
0A 05 01 02 00 0B 00 => SizeMismatch at byte 24
0A 03 01 01 00 => Unbalanced at byte 23
0A 05 01 03 00 01 01 => Unbalanced at byte 25
0A 06 01 04 00 02 40 0B => Unbalanced at byte 26
0A 05 01 03 00 05 0B => Unbalanced at byte 23
0A 09 01 07 00 04 40 05 05 0B 0B => Unbalanced at byte 26
0A 05 01 03 00 0B 01 => Unbalanced at byte 24
0A 05 01 03 00 0B E0 => Unbalanced at byte 24
0A 05 01 03 00 0B 43 => Unbalanced at byte 24
0A 05 01 03 00 D0 0B => BadOpcode at byte 23
0A 05 01 03 00 43 0B => Floats at byte 23
0A 07 01 05 00 3F 01 1A 0B => BadOpcode at byte 24
0A 05 01 03 00 E0 0B => LabelsInPlain at byte 23
0A 05 01 03 00 E4 0B => LabelsInPlain at byte 23
0A 07 01 05 00 02 7B 0B 0B => BadType at byte 24
0A 07 01 05 00 03 7D 0B 0B => Floats at byte 24
0A 07 01 05 00 04 7A 0B 0B => LabelsInPlain at byte 24
0A 06 01 04 01 01 7C 0B => Floats at byte 24
0A 06 01 04 01 01 7A 0B => LabelsInPlain at byte 24
0A 06 01 04 01 01 40 0B => BadType at byte 24
0A 08 01 06 01 D1 86 03 7D 0B => TooMany { what: Locals, limit: 50000 } at byte 23
0A 0A 01 08 02 D0 86 03 7F 01 7E 0B => TooMany { what: Locals, limit: 50000 } at byte 27
0A 0A 01 08 01 FF FF FF FF 0F 7F 0B => TooMany { what: Locals, limit: 50000 } at byte 23
0A 04 01 02 00 0B => a module
0A 08 01 06 00 41 E0 00 1A 0B => a module
0A 08 01 06 01 7A 7F 20 79 0B => a module
0A 08 01 06 01 D0 86 03 7F 0B => a module
0A 0A 01 08 02 D0 86 03 7F 00 7E 0B => a module
";

/// Sections behind the first eight bytes of a CT module, and what reading answers.
const CT_SECTIONS: &str = "\
01 07 02 60 00 00 62 00 02 => BadType at byte 16
04 04 01 70 10 01 => BadType at byte 12
06 06 01 7A 00 E0 6A 0B => BadOpcode at byte 14
06 06 01 7A 00 E0 43 0B => Floats at byte 14
06 05 01 7A 00 E1 0B => BadOpcode at byte 13
all kinds, with custom sections between them: 00 02 01 61 01 0B 02 60 01 7F 01 7A 62 00 01 00 00 00 03 01 62 FF 02 07 01 01 6D 01 66 00 00 00 01 00 03 02 01 00 00 01 00 04 05 01 70 01 01 02 00 01 00 05 04 01 11 01 02 00 01 00 06 0C 02 79 01 E0 42 05 0B 7F 00 23 00 0B 00 01 00 07 05 01 01 65 00 01 00 01 00 08 01 00 00 01 00 09 07 01 00 41 00 0B 01 01 00 01 00 0A 09 01 07 01 02 79 E0 1B E1 0B 00 01 00 0B 08 01 00 41 00 0B 02 68 69 00 01 00 => a module
";

/// Code of one function of a CT module, and what reading answers.
const CT_CODE: &str = "\
0A 07 01 05 00 E0 0C 00 0B => BadOpcode at byte 24
0A 06 01 04 00 E0 E0 0B => BadOpcode at byte 24
0A 06 01 04 00 E0 43 0B => Floats at byte 24
0A 04 01 02 00 E0 => SizeMismatch at byte 24
";

/// That the bytes spell a module, or why they don't.
fn shown(alloc: Global, bytes: &[u8]) -> Result<String, AllocError>
    requires { length bytes.now < 2 ^ 32 }
{
    match read(alloc, bytes) {
        Ok(_) => format!(in alloc; "a module"),
        Err(fault) => format!(in alloc; "{fault}"),
    }
}

/// Each row's bytes behind others have the row's answer.
fn have_answers(rt: &impl Abort, alloc: Global, front: &str, rows: &str) {
    for row in rows.lines() {
        let mut bytes = bytes_in(rt, alloc, front);
        bytes
            .extend_from_slice(&bytes_in(rt, alloc, question(row)))
            .expect(rt, "memory");
        agrees(rt, row, shown(alloc, &bytes));
    }
}

#[test]
fn files_are_read_or_have_a_first_fault(rt: HostRuntime) {
    let tables = [
        ("", FILES),
        (PLAIN, PLAIN_SECTIONS),
        (PLAIN_FUNCTION, PLAIN_CODE),
        (CT, CT_SECTIONS),
        (CT_FUNCTION, CT_CODE),
    ];
    for (front, rows) in tables {
        have_answers(&rt, rt.alloc(), front, rows);
    }
}

/// Times, and the bytes that stand there so often.
type Piece = (u32, &'static str);

/// Files at a limit and behind it, by pieces, and what reading answers: parameters of a type, locals of all functions,
/// blocks in one another, and bytes of a plain module and of a CT module.
const LIMITS: [(&[Piece], &str); 9] = [
    (
        &[
            (1, PLAIN),
            (1, "01 ED 07 01 60 E8 07"),
            (1000, "7F"),
            (1, "00"),
        ],
        "1000 => a module",
    ),
    (
        &[
            (1, PLAIN),
            (1, "01 EE 07 01 60 E9 07"),
            (1001, "7F"),
            (1, "00"),
        ],
        "1001 => TooMany { what: Params, limit: 1000 } at byte 13",
    ),
    (
        &[
            (1, PLAIN),
            (1, "01 04 01 60 00 00 03 16 15"),
            (21, "00"),
            (1, "0A 92 01 15"),
            (20, "06 01 D0 86 03 7F 0B"),
            (1, "04 01 00 7F 0B"),
        ],
        "1000000 => a module",
    ),
    (
        &[
            (1, PLAIN),
            (1, "01 04 01 60 00 00 03 16 15"),
            (21, "00"),
            (1, "0A 92 01 15"),
            (20, "06 01 D0 86 03 7F 0B"),
            (1, "04 01 01 7F 0B"),
        ],
        "1000001 => TooMany { what: Locals, limit: 1000000 } at byte 184",
    ),
    (
        &[
            (1, PLAIN_FUNCTION),
            (1, "0A 85 60 01 82 60 00"),
            (4096, "02 40"),
            (4097, "0B"),
        ],
        "4096 => a module",
    ),
    (
        &[
            (1, PLAIN_FUNCTION),
            (1, "0A 88 60 01 85 60 00"),
            (4097, "02 40"),
            (4098, "0B"),
        ],
        "4097 => TooMany { what: Nesting, limit: 4096 } at byte 8217",
    ),
    (
        &[(1, PLAIN), (1, "00 F4 FF 7F"), (2_097_140, "00")],
        "2097152 => a module",
    ),
    (
        &[(1, PLAIN), (1, "00 F5 FF 7F"), (2_097_141, "00")],
        "2097153 => TooMany { what: Bytes, limit: 2097152 } at byte 0",
    ),
    (
        &[(1, CT), (1, "00 F5 FF 7F"), (2_097_141, "00")],
        "2097153 => a module",
    ),
];

/// The bytes of pieces.
fn joined(rt: &impl Abort, alloc: Global, pieces: &[Piece]) -> Vec<u8> {
    let mut bytes = Vec::new(alloc);
    for (times, digits) in pieces {
        let piece = bytes_in(rt, alloc, *digits);
        for _ in 0..*times {
            bytes.extend_from_slice(&piece).expect(rt, "memory");
        }
    }
    bytes
}

#[test]
fn limits_are_reached_and_not_passed(rt: HostRuntime) {
    for (pieces, row) in LIMITS {
        let bytes = joined(&rt, rt.alloc(), pieces);
        assert!(rt; bytes.len() < 10_000_000);
        agrees(&rt, row, shown(rt.alloc(), &bytes));
    }
}
