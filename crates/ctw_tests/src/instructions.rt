ghost use Rattle.std.specs.Prelude.{◌<◌, ◌^◌, length};

use crate::cases::{agrees, bytes_in};
use crate::question;
use ctw_flat::{
    BlockBuilder, BlockMap, Body, CodeFault, CodeKind, Instr, Targets, build, is_float_opcode,
};
use ctw_ops::num_op;
use std::alloc::{AllocError, Global};
use std::process::Abort;

/// Bytes, and the instruction that they spell or the first fault in them.
const INSTRUCTIONS: &str = "\
00 => Unreachable
01 => Nop
02 40 => Block { result: None }
02 7F => Block { result: Some(ValType { width: W32, label: Public }) }
03 7E => Loop { result: Some(ValType { width: W64, label: Public }) }
03 7A => Loop { result: Some(ValType { width: W32, label: Secret }) }
04 79 => If { result: Some(ValType { width: W64, label: Secret }) }
05 => Else
0B => End
0C 02 => Br { depth: 2 }
0D 80 01 => BrIf { depth: 128 }
0E 02 05 81 00 03 => BrTable { targets: [5, 129, 0], count: 2, otherwise: 3 }
0E 00 07 => BrTable { targets: [], count: 0, otherwise: 7 }
0F => Return
10 09 => Call { index: 9 }
11 04 00 => CallIndirect { index: 4 }
1A => Drop
1B => Select { label: Public }
E0 1B => Select { label: Secret }
28 02 08 => Load { width: W32, label: Public, bytes: 4, signed: false, align: 2, offset: 8 }
29 02 08 => Load { width: W64, label: Public, bytes: 8, signed: false, align: 2, offset: 8 }
2C 02 08 => Load { width: W32, label: Public, bytes: 1, signed: true, align: 2, offset: 8 }
2D 02 08 => Load { width: W32, label: Public, bytes: 1, signed: false, align: 2, offset: 8 }
2E 02 08 => Load { width: W32, label: Public, bytes: 2, signed: true, align: 2, offset: 8 }
2F 02 08 => Load { width: W32, label: Public, bytes: 2, signed: false, align: 2, offset: 8 }
30 02 08 => Load { width: W64, label: Public, bytes: 1, signed: true, align: 2, offset: 8 }
31 02 08 => Load { width: W64, label: Public, bytes: 1, signed: false, align: 2, offset: 8 }
32 02 08 => Load { width: W64, label: Public, bytes: 2, signed: true, align: 2, offset: 8 }
33 02 08 => Load { width: W64, label: Public, bytes: 2, signed: false, align: 2, offset: 8 }
34 02 08 => Load { width: W64, label: Public, bytes: 4, signed: true, align: 2, offset: 8 }
35 02 08 => Load { width: W64, label: Public, bytes: 4, signed: false, align: 2, offset: 8 }
E0 34 02 08 => Load { width: W64, label: Secret, bytes: 4, signed: true, align: 2, offset: 8 }
36 02 08 => Store { width: W32, label: Public, bytes: 4, signed: false, align: 2, offset: 8 }
37 02 08 => Store { width: W64, label: Public, bytes: 8, signed: false, align: 2, offset: 8 }
3A 02 08 => Store { width: W32, label: Public, bytes: 1, signed: false, align: 2, offset: 8 }
3B 02 08 => Store { width: W32, label: Public, bytes: 2, signed: false, align: 2, offset: 8 }
3C 02 08 => Store { width: W64, label: Public, bytes: 1, signed: false, align: 2, offset: 8 }
3D 02 08 => Store { width: W64, label: Public, bytes: 2, signed: false, align: 2, offset: 8 }
3E 02 08 => Store { width: W64, label: Public, bytes: 4, signed: false, align: 2, offset: 8 }
E0 3A 02 08 => Store { width: W32, label: Secret, bytes: 1, signed: false, align: 2, offset: 8 }
20 03 => LocalGet { index: 3 }
21 03 => LocalSet { index: 3 }
22 03 => LocalTee { index: 3 }
23 03 => GlobalGet { index: 3 }
24 FF FF FF FF 0F => GlobalSet { index: 4294967295 }
3F 00 => MemorySize
40 00 => MemoryGrow
41 7F => Const { width: W32, label: Public, bits: 4294967295 }
41 C0 00 => Const { width: W32, label: Public, bits: 64 }
42 7F => Const { width: W64, label: Public, bits: 18446744073709551615 }
E0 41 05 => Const { width: W32, label: Secret, bits: 5 }
E0 42 40 => Const { width: W64, label: Secret, bits: 18446744073709551552 }
E1 => Classify { width: W32 }
E2 => Classify { width: W64 }
E3 => Declassify { width: W32 }
E4 => Declassify { width: W64 }
6A => Numeric { op: NumOp { code: 106 }, label: Public }
E0 6A => Numeric { op: NumOp { code: 106 }, label: Secret }
none => Truncated at byte 0 of the body
02 => Truncated at byte 1 of the body
0C 80 => Truncated at byte 2 of the body
28 02 => Truncated at byte 2 of the body
0E 03 00 00 => Truncated at byte 4 of the body
E0 => Truncated at byte 1 of the body
3F => Truncated at byte 1 of the body
41 80 80 80 80 08 => BadLeb at byte 1 of the body
10 80 80 80 80 80 => BadLeb at byte 1 of the body
0E 01 FF FF FF FF 1F => BadLeb at byte 2 of the body
02 7D => Floats at byte 1 of the body
04 7C => Floats at byte 1 of the body
03 7B => BadBlockType at byte 1 of the body
11 00 01 => BadOpcode at byte 2 of the body
3F 80 00 => BadOpcode at byte 1 of the body
40 01 => BadOpcode at byte 1 of the body
E0 0C 00 => BadOpcode at byte 1 of the body
E0 E0 6A => BadOpcode at byte 1 of the body
E0 E1 => BadOpcode at byte 1 of the body
E0 3F 00 => BadOpcode at byte 1 of the body
";

/// Bytes, and whether they spell a body or the first fault in them.
const BODIES: &str = "\
none => Unbalanced at byte 0 of the body
01 => Unbalanced at byte 1 of the body
02 40 0B => Unbalanced at byte 3 of the body
05 0B => Unbalanced at byte 0 of the body
02 40 05 0B 0B => Unbalanced at byte 2 of the body
04 40 05 05 0B 0B => Unbalanced at byte 3 of the body
0B FF => Unbalanced at byte 1 of the body
0B 0B => Unbalanced at byte 1 of the body
01 43 => Floats at byte 1 of the body
05 43 => Unbalanced at byte 0 of the body
02 40 41 => Truncated at byte 3 of the body
0B => a body
04 40 05 0B 0B => a body
";

/// The instruction at the front of some bytes and the place behind it, or the fault.
fn shown(alloc: Global, bytes: &[u8]) -> Result<String, AllocError>
    requires { length bytes.now < 2 ^ 32 }
{
    match Body::new(bytes).instr_at(0) {
        Ok(found) => {
            let (instr, next) = found;
            if next == bytes.len() {
                format!(in alloc; "{instr:?}")
            } else {
                format!(in alloc; "{instr:?} before byte {next}")
            }
        }
        Err(fault) => format!(in alloc; "{fault}"),
    }
}

#[test]
fn instructions_are_read_whole_or_have_a_fault(rt: HostRuntime) {
    for row in INSTRUCTIONS.lines() {
        let bytes = bytes_in(&rt, rt.alloc(), question(row));
        agrees(&rt, row, shown(rt.alloc(), &bytes));
    }
}

/// What is wrong with the instruction at the front of some bytes.
fn front_fault(bytes: &[u8]) -> Option<CodeFault>
    requires { length bytes.now < 2 ^ 32 }
{
    match Body::new(bytes).instr_at(0) {
        Ok(_) => None,
        Err(fault) => Some(fault),
    }
}

/// The answer for an opcode alone and behind the mark of secret forms.
fn both_forms(code: u8) -> (Option<CodeFault>, Option<CodeFault>) {
    (front_fault(&[code]), front_fault(&[0xE0, code]))
}

/// The numeric opcodes of the standard and of its sign extensions have both forms, those of floats are told, and bytes
/// that are left free are bad.
#[test]
fn opcodes_are_those_of_the_standard(rt: HostRuntime) {
    let numeric = [
        (0x45, 0x5A),
        (0x67, 0x8A),
        (0xA7, 0xA7),
        (0xAC, 0xAD),
        (0xC0, 0xC4),
    ];
    for (low, high) in numeric {
        for code in low..=high {
            assert!(rt; num_op(code).is_some(), "{code:X}");
            assert!(rt; both_forms(code) == (None, None), "{code:X}");
        }
    }
    let floats = [
        (0x2A, 0x2B),
        (0x38, 0x39),
        (0x43, 0x44),
        (0x5B, 0x66),
        (0x8B, 0xA6),
        (0xA8, 0xAB),
        (0xAE, 0xBF),
    ];
    refused_as(&rt, CodeKind::Floats, &floats);
    let free = [
        (0x06, 0x0A),
        (0x12, 0x19),
        (0x1C, 0x1F),
        (0x25, 0x27),
        (0xC5, 0xDF),
        (0xE5, 0xFF),
    ];
    refused_as(&rt, CodeKind::BadOpcode, &free);
}

/// No byte of these ranges begins an instruction, for this reason.
fn refused_as(rt: &impl Abort, kind: CodeKind, ranges: &[(u8, u8)]) {
    for (low, high) in ranges {
        for code in *low..=*high {
            let want = (
                Some(CodeFault { kind, place: 0 }),
                Some(CodeFault { kind, place: 1 }),
            );
            assert!(rt; both_forms(code) == want, "{code:X}");
            assert!(rt;
                is_float_opcode(code) == (kind == CodeKind::Floats),
                "{code:X}"
            );
        }
    }
}

#[test]
fn an_instruction_is_read_where_it_stands(rt: HostRuntime) {
    let body = Body::new(&[0x01, 0x20, 0x05, 0x0B]);
    assert!(rt; body.code().len() == 4);
    assert!(rt; body.instr_at(1) == Ok((Instr::LocalGet { index: 5 }, 3)));
}

#[test]
fn targets_are_read_in_order_and_by_their_index(rt: HostRuntime) {
    // br_table 3 300 0, else 1: the second and the third number aren't spelled in the least bytes
    let body = Body::new(&[0x0E, 0x03, 0x03, 0xAC, 0x82, 0x00, 0x80, 0x00, 0x01]);
    match body.instr_at(0) {
        Ok(
            (
                Instr::BrTable {
                    targets,
                    count,
                    otherwise,
                },
                next,
            ),
        ) => {
            assert!(rt; count == 3 && otherwise == 1 && next == 9);
            for (index, want) in [(0, Some(3)), (1, Some(300)), (2, Some(0)), (3, None)] {
                assert!(rt;
                    Targets::new(targets, count).target(index) == want,
                    "{index}"
                );
            }
            let mut left = Targets::new(targets, count);
            for want in [Some(3), Some(300), Some(0), None, None] {
                assert!(rt; left.next() == want);
            }
        }
        _ => panic!(rt; "no branch table"),
    }
}

/// That the bytes spell a body, or the first fault in them.
fn built(alloc: Global, bytes: &[u8]) -> Result<String, AllocError>
    requires { length bytes.now < 2 ^ 32 }
{
    match build(alloc, &Body::new(bytes)) {
        Ok(_) => format!(in alloc; "a body"),
        Err(fault) => format!(in alloc; "{fault}"),
    }
}

#[test]
fn bodies_are_whole_or_have_a_fault(rt: HostRuntime) {
    for row in BODIES.lines() {
        let bytes = bytes_in(&rt, rt.alloc(), question(row));
        agrees(&rt, row, built(rt.alloc(), &bytes));
    }
}

/// Where the blocks of a body end that is spelled by these bytes.
fn map_of(rt: &impl Abort, alloc: Global, bytes: &[u8]) -> BlockMap {
    assert!(rt; bytes.len() < 100_000);
    build(alloc, &Body::new(bytes)).expect(rt, "a body")
}

#[test]
fn blocks_end_at_their_own_ends(rt: HostRuntime) {
    // block, if, nop, else, loop, end, end, if, end, end, end
    let bytes = [
        0x02, 0x40, 0x04, 0x40, 0x01, 0x05, 0x03, 0x40, 0x0B, 0x0B, 0x04, 0x40, 0x0B, 0x0B, 0x0B,
    ];
    let map = map_of(&rt, rt.alloc(), &bytes);
    let ends = [
        (0, Some((13, None))),
        (2, Some((9, Some(5)))),
        (6, Some((8, None))),
        (10, Some((12, None))),
        (1, None),
        (4, None),
        (5, None),
        (8, None),
        (14, None),
        (15, None),
    ];
    for (at, want) in ends {
        assert!(rt; map.ends(at) == want, "at {at}");
    }
}

/// So many blocks in one another, an opcode, and so many ends.
fn nested(alloc: Global, depth: u32, opcode: u8, ends: u32) -> Result<Vec<u8>, AllocError> {
    let mut bytes = Vec::new(alloc);
    for _ in 0..depth {
        bytes.extend_from_slice(&[0x02, 0x40])?;
    }
    bytes.push(opcode)?;
    for _ in 0..ends {
        bytes.push(0x0B)?;
    }
    Ok(bytes)
}

#[test]
fn the_deepest_block_is_the_4096th(rt: HostRuntime) {
    let bytes = nested(rt.alloc(), 4096, 0x01, 4097).expect(&rt, "memory");
    let map = map_of(&rt, rt.alloc(), &bytes);
    assert!(rt; map.ends(0) == Some((12288, None)));
    assert!(rt; map.ends(8190) == Some((8193, None)));
    // a block type is not looked at where the opcode is too deep
    let deep = nested(rt.alloc(), 4096, 0x03, 0).expect(&rt, "memory");
    assert!(rt; deep.len() < 100_000);
    let row = "too deep => TooDeep at byte 8192 of the body";
    agrees(&rt, row, built(rt.alloc(), &deep));
}

#[test]
fn bodies_one_after_another_have_their_own_blocks(rt: HostRuntime) {
    let mut builder = BlockBuilder::new(rt.alloc()).expect(&rt, "memory");
    // an open block, block and end, nothing, loop and end
    let bodies: [(&[u8], Option<(usize, Option<usize>)>); 4] = [
        (&[0x02, 0x40], None),
        (&[0x02, 0x40, 0x0B, 0x0B], Some((2, None))),
        (&[0x0B], None),
        (&[0x03, 0x40, 0x01, 0x0B, 0x0B], Some((3, None))),
    ];
    for (bytes, want) in bodies {
        assert!(rt; bytes.len() < 10);
        let ends = match builder.build(rt.alloc(), &Body::new(bytes)) {
            Ok(map) => map.ends(0),
            Err(_) => None,
        };
        assert!(rt; ends == want);
    }
}
