ghost use Rattle.std.specs.Prelude.{◌<◌, ◌^◌, length};

use crate::assembling::assembled;
use ctw_parse::assemble;
use ctw_tests::{answer, question};
use std::alloc::{AllocError, Global};
use std::process::Abort;

/// A text, and its first fault: of the first pass that finds one the leftmost.
const FAULTS: &str = "\
(; x => LexPlace { kind: OpenComment, start: 0, line: 1 }
(module ,) => LexPlace { kind: BadChar, start: 8, line: 1 }
(module $x \"x => LexPlace { kind: OpenString, start: 11, line: 1 }
(module (func $f) (func $f) \"\\q\") => LexPlace { kind: BadEscape, start: 29, line: 1 }
 => unexpected token from byte 0 to 0
x => unexpected token from byte 0 to 1
(func) => unexpected token from byte 1 to 5
(module => unexpected token from byte 7 to 7
(module (func nop => unexpected token from byte 17 to 17
(module) (module) => unexpected token from byte 9 to 10
(module (func) (import \"a\" \"b\" (func))) => unexpected token from byte 16 to 22
(module (start 0) (start 0)) => unexpected token from byte 19 to 24
(module (func s32.add)) => unexpected token from byte 14 to 21
(module (func (param s32))) => unexpected token from byte 21 to 24
(module (memory secret 1)) => unexpected token from byte 16 to 22
(module (type (func trusted))) => unexpected token from byte 20 to 27
(module (type (variant 0 (func)))) => unexpected token from byte 15 to 22
(module ct (func (type 0) trusted)) => unexpected token from byte 26 to 33
(module (type (func (param i32))) (func (type 0) (param i64))) => unexpected token from byte 40 to 41
(module (func (type 7) (param i64))) => unexpected token from byte 14 to 15
(module (func block (result i32 i64) end)) => unexpected token from byte 32 to 35
(module (func block (result ) end)) => unexpected token from byte 28 to 29
(module (func i32.load align=1 offset=2)) => unexpected token from byte 31 to 39
(module (func i32.load align=x)) => unexpected token from byte 23 to 30
(module (func i32.load offset=-1)) => unexpected token from byte 23 to 32
(module (func br -1)) => unexpected token from byte 17 to 19
(module (func i32.const 0x)) => unexpected token from byte 24 to 26
(module (func i32.const 1__0)) => unexpected token from byte 24 to 28
(module (func call $)) => unexpected token from byte 19 to 20
(module (export \"\\ff\" (func 0))) => unexpected token from byte 16 to 21
(module (import \"a\" \"\\c0\\80\" (func))) => unexpected token from byte 20 to 28
(module (custom 0 \"\\ff\" \"\")) => unexpected token from byte 18 to 23
(module (global i32 nop)) => unexpected token from byte 20 to 23
(module (global i32 (i32.const 1) (i32.const 2))) => unexpected token from byte 34 to 35
(module (func (if (then) (nop))) => unexpected token from byte 26 to 29
(module (func call $g)) => unknown name from byte 19 to 21
(module (func local.get $x)) => unknown name from byte 24 to 26
(module (func br $l)) => unknown name from byte 17 to 19
(module (func (block $l) br $l)) => unknown name from byte 28 to 30
(module (func block $a end $b)) => unknown name from byte 27 to 29
(module (func block end $b)) => unknown name from byte 24 to 26
(module (func if $a else $b end)) => unknown name from byte 25 to 27
(module (start $s)) => unknown name from byte 15 to 17
(module (func (type $t))) => unknown name from byte 20 to 22
(module (export \"m\" (memory $f)) (func $f)) => unknown name from byte 28 to 30
(module (func $f) (func $f)) => name that is taken from byte 24 to 26
(module (import \"a\" \"b\" (func $f)) (func $f)) => name that is taken from byte 41 to 43
(module (type $t (func)) (type $t (func))) => name that is taken from byte 31 to 33
(module (func (param $a i32) (local $a i32))) => name that is taken from byte 36 to 38
(module (func call_indirect (param $a i32) (param $a i64))) => name that is taken from byte 50 to 52
(module (func i32.const 4294967296)) => number out of range from byte 24 to 34
(module (func i32.const -2147483649)) => number out of range from byte 24 to 35
(module (func i64.const 18446744073709551616)) => number out of range from byte 24 to 44
(module (func i64.const -0x8000_0000_0000_0001)) => number out of range from byte 24 to 46
(module (func call 4294967296)) => number out of range from byte 19 to 29
(module (func i32.load offset=4294967296)) => number out of range from byte 23 to 40
(module (func i32.load align=3)) => number out of range from byte 23 to 30
(module (func i32.load align=0)) => number out of range from byte 23 to 30
(module (func i32.load align=4294967296)) => number out of range from byte 23 to 39
(module (memory 4294967296)) => number out of range from byte 16 to 26
(module (custom 12 \"a\" \"\")) => number out of range from byte 16 to 18
(module (func f32.add)) => float from byte 14 to 21
(module (func (param f64))) => float from byte 21 to 24
(module (func i32.trunc_f32_s)) => float from byte 14 to 29
(module (func (f64.const 1))) => float from byte 15 to 24
(module (func block (result f32))) => float from byte 28 to 31
(module (func $f call $g) (func $f)) => unknown name from byte 22 to 24
(module (func $f) (func $f call $g)) => name that is taken from byte 24 to 26
(module (func call $g) (func i32.const 4294967296)) => number out of range from byte 39 to 49
(module (memory 1) (memory 1) (func call $g)) => unknown name from byte 41 to 43
(module (memory 1) (memory 1)) => too many Memories: the limit is 1
(module (import \"a\" \"b\" (memory 1)) (memory 1)) => too many Memories: the limit is 1
(module (table 1 funcref) (table 1 funcref)) => too many Tables: the limit is 1
(module (func (result i32 i32))) => too many Results: the limit is 1
(module (memory 1) (memory 1) (type (func (result i32 i32)))) => too many Results: the limit is 1
(module (memory 1) (memory 1) (table 0 funcref) (table 0 funcref)) => too many Tables: the limit is 1
";

/// What `assemble` says of a text that it refuses.
fn fault_of(rt: &impl Abort, alloc: Global, text: &str) -> Result<String, AllocError> {
    assert!(rt; text.len() < 10_000_000);
    let fault = assemble(alloc, text).err();
    assert!(rt; fault.is_some(), "{text}");
    format!(in alloc; "{}", fault.expect(rt, "a fault"))
}

#[test]
fn the_first_fault_of_the_first_pass_is_told(rt: HostRuntime) {
    for row in FAULTS.lines() {
        let fault = fault_of(&rt, rt.alloc(), question(row)).expect(&rt, "memory");
        assert_eq!(rt; fault.as_str(), answer(row), "{row}");
    }
}

/// A text between two others: one part so many times, and then another as often.
fn repeated(
    alloc: Global,
    front: &str,
    parts: (&str, &str),
    count: u32,
    back: &str,
) -> Result<String, AllocError> {
    let mut text = String::from_str(alloc, front)?;
    for _ in 0..count {
        text.push_str(parts.0)?;
    }
    for _ in 0..count {
        text.push_str(parts.1)?;
    }
    text.push_str(back)?;
    Ok(text)
}

#[test]
fn limits_are_reached_and_not_passed(rt: HostRuntime) {
    let table = [
        (
            "(module (func (param",
            (" i32", ""),
            1_000,
            ")))",
            "too many Params: the limit is 1000",
        ),
        (
            "(module (func (local",
            (" i32", ""),
            50_000,
            ")))",
            "too many Locals: the limit is 50000",
        ),
        (
            "(module (func",
            (" block", " end"),
            4_096,
            "))",
            "too many Nesting: the limit is 4096",
        ),
        // beside these bytes stand the header, the section's id and its size, and the length of its empty name
        (
            "(module (custom 0 \"\" \"",
            ("a", ""),
            2_097_152 - 8 - 1 - 3 - 1,
            "\"))",
            "too many Bytes: the limit is 2097152",
        ),
    ];
    for (front, parts, count, back, want) in table {
        let most = repeated(rt.alloc(), front, parts, count, back).expect(&rt, "memory");
        assembled(&rt, rt.alloc(), most.as_str());
        let more = repeated(rt.alloc(), front, parts, count + 1, back).expect(&rt, "memory");
        let fault = fault_of(&rt, rt.alloc(), more.as_str()).expect(&rt, "memory");
        assert_eq!(rt; fault.as_str(), want);
    }
}

#[test]
fn a_ct_module_may_have_more_bytes(rt: HostRuntime) {
    let text = repeated(
        rt.alloc(),
        "(module ct (custom 0 \"\" \"",
        ("a", ""),
        3_000_000,
        "\"))",
    )
    .expect(&rt, "memory");
    assert_eq!(rt;
        assembled(&rt, rt.alloc(), text.as_str()).len(),
        8 + 1 + 4 + 1 + 3_000_000
    );
}
