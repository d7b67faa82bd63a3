ghost use Rattle.std.specs.Prelude.{◌<◌, ◌^◌, length};

use crate::assembling::assembled;
use ctw_modcheck::check;
use ctw_print::print;
use ctw_read::read;
use ctw_tests::bytes_of;
use std::alloc::Global;
use std::process::Abort;

/// A plain module with fields of each kind but for custom ones, as it is printed.
const PLAIN: &str = "\
(module
  (type (func))
  (type (func (param i32 i64) (result i64)))
  (import \"a\" \"f\" (func (type 1)))
  (import \"\" \"\\c3\\a9\\00\\1f ~\\7f\\22\\5c'\" (global i32))
  (import \"a\" \"g\" (global (mut i64)))
  (func (type 0)
  )
  (func (type 1) (local i64 i32 i32)
    i32.const -2147483648
    drop
    i64.const 9223372036854775807
    drop
    i64.const -9223372036854775808
    drop
    i32.const 2147483647
    if
    i32.const -1
    drop
    else
    nop
    end
    local.get 1
  )
  (table 2 4 funcref)
  (memory 1)
  (global i32 (global.get 0))
  (global (mut i64) (i64.const -1))
  (export \"\" (func 2))
  (export \"t\" (table 0))
  (export \"m\" (memory 0))
  (export \"g\" (global 2))
  (start 1)
  (elem (i32.const 0) 0 1)
  (elem (global.get 0))
  (data (i32.const -1) \"\")
  (data (global.get 0) \"\\00\\09\\0a\\0d az09~\\7f\\80\\ff\")
)
";

/// Its canonical bytes, as wabt's `wat2wasm` writes them.
const PLAIN_BYTES: &str = "\
00 61 73 6D 01 00 00 00 01 0A 02 60 00 00 60 02 7F 7E 01 7E 02 1D 03 01 61 01 66 00 01 00 0A C3
A9 00 1F 20 7E 7F 22 5C 27 03 7F 00 01 61 01 67 03 7E 01 03 03 02 00 01 04 05 01 70 01 02 04 05
03 01 00 01 06 0B 02 7F 00 23 00 0B 7E 01 42 7F 0B 07 10 04 00 00 02 01 74 01 00 01 6D 02 00 01
67 03 02 08 01 01 09 0D 02 00 41 00 0B 02 00 01 00 23 00 0B 00 0A 3A 02 02 00 0B 35 02 01 7E 02
7F 41 80 80 80 80 78 1A 42 FF FF FF FF FF FF FF FF FF 00 1A 42 80 80 80 80 80 80 80 80 80 7F 1A
41 FF FF FF FF 07 04 40 41 7F 1A 05 01 0B 20 01 0B 0B 18 02 00 41 7F 0B 00 00 23 00 0B 0D 00 09
0A 0D 20 61 7A 30 39 7E 7F 80 FF";

/// A CT module with own words and custom sections in each place that it has, as it is printed.
const LABELLED: &str = "\
(module ct
  (type (func))
  (type (func (param i32 s64) (result s32)))
  (type (func trusted (param s32) (result i32)))
  (type (variant 0 (func trusted)))
  (import \"a\" \"f\" (func (type 1)))
  (import \"a\" \"m\" (memory secret 1 2))
  (func (type 0) (local s64)
  )
  (func (type 2)
    local.get 0
    s32.declassify
  )
  (func (type 1) (local i32 i64 s32)
    local.get 0
    i32.classify
    local.get 0
    s32.load
    s32.add
    local.get 0
    s32.load8_u offset=4294967295
    local.get 0
    s32.load align=1
    s32.xor
    s32.const 0
    secret.select
    local.get 0
    if
    else
    end
    block (result s32)
    s32.const 2147483647
    end
    s32.and
    s64.const -9223372036854775808
    s32.wrap_s64
    s32.add
  )
  (table 1 funcref)
  (global (mut s32) (s32.const -2147483648))
  (global s64 (s64.const 9223372036854775807))
  (export \"run\" (func 2))
  (start 1)
  (elem (i32.const 0))
  (elem (i32.const 1) 0 2)
  (data (i32.const 0) \"\")
  (custom 0 \"first\" \"\")
  (custom 1 \"\" \"\\00\\ff\")
  (custom 2 \"a\" \"b\")
  (custom 3 \"a\" \"b\")
  (custom 4 \"a\" \"b\")
  (custom 6 \"a\" \"b\")
  (custom 7 \"a\" \"b\")
  (custom 8 \"a\" \"b\")
  (custom 9 \"a\" \"b\")
  (custom 10 \"a\" \"b\")
  (custom 11 \"a\" \"b\")
  (custom 11 \"\\c3\\a9\" \"last\")
)
";

/// The text of the module that bytes spell.
fn printed(rt: &impl Abort, alloc: Global, bytes: &[u8]) -> String {
    assert!(rt; bytes.len() < 10_000_000);
    let m = read(alloc, bytes).expect(rt, "a module");
    check(alloc, &m).expect(rt, "valid");
    print(alloc, &m).expect(rt, "memory")
}

#[test]
fn what_is_printed_is_assembled_to_the_same_module(rt: HostRuntime) {
    for text in [PLAIN, LABELLED, "(module\n)\n", "(module ct\n)\n"] {
        let bytes = assembled(&rt, rt.alloc(), text);
        assert_eq!(rt; printed(&rt, rt.alloc(), &bytes).as_str(), text);
    }
}

#[test]
fn a_printed_module_has_the_bytes_of_another_assembler(rt: HostRuntime) {
    let bytes = bytes_of(rt.alloc(), PLAIN_BYTES).expect(&rt, "memory");
    assert_eq!(rt; printed(&rt, rt.alloc(), &bytes).as_str(), PLAIN);
    assert_eq!(rt; assembled(&rt, rt.alloc(), PLAIN), bytes);
}
