use ctw_parse::assemble;
use ctw_read::read;
use ctw_tests::{answer, bytes_of, question};
use std::alloc::Global;
use std::process::Abort;

/// A text, and the canonical bytes of the module that it denotes, in hexadecimal.
const BYTES: &str = "\
(module (func (result i32) (i32.add (i32.const 1) (i32.const 2)))) => 00 61 73 6D 01 00 00 00 01 05 01 60 00 01 7F 03 02 01 00 0A 09 01 07 00 41 01 41 02 6A 0B
(module (func (param i32) (result i32) (i32.extend8_s (local.get 0)))) => 00 61 73 6D 01 00 00 00 01 06 01 60 01 7F 01 7F 03 02 01 00 0A 07 01 05 00 20 00 C0 0B
";

/// Two texts that denote one module.
const SAME: &str = "\
(module (func (param i32) (result i32) local.get 0 i32.const 1 i32.add)) => (module (func (param $a i32) (result i32) (i32.add (local.get $a) (i32.const 1))))
(module (func i32.const 1 if nop else drop end)) => (module (func (if (i32.const 1) (then nop) (else drop))))
(module (func i32.const 1 if (result i32) i32.const 2 else i32.const 3 end drop)) => (module (func (drop (if (result i32) (i32.const 1) (then (i32.const 2)) (else (i32.const 3))))))
(module (func block loop br 0 br 1 end end)) => (module (func (block $a (loop $b (br $b) (br $a)))))
(module (func block block br 0 end br 0 end)) => (module (func (block $a (block $a (br $a)) (br $a))))
(module (func if else end)) => (module (func if $a else $a end $a))
(module (func i32.const 0 br_table 0 0 1)) => (module (func (br_table 0 0 1 (i32.const 0))))
(module (func i32.load offset=4 align=1)) => (module (func i32.load offset=0x0_4 align=01))
(module (func i32.load)) => (module (func i32.load offset=0 align=4))
(module (func i32.const -1 i64.const -1)) => (module (func i32.const 0xFFFF_FFFF i64.const 18_446_744_073_709_551_615))
(module (func i32.const 10)) => (module (func i32.const +0x0a))
(module (func) (export \"f\" (func 0))) => (module (func (export \"f\")))
(module (table 1 funcref) (memory 1) (global i32 (i32.const 0)) (export \"t\" (table 0)) (export \"m\" (memory 0)) (export \"g\" (global 0))) => (module (table (export \"t\") 1 funcref) (memory (export \"m\") 1) (global (export \"g\") i32 (i32.const 0)))
(module (import \"a\" \"b\" (func (param i32)))) => (module (func (import \"a\" \"b\") (param i32)))
(module (import \"a\" \"t\" (table 1 2 funcref)) (import \"a\" \"m\" (memory 1)) (import \"a\" \"g\" (global (mut i64)))) => (module (table (import \"a\" \"t\") 1 2 funcref) (memory (import \"a\" \"m\") 1) (global (import \"a\" \"g\") (mut i64)))
(module (import \"a\" \"b\" (func)) (export \"f\" (func 0)) (export \"g\" (func 0))) => (module (func (export \"f\") (export \"g\") (import \"a\" \"b\")))
(module (func) (table 2 2 funcref) (elem (i32.const 0) 0 0)) => (module (func $f) (table funcref (elem $f $f)))
(module (memory 1 1) (data (i32.const 0) \"ab\\00\")) => (module (memory (data \"a\" \"b\\00\")))
(module (memory 0 0) (data (i32.const 0) \"\")) => (module (memory (data)))
(module (memory 1) (data (i32.const 8) \"a\")) => (module (memory $m 1) (data $m (offset i32.const 8) \"a\"))
(module (type (func (param i32 i64))) (func (type 0))) => (module (func (param i32) (param $x i64)))
(module (type (func)) (type (func (param i32))) (func (type 0) call_indirect (type 1))) => (module (func call_indirect (param i32)))
(module (type (func (param i32))) (type (func (result i32))) (func (type 1) call_indirect (type 0))) => (module (type (func (param i32))) (func (result i32) call_indirect (type 0) (param i32)))
(module (func (local i32 i32 i64))) => (module (func (local i32 i32) (local $x i64)))
(module (start 0) (func)) => (module (start $f) (func $f))
(module ct (func (param s32))) => (module ct (type (func (param s32))) (func (type 0)))
(module ct (memory secret 1 1) (data (i32.const 0) \"a\")) => (module ct (memory secret (data \"a\")))
";

/// The canonical bytes of the module that a text denotes, which are read again.
pub fn assembled(rt: &impl Abort, alloc: Global, text: &str) -> Vec<u8> {
    assert!(rt; text.len() < 10_000_000);
    let bytes = assemble(alloc, text).expect(rt, "a module");
    assert!(rt; bytes.len() < 10_000_000);
    assert!(rt; read(alloc, &bytes).is_ok(), "{text}");
    bytes
}

#[test]
fn texts_have_these_bytes(rt: HostRuntime) {
    for row in BYTES.lines() {
        let want = bytes_of(rt.alloc(), answer(row)).expect(&rt, "memory");
        assert_eq!(rt; assembled(&rt, rt.alloc(), question(row)), want, "{row}");
    }
}

#[test]
fn one_module_has_many_texts(rt: HostRuntime) {
    for row in SAME.lines() {
        let plain = assembled(&rt, rt.alloc(), question(row));
        assert_eq!(rt; assembled(&rt, rt.alloc(), answer(row)), plain, "{row}");
    }
}
