ghost use Rattle.std.specs.Prelude.{◌<◌, length};

use crate::cases::bytes_in;
use ctw_module::{ConstExpr, ExternKind, Module};
use ctw_ops::{ExternTag, GlobalType, Label, Limits, MemType, Trust, ValType, Width};
use ctw_read::read;
use std::alloc::Global;
use std::process::Abort;

/// A CT module with all sections, in hexadecimal digits and words; those of tables and memories are empty.
const FILE: &str = "\
00 61 73 6D 01 00 43 54 -- magic and version
00 03 01 61 AA -- custom section 'a'
01 12 03 -- types
61 02 7F 79 01 7A -- trusted, public narrow and secret wide to secret narrow
60 00 00 -- untrusted, without parameters and result
62 00 00 02 7F 7E 01 7F -- a variant of entry zero
02 1E 04 -- imports
01 6D 01 66 00 01 -- 'm' 'f', a function of type one
01 6D 01 67 03 7F 00 -- 'm' 'g', a constant public narrow
01 6D 01 74 01 70 00 01 -- 'm' 't', a table
01 6D 01 79 02 11 01 02 -- 'm' 'y', a secret memory
03 03 02 00 01 -- functions of types zero and one
04 01 00 -- tables
05 01 00 -- memories
06 07 01 7A 01 E0 41 05 0B -- a mutable secret narrow
07 0D 03 -- exports
01 61 00 01 -- 'a', function one
01 62 03 01 -- 'b', global one
01 61 00 02 -- 'a' again, function two
08 01 02 -- start
09 0E 02 -- elements
00 41 03 0B 02 01 02 -- functions one and two from three on
00 23 00 0B 01 00 -- function zero from global zero on
0A 0C 02 -- code
07 02 03 7F 02 7A 00 0B -- three public, two secret; unreachable
02 00 0B -- nothing
0B 09 01 00 41 00 0B 03 01 02 03 -- a data segment
00 02 01 62 -- custom section 'b'";

const I32: ValType = ValType {
    width: Width::W32,
    label: Label::Public,
};

const S32: ValType = ValType {
    width: Width::W32,
    label: Label::Secret,
};

const S64: ValType = ValType {
    width: Width::W64,
    label: Label::Secret,
};

fn module_of<'a>(rt: &impl Abort, alloc: Global, bytes: &'a [u8]) -> Module<'a>
    requires { length bytes.now < 1000 }
{
    read(alloc, bytes).expect(rt, "a module")
}

fn number(bits: u64) -> ConstExpr {
    ConstExpr::Const { value: I32, bits }
}

#[test]
fn a_view_tells_its_types(rt: HostRuntime) {
    let bytes = bytes_in(&rt, rt.alloc(), FILE);
    let module = module_of(&rt, rt.alloc(), &bytes);
    assert!(rt; module.is_ct());
    assert!(rt; module.bytes() == bytes.as_slice());
    assert!(rt; module.type_count() == 3);
    let trusted = module.func_type(0);
    assert!(rt; trusted.trust == Trust::Trusted);
    assert!(rt; trusted.params == [0x7F, 0x79].as_slice());
    assert!(rt; trusted.result == Some(S32));
    assert!(rt; module.variant_of(0).is_none());
    assert!(rt; module.variant_of(2) == Some(0));
}

#[test]
fn imports_come_first_in_each_index_space(rt: HostRuntime) {
    let bytes = bytes_in(&rt, rt.alloc(), FILE);
    let module = module_of(&rt, rt.alloc(), &bytes);
    assert!(rt; module.import_count() == 4);
    let function = module.import(0);
    assert!(rt; function.module == "m");
    assert!(rt; function.name == "f");
    match function.kind {
        ExternKind::Func { type_index, ty } => {
            assert!(rt; type_index == 1);
            assert!(rt; ty.params.is_empty());
        }
        _ => assert!(rt; false, "no function"),
    }
    assert!(rt; matches!(module.import(2).kind, ExternKind::Table(limits) if limits.max.is_none()));
    assert!(rt; module.func_count() == 3);
    assert!(rt; module.type_of_func(0) == 1);
    assert!(rt; module.type_of_func(1) == 0);
    assert!(rt; module.global_count() == 2);
    assert!(rt; module.global(0).init.is_none());
    let defined = module.global(1);
    let ty = GlobalType {
        value: S32,
        mutable: true,
    };
    assert!(rt; defined.ty == ty);
    let init = ConstExpr::Const {
        value: S32,
        bits: 5,
    };
    assert!(rt; defined.init == Some(init));
    let limits = Limits {
        min: 1,
        max: Some(2),
    };
    let memory = MemType {
        label: Label::Secret,
        limits,
    };
    assert!(rt; module.memory() == Some(memory));
    let table = Limits { min: 1, max: None };
    assert!(rt; module.table() == Some(table));
    assert!(rt; module.start() == Some(2));
}

#[test]
fn the_first_export_of_a_name_is_found(rt: HostRuntime) {
    let bytes = bytes_in(&rt, rt.alloc(), FILE);
    let module = module_of(&rt, rt.alloc(), &bytes);
    assert!(rt; module.export_count() == 3);
    assert!(rt; module.export(2) == ("a", ExternTag::Func, 2));
    assert!(rt; module.export_named("a") == Some((ExternTag::Func, 1)));
    assert!(rt; module.export_named("b") == Some((ExternTag::Global, 1)));
    assert!(rt; module.export_named("c").is_none());
}

#[test]
fn parameters_are_the_first_locals(rt: HostRuntime) {
    let bytes = bytes_in(&rt, rt.alloc(), FILE);
    let module = module_of(&rt, rt.alloc(), &bytes);
    assert!(rt; module.func_count() == 3);
    assert!(rt; module.body(0).is_none());
    match module.body(1) {
        Some(body) => {
            assert!(rt; body.code() == [0x00, 0x0B].as_slice());
            assert!(rt; module.local_count(1) == 7);
            for (i, ty) in [(0, I32), (1, S64), (2, I32), (4, I32), (5, S32), (6, S32)] {
                assert!(rt; module.local(1, i) == ty);
            }
        }
        None => assert!(rt; false, "no body"),
    }
}

#[test]
fn segments_and_custom_sections_end(rt: HostRuntime) {
    let bytes = bytes_in(&rt, rt.alloc(), FILE);
    let module = module_of(&rt, rt.alloc(), &bytes);
    match module.element(0) {
        Some(element) => {
            assert!(rt; element.offset == number(3));
            assert!(rt; element.count() == 2);
            assert!(rt; element.func(1) == 2);
        }
        None => assert!(rt; false, "no element"),
    }
    match module.element(1) {
        Some(element) => {
            assert!(rt; element.offset == ConstExpr::Get { global: 0 });
            assert!(rt; element.count() == 1);
            assert!(rt; element.func(0) == 0);
        }
        None => assert!(rt; false, "no second element"),
    }
    assert!(rt; module.element(2).is_none());
    match module.segment(0) {
        Some(segment) => assert!(rt; segment.bytes == [1, 2, 3].as_slice()),
        None => assert!(rt; false, "no segment"),
    }
    assert!(rt; module.segment(1).is_none());
    match module.custom(0) {
        Some(custom) => {
            assert!(rt; custom.place == 0);
            assert!(rt; custom.name == "a");
            assert!(rt; custom.bytes == [0xAA].as_slice());
        }
        None => assert!(rt; false, "no custom section"),
    }
    match module.custom(1) {
        Some(custom) => assert!(rt; custom.place == 11),
        None => assert!(rt; false, "no second custom section"),
    }
    assert!(rt; module.custom(2).is_none());
}

#[test]
fn what_is_imported_and_defined_is_told(rt: HostRuntime) {
    let bytes = bytes_in(&rt, rt.alloc(), FILE);
    let module = module_of(&rt, rt.alloc(), &bytes);
    assert!(rt; module.element_count() == 2);
    assert!(rt; module.segment_count() == 1);
    assert!(rt; module.custom_count() == 2);
    assert!(rt; module.imported_count(ExternTag::Func) == 1);
    assert!(rt; module.imported_count(ExternTag::Table) == 1);
    assert!(rt; module.imported_count(ExternTag::Memory) == 1);
    assert!(rt; module.imported_count(ExternTag::Global) == 1);
    assert!(rt; module.defined_memory().is_none());
    assert!(rt; module.defined_table().is_none());
}
