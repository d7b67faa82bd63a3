ghost use Rattle.std.specs.Prelude.{◌<◌, length};
ghost use Rattle.ctw_ops.specs.Valid.{IsValid};
ghost use Rattle.ctw_module.specs.Trees.{view_module};

use crate::cases::{agrees, bytes_in};
use crate::validity::shown;
use ctw_leb::put_u32;
use ctw_modcheck::check;
use ctw_module::Module;
use ctw_ops::Profile;
use ctw_read::read;
use ctw_tests::question;
use ctw_valid::check_body;
use std::alloc::{AllocError, Global};
use std::process::Abort;

/// A CT module without its code: a table, a public memory, a global i32, a constant global s32, and four functions: ()
/// to (), (s32) to (), a trusted (s32) to (i32), and (i32 s32) to (i32).
const AROUND: &str = "\
00 61 73 6D 01 00 43 54
01 13 04 60 00 00 60 01 7A 00 61 01 7A 01 7F 60 02 7F 7A 01 7F
03 05 04 00 01 02 03
04 04 01 70 00 01
05 03 01 00 01
06 0C 02 7F 01 41 00 0B 7A 00 E0 41 00 0B";

/// The bodies of the last three functions, which have their types: nothing; the lowest bit, declassified;
/// the first local.
const OTHERS: &str = "02 00 0B 0A 00 20 00 E0 41 01 E0 71 E3 0B 04 00 20 00 0B";

/// Code of the first function, whose locals are an i32 and an s32: its instructions, its bytes, and whether the module
/// is valid or what is wrong.
const CODE: &str = "\
local.get, local.tee, global.set: 20 00 22 00 24 00 0B => valid
i32.const, i32.load, memory.grow, drop: 41 00 28 02 00 40 00 1A 0B => valid
i32.const, s32.const, call 3, call_indirect 0: 41 00 E0 41 00 10 03 11 00 00 0B => valid
s64.const, s64.const, s32.const, secret select, drop: E0 42 00 E0 42 00 E0 41 00 E0 1B 1A 0B => valid
loop of s32, i32.const, br_if 0, s32.const, end, drop: 03 7A 41 00 0D 00 E0 41 00 0B 1A 0B => valid
i32.const, if of i32, i32.const, else, i32.const, end, br_table 0 0: 41 00 04 7F 41 00 05 41 00 0B 0E 01 00 00 0B => valid
unreachable, select, drop: 00 1B 1A 0B => valid
block, s32 local.get, br_if 0, end: 02 40 20 01 0D 00 0B 0B => function 0: secret at opcode 2: Condition
unreachable, i32.const, i32.classify, br_if 0: 00 41 00 E1 0D 00 0B => function 0: secret at opcode 3: Condition
s64.const, br_if 0: E0 42 00 0D 00 0B => function 0: secret at opcode 1: Condition
s32.const, if: E0 41 00 04 40 0B 0B => function 0: secret at opcode 1: Condition
unreachable, secret select, br_if 0: 00 E0 1B 0D 00 0B => function 0: secret at opcode 2: Condition
s32.const, br_table 0: E0 41 00 0E 00 00 0B => function 0: secret at opcode 1: TableIndex
s32.const, call_indirect 0: E0 41 00 11 00 00 0B => function 0: secret at opcode 1: CallIndex
s32.const, i32.load: E0 41 00 28 02 00 0B => function 0: secret at opcode 1: Address
s32.const, i32.const, i32.store: E0 41 00 41 00 36 02 00 0B => function 0: secret at opcode 2: Address
s32.const, memory.grow: E0 41 00 40 00 0B => function 0: secret at opcode 1: GrowSize
unreachable, s32.div_s: 00 E0 6D 0B => function 0: secret at opcode 1: Divide
s32.const, s32.const, s32.div_u, drop: E0 41 00 E0 41 00 E0 6E 1A 0B => function 0: secret at opcode 2: Divide
s32.const, s32.const, s32.mul, drop: E0 41 00 E0 41 00 E0 6C 1A 0B => valid
s64.const, s64.const, s64.mul, drop: E0 42 00 E0 42 00 E0 7E 1A 0B => valid
s32.const, s32.const, s32.add, drop: E0 41 00 E0 41 00 E0 6A 1A 0B => valid
i64.const, br_if 0: 42 00 0D 00 0B => function 0: wrong type at opcode 1
unreachable, s32.const, i32.store: 00 E0 41 00 36 02 00 0B => function 0: wrong type at opcode 2
block of i32, unreachable, br_table 0 1: 02 7F 00 0E 01 00 01 0B 0B => function 0: wrong type at opcode 2
i32.const, if of i32, i32.const, end: 41 00 04 7F 41 00 0B 1A 0B => function 0: wrong type at opcode 3
i32.const, s32.load of a public memory: 41 00 E0 28 02 00 0B => function 0: wrong type at opcode 1
i32.const: 41 00 0B => function 0: wrong type at opcode 1
br 1: 0C 01 0B => function 0: no such index at opcode 0
unreachable, br_table 1 0: 00 0E 01 01 00 0B => function 0: no such index at opcode 1
local.get 2: 20 02 0B => function 0: no such index at opcode 0
i32.load of 8 bytes: 41 00 28 03 00 0B => function 0: bad alignment at opcode 1
global.set 1: 24 01 0B => function 0: constant global written at opcode 0
local.get 1, call 2: 20 01 10 02 0B => function 0: trust wanted at opcode 1
call_indirect 2: 11 02 00 0B => function 0: trust wanted at opcode 0
s32.declassify: E3 0B => function 0: trust wanted at opcode 0
";

/// The same under the profile Multiply.
const MULTIPLY_CODE: &str = "\
s32.const, s32.const, s32.mul, drop: E0 41 00 E0 41 00 E0 6C 1A 0B => function 0: secret at opcode 2: Divide
s64.const, s64.const, s64.mul, drop: E0 42 00 E0 42 00 E0 7E 1A 0B => function 0: secret at opcode 2: Divide
unreachable, s32.mul: 00 E0 6C 0B => function 0: secret at opcode 1: Divide
s32.const, s32.const, s32.div_u, drop: E0 41 00 E0 41 00 E0 6E 1A 0B => function 0: secret at opcode 2: Divide
s32.const, s32.const, s32.add, drop: E0 41 00 E0 41 00 E0 6A 1A 0B => valid
i32.const, i32.const, i32.mul, drop: 41 00 41 00 6C 1A 0B => valid
";

/// The module with this code of its first function.
fn with_code(rt: &impl Abort, alloc: Global, code: &[u8]) -> Result<Vec<u8>, AllocError>
    requires { length code.now < 100000 }
{
    let mut entry = bytes_in(rt, alloc, "04");
    put_u32(&mut entry, code.len() as u32 + 5)?;
    entry.extend_from_slice(&[0x02, 0x01, 0x7F, 0x01, 0x7A])?;
    entry.extend_from_slice(code)?;
    entry.extend_from_slice(&bytes_in(rt, alloc, OTHERS))?;
    assert!(rt; entry.len() < 1_000_000);
    let mut bytes = bytes_in(rt, alloc, AROUND);
    bytes.push(0x0A)?;
    put_u32(&mut bytes, entry.len() as u32)?;
    bytes.extend_from_slice(&entry)?;
    Ok(bytes)
}

#[test]
fn code_has_its_functions_type_or_a_fault(rt: HostRuntime) {
    for (rows, profile) in [(CODE, Profile::Divide), (MULTIPLY_CODE, Profile::Multiply)] {
        for row in rows.lines() {
            let code = bytes_in(&rt, rt.alloc(), question(row));
            let bytes = with_code(&rt, rt.alloc(), &code).expect(&rt, "memory");
            agrees(&rt, row, shown(&rt, rt.alloc(), &bytes, profile));
        }
    }
}

/// So many blocks in one another, i32.const 0, a br_table of 127 targets, and as many ends.
fn deep(alloc: Global) -> Result<Vec<u8>, AllocError> {
    let mut code = Vec::new(alloc);
    for _ in 0..4096 {
        code.extend_from_slice(&[0x02, 0x40])?;
    }
    code.extend_from_slice(&[0x41, 0x00, 0x0E, 0x7F])?;
    for depth in 0..128 {
        code.push(depth)?;
    }
    for _ in 0..4097 {
        code.push(0x0B)?;
    }
    Ok(code)
}

#[test]
fn deep_blocks_and_long_tables_pass(rt: HostRuntime) {
    let code = deep(rt.alloc()).expect(&rt, "memory");
    assert!(rt; code.len() < 100_000);
    let bytes = with_code(&rt, rt.alloc(), &code).expect(&rt, "memory");
    agrees(
        &rt,
        "deep => valid",
        shown(&rt, rt.alloc(), &bytes, Profile::Divide),
    );
}

/// The valid module that bytes spell.
fn valid_module<'a>(rt: &impl Abort, alloc: Global, bytes: &'a [u8]) -> Module<'a>
    ensures { IsValid (view_module result) }
{
    assert!(rt; bytes.len() < 1000);
    let module = read(alloc, bytes).expect(rt, "a module");
    check(alloc, &module).expect(rt, "a valid module");
    module
}

/// A valid module's function of this index is defined, and its body has its type.
fn body_passes(rt: &impl Abort, alloc: Global, m: &Module, f: u32)
    requires { IsValid (view_module m.now) }
{
    assert!(rt; f < m.func_count());
    assert!(rt; m.body(f).is_some());
    assert!(rt; check_body(alloc, m, f) == Ok(()));
}

#[test]
fn each_body_of_a_valid_module_has_its_functions_type(rt: HostRuntime) {
    let bytes = with_code(&rt, rt.alloc(), &[0x0B]).expect(&rt, "memory");
    let module = valid_module(&rt, rt.alloc(), &bytes);
    assert!(rt; module.func_count() == 4);
    for f in 0..4 {
        body_passes(&rt, rt.alloc(), &module, f);
    }
}
