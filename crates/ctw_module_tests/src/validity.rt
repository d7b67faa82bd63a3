use crate::cases::{agrees, bytes_in};
use ctw_modcheck::check;
use ctw_ops::Profile;
use ctw_read::read;
use ctw_tests::question;
use std::alloc::{AllocError, Global};
use std::process::Abort;

/// The first eight bytes of a CT module.
const CT: &str = "00 61 73 6D 01 00 43 54";

/// What a row shows, the sections of a CT module, and whether it is valid or what is wrong.
const MODULES: &str = "\
variants, labels and trust may differ: 010F02 60027F79017E 620001027A7E0179 => valid
variants, a variant stands before another entry, and its base is missing too: 010C03 600000 6209000000 600000 => bad variant 1
variants, the first of two variants before another entry, whose own base is right: 011104 600000 6200000000 6209000000 600000 => bad variant 1
variants, a missing base: 010E03 600000 6200000000 6203000000 => bad variant 2
variants, a base that is a variant: 010E03 600000 6200000000 6201000000 => bad variant 2
variants, its own base: 010902 600000 6201000000 => bad variant 1
variants, other widths of a parameter: 010B02 60017F00 620000017E00 => bad variant 1
variants, one parameter less: 010C02 60027F7F00 620000017F00 => bad variant 1
variants, a result more: 010A02 600000 62000000017F => bad variant 1
variants, another width of the result: 010B02 6000017E 62000000017A => bad variant 1
indexes, an import names no type: 010401 600000 020D02 016D01660000 016D01660001 => no such index in Imports 1
indexes, a function names no type; it is counted without imports: 010401 600000 020701 016D01660000 030302 00 01 0A0702 02000B 02000B => no such index in Functions 1
indexes, a global names no global: 060601 7F0023010B => no such index in Globals 0
indexes, an export of a missing function: 070501 01610000 => no such index in Exports 0
indexes, an export of a missing table: 050301 0000 070501 01610100 => no such index in Exports 0
indexes, an export of a missing memory: 040401 700000 070501 01610200 => no such index in Exports 0
indexes, an export of memory 1: 050301 0000 070902 01610200 01620201 => no such index in Exports 1
indexes, an export of a missing global: 060601 7F0041000B 070501 01610301 => no such index in Exports 0
indexes, a missing start function: 010401 600000 030201 00 080101 0A0401 02000B => no such index in Start 0
indexes, an element without a table: 090601 0041000B00 => no such index in Elements 0
indexes, an element with a missing function: 010401 600000 030201 00 040401 700001 090E02 0041000B0100 0041000B020001 0A0401 02000B => no such index in Elements 1
indexes, an offset names no global: 040401 700001 090601 0023000B00 => no such index in Elements 0
indexes, a segment without a memory: 0B0601 0041000B00 => no such index in Segments 0
indexes, a segment of memory 1: 050301 0001 0B0B02 0041000B00 0141000B00 => no such index in Segments 1
indexes, all is there: 010401 600000 020E02 016D01660000 016D0167037F00 030201 00 040401 700001 050301 0001 060601 7F0023000B 071405 01610001 01620100 01630200 01640301 000001 080101 090901 0023000B03000101 0A0401 02000B 0B0801 0023010B020102 => valid
exports, twice the same: 010401 600000 030201 00 070902 01610000 01610000 0A0401 02000B => export 1 has the name of an earlier one
exports, the first of two: 010401 600000 030201 00 071104 01610000 01620000 01620000 01610000 0A0401 02000B => export 2 has the name of an earlier one
exports, a name that begins another: 010401 600000 030201 00 070D03 01610000 0261610000 000000 0A0401 02000B => valid
exports, a missing index comes first on one export: 010401 600000 030201 00 070902 01610000 01610001 0A0401 02000B => no such index in Exports 1
globals, a number of another type: 060B02 7F0041000B 7F0042000B => bad constant expression in Globals 1
globals, a secret number for a public global: 060701 7F00E041000B => bad constant expression in Globals 0
globals, a later global: 060B02 7F0023010B 7F0041000B => bad constant expression in Globals 0
globals, an earlier defined global: 060B02 7F0041000B 7F0023000B => bad constant expression in Globals 1
globals, an imported mutable global: 020801 016D0166037F01 060601 7F0023000B => bad constant expression in Globals 0
globals, an imported global of another type: 020801 016D0166037A00 060601 7F0023000B => bad constant expression in Globals 0
globals, an imported constant, for a mutable global: 020801 016D0166037900 060601 790123000B => valid
offsets, a constant global that is defined: 050301 0001 060601 7F0041000B 0B0601 0023000B00 => valid
offsets, a mutable global: 050301 0001 060601 7F0141000B 0B0B02 0041000B00 0023000B00 => bad constant expression in Segments 1
offsets, a mutable global of another type: 050301 0001 060601 7E0142000B 0B0601 0023000B00 => bad constant expression in Segments 0
offsets, a constant global of another type: 040401 700001 060601 7E0042000B 090601 0023000B00 => bad offset in Elements 0
offsets, a number of another type: 050301 0001 0B0601 0042000B00 => bad offset in Segments 0
offsets, a secret number: 040401 700001 090701 00E041000B00 => bad offset in Elements 0
offsets, what is missing comes first: 060601 7E0142000B 0B0601 0023000B00 => no such index in Segments 0
sizes, a table of 2 to 1: 040501 70010201 => bad limits in Tables
sizes, a table of 1 to 1: 040501 70010101 => valid
sizes, a table may pass 65,536: 040601 7000818004 => valid
sizes, an imported table of 2 to 1: 020A01 016D01660170010201 => bad limits in Imports
sizes, a memory of 2 to 1: 050401 010201 => bad limits in Memories
sizes, 65,536 pages: 050801 01808004808004 => valid
sizes, 65,537 pages: 050501 00818004 => bad limits in Memories
sizes, up to 65,537 pages: 050601 0100818004 => bad limits in Memories
sizes, an imported memory of up to 65,537 pages: 020B01 016D0166020100818004 => bad limits in Imports
sizes, an imported memory of 65,536 pages: 020A01 016D01660200808004 => valid
start, a parameter: 010501 60017F00 030201 00 080100 0A0401 02000B => start function with a parameter or a result
start, a result: 010501 6000017F 020701 016D01660000 080100 => start function with a parameter or a result
start, an imported one that is trusted: 010401 610000 020701 016D01660000 080100 => valid
bodies, the first bad body, with imports counted: 010401 600000 020701 016D01660000 030403 00 00 00 0A0C03 02000B 03001A0B 03001A0B => function 2: wrong type at opcode 0
bodies, an untrusted function calls a trusted one: 010702 600000 610000 030302 00 01 0A0902 040010010B 02000B => function 0: trust wanted at opcode 0
";

/// The same, with faults in two lists that are looked at one after the other,
/// and two faults of one list both ways round.
const ORDERS: &str = "\
lists, types before imports: 010902 600000 6209000000 020A01 016D01740170010201 => bad variant 1
lists, imports before functions: 010401 600000 020A01 016D01740170010201 030302 00 07 0A0702 02000B 02000B => bad limits in Imports
lists, functions before the table: 010401 600000 030302 00 07 040501 70010201 0A0702 02000B 02000B => no such index in Functions 1
lists, the table before the memory: 010401 600000 040501 70010201 050401 010201 => bad limits in Tables
lists, the memory before globals: 010401 600000 050401 010201 060601 7F0042000B => bad limits in Memories
lists, globals before exports: 010401 600000 060601 7F0042000B 070501 01610009 => bad constant expression in Globals 0
lists, exports before start: 010401 600000 070501 01610009 080109 => no such index in Exports 0
lists, start before elements: 010401 600000 080109 090601 0141000B00 => no such index in Start 0
lists, elements before data: 010401 600000 090601 0141000B00 0B0601 0141000B00 => no such index in Elements 0
lists, data before bodies: 010401 600000 030201 00 0A0501 03001A0B 0B0601 0141000B00 => no such index in Segments 0
items, sizes, then a type: 021002 016D01660170010201 016D01660000 => bad limits in Imports
items, a type, then sizes: 021002 016D01660000 016D01660170010201 => no such index in Imports 0
items, a double name, then a missing function: 010401 600000 030201 00 070D03 01610000 01610000 01620001 0A0401 02000B => export 1 has the name of an earlier one
items, a missing function, then a double name: 010401 600000 030201 00 070D03 01610000 01620001 01610000 0A0401 02000B => no such index in Exports 1
items, an offset, then a missing table: 040401 700001 090B02 0042000B00 0141000B00 => bad offset in Elements 0
items, a missing table, then an offset: 040401 700001 090B02 0141000B00 0042000B00 => no such index in Elements 0
";

/// That bytes, which spell a module, spell one that is valid under a profile, or why they don't.
pub fn shown(
    rt: &impl Abort,
    alloc: Global,
    bytes: &[u8],
    profile: Profile,
) -> Result<String, AllocError> {
    assert!(rt; bytes.len() < 100_000);
    let module = read(alloc, bytes).expect(rt, "a module");
    let module = module.with_profile(profile);
    match check(alloc, &module) {
        Ok(()) => format!(in alloc; "valid"),
        Err(fault) => format!(in alloc; "{fault}"),
    }
}

#[test]
fn modules_are_valid_or_have_a_first_fault(rt: HostRuntime) {
    for rows in [MODULES, ORDERS] {
        for row in rows.lines() {
            let mut bytes = bytes_in(&rt, rt.alloc(), CT);
            bytes
                .extend_from_slice(&bytes_in(&rt, rt.alloc(), question(row)))
                .expect(&rt, "memory");
            agrees(&rt, row, shown(&rt, rt.alloc(), &bytes, Profile::Divide));
        }
    }
}
