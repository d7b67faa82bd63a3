use crate::rows::{ADDER, Fails, sum_says};
use crate::runs::{is_sealed, is_stripped, save, says, says_of, shelf_of, writes};
use ctw_io::{Shelf, SureShelf};
use ctw_tests::{answer, bytes_of, question};
use ctwasm_top::Status;
use std::alloc::{AllocError, Global};
use std::process::Abort;

/// A run of the script t over the vault v and the one part m.
const RUN: &str = "run t v s m=m";

/// The moves of a session, as a script, of rows `MOVE => LINES`.
fn moves_of(alloc: Global, rows: &str) -> Result<String, AllocError> {
    let mut script = String::new(alloc);
    for row in rows.lines() {
        script.push_str(question(row))?;
        script.push_str("\n")?;
    }
    Ok(script)
}

/// The lines of such rows, which stand between `|`.
fn lines_of(alloc: Global, rows: &str) -> Result<String, AllocError> {
    let mut text = String::new(alloc);
    for row in rows.lines() {
        for line in answer(row).split('|') {
            text.push_str(line)?;
            text.push_str("\n")?;
        }
    }
    Ok(text)
}

/// A line between a first and a last one, so many times.
fn repeated(
    alloc: Global,
    first: &str,
    times: u32,
    line: &str,
    last: &str,
) -> Result<String, AllocError> {
    let mut text = String::from_str(alloc, first)?;
    for _time in 0..times {
        text.push_str(line)?;
    }
    text.push_str(last)?;
    Ok(text)
}

/// The words of a line, over these files in hexadecimal and the moves of these rows as the script t, are done and write
/// the lines of the rows. The files that are left are answered.
fn tells(
    rt: &impl Abort,
    alloc: Global,
    line: &str,
    files: &[(&str, &str)],
    rows: &str,
) -> SureShelf {
    let mut shelf = shelf_of(rt, alloc, files);
    let script = moves_of(alloc, rows).expect(rt, "memory");
    assert_eq!(rt; shelf.save("t", script.as_bytes()), Ok(()));
    let text = lines_of(alloc, rows).expect(rt, "memory");
    writes(rt, alloc, line, &mut shelf, Status::Done, text.as_bytes());
    shelf
}

/// A call of the export f with these arguments, over a module and a vault in hexadecimal, begins and then writes this.
/// What it seals is left as the file s, and is answered with the other files.
fn calls(
    rt: &impl Abort,
    alloc: Global,
    (module, vault): (&str, &str),
    export: &str,
    text: &str,
) -> SureShelf {
    let mut shelf = shelf_of(rt, alloc, &[("m", module), ("v", vault)]);
    let line = format!(in alloc; "once m v s {export}").expect(rt, "memory");
    let text = format!(in alloc; "began\n{text}").expect(rt, "memory");
    says(rt, alloc, line.as_str(), &mut shelf, text.as_str());
    shelf
}

/// `f` of type (i32 i32) to (i32): local.get 0 local.get 1 i32.rem_s end.
pub const REMAINDER: &str = "\
00 61 73 6D 01 00 00 00 01 07 01 60 02 7F 7F 01 7F 03 02 01 00 07 05 01 01 66 00 00 0A 09 01 07 00 20 00 20 01
6F 0B";

/// The same with i32.div_s.
pub const QUOTIENT: &str = "\
00 61 73 6D 01 00 00 00 01 07 01 60 02 7F 7F 01 7F 03 02 01 00 07 05 01 01 66 00 00 0A 09 01 07 00 20 00 20 01
6D 0B";

#[test]
fn the_least_number_by_minus_one_has_a_remainder_and_no_quotient(rt: HostRuntime) {
    let arguments = "f -2147483648 -1";
    let table = [
        (REMAINDER, "divide 2147483648 4294967295\ndone 4 i32 0\n"),
        (
            QUOTIENT,
            "divide 2147483648 4294967295\ntrap 3 DivOverflow\n",
        ),
    ];
    for (module, text) in table {
        let shelf = calls(&rt, rt.alloc(), (module, ""), arguments, text);
        is_sealed(&rt, rt.alloc(), &shelf, "");
    }
}

/// One page, and `f` of type (i32) to (i32): local.get 0 i32.load end.
const LOAD: &str = "\
00 61 73 6D 01 00 00 00 01 06 01 60 01 7F 01 7F 03 02 01 00 05 03 01 00 01 07 05 01 01 66 00 00 0A 09 01 07 00
20 00 28 02 00 0B";

/// The same with the offset 4294967295.
pub const FAR_LOAD: &str = "\
00 61 73 6D 01 00 00 00 01 06 01 60 01 7F 01 7F 03 02 01 00 05 03 01 00 01 07 05 01 01 66 00 00 0A 0D 01 0B 00
20 00 28 02 FF FF FF FF 0F 0B";

#[test]
fn a_load_past_the_end_is_told_and_traps(rt: HostRuntime) {
    let table = [
        (LOAD, "f 65532", "load 0 65532 4\ndone 3 i32 0\n"),
        (LOAD, "f 65533", "load 0 65533 4\ntrap 2 MemoryBounds\n"),
        (
            FAR_LOAD,
            "f 4294967295",
            "load 0 8589934590 4\ntrap 2 MemoryBounds\n",
        ),
    ];
    for (module, call, text) in table {
        let _shelf = calls(&rt, rt.alloc(), (module, ""), call, text);
    }
}

/// A secret memory of 1 to 2 pages, and `f` of type (i32) to (i32): local.get 0 memory.grow end.
pub const GROW: &str = "\
00 61 73 6D 01 00 43 54 01 06 01 60 01 7F 01 7F 03 02 01 00 05 04 01 11 01 02 07 05 01 01 66 00 00 0A 08 01 06
00 20 00 40 00 0B";

/// The same with a second parameter s32, which nothing reads.
const GROW_BESIDE: &str = "\
00 61 73 6D 01 00 43 54 01 07 01 60 02 7F 7A 01 7F 03 02 01 00 05 04 01 11 01 02 07 05 01 01 66 00 00 0A 08 01
06 00 20 00 40 00 0B";

/// The first with a public memory of one page without a greatest size, in a plain module.
const GROW_ON: &str = "\
00 61 73 6D 01 00 00 00 01 06 01 60 01 7F 01 7F 03 02 01 00 05 03 01 00 01 07 05 01 01 66 00 00 0A 08 01 06 00
20 00 40 00 0B";

/// Two calls with the argument 1.
const TO_TWO: &str = "\
begin 0 \"m\" \"f\" 1 => began
turn 0 1000000 => grow 1|done 3 i32 1
begin 0 \"m\" \"f\" 1 => began
turn 0 1000000 => grow 1|done 3 i32 4294967295
";

/// Calls with the arguments 4095 and 1.
const TO_4096: &str = "\
begin 0 \"m\" \"f\" 4095 => began
turn 0 1000000 => grow 4095|done 3 i32 1
begin 0 \"m\" \"f\" 1 => began
turn 0 1000000 => grow 1|done 3 i32 4294967295
";

/// The two calls with a secret beside the argument.
const BESIDE: &str = "\
begin 0 \"m\" \"f\" 1 * => began
turn 0 1000000 => grow 1|done 3 i32 1
begin 0 \"m\" \"f\" 1 * => began
turn 0 1000000 => grow 1|done 3 i32 4294967295
";

#[test]
fn a_memory_grows_up_to_its_greatest_size(rt: HostRuntime) {
    tells(&rt, rt.alloc(), RUN, &[("m", GROW), ("v", "")], TO_TWO);
}

#[test]
fn all_memories_grow_up_to_4096_pages(rt: HostRuntime) {
    tells(&rt, rt.alloc(), RUN, &[("m", GROW_ON), ("v", "")], TO_4096);
}

#[test]
fn two_vaults_tell_the_same(rt: HostRuntime) {
    for vault in ["00 00 00 00 00 00 00 00", "01 02 03 04 FF FF FF FF"] {
        tells(
            &rt,
            rt.alloc(),
            RUN,
            &[("m", GROW_BESIDE), ("v", vault)],
            BESIDE,
        );
    }
}

/// One page, exported as `mem`, and `w` of type (i32) to (): i32.const 0 local.get 0 i32.store8 i32.const 1 local.get
/// 0 i32.store8 end.
pub const WRITER: &str = "\
00 61 73 6D 01 00 00 00 01 05 01 60 01 7F 00 03 02 01 00 05 03 01 00 01 07 0B 02 03 6D 65 6D 02 00 01 77 00 00
0A 12 01 10 00 41 00 20 00 3A 00 00 41 01 20 00 3A 00 00 0B";

/// Two calls that write the same two bytes, in turns.
const TURNS: &str = "\
begin 0 \"m\" \"w\" 5 => began
begin 1 \"m\" \"w\" 9 => began
turn 0 3 => store 0 0 1|more 3
turn 1 1 => more 1
peek \"m\" \"mem\" 0 2 => bytes 0500
turn 1 5 => store 0 0 1|store 0 1 1|more 5
peek \"m\" \"mem\" 0 2 => bytes 0909
turn 0 0 => more 0
turn 0 1000000 => store 0 1 1|done 4
peek \"m\" \"mem\" 0 2 => bytes 0905
turn 0 1 => refused SlotFree
turn 1 1000001 => refused TurnTooLong
begin 1 \"m\" \"w\" 1 => refused SlotBusy
drop 1 => dropped
";

/// Bytes at the end of a memory of one page.
const ENDS: &str = "\
poke \"m\" \"mem\" 65535 \"\\01\\02\" => refused Bounds
peek \"m\" \"mem\" 65536 0 => bytes\u{20}
";

/// Two pages, exported as `mem`.
const TWO_PAGES: &str = "00 61 73 6D 01 00 00 00 05 03 01 00 02 07 07 01 03 6D 65 6D 02 00";

/// Bytes on both sides of a page's end.
const CROSSING: &str = "\
poke \"m\" \"mem\" 65534 \"\\01\\02\\03\\04\" => wrote
peek \"m\" \"mem\" 65533 6 => bytes 000102030400
";

#[test]
fn two_calls_take_turns_over_one_memory(rt: HostRuntime) {
    let files = [("m", WRITER), ("v", "")];
    let shelf = tells(&rt, rt.alloc(), RUN, &files, TURNS);
    is_sealed(&rt, rt.alloc(), &shelf, "");
}

#[test]
fn no_bytes_stand_at_the_end_of_a_memory(rt: HostRuntime) {
    let files = [("m", WRITER), ("v", "")];
    tells(&rt, rt.alloc(), RUN, &files, ENDS);
}

#[test]
fn bytes_are_written_over_the_end_of_a_page(rt: HostRuntime) {
    let files = [("m", TWO_PAGES), ("v", "")];
    tells(&rt, rt.alloc(), RUN, &files, CROSSING);
}

/// `bit` of type trusted (s32) to (i32): local.get 0 s32.const 1 s32.and s32.declassify end.
pub const BIT: &str = "\
00 61 73 6D 01 00 43 54 01 06 01 61 01 7A 01 7F 03 02 01 00 07 07 01 03 62 69 74 00 00 0A 0C 01 0A 00 20 00 E0
41 01 E0 71 E3 0B";

#[test]
fn what_is_told_depends_on_what_is_declassified(rt: HostRuntime) {
    let table = [
        ("03 00 00 00", "done 4 i32 1\n"),
        ("05 00 00 00", "done 4 i32 1\n"),
        ("04 00 00 00", "done 4 i32 0\n"),
    ];
    for (vault, text) in table {
        let shelf = calls(&rt, rt.alloc(), (BIT, vault), "bit *", text);
        is_sealed(&rt, rt.alloc(), &shelf, "");
    }
}

/// `f` of type (s64) to (), with an empty body.
pub const WIDE: &str = "\
00 61 73 6D 01 00 43 54 01 05 01 60 01 79 00 03 02 01 00 07 05 01 01 66 00 00 0A 04 01 02 00 0B";

/// Calls over a vault of seven bytes.
const SHORT: &str = "\
begin 0 \"m\" \"f\" * => refused VaultShort
begin 0 \"m\" \"f\" -1 => began
";

#[test]
fn a_number_stands_for_a_secret_where_the_vault_is_short(rt: HostRuntime) {
    let files = [("m", WIDE), ("v", "00 00 00 00 00 00 00")];
    tells(&rt, rt.alloc(), RUN, &files, SHORT);
}

/// `f` of type () to (): call 0 end.
pub const NEST: &str = "\
00 61 73 6D 01 00 00 00 01 04 01 60 00 00 03 02 01 00 07 05 01 01 66 00 00 0A 06 01 04 00 10 00 0B";

/// The same as a CT module.
const NEST_LABELLED: &str = "\
00 61 73 6D 01 00 43 54 01 04 01 60 00 00 03 02 01 00 07 05 01 01 66 00 00 0A 06 01 04 00 10 00 0B";

#[test]
fn calls_nest_up_to_the_greatest_weight(rt: HostRuntime) {
    let text = repeated(
        rt.alloc(),
        "",
        1_000_000,
        "enter 0\n",
        "trap 1000000 Exhausted\n",
    )
    .expect(&rt, "memory");
    is_stripped(&rt, rt.alloc(), NEST, NEST);
    is_stripped(&rt, rt.alloc(), NEST_LABELLED, NEST);
    for module in [NEST_LABELLED, NEST] {
        let _shelf = calls(&rt, rt.alloc(), (module, ""), "f", text.as_str());
    }
}

/// The start function: loop br 0 end end.
pub const START_LOOPS: &str = "\
00 61 73 6D 01 00 00 00 01 04 01 60 00 00 03 02 01 00 08 01 00 0A 09 01 07 00 03 40 0C 00 0B 0B";

/// The start function: unreachable end.
const START_TRAPS: &str = "\
00 61 73 6D 01 00 00 00 01 04 01 60 00 00 03 02 01 00 08 01 00 0A 05 01 03 00 00 0B";

/// The same start function, a table of one entry, one page, an element inside and one outside, and a data segment
/// outside.
pub const ELEMENT_OUTSIDE: &str = "\
00 61 73 6D 01 00 00 00 01 04 01 60 00 00 03 02 01 00 04 04 01 70 00 01 05 03 01 00 01 08 01 00 09 0D 02 00 41
00 0B 01 00 00 41 01 0B 01 00 0A 05 01 03 00 00 0B 0B 09 01 00 41 80 80 04 0B 01 01";

/// The same start function, one page, no bytes of data at its end, and two bytes of data over its end.
pub const DATA_OUTSIDE: &str = "\
00 61 73 6D 01 00 00 00 01 04 01 60 00 00 03 02 01 00 05 03 01 00 01 08 01 00 0A 05 01 03 00 00 0B 0B 11 02 00
41 80 80 04 0B 00 00 41 FF FF 03 0B 02 01 02";

#[test]
fn a_start_function_that_goes_on_is_refused(rt: HostRuntime) {
    let files = [("m", START_LOOPS), ("t", ""), ("v", "")];
    let mut shelf = shelf_of(&rt, rt.alloc(), &files);
    let text = "refused launch StartUnfinished m\n";
    says(&rt, rt.alloc(), RUN, &mut shelf, text);
    assert!(rt; shelf.file("s").is_none());
}

#[test]
fn segments_are_looked_at_before_start_functions(rt: HostRuntime) {
    let table = [
        (START_TRAPS, "refused launch StartTrapped m Unreachable\n"),
        (ELEMENT_OUTSIDE, "refused launch SegmentOutside m elem 1\n"),
        (DATA_OUTSIDE, "refused launch SegmentOutside m data 1\n"),
    ];
    for (module, text) in table {
        let files = [("m", module), ("t", ""), ("v", "")];
        let mut shelf = shelf_of(&rt, rt.alloc(), &files);
        for line in [RUN, "once m v s f"] {
            says(&rt, rt.alloc(), line, &mut shelf, text);
        }
        assert!(rt; shelf.file("s").is_none());
    }
}

#[test]
fn a_script_of_more_than_a_mebibyte_is_too_large(rt: HostRuntime) {
    let mut shelf = shelf_of(&rt, rt.alloc(), &[("m", WRITER), ("v", "")]);
    let table = [(1_048_577, "refused TooLarge t\n"), (1_048_576, "")];
    for (size, text) in table {
        let script = vec![in rt.alloc(); b'\n'; size].expect(&rt, "memory");
        assert_eq!(rt; shelf.save("t", &script), Ok(()));
        says(&rt, rt.alloc(), RUN, &mut shelf, text);
    }
    is_sealed(&rt, rt.alloc(), &shelf, "");
}

#[test]
fn a_line_that_is_no_move_is_refused(rt: HostRuntime) {
    let mut shelf = shelf_of(&rt, rt.alloc(), &[("m", WRITER), ("v", "")]);
    let script = "drop 0\njump 0\n";
    assert_eq!(rt; shelf.save("t", script.as_bytes()), Ok(()));
    says(&rt, rt.alloc(), RUN, &mut shelf, "refused script Line 2\n");
    assert!(rt; shelf.file("s").is_none());
}

/// Files that are no modules, scripts that are none, and a module that isn't valid.
const FAULTY: [(&str, &str); 6] = [
    ("cut", "00 61 73 6D 01 00 00"),
    ("invalid", "00 61 73 6D 01 00 00 00 07 05 01 01 6D 02 00"),
    ("jump", "6A 75 6D 70"),
    ("quote", "0A 22"),
    ("bytes", "64 72 FF"),
    ("header", "00 61 73 6D 01 00 00 00"),
];

/// Words over these files, a script `t`, a vault `v` and a module `m`, and why they are refused: words that name one
/// file come before files; all files are loaded, in the order of the words, before one is looked into; then come the
/// script, each module, and the set.
const RUN_REFUSALS: &str = "\
run t t s a=m => refused SameFile t
run t m s a=m => refused SameFile m
run t v s a=m b=v => refused SameFile v
run t v t a=m => refused SameFile t
run t v m a=m => refused SameFile m
run t v v a=m => refused SameFile v
run gone gone gone a=gone => refused SameFile gone
run t v s a=m b=s => refused SameFile s
run gone gone2 s a=gone3 => refused Missing gone
run t gone2 s a=gone3 => refused Missing gone2
run bytes v s a=cut b=gone3 => refused Missing gone3
run bytes v s a=cut => refused NotText bytes 2
run quote v s a=cut => refused script Lex 2
run jump v s a=cut => refused script Line 1
run header v s a=header => refused script Lex 1
run t v s a=cut b=invalid => refused read cut Truncated 7
run t v s a=invalid b=cut => refused check invalid ModuleIndex export 0
run t v s a=m a=m => refused link DoubleName 1
";

#[test]
fn each_refusal_of_a_run_has_its_line(rt: HostRuntime) {
    let files = [("m", WRITER), ("t", ""), ("v", "05")];
    let mut shelf = shelf_of(&rt, rt.alloc(), &files);
    for (name, digits) in FAULTY {
        save(&rt, rt.alloc(), &mut shelf, name, digits);
    }
    for row in RUN_REFUSALS.lines() {
        let text = format!(in rt.alloc(); "{}\n", answer(row)).expect(&rt, "memory");
        says(&rt, rt.alloc(), question(row), &mut shelf, text.as_str());
    }
    assert!(rt; shelf.file("s").is_none());
}

/// Functions of type (i32) to (i32) that give their parameter: the first and the third under the first type entry, the
/// second under its variant (s32) to (s32).
pub const VARIANT: &str = "\
00 61 73 6D 01 00 43 54 01 0D 02 60 01 7F 01 7F 62 00 00 01 7A 01 7A 03 04 03 00 01 00
0A 10 03 04 00 20 00 0B 04 00 20 00 0B 04 00 20 00 0B";

/// The same without the variant, as a plain module.
const BASE: &str = "\
00 61 73 6D 01 00 00 00 01 06 01 60 01 7F 01 7F 03 04 03 00 00 00
0A 10 03 04 00 20 00 0B 04 00 20 00 0B 04 00 20 00 0B";

/// The adder with i32.add and without a classify, as a plain module.
const PLAIN_ADDER: &str = "\
00 61 73 6D 01 00 00 00 01 07 01 60 02 7F 7F 01 7F 03 02 01 00 07 05 01 01 66 00 00 0A 09 01 07 00 20 00 20 01 6A 0B";

#[test]
fn a_variant_is_stripped_to_its_entry(rt: HostRuntime) {
    is_stripped(&rt, rt.alloc(), VARIANT, BASE);
}

#[test]
fn a_stripped_sum_is_told(rt: HostRuntime) {
    is_stripped(&rt, rt.alloc(), ADDER, PLAIN_ADDER);
    let module = (PLAIN_ADDER, "");
    let _shelf = calls(&rt, rt.alloc(), module, "f 5 7", "done 4 i32 12\n");
}

#[test]
fn what_is_not_valid_is_not_stripped(rt: HostRuntime) {
    let table = [
        ("00", "refused read m Truncated 1\n"),
        (
            "00 61 73 6D 01 00 00 00 07 05 01 01 6D 02 00",
            "refused check m ModuleIndex export 0\n",
        ),
    ];
    for (module, text) in table {
        says_of(&rt, rt.alloc(), "strip m", module, text);
    }
}

/// The bytes of `f` of type () to (): loop i32.const 0 if; then 2,000,000 times nop; and then end br 0 end end.
const LONG_ARM: (&str, &str) = (
    "\
00 61 73 6D 01 00 00 00 01 04 01 60 00 00 03 02 01 00 07 05 01 01 66 00 00 0A 90 89 7A 01 8C 89 7A 00 03 40 41
00 04 40",
    "0B 0C 00 0B 0B",
);

#[test]
fn a_long_arm_that_is_not_taken_costs_no_steps(rt: HostRuntime) {
    let (head, tail) = LONG_ARM;
    let mut module = bytes_of(rt.alloc(), head).expect(&rt, "memory");
    let arm = vec![in rt.alloc(); 1u8; 2_000_000].expect(&rt, "memory");
    module.extend_from_slice(&arm).expect(&rt, "memory");
    let end = bytes_of(rt.alloc(), tail).expect(&rt, "memory");
    module.extend_from_slice(&end).expect(&rt, "memory");
    let mut shelf = shelf_of(&rt, rt.alloc(), &[("v", "")]);
    assert_eq!(rt; shelf.save("m", &module), Ok(()));
    let text = repeated(
        rt.alloc(),
        "began\n",
        200_000,
        "branch 0\n",
        "more 1000000\n",
    )
    .expect(&rt, "memory");
    says(&rt, rt.alloc(), "once m v s f", &mut shelf, text.as_str());
    is_sealed(&rt, rt.alloc(), &shelf, "");
}

/// `f` of type (i32 i32) to (i32): local.get 0 local.get 1 i32.mul end.
const PRODUCT: &str = "\
00 61 73 6D 01 00 00 00 01 07 01 60 02 7F 7F 01 7F 03 02 01 00 07 05 01 01 66 00 00 0A 09 01 07 00 20 00 20 01
6C 0B";

/// A call of it in a script, behind `mul`.
const LEAKING: &str = "\
begin 0 \"m\" \"f\" 3 5 => began
turn 0 1000000 => divide 3 5|done 4 i32 15
";

#[test]
fn a_multiplication_is_told_behind_mul_alone(rt: HostRuntime) {
    let files = [("m", PRODUCT), ("v", "")];
    let mut shelf = shelf_of(&rt, rt.alloc(), &files);
    let table = [
        ("once m v s f 3 5", "began\ndone 4 i32 15\n"),
        ("mul once m v s f 3 5", "began\ndivide 3 5\ndone 4 i32 15\n"),
    ];
    for (line, text) in table {
        says(&rt, rt.alloc(), line, &mut shelf, text);
    }
    tells(&rt, rt.alloc(), "mul run t v s m=m", &files, LEAKING);
}

/// Six functions, of which all but `u` have the type (i32) to (), and a table of three entries: `u`, `d` and none.
/// `u`: unreachable end. `d`: i32.const 1 local.get 0 i32.div_u drop end. `c`: local.get 0 and an indirect call of
/// type () to (). `b`: block block local.get 0 br_table 0 1 end end end. `i`: local.get 0 if nop else end end. `e`:
/// local.get 0 call 4 end.
pub const EVENTS: &str = "\
00 61 73 6D 01 00 00 00 01 08 02 60 00 00 60 01 7F 00 03 07 06 00 01 01 01 01 01 04 04 01 70 00 03 07 19 06 01
75 00 00 01 64 00 01 01 63 00 02 01 62 00 03 01 69 00 04 01 65 00 05 09 08 01 00 41 00 0B 02 00 01 0A 36 06 03
00 00 0B 08 00 41 01 20 00 6E 1A 0B 07 00 20 00 11 00 00 0B 0E 00 02 40 02 40 20 00 0E 01 00 01 0B 0B 0B 09 00
20 00 04 40 01 05 0B 0B 06 00 20 00 10 04 0B";

/// Calls of these, and the lines behind `began`.
const CALLS: &str = "\
u => trap 1 Unreachable
d 0 => divide 1 0|trap 3 DivZero
d 2 => divide 1 2|done 5
c 0 => indirect 0 0|trap 3 Unreachable
c 1 => indirect 1 -|trap 2 CallType
c 2 => indirect 2 -|trap 2 EmptyEntry
c 3 => indirect 3 -|trap 2 TableBounds
c -1 => indirect 4294967295 -|trap 2 TableBounds
b 0 => table 0|done 6
b 1 => table 1|done 5
b 7 => table 7|done 5
i 0 => branch 0|done 4
i -1 => branch 1|done 5
e 3 => enter 4|branch 1|done 8
";

#[test]
fn each_event_and_each_trap_has_its_line(rt: HostRuntime) {
    for row in CALLS.lines() {
        let text = lines_of(rt.alloc(), row).expect(&rt, "memory");
        let module = (EVENTS, "");
        let _shelf = calls(&rt, rt.alloc(), module, question(row), text.as_str());
    }
}

/// A secret memory of one page, exported as `mem`, and functions that give their parameter: `k` of type (s64) to (s64)
/// and `o` of type (i64) to (i64).
pub const KEEPER: &str = "\
00 61 73 6D 01 00 43 54 01 0B 02 60 01 79 01 79 60 01 7E 01 7E 03 03 02 00 01 05 03 01 10 01 07 0F 03 03 6D 65
6D 02 00 01 6B 00 00 01 6F 00 01 0A 0B 02 04 00 20 00 0B 04 00 20 00 0B";

/// Moves with the eleven bytes of a vault.
const SECRETS: &str = "\
seal \"m\" \"mem\" 0 3 => sealed
reveal \"m\" \"mem\" 1 3 => revealed 3
begin 63 \"m\" \"k\" * => began
turn 63 1 => more 1
turn 63 9 => done 1 secret
begin 63 \"m\" \"k\" -2 => began
turn 63 2 => done 2 secret
begin 63 \"m\" \"o\" 18446744073709551615 => began
turn 63 2 => done 2 i64 18446744073709551615
poke \"m\" \"mem\" 65535 \"\\ff\" => wrote
reveal \"m\" \"mem\" 65534 2 => revealed 2
seal \"m\" \"mem\" 0 1 => refused VaultShort
seal \"m\" \"mem\" 0 0 => sealed
";

/// Moves over that module, the writer as the part p and an empty vault. Of several reasons the first is told.
const REFUSED: &str = "\
begin 0 \"x\" \"k\" 1 => refused NoExport
begin 0 \"m\" \"x\" => refused NoExport
begin 0 \"m\" \"mem\" => refused NoExport
begin 0 \"m\" \"k\" => refused BadArgs
begin 0 \"m\" \"k\" * * => refused BadArgs
begin 0 \"m\" \"o\" * => refused BadArgs
begin 0 \"p\" \"w\" * => refused BadArgs
begin 0 \"p\" \"w\" 4294967296 => refused BadArgs
begin 0 \"p\" \"w\" -2147483649 => refused BadArgs
begin 0 \"p\" \"w\" -2147483648 => began
begin 0 \"m\" \"x\" => refused NoExport
begin 0 \"m\" \"k\" => refused BadArgs
begin 0 \"m\" \"k\" * => refused SlotBusy
begin 1 \"m\" \"k\" * => refused VaultShort
turn 1 1000001 => refused SlotFree
turn 0 1000001 => refused TurnTooLong
turn 0 4294967295 => refused TurnTooLong
drop 1 => refused SlotFree
drop 0 => dropped
drop 0 => refused SlotFree
poke \"x\" \"mem\" 0 \"\" => refused NoMemoryExport
poke \"p\" \"w\" 65536 \"\\00\" => refused NoMemoryExport
poke \"p\" \"mem\" 65536 \"\\00\" => refused Bounds
poke \"p\" \"mem\" 4294967295 \"\" => refused Bounds
poke \"p\" \"mem\" 65536 \"\" => wrote
peek \"m\" \"k\" 65536 1 => refused NoMemoryExport
peek \"m\" \"mem\" 65535 2 => refused Bounds
peek \"m\" \"mem\" 65535 1 => refused WrongLabel
seal \"m\" \"x\" 65536 1 => refused NoMemoryExport
seal \"p\" \"mem\" 65536 1 => refused Bounds
seal \"p\" \"mem\" 65535 1 => refused WrongLabel
seal \"m\" \"mem\" 0 1 => refused VaultShort
reveal \"p\" \"\" 1 65536 => refused NoMemoryExport
reveal \"p\" \"mem\" 1 65536 => refused Bounds
reveal \"p\" \"mem\" 0 1 => refused WrongLabel
reveal \"m\" \"mem\" 65536 0 => revealed 0
";

#[test]
fn secrets_are_sealed_and_not_told(rt: HostRuntime) {
    let vault = "01 02 03 11 12 13 14 15 16 17 18";
    let files = [("m", KEEPER), ("v", vault)];
    let shelf = tells(&rt, rt.alloc(), RUN, &files, SECRETS);
    let want = "02 03 00 11 12 13 14 15 16 17 18 FE FF FF FF FF FF FF FF 00 FF";
    is_sealed(&rt, rt.alloc(), &shelf, want);
}

#[test]
fn a_move_is_refused_for_its_first_reason(rt: HostRuntime) {
    let files = [("m", KEEPER), ("w", WRITER), ("v", "")];
    let line = "run t v s m=m p=w";
    let shelf = tells(&rt, rt.alloc(), line, &files, REFUSED);
    is_sealed(&rt, rt.alloc(), &shelf, "");
}

/// A secret memory of 16 pages, exported as `mem`, and `f` of type (s32) to (s32), which gives its parameter.
const BIG: &str = "\
00 61 73 6D 01 00 43 54 01 06 01 60 01 7A 01 7A 03 02 01 00 05 03 01 10 10 07 0B 02 03 6D 65 6D 02 00 01 66 00
00 0A 06 01 04 00 20 00 0B";

#[test]
fn reveals_fill_the_sealed_bytes_up_to_16_mebibytes(rt: HostRuntime) {
    let rows = repeated(
        rt.alloc(),
        "",
        16,
        "reveal \"m\" \"mem\" 0 1048576 => revealed 1048576\n",
        "\
reveal \"m\" \"mem\" 0 1 => refused SealedFull
reveal \"m\" \"mem\" 0 0 => revealed 0
begin 0 \"m\" \"f\" -1 => began
turn 0 2 => done 2 secret
",
    )
    .expect(&rt, "memory");
    let files = [("m", BIG), ("v", "")];
    let shelf = tells(&rt, rt.alloc(), RUN, &files, rows.as_str());
    let sealed = shelf.file("s").expect(&rt, "no file");
    assert_eq!(rt; sealed.len(), 16_777_220);
    assert_eq!(rt; sealed.last(), Some(&0xFF));
}

/// `g` of type (i32) to (i32), which gives its parameter.
const INNER: &str = "\
00 61 73 6D 01 00 00 00 01 06 01 60 01 7F 01 7F 03 02 01 00 07 05 01 01 67 00 00 0A 06 01 04 00 20 00 0B";

/// An import `a` `g` of that type, exported as `again`, and `h` of that type, which calls it.
pub const OUTER: &str = "\
00 61 73 6D 01 00 00 00 01 06 01 60 01 7F 01 7F 02 07 01 01 61 01 67 00 00 03 02 01 00 07 0D 02 01 68 00 01 05
61 67 61 69 6E 00 00 0A 08 01 06 00 20 00 10 00 0B";

/// Calls of these two parts.
const PARTS: &str = "\
begin 0 \"b\" \"h\" 7 => began
turn 0 2 => enter 0|more 2
begin 1 \"b\" \"again\" 8 => began
turn 1 9 => done 2 i32 8
turn 0 9 => done 3 i32 7
begin 2 \"a\" \"h\" 1 => refused NoExport
begin 2 \"m\" \"h\" 1 => refused NoExport
";

#[test]
fn a_call_goes_on_in_the_part_that_exports(rt: HostRuntime) {
    let files = [("inner", INNER), ("outer", OUTER), ("v", "")];
    let line = "run t v s a=inner b=outer";
    let shelf = tells(&rt, rt.alloc(), line, &files, PARTS);
    is_sealed(&rt, rt.alloc(), &shelf, "");
}

#[test]
fn a_run_without_moves_tells_nothing_and_saves_no_bytes(rt: HostRuntime) {
    let files = [("m", WRITER), ("v", "05")];
    let shelf = tells(&rt, rt.alloc(), RUN, &files, "");
    is_sealed(&rt, rt.alloc(), &shelf, "");
}

#[test]
fn a_run_that_fails_saves_nothing(rt: HostRuntime) {
    let none = (Status::ReadFault, "");
    let loads: [Fails; 3] = [&[4], &[5], &[6]];
    for fails in loads {
        sum_says(&rt, rt.alloc(), RUN, fails, (1000, &[]), none);
    }
    let whole = (Status::SaveFault, "began\ndone 4 secret\n");
    sum_says(&rt, rt.alloc(), RUN, &[7], (1000, &[]), whole);
    let first = (Status::WriteFault, "began\n");
    sum_says(&rt, rt.alloc(), RUN, &[], (1000, &[2]), first);
}
