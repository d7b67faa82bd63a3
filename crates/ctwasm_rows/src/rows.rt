use crate::runs::{
    USAGE, is_sealed, is_spelled, is_stripped, save, says, says_of, shelf_of, words_of, writes,
};
use ctw_io::{MemShelf, MemSink, Shelf, SureSink};
use ctwasm_top::{Status, ctwasm};
use std::alloc::Global;
use std::process::Abort;

/// A plain module without anything.
pub const HEADER: &str = "00 61 73 6D 01 00 00 00";

/// `f` of type (s32 i32) to (s32): the sum of its arguments, the second one classified first.
pub const ADDER: &str = "\
00 61 73 6D 01 00 43 54 01 07 01 60 02 7A 7F 01 7A 03 02 01 00 07 05 01 01 66 00 00
0A 0B 01 09 00 20 00 20 01 E1 E0 6A 0B";

/// A call of it, with the first argument from the vault.
pub const SUM: &str = "once m v s f * 7";

/// The same call as a script, of the adder as the part m.
const SCRIPT: &str = "begin 0 \"m\" \"f\" * 7\nturn 0 1000000\n";

#[test]
fn a_header_is_a_module(rt: HostRuntime) {
    says_of(&rt, rt.alloc(), "check m", HEADER, "ok\n");
    is_spelled(&rt, rt.alloc(), HEADER, HEADER);
    is_stripped(&rt, rt.alloc(), HEADER, HEADER);
}

#[test]
fn a_secret_sum_is_sealed_and_not_printed(rt: HostRuntime) {
    let table = [
        ("05 00 00 00", "0C 00 00 00"),
        ("FF FF FF FF", "06 00 00 00"),
    ];
    for (vault, want) in table {
        let mut shelf = shelf_of(&rt, rt.alloc(), &[("m", ADDER), ("v", vault)]);
        says(&rt, rt.alloc(), SUM, &mut shelf, "began\ndone 4 secret\n");
        is_sealed(&rt, rt.alloc(), &shelf, want);
    }
}

#[test]
fn seven_bytes_are_too_few(rt: HostRuntime) {
    let seven = "00 61 73 6D 01 00 00";
    says_of(
        &rt,
        rt.alloc(),
        "check m",
        seven,
        "refused read m Truncated 7\n",
    );
}

#[test]
fn a_padded_number_has_at_most_five_bytes(rt: HostRuntime) {
    let five = "00 61 73 6D 01 00 00 00 01 05 80 80 80 80 00";
    is_spelled(&rt, rt.alloc(), five, HEADER);
    let six = "00 61 73 6D 01 00 00 00 01 06 80 80 80 80 80 00";
    says_of(
        &rt,
        rt.alloc(),
        "canon m",
        six,
        "refused read m BadLeb 10\n",
    );
}

#[test]
fn no_branch_takes_a_secret_even_in_dead_code(rt: HostRuntime) {
    // block local.get 0 br_if 0 end end, and unreachable i32.const 0 i32.classify br_if 0 end
    let live = "\
00 61 73 6D 01 00 43 54 01 05 01 60 01 7A 00 03 02 01 00 0A 0B 01 09 00 02 40 20 00 0D 00 0B 0B";
    let dead = "\
00 61 73 6D 01 00 43 54 01 05 01 60 01 7A 00 03 02 01 00 0A 0A 01 08 00 00 41 00 E1 0D 00 0B";
    let table = [
        (live, "refused check m Body 0 at 2 SecretPlace Condition\n"),
        (dead, "refused check m Body 0 at 3 SecretPlace Condition\n"),
    ];
    for (module, text) in table {
        says_of(&rt, rt.alloc(), "check m", module, text);
    }
}

#[test]
fn a_secret_multiplication_is_refused_behind_mul_alone(rt: HostRuntime) {
    // Of type (s32) to (s32): local.get 0 local.get 0 s32.mul end, and the same sum with s32.add.
    let product = "\
00 61 73 6D 01 00 43 54 01 06 01 60 01 7A 01 7A 03 02 01 00 0A 0A 01 08 00 20 00 20 00 E0 6C 0B";
    let sum = "\
00 61 73 6D 01 00 43 54 01 06 01 60 01 7A 01 7A 03 02 01 00 0A 0A 01 08 00 20 00 20 00 E0 6A 0B";
    let refused = "refused check m Body 0 at 2 SecretPlace Divide\n";
    let table = [
        ("check m", product, "ok\n"),
        ("mul check m", product, refused),
        ("link a=m", product, "linked 1\n"),
        ("mul link a=m", product, refused),
        ("mul check m", sum, "ok\n"),
        ("mul link a=m", sum, "linked 1\n"),
    ];
    for (line, module, text) in table {
        says_of(&rt, rt.alloc(), line, module, text);
    }
}

#[test]
fn a_sign_extension_is_a_numeric_operation(rt: HostRuntime) {
    // Of type () to (): i32.extend8_s end, without an operand.
    let module = "\
00 61 73 6D 01 00 00 00 01 04 01 60 00 00 03 02 01 00 0A 05 01 03 00 C0 0B";
    let text = "refused check m Body 0 at 0 WrongType\n";
    says_of(&rt, rt.alloc(), "check m", module, text);
}

#[test]
fn dead_code_selects_what_is_not_there(rt: HostRuntime) {
    // unreachable select drop end
    let module = "00 61 73 6D 01 00 00 00 01 04 01 60 00 00 03 02 01 00 0A 07 01 05 00 00 1B 1A 0B";
    says_of(&rt, rt.alloc(), "check m", module, "ok\n");
}

/// Part a: a function of type (s32) to () as entry 0 of the exported table `t`.
pub const TABLE: &str = "\
00 61 73 6D 01 00 43 54 01 05 01 60 01 7A 00 03 02 01 00 04 04 01 70 00 01 07 05 01 01 74 01 00
09 07 01 00 41 00 0B 01 00 0A 04 01 02 00 0B";

/// Part b: a call of type (i32) to () through the imported table `a` `t`.
pub const CALL: &str = "\
00 61 73 6D 01 00 43 54 01 08 02 60 01 7F 00 60 00 00 02 09 01 01 61 01 74 01 70 00 00 03 02 01 01
0A 0B 01 09 00 41 00 41 00 11 00 00 0B";

/// The same through a table of its own.
pub const OWN_CALL: &str = "\
00 61 73 6D 01 00 43 54 01 08 02 60 01 7F 00 60 00 00 03 02 01 01 04 04 01 70 00 01
0A 0B 01 09 00 41 00 41 00 11 00 00 0B";

#[test]
fn types_of_one_table_that_erase_alike_are_equal(rt: HostRuntime) {
    let table = [
        (CALL, "refused link TableMix 0 (s32)->() (i32)->()\n"),
        (OWN_CALL, "linked 2\n"),
    ];
    for (b, text) in table {
        let mut shelf = shelf_of(&rt, rt.alloc(), &[("a", TABLE), ("b", b)]);
        says(&rt, rt.alloc(), "link a=a b=b", &mut shelf, text);
    }
}

#[test]
fn an_untrusted_function_calls_no_trusted_one(rt: HostRuntime) {
    // local.get 0 s32.const 1 s32.and s32.declassify end, which is trusted, and local.get 0 call 0 end
    let module = "\
00 61 73 6D 01 00 43 54 01 0B 02 61 01 7A 01 7F 60 01 7A 01 7F 03 03 02 00 01
0A 13 02 0A 00 20 00 E0 41 01 E0 71 E3 0B 06 00 20 00 10 00 0B";
    says_of(
        &rt,
        rt.alloc(),
        "check m",
        module,
        "refused check m Body 1 at 1 Trust\n",
    );
}

#[test]
fn one_file_has_one_part_in_a_call(rt: HostRuntime) {
    let mut shelf = shelf_of(&rt, rt.alloc(), &[("v", "00 00 00 00 00 00 00")]);
    says(
        &rt,
        rt.alloc(),
        "once v v s f *",
        &mut shelf,
        "refused SameFile v\n",
    );
}

/// Calls that fail.
pub type Fails = &'static [u64];

/// The words of a line over the adder m, the vault v with 5, and the call of the sum as the script t: a shelf and a sink
/// that fail at these calls, where the sink takes up to so many bytes a call, leave this status and text, and no file s.
/// The shelf's first three calls fill it.
pub fn sum_says(
    rt: &impl Abort,
    alloc: Global,
    line: &str,
    shelf_fails: Fails,
    (most, sink_fails): (usize, Fails),
    (status, text): (Status, &str),
) {
    assert!(rt; most > 0);
    let shelf_fails = shelf_fails.to_vec(alloc).expect(rt, "memory");
    let mut shelf = MemShelf::new(alloc, Vec::new(alloc), shelf_fails);
    save(rt, alloc, &mut shelf, "m", ADDER);
    save(rt, alloc, &mut shelf, "v", "05 00 00 00");
    assert_eq!(rt; shelf.save("t", SCRIPT.as_bytes()), Ok(()));
    let sink_fails = sink_fails.to_vec(alloc).expect(rt, "memory");
    let mut out = MemSink::new(alloc, most, sink_fails);
    let words = words_of(alloc, line).expect(rt, "memory");
    assert_eq!(rt; ctwasm(alloc, &words, &mut shelf, &mut out), status);
    assert_eq!(rt; out.taken(), text.as_bytes());
    assert!(rt; shelf.file("s").is_none());
}

#[test]
fn each_move_is_written_before_the_next_and_saving_comes_last(rt: HostRuntime) {
    let whole = "began\ndone 4 secret\n";
    let table: [(Fails, (usize, Fails), (Status, &str)); 3] = [
        (&[], (3, &[2]), (Status::WriteFault, "beg")),
        (&[], (1000, &[2]), (Status::WriteFault, "began\n")),
        (&[6], (1000, &[]), (Status::SaveFault, whole)),
    ];
    for (shelf_fails, sink, ended) in table {
        sum_says(&rt, rt.alloc(), SUM, shelf_fails, sink, ended);
    }
}

#[test]
fn no_words_are_a_wrong_use(rt: HostRuntime) {
    let mut shelf = shelf_of(&rt, rt.alloc(), &[]);
    let mut out = SureSink::new(rt.alloc(), 1000);
    let none = Vec::new(rt.alloc());
    assert_eq!(rt;
        ctwasm(rt.alloc(), &none, &mut shelf, &mut out),
        Status::Usage
    );
    assert_eq!(rt; out.taken(), USAGE.as_bytes());
    writes(
        &rt,
        rt.alloc(),
        "work 1 0",
        &mut shelf,
        Status::Usage,
        USAGE.as_bytes(),
    );
}

#[test]
fn an_import_is_met_by_an_earlier_export_of_its_type(rt: HostRuntime) {
    let a = "\
00 61 73 6D 01 00 43 54 01 05 01 60 01 7A 00 03 02 01 00 07 05 01 01 67 00 00 0A 04 01 02 00 0B";
    let b = "00 61 73 6D 01 00 43 54 01 05 01 60 01 7F 00 02 07 01 01 61 01 67 00 00";
    let mut shelf = shelf_of(&rt, rt.alloc(), &[("a", a), ("b", b)]);
    let table = [
        (
            "link a=a b=b",
            "refused link ImportType b 0 (i32)->() (s32)->()\n",
        ),
        ("link b=b a=a", "refused link NoImport b 0\n"),
    ];
    for (line, text) in table {
        says(&rt, rt.alloc(), line, &mut shelf, text);
    }
}

#[test]
fn a_missing_file_is_refused_and_a_failed_load_is_a_fault(rt: HostRuntime) {
    let mut shelf = shelf_of(&rt, rt.alloc(), &[]);
    says(
        &rt,
        rt.alloc(),
        "check m",
        &mut shelf,
        "refused Missing m\n",
    );
    let fails = [1].to_vec(rt.alloc()).expect(&rt, "memory");
    let mut failing = MemShelf::new(rt.alloc(), Vec::new(rt.alloc()), fails);
    writes(
        &rt,
        rt.alloc(),
        "check m",
        &mut failing,
        Status::ReadFault,
        b"",
    );
}
