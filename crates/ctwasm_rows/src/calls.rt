use crate::rows::{ADDER, SUM, sum_says};
use crate::runs::{USAGE, is_sealed, says, shelf_of, writes};
use ctw_io::Shelf;
use ctw_tests::{answer, question};
use ctwasm_top::Status;

/// The adder with i32.add in the place of s32.add, which no typing has.
const UNTYPED: &str = "\
00 61 73 6D 01 00 43 54 01 07 01 60 02 7A 7F 01 7A 03 02 01 00 07 05 01 01 66 00 00
0A 0A 01 08 00 20 00 20 01 E1 6A 0B";

/// `f` of type () to (i32): the number -2.
const CONSTANT: &str = "\
00 61 73 6D 01 00 43 54 01 05 01 60 00 01 7F 03 02 01 00 07 05 01 01 66 00 00 0A 06 01 04 00 41 7E 0B";

/// The files of the next two tables.
const FILES: [(&str, &str); 5] = [
    ("m", ADDER),
    ("v", "05 00 00 00"),
    ("empty", ""),
    ("untyped", UNTYPED),
    ("header", "00 61 73 6D 01 00 00 00"),
];

/// Words over the adder `m`, a vault `v` of four bytes, one without bytes, the adder without a type, and a module without
/// anything, and why they are refused.
const REFUSALS: &str = "\
once v v s f * => refused SameFile v
once m v v f * 7 => refused SameFile v
once m v m f * 7 => refused SameFile m
once v v v f => refused SameFile v
once gone gone s f => refused SameFile gone
once gone v gone f -1 => refused SameFile gone
once gone gone2 s f => refused Missing gone
once header gone s f => refused Missing gone
once untyped v s f * 7 => refused check untyped Body 0 at 3 WrongType
once v m s f => refused read v Truncated 4
";

/// Words over the same files, with which no call begins, and why: of several reasons the first is told.
const NO_CALLS: &str = "\
once header v s f * 7 => refused NoExport
once m v s g * 7 => refused NoExport
once m v s F => refused NoExport
once m v s f => refused BadArgs
once m v s f * => refused BadArgs
once m v s f * 7 7 => refused BadArgs
once m v s f * * => refused BadArgs
once m v s f * 4294967296 => refused BadArgs
once m v s f * 0x1_0000_0000 => refused BadArgs
once m v s f * -2147483649 => refused BadArgs
once m v s f 4294967296 7 => refused BadArgs
once m v s f * 18446744073709551615 => refused BadArgs
once m v s f * -9223372036854775808 => refused BadArgs
once m empty s f * * => refused BadArgs
once m empty s f * 7 => refused VaultShort
";

/// Arguments of the adder `m` over a vault that begins with 5, and what is sealed.
const SUMS: &str = "\
* 7 => 0C 00 00 00
* +7 => 0C 00 00 00
* 00000000007 => 0C 00 00 00
* 0x7 => 0C 00 00 00
* -1 => 04 00 00 00
* 4294967295 => 04 00 00 00
* 0xFFFF_ffff => 04 00 00 00
* 2147483648 => 05 00 00 80
* -2147483648 => 05 00 00 80
* -0x8000_0000 => 05 00 00 80
* 1_000 => ED 03 00 00
* +0x1f => 24 00 00 00
* 0 => 05 00 00 00
* -0 => 05 00 00 00
-3 7 => 04 00 00 00
0xff -0x1 => FE 00 00 00
4294967295 -2147483648 => FF FF FF 7F
";

/// Words that are no argument: no number as in a script, or one outside of -2^63 to 2^64 - 1.
const NO_ARGUMENTS: &str = "\
x
**
-
+
+-1
--1
-*
0x
0X7
0xg
-0x
_1
1_
1__0
0x_1
1.0
1e3
7i
18446744073709551616
0x1_0000_0000_0000_0000
-9223372036854775809
-0x8000_0000_0000_0001
";

#[test]
fn secret_results_are_sealed_and_public_ones_printed(rt: HostRuntime) {
    let short = "refused VaultShort\nrefused SlotFree\n";
    let table = [
        (
            SUM,
            "05 00 00 00 01",
            "began\ndone 4 secret\n",
            "0C 00 00 00",
        ),
        (SUM, "00 01 02 03", "began\ndone 4 secret\n", "07 01 02 03"),
        (
            "once constant v s f",
            "",
            "began\ndone 2 i32 4294967294\n",
            "",
        ),
        (
            "once m v s f -3 7",
            "",
            "began\ndone 4 secret\n",
            "04 00 00 00",
        ),
        (SUM, "", short, ""),
        (SUM, "05 00 00", short, ""),
    ];
    for (line, vault, text, want) in table {
        let files = [("m", ADDER), ("constant", CONSTANT), ("v", vault)];
        let mut shelf = shelf_of(&rt, rt.alloc(), &files);
        writes(
            &rt,
            rt.alloc(),
            line,
            &mut shelf,
            Status::Done,
            text.as_bytes(),
        );
        is_sealed(&rt, rt.alloc(), &shelf, want);
    }
}

#[test]
fn each_refusal_of_a_call_has_its_line(rt: HostRuntime) {
    let mut shelf = shelf_of(&rt, rt.alloc(), &FILES);
    for row in REFUSALS.lines() {
        let text = format!(in rt.alloc(); "{}\n", answer(row)).expect(&rt, "memory");
        says(&rt, rt.alloc(), question(row), &mut shelf, text.as_str());
    }
    assert!(rt; shelf.file("s").is_none());
}

#[test]
fn without_a_call_there_is_no_turn_and_nothing_is_sealed(rt: HostRuntime) {
    let mut shelf = shelf_of(&rt, rt.alloc(), &FILES);
    for row in NO_CALLS.lines() {
        let text = format!(in rt.alloc(); "{}\nrefused SlotFree\n", answer(row));
        let text = text.expect(&rt, "memory");
        let bytes = text.as_bytes();
        writes(
            &rt,
            rt.alloc(),
            question(row),
            &mut shelf,
            Status::Done,
            bytes,
        );
        is_sealed(&rt, rt.alloc(), &shelf, "");
    }
}

#[test]
fn numbers_are_written_as_in_scripts(rt: HostRuntime) {
    let files = [("m", ADDER), ("v", "05 00 00 00")];
    let mut shelf = shelf_of(&rt, rt.alloc(), &files);
    for row in SUMS.lines() {
        let line = format!(in rt.alloc(); "once m v s f {}", question(row)).expect(&rt, "memory");
        says(
            &rt,
            rt.alloc(),
            line.as_str(),
            &mut shelf,
            "began\ndone 4 secret\n",
        );
        is_sealed(&rt, rt.alloc(), &shelf, answer(row));
    }
}

#[test]
fn a_word_that_is_no_argument_is_a_wrong_use(rt: HostRuntime) {
    let files = [("m", ADDER), ("v", "05 00 00 00")];
    let mut shelf = shelf_of(&rt, rt.alloc(), &files);
    for word in NO_ARGUMENTS.lines() {
        // Before SameFile and before anything is loaded, too.
        for words in ["m v s f *", "m v s f", "m m s f *", "gone v s f * 7"] {
            let line = format!(in rt.alloc(); "once {words} {word}").expect(&rt, "memory");
            let usage = USAGE.as_bytes();
            writes(
                &rt,
                rt.alloc(),
                line.as_str(),
                &mut shelf,
                Status::Usage,
                usage,
            );
        }
    }
    assert!(rt; shelf.file("s").is_none());
}

#[test]
fn a_vault_has_up_to_16_mebibytes(rt: HostRuntime) {
    let mut shelf = shelf_of(&rt, rt.alloc(), &[("m", ADDER)]);
    let table = [
        (16_777_217, "refused TooLarge v\n"),
        (16_777_216, "began\ndone 4 secret\n"),
    ];
    for (size, text) in table {
        let vault = vec![in rt.alloc(); 0u8; size].expect(&rt, "memory");
        assert_eq!(rt; shelf.save("v", &vault), Ok(()));
        says(&rt, rt.alloc(), SUM, &mut shelf, text);
    }
    is_sealed(&rt, rt.alloc(), &shelf, "07 00 00 00");
}

#[test]
fn a_load_that_fails_leaves_nothing(rt: HostRuntime) {
    let ended = (Status::ReadFault, "");
    sum_says(&rt, rt.alloc(), SUM, &[4], (1000, &[]), ended);
    sum_says(&rt, rt.alloc(), SUM, &[5], (1000, &[]), ended);
}
