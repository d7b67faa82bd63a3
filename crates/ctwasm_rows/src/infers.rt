use crate::runs::{is_sealed, is_spelled, save, says, shelf_of, words_of, writes};
use ctw_io::{Shelf, SureShelf, SureSink};
use ctw_tests::bytes_of;
use ctwasm_top::{Status, ctwasm};
use std::alloc::{AllocError, Global};
use std::process::Abort;

/// `eq` of type (i32 i32) to (i32), with two locals and one page, exported as `mem`: whether 32 bytes at two places are
/// equal.
pub const EQUAL: &str = "\
00 61 73 6D 01 00 00 00 01 07 01 60 02 7F 7F 01 7F 03 02 01 00 05 03 01 00 01 07 0C 02 03 6D 65
6D 02 00 02 65 71 00 00 0A 2E 01 2C 01 02 7F 03 40 20 03 20 00 20 02 6A 2D 00 00 20 01 20 02 6A
2D 00 00 73 72 21 03 20 02 41 01 6A 22 02 41 20 49 0D 00 0B 20 03 45 0B";

/// The same as a compiler may write it: with numbers that are longer than they need be, and custom sections.
pub const EQUAL_PADDED: &str = "\
00 61 73 6D 01 00 00 00 00 0A 09 70 72 6F 64 75 63 65 72 73 01 88 00 81 00 60 02 7F 7F 01 7F
03 02 01 00 05 03 01 00 01 07 0C 02 03 6D 65 6D 02 00 02 65 71 00 00
0A AE 80 00 01 2C 01 02 7F 03 40 20 03 20 00 20 02 6A 2D 00 00 20 01 20 02 6A
2D 00 00 73 72 21 03 20 02 41 01 6A 22 02 41 20 49 0D 00 0B 20 03 45 0B 00 05 04 6E 61 6D 65";

/// Its canonical spelling.
const EQUAL_AGAIN: &str = "\
00 61 73 6D 01 00 00 00 00 0A 09 70 72 6F 64 75 63 65 72 73 01 07 01 60 02 7F 7F 01 7F
03 02 01 00 05 03 01 00 01 07 0C 02 03 6D 65 6D 02 00 02 65 71 00 00
0A 2E 01 2C 01 02 7F 03 40 20 03 20 00 20 02 6A 2D 00 00 20 01 20 02 6A
2D 00 00 73 72 21 03 20 02 41 01 6A 22 02 41 20 49 0D 00 0B 20 03 45 0B 00 05 04 6E 61 6D 65";

/// Two bytes of the memory are compared, and a branch is taken on the result.
pub const EARLY: &str = "\
00 61 73 6D 01 00 00 00 01 07 01 60 02 7F 7F 01 7F 03 02 01 00 05 03 01 00 01 0A 17 01 15 00 20
00 2D 00 00 20 01 2D 00 00 47 04 40 41 00 0F 0B 41 01 0B";

/// A load at a parameter.
pub const LOAD: &str = "\
00 61 73 6D 01 00 00 00 01 06 01 60 01 7F 01 7F 03 02 01 00 05 03 01 00 01 0A 09 01 07 00 20 00
28 02 00 0B";

/// A memory, and no function.
pub const MEMORY: &str = "00 61 73 6D 01 00 00 00 05 03 01 00 01";

/// Three functions of type (i32) to (i32) that give their argument.
pub const THREE: &str = "\
00 61 73 6D 01 00 00 00 01 06 01 60 01 7F 01 7F 03 04 03 00 00 00
0A 10 03 04 00 20 00 0B 04 00 20 00 0B 04 00 20 00 0B";

/// `bit` of type (i32) to (i32): the lowest bit of its argument.
pub const BIT: &str = "\
00 61 73 6D 01 00 00 00 01 06 01 60 01 7F 01 7F 03 02 01 00 07 07 01 03 62 69 74 00 00
0A 09 01 07 00 20 00 41 01 71 0B";

/// The same with a function 1 that calls it.
const CALLED_BIT: &str = "\
00 61 73 6D 01 00 00 00 01 06 01 60 01 7F 01 7F 03 03 02 00 00 07 07 01 03 62 69 74 00 00
0A 10 02 07 00 20 00 41 01 71 0B 06 00 20 00 10 00 0B";

/// `f` of type (i32) to (i32): the square of its argument.
pub const SQUARE: &str = "\
00 61 73 6D 01 00 00 00 01 06 01 60 01 7F 01 7F 03 02 01 00 07 05 01 01 66 00 00
0A 09 01 07 00 20 00 20 00 6C 0B";

/// A CT module without anything.
const LABELLED: &str = "00 61 73 6D 01 00 43 54";

/// A shelf with the module m, in hexadecimal, and the marks k, line by line.
fn marked(rt: &impl Abort, alloc: Global, module: &str, marks: &str) -> SureShelf {
    let mut shelf = shelf_of(rt, alloc, &[("m", module)]);
    assert_eq!(rt; shelf.save("k", marks.as_bytes()), Ok(()));
    shelf
}

/// The marks of a module have this labelled module, both in hexadecimal.
fn infers(rt: &impl Abort, alloc: Global, line: &str, module: &str, marks: &str, want: &str) {
    let mut shelf = marked(rt, alloc, module, marks);
    let bytes = bytes_of(alloc, want).expect(rt, "memory");
    writes(rt, alloc, line, &mut shelf, Status::Done, &bytes);
}

/// The marks of a module are answered by these lines: those of a flow, or of a refusal.
fn refuses(rt: &impl Abort, alloc: Global, line: &str, module: &str, marks: &str, text: &str) {
    let mut shelf = marked(rt, alloc, module, marks);
    if text.starts_with("no labelling\n") {
        writes(
            rt,
            alloc,
            line,
            &mut shelf,
            Status::NoLabelling,
            text.as_bytes(),
        );
    } else {
        says(rt, alloc, line, &mut shelf, text);
    }
}

/// Saves what the words of a line write over this shelf as a file of it.
fn keep(rt: &impl Abort, alloc: Global, line: &str, shelf: &mut SureShelf, name: &str) {
    let words = words_of(alloc, line).expect(rt, "memory");
    let mut out = SureSink::new(alloc, 1000);
    assert_eq!(rt;
        ctwasm(alloc, &words, shelf, &mut out),
        Status::Done,
        "{line}"
    );
    assert_eq!(rt; shelf.save(name, out.taken()), Ok(()));
}

/// The lines of a comparison of 32 bytes, behind those of its first move.
fn compared(alloc: Global, first: &str, last: &str) -> Result<String, AllocError> {
    let mut text = String::from_str(alloc, first)?;
    text.push_str("began\n")?;
    for i in 0..32u32 {
        let behind = i + 32;
        let branch = if i == 31 { 0u32 } else { 1u32 };
        let lines = format!(in alloc; "load 0 {i} 1\nload 0 {behind} 1\nbranch {branch}\n")?;
        text.push_str(&lines)?;
    }
    text.push_str(last)?;
    Ok(text)
}

#[test]
fn a_comparison_in_constant_time_is_labelled_without_a_classify(rt: HostRuntime) {
    let alloc = rt.alloc();
    let mut shelf = marked(&rt, alloc, EQUAL, "secret memory\n");
    keep(&rt, alloc, "infer m k", &mut shelf, "n");
    says(&rt, alloc, "check n", &mut shelf, "ok\n");
    let script = "seal \"m\" \"mem\" 0 64\nbegin 0 \"m\" \"eq\" 0 32\nturn 0 1000000\n";
    assert_eq!(rt; shelf.save("t", script.as_bytes()), Ok(()));
    let equal =
        "07 07 07 07 07 07 07 07 07 07 07 07 07 07 07 07 07 07 07 07 07 07 07 07 07 07 07 07 07 07 07 07 \
07 07 07 07 07 07 07 07 07 07 07 07 07 07 07 07 07 07 07 07 07 07 07 07 07 07 07 07 07 07 07 07";
    let other =
        "07 07 07 07 07 07 07 07 07 07 07 07 07 07 07 07 07 07 07 07 07 07 07 07 07 07 07 07 07 07 07 07 \
07 07 07 07 07 07 07 07 07 07 07 07 07 07 07 07 07 07 07 07 07 07 07 07 07 07 07 07 07 07 07 08";
    let lines = compared(alloc, "sealed\n", "done 644 secret\n").expect(&rt, "memory");
    for (vault, want) in [(equal, "01 00 00 00"), (other, "00 00 00 00")] {
        save(&rt, alloc, &mut shelf, "v", vault);
        says(&rt, alloc, "run t v s m=n", &mut shelf, &lines);
        is_sealed(&rt, alloc, &shelf, want);
    }

    keep(&rt, alloc, "strip n", &mut shelf, "p");
    let plain = bytes_of(alloc, EQUAL).expect(&rt, "memory");
    assert_eq!(rt; shelf.file("p"), Some(plain.as_slice()));
    let erased = "begin 0 \"m\" \"eq\" 0 32\nturn 0 1000000\n";
    assert_eq!(rt; shelf.save("t", erased.as_bytes()), Ok(()));
    let lines = compared(alloc, "", "done 644 i32 1\n").expect(&rt, "memory");
    says(&rt, alloc, "run t v s m=p", &mut shelf, &lines);
}

#[test]
fn a_variant_is_appended_for_a_function_with_a_secret(rt: HostRuntime) {
    let labelled = "\
00 61 73 6D 01 00 43 54 01 0D 02 60 01 7F 01 7F 62 00 00 01 7A 01 7A 03 04 03 00 01 00
0A 10 03 04 00 20 00 0B 04 00 20 00 0B 04 00 20 00 0B";
    for line in ["infer m k", "mul infer m k"] {
        infers(&rt, rt.alloc(), line, THREE, "secret param 1 0\n", labelled);
    }
}

#[test]
fn a_release_is_a_declassify_of_a_trusted_function(rt: HostRuntime) {
    let marks = "secret param 0 0\npublic result 0\ntrust 0\nrelease 0 2\n";
    let labelled = "\
00 61 73 6D 01 00 43 54 01 0D 02 60 01 7F 01 7F 62 00 01 01 7A 01 7F 03 02 01 01
07 07 01 03 62 69 74 00 00 0A 0C 01 0A 00 20 00 E0 41 01 E0 71 E3 0B";
    infers(&rt, rt.alloc(), "infer m k", BIT, marks, labelled);
    for (vault, bit) in [
        ("03 00 00 00", "1"),
        ("05 00 00 00", "1"),
        ("04 00 00 00", "0"),
    ] {
        let mut shelf = shelf_of(&rt, rt.alloc(), &[("m", labelled), ("v", vault)]);
        let text = format!(in rt.alloc(); "began\ndone 4 i32 {bit}\n").expect(&rt, "memory");
        says(&rt, rt.alloc(), "once m v s bit *", &mut shelf, &text);
    }
}

#[test]
fn a_flow_or_a_fault_tells_why_nothing_fits(rt: HostRuntime) {
    let table = [
        (
            "infer m k",
            EARLY,
            "secret memory\n",
            "no labelling\nmemory because marked\npush 0 1 because yield\nop 0 4 because operand\n\
push 0 4 because yield\npublic because condition\n",
        ),
        (
            "infer m k",
            LOAD,
            "secret param 0 0\n",
            "no labelling\nparam 0 0 because marked\npush 0 0 because yield\npublic because address\n",
        ),
        (
            "infer m k",
            MEMORY,
            "secret memory\npublic memory\n",
            "no labelling\nmemory because marked\npublic because marked\n",
        ),
        (
            "infer m k",
            BIT,
            "secret param 0 0\npublic result 0\ntrust 0\n",
            "no labelling\nparam 0 0 because marked\npush 0 0 because yield\nop 0 2 because operand\n\
push 0 2 because yield\nresult 0 because leave\npublic because marked\n",
        ),
        (
            "mul infer m k",
            SQUARE,
            "secret param 0 0\n",
            "no labelling\nparam 0 0 because marked\npush 0 0 because yield\nop 0 2 because operand\n\
public because divide\n",
        ),
        (
            "infer m k",
            BIT,
            "release 0 2\n",
            "refused marks Untrusted 1\n",
        ),
        (
            "infer m k",
            CALLED_BIT,
            "trust 0\n",
            "refused infer TrustCall 1 1 0\n",
        ),
        (
            "infer m k",
            THREE,
            "secret param 9 0\n",
            "refused marks NoPlace 1\n",
        ),
        (
            "infer m k",
            LABELLED,
            "secret param 9 0\n",
            "refused infer Labelled\n",
        ),
        ("infer m k", THREE, "\nsecret\n", "refused marks Line 2\n"),
        ("infer m k", THREE, "\"\n", "refused marks Lex 1\n"),
    ];
    for (line, module, marks, text) in table {
        refuses(&rt, rt.alloc(), line, module, marks, text);
    }
}

#[test]
fn stripping_undoes_inference_but_for_the_spelling(rt: HostRuntime) {
    let alloc = rt.alloc();
    let mut shelf = marked(&rt, alloc, EQUAL_PADDED, "secret memory\n");
    keep(&rt, alloc, "infer m k", &mut shelf, "n");
    keep(&rt, alloc, "strip n", &mut shelf, "p");
    let again = bytes_of(alloc, EQUAL_AGAIN).expect(&rt, "memory");
    assert_eq!(rt; shelf.file("p"), Some(again.as_slice()));
    is_spelled(&rt, alloc, EQUAL_PADDED, EQUAL_AGAIN);
}

#[test]
fn marks_have_up_to_one_mebibyte(rt: HostRuntime) {
    let alloc = rt.alloc();
    let mut shelf = shelf_of(&rt, alloc, &[("m", THREE)]);
    let most = vec![in alloc; b' '; 1_048_576].expect(&rt, "memory");
    assert_eq!(rt; shelf.save("k", &most), Ok(()));
    keep(&rt, alloc, "infer m k", &mut shelf, "n");
    says(&rt, alloc, "check n", &mut shelf, "ok\n");
    let more = vec![in alloc; b' '; 1_048_577].expect(&rt, "memory");
    assert_eq!(rt; shelf.save("k", &more), Ok(()));
    says(&rt, alloc, "infer m k", &mut shelf, "refused TooLarge k\n");
}
