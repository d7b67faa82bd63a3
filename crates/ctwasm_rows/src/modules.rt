use crate::rows::ADDER;
use crate::runs::{USAGE, is_spelled, says_of, shelf_of, writes};
use ctwasm_top::Status;

/// All secret forms, in one body without a type, and canonical.
const SECRET_FORMS: &str = "\
00 61 73 6D 01 00 43 54 01 04 01 60 00 00 03 02 01 00 0A EF 01 01 EC 01 02 01 7A 01 79 02 7A 0B
03 79 0B 04 7A 05 0B E0 1B E0 28 00 00 E0 29 00 00 E0 2C 00 00 E0 2D 00 00 E0 2E 00 00 E0 2F 00
00 E0 30 00 00 E0 31 00 00 E0 32 00 00 E0 33 00 00 E0 34 00 00 E0 35 00 00 E0 36 00 00 E0 37 00
00 E0 3A 00 00 E0 3B 00 00 E0 3C 00 00 E0 3D 00 00 E0 3E 00 00 E0 41 7E E0 42 7E E0 45 E0 46 E0
47 E0 48 E0 49 E0 4A E0 4B E0 4C E0 4D E0 4E E0 4F E0 50 E0 51 E0 52 E0 53 E0 54 E0 55 E0 56 E0
57 E0 58 E0 59 E0 5A E0 67 E0 68 E0 69 E0 6A E0 6B E0 6C E0 6D E0 6E E0 6F E0 70 E0 71 E0 72 E0
73 E0 74 E0 75 E0 76 E0 77 E0 78 E0 79 E0 7A E0 7B E0 7C E0 7D E0 7E E0 7F E0 80 E0 81 E0 82 E0
83 E0 84 E0 85 E0 86 E0 87 E0 88 E0 89 E0 8A E0 A7 E0 AC E0 AD E0 C0 E0 C1 E0 C2 E0 C3
E0 C4 E1 E2 E3 E4 0B";

#[test]
fn canonical_bytes_are_written_as_they_are(rt: HostRuntime) {
    for module in [ADDER, SECRET_FORMS] {
        is_spelled(&rt, rt.alloc(), module, module);
    }
}

#[test]
fn a_limit_is_told_with_what_is_too_many(rt: HostRuntime) {
    let module = "00 61 73 6D 01 00 00 00 05 05 02 00 01 00 01";
    let text = "refused read m TooMany 10 Memories 1\n";
    says_of(&rt, rt.alloc(), "check m", module, text);
}

#[test]
fn words_of_no_command_are_a_wrong_use(rt: HostRuntime) {
    let mut shelf = shelf_of(&rt, rt.alloc(), &[("m", ADDER), ("v", "05 00 00 00")]);
    let table = [
        "",
        "once",
        "once m v s",
        "Once m v s f * 7",
        "once m v s f * ",
        "run m v s f * 7",
        "run",
        "run t v s",
        "run t v s m",
        "run t v s =m",
        "run t v s m=m m",
        "infer",
        "infer m",
        "infer m k s",
        "mul infer m",
        "strip",
        "text",
        "text m m",
        "strip m m",
        "check",
        "canon m m",
        "link",
        "link m",
        "link =m",
        "link a=m m",
        "link a=m =m",
        "mul",
        "mul m",
        "mul check",
        "mul mul check m",
        "mul canon m",
        "mul link",
        "mul run t v s",
        "mul once m v s",
        "mul strip",
        "mul mul once m v s f",
        "check mul m",
    ];
    for line in table {
        writes(
            &rt,
            rt.alloc(),
            line,
            &mut shelf,
            Status::Usage,
            USAGE.as_bytes(),
        );
    }
}
