use crate::rows::{CALL, OWN_CALL, TABLE};
use crate::runs::{USAGE, save, says, shelf_of, writes};
use ctw_io::{Shelf, SureShelf};
use ctw_tests::{answer, question};
use ctwasm_top::Status;
use std::alloc::{AllocError, Global};
use std::process::Abort;

/// The sections of parts a and b, and what `link a=a b=b` says: of the labels and widths of parameters, results, trust,
/// globals, memories, tables, other kinds, and a second import that names nothing.
const IMPORTS: &str = "\
01050160017A00 03020100 07050101670000 0A040102000B | 01050160017F00 020701016101670000 => refused link ImportType b 0 (i32)->() (s32)->()
01060160027F7A00 03020100 07050101670000 0A040102000B | 01060160027F7900 020701016101670000 => refused link ImportType b 0 (i32 s64)->() (i32 s32)->()
0105016000017F 03020100 07050101670000 0A0601040041000B | 010401600000 020701016101670000 => refused link ImportType b 0 ()->() ()->(i32)
010401610000 03020100 07050101670000 0A040102000B | 010401600000 020701016101670000 => refused link ImportType b 0 ()->() trusted ()->()
01060161017A017A 03020100 07050101670000 0A0601040020000B | 01060161017A017A 020701016101670000 => linked 2
0607017A00E041000B 07050101670300 | 02080101610167037F00 => refused link ImportType b 0 i32 s32
0606017E0042000B 07050101670300 | 02080101610167037E01 => refused link ImportType b 0 mut i64 i64
0607017901E042000B 07050101670300 | 02080101610167037901 => linked 2
0503011001 07050101670200 | 02080101610167020001 => refused link ImportType b 0 memory 1 - secret memory 1 -
050401010104 07050101670200 | 0209010161016702010204 => refused link ImportType b 0 memory 2 4 memory 1 4
0503010001 07050101670200 | 0209010161016702010102 => refused link ImportType b 0 memory 1 2 memory 1 -
050401110103 07050101670200 | 0209010161016702110102 => refused link ImportType b 0 secret memory 1 2 secret memory 1 3
050401010203 07050101670200 | 0209010161016702010104 => linked 2
040401700001 07050101670100 | 0209010161016701700002 => refused link ImportType b 0 table 2 - table 1 -
04050170010109 07050101670100 | 020A01016101670170010108 => refused link ImportType b 0 table 1 8 table 1 9
04050170010208 07050101670100 | 0209010161016701700001 => linked 2
0606017F0041000B 07050101670300 | 010401600000 020701016101670000 => refused link ImportType b 0 ()->() i32
040401700001 07050101670100 | 02080101610167020001 => refused link ImportType b 0 memory 1 - table 1 -
0503010001 07050101670200 | 020F020161016702000101610168037F00 => refused link NoImport b 1
";

/// The sections of CT modules, by the names of their files.
const FILES: [(&str, &str); 17] = [
    // A memory of 2 to 3 pages, which b imports as one of 1 or more, and exports.
    ("a", "050401010203 070501016D0200"),
    ("b", "0208010161016D020001 070501016D0200"),
    ("two", "0208010162016D020002"),
    ("one", "0208010162016D020001"),
    // A trusted function in a table of its own, and a call through it of the type without trust.
    (
        "mix",
        "010702610000600000 0303020001 040401700001 0907010041000B0100 0A0C0202000B070041001101000B",
    ),
    // Memories of 4,096, of 4,097 and of one page, and a user of the first.
    ("most", "050401008020 07050101670200"),
    ("more", "050401008120 07050101670200"),
    ("page", "0503010001 07050101670200"),
    ("user", "0209010161016702008020"),
    // Tables of 1,000,000, of 1,000,001 and of one entry, and a user of the first.
    ("entries", "0406017000C0843D 07050101670100"),
    ("beyond", "0406017000C1843D 07050101670100"),
    ("entry", "040401700001 07050101670100"),
    ("caller", "020B0101610167017000C0843D"),
    // Modules without anything, one that can't be read, and one that isn't valid.
    ("nothing", ""),
    ("x=y", ""),
    ("unread", "0503017D01"),
    ("invalid", "070501016D0200"),
];

/// Words over these files, and what they say: a later part doesn't serve, nor does the part itself, nor one of another
/// name, and names come before imports; of tables the least comes first, though a later part mixes it; pages and
/// entries are summed over definitions, pages first; all files are loaded before one is read,
/// and all are read before they are linked.
const LINES: &str = "\
link a=a b=b c=one => linked 3
link a=a b=b c=two => refused link ImportType c 0 memory 2 - memory 1 -
link b=b a=a => refused link NoImport b 0
link a=b => refused link NoImport a 0
link c=a b=b => refused link NoImport b 0
link a=a a=a => refused link DoubleName 1
link d=two a=a b=b b=one => refused link DoubleName 3
link a=table b=call => refused link TableMix 0 (s32)->() (i32)->()
link a=table b=own => linked 2
link a=table b=mix => refused link TableMix 1 trusted ()->() ()->()
link a=table mix=mix b=call => refused link TableMix 0 (s32)->() (i32)->()
link a=most b=user => linked 2
link a=more => refused link TooManyPages 4097
link a=most b=page => refused link TooManyPages 4097
link a=entries b=caller => linked 2
link a=beyond => refused link TooManyEntries 1000001
link a=entry b=entries => refused link TooManyEntries 1000001
link a=beyond b=more => refused link TooManyPages 4097
link a=nothing => linked 1
link a=x=y => linked 1
link a= => refused Missing\u{20}
link a=unread b=invalid c=gone => refused Missing gone
link a=two b=invalid c=unread => refused check invalid ModuleIndex export 0
link a=two b=unread c=invalid => refused read unread BadType 11
";

/// Saves a CT module with these sections under a name.
fn save_part(rt: &impl Abort, alloc: Global, shelf: &mut SureShelf, name: &str, sections: &str) {
    let digits = format!(in alloc; "00 61 73 6D 01 00 43 54 {sections}").expect(rt, "memory");
    save(rt, alloc, shelf, name, digits.as_str());
}

/// The words of a row's question have its answer.
fn links(rt: &impl Abort, alloc: Global, line: &str, shelf: &mut SureShelf, row: &str) {
    let text = format!(in alloc; "{}\n", answer(row)).expect(rt, "memory");
    says(rt, alloc, line, shelf, text.as_str());
}

#[test]
fn an_import_is_met_by_an_equal_type_and_by_limits_within_its_own(rt: HostRuntime) {
    for row in IMPORTS.lines() {
        let (a, b) = question(row).split_once(" | ").unwrap_or(("", ""));
        let mut shelf = shelf_of(&rt, rt.alloc(), &[]);
        save_part(&rt, rt.alloc(), &mut shelf, "a", a);
        save_part(&rt, rt.alloc(), &mut shelf, "b", b);
        links(&rt, rt.alloc(), "link a=a b=b", &mut shelf, row);
    }
}

#[test]
fn parts_match_or_have_a_first_fault(rt: HostRuntime) {
    let wholes = [("table", TABLE), ("call", CALL), ("own", OWN_CALL)];
    let mut shelf = shelf_of(&rt, rt.alloc(), &wholes);
    for (name, sections) in FILES {
        save_part(&rt, rt.alloc(), &mut shelf, name, sections);
    }
    for row in LINES.lines() {
        links(&rt, rt.alloc(), question(row), &mut shelf, row);
    }
}

/// The word `link` and so many parts with the file m, each of another name.
fn many(alloc: Global, parts: u8) -> Result<String, AllocError> {
    let mut line = String::from_str(alloc, "link")?;
    for part in 0..parts {
        write!(line, " p{part}=m")?;
    }
    Ok(line)
}

#[test]
fn one_to_64_parts_are_linked(rt: HostRuntime) {
    let mut shelf = shelf_of(&rt, rt.alloc(), &[]);
    save_part(&rt, rt.alloc(), &mut shelf, "m", "0503010001");
    let table = [
        (1, Status::Done, "linked 1\n"),
        (64, Status::Done, "linked 64\n"),
        (65, Status::Usage, USAGE),
    ];
    for (parts, status, text) in table {
        let line = many(rt.alloc(), parts).expect(&rt, "memory");
        writes(
            &rt,
            rt.alloc(),
            line.as_str(),
            &mut shelf,
            status,
            text.as_bytes(),
        );
    }
}

#[test]
fn all_module_files_together_have_at_most_128_mebibytes(rt: HostRuntime) {
    let mut shelf = shelf_of(&rt, rt.alloc(), &[("empty", "")]);
    let big = vec![in rt.alloc(); 0u8; 67_108_864].expect(&rt, "memory");
    assert_eq!(rt; shelf.save("big", &big), Ok(()));
    save_part(&rt, rt.alloc(), &mut shelf, "m", "");
    let table = [
        ("link a=big b=big c=m", "refused TooLarge m\n"),
        ("link a=big b=big c=empty", "refused read big BadMagic 0\n"),
    ];
    for (line, text) in table {
        says(&rt, rt.alloc(), line, &mut shelf, text);
    }
}
