use crate::rows::ADDER;
use crate::runs::{USAGE, says, shelf_of, writes};
use ctw_io::{Shelf, SureShelf};
use ctw_tests::bytes_of;
use ctwasm_top::Status;
use std::alloc::Global;
use std::process::Abort;

/// The text of the adder.
const ADDER_TEXT: &str = "\
(module ct
  (type (func (param s32 i32) (result s32)))
  (func (type 0)
    local.get 0
    local.get 1
    i32.classify
    s32.add
  )
  (export \"f\" (func 0))
)
";

/// The same with names, an inline export and folded instructions.
const FOLDED: &str = "\
(module ct (func $f (export \"f\") (param $a s32) (param $b i32) (result s32)
  (s32.add (local.get $a) (i32.classify (local.get $b)))))
";

/// A shelf with the text t.
fn written(rt: &impl Abort, alloc: Global, text: &str) -> SureShelf {
    let mut shelf = shelf_of(rt, alloc, &[]);
    assert_eq!(rt; shelf.save("t", text.as_bytes()), Ok(()));
    shelf
}

#[test]
fn texts_denote_modules(rt: HostRuntime) {
    let table = [
        (ADDER_TEXT, ADDER),
        (FOLDED, ADDER),
        ("(module\n)\n", "00 61 73 6D 01 00 00 00"),
        ("(module ct)", "00 61 73 6D 01 00 43 54"),
    ];
    for (text, want) in table {
        let mut shelf = written(&rt, rt.alloc(), text);
        let bytes = bytes_of(rt.alloc(), want).expect(&rt, "memory");
        writes(
            &rt,
            rt.alloc(),
            "assemble t",
            &mut shelf,
            Status::Done,
            &bytes,
        );
    }
}

#[test]
fn other_texts_are_refused(rt: HostRuntime) {
    let table = [
        ("(module (func nop", "refused text Unexpected 17 17\n"),
        ("(; x", "refused text Lex OpenComment 0\n"),
    ];
    for (text, want) in table {
        let mut shelf = written(&rt, rt.alloc(), text);
        says(&rt, rt.alloc(), "assemble t", &mut shelf, want);
    }
    let mut none = shelf_of(&rt, rt.alloc(), &[]);
    says(
        &rt,
        rt.alloc(),
        "assemble t",
        &mut none,
        "refused Missing t\n",
    );
    let usage = USAGE.as_bytes();
    writes(
        &rt,
        rt.alloc(),
        "mul assemble t",
        &mut none,
        Status::Usage,
        usage,
    );
}
