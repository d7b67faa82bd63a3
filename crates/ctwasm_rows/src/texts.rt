use crate::infers::{BIT as PLAIN_BIT, EARLY, EQUAL, EQUAL_PADDED, LOAD, MEMORY, SQUARE, THREE};
use crate::rows::{ADDER, CALL, HEADER, OWN_CALL, TABLE};
use crate::runs::{says_of, shelf_of, written};
use crate::sessions::{
    BIT, DATA_OUTSIDE, ELEMENT_OUTSIDE, EVENTS, FAR_LOAD, GROW, KEEPER, NEST, OUTER, QUOTIENT,
    REMAINDER, START_LOOPS, VARIANT, WIDE, WRITER,
};
use ctw_io::Shelf;

#[test]
fn a_module_is_printed_as_text(rt: HostRuntime) {
    let text = "\
(module ct
  (type (func (param s32 i32) (result s32)))
  (func (type 0)
    local.get 0
    local.get 1
    i32.classify
    s32.add
  )
  (export \"f\" (func 0))
)
";
    for words in ["text m", "mul text m"] {
        says_of(&rt, rt.alloc(), words, ADDER, text);
    }
}

#[test]
fn a_module_without_anything_has_a_text(rt: HostRuntime) {
    says_of(
        &rt,
        rt.alloc(),
        "text m",
        "00 61 73 6D 01 00 00 00",
        "(module\n)\n",
    );
    says_of(
        &rt,
        rt.alloc(),
        "text m",
        "00 61 73 6D 01 00 43 54",
        "(module ct\n)\n",
    );
}

#[test]
fn only_a_valid_module_is_printed(rt: HostRuntime) {
    let branch = "\
00 61 73 6D 01 00 43 54 01 05 01 60 01 7A 00 03 02 01 00
0A 0B 01 09 00 02 40 20 00 0D 00 0B 0B";
    let text = "refused check m Body 0 at 2 SecretPlace Condition\n";
    says_of(&rt, rt.alloc(), "text m", branch, text);
    let seven = "00 61 73 6D 01 00 00";
    says_of(
        &rt,
        rt.alloc(),
        "text m",
        seven,
        "refused read m Truncated 7\n",
    );
}

#[test]
fn under_the_multiply_profile_a_product_of_secrets_is_not_printed(rt: HostRuntime) {
    let square = "\
00 61 73 6D 01 00 43 54 01 06 01 60 01 7A 01 7A 03 02 01 00
0A 0A 01 08 00 20 00 20 00 E0 6C 0B";
    let text = "\
(module ct
  (type (func (param s32) (result s32)))
  (func (type 0)
    local.get 0
    local.get 0
    s32.mul
  )
)
";
    says_of(&rt, rt.alloc(), "text m", square, text);
    let refused = "refused check m Body 0 at 2 SecretPlace Divide\n";
    says_of(&rt, rt.alloc(), "mul text m", square, refused);
}

#[test]
fn each_printed_row_is_assembled_to_its_canonical_bytes(rt: HostRuntime) {
    let modules = [
        HEADER,
        ADDER,
        TABLE,
        CALL,
        OWN_CALL,
        EQUAL,
        EQUAL_PADDED,
        EARLY,
        LOAD,
        MEMORY,
        THREE,
        PLAIN_BIT,
        SQUARE,
        REMAINDER,
        QUOTIENT,
        FAR_LOAD,
        GROW,
        WRITER,
        BIT,
        WIDE,
        NEST,
        START_LOOPS,
        VARIANT,
        ELEMENT_OUTSIDE,
        DATA_OUTSIDE,
        EVENTS,
        KEEPER,
        OUTER,
    ];
    for module in modules {
        let mut shelf = shelf_of(&rt, rt.alloc(), &[("m", module)]);
        let text = written(&rt, rt.alloc(), "text m", &mut shelf);
        assert_eq!(rt; shelf.save("t", &text), Ok(()));
        let canonical = written(&rt, rt.alloc(), "canon m", &mut shelf);
        let assembled = written(&rt, rt.alloc(), "assemble t", &mut shelf);
        assert_eq!(rt; assembled, canonical, "{module}");
    }
}
