use ctw_ops::{
    Label, Name, NumOp, NumSig, Octets, Profile, ValType, Width, erase_type, leaks, num_op,
    signature, timed,
};
use std::alloc::{AllocError, Global};
use std::process::Abort;
use std::test::Fail;

fn op(rt: &impl Abort, code: u8) -> NumOp {
    num_op(code).expect(rt, "a numeric operation")
}

// From the tables of WebAssembly Core 1.0, sections 2.4.1 and 5.4.5, and of the sign extensions.
#[test]
fn operations_take_and_give_what_the_standard_says(rt: HostRuntime) {
    let table = [
        (0x45, 1, Width::W32, Width::W32), // i32.eqz
        (0x46, 2, Width::W32, Width::W32), // i32.eq
        (0x4F, 2, Width::W32, Width::W32), // i32.ge_u
        (0x50, 1, Width::W64, Width::W32), // i64.eqz
        (0x51, 2, Width::W64, Width::W32), // i64.eq
        (0x5A, 2, Width::W64, Width::W32), // i64.ge_u
        (0x67, 1, Width::W32, Width::W32), // i32.clz
        (0x69, 1, Width::W32, Width::W32), // i32.popcnt
        (0x6A, 2, Width::W32, Width::W32), // i32.add
        (0x78, 2, Width::W32, Width::W32), // i32.rotr
        (0x79, 1, Width::W64, Width::W64), // i64.clz
        (0x7B, 1, Width::W64, Width::W64), // i64.popcnt
        (0x7C, 2, Width::W64, Width::W64), // i64.add
        (0x8A, 2, Width::W64, Width::W64), // i64.rotr
        (0xA7, 1, Width::W64, Width::W32), // i32.wrap_i64
        (0xAC, 1, Width::W32, Width::W64), // i64.extend_i32_s
        (0xAD, 1, Width::W32, Width::W64), // i64.extend_i32_u
        (0xC0, 1, Width::W32, Width::W32), // i32.extend8_s
        (0xC1, 1, Width::W32, Width::W32), // i32.extend16_s
        (0xC2, 1, Width::W64, Width::W64), // i64.extend8_s
        (0xC4, 1, Width::W64, Width::W64), // i64.extend32_s
    ];
    for (code, arity, operand, result) in table {
        let want = NumSig {
            arity,
            operand,
            result,
        };
        assert!(rt; signature(op(&rt, code)) == want);
    }
}

#[test]
fn divisions_and_remainders_alone_are_timed(rt: HostRuntime) {
    for code in [0x6D, 0x6E, 0x6F, 0x70, 0x7F, 0x80, 0x81, 0x82] {
        assert!(rt; timed(op(&rt, code)));
    }
    for code in [
        0x45, 0x6A, 0x6C, 0x71, 0x74, 0x78, 0x7C, 0x7E, 0x83, 0x86, 0x8A, 0xA7, 0xAD,
    ] {
        assert!(rt; !timed(op(&rt, code)));
    }
}

#[test]
fn divisions_leak_and_multiplications_under_multiply_alone(rt: HostRuntime) {
    let table = [
        (0x6D, true, true), // i32.div_s
        (0x70, true, true), // i32.rem_u
        (0x7F, true, true), // i64.div_s
        (0x82, true, true), // i64.rem_u
        (0x6C, false, true), // i32.mul
        (0x7E, false, true), // i64.mul
        (0x6A, false, false), // i32.add
        (0x7C, false, false), // i64.add
        (0x74, false, false), // i32.shl
    ];
    for (code, under_divide, under_multiply) in table {
        assert!(rt; leaks(op(&rt, code), Profile::Divide) == under_divide);
        assert!(rt; leaks(op(&rt, code), Profile::Multiply) == under_multiply);
    }
}

#[test]
fn erasure_keeps_the_width(rt: HostRuntime) {
    for width in [Width::W32, Width::W64] {
        for label in [Label::Public, Label::Secret] {
            let erased = erase_type(ValType { width, label });
            assert!(rt; erased.width == width);
            assert!(rt; erased.label == Label::Public);
        }
    }
}

#[test]
fn owned_text_and_bytes_come_back(rt: HostRuntime) -> Result<(), AllocError> {
    let alloc: Global = rt.alloc();
    assert!(rt; Name::new(String::from_str(alloc, "dot")?).as_str() == "dot");
    let octets = Octets::new([0x00, 0xFF].to_vec(alloc)?);
    assert!(rt; octets.as_slice() == [0x00, 0xFF].as_slice());
    Ok(())
}
