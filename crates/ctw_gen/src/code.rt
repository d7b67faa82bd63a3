//! Appending the code of a workload's functions. Where memory runs out, some bytes may be there.
ghost use Rattle.std.specs.Prelude.{◌≡◌, ◌<◌, ◌≤◌, ◌^◌, ◌*◌, ◌++◌, true, map, OnOk};
ghost use Rattle.std.specs.List.{All, range_with_len};
ghost use Rattle.ctw_ops.specs.declared.types.Label.TheVariants.{Public};
ghost use Rattle.ctw_ops.specs.declared.types.Width.TheVariants.{W32};
ghost use Rattle.ctw_ops.specs.Numeric.{is_numeric};
ghost use Rattle.ctw_flat.specs.declared.instr.Instr.TheVariants.{Const, Numeric};
ghost use Rattle.ctw_flat.specs.Instructions.{op_of, IsExactly};
ghost use Rattle.ctw_write.specs.Canon.{all_texts, leaf_text, op_text, code_text};
ghost use Rattle.ctw_gen.specs.Draws.{state};
ghost use Rattle.ctw_gen.specs.Workload.{computes, stores, leaves, calls, made, numbered, main};

use crate::draws::Draws;
use ctw_flat::Instr;
use ctw_leb::put_u32;
use ctw_ops::{Label, Width, num_op};
use ctw_write::code::put_instr;
use ctw_write::text::put_sized;
use std::alloc::{AllocError, Global};

/// The opcode of i32.and.
const AND: u8 = 0x71;

/// The opcode of i32.xor.
const XOR: u8 = 0x73;

/// The opcodes of i32 add, sub, mul, and, or, xor, shl and rotl.
const OPERATIONS: [u8; 8] = [0x6A, 0x6B, 0x6C, AND, 0x72, XOR, 0x74, 0x77];

/// `i32.const`
fn number(n: u32) -> Instr<'static>
    ensures { result ≡ Const W32 Public n }
{
    Instr::Const {
        width: Width::W32,
        label: Label::Public,
        bits: u64::from(n),
    }
}

/// The numeric operation of an opcode that has one.
fn operation(code: u8) -> Instr<'static>
    requires { is_numeric code ≡ true }
    ensures { result ≡ Numeric code Public }
{
    match num_op(code) {
        Some(op) => Instr::Numeric {
            op,
            label: Label::Public,
        },
        None => unreachable!(),
    }
}

/// Instructions one after another.
fn put_all(out: &mut Vec<u8>, instrs: &[Instr]) -> Result<(), AllocError>
    requires { All IsExactly instrs.now }
    ensures { OnOk result (out.new.items ≡ out.old.items ++ all_texts (λ instr. op_text (op_of instr)) instrs.now) }
{
    for instr in instrs {
        put_instr(out, instr)?;
    }
    Ok(())
}

/// An operation on both parameters, and then i32.xor with a number.
fn put_computes(out: &mut Vec<u8>, a: u32, c: u32) -> Result<(), AllocError>
    ensures { OnOk result (out.new.items ≡ out.old.items ++ all_texts leaf_text (computes a c)) }
{
    let chosen = OPERATIONS[(a % 8) as usize];
    put_all(
        out,
        &[
            Instr::LocalGet { index: 0 },
            Instr::LocalGet { index: 1 },
            operation(chosen),
            number(c),
            operation(XOR),
        ],
    )
}

/// The number on the stack is stored where the second parameter says, and stays on the stack.
fn put_stores(out: &mut Vec<u8>) -> Result<(), AllocError>
    ensures { OnOk result (out.new.items ≡ out.old.items ++ all_texts leaf_text stores) }
{
    put_all(
        out,
        &[
            Instr::LocalSet { index: 0 },
            Instr::LocalGet { index: 1 },
            number(65_532),
            operation(AND),
            Instr::LocalGet { index: 0 },
            Instr::Store {
                width: Width::W32,
                label: Label::Public,
                bytes: 4,
                signed: false,
                align: 2,
                offset: 0,
            },
            Instr::LocalGet { index: 0 },
        ],
    )
}

/// The calls of so many functions, each with its own number.
fn put_calls(out: &mut Vec<u8>, size: u32) -> Result<(), AllocError>
    ensures { OnOk result (out.new.items ≡ out.old.items ++ all_texts leaf_text (calls size)) }
{
    for k in 0..size {
        put_all(out, &[number(k), Instr::Call { index: k }])?;
    }
    Ok(())
}

/// The instructions of the function that three draws make: it stores where the third is odd.
fn put_leaves(out: &mut Vec<u8>, a: u32, c: u32, b: u32) -> Result<(), AllocError>
    ensures { OnOk result (out.new.items ≡ out.old.items ++ all_texts leaf_text (leaves a c b)) }
{
    put_computes(out, a, c)?;
    if b % 2 == 1 { put_stores(out) } else { Ok(()) }
}

/// The code of the function that three draws make.
fn put_made(alloc: Global, out: &mut Vec<u8>, a: u32, c: u32, b: u32) -> Result<(), AllocError>
    requires { c < 2 ^ 15 }
    ensures { OnOk result (out.new.items ≡ out.old.items ++ code_text (made a c b)) }
{
    let mut entry = Vec::new(alloc);
    put_u32(&mut entry, 0)?;
    put_leaves(&mut entry, a, c, b)?;
    put_instr(&mut entry, &Instr::End)?;
    put_sized(out, &entry)
}

/// The code of the functions that draws make.
pub(crate) fn put_numbered(
    alloc: Global,
    out: &mut Vec<u8>,
    draws: &mut Draws,
    size: u32,
) -> Result<(), AllocError>
    ensures written { OnOk result (out.new.items
        ≡ out.old.items ++ all_texts code_text (map (numbered draws.old) (range_with_len 0 size))) }
    ensures drawn { OnOk result (draws.new ≡ state draws.old (3 * size)) }
{
    for _ in 0..size {
        let a = draws.draw();
        let c = draws.draw();
        let b = draws.draw();
        put_made(alloc, out, a, c, b)?;
    }
    Ok(())
}

/// The code of `main`.
pub(crate) fn put_main(alloc: Global, out: &mut Vec<u8>, size: u32) -> Result<(), AllocError>
    requires { size ≤ 20000 }
    ensures { OnOk result (out.new.items ≡ out.old.items ++ code_text (main size)) }
{
    let mut entry = Vec::new(alloc);
    put_u32(&mut entry, 0)?;
    put_instr(&mut entry, &Instr::LocalGet { index: 0 })?;
    put_calls(&mut entry, size)?;
    put_instr(&mut entry, &Instr::End)?;
    put_sized(out, &entry)
}
