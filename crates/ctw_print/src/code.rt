//! Appending instructions, one a line. Where memory runs out, some of the text may be there.
ghost use Rattle.std.specs.Prelude.{◌≡◌, ◌<◌, ◌++◌, [], decimal, OnOk, codes, All, if◌then◌else◌};
ghost use Rattle.std.specs.String.{string_bytes};
ghost use Rattle.ctw_ops.specs.declared.types.Label.{Label};
ghost use Rattle.ctw_ops.specs.Code.{Code, Plain, BrTable, opcodes};
ghost use Rattle.ctw_ops.specs.Types.{value_type};
ghost use Rattle.ctw_leb.specs.Grammar.{Times};
ghost use Rattle.ctw_leb.specs.Numbers.{IsU32};
ghost use Rattle.ctw_flat.specs.Spelled.{IsBody};
ghost use Rattle.ctw_flat.specs.Instructions.{op_of, targets_in, IsExactly};
ghost use Rattle.ctw_text.specs.Print.{natural};
ghost use Rattle.ctw_print.specs.Words.{value_word, numeric_word};
ghost use Rattle.ctw_print.specs.Texts.{all_texts, spaced_number, result_text, offset_text, align_text, place_text, op_text, op_line, lines_text, HasAlign};

use crate::item::{put_const, put_number, put_result, put_spaced};
use crate::word::{front_width, load_end, numeric_end, select_word, store_end, value_word};
use ctw_flat::{Body, Instr, Targets, Walk};
use ctw_ops::{Label, NumOp, ValType, Width};
use std::alloc::AllocError;

/// A word and an index.
fn put_indexed(out: &mut String, word: &str, index: u32) -> Result<(), AllocError>
    ensures { OnOk result (string_bytes out.new ≡ string_bytes out.old ++ word.now ++ decimal index) }
{
    out.push_str(word)?;
    put_number(out, index)
}

/// A word that opens a block, and the type of its result.
fn put_block(out: &mut String, word: &str, ty: Option<ValType>) -> Result<(), AllocError>
    ensures { OnOk result (string_bytes out.new ≡ string_bytes out.old ++ word.now ++ result_text ty) }
{
    out.push_str(word)?;
    put_result(out, ty)
}

/// A word that begins with a value type.
fn put_typed(out: &mut String, width: Width, label: Label, end: &str) -> Result<(), AllocError>
    ensures { OnOk result (string_bytes out.new
        ≡ string_bytes out.old ++ value_word (value_type width label) ++ end.now) }
{
    out.push_str(value_word(ValType { width, label }))?;
    out.push_str(end)
}

/// The exponent of the natural align of an access.
fn natural(bytes: u8) -> u32
    ensures { result ≡ natural bytes }
{
    match bytes {
        1 => 0,
        2 => 1,
        4 => 2,
        _ => 3,
    }
}

/// An offset, if it isn't 0.
fn put_offset(out: &mut String, offset: u32) -> Result<(), AllocError>
    ensures { OnOk result (string_bytes out.new ≡ string_bytes out.old ++ offset_text offset) }
{
    if offset == 0 {
        return Ok(());
    }
    put_indexed(out, " offset=", offset)
}

/// An align by its exponent, if it isn't natural.
fn put_align(out: &mut String, natural: u32, exponent: u32) -> Result<(), AllocError>
    requires { exponent < 32 }
    ensures { OnOk result (string_bytes out.new ≡ string_bytes out.old ++ align_text natural exponent) }
{
    if exponent == natural {
        return Ok(());
    }
    put_indexed(out, " align=", 1 << exponent)
}

/// What stands behind the word of an access.
fn put_place(out: &mut String, bytes: u8, align: u32, offset: u32) -> Result<(), AllocError>
    requires { align < 32 }
    ensures { OnOk result (string_bytes out.new ≡ string_bytes out.old ++ place_text bytes align offset) }
{
    put_offset(out, offset)?;
    put_align(out, natural(bytes), align)
}

/// The targets that are left, each behind a blank.
fn put_targets(out: &mut String, mut targets: Targets) -> Result<(), AllocError>
    ensures { OnOk result (string_bytes out.new ≡ string_bytes out.old ++ all_texts spaced_number targets.entry) }
{
    'targets: while let Some(target) = targets.next() {
        put_spaced(out, target)?;
    }
    Ok(())
}

/// A branch table.
fn put_branch_table(
    out: &mut String,
    targets: &[u8],
    count: u32,
    otherwise: u32,
) -> Result<(), AllocError>
    requires { Times IsU32 count targets.now (targets_in count targets.now) }
    ensures { OnOk result (string_bytes out.new
        ≡ string_bytes out.old ++ op_text (Plain (BrTable (targets_in count targets.now) otherwise))) }
{
    out.push_str("br_table")?;
    put_targets(out, Targets::new(targets, count))?;
    put_spaced(out, otherwise)
}

/// The type's index of an indirect call.
fn put_indirect(out: &mut String, index: u32) -> Result<(), AllocError>
    ensures { OnOk result (string_bytes out.new
        ≡ string_bytes out.old ++ codes "call_indirect (type " ++ decimal index ++ codes ")") }
{
    out.push_str("call_indirect (type ")?;
    put_number(out, index)?;
    out.push(')')
}

/// A numeric operation.
fn put_numeric(out: &mut String, op: NumOp, label: Label) -> Result<(), AllocError>
    ensures { OnOk result (string_bytes out.new ≡ string_bytes out.old ++ numeric_word op label) }
{
    put_typed(out, front_width(op), label, numeric_end(op, label))
}

/// An instruction as a walk gives it.
fn put_op(out: &mut String, instr: &Instr) -> Result<(), AllocError>
    requires exactly { IsExactly instr.now }
    requires align { HasAlign (op_of instr.now) }
    ensures { OnOk result (string_bytes out.new ≡ string_bytes out.old ++ op_text (op_of instr.now)) }
{
    match *instr {
        Instr::Unreachable => out.push_str("unreachable"),
        Instr::Nop => out.push_str("nop"),
        Instr::Block { result } => put_block(out, "block", result),
        Instr::Loop { result } => put_block(out, "loop", result),
        Instr::If { result } => put_block(out, "if", result),
        Instr::Else => out.push_str("else"),
        Instr::End => out.push_str("end"),
        Instr::Br { depth } => put_indexed(out, "br ", depth),
        Instr::BrIf { depth } => put_indexed(out, "br_if ", depth),
        Instr::BrTable {
            targets,
            count,
            otherwise,
        } => put_branch_table(out, targets, count, otherwise),
        Instr::Return => out.push_str("return"),
        Instr::Call { index } => put_indexed(out, "call ", index),
        Instr::CallIndirect { index } => put_indirect(out, index),
        Instr::Drop => out.push_str("drop"),
        Instr::Select { label } => out.push_str(select_word(label)),
        Instr::LocalGet { index } => put_indexed(out, "local.get ", index),
        Instr::LocalSet { index } => put_indexed(out, "local.set ", index),
        Instr::LocalTee { index } => put_indexed(out, "local.tee ", index),
        Instr::GlobalGet { index } => put_indexed(out, "global.get ", index),
        Instr::GlobalSet { index } => put_indexed(out, "global.set ", index),
        Instr::Load {
            width,
            label,
            bytes,
            signed,
            align,
            offset,
        } => {
            put_typed(out, width, label, load_end(width, bytes, signed))?;
            put_place(out, bytes, align, offset)
        }
        Instr::Store {
            width,
            label,
            bytes,
            align,
            offset,
            ..
        } => {
            put_typed(out, width, label, store_end(width, bytes))?;
            put_place(out, bytes, align, offset)
        }
        Instr::MemorySize => out.push_str("memory.size"),
        Instr::MemoryGrow => out.push_str("memory.grow"),
        Instr::Const { width, label, bits } => put_const(out, ValType { width, label }, bits),
        Instr::Numeric { op, label } => put_numeric(out, op, label),
        Instr::Classify { width } => put_typed(out, width, Label::Public, ".classify"),
        Instr::Declassify { width } => put_typed(out, width, Label::Secret, ".declassify"),
    }
}

/// An instruction on a line of its own, unless it is the last one of its body.
#[inline(always)]
fn put_line(out: &mut String, instr: &Instr, last: bool) -> Result<(), AllocError>
    requires exactly { IsExactly instr.now }
    requires align { HasAlign (op_of instr.now) }
    ensures { OnOk result (string_bytes out.new
        ≡ string_bytes out.old ++ (if last then [] else op_line (op_of instr.now))) }
{
    if last {
        return Ok(());
    }
    out.push_str("\n    ")?;
    put_op(out, instr)
}

/// The instructions of a body, one a line, but for the closing end.
pub(crate) fn put_body(out: &mut String, body: &Body) -> Result<(), AllocError>
    requires { (code : Code Label) × IsBody body.now code × All HasAlign (opcodes code) }
    ensures { (code : Code Label) → IsBody body.now code
        → OnOk result (string_bytes out.new ≡ string_bytes out.old ++ lines_text (opcodes code)) }
{
    let mut walk = Walk::new(body);
    'opcodes: while !walk.is_done() {
        match walk.next() {
            Ok(instr) => put_line(out, &instr, walk.is_done())?,
            Err(_) => unreachable!(),
        }
    }
    Ok(())
}
