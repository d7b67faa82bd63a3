//! Appending instructions. Where memory runs out, some bytes may be there.
ghost use Rattle.std.specs.Prelude.{◌≡◌, ◌<◌, ◌≤◌, ◌^◌, ◌++◌, ◌∷◌, [], ℕ, List, length, OnOk, Option};
ghost use Rattle.ctw_ops.specs.declared.types.Label.{Label};
ghost use Rattle.ctw_ops.specs.Code.{Op, Plain, BrTable, Code};
ghost use Rattle.ctw_leb.specs.Grammar.{Times};
ghost use Rattle.ctw_leb.specs.Numbers.{IsU32};
ghost use Rattle.ctw_leb.specs.Spelling.{u32_text};
ghost use Rattle.ctw_flat.specs.Opcodes.{opcode_byte};
ghost use Rattle.ctw_flat.specs.declared.opcode.Form.TheVariants as form;
ghost use Rattle.ctw_flat.specs.Spelled.{IsBody};
ghost use Rattle.ctw_flat.specs.Instructions.{op_of, targets_in, IsExactly};
ghost use Rattle.ctw_write.specs.Canon.{all_texts, in_form, bits_text, block_type_byte, op_text, body_text};
ghost use Rattle.ctw_ops.specs.Types.{FitsWidth};

use ctw_flat::{
    Access, Bare, Body, Form, Indexed, Instr, Opener, SECRET_PREFIX, Targets, Walk, byte_of_type,
    opcode_of,
};
use ctw_leb::{put_s64, put_u32};
use ctw_ops::{Label, ValType, Width};
use std::alloc::AllocError;

/// One byte.
#[inline(always)]
fn put_byte(out: &mut Vec<u8>, byte: u8) -> Result<(), AllocError>
    ensures { OnOk result (out.new.items ≡ out.old.items ++ byte ∷ []) }
{
    out.push(byte)?;
    Ok(())
}

/// An opcode.
#[inline(always)]
fn put_opcode(out: &mut Vec<u8>, form: Form) -> Result<(), AllocError>
    ensures { OnOk result (out.new.items ≡ out.old.items ++ opcode_byte form ∷ []) }
{
    put_byte(out, opcode_of(form))
}

/// An opcode with its prefix, if it is secret.
#[inline(always)]
pub fn put_form(out: &mut Vec<u8>, label: Label, form: Form) -> Result<(), AllocError>
    ensures { OnOk result (out.new.items ≡ out.old.items ++ in_form label (opcode_byte form ∷ [])) }
{
    if label == Label::Secret {
        out.push(SECRET_PREFIX)?;
    }
    put_opcode(out, form)
}

/// An opcode with an index.
#[inline(always)]
fn put_indexed(out: &mut Vec<u8>, form: Form, index: u32) -> Result<(), AllocError>
    ensures { OnOk result (out.new.items ≡ out.old.items ++ opcode_byte form ∷ u32_text index) }
{
    put_opcode(out, form)?;
    put_u32(out, index)
}

/// An opcode with the byte that stands for no choice yet.
fn put_reserved(out: &mut Vec<u8>, form: Form) -> Result<(), AllocError>
    ensures { OnOk result (out.new.items ≡ out.old.items ++ opcode_byte form ∷ 0x00 ∷ []) }
{
    put_opcode(out, form)?;
    put_byte(out, 0x00)
}

/// An opcode that opens a block, with the type of its result.
#[inline(always)]
pub fn put_block(
    out: &mut Vec<u8>,
    opener: Opener,
    result_type: Option<ValType>,
) -> Result<(), AllocError>
    ensures { OnOk result (out.new.items
        ≡ out.old.items ++ opcode_byte (form.Opens opener) ∷ block_type_byte result_type ∷ []) }
{
    put_opcode(out, Form::Opens(opener))?;
    match result_type {
        Some(t) => put_byte(out, byte_of_type(t)),
        None => put_byte(out, 0x40),
    }
}

/// A load or a store.
#[inline(always)]
pub fn put_access(
    out: &mut Vec<u8>,
    label: Label,
    access: Access,
    align: u32,
    offset: u32,
) -> Result<(), AllocError>
    ensures { OnOk result (out.new.items
        ≡ out.old.items ++ in_form label (opcode_byte (form.Access access) ∷ (u32_text align ++ u32_text offset))) }
{
    put_form(out, label, Form::Access(access))?;
    put_u32(out, align)?;
    put_u32(out, offset)
}

/// A number by its bits.
#[inline(always)]
fn put_bits(out: &mut Vec<u8>, width: Width, bits: u64) -> Result<(), AllocError>
    requires { FitsWidth width bits }
    ensures { OnOk result (out.new.items ≡ out.old.items ++ bits_text width bits) }
{
    match width {
        Width::W32 => put_s64(out, i64::from((bits as u32).cast_signed())),
        Width::W64 => put_s64(out, bits.cast_signed()),
    }
}

/// A constant, whose bits fit its width.
#[inline(always)]
pub fn put_const(out: &mut Vec<u8>, width: Width, label: Label, bits: u64) -> Result<(), AllocError>
    requires { FitsWidth width bits }
    ensures { OnOk result (out.new.items ≡ out.old.items
        ++ in_form label (opcode_byte (form.Const width) ∷ bits_text width bits)) }
{
    put_form(out, label, Form::Const(width))?;
    put_bits(out, width, bits)
}

/// The minimal spellings of the targets that are left.
fn put_targets(out: &mut Vec<u8>, mut targets: Targets) -> Result<(), AllocError>
    ensures { OnOk result (out.new.items ≡ out.old.items ++ all_texts u32_text targets.entry) }
{
    'targets: while let Some(target) = targets.next() {
        put_u32(out, target)?;
    }
    Ok(())
}

/// A branch table.
fn put_branch_table(
    out: &mut Vec<u8>,
    targets: &[u8],
    count: u32,
    otherwise: u32,
) -> Result<(), AllocError>
    requires { Times IsU32 count targets.now (targets_in count targets.now) }
    ensures { OnOk result (out.new.items
        ≡ out.old.items ++ op_text (Plain (BrTable (targets_in count targets.now) otherwise))) }
{
    put_opcode(out, Form::BrTable)?;
    put_u32(out, count)?;
    put_targets(out, Targets::new(targets, count))?;
    put_u32(out, otherwise)
}

/// An instruction as a walk gives it.
pub fn put_instr(out: &mut Vec<u8>, instr: &Instr) -> Result<(), AllocError>
    requires { IsExactly instr.now }
    ensures { OnOk result (out.new.items ≡ out.old.items ++ op_text (op_of instr.now)) }
{
    match *instr {
        Instr::Unreachable => put_opcode(out, Form::Bare(Bare::Unreachable)),
        Instr::Nop => put_opcode(out, Form::Bare(Bare::Nop)),
        Instr::Block { result } => put_block(out, Opener::Block, result),
        Instr::Loop { result } => put_block(out, Opener::Loop, result),
        Instr::If { result } => put_block(out, Opener::If, result),
        Instr::Else => put_opcode(out, Form::Bare(Bare::Else)),
        Instr::End => put_opcode(out, Form::Bare(Bare::End)),
        Instr::Br { depth } => put_indexed(out, Form::Indexed(Indexed::Br), depth),
        Instr::BrIf { depth } => put_indexed(out, Form::Indexed(Indexed::BrIf), depth),
        Instr::BrTable {
            targets,
            count,
            otherwise,
        } => put_branch_table(out, targets, count, otherwise),
        Instr::Return => put_opcode(out, Form::Bare(Bare::Return)),
        Instr::Call { index } => put_indexed(out, Form::Indexed(Indexed::Call), index),
        Instr::CallIndirect { index } => {
            put_indexed(out, Form::CallIndirect, index)?;
            put_byte(out, 0x00)
        }
        Instr::Drop => put_opcode(out, Form::Bare(Bare::Drop)),
        Instr::Select { label } => put_form(out, label, Form::Select),
        Instr::LocalGet { index } => put_indexed(out, Form::Indexed(Indexed::LocalGet), index),
        Instr::LocalSet { index } => put_indexed(out, Form::Indexed(Indexed::LocalSet), index),
        Instr::LocalTee { index } => put_indexed(out, Form::Indexed(Indexed::LocalTee), index),
        Instr::GlobalGet { index } => put_indexed(out, Form::Indexed(Indexed::GlobalGet), index),
        Instr::GlobalSet { index } => put_indexed(out, Form::Indexed(Indexed::GlobalSet), index),
        Instr::Load {
            width,
            label,
            bytes,
            signed,
            align,
            offset,
        } => put_access(
            out,
            label,
            Access::Load {
                width,
                bytes,
                signed,
            },
            align,
            offset,
        ),
        Instr::Store {
            width,
            label,
            bytes,
            align,
            offset,
            ..
        } => put_access(out, label, Access::Store { width, bytes }, align, offset),
        Instr::MemorySize => put_reserved(out, Form::MemorySize),
        Instr::MemoryGrow => put_reserved(out, Form::MemoryGrow),
        Instr::Const { width, label, bits } => put_const(out, width, label, bits),
        Instr::Numeric { op, label } => put_form(out, label, Form::Numeric(op)),
        Instr::Classify { width } => put_opcode(out, Form::Bare(Bare::Classify(width))),
        Instr::Declassify { width } => put_opcode(out, Form::Bare(Bare::Declassify(width))),
    }
}

/// A body's instructions with the closing end.
pub(crate) fn put_body(out: &mut Vec<u8>, body: &Body) -> Result<(), AllocError>
    requires { (code : Code Label) × IsBody body.now code }
    ensures { (code : Code Label) → IsBody body.now code
        → OnOk result (out.new.items ≡ out.old.items ++ body_text code) }
{
    let mut walk = Walk::new(body);
    'opcodes: while !walk.is_done() {
        match walk.next() {
            Ok(instr) => put_instr(out, &instr)?,
            Err(_) => unreachable!(),
        }
    }
    Ok(())
}
