//! Appending the code of functions. Where memory runs out, some bytes may be there.
ghost use Rattle.std.specs.Prelude.{◌≡◌, ◌++◌, OnOk, All};
ghost use Rattle.ctw_ops.specs.Code.{Plain};
ghost use Rattle.ctw_text.specs.Names.{leaf_of as leaf_using, branches};
ghost use Rattle.ctw_text.specs.Leaves.{shape_of};
ghost use Rattle.ctw_leb.specs.Spelling.{u32_text};
ghost use Rattle.ctw_flat.specs.Instructions.{op_of, IsExactly};
ghost use Rattle.ctw_write.specs.Canon.{all_texts, vector_text, op_text, opener_of, groups_of, group_text};
ghost use Rattle.ctw_write.specs.KeepsLimits.{Is32, IsLimitedLeaf, IsLimitedOp};
ghost use Rattle.ctw_parse.specs.WideCanon.{wide_code_text};
ghost use Rattle.ctw_parse.specs.Written.{IsWritten, IsWrittenLeaf};

use crate::item::{count_of, put_bytes, put_count};
use ctw_flat::{Form, Instr, Opener};
use ctw_leb::put_u32;
use ctw_names::{Op, OpKind, WideFunction};
use ctw_ops::{Label, ValType, num_op};
use ctw_text::{Indexed, Leaf, LeafKind, Opener as Word};
use ctw_write::code::{put_block, put_form, put_instr};
use ctw_write::entry::{Run, put_group, with_local};
use std::alloc::{AllocError, Global};

/// An instruction with an index.
fn indexed(op: Indexed, index: u32) -> Instr<'static>
    ensures same { op_of result ≡ Plain (leaf_using op index) }
    ensures numbers { IsLimitedLeaf (leaf_using op index) }
    ensures exact { IsExactly result }
{
    match op {
        Indexed::Br => Instr::Br { depth: index },
        Indexed::BrIf => Instr::BrIf { depth: index },
        Indexed::Call => Instr::Call { index },
        Indexed::LocalGet => Instr::LocalGet { index },
        Indexed::LocalSet => Instr::LocalSet { index },
        Indexed::LocalTee => Instr::LocalTee { index },
        Indexed::GlobalGet => Instr::GlobalGet { index },
        Indexed::GlobalSet => Instr::GlobalSet { index },
    }
}

/// An instruction without an index.
fn single(leaf: Leaf) -> Instr<'static>
    requires { IsWrittenLeaf leaf }
    ensures same { op_of result ≡ Plain leaf }
    ensures numbers { IsLimitedLeaf leaf }
    ensures exact { IsExactly result }
{
    match leaf.kind {
        LeafKind::Unreachable => Instr::Unreachable,
        LeafKind::Nop => Instr::Nop,
        LeafKind::Return => Instr::Return,
        LeafKind::Drop => Instr::Drop,
        LeafKind::Select(label) => Instr::Select { label },
        LeafKind::MemorySize => Instr::MemorySize,
        LeafKind::MemoryGrow => Instr::MemoryGrow,
        LeafKind::Load {
            width,
            label,
            bytes,
            signed,
            align,
            offset,
        } => Instr::Load {
            width,
            label,
            bytes,
            signed,
            align,
            offset,
        },
        LeafKind::Store {
            width,
            label,
            bytes,
            align,
            offset,
        } => Instr::Store {
            width,
            label,
            bytes,
            signed: false,
            align,
            offset,
        },
        LeafKind::Const { width, label, bits } => Instr::Const { width, label, bits },
        LeafKind::Numeric(code, label) => {
            let Some(op) = num_op(code) else {
                unreachable!();
            };
            Instr::Numeric { op, label }
        }
        LeafKind::Classify(width) => Instr::Classify { width },
        LeafKind::Declassify(width) => Instr::Declassify { width },
    }
}

/// Numbers one after another.
pub(crate) fn put_numbers(out: &mut Vec<u8>, numbers: &[u32]) -> Result<(), AllocError>
    ensures written { OnOk result (out.new.items ≡ out.old.items ++ all_texts u32_text numbers.now) }
    ensures numbers { All Is32 numbers.now }
{
    'numbers: for number in numbers {
        put_u32(out, *number)?;
    }
    Ok(())
}

/// `br_table` with its labels, the default last.
fn put_branches(out: &mut Vec<u8>, labels: &[u32]) -> Result<(), AllocError>
    ensures written { OnOk result (out.new.items ≡ out.old.items ++ op_text (Plain (branches labels.now))) }
    ensures numbers { All Is32 labels.now }
{
    put_form(out, Label::Public, Form::BrTable)?;
    if labels.is_empty() {
        put_u32(out, 0)?;
        return put_u32(out, 0);
    }
    put_count(out, labels.len() - 1)?;
    put_numbers(out, labels)
}

/// What opens a block.
fn opener_of(word: Word) -> Opener
    ensures { result ≡ opener_of (shape_of word) }
{
    match word {
        Word::Block => Opener::Block,
        Word::Loop => Opener::Loop,
        Word::If => Opener::If,
    }
}

/// An instruction.
fn put_op(out: &mut Vec<u8>, op: &Op) -> Result<(), AllocError>
    requires { IsWritten op.now }
    ensures written { OnOk result (out.new.items ≡ out.old.items ++ op_text op.now) }
    ensures numbers { OnOk result (IsLimitedOp op.now) }
{
    match &op.kind {
        OpKind::Single(leaf) => put_instr(out, &single(*leaf)),
        OpKind::Uses(op, index) => put_instr(out, &indexed(*op, *index)),
        OpKind::Targets(labels) => put_branches(out, labels.as_slice()),
        OpKind::Indirect(index) => put_instr(out, &Instr::CallIndirect { index: *index }),
        OpKind::Opens(shape, result) => put_block(out, opener_of(shape.opener), *result),
        OpKind::Else => put_instr(out, &Instr::Else),
        OpKind::End => put_instr(out, &Instr::End),
    }
}

/// Instructions one after another.
fn put_ops(out: &mut Vec<u8>, ops: &[Op]) -> Result<(), AllocError>
    requires { All IsWritten ops.now }
    ensures written { OnOk result (out.new.items ≡ out.old.items ++ all_texts op_text ops.now) }
    ensures numbers { OnOk result (All IsLimitedOp ops.now) }
{
    'ops: for op in ops {
        put_op(out, op)?;
    }
    Ok(())
}

/// Declared locals, in the fewest groups.
fn put_locals(alloc: Global, out: &mut Vec<u8>, locals: &[ValType]) -> Result<(), AllocError>
    ensures { OnOk result (out.new.items ≡ out.old.items ++ vector_text group_text (groups_of locals.now)) }
{
    let count = count_of(locals.len())?;
    if count == 0 {
        return put_u32(out, 0);
    }
    let mut texts = Vec::new(alloc);
    let mut run = Run {
        groups: 0,
        count: 1,
        ty: locals[0],
    };
    for i in 1..locals.len() {
        run = with_local(&mut texts, run, locals[i])?;
    }
    let Run { groups, count, ty } = run;
    put_group(&mut texts, count, ty)?;
    put_u32(out, groups + 1)?;
    out.extend_from_slice(&texts)
}

/// The code of a function.
pub(crate) fn put_function(
    alloc: Global,
    out: &mut Vec<u8>,
    function: &WideFunction,
) -> Result<(), AllocError>
    requires { All IsWritten function.now.code }
    ensures written { OnOk result (out.new.items ≡ out.old.items ++ wide_code_text function.now) }
    ensures numbers { OnOk result (All IsLimitedOp function.now.code) }
{
    let mut entry = Vec::new(alloc);
    put_locals(alloc, &mut entry, function.locals.as_slice())?;
    put_ops(&mut entry, function.code.as_slice())?;
    put_bytes(out, &entry)
}
