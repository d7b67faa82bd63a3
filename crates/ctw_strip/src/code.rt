//! Appending what instructions become. Where memory runs out, some bytes may be there.
ghost use Rattle.std.specs.Prelude.{◌≡◌, ◌++◌, OnOk};
ghost use Rattle.ctw_ops.specs.declared.types.Label.{Label};
ghost use Rattle.ctw_ops.specs.Code.{Code};
ghost use Rattle.ctw_ops.specs.Erasure.{erase_code};
ghost use Rattle.ctw_flat.specs.Spelled.{IsBody};
ghost use Rattle.ctw_flat.specs.Instructions.{op_of, IsExactly};
ghost use Rattle.ctw_module.specs.Trees.{tree};
ghost use Rattle.ctw_write.specs.Canon.{body_text};
ghost use Rattle.ctw_strip.specs.Stripped.{erased_text};

use crate::item::{base_index, erased_result};
use ctw_flat::{Access, Body, Form, Instr, Opener, Walk};
use ctw_module::Module;
use ctw_ops::Label;
use ctw_write::code::{put_access, put_block, put_const, put_form, put_instr};
use std::alloc::AllocError;

/// What an instruction becomes: its public form, and nothing of classify and declassify. An indirect call names the
/// base of its type.
#[inline(always)]
fn put_erased(out: &mut Vec<u8>, m: &Module, instr: &Instr) -> Result<(), AllocError>
    requires { IsExactly instr.now }
    ensures { OnOk result (out.new.items ≡ out.old.items ++ erased_text (tree m.now).types (op_of instr.now)) }
{
    match *instr {
        Instr::Block { result } => put_block(out, Opener::Block, erased_result(result)),
        Instr::Loop { result } => put_block(out, Opener::Loop, erased_result(result)),
        Instr::If { result } => put_block(out, Opener::If, erased_result(result)),
        Instr::CallIndirect { index } => put_instr(
            out,
            &Instr::CallIndirect {
                index: base_index(m, index),
            },
        ),
        Instr::Select { .. } => put_form(out, Label::Public, Form::Select),
        Instr::Load {
            width,
            bytes,
            signed,
            align,
            offset,
            ..
        } => put_access(
            out,
            Label::Public,
            Access::Load {
                width,
                bytes,
                signed,
            },
            align,
            offset,
        ),
        Instr::Store {
            width,
            bytes,
            align,
            offset,
            ..
        } => put_access(
            out,
            Label::Public,
            Access::Store { width, bytes },
            align,
            offset,
        ),
        Instr::Const { width, bits, .. } => put_const(out, width, Label::Public, bits),
        Instr::Numeric { op, .. } => put_form(out, Label::Public, Form::Numeric(op)),
        Instr::Classify { .. } => Ok(()),
        Instr::Declassify { .. } => Ok(()),
        _ => put_instr(out, instr),
    }
}

/// What a body's instructions become, with the closing end.
pub(crate) fn put_body(out: &mut Vec<u8>, m: &Module, body: &Body) -> Result<(), AllocError>
    requires { (code : Code Label) × IsBody body.now code }
    ensures { (code : Code Label) → IsBody body.now code
        → OnOk result (out.new.items ≡ out.old.items ++ body_text (erase_code (tree m.now).types code)) }
{
    let mut walk = Walk::new(body);
    'opcodes: while !walk.is_done() {
        match walk.next() {
            Ok(instr) => put_erased(out, m, &instr)?,
            Err(_) => unreachable!(),
        }
    }
    Ok(())
}
