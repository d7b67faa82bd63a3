//! Appending the opcodes of a body under labels. Where memory runs out, some bytes may be there.
ghost use Rattle.std.specs.Prelude.{◌≡◌, ◌<◌, ◌+◌, ◌^◌, ◌++◌, List, length, map, OnOk};
ghost use Rattle.ctw_ops.specs.declared.types.Label.{Label};
ghost use Rattle.ctw_flat.specs.Instructions.{op_of, IsExactly};
ghost use Rattle.ctw_labels.specs.Fits.{label_at};
ghost use Rattle.ctw_labels.specs.Placed.{TypeUse, with_uses};
ghost use Rattle.ctw_write.specs.Canon.{op_text};
ghost use Rattle.ctw_place.specs.Variants.{name_in, Holds};
ghost use Rattle.ctw_place.specs.Settings.{module_of, labels_of};
ghost use Rattle.ctw_place.specs.Ops.{labelled_op, first_op, uses_at, own_room};

use crate::named::named;
use crate::setting::Setting;
use crate::uses::labelled_result;
use crate::variants::Variants;
use ctw_flat::{Access, Form, Instr, Opener};
use ctw_ops::{Label, Trust};
use ctw_write::code::{put_access, put_block, put_const, put_form, put_instr};
use std::alloc::{AllocError, Global};

/// An opcode under its own label and the memory's.
#[inline(always)]
fn put_labelled(
    out: &mut Vec<u8>,
    instr: &Instr,
    own: Label,
    memory: Label,
) -> Result<(), AllocError>
    requires { IsExactly instr.now }
    ensures { OnOk result (out.new.items ≡ out.old.items ++ op_text (labelled_op own memory (op_of instr.now))) }
{
    match *instr {
        Instr::Block { result } => put_block(out, Opener::Block, labelled_result(result, own)),
        Instr::Loop { result } => put_block(out, Opener::Loop, labelled_result(result, own)),
        Instr::If { result } => put_block(out, Opener::If, labelled_result(result, own)),
        Instr::Select { .. } => put_form(out, own, Form::Select),
        Instr::Load {
            width,
            bytes,
            signed,
            align,
            offset,
            ..
        } => put_access(
            out,
            memory,
            Access::Load {
                width,
                bytes,
                signed,
            },
            align,
            offset,
        ),
        Instr::Store {
            width,
            bytes,
            align,
            offset,
            ..
        } => put_access(out, memory, Access::Store { width, bytes }, align, offset),
        Instr::Const { width, bits, .. } => put_const(out, width, own, bits),
        Instr::Numeric { op, .. } => put_form(out, own, Form::Numeric(op)),
        _ => put_instr(out, instr),
    }
}

/// An opcode whose sites begin at `site`. An indirect call names its type under its own sites' labels.
pub fn put_op(
    alloc: Global,
    setting: &Setting,
    variants: &mut Variants,
    out: &mut Vec<u8>,
    instr: &Instr,
    site: u32,
) -> Result<(), AllocError>
    requires exactly { IsExactly instr.now }
    requires room { site + own_room (module_of setting.now) (op_of instr.now) < 2 ^ 32 }
    requires few { (vs : List (TypeUse Label)) × Holds variants.old vs
        × (length (module_of setting.now).types + length vs + 1 < 2 ^ 32) }
    ensures held { (vs : List (TypeUse Label)) → Holds variants.old vs
        → OnOk result (Holds variants.new (with_uses vs (uses_at setting.now site (op_of instr.now)))) }
    ensures put { (vs later : List (TypeUse Label)) → Holds variants.old vs → OnOk result (out.new.items
        ≡ out.old.items ++ op_text (first_op (labels_of setting.now)
        (name_in (length (module_of setting.now).types)
        (with_uses (with_uses vs (uses_at setting.now site (op_of instr.now))) later))
        (module_of setting.now) setting.now.memory site (op_of instr.now))) }
{
    match *instr {
        Instr::CallIndirect { index } => {
            let index = named(alloc, setting, variants, index, site, Trust::Untrusted)?;
            put_instr(out, &Instr::CallIndirect { index })
        }
        _ => put_labelled(out, instr, setting.labels.at(site), setting.memory),
    }
}
