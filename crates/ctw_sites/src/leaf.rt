ghost use Rattle.std.specs.Prelude.{◌≡◌, ◌+◌, ◌<◌, ◌≤◌, ◌-◌, ◌^◌, ℕ, false, length, IsSome, OnOk};
ghost use Rattle.ctw_ops.specs.declared.types.Label.{Label};
ghost use Rattle.ctw_ops.specs.Code.{Leaf, Plain};
ghost use Rattle.ctw_flat.specs.Instructions.{op_of, IsExactly};
ghost use Rattle.ctw_stack.specs.Opens.{target_of, slot_count};
ghost use Rattle.ctw_labels.specs.FlatSites.{among};
ghost use Rattle.ctw_sites.specs.Leaves.{IsRowOf, own_count, own_of, iparams, user_sites};
ghost use Rattle.ctw_sites.specs.Packed.{after};
ghost use Rattle.ctw_sites.specs.Rows.{branch_row as row_of_branch};
ghost use Rattle.ctw_sites.specs.Scope.{scope, place};

use crate::around::Around;
use crate::packer::Packer;
use crate::row::Row;
use ctw_flat::Instr;
use ctw_labels::{SiteName, Tag};
use ctw_ops::{Width, signature};
use ctw_stack::Stack;
use std::alloc::AllocError;

/// The row of a `br_if`.
fn branch_row(stack: &Stack<Tag>, depth: u32) -> Row
    ensures { result ≡ row_of_branch (target_of depth stack.now) }
{
    match stack.target(depth) {
        Some(Some(t)) => Row::gives_of(2, Some(t)),
        Some(None) => Row::gives_of(1, None),
        None => Row::takes_alone(0),
    }
}

/// The row of an instruction without instructions inside, whose sites begin at `n`. Nothing is said of `select`, and of
/// `block`, `loop`, `if`, `else` and `end`.
#[inline(always)]
pub fn row_of(around: &Around, stack: &Stack<Tag>, instr: &Instr, n: u32) -> Row
    requires exactly { IsExactly instr.now }
    requires room { n + own_count (place around.now) (op_of instr.now) < 2 ^ 32 }
    ensures { IsRowOf (place around.now) (among (scope around.now) stack.now) n (op_of instr.now) result }
{
    match *instr {
        Instr::Unreachable | Instr::Br { .. } | Instr::BrTable { .. } | Instr::Return => {
            Row::ending()
        }
        Instr::BrIf { depth } => branch_row(stack, depth),
        Instr::Call { index } => around.call_row(index),
        Instr::CallIndirect { index } => around.user_row(index, n),
        Instr::Drop | Instr::LocalSet { .. } | Instr::GlobalSet { .. } => Row::takes_alone(1),
        Instr::Store { .. } => Row::takes_alone(2),
        Instr::Select { .. } => Row::takes_alone(3),
        Instr::LocalGet { index } => Row::gives_of(0, around.local(index)),
        Instr::LocalTee { index } => Row::gives_of(1, around.local(index)),
        Instr::GlobalGet { index } => Row::gives_of(0, around.global(index)),
        Instr::Load { width, .. } => Row::gives_of(1, Some((width, around.memory()))),
        Instr::MemorySize => Row::gives_of(0, Some((Width::W32, Tag::Fixed))),
        Instr::MemoryGrow => Row::gives_of(1, Some((Width::W32, Tag::Fixed))),
        Instr::Const { width, .. } => Row::kept(0, (width, Tag::At { site: n })),
        Instr::Numeric { op, .. } => {
            let sig = signature(op);
            Row::gives_of(
                u32::from(sig.arity),
                Some((sig.result, Tag::At { site: n })),
            )
        }
        Instr::Classify { width } | Instr::Declassify { width } => {
            Row::kept(1, (width, Tag::Fixed))
        }
        Instr::Nop
        | Instr::Block { .. }
        | Instr::Loop { .. }
        | Instr::If { .. }
        | Instr::Else
        | Instr::End => Row::takes_alone(0),
    }
}

/// Adds the sites of an opcode before its push's.
#[inline(always)]
pub fn push_own(
    around: &Around,
    packer: &mut Packer,
    instr: &Instr,
    at: u32,
) -> Result<(), AllocError>
    requires room { packer.old.count + own_count (place around.now) (op_of instr.now) < 2 ^ 32 }
    ensures { OnOk result (packer.new ≡ after packer.old (own_of (place around.now) at (op_of instr.now))) }
{
    let f = around.f;
    match *instr {
        Instr::Numeric { .. } | Instr::Select { .. } => packer.push(SiteName::Op { f, at }, None),
        Instr::Const { .. } => packer.push(SiteName::Push { f, at }, None),
        Instr::CallIndirect { index } => {
            let (params, result) = around.signature(index);
            push_user(packer, f, at, params, result)
        }
        _ => Ok(()),
    }
}

/// Adds the sites of an indirect call with so many parameters and a result of this width.
fn push_user(
    packer: &mut Packer,
    f: u32,
    at: u32,
    params: u32,
    width: Option<Width>,
) -> Result<(), AllocError>
    requires { packer.old.count + length (user_sites f at params width) < 2 ^ 32 }
    ensures { OnOk result (packer.new ≡ after packer.old (user_sites f at params width)) }
{
    push_params(packer, f, at, params)?;
    match width {
        Some(_) => packer.push(SiteName::IResult { f, at }, None),
        None => Ok(()),
    }
}

/// Adds the sites of so many parameters of an indirect call.
fn push_params(packer: &mut Packer, f: u32, at: u32, params: u32) -> Result<(), AllocError>
    requires { packer.old.count + params < 2 ^ 32 }
    ensures { OnOk result (packer.new ≡ after packer.old (iparams f at params)) }
{
    'params: for i in 0..params {
        packer.push(SiteName::IParam { f, at, i }, None)?;
    }
    Ok(())
}
