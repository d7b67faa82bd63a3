ghost use Rattle.std.specs.Prelude.{◌≡◌, ◌+◌, ◌<◌, ◌≤◌, ◌-◌, ◌^◌, length, OnOk};
ghost use Rattle.ctw_flat.specs.Instructions.{op_of, IsExactly};
ghost use Rattle.ctw_labels.specs.declared.name.SiteName.TheVariants.{Push};
ghost use Rattle.ctw_labels.specs.FlatSites.{GoesBy, opens_behind, op_sites};
ghost use Rattle.ctw_labels.specs.Names.{site_number};
ghost use Rattle.ctw_stack.specs.Opens.{slot_count};
ghost use Rattle.ctw_sites.specs.Controls.{AreSmall};
ghost use Rattle.ctw_sites.specs.Leaves.{is_select_op, IsLeaf};
ghost use Rattle.ctw_sites.specs.Packed.{after};
ghost use Rattle.ctw_sites.specs.Rows.{push_by};
ghost use Rattle.ctw_sites.specs.Scope.{scope, place};

use crate::around::Around;
use crate::control::{open_block, open_if, pass_else, pass_end};
use crate::leaf::{push_own, row_of};
use crate::packer::Packer;
use crate::row::{Row, apply};
use crate::select::select;
use ctw_flat::Instr;
use ctw_labels::{SiteName, Tag};
use ctw_stack::Stack;
use std::alloc::AllocError;

/// Whether an instruction is a `select`.
pub fn is_select(instr: &Instr) -> bool
    ensures { result ≡ is_select_op (op_of instr.now) }
{
    matches!(*instr, Instr::Select { .. })
}

/// The site that a tag names.
fn site_of(tag: Tag) -> Option<u32>
    ensures { result ≡ site_number tag }
{
    match tag {
        Tag::At { site } => Some(site),
        Tag::Fixed => None,
    }
}

/// Adds the site of the push that a row says.
pub fn push_row(packer: &mut Packer, row: &Row, f: u32, at: u32) -> Result<(), AllocError>
    requires { packer.old.count + length (push_by (Push f at) row.now) < 2 ^ 32 }
    ensures { OnOk result (packer.new ≡ after packer.old (push_by (Push f at) row.now)) }
{
    if !row.lifts {
        return Ok(());
    }
    match row.gives {
        Some((_, tag)) => packer.push(SiteName::Push { f, at }, site_of(tag)),
        None => Ok(()),
    }
}

/// Passes an instruction without instructions inside.
pub fn pass_leaf(
    around: &Around,
    stack: &mut Stack<Tag>,
    packer: &mut Packer,
    instr: &Instr,
    at: u32,
) -> Result<(), AllocError>
    requires exactly { IsExactly instr.now }
    requires open { 0 < length stack.old }
    requires few { slot_count stack.old < 2 ^ 32 - 1 }
    requires leaf { IsLeaf (op_of instr.now) }
    requires goes { GoesBy (place around.now) (scope around.now) packer.old.count (op_of instr.now) stack.old }
    requires room { packer.old.count + length
        (op_sites (place around.now) (scope around.now) packer.old.count at (op_of instr.now) stack.old) < 2 ^ 32 }
    ensures stack { OnOk result (stack.new
        ≡ opens_behind (place around.now) (scope around.now) packer.old.count at (op_of instr.now) stack.old) }
    ensures sites { OnOk result (packer.new ≡ after packer.old
        (op_sites (place around.now) (scope around.now) packer.old.count at (op_of instr.now) stack.old)) }
{
    let n = packer.count;
    push_own(around, packer, instr, at)?;
    if is_select(instr) {
        return select(stack, packer, around.f, at, n);
    }
    let site = packer.count;
    let row = row_of(around, stack, instr, n);
    push_row(packer, &row, around.f, at)?;
    apply(stack, &row, site)
}

/// Passes one opcode.
pub fn step(
    around: &Around,
    stack: &mut Stack<Tag>,
    packer: &mut Packer,
    instr: &Instr,
    at: u32,
) -> Result<(), AllocError>
    requires exactly { IsExactly instr.now }
    requires few { slot_count stack.old < 2 ^ 32 - 1 }
    requires small { AreSmall stack.old }
    requires goes { GoesBy (place around.now) (scope around.now) packer.old.count (op_of instr.now) stack.old }
    requires room { packer.old.count + length
        (op_sites (place around.now) (scope around.now) packer.old.count at (op_of instr.now) stack.old) < 2 ^ 32 }
    ensures stack { OnOk result (stack.new
        ≡ opens_behind (place around.now) (scope around.now) packer.old.count at (op_of instr.now) stack.old) }
    ensures sites { OnOk result (packer.new ≡ after packer.old
        (op_sites (place around.now) (scope around.now) packer.old.count at (op_of instr.now) stack.old)) }
{
    let f = around.f;
    match *instr {
        Instr::Block { result } => open_block(stack, packer, f, at, false, result),
        Instr::Loop { result } => open_block(stack, packer, f, at, true, result),
        Instr::If { result } => open_if(stack, packer, f, at, result),
        Instr::Else => pass_else(stack),
        Instr::End => pass_end(stack),
        _ => pass_leaf(around, stack, packer, instr, at),
    }
}
