ghost use Rattle.std.specs.Prelude.{◌≡◌, ◌++◌, ◌+◌, ◌<◌, ◌≤◌, ◌-◌, ◌^◌, ◌∷◌, [], false, length, OnOk};
ghost use Rattle.ctw_flat.specs.Instructions.{op_of, IsExactly};
ghost use Rattle.ctw_ops.specs.Numeric.{leaks as is_leak};
ghost use Rattle.ctw_ops.specs.declared.types.Width.TheVariants.{W32};
ghost use Rattle.ctw_ops.specs.Types.{value_type};
ghost use Rattle.ctw_labels.specs.declared.tag.Tag.TheVariants.{At, Fixed};
ghost use Rattle.ctw_labels.specs.declared.name.SiteName.TheVariants.{Op, Push};
ghost use Rattle.ctw_labels.specs.Collected.{handed_on, end_facts_on, wants_on, HasSmallResult};
ghost use Rattle.ctw_labels.specs.FlatSites.{GoesBy, among, opens_behind, op_sites, op_facts};
ghost use Rattle.ctw_labels.specs.Links.{timed_facts};
ghost use Rattle.ctw_labels.specs.Names.{site};
ghost use Rattle.ctw_labels.specs.Numbering.{block_sites, result_from};
ghost use Rattle.ctw_stack.specs.Opens.{slot_count, opened, target_of};
ghost use Rattle.ctw_sites.specs.Controls.{AreSmall, parted};
ghost use Rattle.ctw_sites.specs.Leaves.{is_select_op, IsLeaf, chosen_width, chosen_push, selected};
ghost use Rattle.ctw_sites.specs.Packed.{after};
ghost use Rattle.ctw_sites.specs.Rows.{rest_of};
ghost use Rattle.ctw_sites.specs.Scope.{scope, place};
ghost use Rattle.ctw_sites.specs.Stacks.{on_innermost, of_innermost};
ghost use Rattle.ctw_links.specs.Asks.{ask as ask_of, asked_on, left, listed, own_facts_of_op, target_told, targets_told, table_told};
ghost use Rattle.ctw_links.specs.Uses.{op_users};

use crate::asking::asks_of;
use crate::asks::{Ask, Asks};
use crate::tell::{ask, tell};
use crate::user::User;
use ctw_flat::{Instr, Targets};
use ctw_labels::{SiteName, Tag, Told};
use ctw_ops::{NumOp, ValType, leaks, signature};
use ctw_sites::around::Around;
use ctw_sites::control::{open_block, pass_else, pass_end};
use ctw_sites::leaf::{push_own, row_of};
use ctw_sites::packer::Packer;
use ctw_sites::pass::push_row;
use ctw_sites::row::{Row, apply};
use ctw_sites::select::{either, put_chosen};
use ctw_stack::Stack;
use std::alloc::AllocError;

/// Tells that the result of a target of a table has the label of the default's, `tag`.
fn tell_target(
    stack: &Stack<Tag>,
    depth: u32,
    tag: Tag,
    told: &mut Vec<Told>,
) -> Result<(), AllocError>
    ensures { OnOk result (told.new.items ≡ told.old.items ++ target_told tag (target_of depth stack.now)) }
{
    match stack.target(depth) {
        Some(Some((_, left))) => {
            told.push(Told {
                rule: 9,
                left,
                right: tag,
            })?;
            Ok(())
        }
        Some(None) => Ok(()),
        None => Ok(()),
    }
}

/// The same of each target.
fn tell_targets(
    stack: &Stack<Tag>,
    mut targets: Targets,
    tag: Tag,
    told: &mut Vec<Told>,
) -> Result<(), AllocError>
    ensures { OnOk result (told.new.items ≡ told.old.items ++ targets_told tag targets.entry stack.now) }
{
    'targets: while let Some(depth) = targets.next() {
        tell_target(stack, depth, tag, told)?;
    }
    Ok(())
}

/// The same of a table whose targets are spelled one after another.
fn tell_table(
    stack: &Stack<Tag>,
    targets: Targets,
    otherwise: u32,
    told: &mut Vec<Told>,
) -> Result<(), AllocError>
    ensures { OnOk result (told.new.items ≡ told.old.items ++ table_told otherwise targets.entry stack.now) }
{
    match stack.target(otherwise) {
        Some(Some((_, tag))) => tell_targets(stack, targets, tag, told),
        Some(None) => Ok(()),
        None => Ok(()),
    }
}

/// Tells that an operation whose own site is `n` is public, where it leaks.
fn tell_leak(around: &Around, op: NumOp, n: u32, told: &mut Vec<Told>) -> Result<(), AllocError>
    ensures { OnOk result (told.new.items
        ≡ told.old.items ++ timed_facts 16 (is_leak op (scope around.now).profile) (At n) Fixed) }
{
    if !leaks(op, around.profile()) {
        return Ok(());
    }
    told.push(Told {
        rule: 16,
        left: Tag::At { site: n },
        right: Tag::Fixed,
    })?;
    Ok(())
}

/// Tells of an instruction whose sites begin at `n` what isn't asked of its operands.
fn tell_own(
    around: &Around,
    stack: &Stack<Tag>,
    instr: &Instr,
    n: u32,
    told: &mut Vec<Told>,
) -> Result<(), AllocError>
    requires { IsExactly instr.now }
    ensures { OnOk result (told.new.items ≡ told.old.items
        ++ own_facts_of_op (among (scope around.now) stack.now) n (op_of instr.now)) }
{
    match *instr {
        Instr::BrTable {
            targets,
            count,
            otherwise,
        } => tell_table(stack, Targets::new(targets, count), otherwise, told),
        Instr::Numeric { op, .. } => {
            // Each operation has a signature.
            let _ = signature(op);
            tell_leak(around, op, n, told)
        }
        _ => Ok(()),
    }
}

/// Notes an indirect call, whose sites begin at `n`.
pub fn note_user(instr: &Instr, n: u32, users: &mut Vec<User>) -> Result<(), AllocError>
    ensures { OnOk result (users.new.items ≡ users.old.items ++ op_users n (op_of instr.now)) }
{
    match *instr {
        Instr::CallIndirect { index } => {
            users.push(User {
                entry: index,
                first: n,
            })?;
            Ok(())
        }
        _ => Ok(()),
    }
}

/// Passes a `select`, which has the next site.
fn pass_select(
    stack: &mut Stack<Tag>,
    packer: &mut Packer,
    told: &mut Vec<Told>,
    f: u32,
    at: u32,
) -> Result<(), AllocError>
    requires open { 0 < length stack.old }
    requires few { slot_count stack.old < 2 ^ 32 - 1 }
    requires room { packer.old.count + 1
        + length (chosen_push packer.old.count (Push f at) (of_innermost chosen_width stack.old)) < 2 ^ 32 }
    ensures told { OnOk result (told.new.items ≡ told.old.items ++ asked_on (ask_of 3 (At packer.old.count)
        ∷ ask_of 3 (At packer.old.count) ∷ ask_of 3 (At packer.old.count) ∷ []) stack.old) }
    ensures stack { OnOk result (stack.new ≡ on_innermost (selected packer.old.count) stack.old) }
    ensures sites { OnOk result (packer.new ≡ after (after packer.old (site (Op f at) ∷ []))
        (chosen_push packer.old.count (Push f at) (of_innermost chosen_width stack.old))) }
{
    let n = packer.count;
    let own = Ask {
        rule: 3,
        tag: Tag::At { site: n },
    };
    packer.push(SiteName::Op { f, at }, None)?;
    let _ = ask(stack, own, told)?;
    let a = ask(stack, own, told)?;
    let b = ask(stack, own, told)?;
    put_chosen(stack, packer, f, at, n, either(a, b))
}

/// A row without the operands of which something is asked.
fn without(row: Row, asks: &Asks) -> Row
    ensures { result ≡ left (length (listed asks.now)) row }
{
    Row {
        takes: asks.left_of(row.takes),
        ends: row.ends,
        gives: row.gives,
        lifts: row.lifts,
    }
}

/// Passes an instruction without instructions inside that is no `select`.
fn pass_leaf(
    around: &Around,
    stack: &mut Stack<Tag>,
    packer: &mut Packer,
    told: &mut Vec<Told>,
    instr: &Instr,
    at: u32,
) -> Result<(), AllocError>
    requires exactly { IsExactly instr.now }
    requires open { 0 < length stack.old }
    requires few { slot_count stack.old < 2 ^ 32 - 1 }
    requires leaf { IsLeaf (op_of instr.now) }
    requires other { is_select_op (op_of instr.now) ≡ false }
    requires goes { GoesBy (place around.now) (scope around.now) packer.old.count (op_of instr.now) stack.old }
    requires room { packer.old.count + length
        (op_sites (place around.now) (scope around.now) packer.old.count at (op_of instr.now) stack.old) < 2 ^ 32 }
    ensures told { OnOk result (told.new.items ≡ told.old.items
        ++ op_facts (place around.now) (scope around.now) packer.old.count (op_of instr.now) stack.old) }
    ensures stack { OnOk result (stack.new
        ≡ opens_behind (place around.now) (scope around.now) packer.old.count at (op_of instr.now) stack.old) }
    ensures sites { OnOk result (packer.new ≡ after packer.old
        (op_sites (place around.now) (scope around.now) packer.old.count at (op_of instr.now) stack.old)) }
{
    let n = packer.count;
    tell_own(around, stack, instr, n, told)?;
    let asks = asks_of(around, stack, instr, n);
    let row = without(row_of(around, stack, instr, n), &asks);
    tell(stack, &asks, told)?;
    push_own(around, packer, instr, at)?;
    let site = packer.count;
    push_row(packer, &row, around.f, at)?;
    apply(stack, &row, site)
}

/// Tells what is asked of the last operand at the end of the innermost block, where that has a result.
fn tell_end(stack: &mut Stack<Tag>, told: &mut Vec<Told>) -> Result<(), AllocError>
    requires { 0 < length stack.old }
    ensures told { OnOk result (told.new.items ≡ told.old.items ++ end_facts_on stack.old) }
    ensures parted { OnOk result (parted stack.new ≡ parted stack.old) }
    ensures handed { OnOk result (handed_on stack.new ≡ handed_on stack.old) }
    ensures few { OnOk result (slot_count stack.new ≤ slot_count stack.old) }
    ensures small { OnOk result (HasSmallResult stack.old → HasSmallResult stack.new) }
{
    let Some((_, yields)) = stack.innermost() else {
        return Ok(());
    };
    let Some((_, tag)) = yields else {
        return Ok(());
    };
    ask(stack, Ask { rule: 10, tag }, told)?;
    Ok(())
}

/// Closes a then arm at its `else`, and opens the other arm.
fn pass_arm(stack: &mut Stack<Tag>, told: &mut Vec<Told>) -> Result<(), AllocError>
    requires { 0 < length stack.old }
    ensures told { OnOk result (told.new.items ≡ told.old.items ++ end_facts_on stack.old) }
    ensures stack { OnOk result (stack.new ≡ parted stack.old) }
{
    tell_end(stack, told)?;
    pass_else(stack)
}

/// Closes the innermost block at its `end`.
fn pass_close(stack: &mut Stack<Tag>, told: &mut Vec<Told>) -> Result<(), AllocError>
    requires open { 0 < length stack.old }
    requires few { slot_count stack.old < 2 ^ 32 - 1 }
    requires small { HasSmallResult stack.old }
    ensures told { OnOk result (told.new.items ≡ told.old.items ++ end_facts_on stack.old) }
    ensures stack { OnOk result (stack.new ≡ handed_on stack.old) }
{
    tell_end(stack, told)?;
    pass_end(stack)
}

/// Takes the condition of an `if`, and opens its then arm.
fn pass_if(
    stack: &mut Stack<Tag>,
    packer: &mut Packer,
    told: &mut Vec<Told>,
    f: u32,
    at: u32,
    yields: Option<ValType>,
) -> Result<(), AllocError>
    requires open { 0 < length stack.old }
    requires room { packer.old.count + length (block_sites f at packer.old.count yields) < 2 ^ 32 }
    ensures told { OnOk result (told.new.items ≡ told.old.items ++ wants_on 13 (value_type W32 Fixed) stack.old) }
    ensures stack { OnOk result (stack.new
        ≡ opened false (result_from packer.old.count yields) ∷ on_innermost rest_of stack.old) }
    ensures sites { OnOk result (packer.new ≡ after packer.old (block_sites f at packer.old.count yields)) }
{
    let condition = Ask {
        rule: 13,
        tag: Tag::Fixed,
    };
    ask(stack, condition, told)?;
    open_block(stack, packer, f, at, false, yields)
}

/// Passes one opcode, and tells its facts.
pub fn step(
    around: &Around,
    stack: &mut Stack<Tag>,
    packer: &mut Packer,
    told: &mut Vec<Told>,
    instr: &Instr,
    at: u32,
) -> Result<(), AllocError>
    requires exactly { IsExactly instr.now }
    requires few { slot_count stack.old < 2 ^ 32 - 1 }
    requires small { AreSmall stack.old }
    requires goes { GoesBy (place around.now) (scope around.now) packer.old.count (op_of instr.now) stack.old }
    requires room { packer.old.count + length
        (op_sites (place around.now) (scope around.now) packer.old.count at (op_of instr.now) stack.old) < 2 ^ 32 }
    ensures told { OnOk result (told.new.items ≡ told.old.items
        ++ op_facts (place around.now) (scope around.now) packer.old.count (op_of instr.now) stack.old) }
    ensures stack { OnOk result (stack.new
        ≡ opens_behind (place around.now) (scope around.now) packer.old.count at (op_of instr.now) stack.old) }
    ensures sites { OnOk result (packer.new ≡ after packer.old
        (op_sites (place around.now) (scope around.now) packer.old.count at (op_of instr.now) stack.old)) }
{
    let f = around.f;
    match *instr {
        Instr::Block { result } => open_block(stack, packer, f, at, false, result),
        Instr::Loop { result } => open_block(stack, packer, f, at, true, result),
        Instr::If { result } => pass_if(stack, packer, told, f, at, result),
        Instr::Else => pass_arm(stack, told),
        Instr::End => pass_close(stack, told),
        Instr::Select { .. } => pass_select(stack, packer, told, f, at),
        _ => pass_leaf(around, stack, packer, told, instr, at),
    }
}
