ghost use Rattle.std.specs.Prelude.{◌∷◌, Bool, List, drop, reverse, ◌≡◌, ◌<◌, ◌-◌, ◌^◌, length, false, IfOk, IfErr, OnOk, [], Some};
ghost use Rattle.ctw_flat.specs.Instructions.{op_of, IsExactly};
ghost use Rattle.ctw_ops.specs.Code.{Op, Opens, Closes, OfIf, ByEnd, ByElse};
ghost use Rattle.ctw_ops.specs.declared.types.Label.{Label};
ghost use Rattle.ctw_stack.specs.Opens.{slot_count};
ghost use Rattle.ctw_stack.specs.Pass.{level};
ghost use Rattle.ctw_valid.specs.declared.fault.BodyFault.TheVariants.{NoMemory};
ghost use Rattle.ctw_valid.specs.OnStack.{Follows, IsKept};
ghost use Rattle.ctw_valid.specs.Scope.{scope, scope_of_body};
ghost use Rattle.ctw_valid.specs.Tables.{labels_in};
ghost use Rattle.ctw_valid.specs.Levels.{levels_in, opener, IsEven, IsNext, Passes, PassesLeaf};
ghost use Rattle.ctw_valid.specs.Rows.{LooksUpOp, OnLeaf};
ghost use Rattle.ctw_valid.specs.declared.around.Around.{Around};
ghost use Rattle.ctw_ops.specs.Typing.{Context};

use crate::around::Around;
use crate::blocks::{end, part};
use crate::control::branch_if;
use crate::fault::BodyFault;
use crate::levels::Levels;
use crate::lookup::row_of;
use crate::operands::{apply, take_index};
use crate::row::Row;
use crate::values::{constant, load, local_get, local_set, local_tee, numeric, store};
use ctw_flat::Instr;
use ctw_ops::{Label, SecretRule, ValType};
use ctw_stack::Stack;
use std::alloc::Global;

/// Does to the operands what a row says that was looked up.
#[inline(always)]
fn follow(stack: &mut Stack<Label>, row: &Result<Row, BodyFault>, at: u32) -> Result<(), BodyFault>
    requires few { slot_count stack.old < 2 ^ 32 - 1 }
    ensures step { (C : Context Label) (op : Op Label) → LooksUpOp C op at row.now
        → OnLeaf C op at result stack.old stack.new }
    ensures kept { IsKept stack.old stack.new 1 }
{
    match row {
        Ok(row) => apply(stack, row, at),
        Err(fault) => Err(*fault),
    }
}

/// Does to the operands what an instruction without instructions inside does.
/// The most common ones take the shortest way.
#[inline(always)]
fn leaf(around: &Around, stack: &mut Stack<Label>, instr: &Instr, at: u32) -> Result<(), BodyFault>
    requires exactly { IsExactly instr.now }
    requires few { slot_count stack.old < 2 ^ 32 - 1 }
    ensures step { OnLeaf (scope around.now (labels_in stack.old)) (op_of instr.now) at result stack.old stack.new }
    ensures kept { IsKept stack.old stack.new 1 }
{
    match *instr {
        Instr::LocalGet { index } => {
            let row = local_get(around, stack, index, at);
            follow(stack, &row, at)
        }
        Instr::LocalSet { index } => {
            let row = local_set(around, stack, index, at);
            follow(stack, &row, at)
        }
        Instr::LocalTee { index } => {
            let row = local_tee(around, stack, index, at);
            follow(stack, &row, at)
        }
        Instr::Numeric { op, label } => {
            let row = numeric(around, stack, op, label, at);
            follow(stack, &row, at)
        }
        Instr::Const { width, label, .. } => {
            let row = Ok(constant(width, label));
            follow(stack, &row, at)
        }
        Instr::Load {
            width,
            label,
            bytes,
            align,
            ..
        } => {
            let row = load(around, stack, ValType { width, label }, bytes, align, at);
            follow(stack, &row, at)
        }
        Instr::Store {
            width,
            label,
            bytes,
            align,
            ..
        } => {
            let row = store(around, stack, ValType { width, label }, bytes, align, at);
            follow(stack, &row, at)
        }
        Instr::BrIf { depth } => {
            let row = branch_if(around, stack, depth, at);
            follow(stack, &row, at)
        }
        Instr::Drop => follow(stack, &Ok(Row::Drops), at),
        _ => {
            let row = row_of(around, stack, instr, at);
            follow(stack, &row, at)
        }
    }
}

/// Passes an instruction without instructions inside.
#[inline(always)]
fn pass_leaf(around: &Around, levels: &mut Levels, instr: &Instr, at: u32) -> Result<(), BodyFault>
    requires exactly { IsExactly instr.now }
    requires even { IsEven levels.old }
    requires few { slot_count levels.old.stack < 2 ^ 32 - 1 }
    ensures step { PassesLeaf (scope_of_body around.now) (op_of instr.now) at result (levels_in levels.old)
        (levels_in levels.new) }
    ensures next { OnOk result (IsNext levels.old levels.new) }
{
    leaf(around, &mut levels.stack, instr, at)
}

/// Opens a block.
fn open_block(
    levels: &mut Levels,
    arm: bool,
    loops: bool,
    yields: Option<ValType>,
) -> Result<(), BodyFault>
    requires even { IsEven levels.old }
    ensures step { Follows result (Some (level arm loops yields ∷ levels_in levels.old))
        (levels_in levels.new) NoMemory }
    ensures even { OnOk result (IsEven levels.new) }
    ensures slots { OnOk result (slot_count levels.new.stack ≡ slot_count levels.old.stack) }
{
    let yields = match yields {
        Some(t) => Some((t.width, t.label)),
        None => None,
    };
    levels.arms.push(arm)?;
    levels.stack.enter(loops, yields)?;
    Ok(())
}

/// Opens a `block` or a `loop`.
fn open(levels: &mut Levels, loops: bool, yields: Option<ValType>, at: u32) -> Result<(), BodyFault>
    requires even { IsEven levels.old }
    ensures step { (C : Context Label)
        → Passes C (Opens (opener loops) yields) at result (levels_in levels.old) (levels_in levels.new) }
    ensures next { OnOk result (IsNext levels.old levels.new) }
{
    if levels.stack.innermost().is_none() {
        return Err(BodyFault::WrongType { at });
    }
    open_block(levels, false, loops, yields)?;
    Ok(())
}

/// Takes a condition, and opens the then arm of an `if`.
fn open_if(levels: &mut Levels, yields: Option<ValType>, at: u32) -> Result<(), BodyFault>
    requires even { IsEven levels.old }
    ensures step { (a : Around)
        → Passes (scope_of_body a) (Opens OfIf yields) at result (levels_in levels.old) (levels_in levels.new) }
    ensures next { OnOk result (IsNext levels.old levels.new) }
{
    if levels.stack.innermost().is_none() {
        return Err(BodyFault::WrongType { at });
    }
    take_index(&mut levels.stack, SecretRule::Condition, at)?;
    open_block(levels, true, false, yields)?;
    Ok(())
}

/// Whether the innermost block is a then arm.
fn is_arm(arms: &[bool]) -> bool
    ensures { (arm : Bool) (outer : List Bool) → reverse arms.now ≡ arm ∷ outer → result ≡ arm }
{
    match arms {
        [.., arm] => *arm,
        [] => false,
    }
}

/// Forgets the innermost block.
fn drop_arm(arms: &mut Vec<bool>)
    ensures left { reverse arms.new.items ≡ drop 1 (reverse arms.old.items) }
    ensures count { length arms.new.items ≡ length arms.old.items - 1 }
{
    let _ = arms.pop();
}

/// Passes an `end`.
fn pass_end(levels: &mut Levels, at: u32) -> Result<(), BodyFault>
    requires even { IsEven levels.old }
    requires few { slot_count levels.old.stack < 2 ^ 32 - 1 }
    ensures step { (C : Context Label)
        → Passes C (Closes ByEnd) at result (levels_in levels.old) (levels_in levels.new) }
    ensures next { OnOk result (IsNext levels.old levels.new) }
{
    let arm = is_arm(levels.arms.as_slice());
    end(&mut levels.stack, arm, at)?;
    drop_arm(&mut levels.arms);
    Ok(())
}

/// Passes an `else`.
fn pass_else(levels: &mut Levels, at: u32) -> Result<(), BodyFault>
    requires even { IsEven levels.old }
    ensures step { (C : Context Label)
        → Passes C (Closes ByElse) at result (levels_in levels.old) (levels_in levels.new) }
    ensures next { OnOk result (IsNext levels.old levels.new) }
{
    let arm = is_arm(levels.arms.as_slice());
    part(&mut levels.stack, arm, at)?;
    drop_arm(&mut levels.arms);
    levels.arms.push(false)?;
    Ok(())
}

/// Passes one opcode.
#[inline(always)]
pub fn step(around: &Around, levels: &mut Levels, instr: &Instr, at: u32) -> Result<(), BodyFault>
    requires exactly { IsExactly instr.now }
    requires even { IsEven levels.old }
    requires few { slot_count levels.old.stack < 2 ^ 32 - 1 }
    ensures step { Passes (scope_of_body around.now) (op_of instr.now) at result (levels_in levels.old)
        (levels_in levels.new) }
    ensures next { OnOk result (IsNext levels.old levels.new) }
{
    match *instr {
        Instr::Block { result } => open(levels, false, result, at),
        Instr::Loop { result } => open(levels, true, result, at),
        Instr::If { result } => open_if(levels, result, at),
        Instr::Else => pass_else(levels, at),
        Instr::End => pass_end(levels, at),
        _ => pass_leaf(around, levels, instr, at),
    }
}

/// The block of a body, before its first opcode.
pub fn begin(levels: &mut Levels, yields: Option<ValType>) -> Result<(), BodyFault>
    ensures begun { OnOk result ((levels_in levels.new ≡ level false false yields ∷ []) × IsEven levels.new
        × (slot_count levels.new.stack ≡ 0)) }
    ensures memory { IfErr result (λ e. e ≡ NoMemory) }
{
    levels.stack.clear();
    levels.arms.clear();
    open_block(levels, false, false, yields)?;
    Ok(())
}
