ghost use Rattle.ctw_flat.specs.Instructions.{op_of, IsExactly};
ghost use Rattle.ctw_valid.specs.Rows.{LooksUpOp};
ghost use Rattle.ctw_valid.specs.Scope.{scope};
ghost use Rattle.ctw_valid.specs.Tables.{labels_in};

use crate::around::Around;
use crate::control::{branch, branch_if, call, call_indirect};
use crate::fault::BodyFault;
use crate::row::{Row, ending, simple};
use crate::tables::branch_table;
use crate::values::{
    classify, constant, declassify, global_get, global_set, load, local_get, local_set, local_tee,
    memory_grow, memory_size, numeric, store,
};
use ctw_flat::Instr;
use ctw_ops::{Label, ValType};
use ctw_stack::Stack;

/// The row of an instruction without instructions inside, or the fault that it has whatever the operands are. Nothing
/// is said of `block`, `loop`, `if`, `else` and `end`.
pub fn row_of<'a>(
    around: &Around<'a>,
    stack: &Stack<Label>,
    instr: &Instr,
    at: u32,
) -> Result<Row<'a>, BodyFault>
    requires { IsExactly instr.now }
    ensures { LooksUpOp (scope around.now (labels_in stack.now)) (op_of instr.now) at result }
{
    match *instr {
        Instr::Unreachable => Ok(ending(None, None, true)),
        Instr::Nop => Ok(simple(None, None)),
        Instr::Br { depth } => branch(around, stack, depth, at),
        Instr::BrIf { depth } => branch_if(around, stack, depth, at),
        Instr::BrTable {
            targets,
            count,
            otherwise,
        } => branch_table(around, stack, targets, count, otherwise, at),
        Instr::Return => Ok(ending(around.result, None, true)),
        Instr::Call { index } => call(around, stack, index, at),
        Instr::CallIndirect { index } => call_indirect(around, stack, index, at),
        Instr::Drop => Ok(Row::Drops),
        Instr::Select { label } => Ok(Row::Selects(label)),
        Instr::LocalGet { index } => local_get(around, stack, index, at),
        Instr::LocalSet { index } => local_set(around, stack, index, at),
        Instr::LocalTee { index } => local_tee(around, stack, index, at),
        Instr::GlobalGet { index } => global_get(around, stack, index, at),
        Instr::GlobalSet { index } => global_set(around, stack, index, at),
        Instr::Load {
            width,
            label,
            bytes,
            align,
            ..
        } => load(around, stack, ValType { width, label }, bytes, align, at),
        Instr::Store {
            width,
            label,
            bytes,
            align,
            ..
        } => store(around, stack, ValType { width, label }, bytes, align, at),
        Instr::MemorySize => memory_size(around, stack, at),
        Instr::MemoryGrow => memory_grow(around, stack, at),
        Instr::Const { width, label, .. } => Ok(constant(width, label)),
        Instr::Numeric { op, label } => numeric(around, stack, op, label, at),
        Instr::Classify { width } => Ok(classify(width)),
        Instr::Declassify { width } => declassify(around, stack, width, at),
        Instr::Block { .. } | Instr::Loop { .. } | Instr::If { .. } | Instr::Else | Instr::End =>
            Err(BodyFault::WrongType { at }),
    }
}
