//! One counted reduction of any instruction.
ghost use Rattle.std.specs.Prelude.{◌≡◌, ℕ, IfErr, IfOk};
ghost use Rattle.ctw_flat.specs.Positions.{TellsEnds};
ghost use Rattle.ctw_flat.specs.Blocks.{ends_in};
ghost use Rattle.ctw_flat.specs.Instructions.{IsExactly};
ghost use Rattle.ctw_store.specs.Made.{KeepsMade};
ghost use Rattle.ctw_step.specs.Shown.{shown};
ghost use Rattle.ctw_step.specs.Told.{HasBytes, Settles};
ghost use Rattle.ctw_step.specs.Reducing.{CanReduce, IsCounted, Reduces};

use crate::control::{
    branch_always, branch_if, branch_table, end_arm, end_label, enter_block, enter_if, enter_loop,
    return_now,
};
use crate::indirect::call_indirect;
use crate::operands::{constant, discard, local_get, local_set, local_tee, nop, select, trap};
use crate::placed::{call_in, get_in, grow_in, load_in, numeric_in, set_in, size_in, store_in};
use crate::running::{Running, Stepped};
use ctw_flat::{BlockMap, Body, Instr};
use ctw_link::LinkedSet;
use ctw_store::Store;
use std::alloc::AllocError;

/// One reduction of an instruction that isn't a change of a label, in a function that a part defines, whose body and
/// block ends these are. The weight isn't looked at. The error is want of memory, and leaves the call and the store as
/// they were.
pub fn reduce(
    set: &LinkedSet,
    store: &mut Store,
    act: &mut Running,
    part: u32,
    body: &Body,
    blocks: &BlockMap,
    instr: &Instr,
    next: usize,
) -> Result<Stepped, AllocError>
    requires counted { IsCounted instr.now }
    requires exactly { IsExactly instr.now }
    requires ends { TellsEnds body.now (ends_in blocks.now) }
    requires small { (mem : ℕ) → HasBytes store.old.storage mem }
    requires runs { CanReduce set.now part body.now (shown act.old) instr.now next store.old.storage }
    ensures does { Reduces set.now part body.now (shown act.old) instr.now next store.old.storage result
        (shown act.new) store.new.storage }
    ensures settles { IfOk result (Settles store.old.storage (shown act.old) store.new.storage (shown act.new)) }
    ensures kept { IfErr result (λ _. (shown act.new ≡ shown act.old) × (store.new.storage ≡ store.old.storage)) }
    ensures made { KeepsMade store.old.made store.new.made }
{
    match *instr {
        Instr::Nop => Ok(nop(act, next)),
        Instr::Unreachable => Ok(trap(act, next)),
        Instr::Block { result } => enter_block(body, blocks, act, result, next),
        Instr::Loop { result } => enter_loop(body, blocks, act, result, next),
        Instr::If { result } => enter_if(body, blocks, act, result, next),
        Instr::Else => Ok(end_arm(act, next)),
        Instr::End => Ok(end_label(act, next)),
        Instr::Br { depth } => Ok(branch_always(act, depth, next)),
        Instr::BrIf { depth } => Ok(branch_if(act, depth, next)),
        Instr::BrTable {
            targets,
            count,
            otherwise,
        } => Ok(branch_table(act, targets, count, otherwise, next)),
        Instr::Return => Ok(return_now(act, next)),
        Instr::Call { index } => call_in(set, act, part, index, next),
        Instr::CallIndirect { index } => call_indirect(set, store, act, part, index, next),
        Instr::Drop => Ok(discard(act, next)),
        Instr::Select { .. } => Ok(select(act, next)),
        Instr::LocalGet { index } => local_get(act, index, next),
        Instr::LocalSet { index } => Ok(local_set(act, index, next)),
        Instr::LocalTee { index } => Ok(local_tee(act, index, next)),
        Instr::GlobalGet { index } => get_in(set, store, act, part, index, next),
        Instr::GlobalSet { index } => Ok(set_in(set, store, act, part, index, next)),
        Instr::Load {
            width,
            bytes,
            signed,
            offset,
            ..
        } => Ok(load_in(set, store, act, part, width, bytes, signed, offset, next)),
        Instr::Store {
            width,
            bytes,
            offset,
            ..
        } => store_in(set, store, act, part, width, bytes, offset, next),
        Instr::MemorySize => size_in(set, store, act, part, next),
        Instr::MemoryGrow => grow_in(set, store, act, part, next),
        Instr::Const { bits, .. } => constant(act, bits, next),
        Instr::Numeric { op, .. } => Ok(numeric_in(set, act, part, op, next)),
        Instr::Classify { .. } | Instr::Declassify { .. } => unreachable!(),
    }
}
