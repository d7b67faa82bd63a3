//! Blocks, loops and ifs, and the ends of labels.
ghost use Rattle.std.specs.Prelude.{◌≡◌, ◌≤◌, ◌<◌, ◌==◌, ◌++◌, ◌∷◌, [], slice_get, ℕ, if◌then◌else◌, IfErr, Ok, Some, length, Option};
ghost use Rattle.ctw_flat.specs.Positions.{TellsEnds};
ghost use Rattle.ctw_leb.specs.Grammar.{Times};
ghost use Rattle.ctw_leb.specs.Numbers.{IsU32};
ghost use Rattle.ctw_flat.specs.Instructions.{targets_in};
ghost use Rattle.ctw_semantics.specs.Machine.{table_place};
ghost use Rattle.ctw_flat.specs.Blocks.{ends_in};
ghost use Rattle.ctw_flat.specs.declared.instr.Instr.TheVariants as instr;
ghost use Rattle.ctw_step.specs.Shown.{shown};
ghost use Rattle.ctw_step.specs.Told.{Does, Runs, RunsAlone, DoesAlone, Nothing, EndsBehind, IsBehind, OtherArm};
ghost use Rattle.ctw_semantics.specs.Stores.{Storage};

use crate::leaving::{branch_out, leave_function, leave_innermost};
use crate::running::{Running, Stepped};
use crate::words::{go_to, open, open_under, shrink, top, top_small};
use ctw_flat::{BlockMap, Body, Targets};
use ctw_ops::ValType;
use ctw_script::Event;
use std::alloc::AllocError;

/// The place behind the instruction at a place.
fn behind(body: &Body, at: usize) -> usize
    requires { (next : ℕ) × IsBehind body.now at next }
    ensures { (next : ℕ) → IsBehind body.now at next → result ≡ next }
{
    match body.instr_at(at) {
        Ok((_, next)) => next,
        Err(_) => unreachable!(),
    }
}

/// The place behind the end of the block at a place: an `end` has one byte.
fn behind_end(body: &Body, blocks: &BlockMap, at: usize) -> usize
    requires { (after : ℕ) × EndsBehind body.now blocks.now at after }
    ensures { EndsBehind body.now blocks.now at result }
{
    let Some((end, _)) = blocks.ends(at) else {
        unreachable!();
    };
    // It has fewer than 2^32 bytes.
    let _code = body.code();
    end + 1
}

/// `block`
pub fn enter_block(
    body: &Body,
    blocks: &BlockMap,
    act: &mut Running,
    yields: Option<ValType>,
    next: usize,
) -> Result<Stepped, AllocError>
    requires ends { TellsEnds body.now (ends_in blocks.now) }
    requires runs { (s : Storage) × Runs Nothing body.now (shown act.old) (instr.Block yields) next s }
    ensures does { (s : Storage)
        → Does Nothing body.now (shown act.old) (instr.Block yields) next s result (shown act.new) s }
    ensures kept { IfErr result (λ _. shown act.new ≡ shown act.old) }
{
    let after = behind_end(body, blocks, act.at);
    open(act, yields, after, false, next)?;
    Ok(Stepped::Went { event: None })
}

/// `loop`
pub fn enter_loop(
    body: &Body,
    blocks: &BlockMap,
    act: &mut Running,
    yields: Option<ValType>,
    next: usize,
) -> Result<Stepped, AllocError>
    requires ends { TellsEnds body.now (ends_in blocks.now) }
    requires runs { (s : Storage) × Runs Nothing body.now (shown act.old) (instr.Loop yields) next s }
    ensures does { (s : Storage)
        → Does Nothing body.now (shown act.old) (instr.Loop yields) next s result (shown act.new) s }
    ensures kept { IfErr result (λ _. shown act.new ≡ shown act.old) }
{
    let after = behind_end(body, blocks, act.at);
    open(act, yields, after, true, next)?;
    Ok(Stepped::Went { event: None })
}

/// Where the block at a place ends, and where its `else` stands.
fn ends_of(blocks: &BlockMap, at: usize) -> (usize, Option<usize>)
    requires { (end : ℕ) × (parting : Option ℕ) × (ends_in blocks.now at ≡ Some (end, parting)) }
    ensures { (end : ℕ) (parting : Option ℕ) → ends_in blocks.now at ≡ Some (end, parting)
        → (result.0 ≡ end) × (result.1 ≡ parting) }
{
    let Some(ends) = blocks.ends(at) else {
        unreachable!();
    };
    ends
}

/// Where the other arm of an `if` begins.
fn other_at(body: &Body, end: usize, parting: Option<usize>) -> usize
    requires { (at : ℕ) × OtherArm body.now end parting at }
    ensures { (at : ℕ) → OtherArm body.now end parting at → result ≡ at }
{
    match parting {
        Some(place) => behind(body, place),
        None => end,
    }
}

/// Where the arm begins that an operand chooses.
fn arm_at(body: &Body, end: usize, parting: Option<usize>, number: u64, next: usize) -> usize
    requires { (at : ℕ) × OtherArm body.now end parting at }
    ensures { (at : ℕ) → OtherArm body.now end parting at → result ≡ (if number == 0 then at else next) }
{
    if number == 0 {
        return other_at(body, end, parting);
    }
    next
}

/// `if`
pub fn enter_if(
    body: &Body,
    blocks: &BlockMap,
    act: &mut Running,
    yields: Option<ValType>,
    next: usize,
) -> Result<Stepped, AllocError>
    requires ends { TellsEnds body.now (ends_in blocks.now) }
    requires runs { (s : Storage) × Runs Nothing body.now (shown act.old) (instr.If yields) next s }
    ensures does { (s : Storage)
        → Does Nothing body.now (shown act.old) (instr.If yields) next s result (shown act.new) s }
    ensures kept { IfErr result (λ _. shown act.new ≡ shown act.old) }
{
    let (end, parting) = ends_of(blocks, act.at);
    let after = behind(body, end);
    let number = top(act);
    let start = arm_at(body, end, parting, number, next);
    open_under(act, yields, after, start)?;
    Ok(Stepped::Went {
        event: Some(Event::Branch { taken: number != 0 }),
    })
}

/// `end`, and `else` at the end of an arm.
pub fn end_label(act: &mut Running, next: usize) -> Stepped
    requires { RunsAlone (shown act.old) instr.End next }
    ensures { DoesAlone (shown act.old) instr.End next (Ok result) (shown act.new) }
{
    leave_innermost(act, None)
}

/// `else` at the end of an arm.
pub fn end_arm(act: &mut Running, next: usize) -> Stepped
    requires { RunsAlone (shown act.old) instr.Else next }
    ensures { DoesAlone (shown act.old) instr.Else next (Ok result) (shown act.new) }
{
    leave_innermost(act, None)
}

/// `br`
pub fn branch_always(act: &mut Running, depth: u32, next: usize) -> Stepped
    requires { RunsAlone (shown act.old) (instr.Br depth) next }
    ensures { DoesAlone (shown act.old) (instr.Br depth) next (Ok result) (shown act.new) }
{
    go_to(act, next);
    branch_out(act, depth, None)
}

/// `br_if`
pub fn branch_if(act: &mut Running, depth: u32, next: usize) -> Stepped
    requires { RunsAlone (shown act.old) (instr.BrIf depth) next }
    ensures { DoesAlone (shown act.old) (instr.BrIf depth) next (Ok result) (shown act.new) }
{
    let number = top(act);
    shrink(act, 1, next);
    if number == 0 {
        return Stepped::Went {
            event: Some(Event::Branch { taken: false }),
        };
    }
    branch_out(act, depth, Some(Event::Branch { taken: true }))
}

/// `return`
pub fn return_now(act: &mut Running, next: usize) -> Stepped
    requires { RunsAlone (shown act.old) instr.Return next }
    ensures { DoesAlone (shown act.old) instr.Return next (Ok result) (shown act.new) }
{
    leave_function(act)
}

/// The target that an operand names in a branch table.
fn target_of(targets: &[u8], count: u32, otherwise: u32, index: u32) -> u32
    requires { Times IsU32 count targets.now (targets_in count targets.now) }
    ensures { (k : ℕ)
        → slice_get (targets_in count targets.now ++ otherwise ∷ []) (table_place index (targets_in count targets.now))
        ≡ Some k → result ≡ k }
{
    match Targets::new(targets, count).target(index) {
        Some(depth) => depth,
        None => otherwise,
    }
}

/// `br_table`
pub fn branch_table(
    act: &mut Running,
    targets: &[u8],
    count: u32,
    otherwise: u32,
    next: usize,
) -> Stepped
    requires exactly { Times IsU32 count targets.now (targets_in count targets.now) }
    requires runs { RunsAlone (shown act.old) (instr.BrTable targets count otherwise) next }
    ensures { DoesAlone (shown act.old) (instr.BrTable targets.entry count otherwise) next (Ok result) (shown act.new) }
{
    let index = top_small(act);
    shrink(act, 1, next);
    let depth = target_of(targets, count, otherwise, index);
    branch_out(act, depth, Some(Event::Table { index }))
}
