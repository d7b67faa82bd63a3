//! Steps of running calls.
ghost use Rattle.std.specs.Prelude.{◌≡◌, ◌≤◌, ℕ, List, Option, None, IfErr, IfOk, IfSome};
ghost use Rattle.ctw_ops.specs.declared.types.Label.{Label};
ghost use Rattle.ctw_ops.specs.Types.{ValueType};
ghost use Rattle.ctw_flat.specs.Positions.{TellsEnds};
ghost use Rattle.ctw_flat.specs.Blocks.{ends_in};
ghost use Rattle.ctw_flat.specs.Instructions.{IsExactly};
ghost use Rattle.ctw_semantics.specs.Activations.{Activation};
ghost use Rattle.ctw_semantics.specs.Sound.{Shape};
ghost use Rattle.ctw_semantics.specs.Steps.{step as step_of};
ghost use Rattle.ctw_store.specs.Made.{KeepsMade};
ghost use Rattle.ctw_step.specs.Shown.{shown};
ghost use Rattle.ctw_link.specs.Linked.{code_in};
ghost use Rattle.ctw_step.specs.SetInstances.{instances};
ghost use Rattle.ctw_step.specs.Told.{HasBytes, KeepsAtEnd, Tells, with_operands, words};
ghost use Rattle.ctw_ops.specs.Limits.{most_weight};
ghost use Rattle.ctw_step.specs.Reducing.{CanReduce, IsCounted};
ghost use Rattle.ctw_step.specs.Stepping.{CanStep, Counts, Standing};

use crate::free::next_counted;
use crate::reduce::reduce;
use crate::running::{Running, Stepped};
use crate::sets::{blocks_of, body_of};
use crate::short_control::take_control;
use crate::weight::weigh;
use crate::words::current;
use ctw_flat::{BlockMap, Body, Instr};
use ctw_link::LinkedSet;
use ctw_store::Store;
use std::alloc::AllocError;

/// One counted reduction at a place, which is weighed. An error leaves all as it was.
pub fn counted(
    set: &LinkedSet,
    store: &mut Store,
    act: &mut Running,
    part: u32,
    body: &Body,
    blocks: &BlockMap,
    at: usize,
    instr: &Instr,
    next: usize,
) -> Result<Stepped, AllocError>
    requires counted { IsCounted instr.now }
    requires exactly { IsExactly instr.now }
    requires ends { TellsEnds body.now (ends_in blocks.now) }
    requires small { (mem : ℕ) → HasBytes store.old.storage mem }
    requires runs { CanReduce set.now part body.now (with_operands (shown act.old) act.old.operands.items at)
        instr.now next store.old.storage }
    ensures does { Counts set.now part body.now (with_operands (shown act.old) act.old.operands.items at)
        instr.now next store.old.storage result (shown act.new) store.new.storage }
    ensures ends { words (shown act.old) ≤ most_weight → IfOk result (KeepsAtEnd store.old.storage store.new.storage) }
    ensures kept { IfErr result (λ _. (shown act.new ≡ shown act.old) × (store.new.storage ≡ store.old.storage)) }
    ensures made { KeepsMade store.old.made store.new.made }
{
    let start = act.at;
    act.at = at;
    match reduce(set, store, act, part, body, blocks, instr, next) {
        Ok(told) => Ok(weigh(act, told)),
        Err(error) => {
            act.at = start;
            Err(error)
        }
    }
}

/// One step of any kind: the changes of a label that stand next, and one counted reduction. An error is want of memory, and leaves
/// the call and the store as they were.
fn step_any(set: &LinkedSet, store: &mut Store, act: &mut Running) -> Result<Stepped, AllocError>
    requires { CanStep set.now store.old.storage (shown act.old) }
    ensures does { (shape : Shape) (last : Option (ValueType Label)) (a : Activation)
        → Standing set.now store.old.storage (shown act.old) shape last a
        → IfOk result (λ r.
        Tells (code_in set.now) store.new.storage (shown act.new) r
        (step_of (instances set.now) store.old.storage a).answer
        (step_of (instances set.now) store.old.storage a).event) }
    ensures ends { IfOk result (KeepsAtEnd store.old.storage store.new.storage) }
    ensures kept { IfErr result (λ _. (shown act.new ≡ shown act.old) × (store.new.storage ≡ store.old.storage)) }
    ensures made { KeepsMade store.old.made store.new.made }
{
    let func = current(act);
    let (part, _) = set.owner(func);
    let body = body_of(set, func);
    let blocks = blocks_of(set, func);
    let (at, instr, next) = next_counted(&body, act.at);
    counted(set, store, act, part, &body, blocks, at, &instr, next)
}

/// One step, if a common short control instruction stands next and memory isn't wanting.
fn step_control(set: &LinkedSet, store: &Store, act: &mut Running) -> Option<Stepped>
    requires { CanStep set.now store.now.storage (shown act.old) }
    ensures does { (shape : Shape) (last : Option (ValueType Label)) (a : Activation)
        → Standing set.now store.now.storage (shown act.old) shape last a
        → IfSome result (λ r.
        Tells (code_in set.now) store.now.storage (shown act.new) r
        (step_of (instances set.now) store.now.storage a).answer
        (step_of (instances set.now) store.now.storage a).event) }
    ensures kept { result ≡ None → shown act.new ≡ shown act.old }
{
    let func = current(act);
    let body = body_of(set, func);
    let blocks = blocks_of(set, func);
    match take_control(act, &body, blocks) {
        Some(told) => Some(weigh(act, told)),
        None => None,
    }
}

/// One step: the changes of a label that stand next, and one counted reduction. An error is want of memory, and leaves
/// the call and the store as they were.
pub fn step_running(
    set: &LinkedSet,
    store: &mut Store,
    act: &mut Running,
) -> Result<Stepped, AllocError>
    requires { CanStep set.now store.old.storage (shown act.old) }
    ensures does { (shape : Shape) (last : Option (ValueType Label)) (a : Activation)
        → Standing set.now store.old.storage (shown act.old) shape last a
        → IfOk result (λ r.
        Tells (code_in set.now) store.new.storage (shown act.new) r
        (step_of (instances set.now) store.old.storage a).answer
        (step_of (instances set.now) store.old.storage a).event) }
    ensures ends { IfOk result (KeepsAtEnd store.old.storage store.new.storage) }
    ensures kept { IfErr result (λ _. (shown act.new ≡ shown act.old) × (store.new.storage ≡ store.old.storage)) }
    ensures made { KeepsMade store.old.made store.new.made }
{
    match step_control(set, store, act) {
        Some(told) => Ok(told),
        None => step_any(set, store, act),
    }
}
