ghost use Rattle.std.specs.Prelude.{◌≡◌, false, ◌≤◌, ◌<◌, ◌-◌, ◌+◌, ◌++◌, ◌∷◌, [], ℕ, List, length, take, slice_get, Some, None, Option, is_some, option_to_list, if◌then◌else◌};
ghost use Rattle.ctw_step.specs.declared.running.Opened.{Opened};
ghost use Rattle.ctw_step.specs.declared.running.Caller.{Caller};
ghost use Rattle.ctw_step.specs.Shown.{shown};
ghost use Rattle.ctw_step.specs.Leaving.{without_labels, Left, Leaves, LeavesBy, BranchedBy};

use crate::running::{Opened, Running, Stepped};
use ctw_script::Event;

/// Cuts operands down to a height, under the last one if it is wanted.
#[inline(always)]
fn keep(operands: &mut Vec<u64>, height: usize, wanted: bool)
    requires { height + (if wanted then 1 else 0) ≤ length operands.old.items }
    ensures { (carried : Option ℕ) (below : List ℕ) → is_some carried ≡ wanted
        → operands.old.items ≡ below ++ option_to_list carried → height ≤ length below
        → operands.new.items ≡ take height operands.old.items ++ option_to_list carried }
{
    if !wanted {
        operands.truncate(height);
        return;
    }
    let top = operands[operands.len() - 1];
    operands[height] = top;
    operands.truncate(height + 1);
}

/// The last operand, if it is wanted.
#[inline(always)]
pub fn top_if(act: &Running, wanted: bool) -> Option<u64>
    requires { (if wanted then 1 else 0) ≤ length act.now.operands.items }
    ensures { (carried : Option ℕ) (below : List ℕ) → is_some carried ≡ wanted
        → act.now.operands.items ≡ below ++ option_to_list carried → result ≡ carried }
{
    if wanted {
        return Some(act.operands[act.operands.len() - 1]);
    }
    None
}

/// Leaves a label inside a function: the label outside goes on with the result, if there is one.
#[inline(always)]
pub fn leave_label(act: &mut Running, label: Opened, index: usize)
    requires { label.height + (if label.has_result then 1 else 0) ≤ length act.old.operands.items }
    ensures { (carried : Option ℕ) (below : List ℕ) → is_some carried ≡ label.has_result
        → act.old.operands.items ≡ below ++ option_to_list carried → label.height ≤ length below
        → shown act.new
        ≡ without_labels (shown act.old)
        (take label.height act.old.operands.items ++ option_to_list carried) index label.after }
{
    keep(&mut act.operands, label.height, label.has_result);
    act.labels.truncate(index);
    act.at = label.after;
}

/// Runs a loop again.
#[inline(always)]
pub fn rerun(act: &mut Running, label: Opened, index: usize)
    ensures { shown act.new
        ≡ without_labels (shown act.old) (take label.height act.old.operands.items) index label.start }
{
    act.operands.truncate(label.height);
    act.labels.truncate(index);
    act.at = label.start;
}

/// Leaves a label: the label outside goes on with the result, or the caller does, or the call ends.
pub fn leave(act: &mut Running, label: Opened, index: usize, event: Option<Event>) -> Stepped
    requires room { label.height + (if label.has_result then 1 else 0) ≤ length act.old.operands.items }
    requires frames { 0 < length act.old.frames.items }
    ensures { (carried : Option ℕ) (below : List ℕ) → is_some carried ≡ label.has_result
        → act.old.operands.items ≡ below ++ option_to_list carried → label.height ≤ length below
        → Left (shown act.old) label index carried event result (shown act.new) }
{
    let last = act.frames.len() - 1;
    let frame = act.frames[last];
    if frame.labels < index {
        leave_label(act, label, index);
        return Stepped::Went { event };
    }
    if last == 0 {
        let value = top_if(act, label.has_result);
        return Stepped::Ended { value, event };
    }
    leave_label(act, label, frame.labels);
    act.locals.truncate(frame.locals);
    act.frames.truncate(last);
    act.at = frame.back;
    Stepped::Went { event }
}

/// Leaves the innermost label.
pub fn leave_innermost(act: &mut Running, event: Option<Event>) -> Stepped
    requires some { 0 < length act.old.labels.items }
    requires there { (index : ℕ) → index + 1 ≡ length act.old.labels.items → Leaves (shown act.old) index }
    requires frames { 0 < length act.old.frames.items }
    ensures { (index : ℕ) → index + 1 ≡ length act.old.labels.items
        → LeavesBy (shown act.old) index event result (shown act.new) }
{
    let index = act.labels.len() - 1;
    let label = act.labels[index];
    leave(act, label, index, event)
}

/// Leaves the innermost function.
pub fn leave_function(act: &mut Running) -> Stepped
    requires some { 0 < length act.old.frames.items }
    requires there { (front : List Caller) (f : Caller) → act.old.frames.items ≡ front ++ f ∷ []
        → Leaves (shown act.old) f.labels }
    ensures { (front : List Caller) (f : Caller) → act.old.frames.items ≡ front ++ f ∷ []
        → LeavesBy (shown act.old) f.labels None result (shown act.new) }
{
    let index = own_label(act);
    let label = act.labels[index];
    leave(act, label, index, None)
}

/// The place of the innermost function's own label.
#[inline(always)]
fn own_label(act: &Running) -> usize
    requires some { 0 < length act.now.frames.items }
    ensures { (front : List Caller) (f : Caller) → act.now.frames.items ≡ front ++ f ∷ [] → result ≡ f.labels }
{
    act.frames[act.frames.len() - 1].labels
}

/// Branches to the label that stands so many labels outside the innermost.
pub fn branch_out(act: &mut Running, depth: u32, event: Option<Event>) -> Stepped
    requires some { depth < length act.old.labels.items }
    requires there { (index : ℕ) → index + 1 + depth ≡ length act.old.labels.items → (label : Opened)
        → slice_get act.old.labels.items index ≡ Some label → label.is_loop ≡ false → Leaves (shown act.old) index }
    requires frames { 0 < length act.old.frames.items }
    ensures { (index : ℕ) → index + 1 + depth ≡ length act.old.labels.items
        → BranchedBy (shown act.old) index event result (shown act.new) }
{
    let index = act.labels.len() - 1 - depth as usize;
    let label = act.labels[index];
    if label.is_loop {
        rerun(act, label, index);
        return Stepped::Went { event };
    }
    leave(act, label, index, event)
}
