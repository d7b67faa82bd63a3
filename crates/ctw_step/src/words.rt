ghost use Rattle.std.specs.Prelude.{false, ◌≡◌, ◌≤◌, ◌<◌, ◌^◌, ◌-◌, ◌+◌, ◌++◌, ◌∷◌, [], ℕ, List, length, ◌==◌, if◌then◌else◌, MatchResult, slice_set, slice_get, Some, is_some};
ghost use Rattle.ctw_step.specs.declared.running.Caller.{Caller};
ghost use Rattle.ctw_step.specs.Shown.{shown};
ghost use Rattle.ctw_step.specs.Told.{with_operands, with_locals, with_label, opened};

use crate::running::{Opened, Running};
use ctw_ops::ValType;
use std::alloc::AllocError;

/// Puts a word upon the operands. An error leaves all as it was.
#[inline(always)]
pub fn push(act: &mut Running, number: u64, next: usize) -> Result<(), AllocError>
    ensures { MatchResult result (λ _.
        shown act.new ≡ with_operands (shown act.old) (act.old.operands.items ++ number ∷ []) next)
        (λ _. shown act.new ≡ shown act.old) }
{
    act.operands.push(number)?;
    act.at = next;
    Ok(())
}

/// The last operand.
#[inline(always)]
pub fn top(act: &Running) -> u64
    requires { 0 < length act.now.operands.items }
    ensures { (front : List ℕ) (x : ℕ) → act.now.operands.items ≡ front ++ x ∷ [] → result ≡ x }
{
    act.operands[act.operands.len() - 1]
}

/// The last operand, which has 32 bits.
#[inline(always)]
pub fn top_small(act: &Running) -> u32
    requires { (front : List ℕ) × (x : ℕ) × (act.now.operands.items ≡ front ++ x ∷ []) × (x < 2 ^ 32) }
    ensures { (front : List ℕ) (x : ℕ) → act.now.operands.items ≡ front ++ x ∷ [] → result ≡ x }
{
    top(act) as u32
}

/// The operand below the last.
#[inline(always)]
pub fn second(act: &Running) -> u64
    requires { 1 < length act.now.operands.items }
    ensures { (front : List ℕ) (x y : ℕ) → act.now.operands.items ≡ front ++ x ∷ y ∷ [] → result ≡ x }
{
    act.operands[act.operands.len() - 2]
}

/// The operand below the last, which has 32 bits.
#[inline(always)]
pub fn second_small(act: &Running) -> u32
    requires { (front : List ℕ) × (x : ℕ) × (y : ℕ) × (act.now.operands.items ≡ front ++ x ∷ y ∷ []) × (x < 2 ^ 32) }
    ensures { (front : List ℕ) (x y : ℕ) → act.now.operands.items ≡ front ++ x ∷ y ∷ [] → result ≡ x }
{
    second(act) as u32
}

/// Another word in the place of the last operand.
#[inline(always)]
pub fn set_top(act: &mut Running, number: u64, next: usize)
    requires { 0 < length act.old.operands.items }
    ensures set { (front : List ℕ) (x : ℕ) → act.old.operands.items ≡ front ++ x ∷ []
        → shown act.new ≡ with_operands (shown act.old) (front ++ number ∷ []) next }
    ensures alone { shown act.new ≡ with_operands (shown act.old) act.new.operands.items next }
    ensures as_many { length act.new.operands.items ≡ length act.old.operands.items }
{
    let last = act.operands.len() - 1;
    act.operands[last] = number;
    act.at = next;
}

/// Without the last operands, so many of them.
#[inline(always)]
pub fn shrink(act: &mut Running, count: usize, next: usize)
    requires { count ≤ length act.old.operands.items }
    ensures fewer { length act.new.operands.items ≡ length act.old.operands.items - count }
    ensures alone { shown act.new ≡ with_operands (shown act.old) act.new.operands.items next }
    ensures cut { (front more : List ℕ) → act.old.operands.items ≡ front ++ more → length more ≡ count
        → shown act.new ≡ with_operands (shown act.old) front next }
{
    let length = act.operands.len() - count;
    act.operands.truncate(length);
    act.at = next;
}

/// The place of a local of the innermost frame.
#[inline(always)]
fn local_place(act: &Running, index: u32) -> usize
    requires some { 0 < length act.now.frames.items }
    requires there { (front : List Caller) (f : Caller) → act.now.frames.items ≡ front ++ f ∷ []
        → f.locals + index < length act.now.locals.items }
    ensures place { (front : List Caller) (f : Caller) → act.now.frames.items ≡ front ++ f ∷ []
        → result ≡ f.locals + index }
    ensures within { result < length act.now.locals.items }
{
    let frame = act.frames[act.frames.len() - 1];
    frame.locals + index as usize
}

/// A local of the innermost frame.
#[inline(always)]
pub fn local(act: &Running, index: u32) -> u64
    requires some { 0 < length act.now.frames.items }
    requires there { (front : List Caller) (f : Caller) → act.now.frames.items ≡ front ++ f ∷ []
        → f.locals + index < length act.now.locals.items }
    ensures { (front : List Caller) (f : Caller) (n : ℕ) → act.now.frames.items ≡ front ++ f ∷ []
        → slice_get act.now.locals.items (f.locals + index) ≡ Some n → result ≡ n }
{
    act.locals[local_place(act, index)]
}

/// Puts a local upon the operands. An error leaves all as it was.
#[inline(always)]
pub fn get_local(act: &mut Running, index: u32, next: usize) -> Result<(), AllocError>
    requires some { 0 < length act.old.frames.items }
    requires there { (front : List Caller) (f : Caller) → act.old.frames.items ≡ front ++ f ∷ []
        → f.locals + index < length act.old.locals.items }
    ensures { MatchResult result
        (λ _. (front : List Caller) (f : Caller) (n : ℕ) → act.old.frames.items ≡ front ++ f ∷ []
        → slice_get act.old.locals.items (f.locals + index) ≡ Some n
        → shown act.new ≡ with_operands (shown act.old) (act.old.operands.items ++ n ∷ []) next)
        (λ _. shown act.new ≡ shown act.old) }
{
    let number = act.locals[local_place(act, index)];
    push(act, number, next)
}

/// Opens a label here. An error leaves all as it was.
#[inline(always)]
pub fn open(
    act: &mut Running,
    yields: Option<ValType>,
    after: usize,
    is_loop: bool,
    next: usize,
) -> Result<(), AllocError>
    ensures { MatchResult result
        (λ _. shown act.new ≡ with_label (shown act.old) (opened (shown act.old) (is_some yields) after is_loop) next)
        (λ _. shown act.new ≡ shown act.old) }
{
    act.labels.push(Opened {
        height: act.operands.len(),
        after,
        start: act.at,
        has_result: yields.is_some(),
        is_loop,
    })?;
    act.at = next;
    Ok(())
}

/// Goes on at another place.
#[inline(always)]
pub fn go_to(act: &mut Running, next: usize)
    ensures { shown act.new ≡ with_operands (shown act.old) act.old.operands.items next }
{
    act.at = next;
}

/// The operand below the condition, or the one below that where the condition isn't 0.
#[inline(always)]
fn chosen(act: &Running) -> u64
    requires { 2 < length act.now.operands.items }
    ensures { (front : List ℕ) (a b n : ℕ) → act.now.operands.items ≡ front ++ a ∷ b ∷ n ∷ []
        → result ≡ (if n == 0 then b else a) }
{
    let last = act.operands.len() - 1;
    if act.operands[last] == 0 {
        return act.operands[last - 1];
    }
    act.operands[last - 2]
}

/// One of two operands in place of both and of the condition above them.
#[inline(always)]
pub fn pick(act: &mut Running, next: usize)
    requires { 2 < length act.old.operands.items }
    ensures picked { (front : List ℕ) (a b n : ℕ) → act.old.operands.items ≡ front ++ a ∷ b ∷ n ∷ []
        → shown act.new ≡ with_operands (shown act.old) (front ++ (if n == 0 then b else a) ∷ []) next }
    ensures alone { shown act.new ≡ with_operands (shown act.old) act.new.operands.items next }
    ensures fewer { length act.new.operands.items ≡ length act.old.operands.items - 2 }
{
    let number = chosen(act);
    shrink(act, 2, next);
    set_top(act, number, next);
}

/// Writes the last operand into a local of the innermost frame.
#[inline(always)]
pub fn write_local(act: &mut Running, index: u32)
    requires operand { 0 < length act.old.operands.items }
    requires some { 0 < length act.old.frames.items }
    requires there { (front : List Caller) (f : Caller) → act.old.frames.items ≡ front ++ f ∷ []
        → f.locals + index < length act.old.locals.items }
    ensures kept { act.new.operands.items ≡ act.old.operands.items }
    ensures alone { shown act.new ≡ with_locals (shown act.old) act.new.locals.items }
    ensures as_many { length act.new.locals.items ≡ length act.old.locals.items }
    ensures written { (front : List Caller) (f : Caller) (below : List ℕ) (x : ℕ)
        → act.old.frames.items ≡ front ++ f ∷ [] → act.old.operands.items ≡ below ++ x ∷ []
        → shown act.new ≡ with_locals (shown act.old) (slice_set act.old.locals.items (f.locals + index) x) }
{
    let place = local_place(act, index);
    act.locals[place] = top(act);
}

/// Opens a label here in place of the last operand, and goes on at its start. An error leaves all as it was.
#[inline(always)]
pub fn open_under(
    act: &mut Running,
    yields: Option<ValType>,
    after: usize,
    next: usize,
) -> Result<(), AllocError>
    requires { 0 < length act.old.operands.items }
    ensures { MatchResult result
        (λ _. (front : List ℕ) (x : ℕ) → act.old.operands.items ≡ front ++ x ∷ []
        → shown act.new
        ≡ with_label (with_operands (shown act.old) front act.old.at)
        (opened (with_operands (shown act.old) front act.old.at) (is_some yields) after false) next)
        (λ _. shown act.new ≡ shown act.old) }
{
    let height = act.operands.len() - 1;
    act.labels.push(Opened {
        height,
        after,
        start: act.at,
        has_result: yields.is_some(),
        is_loop: false,
    })?;
    act.operands.truncate(height);
    act.at = next;
    Ok(())
}

/// The number of the innermost frame's function.
#[inline(always)]
pub fn current(act: &Running) -> u32
    requires { 0 < length act.now.frames.items }
    ensures { (front : List Caller) (f : Caller) → act.now.frames.items ≡ front ++ f ∷ [] → result ≡ f.func }
{
    act.frames[act.frames.len() - 1].func
}
