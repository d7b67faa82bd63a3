//! Steps of short instructions, which stay in their function and show nothing: many at once.
ghost use Rattle.std.specs.Prelude.{◌≡◌, ◌≤◌, ◌<◌, ◌+◌, ◌^◌, ◌∷◌, ◌++◌, true, false, ℕ, List, Some, IfSome, drop, length};
ghost use Rattle.ctw_ops.specs.declared.types.Label.TheVariants.{Public};
ghost use Rattle.ctw_ops.specs.declared.types.Width.TheVariants.{W32};
ghost use Rattle.ctw_ops.specs.declared.numeric.NumSig.{NumSig};
ghost use Rattle.ctw_ops.specs.declared.numeric.Profile.{Profile as Profiles};
ghost use Rattle.ctw_ops.specs.Numeric.{num_sig_of, leaks as leaks_under};
ghost use Rattle.ctw_ops.specs.Limits.{most_weight};
ghost use Rattle.ctw_script.specs.declared.event.Event.{Event as Events};
ghost use Rattle.ctw_leb.specs.Numbers.{IsS32};
ghost use Rattle.ctw_flat.specs.declared.instr.Instr.TheVariants as instr;
ghost use Rattle.ctw_step.specs.Shown.{shown};
ghost use Rattle.ctw_step.specs.Told.{RunsAlone, words};
ghost use Rattle.ctw_step.specs.Stepping.{CanStep};
ghost use Rattle.ctw_step.specs.Turning.{CameFromAll};
ghost use Rattle.ctw_step.specs.Short.{CanPass, Passed, Passes};

use crate::running::Running;
use crate::sets::body_of;
use crate::words::{current, go_to, local, pick, push, second, set_top, shrink, top, write_local};
use ctw_leb::Cursor;
use ctw_link::LinkedSet;
use ctw_num::{apply1, apply2};
use ctw_ops::{NumOp, Profile, leaks, num_op, signature};
use ctw_store::Store;

/// `local.get`, where memory isn't wanting.
#[inline(always)]
fn pass_get(act: &mut Running, index: u32, next: usize) -> bool
    requires { RunsAlone (shown act.old) (instr.LocalGet index) next }
    ensures passes { result ≡ true → Passes (shown act.old) (instr.LocalGet index) next (shown act.new) }
    ensures kept { result ≡ false → shown act.new ≡ shown act.old }
{
    let number = local(act, index);
    match push(act, number, next) {
        Ok(()) => true,
        Err(_) => false,
    }
}

/// `local.set`
#[inline(always)]
fn pass_set(act: &mut Running, index: u32, next: usize)
    requires { RunsAlone (shown act.old) (instr.LocalSet index) next }
    ensures { Passes (shown act.old) (instr.LocalSet index) next (shown act.new) }
{
    write_local(act, index);
    shrink(act, 1, next);
}

/// `local.tee`
#[inline(always)]
fn pass_tee(act: &mut Running, index: u32, next: usize)
    requires { RunsAlone (shown act.old) (instr.LocalTee index) next }
    ensures { Passes (shown act.old) (instr.LocalTee index) next (shown act.new) }
{
    write_local(act, index);
    go_to(act, next);
}

/// `drop`
#[inline(always)]
fn pass_drop(act: &mut Running, next: usize)
    requires { RunsAlone (shown act.old) instr.Drop next }
    ensures { Passes (shown act.old) instr.Drop next (shown act.new) }
{
    shrink(act, 1, next);
}

/// `select`
#[inline(always)]
fn pass_select(act: &mut Running, next: usize)
    requires { RunsAlone (shown act.old) (instr.Select Public) next }
    ensures { Passes (shown act.old) (instr.Select Public) next (shown act.new) }
{
    pick(act, next);
}

/// `i32.const`, where memory isn't wanting.
#[inline(always)]
fn pass_constant(act: &mut Running, bits: u64, next: usize) -> bool
    requires { RunsAlone (shown act.old) (instr.Const W32 Public bits) next }
    ensures passes { result ≡ true → Passes (shown act.old) (instr.Const W32 Public bits) next (shown act.new) }
    ensures kept { result ≡ false → shown act.new ≡ shown act.old }
{
    match push(act, bits, next) {
        Ok(()) => true,
        Err(_) => false,
    }
}

/// An operation on two operands that leaks under no profile.
#[inline(always)]
fn pass_binary(act: &mut Running, op: NumOp, next: usize) -> bool
    requires sig { (sig : NumSig) × (num_sig_of op ≡ Some sig) × (sig.arity ≡ 2) }
    requires silent { (profile : Profiles) → leaks_under op profile ≡ false }
    requires runs { RunsAlone (shown act.old) (instr.Numeric op Public) next }
    ensures passes { result ≡ true → Passes (shown act.old) (instr.Numeric op Public) next (shown act.new) }
    ensures kept { result ≡ false → shown act.new ≡ shown act.old }
{
    let b = top(act);
    let a = second(act);
    match apply2(op, a, b) {
        Ok(number) => {
            shrink(act, 1, next);
            set_top(act, number, next);
            true
        }
        Err(_) => false,
    }
}

/// An operation on one operand.
#[inline(always)]
fn pass_unary(act: &mut Running, op: NumOp, next: usize)
    requires sig { (sig : NumSig) × (num_sig_of op ≡ Some sig) × (sig.arity ≡ 1) }
    requires runs { RunsAlone (shown act.old) (instr.Numeric op Public) next }
    ensures { Passes (shown act.old) (instr.Numeric op Public) next (shown act.new) }
{
    let a = top(act);
    set_top(act, apply1(op, a), next);
}

/// An operation, if it leaks under no profile.
#[inline(always)]
fn pass_numeric(act: &mut Running, op: NumOp, next: usize) -> bool
    requires runs { RunsAlone (shown act.old) (instr.Numeric op Public) next }
    ensures passes { result ≡ true → Passes (shown act.old) (instr.Numeric op Public) next (shown act.new) }
    ensures kept { result ≡ false → shown act.new ≡ shown act.old }
{
    match signature(op).arity {
        1 => {
            pass_unary(act, op, next);
            true
        }
        2 if !leaks(op, Profile::Multiply) => pass_binary(act, op, next),
        _ => false,
    }
}

/// An index of one byte in front of bytes.
#[inline(always)]
pub fn short_index(tail: &[u8]) -> Option<u32>
    ensures { IfSome result (λ n. (n < 128) × (rest : List ℕ) × (tail.now ≡ n ∷ rest)) }
{
    match tail {
        [byte, ..] if *byte < 128 => Some(u32::from(*byte)),
        _ => None,
    }
}

/// The bits of a signed number of 32 bits in front of bytes, and how many bytes it has.
#[inline(always)]
fn number_in_front(tail: &[u8]) -> Option<(u64, usize)>
    requires { length tail.now < 2 ^ 32 }
    ensures { IfSome result (λ x. (text rest : List ℕ) × IsS32 text x.0 × (tail.now ≡ text ++ rest) × (x.1 ≡ length text)) }
{
    let mut cursor = Cursor::new(tail, 0);
    match cursor.read_s32() {
        Ok(n) => Some((u64::from(n.cast_unsigned()), cursor.place() as usize)),
        Err(_) => None,
    }
}

/// The instruction of an opcode, if it is a short one; the bytes behind the opcode are these.
#[inline(always)]
fn pass_form(act: &mut Running, byte: u8, tail: &[u8]) -> bool
    requires small { act.old.at < 2 ^ 32 }
    requires few { length tail.now < 2 ^ 32 }
    requires runs { (bytes : List ℕ) × (drop act.old.at bytes ≡ byte ∷ tail.now) × CanPass bytes (shown act.old) }
    ensures passed { (bytes : List ℕ) → drop act.old.at bytes ≡ byte ∷ tail.now → result ≡ true
        → Passed bytes (shown act.old) (shown act.new) }
    ensures kept { result ≡ false → shown act.new ≡ shown act.old }
{
    let at = act.at;
    match byte {
        0x1A => {
            pass_drop(act, at + 1);
            true
        }
        0x1B => {
            pass_select(act, at + 1);
            true
        }
        0x20 => match short_index(tail) {
            Some(index) => pass_get(act, index, at + 2),
            None => false,
        },
        0x21 => match short_index(tail) {
            Some(index) => {
                pass_set(act, index, at + 2);
                true
            }
            None => false,
        },
        0x22 => match short_index(tail) {
            Some(index) => {
                pass_tee(act, index, at + 2);
                true
            }
            None => false,
        },
        0x41 => match number_in_front(tail) {
            Some((bits, size)) => pass_constant(act, bits, at + 1 + size),
            None => false,
        },
        _ => match num_op(byte) {
            Some(op) => pass_numeric(act, op, at + 1),
            None => false,
        },
    }
}

/// The instruction at the place, if it is a short one.
#[inline(always)]
fn pass_one(act: &mut Running, code: &[u8]) -> bool
    requires inside { act.old.at < length code.now }
    requires short { length code.now < 2 ^ 32 }
    requires runs { CanPass code.now (shown act.old) }
    ensures passed { result ≡ true → Passed code.now (shown act.old) (shown act.new) }
    ensures kept { result ≡ false → shown act.new ≡ shown act.old }
{
    match &code[act.at..] {
        [byte, tail @ ..] => pass_form(act, *byte, tail),
        [] => false,
    }
}

/// How many words more a call may have.
#[tactic(auto, unfolding(ctw_ops::specs::Limits::most_weight))]
fn words_left(act: &Running) -> usize
    requires { words (shown act.now) ≤ most_weight }
    ensures { words (shown act.now) + result ≡ most_weight }
{
    1_000_000 - act.operands.len() - act.locals.len() - act.labels.len()
}

/// The lesser of two numbers.
fn at_most(n: u32, most: usize) -> u32
    ensures own { result ≤ n }
    ensures other { result ≤ most }
{
    if most < n as usize { most as u32 } else { n }
}

/// Takes steps of short instructions that stand next, at most so many, and tells how many.
pub fn pass_short(set: &LinkedSet, store: &Store, act: &mut Running, n: u32) -> u32
    requires { CanStep set.now store.now.storage (shown act.old) }
    ensures few { result ≤ n }
    ensures came { (before : List Events)
        → CameFromAll set.now result store.now.storage (shown act.old) before store.now.storage (shown act.new) before }
    ensures on { CanStep set.now store.now.storage (shown act.new) }
{
    let func = current(act);
    let body = body_of(set, func);
    let code = body.code();
    let most = at_most(n, words_left(act));
    let mut steps = 0;
    'steps: while steps < most {
        if !pass_one(act, code) {
            return steps;
        }
        steps += 1;
    }
    steps
}
