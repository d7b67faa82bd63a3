//! Numeric operations.
ghost use Rattle.std.specs.Prelude.{◌≡◌, ◌<◌, ◌++◌, ◌∷◌, [], ℕ, List, Option, Some, Ok, Result, IfSome};
ghost use Rattle.ctw_ops.specs.declared.types.Label.{Label};
ghost use Rattle.ctw_ops.specs.declared.numeric.NumSig.{NumSig};
ghost use Rattle.ctw_ops.specs.Types.{FitsWidth};
ghost use Rattle.ctw_ops.specs.Numeric.{num_sig_of, leaks as leaks_under};
ghost use Rattle.ctw_num.specs.declared.trap.NumTrap.{NumTrap as Trap};
ghost use Rattle.ctw_num.specs.Values.{value1, value2};
ghost use Rattle.ctw_flat.specs.declared.instr.Instr.TheVariants as instr;
ghost use Rattle.ctw_semantics.specs.Machine.{trap_of};
ghost use Rattle.ctw_semantics.specs.Stores.{Storage};
ghost use Rattle.ctw_step.specs.Shown.{shown};
ghost use Rattle.ctw_step.specs.Told.{Computed, Does, HasProfile, Runs, shown_division, with_operands};

use crate::running::{Running, Stepped};
use crate::words::{second, set_top, shrink, top};
use ctw_num::{NumTrap, apply1, apply2};
use ctw_ops::{NumOp, Profile, leaks, signature};
use ctw_script::{Event, TrapCode};

/// Why a call traps whose operation has no value.
fn code_of(trap: NumTrap) -> TrapCode
    ensures { result ≡ trap_of trap }
{
    match trap {
        NumTrap::DivZero => TrapCode::DivZero,
        NumTrap::DivOverflow => TrapCode::DivOverflow,
    }
}

/// What is seen of an operation.
fn division(op: NumOp, profile: Profile, a: u64, b: u64) -> Option<Event>
    ensures { result ≡ shown_division (leaks_under op profile) a b }
{
    if leaks(op, profile) {
        return Some(Event::Divide { a, b });
    }
    None
}

/// An operation on one operand.
fn unary(act: &mut Running, op: NumOp, next: usize)
    requires { (sig : NumSig) × (front : List ℕ) × (x : ℕ) × (num_sig_of op ≡ Some sig) × (sig.arity ≡ 1)
        × (act.old.operands.items ≡ front ++ x ∷ []) × FitsWidth sig.operand x }
    ensures { (front : List ℕ) (x n : ℕ) → act.old.operands.items ≡ front ++ x ∷ [] → value1 op x ≡ Some n
        → shown act.new ≡ with_operands (shown act.old) (front ++ n ∷ []) next }
{
    let a = top(act);
    set_top(act, apply1(op, a), next);
}

/// An operation on two operands.
fn binary(act: &mut Running, op: NumOp, profile: Profile, next: usize) -> Stepped
    requires { (sig : NumSig) × (front : List ℕ) × (x : ℕ) × (y : ℕ) × (num_sig_of op ≡ Some sig) × (sig.arity ≡ 2)
        × (act.old.operands.items ≡ front ++ x ∷ y ∷ []) × FitsWidth sig.operand x × FitsWidth sig.operand y }
    ensures { (front : List ℕ) (x y : ℕ) (r : Result ℕ Trap) → act.old.operands.items ≡ front ++ x ∷ y ∷ []
        → value2 op x y ≡ Some r
        → Computed (shown act.old) front (shown_division (leaks_under op profile) x y) next r result (shown act.new) }
{
    let b = top(act);
    let a = second(act);
    let event = division(op, profile, a, b);
    match apply2(op, a, b) {
        Ok(number) => {
            shrink(act, 1, next);
            set_top(act, number, next);
            Stepped::Went { event }
        }
        Err(trap) => Stepped::Trapped {
            code: code_of(trap),
            event,
        },
    }
}

/// A numeric operation, under a profile.
pub fn numeric(act: &mut Running, op: NumOp, profile: Profile, next: usize) -> Stepped
    requires { (l : Label) × (bytes : List ℕ) × (s : Storage)
        × Runs (HasProfile profile) bytes (shown act.old) (instr.Numeric op l) next s }
    ensures { (l : Label) (bytes : List ℕ) (s : Storage)
        → Does (HasProfile profile) bytes (shown act.old) (instr.Numeric op l) next s (Ok result) (shown act.new) s }
{
    let sig = signature(op);
    if sig.arity == 1 {
        unary(act, op, next);
        return Stepped::Went { event: None };
    }
    binary(act, op, profile, next)
}
