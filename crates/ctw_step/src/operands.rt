//! The instructions that work on operands and locals alone.
ghost use Rattle.std.specs.Prelude.{◌≡◌, ◌<◌, IfErr, Ok};
ghost use Rattle.ctw_ops.specs.declared.types.Label.{Label};
ghost use Rattle.ctw_ops.specs.declared.types.Width.{Width};
ghost use Rattle.ctw_flat.specs.declared.instr.Instr.TheVariants as instr;
ghost use Rattle.ctw_step.specs.Shown.{shown};
ghost use Rattle.ctw_step.specs.Told.{RunsAlone, DoesAlone};

use crate::running::{Running, Stepped};
use crate::words::{get_local, go_to, pick, push, shrink, write_local};
use ctw_script::TrapCode;
use std::alloc::AllocError;

/// `nop`
#[inline(always)]
pub fn nop(act: &mut Running, next: usize) -> Stepped
    requires { RunsAlone (shown act.old) instr.Nop next }
    ensures { DoesAlone (shown act.old) instr.Nop next (Ok result) (shown act.new) }
{
    go_to(act, next);
    Stepped::Went { event: None }
}

/// `unreachable`
#[inline(always)]
pub fn trap(act: &Running, next: usize) -> Stepped
    requires { RunsAlone (shown act.now) instr.Unreachable next }
    ensures { DoesAlone (shown act.now) instr.Unreachable next (Ok result) (shown act.now) }
{
    Stepped::Trapped {
        code: TrapCode::Unreachable,
        event: None,
    }
}

/// `const`
#[inline(always)]
pub fn constant(act: &mut Running, bits: u64, next: usize) -> Result<Stepped, AllocError>
    ensures does { (w : Width) (l : Label)
        → DoesAlone (shown act.old) (instr.Const w l bits) next result (shown act.new) }
    ensures kept { IfErr result (λ _. shown act.new ≡ shown act.old) }
{
    push(act, bits, next)?;
    Ok(Stepped::Went { event: None })
}

/// `drop`
#[inline(always)]
pub fn discard(act: &mut Running, next: usize) -> Stepped
    requires { RunsAlone (shown act.old) instr.Drop next }
    ensures { DoesAlone (shown act.old) instr.Drop next (Ok result) (shown act.new) }
{
    shrink(act, 1, next);
    Stepped::Went { event: None }
}

/// `select`
#[inline(always)]
pub fn select(act: &mut Running, next: usize) -> Stepped
    requires { (l : Label) × RunsAlone (shown act.old) (instr.Select l) next }
    ensures { (l : Label) → DoesAlone (shown act.old) (instr.Select l) next (Ok result) (shown act.new) }
{
    pick(act, next);
    Stepped::Went { event: None }
}

/// `local.get`
#[inline(always)]
pub fn local_get(act: &mut Running, index: u32, next: usize) -> Result<Stepped, AllocError>
    requires { RunsAlone (shown act.old) (instr.LocalGet index) next }
    ensures does { DoesAlone (shown act.old) (instr.LocalGet index) next result (shown act.new) }
    ensures kept { IfErr result (λ _. shown act.new ≡ shown act.old) }
{
    get_local(act, index, next)?;
    Ok(Stepped::Went { event: None })
}

/// `local.set`
#[inline(always)]
pub fn local_set(act: &mut Running, index: u32, next: usize) -> Stepped
    requires { RunsAlone (shown act.old) (instr.LocalSet index) next }
    ensures { DoesAlone (shown act.old) (instr.LocalSet index) next (Ok result) (shown act.new) }
{
    write_local(act, index);
    shrink(act, 1, next);
    Stepped::Went { event: None }
}

/// `local.tee`
#[inline(always)]
pub fn local_tee(act: &mut Running, index: u32, next: usize) -> Stepped
    requires { RunsAlone (shown act.old) (instr.LocalTee index) next }
    ensures { DoesAlone (shown act.old) (instr.LocalTee index) next (Ok result) (shown act.new) }
{
    write_local(act, index);
    go_to(act, next);
    Stepped::Went { event: None }
}
