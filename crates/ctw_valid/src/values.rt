ghost use Rattle.std.specs.Prelude.{◌≡◌, ◌^◌, ◌&&◌, ℕ, Bool, nat_le, true, false, Some, None};
ghost use Rattle.ctw_ops.specs.Typing.{Context};
ghost use Rattle.ctw_ops.specs.declared.types.Label.{Label};
ghost use Rattle.ctw_ops.specs.Code.{Const, LocalGet, LocalSet, LocalTee, GlobalGet, GlobalSet, Load, Store, MemorySize, MemoryGrow, Numeric, Declassify};
ghost use Rattle.ctw_ops.specs.Forms.{is_load, is_store};
ghost use Rattle.ctw_ops.specs.Numeric.{leaks};
ghost use Rattle.ctw_ops.specs.Types.{FitsWidth, value_type};
ghost use Rattle.ctw_ops.specs.declared.types.Label.TheVariants.{Public, Secret};
ghost use Rattle.ctw_valid.specs.Faults.{same_label};
ghost use Rattle.ctw_valid.specs.declared.row.Row.TheVariants.{Moves};
ghost use Rattle.ctw_valid.specs.declared.row.Types.TheVariants.{One};
ghost use Rattle.ctw_valid.specs.Rows.{LooksUp, IsRow};
ghost use Rattle.ctw_valid.specs.Scope.{scope};
ghost use Rattle.ctw_valid.specs.Tables.{labels_in};

use crate::around::Around;
use crate::fault::BodyFault;
use crate::operands::is_same_label;
use crate::row::{Move, NUMBER, Row, Types, indexed, simple};
use ctw_ops::{Label, NumOp, NumSig, Profile, SecretRule, Trust, ValType, Width, leaks, signature};
use ctw_stack::Stack;

/// The row of a `local.get`.
#[inline(always)]
pub fn local_get<'a>(
    around: &Around,
    stack: &Stack<Label>,
    index: u32,
    at: u32,
) -> Result<Row<'a>, BodyFault>
    ensures { LooksUp (scope around.now (labels_in stack.now)) (LocalGet index) at result }
{
    match around.local(index) {
        Some(t) => Ok(simple(None, Some(t))),
        None => Err(BodyFault::Index { at }),
    }
}

/// The row of a `local.set`.
#[inline(always)]
pub fn local_set<'a>(
    around: &Around,
    stack: &Stack<Label>,
    index: u32,
    at: u32,
) -> Result<Row<'a>, BodyFault>
    ensures { LooksUp (scope around.now (labels_in stack.now)) (LocalSet index) at result }
{
    match around.local(index) {
        Some(t) => Ok(simple(Some(t), None)),
        None => Err(BodyFault::Index { at }),
    }
}

/// The row of a `local.tee`.
#[inline(always)]
pub fn local_tee<'a>(
    around: &Around,
    stack: &Stack<Label>,
    index: u32,
    at: u32,
) -> Result<Row<'a>, BodyFault>
    ensures { LooksUp (scope around.now (labels_in stack.now)) (LocalTee index) at result }
{
    match around.local(index) {
        Some(t) => Ok(simple(Some(t), Some(t))),
        None => Err(BodyFault::Index { at }),
    }
}

/// The row of a `global.get`.
pub fn global_get<'a>(
    around: &Around,
    stack: &Stack<Label>,
    index: u32,
    at: u32,
) -> Result<Row<'a>, BodyFault>
    ensures { LooksUp (scope around.now (labels_in stack.now)) (GlobalGet index) at result }
{
    match around.global(index) {
        Some(global) => Ok(simple(None, Some(global.value))),
        None => Err(BodyFault::Index { at }),
    }
}

/// The row of a `global.set`.
pub fn global_set<'a>(
    around: &Around,
    stack: &Stack<Label>,
    index: u32,
    at: u32,
) -> Result<Row<'a>, BodyFault>
    ensures { LooksUp (scope around.now (labels_in stack.now)) (GlobalSet index) at result }
{
    match around.global(index) {
        Some(global) => {
            if !global.mutable {
                return Err(BodyFault::Immutable { at });
            }
            Ok(simple(Some(global.value), None))
        }
        None => Err(BodyFault::Index { at }),
    }
}

/// Whether 2 to the power of an alignment passes no more than an access's bytes.
#[tactic(auto, using(crate::proofs::RowLaws::wide_alignment))]
#[inline(always)]
fn is_aligned(align: u32, bytes: u8) -> bool
    ensures { result ≡ nat_le (2 ^ align) bytes }
{
    align < 8 && (1 << align) <= u32::from(bytes)
}

/// The row of a load.
#[inline(always)]
pub fn load<'a>(
    around: &Around,
    stack: &Stack<Label>,
    loaded: ValType,
    bytes: u8,
    align: u32,
    at: u32,
) -> Result<Row<'a>, BodyFault>
    ensures { (signed : Bool) (offset : ℕ) → is_load loaded.width bytes signed ≡ true
        → LooksUp (scope around.now (labels_in stack.now))
        (Load loaded.width loaded.tag bytes signed align offset) at result }
{
    let fits = match around.memory() {
        Some(label) => is_same_label(label, loaded.label),
        None => return Err(BodyFault::Index { at }),
    };
    if !is_aligned(align, bytes) {
        return Err(BodyFault::Align { at });
    }
    Ok(indexed(None, SecretRule::Address, fits, Some(loaded)))
}

/// The row of a store.
#[inline(always)]
pub fn store<'a>(
    around: &Around,
    stack: &Stack<Label>,
    stored: ValType,
    bytes: u8,
    align: u32,
    at: u32,
) -> Result<Row<'a>, BodyFault>
    ensures { (offset : ℕ) → is_store stored.width bytes ≡ true
        → LooksUp (scope around.now (labels_in stack.now))
        (Store stored.width stored.tag bytes align offset) at result }
{
    let fits = match around.memory() {
        Some(label) => is_same_label(label, stored.label),
        None => return Err(BodyFault::Index { at }),
    };
    if !is_aligned(align, bytes) {
        return Err(BodyFault::Align { at });
    }
    Ok(Row::Moves(Move {
        first: Types::One(None),
        index: Some(SecretRule::Address),
        last: Some(stored),
        fits,
        gives: None,
        ends: false,
    }))
}

/// The row of a `memory.size`.
pub fn memory_size<'a>(around: &Around, stack: &Stack<Label>, at: u32) -> Result<Row<'a>, BodyFault>
    ensures { LooksUp (scope around.now (labels_in stack.now)) MemorySize at result }
{
    match around.memory() {
        Some(_) => Ok(simple(None, Some(NUMBER))),
        None => Err(BodyFault::Index { at }),
    }
}

/// The row of a `memory.grow`.
pub fn memory_grow<'a>(around: &Around, stack: &Stack<Label>, at: u32) -> Result<Row<'a>, BodyFault>
    ensures { LooksUp (scope around.now (labels_in stack.now)) MemoryGrow at result }
{
    match around.memory() {
        Some(_) => Ok(indexed(None, SecretRule::GrowSize, true, Some(NUMBER))),
        None => Err(BodyFault::Index { at }),
    }
}

/// Whether an operation's time would tell of secrets.
#[inline(always)]
fn leaks_secret(op: NumOp, profile: Profile, label: Label) -> bool
    ensures { result ≡ (leaks op profile && same_label label Secret) }
{
    leaks(op, profile) && is_same_label(label, Label::Secret)
}

/// The row of an operation with two operands.
#[inline(always)]
fn two_operands<'a>(sig: NumSig, label: Label) -> Row<'a>
    ensures { result
        ≡ Moves (record {
          first = One (Some (value_type sig.operand label));
          index = None;
          last = Some (value_type sig.operand label);
          fits = true;
          gives = Some (value_type sig.result label);
          ends = false;
        }) }
{
    Row::Moves(Move {
        first: Types::One(Some(ValType {
            width: sig.operand,
            label,
        })),
        index: None,
        last: Some(ValType {
            width: sig.operand,
            label,
        }),
        fits: true,
        gives: Some(ValType {
            width: sig.result,
            label,
        }),
        ends: false,
    })
}

/// The row of an operation with one operand.
#[inline(always)]
fn one_operand<'a>(sig: NumSig, label: Label) -> Row<'a>
    ensures { result
        ≡ Moves (record {
          first = One None;
          index = None;
          last = Some (value_type sig.operand label);
          fits = true;
          gives = Some (value_type sig.result label);
          ends = false;
        }) }
{
    simple(
        Some(ValType {
            width: sig.operand,
            label,
        }),
        Some(ValType {
            width: sig.result,
            label,
        }),
    )
}

/// The row of a numeric operation.
#[tactic(auto, using(crate::proofs::RowLaws::binary_row, crate::proofs::RowLaws::unary_row, crate::proofs::RowLaws::leaking_row))]
#[inline(always)]
pub fn numeric<'a>(
    around: &Around,
    stack: &Stack<Label>,
    op: NumOp,
    label: Label,
    at: u32,
) -> Result<Row<'a>, BodyFault>
    ensures { LooksUp (scope around.now (labels_in stack.now)) (Numeric op label) at result }
{
    if leaks_secret(op, around.profile, label) {
        return Err(BodyFault::SecretPlace {
            at,
            rule: SecretRule::Divide,
        });
    }
    let sig = signature(op);
    if sig.arity == 2 {
        return Ok(two_operands(sig, label));
    }
    Ok(one_operand(sig, label))
}

/// The row of a constant.
#[tactic(auto, using(crate::proofs::RowLaws::constant_row))]
#[inline(always)]
pub fn constant<'a>(width: Width, label: Label) -> Row<'a>
    ensures { (C : Context Label) (bits : ℕ) → FitsWidth width bits → IsRow C (Const width label bits) result }
{
    simple(None, Some(ValType { width, label }))
}

/// The row of a `classify`.
pub fn classify<'a>(width: Width) -> Row<'a>
    ensures { result
        ≡ Moves (record {
          first = One None;
          index = None;
          last = Some (value_type width Public);
          fits = true;
          gives = Some (value_type width Secret);
          ends = false;
        }) }
{
    simple(
        Some(ValType {
            width,
            label: Label::Public,
        }),
        Some(ValType {
            width,
            label: Label::Secret,
        }),
    )
}

/// The row of a `declassify`.
pub fn declassify<'a>(
    around: &Around,
    stack: &Stack<Label>,
    width: Width,
    at: u32,
) -> Result<Row<'a>, BodyFault>
    ensures { LooksUp (scope around.now (labels_in stack.now)) (Declassify width) at result }
{
    if around.trust == Trust::Untrusted {
        return Err(BodyFault::Trust { at });
    }
    Ok(simple(
        Some(ValType {
            width,
            label: Label::Secret,
        }),
        Some(ValType {
            width,
            label: Label::Public,
        }),
    ))
}
