ghost use Rattle.std.specs.Prelude.{◌≡◌, ◌<◌, ◌-◌, ◌^◌, length, Some, None, OnOk, IfErr};
ghost use Rattle.ctw_ops.specs.Types.{byte_type, byte_types};
ghost use Rattle.ctw_ops.specs.Typing.{optional};
ghost use Rattle.ctw_ops.specs.Equal.{same_width};
ghost use Rattle.ctw_stack.specs.Steps.{fits, may_have, width_of, expect as expected, expects, chosen, dropped, joined};
ghost use Rattle.ctw_stack.specs.Opens.{slot_count, after_push, after_pop};
ghost use Rattle.ctw_valid.specs.declared.fault.BodyFault.TheVariants.{WrongType, NoMemory};
ghost use Rattle.ctw_valid.specs.Faults.{same_label, is_secret as secret, guarded_secret, by_type};
ghost use Rattle.ctw_valid.specs.Rows.{types_in, top_types, guarded_at, put_or_dead, move_below, move_all, row_step, row_fault};
ghost use Rattle.ctw_valid.specs.declared.row.Row.TheVariants.{Selects};
ghost use Rattle.ctw_valid.specs.OnStack.{on_innermost, own_slots, Follows, Takes, IsKept};

use crate::fault::BodyFault;
use crate::row::{Move, NUMBER, Row, Types};
use ctw_flat::type_of_byte;
use ctw_ops::{Label, SecretRule, ValType, Width};
use ctw_stack::{Slot, Stack, Underflow};
use std::alloc::AllocError;

/// Whether two widths are equal.
pub fn is_same_width(a: Width, b: Width) -> bool
    ensures { result ≡ same_width a b }
{
    a == b
}

/// Whether two labels are equal.
pub fn is_same_label(a: Label, b: Label) -> bool
    ensures { result ≡ same_label a b }
{
    a == b
}

#[inline(always)]
fn is_fitting(slot: Slot<Label>, t: ValType) -> bool
    ensures { result ≡ fits same_label slot t }
{
    match slot {
        Slot::Known { width, tag } => is_same_width(width, t.width) && is_same_label(tag, t.label),
        Slot::Wide { tag } => is_same_label(tag, t.label),
        Slot::Unknown => true,
    }
}

#[inline(always)]
fn is_secret(slot: Slot<Label>) -> bool
    ensures { result ≡ secret (Some slot) }
{
    match slot {
        Slot::Known { tag, .. } | Slot::Wide { tag } => is_same_label(tag, Label::Secret),
        Slot::Unknown => false,
    }
}

/// Takes a value of a type off.
#[inline(always)]
pub fn expect(stack: &mut Stack<Label>, t: ValType, at: u32) -> Result<(), BodyFault>
    requires { 0 < length stack.old }
    ensures step { Follows result (on_innermost (expected same_label t) stack.old) stack.new (WrongType at) }
    ensures kept { IsKept stack.old stack.new 0 }
{
    match stack.pop() {
        Ok(slot) => {
            if is_fitting(slot, t) {
                Ok(())
            } else {
                Err(BodyFault::WrongType { at })
            }
        }
        Err(Underflow) => Err(BodyFault::WrongType { at }),
    }
}

/// Takes a value of a type off, if there is a type.
#[inline(always)]
fn expect_optional(stack: &mut Stack<Label>, t: Option<ValType>, at: u32) -> Result<(), BodyFault>
    requires { 0 < length stack.old }
    ensures step { Follows result (on_innermost (expects same_label (optional t)) stack.old) stack.new (WrongType at) }
    ensures kept { IsKept stack.old stack.new 0 }
{
    match t {
        Some(t) => expect(stack, t, at),
        None => Ok(()),
    }
}

/// Takes any value off.
fn drop_one(stack: &mut Stack<Label>, at: u32) -> Result<(), BodyFault>
    requires { 0 < length stack.old }
    ensures step { Follows result (on_innermost dropped stack.old) stack.new (WrongType at) }
    ensures kept { IsKept stack.old stack.new 0 }
{
    match stack.pop() {
        Ok(_) => Ok(()),
        Err(Underflow) => Err(BodyFault::WrongType { at }),
    }
}

/// Takes values of a function's parameters off, the last one first.
fn expect_params(stack: &mut Stack<Label>, params: &[u8], at: u32) -> Result<(), BodyFault>
    requires { 0 < length stack.old }
    ensures step { Follows result (on_innermost (expects same_label (byte_types params.now)) stack.old) stack.new
        (WrongType at) }
    ensures kept { IsKept stack.old stack.new 0 }
{
    let mut left = params.len();
    'back: while left > 0 {
        left -= 1;
        expect_optional(stack, type_of_byte(params[left]), at)?;
    }
    Ok(())
}

/// Takes values of types off.
#[inline(always)]
fn expect_types(stack: &mut Stack<Label>, types: &Types, at: u32) -> Result<(), BodyFault>
    requires { 0 < length stack.old }
    ensures step { Follows result (on_innermost (expects same_label (types_in types.now)) stack.old) stack.new
        (WrongType at) }
    ensures kept { IsKept stack.old stack.new 0 }
{
    match *types {
        Types::One(t) => expect_optional(stack, t, at),
        Types::Params(params) => expect_params(stack, params, at),
    }
}

/// Whether a slot may be of a label.
fn is_of(slot: Slot<Label>, label: Label) -> bool
    ensures { result ≡ may_have same_label label slot }
{
    match slot {
        Slot::Known { tag, .. } | Slot::Wide { tag } => is_same_label(tag, label),
        Slot::Unknown => true,
    }
}

/// The width of a slot, if it is known.
fn width_in(slot: Slot<Label>) -> Option<Width>
    ensures { result ≡ width_of slot }
{
    match slot {
        Slot::Known { width, .. } => Some(width),
        Slot::Wide { .. } | Slot::Unknown => None,
    }
}

/// One of two slots of a label and one width.
fn join(label: Label, a: Slot<Label>, b: Slot<Label>) -> Option<Slot<Label>>
    ensures { result ≡ joined same_label label a b }
{
    if !is_of(a, label) || !is_of(b, label) {
        return None;
    }
    match (width_in(a), width_in(b)) {
        (None, None) => Some(Slot::Wide { tag: label }),
        (Some(width), None) | (None, Some(width)) => Some(Slot::Known { width, tag: label }),
        (Some(v), Some(w)) => {
            if is_same_width(v, w) {
                Some(Slot::Known {
                    width: v,
                    tag: label,
                })
            } else {
                None
            }
        }
    }
}

/// Takes any value off.
#[inline(always)]
fn take(stack: &mut Stack<Label>, at: u32) -> Result<Slot<Label>, BodyFault>
    requires { 0 < length stack.old }
    ensures slot { Takes result (after_pop stack.old) stack.new (WrongType at) }
    ensures kept { IsKept stack.old stack.new 0 }
{
    match stack.pop() {
        Ok(slot) => Ok(slot),
        Err(Underflow) => Err(BodyFault::WrongType { at }),
    }
}

/// Puts a value on.
#[inline(always)]
pub fn put(stack: &mut Stack<Label>, slot: Slot<Label>) -> Result<(), BodyFault>
    requires open { 0 < length stack.old }
    requires few { slot_count stack.old < 2 ^ 32 - 1 }
    ensures put { OnOk result (stack.new ≡ after_push slot stack.old) }
    ensures memory { IfErr result (λ e. e ≡ NoMemory) }
    ensures kept { IsKept stack.old stack.new 1 }
{
    match stack.push(slot) {
        Ok(()) => Ok(()),
        Err(_) => Err(BodyFault::NoMemory),
    }
}

/// Takes two values of a label and one width, and puts one of them on.
fn choose(stack: &mut Stack<Label>, label: Label, at: u32) -> Result<(), BodyFault>
    requires open { 0 < length stack.old }
    requires few { slot_count stack.old < 2 ^ 32 - 1 }
    ensures step { Follows result (on_innermost (chosen same_label label) stack.old) stack.new (WrongType at) }
    ensures kept { IsKept stack.old stack.new 1 }
{
    let last = take(stack, at)?;
    let first = take(stack, at)?;
    match join(label, last, first) {
        Some(slot) => {
            put(stack, slot)?;
            Ok(())
        }
        None => Err(BodyFault::WrongType { at }),
    }
}

/// Takes a public number of 32 bits off, which stands under a rule.
#[inline(always)]
pub fn take_index(stack: &mut Stack<Label>, rule: SecretRule, at: u32) -> Result<(), BodyFault>
    requires { 0 < length stack.old }
    ensures step { Follows result (on_innermost (expects same_label (top_types (Some rule) None)) stack.old) stack.new
        (by_type at (guarded_secret (own_slots stack.old) (guarded_at (Some rule) None))) }
    ensures public { OnOk result (guarded_secret (own_slots stack.old) (guarded_at (Some rule) None) ≡ None) }
    ensures kept { IsKept stack.old stack.new 0 }
{
    let slot = take(stack, at)?;
    if is_secret(slot) {
        return Err(BodyFault::SecretPlace { at, rule });
    }
    if !is_fitting(slot, NUMBER) {
        return Err(BodyFault::WrongType { at });
    }
    Ok(())
}

/// The same of a number below an operand.
#[inline(always)]
fn take_index_below(
    stack: &mut Stack<Label>,
    rule: SecretRule,
    last: ValType,
    at: u32,
) -> Result<(), BodyFault>
    requires { 0 < length stack.old }
    ensures step { Follows result (on_innermost (expects same_label (top_types (Some rule)
        (Some last))) stack.old) stack.new (by_type at (guarded_secret (own_slots stack.old)
        (guarded_at (Some rule) (Some last)))) }
    ensures public { OnOk result (guarded_secret (own_slots stack.old) (guarded_at (Some rule) (Some last)) ≡ None) }
    ensures kept { IsKept stack.old stack.new 0 }
{
    let top = take(stack, at)?;
    let slot = take(stack, at)?;
    if is_secret(slot) {
        return Err(BodyFault::SecretPlace { at, rule });
    }
    if !is_fitting(top, last) || !is_fitting(slot, NUMBER) {
        return Err(BodyFault::WrongType { at });
    }
    Ok(())
}

/// Takes what stands above the other operands of an instruction.
#[inline(always)]
fn take_top(
    stack: &mut Stack<Label>,
    index: Option<SecretRule>,
    last: Option<ValType>,
    at: u32,
) -> Result<(), BodyFault>
    requires { 0 < length stack.old }
    ensures step { Follows result (on_innermost (expects same_label (top_types index last)) stack.old) stack.new
        (by_type at (guarded_secret (own_slots stack.old) (guarded_at index last))) }
    ensures public { OnOk result (guarded_secret (own_slots stack.old) (guarded_at index last) ≡ None) }
    ensures kept { IsKept stack.old stack.new 0 }
{
    match (index, last) {
        (None, last) => expect_optional(stack, last, at),
        (Some(rule), None) => take_index(stack, rule, at),
        (Some(rule), Some(last)) => take_index_below(stack, rule, last, at),
    }
}

/// Puts on what an instruction gives, or ends the block's live part.
#[inline(always)]
fn give(stack: &mut Stack<Label>, ends: bool, gives: Option<ValType>) -> Result<(), BodyFault>
    requires open { 0 < length stack.old }
    requires few { slot_count stack.old < 2 ^ 32 - 1 }
    ensures step { Follows result (on_innermost (λ o. Some (put_or_dead ends gives o)) stack.old) stack.new NoMemory }
    ensures kept { IsKept stack.old stack.new 1 }
{
    if ends {
        stack.kill();
        return Ok(());
    }
    if let Some(t) = gives {
        put(
            stack,
            Slot::Known {
                width: t.width,
                tag: t.label,
            },
        )?;
    }
    Ok(())
}

/// Takes the operands below an instruction's last ones, and gives what it gives.
#[inline(always)]
fn move_rest(stack: &mut Stack<Label>, row: &Move, at: u32) -> Result<(), BodyFault>
    requires open { 0 < length stack.old }
    requires few { slot_count stack.old < 2 ^ 32 - 1 }
    ensures step { Follows result (on_innermost (move_below row.now) stack.old) stack.new (WrongType at) }
    ensures kept { IsKept stack.old stack.new 1 }
{
    if !row.fits {
        return Err(BodyFault::WrongType { at });
    }
    expect_types(stack, &row.first, at)?;
    give(stack, row.ends, row.gives)?;
    Ok(())
}

/// Takes all operands of an instruction, and gives what it gives.
#[inline(always)]
fn move_values(stack: &mut Stack<Label>, row: &Move, at: u32) -> Result<(), BodyFault>
    requires open { 0 < length stack.old }
    requires few { slot_count stack.old < 2 ^ 32 - 1 }
    ensures step { Follows result (on_innermost (move_all row.now) stack.old) stack.new
        (by_type at (guarded_secret (own_slots stack.old) (guarded_at row.now.index row.now.last))) }
    ensures kept { IsKept stack.old stack.new 1 }
{
    take_top(stack, row.index, row.last, at)?;
    move_rest(stack, row, at)?;
    Ok(())
}

/// Takes a condition and two values of a label, and puts one of the values on.
fn select(stack: &mut Stack<Label>, label: Label, at: u32) -> Result<(), BodyFault>
    requires open { 0 < length stack.old }
    requires few { slot_count stack.old < 2 ^ 32 - 1 }
    ensures step { Follows result (on_innermost (row_step (Selects label)) stack.old) stack.new (WrongType at) }
    ensures kept { IsKept stack.old stack.new 1 }
{
    expect(
        stack,
        ValType {
            width: Width::W32,
            label,
        },
        at,
    )?;
    choose(stack, label, at)?;
    Ok(())
}

/// Does to the operands what a row of the typing's table says. Where no block is open the row is refused.
#[inline(always)]
pub fn apply(stack: &mut Stack<Label>, row: &Row, at: u32) -> Result<(), BodyFault>
    requires { slot_count stack.old < 2 ^ 32 - 1 }
    ensures step { Follows result (on_innermost (row_step row.now) stack.old) stack.new
        (row_fault row.now at (own_slots stack.old)) }
    ensures kept { IsKept stack.old stack.new 1 }
{
    if stack.innermost().is_none() {
        return Err(BodyFault::WrongType { at });
    }
    match row {
        Row::Drops => drop_one(stack, at),
        Row::Selects(label) => select(stack, *label, at),
        Row::Moves(moves) => move_values(stack, moves, at),
    }
}
