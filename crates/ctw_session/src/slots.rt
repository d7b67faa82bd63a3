//! The slots of a session, and what is shown of a call that ends.
ghost use Rattle.std.specs.Prelude.{◌≡◌, ◌≤◌, ◌+◌, ◌++◌, Option, None, option_map, is_some, slice_get, slice_set, replicate, IfOk};
ghost use Rattle.std.specs.Vec.{vec_len, vec_capacity};
ghost use Rattle.ctw_ops.specs.Typing.{optional};
ghost use Rattle.ctw_semantics.specs.Values.{Value};
ghost use Rattle.ctw_semantics.specs.Stores.{bytes_of_number};
ghost use Rattle.ctw_semantics.specs.Sound.{HasTypes};
ghost use Rattle.ctw_moves.specs.Arguments.{byte_width};
ghost use Rattle.ctw_moves.specs.Moves.{shown_result, sealed_result};
ghost use Rattle.ctw_step.specs.Stands.{number_of};
ghost use Rattle.ctw_session.specs.Flat.{flat};

use ctw_ops::{Label, ValType, Width};
use ctw_script::Shown;
use ctw_step::Activation;
use std::alloc::{AllocError, Global};

/// A running call, and the type of what it will give back.
#[derive(Drop)]
pub struct Slot {
    /// The call.
    pub call: Activation,
    /// The type of its result, if it has one.
    pub result: Option<ValType>,
}

/// 64 slots without calls.
pub fn free_slots(alloc: Global) -> Result<Vec<Option<Slot>>, AllocError>
    ensures { IfOk result (λ v. v.items ≡ replicate 64 None) }
{
    let mut slots = Vec::new(alloc);
    'slots: for _ in 0..64u32 {
        slots.push(None)?;
    }
    Ok(slots)
}

/// Whether a slot holds a call.
pub fn is_held(slots: &Vec<Option<Slot>>, index: usize) -> bool
    ensures { result ≡ is_some (flat (slice_get slots.now.items index)) }
{
    index < slots.len() && slots[index].is_some()
}

/// Takes what a slot holds.
pub fn take_slot(slots: &mut Vec<Option<Slot>>, index: usize) -> Option<Slot>
    ensures taken { result ≡ flat (slice_get slots.old.items index) }
    ensures rest { slots.new.items ≡ slice_set slots.old.items index None }
{
    if index >= slots.len() {
        return None;
    }
    slots[index].take()
}

/// Puts into a slot.
pub fn put_slot(slots: &mut Vec<Option<Slot>>, index: usize, slot: Option<Slot>)
    ensures { slots.new.items ≡ slice_set slots.old.items index slot }
{
    if index < slots.len() {
        slots[index] = slot;
    }
}

/// How many bytes a number of a width has.
fn bytes_in(width: Width) -> u32
    ensures count { result ≡ byte_width width }
    ensures few { result ≤ 8 }
{
    match width {
        Width::W32 => 4,
        Width::W64 => 8,
    }
}

/// Appends the 4 or 8 bytes of a number, the lowest first.
fn seal_number(sealed: &mut Vec<u8>, width: Width, number: u64)
    requires { vec_len sealed.old + 8 ≤ vec_capacity sealed.old }
    ensures { sealed.new.items ≡ sealed.old.items ++ bytes_of_number (byte_width width) number }
{
    let mut rest = number;
    'bytes: for _ in 0..bytes_in(width) {
        sealed.push_reserved((rest % 256) as u8);
        rest /= 256;
    }
}

/// What is shown of a result of this type. The bytes of a secret one are sealed.
pub fn show(sealed: &mut Vec<u8>, ty: Option<ValType>, number: Option<u64>) -> Shown
    requires { vec_len sealed.old + 8 ≤ vec_capacity sealed.old }
    ensures shown { (v : Option Value) → HasTypes (optional ty) (optional v) → number ≡ option_map number_of v
        → result ≡ shown_result v }
    ensures sealed { (v : Option Value) → HasTypes (optional ty) (optional v) → number ≡ option_map number_of v
        → sealed.new.items ≡ sealed.old.items ++ sealed_result v }
{
    let Some(ty) = ty else {
        return Shown::Nothing;
    };
    let Some(bits) = number else {
        return Shown::Nothing;
    };
    match ty.label {
        Label::Public => Shown::Number {
            width: ty.width,
            bits,
        },
        Label::Secret => {
            seal_number(sealed, ty.width, bits);
            Shown::Secret
        }
    }
}
