//! The arguments of a call that begins.
ghost use Rattle.std.specs.Prelude.{◌≡◌, ◌≤◌, true, Some, map, length, IsTrue, IfOk};
ghost use Rattle.std.specs.List.{list_all};
ghost use Rattle.ctw_ops.specs.Types.{byte_type, byte_types, is_type_byte};
ghost use Rattle.ctw_moves.specs.Arguments.{in_range as is_in_range, number_of as number_for, next_number as next_of, byte_width, arg_fits as does_fit, args_fit as do_fit, arg_takes as takes, args_take as all_take, arg_number as number_in, arg_values};
ghost use Rattle.ctw_step.specs.Stands.{number_of as its_number};

use ctw_ops::{Label, ValType, Width};
use ctw_script::Arg;
use std::alloc::{AllocError, Global};

/// The value type of a byte that has one.
fn param_type(byte: u8) -> ValType
    requires { IsTrue (is_type_byte byte) }
    ensures { byte_type byte ≡ Some result }
{
    let (width, label) = match byte {
        0x7F => (Width::W32, Label::Public),
        0x7E => (Width::W64, Label::Public),
        0x7A => (Width::W32, Label::Secret),
        _ => (Width::W64, Label::Secret),
    };
    ValType { width, label }
}

/// Whether a number is one of a width, signed or unsigned.
#[tactic(auto, unfolding(ctw_moves::specs::Arguments::in_range))]
fn in_range(width: Width, neg: bool, size: u64) -> bool
    ensures { result ≡ is_in_range width neg size }
{
    match width {
        Width::W32 => {
            if neg {
                size <= 0x8000_0000
            } else {
                size < 0x1_0000_0000
            }
        }
        Width::W64 => {
            if neg {
                size <= 0x8000_0000_0000_0000
            } else {
                true
            }
        }
    }
}

/// A number in the range of a width as its bits.
#[tactic(auto, unfolding(ctw_moves::specs::Arguments::in_range, ctw_moves::specs::Arguments::number_of))]
fn number_of(width: Width, neg: bool, size: u64) -> u64
    requires { is_in_range width neg size ≡ true }
    ensures { result ≡ number_for width neg size }
{
    if !neg || size == 0 {
        return size;
    }
    match width {
        Width::W32 => 0x1_0000_0000 - size,
        Width::W64 => u64::MAX - size + 1,
    }
}

/// The number of the first 4 or 8 bytes, the lowest first.
#[tactic(auto, unfolding(ctw_moves::specs::Arguments::next_number))]
fn next_number(width: Width, bytes: &[u8]) -> u64
    requires { byte_width width ≤ length bytes.now }
    ensures { result ≡ next_of width bytes.now }
{
    match width {
        Width::W32 => u32::from_le_bytes([bytes[0], bytes[1], bytes[2], bytes[3]]) as u64,
        Width::W64 => u64::from_le_bytes([
            bytes[0], bytes[1], bytes[2], bytes[3], bytes[4], bytes[5], bytes[6], bytes[7],
        ]),
    }
}

/// Whether a parameter takes an argument.
fn arg_fits(ty: ValType, arg: Arg) -> bool
    ensures { result ≡ does_fit ty arg }
{
    match arg {
        Arg::Number { neg, size } => in_range(ty.width, neg, size),
        Arg::Vault => match ty.label {
            Label::Public => false,
            Label::Secret => true,
        },
    }
}

/// How many bytes of the vault an argument takes.
fn arg_takes(ty: ValType, arg: Arg) -> usize
    ensures takes { result ≡ takes ty arg }
    ensures few { result ≤ 8 }
{
    match arg {
        Arg::Number { .. } => 0,
        Arg::Vault => match ty.width {
            Width::W32 => 4,
            Width::W64 => 8,
        },
    }
}

/// The number that an argument stands for before these bytes of the vault.
fn arg_number(ty: ValType, arg: Arg, vault: &[u8]) -> u64
    requires fits { does_fit ty arg ≡ true }
    requires enough { takes ty arg ≤ length vault.now }
    ensures { result ≡ number_in ty arg vault.now }
{
    match arg {
        Arg::Number { neg, size } => number_of(ty.width, neg, size),
        Arg::Vault => next_number(ty.width, vault),
    }
}

/// Whether parameters take arguments, each one its own.
pub fn args_fit(params: &[u8], args: &[Arg]) -> bool
    requires { IsTrue (list_all is_type_byte params.now) }
    ensures { result ≡ do_fit (byte_types params.now) args.now }
{
    if params.len() != args.len() {
        return false;
    }
    'each: for i in 0..args.len() {
        if !arg_fits(param_type(params[i]), args[i]) {
            return false;
        }
    }
    true
}

/// How many bytes of the vault arguments take.
pub fn args_take(params: &[u8], args: &[Arg]) -> usize
    requires typed { IsTrue (list_all is_type_byte params.now) }
    requires fit { do_fit (byte_types params.now) args.now ≡ true }
    ensures { result ≡ all_take (byte_types params.now) args.now }
{
    let mut count = 0;
    'each: for i in 0..args.len() {
        count += arg_takes(param_type(params[i]), args[i]);
    }
    count
}

/// The numbers that arguments stand for, which take what they need from the front of the vault.
pub fn numbers_of(
    alloc: Global,
    params: &[u8],
    args: &[Arg],
    vault: &[u8],
) -> Result<Vec<u64>, AllocError>
    requires typed { IsTrue (list_all is_type_byte params.now) }
    requires fit { do_fit (byte_types params.now) args.now ≡ true }
    requires enough { all_take (byte_types params.now) args.now ≤ length vault.now }
    ensures { IfOk result (λ v. v.items ≡ map its_number (arg_values (byte_types params.now) args.now vault.now)) }
{
    let mut numbers = Vec::new(alloc);
    let mut used = 0;
    'each: for i in 0..args.len() {
        let ty = param_type(params[i]);
        numbers.push(arg_number(ty, args[i], &vault[used..]))?;
        used += arg_takes(ty, args[i]);
    }
    Ok(numbers)
}
