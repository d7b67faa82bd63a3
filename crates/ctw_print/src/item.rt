//! Appending the parts of fields and instructions. Where memory runs out, some of the text may be there.
ghost use Rattle.std.specs.Prelude.{◌≡◌, ◌<◌, ◌^◌, ◌-◌, ◌++◌, ◌∷◌, [], decimal, OnOk, IsTrue, codes};
ghost use Rattle.std.specs.String.{string_bytes};
ghost use Rattle.std.specs.List.{list_all};
ghost use Rattle.ctw_ops.specs.Types.{byte_types, is_type_byte, FitsWidth};
ghost use Rattle.ctw_ops.specs.Valid.{IsFitting};
ghost use Rattle.ctw_form.specs.Shown.{constant_of};
ghost use Rattle.ctw_text.specs.Print.{quoted_byte, hex_char};
ghost use Rattle.ctw_text.specs.Grammar.{bits_in};
ghost use Rattle.ctw_print.specs.Words.{value_word};
ghost use Rattle.ctw_print.specs.Texts.{all_texts, spaced_number, spaced_type, string_text, result_text, bits_text, use_text, limits_text, max_text, table_text, memory_label, memory_text, variable_text, constant_text};

use crate::word::value_word;
use ctw_flat::type_of_byte;
use ctw_form::ConstExpr;
use ctw_ops::{GlobalType, Label, Limits, MemType, Trust, ValType, Width};
use itoa::Buffer;
use std::alloc::AllocError;

/// A number of 64 bits.
pub(crate) fn put_long(out: &mut String, number: u64) -> Result<(), AllocError>
    ensures { OnOk result (string_bytes out.new ≡ string_bytes out.old ++ decimal number) }
{
    let mut buffer = Buffer::new();
    out.push_str(buffer.format(number))
}

/// A number.
pub(crate) fn put_number(out: &mut String, number: u32) -> Result<(), AllocError>
    ensures { OnOk result (string_bytes out.new ≡ string_bytes out.old ++ decimal number) }
{
    let mut buffer = Buffer::new();
    out.push_str(buffer.format(number))
}

/// A number behind a blank.
pub(crate) fn put_spaced(out: &mut String, number: u32) -> Result<(), AllocError>
    ensures { OnOk result (string_bytes out.new ≡ string_bytes out.old ++ spaced_number number) }
{
    out.push(' ')?;
    put_number(out, number)
}

/// A value type behind a blank.
pub(crate) fn put_type(out: &mut String, ty: ValType) -> Result<(), AllocError>
    ensures { OnOk result (string_bytes out.new ≡ string_bytes out.old ++ spaced_type ty) }
{
    out.push(' ')?;
    out.push_str(value_word(ty))
}

/// A hexadecimal digit of a number below 16.
fn hex_char(digit: u8) -> char
    requires { digit < 16 }
    ensures digit { result ≡ hex_char digit }
    ensures ascii { result < 128 }
{
    match digit {
        0..=9 => char::from(b'0' + digit),
        _ => char::from(b'a' + (digit - 10)),
    }
}

/// A byte in a string: a printed ASCII character but a quote and a backslash, or two hexadecimal digits.
fn put_byte(out: &mut String, byte: u8) -> Result<(), AllocError>
    ensures { OnOk result (string_bytes out.new ≡ string_bytes out.old ++ quoted_byte byte) }
{
    if matches!(byte, 0x20..=0x7E) && byte != b'"' && byte != b'\\' {
        return out.push(char::from(byte));
    }
    out.push('\\')?;
    out.push(hex_char(byte / 16))?;
    out.push(hex_char(byte % 16))
}

/// Bytes of a string.
fn put_bytes(out: &mut String, bytes: &[u8]) -> Result<(), AllocError>
    ensures { OnOk result (string_bytes out.new ≡ string_bytes out.old ++ all_texts quoted_byte bytes.now) }
{
    'bytes: for byte in bytes {
        put_byte(out, *byte)?;
    }
    Ok(())
}

/// A string between quotes.
pub(crate) fn put_string(out: &mut String, bytes: &[u8]) -> Result<(), AllocError>
    ensures { OnOk result (string_bytes out.new ≡ string_bytes out.old ++ string_text bytes.now) }
{
    out.push('"')?;
    put_bytes(out, bytes)?;
    out.push('"')
}

/// The type of a byte that stands for one, behind a blank.
fn put_type_of(out: &mut String, byte: u8) -> Result<(), AllocError>
    requires { IsTrue (is_type_byte byte) }
    ensures { OnOk result (string_bytes out.new ≡ string_bytes out.old ++ all_texts spaced_type (byte_types (byte ∷ []))) }
{
    let Some(ty) = type_of_byte(byte) else {
        unreachable!();
    };
    put_type(out, ty)
}

/// The types of bytes that stand for types, each behind a blank.
pub(crate) fn put_types(out: &mut String, bytes: &[u8]) -> Result<(), AllocError>
    requires { IsTrue (list_all is_type_byte bytes.now) }
    ensures { OnOk result (string_bytes out.new ≡ string_bytes out.old ++ all_texts spaced_type (byte_types bytes.now)) }
{
    'types: for byte in bytes {
        put_type_of(out, *byte)?;
    }
    Ok(())
}

/// A result, if there is one.
pub(crate) fn put_result(out: &mut String, ty: Option<ValType>) -> Result<(), AllocError>
    ensures { OnOk result (string_bytes out.new ≡ string_bytes out.old ++ result_text ty) }
{
    match ty {
        None => Ok(()),
        Some(ty) => {
            out.push_str(" (result ")?;
            out.push_str(value_word(ty))?;
            out.push(')')
        }
    }
}

/// The number that a negative number of this width lacks to 0, by its bits.
fn negated(width: Width, bits: u64) -> u64
    requires fits { FitsWidth width bits }
    requires some { 0 < bits }
    ensures { result ≡ 2 ^ bits_in width - bits }
{
    match width {
        Width::W32 => 0x1_0000_0000 - bits,
        Width::W64 => u64::MAX - bits + 1,
    }
}

/// A const's number by its bits, signed.
pub(crate) fn put_bits(out: &mut String, width: Width, bits: u64) -> Result<(), AllocError>
    requires { FitsWidth width bits }
    ensures { OnOk result (string_bytes out.new ≡ string_bytes out.old ++ bits_text width bits) }
{
    let half = match width {
        Width::W32 => 0x8000_0000,
        Width::W64 => 0x8000_0000_0000_0000,
    };
    if bits < half {
        return put_long(out, bits);
    }
    out.push('-')?;
    put_long(out, negated(width, bits))
}

/// A const's number behind its word.
pub(crate) fn put_const(out: &mut String, ty: ValType, bits: u64) -> Result<(), AllocError>
    requires { FitsWidth ty.width bits }
    ensures { OnOk result (string_bytes out.new
        ≡ string_bytes out.old ++ value_word ty ++ codes ".const " ++ bits_text ty.width bits) }
{
    out.push_str(value_word(ty))?;
    out.push_str(".const ")?;
    put_bits(out, ty.width, bits)
}

/// The index of a type in brackets, behind a blank.
pub(crate) fn put_use(out: &mut String, index: u32) -> Result<(), AllocError>
    ensures { OnOk result (string_bytes out.new ≡ string_bytes out.old ++ use_text index) }
{
    out.push_str(" (type ")?;
    put_number(out, index)?;
    out.push(')')
}

/// A greatest size behind a blank, if there is one.
fn put_max(out: &mut String, max: Option<u32>) -> Result<(), AllocError>
    ensures { OnOk result (string_bytes out.new ≡ string_bytes out.old ++ max_text max) }
{
    match max {
        None => Ok(()),
        Some(max) => put_spaced(out, max),
    }
}

/// Sizes.
fn put_limits(out: &mut String, limits: Limits) -> Result<(), AllocError>
    ensures { OnOk result (string_bytes out.new ≡ string_bytes out.old ++ limits_text limits) }
{
    put_number(out, limits.min)?;
    put_max(out, limits.max)
}

/// A table's type.
pub(crate) fn put_table(out: &mut String, limits: Limits) -> Result<(), AllocError>
    ensures { OnOk result (string_bytes out.new ≡ string_bytes out.old ++ table_text limits) }
{
    out.push_str("(table ")?;
    put_limits(out, limits)?;
    out.push_str(" funcref)")
}

/// The word of a secret memory.
fn put_label(out: &mut String, label: Label) -> Result<(), AllocError>
    ensures { OnOk result (string_bytes out.new ≡ string_bytes out.old ++ memory_label label) }
{
    match label {
        Label::Public => Ok(()),
        Label::Secret => out.push_str("secret "),
    }
}

/// A memory's type.
pub(crate) fn put_memory(out: &mut String, ty: MemType) -> Result<(), AllocError>
    ensures { OnOk result (string_bytes out.new ≡ string_bytes out.old ++ memory_text ty) }
{
    out.push_str("(memory ")?;
    put_label(out, ty.label)?;
    put_limits(out, ty.limits)?;
    out.push(')')
}

/// A global's type.
pub(crate) fn put_variable(out: &mut String, ty: GlobalType) -> Result<(), AllocError>
    ensures { OnOk result (string_bytes out.new ≡ string_bytes out.old ++ variable_text ty) }
{
    if !ty.mutable {
        return out.push_str(value_word(ty.value));
    }
    out.push_str("(mut ")?;
    out.push_str(value_word(ty.value))?;
    out.push(')')
}

/// The value of a global.
fn put_get(out: &mut String, global: u32) -> Result<(), AllocError>
    ensures { OnOk result (string_bytes out.new
        ≡ string_bytes out.old ++ codes "(global.get " ++ decimal global ++ codes ")") }
{
    out.push_str("(global.get ")?;
    put_number(out, global)?;
    out.push(')')
}

/// A constant expression, whose number fits its width.
pub(crate) fn put_constant(out: &mut String, value: ConstExpr) -> Result<(), AllocError>
    requires { IsFitting (constant_of value) }
    ensures { OnOk result (string_bytes out.new ≡ string_bytes out.old ++ constant_text (constant_of value)) }
{
    match value {
        ConstExpr::Const { value, bits } => {
            out.push('(')?;
            put_const(out, value, bits)?;
            out.push(')')
        }
        ConstExpr::Get { global } => put_get(out, global),
    }
}
