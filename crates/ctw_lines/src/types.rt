//! The types that lines tell.
ghost use Rattle.std.specs.Prelude.{◌≡◌, ◌++◌, ◌∷◌, [], map, option_to_list, OnOk, IfOk};
ghost use Rattle.ctw_ops.specs.Types.{byte_type, byte_types};
ghost use Rattle.ctw_script.specs.Lines.{blank_before_each};
ghost use Rattle.ctw_lines.specs.Types.{value_word, value_words, result_words, trust_text, function_text, size_word, limits_text, secret_text, mutable_text, external_text};

use crate::lines::{add_number, add_word};
use ctw_module::ExternKind;
use ctw_ops::{FuncType, Label, Limits, Trust, ValType, Width};
use std::alloc::{AllocError, Global};

/// The type that a byte stands for; None where it stands for none.
fn value_type(byte: u8) -> Option<ValType>
    ensures { result ≡ byte_type byte }
{
    let (width, label) = match byte {
        0x7F => (Width::W32, Label::Public),
        0x7E => (Width::W64, Label::Public),
        0x7A => (Width::W32, Label::Secret),
        0x79 => (Width::W64, Label::Secret),
        _ => return None,
    };
    Some(ValType { width, label })
}

/// Adds the type that a byte stands for, if it stands for one.
fn push_type(byte: u8, types: &mut Vec<ValType>) -> Result<(), AllocError>
    ensures { OnOk result (types.new.items ≡ types.old.items ++ option_to_list (byte_type byte)) }
{
    if let Some(ty) = value_type(byte) {
        types.push(ty)?;
    }
    Ok(())
}

/// The types that bytes stand for.
fn value_types(alloc: Global, bytes: &[u8]) -> Result<Vec<ValType>, AllocError>
    ensures { IfOk result (λ types. types.items ≡ byte_types bytes.now) }
{
    let mut types = Vec::new(alloc);
    for byte in bytes {
        push_type(*byte, &mut types)?;
    }
    Ok(types)
}

/// The name of a value type.
fn value_word(ty: ValType) -> &'static [u8]
    ensures { result.now ≡ value_word ty }
{
    match (ty.width, ty.label) {
        (Width::W32, Label::Public) => b"i32",
        (Width::W64, Label::Public) => b"i64",
        (Width::W32, Label::Secret) => b"s32",
        (Width::W64, Label::Secret) => b"s64",
    }
}

/// Adds types, each behind a blank.
fn add_more_values(line: &mut Vec<u8>, types: &[ValType]) -> Result<(), AllocError>
    ensures { OnOk result (line.new.items ≡ line.old.items ++ blank_before_each (map value_word types.now)) }
{
    'types: for ty in types {
        add_word(line, value_word(*ty))?;
    }
    Ok(())
}

/// Adds types with blanks between them.
fn add_values(line: &mut Vec<u8>, types: &[ValType]) -> Result<(), AllocError>
    ensures { OnOk result (line.new.items ≡ line.old.items ++ value_words types.now) }
{
    let [first, others @ ..] = types else {
        return Ok(());
    };
    line.extend_from_slice(value_word(*first))?;
    add_more_values(line, others)
}

/// The name of a function's result, if it has one.
fn result_word(ty: Option<ValType>) -> &'static [u8]
    ensures { result.now ≡ result_words ty }
{
    match ty {
        None => b"",
        Some(ty) => value_word(ty),
    }
}

fn trust_text(trust: Trust) -> &'static [u8]
    ensures { result.now ≡ trust_text trust }
{
    match trust {
        Trust::Untrusted => b"",
        Trust::Trusted => b"trusted ",
    }
}

/// Adds a function's type, such as `trusted (i32 s32)->(i32)`.
fn add_function_type(alloc: Global, line: &mut Vec<u8>, ty: &FuncType) -> Result<(), AllocError>
    ensures { OnOk result (line.new.items ≡ line.old.items ++ function_text ty.now) }
{
    let params = value_types(alloc, ty.params)?;
    line.extend_from_slice(trust_text(ty.trust))?;
    line.push(b'(')?;
    add_values(line, &params)?;
    line.extend_from_slice(b")->(")?;
    line.extend_from_slice(result_word(ty.result))?;
    line.push(b')')?;
    Ok(())
}

/// Adds a greatest size, or a dash where there is none.
fn add_size(line: &mut Vec<u8>, size: Option<u32>) -> Result<(), AllocError>
    ensures { OnOk result (line.new.items ≡ line.old.items ++ size_word size) }
{
    match size {
        None => line.extend_from_slice(b"-"),
        Some(size) => add_number(line, size),
    }
}

/// Adds sizes, each behind a blank.
fn add_limits(line: &mut Vec<u8>, limits: Limits) -> Result<(), AllocError>
    ensures { OnOk result (line.new.items ≡ line.old.items ++ limits_text limits) }
{
    line.push(b' ')?;
    add_number(line, limits.min)?;
    line.push(b' ')?;
    add_size(line, limits.max)
}

fn secret_text(label: Label) -> &'static [u8]
    ensures { result.now ≡ secret_text label }
{
    match label {
        Label::Public => b"",
        Label::Secret => b"secret ",
    }
}

fn mutable_text(mutable: bool) -> &'static [u8]
    ensures { result.now ≡ mutable_text mutable }
{
    if mutable {
        return b"mut ";
    }
    b""
}

/// Adds the type of a thing that is imported or exported.
fn add_external(alloc: Global, line: &mut Vec<u8>, kind: &ExternKind) -> Result<(), AllocError>
    ensures { OnOk result (line.new.items ≡ line.old.items ++ external_text kind.now) }
{
    match kind {
        ExternKind::Func { ty, .. } => add_function_type(alloc, line, ty),
        ExternKind::Table(limits) => {
            line.extend_from_slice(b"table")?;
            add_limits(line, *limits)
        }
        ExternKind::Memory(ty) => {
            line.extend_from_slice(secret_text(ty.label))?;
            line.extend_from_slice(b"memory")?;
            add_limits(line, ty.limits)
        }
        ExternKind::Global(ty) => {
            line.extend_from_slice(mutable_text(ty.mutable))?;
            line.extend_from_slice(value_word(ty.value))
        }
    }
}

/// Adds the type of a thing behind a blank.
pub fn add_external_word(
    alloc: Global,
    line: &mut Vec<u8>,
    kind: &ExternKind,
) -> Result<(), AllocError>
    ensures { OnOk result (line.new.items ≡ line.old.items ++ blank_before_each (external_text kind.now ∷ [])) }
{
    line.push(b' ')?;
    add_external(alloc, line, kind)
}

/// Adds a function's type behind a blank.
pub fn add_function_word(alloc: Global, line: &mut Vec<u8>, ty: &FuncType) -> Result<(), AllocError>
    ensures { OnOk result (line.new.items ≡ line.old.items ++ blank_before_each (function_text ty.now ∷ [])) }
{
    line.push(b' ')?;
    add_function_type(alloc, line, ty)
}
