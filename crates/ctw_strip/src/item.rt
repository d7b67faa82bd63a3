//! What the items of a module become, and appending it. Where memory runs out, some bytes may be there.
ghost use Rattle.std.specs.Prelude.{◌≡◌, ◌<◌, ◌^◌, ◌++◌, length, map, option_map, None, IsTrue, IfSome, OnOk};
ghost use Rattle.std.specs.List.{list_all};
ghost use Rattle.ctw_ops.specs.Types.{type_byte, byte_type, byte_types, is_type_byte, erase_value_type, erase_function_type};
ghost use Rattle.ctw_ops.specs.Valid.{IsFitting};
ghost use Rattle.ctw_ops.specs.Erasure.{base_of, erase_variable_type, erase_memory_type, erase_constant, erase_extern, erase_import, erase_element, erase_segment};
ghost use Rattle.ctw_form.specs.Spelled.{global_of};
ghost use Rattle.ctw_form.specs.Shown.{constant_of};
ghost use Rattle.ctw_module.specs.Trees.{tree};
ghost use Rattle.ctw_module.specs.Given.{extern_given, import_given};
ghost use Rattle.ctw_write.specs.Canon.{all_texts, vector_text, type_text, type_entry_text, import_text, extern_text, global_text, element_text, segment_text};
ghost use Rattle.ctw_strip.specs.Stripped.{kept_text};

use ctw_flat::{byte_of_type, type_of_byte};
use ctw_leb::put_u32;
use ctw_module::{ConstExpr, Element, ExternKind, Import, Module, Segment};
use ctw_ops::{FuncType, GlobalType, Label, MemType, ValType, erase_type};
use ctw_write::entry::params_of;
use ctw_write::text::{
    put_constant, put_functions, put_global, put_memory, put_result, put_segment, put_sized,
    put_table, put_variable,
};
use std::alloc::AllocError;

/// The index of the entry that a type entry is a variant of; its own where it is none, or where the index names none.
#[inline(always)]
pub(crate) fn base_index(m: &Module, index: u32) -> u32
    ensures { result ≡ base_of (tree m.now).types index }
{
    if index >= m.type_count() {
        return index;
    }
    m.variant_of(index).unwrap_or(index)
}

/// The type of a result, which is public then.
#[inline(always)]
pub(crate) fn erased_result(ty: Option<ValType>) -> Option<ValType>
    ensures { result ≡ option_map erase_value_type ty }
{
    match ty {
        Some(t) => Some(erase_type(t)),
        None => None,
    }
}

/// A global's type, which is public then.
fn erased_variable(ty: GlobalType) -> GlobalType
    ensures { result ≡ erase_variable_type ty }
{
    GlobalType {
        value: erase_type(ty.value),
        mutable: ty.mutable,
    }
}

/// A memory's type, which is public then.
pub(crate) fn erased_memory(ty: MemType) -> MemType
    ensures { result ≡ erase_memory_type ty }
{
    MemType {
        label: Label::Public,
        limits: ty.limits,
    }
}

/// A constant expression, whose number is public then.
fn erased_constant(value: ConstExpr) -> ConstExpr
    ensures { constant_of result ≡ erase_constant (constant_of value) }
{
    match value {
        ConstExpr::Const { value, bits } => ConstExpr::Const {
            value: erase_type(value),
            bits,
        },
        ConstExpr::Get { global } => ConstExpr::Get { global },
    }
}

/// The byte of the public type of the same width.
fn erased_byte(byte: u8) -> u8
    requires { IsTrue (is_type_byte byte) }
    ensures { IfSome (byte_type byte) (λ t. result ≡ type_byte (erase_value_type t)) }
{
    match type_of_byte(byte) {
        Some(t) => byte_of_type(erase_type(t)),
        None => unreachable!(),
    }
}

/// The public types of bytes.
fn put_types(out: &mut Vec<u8>, bytes: &[u8]) -> Result<(), AllocError>
    requires { IsTrue (list_all is_type_byte bytes.now) }
    ensures { OnOk result (out.new.items
        ≡ out.old.items ++ all_texts type_text (map erase_value_type (byte_types bytes.now))) }
{
    'types: for byte in bytes {
        out.push(erased_byte(*byte))?;
    }
    Ok(())
}

/// The parameters of a type, of which there are fewer than 2^32.
fn put_params(out: &mut Vec<u8>, ty: &FuncType) -> Result<(), AllocError>
    requires { length ty.now.params < 2 ^ 32 }
    ensures { OnOk result (out.new.items
        ≡ out.old.items ++ vector_text type_text (map erase_value_type ty.now.params)) }
{
    put_u32(out, params_of(ty))?;
    put_types(out, ty.params)
}

/// A type entry that is no variant, untrusted and with public types then.
fn put_entry(out: &mut Vec<u8>, ty: &FuncType) -> Result<(), AllocError>
    requires { length ty.now.params < 2 ^ 32 }
    ensures { OnOk result (out.new.items
        ≡ out.old.items ++ type_entry_text (record { base = None; type = erase_function_type ty.now })) }
{
    out.push(0x60)?;
    put_params(out, ty)?;
    put_result(out, erased_result(ty.result))
}

/// A type entry, if it is no variant.
pub(crate) fn put_kept(
    out: &mut Vec<u8>,
    base: Option<u32>,
    ty: &FuncType,
) -> Result<(), AllocError>
    requires { length ty.now.params < 2 ^ 32 }
    ensures { OnOk result (out.new.items ≡ out.old.items ++ kept_text (record { base = base; type = ty.now })) }
{
    match base {
        None => put_entry(out, ty),
        Some(_) => Ok(()),
    }
}

/// What an import asks for.
fn put_extern(out: &mut Vec<u8>, m: &Module, kind: &ExternKind) -> Result<(), AllocError>
    ensures { OnOk result (out.new.items
        ≡ out.old.items ++ extern_text (erase_extern (tree m.now).types (extern_given kind.now))) }
{
    match kind {
        ExternKind::Func { type_index, .. } => {
            out.push(0x00)?;
            put_u32(out, base_index(m, *type_index))
        }
        ExternKind::Table(limits) => {
            out.push(0x01)?;
            put_table(out, *limits)
        }
        ExternKind::Memory(ty) => {
            out.push(0x02)?;
            put_memory(out, erased_memory(*ty))
        }
        ExternKind::Global(ty) => {
            out.push(0x03)?;
            put_variable(out, erased_variable(*ty))
        }
    }
}

/// An import, whose spelling is then shorter than 2^32 bytes.
#[tactic(auto, using(ctw_write::proofs::Shorter::import_short))]
pub(crate) fn put_import(out: &mut Vec<u8>, m: &Module, import: &Import) -> Result<(), AllocError>
    requires { length (import_text (erase_import (tree m.now).types (import_given import.now))) < 2 ^ 32 }
    ensures { OnOk result (out.new.items
        ≡ out.old.items ++ import_text (erase_import (tree m.now).types (import_given import.now))) }
{
    put_sized(out, import.module.as_bytes())?;
    put_sized(out, import.name.as_bytes())?;
    put_extern(out, m, &import.kind)
}

/// A defined global.
pub(crate) fn put_erased_global(
    out: &mut Vec<u8>,
    ty: GlobalType,
    init: ConstExpr,
) -> Result<(), AllocError>
    requires { IsFitting (constant_of init) }
    ensures { OnOk result (out.new.items
        ≡ out.old.items ++ global_text (global_of (erase_variable_type ty) (erase_constant (constant_of init)))) }
{
    put_global(out, erased_variable(ty), erased_constant(init))
}

/// An element.
pub(crate) fn put_erased_element(out: &mut Vec<u8>, element: &Element) -> Result<(), AllocError>
    requires { IsFitting element.now.offset }
    ensures { OnOk result (out.new.items ≡ out.old.items ++ element_text (erase_element element.now)) }
{
    put_u32(out, element.table)?;
    put_constant(out, erased_constant(element.offset))?;
    put_functions(out, element)
}

/// A data segment, whose spelling is then shorter than 2^32 bytes.
pub(crate) fn put_erased_segment(out: &mut Vec<u8>, segment: &Segment) -> Result<(), AllocError>
    requires fits { IsFitting segment.now.offset }
    requires short { length (segment_text (erase_segment segment.now)) < 2 ^ 32 }
    ensures { OnOk result (out.new.items ≡ out.old.items ++ segment_text (erase_segment segment.now)) }
{
    put_segment(
        out,
        &Segment {
            memory: segment.memory,
            offset: erased_constant(segment.offset),
            bytes: segment.bytes,
        },
    )
}
