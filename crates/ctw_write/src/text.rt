//! Appending what the parts of a module are spelled by. Where memory runs out, some bytes may be there.
ghost use Rattle.std.specs.Prelude.{◌≡◌, ◌<◌, ◌^◌, ◌++◌, ◌∷◌, [], ℕ, List, length, OnOk, OnErr};
ghost use Rattle.ctw_ops.specs.Types.{type_byte};
ghost use Rattle.ctw_ops.specs.Typing.{optional};
ghost use Rattle.ctw_leb.specs.Spelling.{u32_text};
ghost use Rattle.ctw_form.specs.Spelled.{export_of, global_of};
ghost use Rattle.ctw_form.specs.Shown.{constant_of};
ghost use Rattle.ctw_module.specs.Given.{extern_given, import_given};
ghost use Rattle.ctw_write.specs.Canon.{vector_text, sized_text, section_text, type_text, trust_byte, entry_byte, signature_text, type_entry_text, limits_text, table_text, memory_text, variable_text, extern_text, import_text, kind_byte, export_text, constant_text, global_text, element_text, segment_text};
ghost use Rattle.ctw_ops.specs.Valid.{IsFitting};

use crate::code::put_const;
use ctw_flat::{Bare, Form, Indexed, byte_of_type, opcode_of};
use ctw_leb::put_u32;
use ctw_module::{ConstExpr, Element, ExternKind, Import, Segment};
use ctw_ops::{ExternTag, FuncType, GlobalType, Label, Limits, MemType, Trust, ValType, Width};
use std::alloc::AllocError;

/// Bytes behind their size; they are fewer than 2^32.
pub fn put_sized(out: &mut Vec<u8>, bytes: &[u8]) -> Result<(), AllocError>
    requires { length bytes.now < 2 ^ 32 }
    ensures put { OnOk result (out.new.items ≡ out.old.items ++ sized_text bytes.now) }
    ensures part { OnErr result ((part : List ℕ) × (out.new.items ≡ out.old.items ++ part)) }
{
    put_u32(out, bytes.len() as u32)?;
    out.extend_from_slice(bytes)
}

/// A section with these contents, which are shorter than 2^32 bytes.
pub fn put_section(out: &mut Vec<u8>, id: u8, contents: &[u8]) -> Result<(), AllocError>
    requires { length contents.now < 2 ^ 32 }
    ensures put { OnOk result (out.new.items ≡ out.old.items ++ section_text id contents.now) }
    ensures part { OnErr result ((part : List ℕ) × (out.new.items ≡ out.old.items ++ part)) }
{
    out.push(id)?;
    put_sized(out, contents)
}

/// A limit's sizes behind the byte that says which there are.
fn put_limits(out: &mut Vec<u8>, alone: u8, both: u8, limits: Limits) -> Result<(), AllocError>
    ensures { OnOk result (out.new.items ≡ out.old.items ++ limits_text alone both limits) }
{
    match limits.max {
        None => {
            out.push(alone)?;
            put_u32(out, limits.min)
        }
        Some(max) => {
            out.push(both)?;
            put_u32(out, limits.min)?;
            put_u32(out, max)
        }
    }
}

/// A table's type.
pub fn put_table(out: &mut Vec<u8>, limits: Limits) -> Result<(), AllocError>
    ensures { OnOk result (out.new.items ≡ out.old.items ++ table_text limits) }
{
    out.push(0x70)?;
    put_limits(out, 0x00, 0x01, limits)
}

/// A memory's type.
pub fn put_memory(out: &mut Vec<u8>, ty: MemType) -> Result<(), AllocError>
    ensures { OnOk result (out.new.items ≡ out.old.items ++ memory_text ty) }
{
    match ty.label {
        Label::Public => put_limits(out, 0x00, 0x01, ty.limits),
        Label::Secret => put_limits(out, 0x10, 0x11, ty.limits),
    }
}

/// A global's type.
pub fn put_variable(out: &mut Vec<u8>, ty: GlobalType) -> Result<(), AllocError>
    ensures { OnOk result (out.new.items ≡ out.old.items ++ variable_text ty) }
{
    out.push(byte_of_type(ty.value))?;
    out.push(u8::from(ty.mutable))?;
    Ok(())
}

/// The parameters and the result of a type, which has fewer than 2^32 parameters.
fn put_signature(out: &mut Vec<u8>, ty: &FuncType) -> Result<(), AllocError>
    requires { length ty.now.params < 2 ^ 32 }
    ensures { OnOk result (out.new.items ≡ out.old.items ++ signature_text ty.now) }
{
    put_params(out, ty)?;
    put_result(out, ty.result)
}

/// The result of a type, behind the count 0 or 1.
pub fn put_result(out: &mut Vec<u8>, ty: Option<ValType>) -> Result<(), AllocError>
    ensures { OnOk result (out.new.items ≡ out.old.items ++ vector_text type_text (optional ty)) }
{
    match ty {
        None => put_u32(out, 0),
        Some(t) => {
            put_u32(out, 1)?;
            out.push(byte_of_type(t))?;
            Ok(())
        }
    }
}

/// The parameters of a type: their bytes are those in the file.
fn put_params(out: &mut Vec<u8>, ty: &FuncType) -> Result<(), AllocError>
    requires { length ty.now.params < 2 ^ 32 }
    ensures { OnOk result (out.new.items ≡ out.old.items ++ vector_text type_text ty.now.params) }
{
    put_sized(out, ty.params)
}

/// A type entry, perhaps a variant of another.
pub(crate) fn put_type_entry(
    out: &mut Vec<u8>,
    base: Option<u32>,
    ty: &FuncType,
) -> Result<(), AllocError>
    requires { length ty.now.params < 2 ^ 32 }
    ensures { OnOk result (out.new.items ≡ out.old.items ++ type_entry_text (record { base = base; type = ty.now })) }
{
    match base {
        None => out.push(entry_code(ty.trust))?,
        Some(base) => {
            out.push(0x62)?;
            put_u32(out, base)?;
            out.push(trust_code(ty.trust))?;
        }
    }
    put_signature(out, ty)
}

/// The first byte of a type entry that is no variant.
pub fn entry_code(trust: Trust) -> u8
    ensures { result ≡ entry_byte trust }
{
    match trust {
        Trust::Untrusted => 0x60,
        Trust::Trusted => 0x61,
    }
}

/// The byte of a trust.
pub fn trust_code(trust: Trust) -> u8
    ensures { result ≡ trust_byte trust }
{
    match trust {
        Trust::Untrusted => 0x00,
        Trust::Trusted => 0x01,
    }
}

/// What an import asks for.
fn put_extern(out: &mut Vec<u8>, kind: &ExternKind) -> Result<(), AllocError>
    ensures { OnOk result (out.new.items ≡ out.old.items ++ extern_text (extern_given kind.now)) }
{
    match kind {
        ExternKind::Func { type_index, .. } => {
            out.push(0x00)?;
            put_u32(out, *type_index)
        }
        ExternKind::Table(limits) => {
            out.push(0x01)?;
            put_table(out, *limits)
        }
        ExternKind::Memory(ty) => {
            out.push(0x02)?;
            put_memory(out, *ty)
        }
        ExternKind::Global(ty) => {
            out.push(0x03)?;
            put_variable(out, *ty)
        }
    }
}

/// An import, whose spelling is shorter than 2^32 bytes.
#[tactic(auto, using(crate::proofs::Shorter::import_short))]
pub(crate) fn put_import(out: &mut Vec<u8>, import: &Import) -> Result<(), AllocError>
    requires { length (import_text (import_given import.now)) < 2 ^ 32 }
    ensures { OnOk result (out.new.items ≡ out.old.items ++ import_text (import_given import.now)) }
{
    put_sized(out, import.module.as_bytes())?;
    put_sized(out, import.name.as_bytes())?;
    put_extern(out, &import.kind)
}

/// The byte of what is exported.
pub fn kind_code(kind: ExternTag) -> u8
    ensures { result ≡ kind_byte kind }
{
    match kind {
        ExternTag::Func => 0x00,
        ExternTag::Table => 0x01,
        ExternTag::Memory => 0x02,
        ExternTag::Global => 0x03,
    }
}

/// An export, whose spelling is shorter than 2^32 bytes.
#[tactic(auto, using(crate::proofs::Shorter::export_short))]
pub(crate) fn put_export(
    out: &mut Vec<u8>,
    name: &str,
    kind: ExternTag,
    index: u32,
) -> Result<(), AllocError>
    requires { length (export_text (export_of name.now kind index)) < 2 ^ 32 }
    ensures { OnOk result (out.new.items ≡ out.old.items ++ export_text (export_of name.now kind index)) }
{
    put_sized(out, name.as_bytes())?;
    out.push(kind_code(kind))?;
    put_u32(out, index)
}

/// A constant expression, whose number fits its width.
pub fn put_constant(out: &mut Vec<u8>, value: ConstExpr) -> Result<(), AllocError>
    requires { IsFitting (constant_of value) }
    ensures { OnOk result (out.new.items ≡ out.old.items ++ constant_text (constant_of value)) }
{
    match value {
        ConstExpr::Const { value, bits } => put_const(out, value.width, value.label, bits)?,
        ConstExpr::Get { global } => {
            out.push(opcode_of(Form::Indexed(Indexed::GlobalGet)))?;
            put_u32(out, global)?;
        }
    }
    out.push(opcode_of(Form::Bare(Bare::End)))?;
    Ok(())
}

/// A defined global, whose initial number fits its width.
pub fn put_global(out: &mut Vec<u8>, ty: GlobalType, init: ConstExpr) -> Result<(), AllocError>
    requires { IsFitting (constant_of init) }
    ensures { OnOk result (out.new.items ≡ out.old.items ++ global_text (global_of ty (constant_of init))) }
{
    put_variable(out, ty)?;
    put_constant(out, init)
}

/// A data segment, whose spelling is shorter than 2^32 bytes and whose offset fits its width.
#[tactic(auto, using(crate::proofs::Shorter::segment_short))]
pub fn put_segment(out: &mut Vec<u8>, segment: &Segment) -> Result<(), AllocError>
    requires fits { IsFitting segment.now.offset }
    requires short { length (segment_text segment.now) < 2 ^ 32 }
    ensures { OnOk result (out.new.items ≡ out.old.items ++ segment_text segment.now) }
{
    put_u32(out, segment.memory)?;
    put_constant(out, segment.offset)?;
    put_sized(out, segment.bytes)
}

/// An element.
pub(crate) fn put_element(out: &mut Vec<u8>, element: &Element) -> Result<(), AllocError>
    requires { IsFitting element.now.offset }
    ensures { OnOk result (out.new.items ≡ out.old.items ++ element_text element.now) }
{
    put_u32(out, element.table)?;
    put_constant(out, element.offset)?;
    put_functions(out, element)
}

/// The functions of an element behind their count.
pub fn put_functions(out: &mut Vec<u8>, element: &Element) -> Result<(), AllocError>
    ensures { OnOk result (out.new.items ≡ out.old.items ++ vector_text u32_text element.now.functions) }
{
    let count = element.count();
    put_u32(out, count)?;
    for i in 0..count {
        put_u32(out, element.func(i))?;
    }
    Ok(())
}
