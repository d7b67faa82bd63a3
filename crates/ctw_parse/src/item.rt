//! Appending what the parts of a module are spelled by. Where memory runs out, some bytes may be there. A count or a
//! size of 2^32 or more has no spelling; it is answered as want of memory.
ghost use Rattle.std.specs.Prelude.{◌≡◌, ◌<◌, ◌^◌, ◌++◌, OnOk, IfOk, length};
ghost use Rattle.ctw_ops.specs.Valid.{IsFitting};
ghost use Rattle.ctw_leb.specs.Spelling.{u32_text};
ghost use Rattle.ctw_form.specs.Shown.{constant_of as constant_in};
ghost use Rattle.ctw_names.specs.Wides.{constant_of, extern_in};
ghost use Rattle.ctw_write.specs.Canon.{all_texts, vector_text, sized_text, type_text, section_text, extern_text, import_text, export_text, constant_text, global_text, element_text, segment_text, custom_text, table_text, memory_text};
ghost use Rattle.ctw_write.specs.KeepsLimits.{Is32, IsShort, AreSizes, IsLimitedExtern, IsLimitedConstant, IsLimitedElement, IsLimitedSegment};
ghost use Rattle.ctw_parse.specs.WideCanon.{wide_signature_text, wide_entry_text};
ghost use Rattle.ctw_parse.specs.Numbers.{IsNumberedEntry};

use crate::code::put_numbers;
use ctw_flat::byte_of_type;
use ctw_leb::put_u32;
use ctw_module::ConstExpr;
use ctw_names::{
    Spelled, WideConstant, WideCustom, WideElement, WideEntry, WideExport, WideExtern, WideGlobal,
    WideImport, WideSegment,
};
use ctw_ops::{Limits, MemType, ValType};
use ctw_write::text::{
    entry_code, kind_code, put_constant, put_global, put_memory, put_section, put_sized, put_table,
    put_variable, trust_code,
};
use std::alloc::{AllocError, Global};

/// A count as a number of 32 bits.
pub(crate) fn count_of(count: usize) -> Result<u32, AllocError>
    ensures same { IfOk result (λ n. n ≡ count) }
    ensures small { IfOk result (λ n. n < 2 ^ 32) }
{
    if count > u32::MAX as usize {
        return Err(AllocError);
    }
    Ok(count as u32)
}

/// A count.
pub(crate) fn put_count(out: &mut Vec<u8>, count: usize) -> Result<(), AllocError>
    ensures { OnOk result (out.new.items ≡ out.old.items ++ u32_text count) }
{
    let count = count_of(count)?;
    put_u32(out, count)
}

/// Bytes behind their size.
pub(crate) fn put_bytes(out: &mut Vec<u8>, bytes: &[u8]) -> Result<(), AllocError>
    ensures written { OnOk result (out.new.items ≡ out.old.items ++ sized_text bytes.now) }
    ensures small { OnOk result (length bytes.now < 2 ^ 32) }
{
    count_of(bytes.len())?;
    put_sized(out, bytes)
}

/// A section with these contents.
pub(crate) fn put_contents(out: &mut Vec<u8>, id: u8, contents: &[u8]) -> Result<(), AllocError>
    ensures written { OnOk result (out.new.items ≡ out.old.items ++ section_text id contents.now) }
    ensures small { OnOk result (length contents.now < 2 ^ 32) }
{
    count_of(contents.len())?;
    put_section(out, id, contents)
}

/// Types behind their count.
fn put_types(out: &mut Vec<u8>, types: &[ValType]) -> Result<(), AllocError>
    ensures { OnOk result (out.new.items ≡ out.old.items ++ vector_text type_text types.now) }
{
    put_count(out, types.len())?;
    'types: for t in types {
        out.push(byte_of_type(*t))?;
    }
    Ok(())
}

/// The parameters and the results of a type.
fn put_signature(out: &mut Vec<u8>, ty: &Spelled) -> Result<(), AllocError>
    ensures { OnOk result (out.new.items ≡ out.old.items ++ wide_signature_text ty.now) }
{
    put_types(out, ty.params.as_slice())?;
    put_types(out, ty.results.as_slice())
}

/// An entry of the types, perhaps a variant of another.
pub(crate) fn put_entry(out: &mut Vec<u8>, entry: &WideEntry) -> Result<(), AllocError>
    ensures written { OnOk result (out.new.items ≡ out.old.items ++ wide_entry_text entry.now) }
    ensures numbers { OnOk result (IsNumberedEntry entry.now) }
{
    match entry.base {
        None => out.push(entry_code(entry.ty.trust))?,
        Some(base) => {
            out.push(0x62)?;
            put_u32(out, base)?;
            out.push(trust_code(entry.ty.trust))?;
        }
    }
    put_signature(out, &entry.ty)
}

/// The sizes of a table.
pub(crate) fn put_table_type(out: &mut Vec<u8>, limits: Limits) -> Result<(), AllocError>
    ensures written { OnOk result (out.new.items ≡ out.old.items ++ table_text limits) }
    ensures numbers { AreSizes limits }
{
    put_table(out, limits)
}

/// The type of a memory.
pub(crate) fn put_memory_type(out: &mut Vec<u8>, ty: MemType) -> Result<(), AllocError>
    ensures written { OnOk result (out.new.items ≡ out.old.items ++ memory_text ty) }
    ensures numbers { AreSizes ty.limits }
{
    put_memory(out, ty)
}

/// What an import asks for.
fn put_extern(out: &mut Vec<u8>, kind: &WideExtern) -> Result<(), AllocError>
    ensures written { OnOk result (out.new.items ≡ out.old.items ++ extern_text (extern_in kind.now)) }
    ensures numbers { OnOk result (IsLimitedExtern (extern_in kind.now)) }
{
    match kind {
        WideExtern::Function(index) => {
            out.push(0x00)?;
            put_u32(out, *index)
        }
        WideExtern::Table(limits) => {
            out.push(0x01)?;
            put_table_type(out, *limits)
        }
        WideExtern::Memory(ty) => {
            out.push(0x02)?;
            put_memory_type(out, *ty)
        }
        WideExtern::Global(ty) => {
            out.push(0x03)?;
            put_variable(out, *ty)
        }
    }
}

/// An import.
pub(crate) fn put_import(out: &mut Vec<u8>, import: &WideImport) -> Result<(), AllocError>
    ensures written { OnOk result (out.new.items ≡ out.old.items ++ import_text import.now) }
    ensures numbers { OnOk result (IsLimitedExtern import.now.kind) }
{
    put_bytes(out, import.module_name.as_slice())?;
    put_bytes(out, import.name.as_slice())?;
    put_extern(out, &import.kind)
}

/// An export.
pub(crate) fn put_export(out: &mut Vec<u8>, export: &WideExport) -> Result<(), AllocError>
    ensures written { OnOk result (out.new.items ≡ out.old.items ++ export_text export.now) }
    ensures numbers { OnOk result (Is32 export.now.index) }
{
    put_bytes(out, export.name.as_slice())?;
    out.push(kind_code(export.kind))?;
    put_u32(out, export.index)
}

/// A constant expression as a reader has it.
fn expression(constant: WideConstant) -> ConstExpr
    ensures same { constant_in result ≡ constant_of constant }
    ensures numbers { IsLimitedConstant (constant_of constant) }
{
    match constant {
        WideConstant::Number(value, bits) => ConstExpr::Const { value, bits },
        WideConstant::ValueOf(global) => ConstExpr::Get { global },
    }
}

/// A defined global.
pub(crate) fn put_defined(out: &mut Vec<u8>, global: &WideGlobal) -> Result<(), AllocError>
    requires { IsFitting global.now.init }
    ensures written { OnOk result (out.new.items ≡ out.old.items ++ global_text global.now) }
    ensures numbers { OnOk result (IsLimitedConstant global.now.init) }
{
    put_global(out, global.ty, expression(global.init))
}

/// Functions that are put into a table.
pub(crate) fn put_element(out: &mut Vec<u8>, element: &WideElement) -> Result<(), AllocError>
    requires { IsFitting element.now.offset }
    ensures written { OnOk result (out.new.items ≡ out.old.items ++ element_text element.now) }
    ensures numbers { OnOk result (IsLimitedElement element.now) }
{
    put_u32(out, element.table)?;
    put_constant(out, expression(element.offset))?;
    put_count(out, element.functions.len())?;
    put_numbers(out, element.functions.as_slice())
}

/// Bytes that are put into a memory.
pub(crate) fn put_segment(out: &mut Vec<u8>, segment: &WideSegment) -> Result<(), AllocError>
    requires { IsFitting segment.now.offset }
    ensures written { OnOk result (out.new.items ≡ out.old.items ++ segment_text segment.now) }
    ensures numbers { OnOk result (IsLimitedSegment segment.now) }
{
    put_u32(out, segment.memory)?;
    put_constant(out, expression(segment.offset))?;
    put_bytes(out, segment.bytes.as_slice())
}

/// A custom section.
pub(crate) fn put_custom(
    alloc: Global,
    out: &mut Vec<u8>,
    custom: &WideCustom,
) -> Result<(), AllocError>
    ensures written { OnOk result (out.new.items ≡ out.old.items ++ custom_text custom.now) }
    ensures size { OnOk result (IsShort (sized_text custom.now.name ++ custom.now.bytes)) }
{
    let mut contents = Vec::new(alloc);
    put_bytes(&mut contents, custom.name.as_slice())?;
    contents.extend_from_slice(custom.bytes.as_slice())?;
    put_contents(out, 0, &contents)
}
