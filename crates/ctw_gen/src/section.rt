//! Appending the sections of a workload's module. Where memory runs out, some bytes may be there.
ghost use Rattle.std.specs.Prelude.{◌≡◌, ◌<◌, ◌≤◌, ◌^◌, ◌*◌, ◌++◌, ℕ, length, IsTrue, OnOk};
ghost use Rattle.std.specs.List.{list_all};
ghost use Rattle.ctw_ops.specs.declared.types.ExternTag.{ExternTag};
ghost use Rattle.ctw_ops.specs.Types.{byte_types, is_type_byte};
ghost use Rattle.ctw_ops.specs.Typing.{optional};
ghost use Rattle.ctw_leb.specs.Spelling.{u32_text};
ghost use Rattle.ctw_form.specs.Spelled.{export_of};
ghost use Rattle.ctw_write.specs.Canon.{vector_text, kind_byte, type_entry_text, memory_text, export_text, code_text, items_text};
ghost use Rattle.ctw_gen.specs.Draws.{state};
ghost use Rattle.ctw_gen.specs.Workload.{type_entry, functions, workload_module};

use crate::code::{put_main, put_numbered};
use crate::draws::Draws;
use ctw_flat::byte_of_type;
use ctw_leb::put_u32;
use ctw_ops::{Label, Limits, MemType, ValType, Width};
use ctw_write::text::{put_memory, put_result, put_section, put_sized};
use std::alloc::{AllocError, Global};

/// i32
const INTEGER: ValType = ValType {
    width: Width::W32,
    label: Label::Public,
};

/// The type of a memory of one page, which has no greatest size.
const ONE_PAGE: MemType = MemType {
    label: Label::Public,
    limits: Limits { min: 1, max: None },
};

/// The byte of an exported function.
const FUNCTION: u8 = 0x00;

/// The byte of an exported memory.
const MEMORY: u8 = 0x02;

/// A function type that gives an integer, by the bytes of its parameters' types.
fn put_type(out: &mut Vec<u8>, params: &[u8]) -> Result<(), AllocError>
    requires types { IsTrue (list_all is_type_byte params.now) }
    requires few { length params.now < 2 ^ 32 }
    ensures { OnOk result (out.new.items ≡ out.old.items ++ type_entry_text (type_entry (byte_types params.now))) }
{
    out.push(0x60)?;
    put_sized(out, params)?;
    put_result(out, Some(INTEGER))
}

/// The section of types: that of the functions that draws make, and that of `main`.
pub(crate) fn put_types(alloc: Global, out: &mut Vec<u8>) -> Result<(), AllocError>
    ensures { (seed size : ℕ) → OnOk result (out.new.items
        ≡ out.old.items ++ items_text 1 type_entry_text (workload_module seed size).types) }
{
    let integer = byte_of_type(INTEGER);
    let mut contents = Vec::new(alloc);
    put_u32(&mut contents, 2)?;
    put_type(&mut contents, &[integer, integer])?;
    put_type(&mut contents, &[integer])?;
    put_section(out, 1, &contents)
}

/// The functions' type entries behind their count.
fn uses(out: &mut Vec<u8>, size: u32) -> Result<(), AllocError>
    requires { size ≤ 20000 }
    ensures { (seed : ℕ) → OnOk result (out.new.items
        ≡ out.old.items ++ vector_text (λ f. u32_text f.type) (functions seed size)) }
{
    put_u32(out, size + 1)?;
    for _ in 0..size {
        put_u32(out, 0)?;
    }
    put_u32(out, 1)
}

/// The section of the functions' types.
pub(crate) fn put_uses(alloc: Global, out: &mut Vec<u8>, size: u32) -> Result<(), AllocError>
    requires { size ≤ 20000 }
    ensures { (seed : ℕ) → OnOk result (out.new.items
        ≡ out.old.items ++ items_text 3 (λ f. u32_text f.type) (functions seed size)) }
{
    let mut contents = Vec::new(alloc);
    uses(&mut contents, size)?;
    put_section(out, 3, &contents)
}

/// The section of the memory.
pub(crate) fn put_memories(alloc: Global, out: &mut Vec<u8>) -> Result<(), AllocError>
    ensures { (seed size : ℕ) → OnOk result (out.new.items
        ≡ out.old.items ++ items_text 5 memory_text (optional (workload_module seed size).memory)) }
{
    let mut contents = Vec::new(alloc);
    put_u32(&mut contents, 1)?;
    put_memory(&mut contents, ONE_PAGE)?;
    put_section(out, 5, &contents)
}

/// An export, by the byte of its kind. The name is shorter than 2^32 bytes.
fn put_export(out: &mut Vec<u8>, name: &str, kind: u8, index: u32) -> Result<(), AllocError>
    requires { length name.now < 2 ^ 32 }
    ensures { (tag : ExternTag) → kind ≡ kind_byte tag
        → OnOk result (out.new.items ≡ out.old.items ++ export_text (export_of name.now tag index)) }
{
    put_sized(out, name.as_bytes())?;
    out.push(kind)?;
    put_u32(out, index)
}

/// The section of exports.
pub(crate) fn put_exports(alloc: Global, out: &mut Vec<u8>, size: u32) -> Result<(), AllocError>
    requires { size ≤ 20000 }
    ensures { (seed : ℕ) → OnOk result (out.new.items
        ≡ out.old.items ++ items_text 7 export_text (workload_module seed size).exports) }
{
    let mut contents = Vec::new(alloc);
    put_u32(&mut contents, 2)?;
    put_export(&mut contents, "main", FUNCTION, size)?;
    put_export(&mut contents, "mem", MEMORY, 0)?;
    put_section(out, 7, &contents)
}

/// The section of code.
pub(crate) fn put_codes(
    alloc: Global,
    out: &mut Vec<u8>,
    draws: &mut Draws,
    size: u32,
) -> Result<(), AllocError>
    requires { size ≤ 20000 }
    ensures written { OnOk result (out.new.items
        ≡ out.old.items ++ items_text 10 code_text (functions draws.old size)) }
    ensures drawn { OnOk result (draws.new ≡ state draws.old (3 * size)) }
{
    let mut contents = Vec::new(alloc);
    put_u32(&mut contents, size + 1)?;
    put_numbered(alloc, &mut contents, draws, size)?;
    put_main(alloc, &mut contents, size)?;
    put_section(out, 10, &contents)
}
