//! Appending the sections of a module that erasing changes, but code. Where memory runs out, some bytes may be there.
ghost use Rattle.std.specs.Prelude.{◌≡◌, ◌<◌, ◌^◌, ◌++◌, length, slice_get, option_map, Some, OnOk, All};
ghost use Rattle.ctw_ops.specs.declared.types.Label.{Label};
ghost use Rattle.ctw_ops.specs.Tree.{Global as TreeGlobal, Element as TreeElement, Segment as TreeSegment};
ghost use Rattle.ctw_ops.specs.Typing.{optional};
ghost use Rattle.ctw_ops.specs.Valid.{IsFitting};
ghost use Rattle.ctw_ops.specs.Erasure.{erase_entries, erase_global, erase_element, erase_segment, erase_module};
ghost use Rattle.ctw_leb.specs.Spelling.{u32_text};
ghost use Rattle.ctw_form.specs.Shown.{constant_of};
ghost use Rattle.ctw_module.specs.Trees.{tree};
ghost use Rattle.ctw_write.specs.Canon.{vector_text, type_entry_text, import_text, memory_text, global_text, element_text, segment_text, items_text};
ghost use Rattle.ctw_strip.specs.Stripped.{HasShortTexts};

use crate::item::{
    base_index, erased_memory, put_erased_element, put_erased_global, put_erased_segment,
    put_import, put_kept,
};
use ctw_leb::put_u32;
use ctw_module::{Global1, Module};
use ctw_ops::ExternTag;
use ctw_write::text::{put_memory, put_section};
use std::alloc::{AllocError, Global};

/// How many type entries are kept: those that are no variants.
fn kept_count(m: &Module) -> u32
    ensures { result ≡ length (erase_entries (tree m.now).types) }
{
    let mut count = 0;
    for i in 0..m.type_count() {
        if m.variant_of(i).is_none() {
            count += 1;
        }
    }
    count
}

/// The type entries that are kept, behind their count.
fn types(out: &mut Vec<u8>, m: &Module) -> Result<(), AllocError>
    requires { HasShortTexts (tree m.now) }
    ensures { OnOk result (out.new.items
        ≡ out.old.items ++ vector_text type_entry_text (erase_module (tree m.now)).types) }
{
    put_u32(out, kept_count(m))?;
    for i in 0..m.type_count() {
        let base = m.variant_of(i);
        let ty = m.func_type(i);
        put_kept(out, base, &ty)?;
    }
    Ok(())
}

/// The imports behind their count.
fn imports(out: &mut Vec<u8>, m: &Module) -> Result<(), AllocError>
    requires { HasShortTexts (tree m.now) }
    ensures { OnOk result (out.new.items
        ≡ out.old.items ++ vector_text import_text (erase_module (tree m.now)).imports) }
{
    let count = m.import_count();
    put_u32(out, count)?;
    for i in 0..count {
        let import = m.import(i);
        put_import(out, m, &import)?;
    }
    Ok(())
}

/// The type indexes of the defined functions behind their count.
fn uses(out: &mut Vec<u8>, m: &Module) -> Result<(), AllocError>
    ensures { OnOk result (out.new.items
        ≡ out.old.items ++ vector_text (λ f. u32_text f.type) (erase_module (tree m.now)).functions) }
{
    let imported = m.imported_count(ExternTag::Func);
    let count = m.func_count() - imported;
    put_u32(out, count)?;
    for i in 0..count {
        put_u32(out, base_index(m, m.type_of_func(imported + i)))?;
    }
    Ok(())
}

/// A defined global of a view.
fn put_defined(out: &mut Vec<u8>, global: Global1) -> Result<(), AllocError>
    requires { (tree : TreeGlobal Label) × (global.ty ≡ tree.type)
        × (option_map constant_of global.init ≡ Some tree.init) × IsFitting tree.init }
    ensures { (tree : TreeGlobal Label) → global.ty ≡ tree.type → option_map constant_of global.init ≡ Some tree.init
        → OnOk result (out.new.items ≡ out.old.items ++ global_text (erase_global tree)) }
{
    let Global1 { ty, init } = global;
    let Some(init) = init else {
        unreachable!();
    };
    put_erased_global(out, ty, init)
}

/// The defined globals behind their count.
fn globals(out: &mut Vec<u8>, m: &Module) -> Result<(), AllocError>
    requires { All (λ g. IsFitting g.init) (tree m.now).globals }
    ensures { OnOk result (out.new.items
        ≡ out.old.items ++ vector_text global_text (erase_module (tree m.now)).globals) }
{
    let imported = m.imported_count(ExternTag::Global);
    let count = m.global_count() - imported;
    put_u32(out, count)?;
    for i in 0..count {
        put_defined(out, m.global(imported + i))?;
    }
    Ok(())
}

/// An element by its index, which is below their count.
fn put_nth_element(out: &mut Vec<u8>, m: &Module, i: u32) -> Result<(), AllocError>
    requires there { i < length (tree m.now).elements }
    requires fits { All (λ e. IsFitting e.offset) (tree m.now).elements }
    ensures { (element : TreeElement Label) → slice_get (tree m.now).elements i ≡ Some element
        → OnOk result (out.new.items ≡ out.old.items ++ element_text (erase_element element)) }
{
    let Some(element) = m.element(i) else {
        unreachable!();
    };
    put_erased_element(out, &element)
}

/// The elements behind their count.
fn elements(out: &mut Vec<u8>, m: &Module) -> Result<(), AllocError>
    requires { All (λ e. IsFitting e.offset) (tree m.now).elements }
    ensures { OnOk result (out.new.items
        ≡ out.old.items ++ vector_text element_text (erase_module (tree m.now)).elements) }
{
    let count = m.element_count();
    put_u32(out, count)?;
    for i in 0..count {
        put_nth_element(out, m, i)?;
    }
    Ok(())
}

/// A data segment by its index, which is below their count.
fn put_nth_segment(out: &mut Vec<u8>, m: &Module, i: u32) -> Result<(), AllocError>
    requires there { i < length (tree m.now).segments }
    requires fits { All (λ s. IsFitting s.offset) (tree m.now).segments }
    requires short { HasShortTexts (tree m.now) }
    ensures { (segment : TreeSegment Label) → slice_get (tree m.now).segments i ≡ Some segment
        → OnOk result (out.new.items ≡ out.old.items ++ segment_text (erase_segment segment)) }
{
    let Some(segment) = m.segment(i) else {
        unreachable!();
    };
    put_erased_segment(out, &segment)
}

/// The data segments behind their count.
fn segments(out: &mut Vec<u8>, m: &Module) -> Result<(), AllocError>
    requires fits { All (λ s. IsFitting s.offset) (tree m.now).segments }
    requires short { HasShortTexts (tree m.now) }
    ensures { OnOk result (out.new.items
        ≡ out.old.items ++ vector_text segment_text (erase_module (tree m.now)).segments) }
{
    let count = m.segment_count();
    put_u32(out, count)?;
    for i in 0..count {
        put_nth_segment(out, m, i)?;
    }
    Ok(())
}

/// The section of type entries, if some are kept.
pub(crate) fn put_types(alloc: Global, out: &mut Vec<u8>, m: &Module) -> Result<(), AllocError>
    requires { HasShortTexts (tree m.now) }
    ensures { OnOk result (out.new.items
        ≡ out.old.items ++ items_text 1 type_entry_text (erase_module (tree m.now)).types) }
{
    if kept_count(m) == 0 {
        return Ok(());
    }
    let mut contents = Vec::new(alloc);
    types(&mut contents, m)?;
    put_section(out, 1, &contents)
}

/// The section of imports, if there are some.
pub(crate) fn put_imports(alloc: Global, out: &mut Vec<u8>, m: &Module) -> Result<(), AllocError>
    requires { HasShortTexts (tree m.now) }
    ensures { OnOk result (out.new.items
        ≡ out.old.items ++ items_text 2 import_text (erase_module (tree m.now)).imports) }
{
    if m.import_count() == 0 {
        return Ok(());
    }
    let mut contents = Vec::new(alloc);
    imports(&mut contents, m)?;
    put_section(out, 2, &contents)
}

/// The section of the defined functions' types, if there are some.
pub(crate) fn put_uses(alloc: Global, out: &mut Vec<u8>, m: &Module) -> Result<(), AllocError>
    requires { HasShortTexts (tree m.now) }
    ensures { OnOk result (out.new.items
        ≡ out.old.items ++ items_text 3 (λ f. u32_text f.type) (erase_module (tree m.now)).functions) }
{
    if m.func_count() == m.imported_count(ExternTag::Func) {
        return Ok(());
    }
    let mut contents = Vec::new(alloc);
    uses(&mut contents, m)?;
    put_section(out, 3, &contents)
}

/// The section of the defined memory, if there is one.
pub(crate) fn put_memories(alloc: Global, out: &mut Vec<u8>, m: &Module) -> Result<(), AllocError>
    requires { HasShortTexts (tree m.now) }
    ensures { OnOk result (out.new.items
        ≡ out.old.items ++ items_text 5 memory_text (optional (erase_module (tree m.now)).memory)) }
{
    match m.defined_memory() {
        None => Ok(()),
        Some(ty) => {
            let mut contents = Vec::new(alloc);
            put_u32(&mut contents, 1)?;
            put_memory(&mut contents, erased_memory(ty))?;
            put_section(out, 5, &contents)
        }
    }
}

/// The section of the defined globals, if there are some.
pub(crate) fn put_globals(alloc: Global, out: &mut Vec<u8>, m: &Module) -> Result<(), AllocError>
    requires short { HasShortTexts (tree m.now) }
    requires fits { All (λ g. IsFitting g.init) (tree m.now).globals }
    ensures { OnOk result (out.new.items
        ≡ out.old.items ++ items_text 6 global_text (erase_module (tree m.now)).globals) }
{
    if m.global_count() == m.imported_count(ExternTag::Global) {
        return Ok(());
    }
    let mut contents = Vec::new(alloc);
    globals(&mut contents, m)?;
    put_section(out, 6, &contents)
}

/// The section of elements, if there are some.
pub(crate) fn put_elements(alloc: Global, out: &mut Vec<u8>, m: &Module) -> Result<(), AllocError>
    requires short { HasShortTexts (tree m.now) }
    requires fits { All (λ e. IsFitting e.offset) (tree m.now).elements }
    ensures { OnOk result (out.new.items
        ≡ out.old.items ++ items_text 9 element_text (erase_module (tree m.now)).elements) }
{
    if m.element_count() == 0 {
        return Ok(());
    }
    let mut contents = Vec::new(alloc);
    elements(&mut contents, m)?;
    put_section(out, 9, &contents)
}

/// The section of data segments, if there are some.
pub(crate) fn put_segments(alloc: Global, out: &mut Vec<u8>, m: &Module) -> Result<(), AllocError>
    requires short { HasShortTexts (tree m.now) }
    requires fits { All (λ s. IsFitting s.offset) (tree m.now).segments }
    ensures { OnOk result (out.new.items
        ≡ out.old.items ++ items_text 11 segment_text (erase_module (tree m.now)).segments) }
{
    if m.segment_count() == 0 {
        return Ok(());
    }
    let mut contents = Vec::new(alloc);
    segments(&mut contents, m)?;
    put_section(out, 11, &contents)
}
