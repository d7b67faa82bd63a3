//! Appending the sections of a module but code. Where memory runs out, some bytes may be there. The canonical spelling of
//! the module is shorter than 2^32 bytes, and so is each section then.
ghost use Rattle.std.specs.Prelude.{◌≡◌, ◌+◌, ◌<◌, ◌^◌, ◌++◌, ◌∷◌, [], ℕ, length, List, slice_get, map, option_map, Some, OnOk, All};
ghost use Rattle.ctw_ops.specs.declared.types.Label.{Label};
ghost use Rattle.ctw_ops.specs.Tree.{Global as TreeGlobal, Element as TreeElement, Segment as TreeSegment, Custom as TreeCustom};
ghost use Rattle.ctw_ops.specs.Typing.{optional};
ghost use Rattle.ctw_leb.specs.Spelling.{u32_text};
ghost use Rattle.ctw_module.specs.Trees.{tree};
ghost use Rattle.ctw_form.specs.Shown.{constant_of};
ghost use Rattle.ctw_write.specs.Canon.{vector_text, type_entry_text, import_text, table_text, memory_text, global_text, export_text, element_text, segment_text, items_text, start_text, custom_text, customs_text, canon};
ghost use Rattle.ctw_ops.specs.Valid.{IsFitting};

use crate::text::{
    put_element, put_export, put_global, put_import, put_memory, put_section, put_segment,
    put_sized, put_table, put_type_entry,
};
use ctw_leb::put_u32;
use ctw_module::{Custom, Global1, Module};
use ctw_ops::ExternTag;
use std::alloc::{AllocError, Global};

/// The type entries behind their count.
fn types(out: &mut Vec<u8>, m: &Module) -> Result<(), AllocError>
    requires { length (items_text 1 type_entry_text (tree m.now).types) < 2 ^ 32 }
    ensures { OnOk result (out.new.items ≡ out.old.items ++ vector_text type_entry_text (tree m.now).types) }
{
    let count = m.type_count();
    put_u32(out, count)?;
    for i in 0..count {
        let base = m.variant_of(i);
        let ty = m.func_type(i);
        put_type_entry(out, base, &ty)?;
    }
    Ok(())
}

/// The imports behind their count.
fn imports(out: &mut Vec<u8>, m: &Module) -> Result<(), AllocError>
    requires { length (items_text 2 import_text (tree m.now).imports) < 2 ^ 32 }
    ensures { OnOk result (out.new.items ≡ out.old.items ++ vector_text import_text (tree m.now).imports) }
{
    let count = m.import_count();
    put_u32(out, count)?;
    for i in 0..count {
        let import = m.import(i);
        put_import(out, &import)?;
    }
    Ok(())
}

/// The type indexes of the defined functions behind their count.
fn uses(out: &mut Vec<u8>, m: &Module) -> Result<(), AllocError>
    ensures { OnOk result (out.new.items ≡ out.old.items ++ vector_text (λ f. u32_text f.type) (tree m.now).functions) }
{
    let imported = m.imported_count(ExternTag::Func);
    let count = m.func_count() - imported;
    put_u32(out, count)?;
    for i in 0..count {
        put_u32(out, m.type_of_func(imported + i))?;
    }
    Ok(())
}

/// The exports behind their count.
fn exports(out: &mut Vec<u8>, m: &Module) -> Result<(), AllocError>
    requires { length (items_text 7 export_text (tree m.now).exports) < 2 ^ 32 }
    ensures { OnOk result (out.new.items ≡ out.old.items ++ vector_text export_text (tree m.now).exports) }
{
    let count = m.export_count();
    put_u32(out, count)?;
    for i in 0..count {
        let (name, kind, index) = m.export(i);
        put_export(out, name, kind, index)?;
    }
    Ok(())
}

/// A defined global of a view.
fn put_defined(out: &mut Vec<u8>, global: Global1) -> Result<(), AllocError>
    requires { (tree : TreeGlobal Label) × (global.ty ≡ tree.type)
        × (option_map constant_of global.init ≡ Some tree.init) × IsFitting tree.init }
    ensures { (tree : TreeGlobal Label) → global.ty ≡ tree.type → option_map constant_of global.init ≡ Some tree.init
        → OnOk result (out.new.items ≡ out.old.items ++ global_text tree) }
{
    let Global1 { ty, init } = global;
    let Some(init) = init else {
        unreachable!();
    };
    put_global(out, ty, init)
}

/// The defined globals behind their count.
fn globals(out: &mut Vec<u8>, m: &Module) -> Result<(), AllocError>
    requires { All (λ g. IsFitting g.init) (tree m.now).globals }
    ensures { OnOk result (out.new.items ≡ out.old.items ++ vector_text global_text (tree m.now).globals) }
{
    let imported = m.imported_count(ExternTag::Global);
    let count = m.global_count() - imported;
    put_u32(out, count)?;
    for i in 0..count {
        put_defined(out, m.global(imported + i))?;
    }
    Ok(())
}

/// An element by its index, which is below their count.
fn put_nth_element(out: &mut Vec<u8>, m: &Module, i: u32) -> Result<(), AllocError>
    requires there { i < length (tree m.now).elements }
    requires fits { All (λ e. IsFitting e.offset) (tree m.now).elements }
    ensures { (element : TreeElement Label) → slice_get (tree m.now).elements i ≡ Some element
        → OnOk result (out.new.items ≡ out.old.items ++ element_text element) }
{
    let Some(element) = m.element(i) else {
        unreachable!();
    };
    put_element(out, &element)
}

/// The elements behind their count.
fn elements(out: &mut Vec<u8>, m: &Module) -> Result<(), AllocError>
    requires { All (λ e. IsFitting e.offset) (tree m.now).elements }
    ensures { OnOk result (out.new.items ≡ out.old.items ++ vector_text element_text (tree m.now).elements) }
{
    let count = m.element_count();
    put_u32(out, count)?;
    for i in 0..count {
        put_nth_element(out, m, i)?;
    }
    Ok(())
}

/// A data segment by its index, which is below their count.
fn put_nth_segment(out: &mut Vec<u8>, m: &Module, i: u32) -> Result<(), AllocError>
    requires there { i < length (tree m.now).segments }
    requires fits { All (λ s. IsFitting s.offset) (tree m.now).segments }
    requires short { length (items_text 11 segment_text (tree m.now).segments) < 2 ^ 32 }
    ensures { (segment : TreeSegment Label) → slice_get (tree m.now).segments i ≡ Some segment
        → OnOk result (out.new.items ≡ out.old.items ++ segment_text segment) }
{
    let Some(segment) = m.segment(i) else {
        unreachable!();
    };
    put_segment(out, &segment)
}

/// The data segments behind their count.
fn segments(out: &mut Vec<u8>, m: &Module) -> Result<(), AllocError>
    requires fits { All (λ s. IsFitting s.offset) (tree m.now).segments }
    requires short { length (items_text 11 segment_text (tree m.now).segments) < 2 ^ 32 }
    ensures { OnOk result (out.new.items ≡ out.old.items ++ vector_text segment_text (tree m.now).segments) }
{
    let count = m.segment_count();
    put_u32(out, count)?;
    for i in 0..count {
        put_nth_segment(out, m, i)?;
    }
    Ok(())
}

/// A custom section, whose text is shorter than 2^32 bytes.
fn put_custom(alloc: Global, out: &mut Vec<u8>, custom: &Custom) -> Result<(), AllocError>
    requires { length (custom_text custom.now) < 2 ^ 32 }
    ensures { OnOk result (out.new.items ≡ out.old.items ++ custom_text custom.now) }
{
    let mut contents = Vec::new(alloc);
    put_sized(&mut contents, custom.name.as_bytes())?;
    contents.extend_from_slice(custom.bytes)?;
    put_section(out, 0, &contents)
}

/// A custom section, if it has this place.
fn put_placed(
    alloc: Global,
    out: &mut Vec<u8>,
    custom: &Custom,
    place: u8,
) -> Result<(), AllocError>
    requires { length (customs_text place (custom.now ∷ [])) < 2 ^ 32 }
    ensures { OnOk result (out.new.items ≡ out.old.items ++ customs_text place (custom.now ∷ [])) }
{
    if custom.place == place {
        put_custom(alloc, out, custom)
    } else {
        Ok(())
    }
}

/// The custom sections of a place, which is below 12.
pub fn put_customs(
    alloc: Global,
    out: &mut Vec<u8>,
    m: &Module,
    place: u8,
) -> Result<(), AllocError>
    requires short { length (canon (tree m.now)) < 2 ^ 32 }
    requires place { place < 12 }
    ensures { OnOk result (out.new.items ≡ out.old.items ++ customs_text place (tree m.now).customs) }
{
    for i in 0..m.custom_count() {
        let Some(custom) = m.custom(i) else {
            unreachable!();
        };
        put_placed(alloc, out, &custom, place)?;
    }
    Ok(())
}

/// The section of type entries, if there are some.
pub(crate) fn put_types(alloc: Global, out: &mut Vec<u8>, m: &Module) -> Result<(), AllocError>
    requires { length (canon (tree m.now)) < 2 ^ 32 }
    ensures { OnOk result (out.new.items ≡ out.old.items ++ items_text 1 type_entry_text (tree m.now).types) }
{
    if m.type_count() == 0 {
        return Ok(());
    }
    let mut contents = Vec::new(alloc);
    types(&mut contents, m)?;
    put_section(out, 1, &contents)
}

/// The section of imports, if there are some.
pub(crate) fn put_imports(alloc: Global, out: &mut Vec<u8>, m: &Module) -> Result<(), AllocError>
    requires { length (canon (tree m.now)) < 2 ^ 32 }
    ensures { OnOk result (out.new.items ≡ out.old.items ++ items_text 2 import_text (tree m.now).imports) }
{
    if m.import_count() == 0 {
        return Ok(());
    }
    let mut contents = Vec::new(alloc);
    imports(&mut contents, m)?;
    put_section(out, 2, &contents)
}

/// The section of the defined functions' types, if there are some.
pub(crate) fn put_uses(alloc: Global, out: &mut Vec<u8>, m: &Module) -> Result<(), AllocError>
    requires { length (canon (tree m.now)) < 2 ^ 32 }
    ensures { OnOk result (out.new.items
        ≡ out.old.items ++ items_text 3 (λ f. u32_text f.type) (tree m.now).functions) }
{
    if m.func_count() == m.imported_count(ExternTag::Func) {
        return Ok(());
    }
    let mut contents = Vec::new(alloc);
    uses(&mut contents, m)?;
    put_section(out, 3, &contents)
}

/// The section of the defined table, if there is one.
pub fn put_tables(alloc: Global, out: &mut Vec<u8>, m: &Module) -> Result<(), AllocError>
    requires { length (canon (tree m.now)) < 2 ^ 32 }
    ensures { OnOk result (out.new.items ≡ out.old.items ++ items_text 4 table_text (optional (tree m.now).table)) }
{
    match m.defined_table() {
        None => Ok(()),
        Some(limits) => {
            let mut contents = Vec::new(alloc);
            put_u32(&mut contents, 1)?;
            put_table(&mut contents, limits)?;
            put_section(out, 4, &contents)
        }
    }
}

/// The section of the defined memory, if there is one.
pub(crate) fn put_memories(alloc: Global, out: &mut Vec<u8>, m: &Module) -> Result<(), AllocError>
    requires { length (canon (tree m.now)) < 2 ^ 32 }
    ensures { OnOk result (out.new.items ≡ out.old.items ++ items_text 5 memory_text (optional (tree m.now).memory)) }
{
    match m.defined_memory() {
        None => Ok(()),
        Some(ty) => {
            let mut contents = Vec::new(alloc);
            put_u32(&mut contents, 1)?;
            put_memory(&mut contents, ty)?;
            put_section(out, 5, &contents)
        }
    }
}

/// The section of the defined globals, if there are some.
pub(crate) fn put_globals(alloc: Global, out: &mut Vec<u8>, m: &Module) -> Result<(), AllocError>
    requires short { length (canon (tree m.now)) < 2 ^ 32 }
    requires fits { All (λ g. IsFitting g.init) (tree m.now).globals }
    ensures { OnOk result (out.new.items ≡ out.old.items ++ items_text 6 global_text (tree m.now).globals) }
{
    if m.global_count() == m.imported_count(ExternTag::Global) {
        return Ok(());
    }
    let mut contents = Vec::new(alloc);
    globals(&mut contents, m)?;
    put_section(out, 6, &contents)
}

/// The section of exports, if there are some.
pub fn put_exports(alloc: Global, out: &mut Vec<u8>, m: &Module) -> Result<(), AllocError>
    requires { length (canon (tree m.now)) < 2 ^ 32 }
    ensures { OnOk result (out.new.items ≡ out.old.items ++ items_text 7 export_text (tree m.now).exports) }
{
    if m.export_count() == 0 {
        return Ok(());
    }
    let mut contents = Vec::new(alloc);
    exports(&mut contents, m)?;
    put_section(out, 7, &contents)
}

/// The section of the start function, if there is one.
pub fn put_start(alloc: Global, out: &mut Vec<u8>, m: &Module) -> Result<(), AllocError>
    requires { length (canon (tree m.now)) < 2 ^ 32 }
    ensures { OnOk result (out.new.items ≡ out.old.items ++ start_text (tree m.now).start) }
{
    match m.start() {
        None => Ok(()),
        Some(function) => {
            let mut contents = Vec::new(alloc);
            put_u32(&mut contents, function)?;
            put_section(out, 8, &contents)
        }
    }
}

/// The section of elements, if there are some.
pub(crate) fn put_elements(alloc: Global, out: &mut Vec<u8>, m: &Module) -> Result<(), AllocError>
    requires short { length (canon (tree m.now)) < 2 ^ 32 }
    requires fits { All (λ e. IsFitting e.offset) (tree m.now).elements }
    ensures { OnOk result (out.new.items ≡ out.old.items ++ items_text 9 element_text (tree m.now).elements) }
{
    if m.element_count() == 0 {
        return Ok(());
    }
    let mut contents = Vec::new(alloc);
    elements(&mut contents, m)?;
    put_section(out, 9, &contents)
}

/// The section of data segments, if there are some.
pub(crate) fn put_segments(alloc: Global, out: &mut Vec<u8>, m: &Module) -> Result<(), AllocError>
    requires short { length (canon (tree m.now)) < 2 ^ 32 }
    requires fits { All (λ s. IsFitting s.offset) (tree m.now).segments }
    ensures { OnOk result (out.new.items ≡ out.old.items ++ items_text 11 segment_text (tree m.now).segments) }
{
    if m.segment_count() == 0 {
        return Ok(());
    }
    let mut contents = Vec::new(alloc);
    segments(&mut contents, m)?;
    put_section(out, 11, &contents)
}
