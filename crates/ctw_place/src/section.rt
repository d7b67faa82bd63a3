//! Appending the sections of the placed module. Where memory runs out, some bytes may be there.
ghost use Rattle.std.specs.Prelude.{◌≡◌, ◌+◌, ◌<◌, ◌^◌, ◌++◌, List, slice_get, get_or, length, map, option_map, Some, OnOk, All};
ghost use Rattle.ctw_ops.specs.declared.types.Label.{Label};
ghost use Rattle.ctw_ops.specs.Plain.{IsPlainModule};
ghost use Rattle.ctw_ops.specs.Tree.{Global as TreeGlobal, Element as TreeElement, Segment as TreeSegment};
ghost use Rattle.ctw_ops.specs.Typing.{optional};
ghost use Rattle.ctw_ops.specs.Valid.{IsFitting};
ghost use Rattle.ctw_leb.specs.Spelling.{u32_text};
ghost use Rattle.ctw_form.specs.Shown.{constant_of};
ghost use Rattle.ctw_module.specs.Given.{extern_given};
ghost use Rattle.ctw_module.specs.Trees.{tree};
ghost use Rattle.ctw_labels.specs.Fits.{label_at};
ghost use Rattle.ctw_labels.specs.SitedModule.{memory_site};
ghost use Rattle.ctw_write.specs.Canon.{canon, vector_text, type_entry_text, import_text, memory_text, global_text, element_text, segment_text, code_text, items_text};
ghost use Rattle.ctw_place.specs.Bodies.{placed_of, HasShortTexts};
ghost use Rattle.ctw_place.specs.Items.{global_under, next_function_number, next_global_site};
ghost use Rattle.ctw_place.specs.Made.{IsMade};
ghost use Rattle.ctw_place.specs.Settings.{module_of};

use crate::item::{labelled_memory, put_element, put_entry, put_import, put_labelled_global};
use crate::made::Made;
use crate::setting::Setting;
use ctw_leb::put_u32;
use ctw_module::{ExternKind, Global1, Module};
use ctw_ops::{ExternTag, Label};
use ctw_write::text::{put_memory, put_section, put_segment};
use std::alloc::{AllocError, Global};

/// The index of a function's type; 0 where there is no such function.
fn type_at(types: &[u32], f: u32) -> u32
    ensures { result ≡ get_or types.now f 0 }
{
    let f = f as usize;
    if f >= types.len() {
        return 0;
    }
    types[f]
}

/// The label of the site behind the globals', which is the memory's if there is a memory.
fn memory_label(setting: &Setting) -> Label
    requires { memory_site (module_of setting.now) < 2 ^ 32 }
    ensures { result ≡ label_at setting.now.labels (memory_site (module_of setting.now)) }
{
    setting
        .labels
        .at(setting.globals + setting.whole.global_count())
}

/// The type entries behind their count.
fn types(out: &mut Vec<u8>, setting: &Setting, made: &Made) -> Result<(), AllocError>
    requires plain { IsPlainModule (module_of setting.now) }
    requires made { IsMade setting.now made.now }
    requires short { HasShortTexts setting.now }
    ensures { OnOk result (out.new.items ≡ out.old.items ++ vector_text type_entry_text (placed_of setting.now).types) }
{
    let count = setting.whole.type_count();
    put_u32(out, count + made.variants.count)?;
    for i in 0..count {
        let ty = setting.whole.func_type(i);
        put_entry(out, &ty)?;
    }
    out.extend_from_slice(&made.variants.texts)
}

/// The number of the next function behind an import.
fn next_function(kind: &ExternKind, f: u32) -> u32
    requires { next_function_number (extern_given kind.now) f < 2 ^ 32 }
    ensures { result ≡ next_function_number (extern_given kind.now) f }
{
    match kind {
        ExternKind::Func { .. } => f + 1,
        ExternKind::Table(_) | ExternKind::Memory(_) | ExternKind::Global(_) => f,
    }
}

/// The site of the next global behind an import.
fn next_site(kind: &ExternKind, site: u32) -> u32
    requires { next_global_site (extern_given kind.now) site < 2 ^ 32 }
    ensures { result ≡ next_global_site (extern_given kind.now) site }
{
    match kind {
        ExternKind::Global(_) => site + 1,
        ExternKind::Func { .. } | ExternKind::Table(_) | ExternKind::Memory(_) => site,
    }
}

/// The imports behind their count.
fn imports(out: &mut Vec<u8>, setting: &Setting, made: &Made) -> Result<(), AllocError>
    requires made { IsMade setting.now made.now }
    requires room { memory_site (module_of setting.now) < 2 ^ 32 }
    requires short { HasShortTexts setting.now }
    ensures { OnOk result (out.new.items ≡ out.old.items ++ vector_text import_text (placed_of setting.now).imports) }
{
    let count = setting.whole.import_count();
    let memory = memory_label(setting);
    put_u32(out, count)?;
    let mut f = 0;
    let mut site = setting.globals;
    'imports: for i in 0..count {
        let import = setting.whole.import(i);
        let index = type_at(&made.functions.types, f);
        put_import(out, &import, index, memory, setting.labels.at(site))?;
        f = next_function(&import.kind, f);
        site = next_site(&import.kind, site);
    }
    Ok(())
}

/// The type indexes of the defined functions behind their count.
fn uses(out: &mut Vec<u8>, setting: &Setting, made: &Made) -> Result<(), AllocError>
    requires { IsMade setting.now made.now }
    ensures { OnOk result (out.new.items ≡ out.old.items ++ vector_text (λ f. u32_text f.type) (placed_of setting.now).functions) }
{
    let imported = setting.whole.imported_count(ExternTag::Func);
    let count = setting.whole.func_count() - imported;
    put_u32(out, count)?;
    for i in 0..count {
        put_u32(out, type_at(&made.functions.types, imported + i))?;
    }
    Ok(())
}

/// A defined global with a label.
fn put_defined(out: &mut Vec<u8>, global: Global1, label: Label) -> Result<(), AllocError>
    requires { (tree : TreeGlobal Label) × (global.ty ≡ tree.type)
        × (option_map constant_of global.init ≡ Some tree.init) × IsFitting tree.init }
    ensures { (tree : TreeGlobal Label) → global.ty ≡ tree.type → option_map constant_of global.init ≡ Some tree.init
        → OnOk result (out.new.items ≡ out.old.items ++ global_text (global_under label tree)) }
{
    let Global1 { ty, init } = global;
    match init {
        Some(value) => put_labelled_global(out, ty, value, label),
        None => Ok(()),
    }
}

/// The defined globals behind their count.
fn globals(out: &mut Vec<u8>, setting: &Setting) -> Result<(), AllocError>
    requires room { memory_site (module_of setting.now) < 2 ^ 32 }
    requires fits { All (λ g. IsFitting g.init) (module_of setting.now).globals }
    ensures { OnOk result (out.new.items ≡ out.old.items ++ vector_text global_text (placed_of setting.now).globals) }
{
    let imported = setting.whole.imported_count(ExternTag::Global);
    let count = setting.whole.global_count() - imported;
    put_u32(out, count)?;
    for i in 0..count {
        let label = setting.labels.at(setting.globals + (imported + i));
        put_defined(out, setting.whole.global(imported + i), label)?;
    }
    Ok(())
}

/// An element by its index, which is below their count.
fn put_nth_element(out: &mut Vec<u8>, m: &Module, i: u32) -> Result<(), AllocError>
    requires there { i < length (tree m.now).elements }
    requires fits { All (λ e. IsFitting e.offset) (tree m.now).elements }
    ensures { (element : TreeElement Label) → slice_get (tree m.now).elements i ≡ Some element
        → OnOk result (out.new.items ≡ out.old.items ++ element_text element) }
{
    let Some(element) = m.element(i) else {
        unreachable!();
    };
    put_element(out, &element)
}

/// The elements behind their count.
fn elements(out: &mut Vec<u8>, m: &Module) -> Result<(), AllocError>
    requires { All (λ e. IsFitting e.offset) (tree m.now).elements }
    ensures { OnOk result (out.new.items ≡ out.old.items ++ vector_text element_text (tree m.now).elements) }
{
    let count = m.element_count();
    put_u32(out, count)?;
    for i in 0..count {
        put_nth_element(out, m, i)?;
    }
    Ok(())
}

/// A data segment by its index, which is below their count.
fn put_nth_segment(out: &mut Vec<u8>, m: &Module, i: u32) -> Result<(), AllocError>
    requires there { i < length (tree m.now).segments }
    requires fits { All (λ s. IsFitting s.offset) (tree m.now).segments }
    requires short { length (items_text 11 segment_text (tree m.now).segments) < 2 ^ 32 }
    ensures { (segment : TreeSegment Label) → slice_get (tree m.now).segments i ≡ Some segment
        → OnOk result (out.new.items ≡ out.old.items ++ segment_text segment) }
{
    let Some(segment) = m.segment(i) else {
        unreachable!();
    };
    put_segment(out, &segment)
}

/// The data segments behind their count.
fn segments(out: &mut Vec<u8>, m: &Module) -> Result<(), AllocError>
    requires fits { All (λ s. IsFitting s.offset) (tree m.now).segments }
    requires short { length (items_text 11 segment_text (tree m.now).segments) < 2 ^ 32 }
    ensures { OnOk result (out.new.items ≡ out.old.items ++ vector_text segment_text (tree m.now).segments) }
{
    let count = m.segment_count();
    put_u32(out, count)?;
    for i in 0..count {
        put_nth_segment(out, m, i)?;
    }
    Ok(())
}

/// The section of type entries, if there are some.
pub fn put_types(
    alloc: Global,
    out: &mut Vec<u8>,
    setting: &Setting,
    made: &Made,
) -> Result<(), AllocError>
    requires plain { IsPlainModule (module_of setting.now) }
    requires made { IsMade setting.now made.now }
    requires short { HasShortTexts setting.now }
    ensures { OnOk result (out.new.items ≡ out.old.items ++ items_text 1 type_entry_text (placed_of setting.now).types) }
{
    if setting.whole.type_count() == 0 && made.variants.count == 0 {
        return Ok(());
    }
    let mut contents = Vec::new(alloc);
    types(&mut contents, setting, made)?;
    put_section(out, 1, &contents)
}

/// The section of imports, if there are some.
pub fn put_imports(
    alloc: Global,
    out: &mut Vec<u8>,
    setting: &Setting,
    made: &Made,
) -> Result<(), AllocError>
    requires made { IsMade setting.now made.now }
    requires room { memory_site (module_of setting.now) < 2 ^ 32 }
    requires short { HasShortTexts setting.now }
    ensures { OnOk result (out.new.items ≡ out.old.items ++ items_text 2 import_text (placed_of setting.now).imports) }
{
    if setting.whole.import_count() == 0 {
        return Ok(());
    }
    let mut contents = Vec::new(alloc);
    imports(&mut contents, setting, made)?;
    put_section(out, 2, &contents)
}

/// The section of the defined functions' types, if there are some.
pub fn put_uses(
    alloc: Global,
    out: &mut Vec<u8>,
    setting: &Setting,
    made: &Made,
) -> Result<(), AllocError>
    requires made { IsMade setting.now made.now }
    requires short { HasShortTexts setting.now }
    ensures { OnOk result (out.new.items
        ≡ out.old.items ++ items_text 3 (λ f. u32_text f.type) (placed_of setting.now).functions) }
{
    if setting.whole.func_count() == setting.whole.imported_count(ExternTag::Func) {
        return Ok(());
    }
    let mut contents = Vec::new(alloc);
    uses(&mut contents, setting, made)?;
    put_section(out, 3, &contents)
}

/// The section of the defined memory, if there is one.
pub fn put_memories(alloc: Global, out: &mut Vec<u8>, setting: &Setting) -> Result<(), AllocError>
    requires room { memory_site (module_of setting.now) < 2 ^ 32 }
    requires short { HasShortTexts setting.now }
    ensures { OnOk result (out.new.items
        ≡ out.old.items ++ items_text 5 memory_text (optional (placed_of setting.now).memory)) }
{
    match setting.whole.defined_memory() {
        None => Ok(()),
        Some(ty) => {
            let label = memory_label(setting);
            let mut contents = Vec::new(alloc);
            put_u32(&mut contents, 1)?;
            put_memory(&mut contents, labelled_memory(ty, label))?;
            put_section(out, 5, &contents)
        }
    }
}

/// The section of the defined globals, if there are some.
pub fn put_globals(alloc: Global, out: &mut Vec<u8>, setting: &Setting) -> Result<(), AllocError>
    requires room { memory_site (module_of setting.now) < 2 ^ 32 }
    requires fits { All (λ g. IsFitting g.init) (module_of setting.now).globals }
    requires short { HasShortTexts setting.now }
    ensures { OnOk result (out.new.items ≡ out.old.items ++ items_text 6 global_text (placed_of setting.now).globals) }
{
    if setting.whole.global_count() == setting.whole.imported_count(ExternTag::Global) {
        return Ok(());
    }
    let mut contents = Vec::new(alloc);
    globals(&mut contents, setting)?;
    put_section(out, 6, &contents)
}

/// The section of elements, if there are some.
pub fn put_elements(alloc: Global, out: &mut Vec<u8>, m: &Module) -> Result<(), AllocError>
    requires short { length (canon (tree m.now)) < 2 ^ 32 }
    requires fits { All (λ e. IsFitting e.offset) (tree m.now).elements }
    ensures { OnOk result (out.new.items ≡ out.old.items ++ items_text 9 element_text (tree m.now).elements) }
{
    if m.element_count() == 0 {
        return Ok(());
    }
    let mut contents = Vec::new(alloc);
    elements(&mut contents, m)?;
    put_section(out, 9, &contents)
}

/// The section of code, if there are defined functions.
pub fn put_codes(out: &mut Vec<u8>, setting: &Setting, made: &Made) -> Result<(), AllocError>
    requires made { IsMade setting.now made.now }
    requires short { HasShortTexts setting.now }
    ensures { OnOk result (out.new.items ≡ out.old.items ++ items_text 10 code_text (placed_of setting.now).functions) }
{
    if setting.whole.func_count() == setting.whole.imported_count(ExternTag::Func) {
        return Ok(());
    }
    put_section(out, 10, &made.codes)
}

/// The section of data segments, if there are some.
pub fn put_segments(alloc: Global, out: &mut Vec<u8>, m: &Module) -> Result<(), AllocError>
    requires short { length (canon (tree m.now)) < 2 ^ 32 }
    requires fits { All (λ s. IsFitting s.offset) (tree m.now).segments }
    ensures { OnOk result (out.new.items ≡ out.old.items ++ items_text 11 segment_text (tree m.now).segments) }
{
    if m.segment_count() == 0 {
        return Ok(());
    }
    let mut contents = Vec::new(alloc);
    segments(&mut contents, m)?;
    put_section(out, 11, &contents)
}
