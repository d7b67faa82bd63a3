//! Appending sections. Where memory runs out, some bytes may be there.
ghost use Rattle.std.specs.Prelude.{◌≡◌, ◌++◌, ◌∷◌, [], OnOk, All, IfSome};
ghost use Rattle.ctw_ops.specs.Valid.{IsFitting};
ghost use Rattle.ctw_leb.specs.Spelling.{u32_text};
ghost use Rattle.ctw_text.specs.Limits.{first};
ghost use Rattle.ctw_write.specs.Canon.{table_text, memory_text, import_text, export_text, global_text, element_text, segment_text, items_text, start_text, custom_text, customs_text, sized_text};
ghost use Rattle.ctw_write.specs.KeepsLimits.{Is32, IsShort, AreSizes, IsLimitedExtern, IsLimitedConstant, IsLimitedElement, IsLimitedSegment, IsLimitedOp};
ghost use Rattle.ctw_parse.specs.Numbers.{IsNumberedEntry, AreNumbered, AreShortFrom};
ghost use Rattle.ctw_parse.specs.WideCanon.{wide_entry_text, wide_code_text};
ghost use Rattle.ctw_parse.specs.Written.{IsWritten};

use crate::code::put_function;
use crate::item::{
    put_contents, put_count, put_custom, put_defined, put_element, put_entry, put_export,
    put_import, put_memory_type, put_segment, put_table_type,
};
use ctw_leb::put_u32;
use ctw_names::{
    WideCustom, WideElement, WideEntry, WideExport, WideFunction, WideGlobal, WideImport,
    WideSegment,
};
use ctw_ops::{Limits, MemType};
use std::alloc::{AllocError, Global};

/// The section of types, if there are some.
pub(crate) fn put_types(
    alloc: Global,
    out: &mut Vec<u8>,
    entries: &[WideEntry],
) -> Result<(), AllocError>
    ensures written { OnOk result (out.new.items ≡ out.old.items ++ items_text 1 wide_entry_text entries.now) }
    ensures numbers { OnOk result (AreNumbered IsNumberedEntry wide_entry_text entries.now) }
{
    if entries.is_empty() {
        return Ok(());
    }
    let mut contents = Vec::new(alloc);
    put_count(&mut contents, entries.len())?;
    'items: for entry in entries {
        put_entry(&mut contents, entry)?;
    }
    put_contents(out, 1, &contents)
}

/// The section of imports, if there are some.
pub(crate) fn put_imports(
    alloc: Global,
    out: &mut Vec<u8>,
    imports: &[WideImport],
) -> Result<(), AllocError>
    ensures written { OnOk result (out.new.items ≡ out.old.items ++ items_text 2 import_text imports.now) }
    ensures numbers { OnOk result (AreNumbered (λ i. IsLimitedExtern i.kind) import_text imports.now) }
{
    if imports.is_empty() {
        return Ok(());
    }
    let mut contents = Vec::new(alloc);
    put_count(&mut contents, imports.len())?;
    'items: for import in imports {
        put_import(&mut contents, import)?;
    }
    put_contents(out, 2, &contents)
}

/// The section of the types of functions, if there are some.
pub(crate) fn put_uses(
    alloc: Global,
    out: &mut Vec<u8>,
    functions: &[WideFunction],
) -> Result<(), AllocError>
    ensures written { OnOk result (out.new.items ≡ out.old.items ++ items_text 3 (λ f. u32_text f.type) functions.now) }
    ensures numbers { OnOk result (AreNumbered (λ f. Is32 f.type) (λ f. u32_text f.type) functions.now) }
{
    if functions.is_empty() {
        return Ok(());
    }
    let mut contents = Vec::new(alloc);
    put_count(&mut contents, functions.len())?;
    'items: for function in functions {
        put_u32(&mut contents, function.ty)?;
    }
    put_contents(out, 3, &contents)
}

/// The section of tables, if there are some.
pub(crate) fn put_tables(
    alloc: Global,
    out: &mut Vec<u8>,
    tables: &[Limits],
) -> Result<(), AllocError>
    ensures written { OnOk result (out.new.items ≡ out.old.items ++ items_text 4 table_text tables.now) }
    ensures numbers { OnOk result (AreNumbered AreSizes table_text tables.now) }
{
    if tables.is_empty() {
        return Ok(());
    }
    let mut contents = Vec::new(alloc);
    put_count(&mut contents, tables.len())?;
    'items: for table in tables {
        put_table_type(&mut contents, *table)?;
    }
    put_contents(out, 4, &contents)
}

/// The section of memories, if there are some.
pub(crate) fn put_memories(
    alloc: Global,
    out: &mut Vec<u8>,
    memories: &[MemType],
) -> Result<(), AllocError>
    ensures written { OnOk result (out.new.items ≡ out.old.items ++ items_text 5 memory_text memories.now) }
    ensures numbers { OnOk result (AreNumbered (λ t. AreSizes t.limits) memory_text memories.now) }
{
    if memories.is_empty() {
        return Ok(());
    }
    let mut contents = Vec::new(alloc);
    put_count(&mut contents, memories.len())?;
    'items: for memory in memories {
        put_memory_type(&mut contents, *memory)?;
    }
    put_contents(out, 5, &contents)
}

/// The section of globals, if there are some.
pub(crate) fn put_globals(
    alloc: Global,
    out: &mut Vec<u8>,
    globals: &[WideGlobal],
) -> Result<(), AllocError>
    requires { All (λ g. IsFitting g.init) globals.now }
    ensures written { OnOk result (out.new.items ≡ out.old.items ++ items_text 6 global_text globals.now) }
    ensures numbers { OnOk result (AreNumbered (λ g. IsLimitedConstant g.init) global_text globals.now) }
{
    if globals.is_empty() {
        return Ok(());
    }
    let mut contents = Vec::new(alloc);
    put_count(&mut contents, globals.len())?;
    'items: for global in globals {
        put_defined(&mut contents, global)?;
    }
    put_contents(out, 6, &contents)
}

/// The section of exports, if there are some.
pub(crate) fn put_exports(
    alloc: Global,
    out: &mut Vec<u8>,
    exports: &[WideExport],
) -> Result<(), AllocError>
    ensures written { OnOk result (out.new.items ≡ out.old.items ++ items_text 7 export_text exports.now) }
    ensures numbers { OnOk result (AreNumbered (λ e. Is32 e.index) export_text exports.now) }
{
    if exports.is_empty() {
        return Ok(());
    }
    let mut contents = Vec::new(alloc);
    put_count(&mut contents, exports.len())?;
    'items: for export in exports {
        put_export(&mut contents, export)?;
    }
    put_contents(out, 7, &contents)
}

/// The section of elements, if there are some.
pub(crate) fn put_elements(
    alloc: Global,
    out: &mut Vec<u8>,
    elements: &[WideElement],
) -> Result<(), AllocError>
    requires { All (λ e. IsFitting e.offset) elements.now }
    ensures written { OnOk result (out.new.items ≡ out.old.items ++ items_text 9 element_text elements.now) }
    ensures numbers { OnOk result (AreNumbered IsLimitedElement element_text elements.now) }
{
    if elements.is_empty() {
        return Ok(());
    }
    let mut contents = Vec::new(alloc);
    put_count(&mut contents, elements.len())?;
    'items: for element in elements {
        put_element(&mut contents, element)?;
    }
    put_contents(out, 9, &contents)
}

/// The section of code, if there are functions.
pub(crate) fn put_codes(
    alloc: Global,
    out: &mut Vec<u8>,
    functions: &[WideFunction],
) -> Result<(), AllocError>
    requires { All (λ f. All IsWritten f.code) functions.now }
    ensures written { OnOk result (out.new.items ≡ out.old.items ++ items_text 10 wide_code_text functions.now) }
    ensures numbers { OnOk result (AreNumbered (λ f. All IsLimitedOp f.code) wide_code_text functions.now) }
{
    if functions.is_empty() {
        return Ok(());
    }
    let mut contents = Vec::new(alloc);
    put_count(&mut contents, functions.len())?;
    'items: for function in functions {
        put_function(alloc, &mut contents, function)?;
    }
    put_contents(out, 10, &contents)
}

/// The section of data, if there is some.
pub(crate) fn put_segments(
    alloc: Global,
    out: &mut Vec<u8>,
    segments: &[WideSegment],
) -> Result<(), AllocError>
    requires { All (λ s. IsFitting s.offset) segments.now }
    ensures written { OnOk result (out.new.items ≡ out.old.items ++ items_text 11 segment_text segments.now) }
    ensures numbers { OnOk result (AreNumbered IsLimitedSegment segment_text segments.now) }
{
    if segments.is_empty() {
        return Ok(());
    }
    let mut contents = Vec::new(alloc);
    put_count(&mut contents, segments.len())?;
    'items: for segment in segments {
        put_segment(&mut contents, segment)?;
    }
    put_contents(out, 11, &contents)
}

/// The section of the start function, if there is one.
pub(crate) fn put_start(alloc: Global, out: &mut Vec<u8>, start: &[u32]) -> Result<(), AllocError>
    ensures written { OnOk result (out.new.items ≡ out.old.items ++ start_text (first start.now)) }
    ensures numbers { IfSome (first start.now) Is32 }
{
    if start.is_empty() {
        return Ok(());
    }
    let mut contents = Vec::new(alloc);
    put_u32(&mut contents, start[0])?;
    put_contents(out, 8, &contents)
}

/// A custom section, if it has this place.
fn put_placed(
    alloc: Global,
    out: &mut Vec<u8>,
    custom: &WideCustom,
    place: u32,
) -> Result<(), AllocError>
    ensures written { OnOk result (out.new.items ≡ out.old.items ++ customs_text place (custom.now ∷ [])) }
    ensures size { OnOk result (custom.now.place ≡ place → IsShort (sized_text custom.now.name ++ custom.now.bytes)) }
{
    if custom.place == place {
        put_custom(alloc, out, custom)
    } else {
        Ok(())
    }
}

/// The custom sections of a place.
pub(crate) fn put_customs(
    alloc: Global,
    out: &mut Vec<u8>,
    customs: &[WideCustom],
    place: u32,
) -> Result<(), AllocError>
    ensures written { OnOk result (out.new.items ≡ out.old.items ++ customs_text place customs.now) }
    ensures sizes { OnOk result (AreShortFrom place place customs.now) }
{
    'items: for custom in customs {
        put_placed(alloc, out, custom, place)?;
    }
    Ok(())
}
