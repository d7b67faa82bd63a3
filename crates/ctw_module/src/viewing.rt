ghost use Rattle.std.specs.Prelude.{◌≡◌, ◌<◌, ◌^◌, ◌++◌, ◌==◌, ℕ, List, map, length, option_map, All, IfOk, Option, Some, None};
ghost use Rattle.std.specs.Str.{bytes_eq};
ghost use Rattle.indexmap.specs.IndexMap.{get_by};
ghost use Rattle.ctw_ops.specs.declared.types.Label.{Label};
ghost use Rattle.ctw_ops.specs.Tree.{Module as Tree, imported_functions, imported_globals, memory_among as memory_in, table_among as table_in};
ghost use Rattle.ctw_ops.specs.WithinLimits.{IsOctet};
ghost use Rattle.ctw_form.specs.Spelled.{Spells};
ghost use Rattle.ctw_module.specs.Trees.{Lent, tree, parts, view_of};
ghost use Rattle.ctw_form.specs.Shown.{constant_of, global_in};
ghost use Rattle.ctw_module.specs.Lookup.{export_in};
ghost use Rattle.ctw_module.specs.Gathers.{Gathers};

use crate::found::Found;
use crate::gather::gather;
use crate::module::Module;
use crate::types::Global1;
use ctw_form::{ConstExpr, ExportEntry, GlobalEntry, ImportEntry, ImportKind};
use ctw_leb::Cursor;
use ctw_ops::{ExternTag, Limits, MemType, Profile};
use indexmap::IndexMap;
use std::alloc::{AllocError, Global};

/// The type indexes of all functions, imported ones first.
fn all_functions(
    alloc: Global,
    imports: &[ImportEntry],
    uses: &[u32],
) -> Result<Vec<u32>, AllocError>
    ensures { IfOk result (λ all. all.items ≡ imported_functions imports.now ++ uses.now) }
{
    let mut all = Vec::new(alloc);
    'imports: for import in imports {
        if let ImportKind::Func(index) = import.kind {
            all.push(index)?;
        }
    }
    all.extend_from_slice(uses)?;
    Ok(all)
}

/// All globals, imported ones first.
fn all_globals(
    alloc: Global,
    imports: &[ImportEntry],
    defined: &[GlobalEntry],
) -> Result<Vec<Global1>, AllocError>
    ensures types { IfOk result (λ all.
        map (λ g. g.ty) all.items ≡ imported_globals imports.now ++ map (λ g. g.ty) defined.now) }
    ensures inits { IfOk result (λ all. map (λ g. option_map constant_of g.init) all.items
        ≡ map (λ type. None) (imported_globals imports.now) ++ map (λ g. Some (constant_of g.init)) defined.now) }
{
    let mut all = Vec::new(alloc);
    'imports: for import in imports {
        if let ImportKind::Global(ty) = import.kind {
            all.push(Global1 { ty, init: None })?;
        }
    }
    'defined: for entry in defined {
        let init: ConstExpr = entry.init;
        all.push(Global1 {
            ty: entry.ty,
            init: Some(init),
        })?;
    }
    Ok(all)
}

/// The first imported memory, else the defined one.
fn memory_among(imports: &[ImportEntry], defined: Option<MemType>) -> Option<MemType>
    ensures { result ≡ memory_in imports.now defined }
{
    'imports: for import in imports {
        if let ImportKind::Memory(ty) = import.kind {
            return Some(ty);
        }
    }
    defined
}

/// The first imported table, else the defined one.
fn table_among(imports: &[ImportEntry], defined: Option<Limits>) -> Option<Limits>
    ensures { result ≡ table_in imports.now defined }
{
    'imports: for import in imports {
        if let ImportKind::Table(limits) = import.kind {
            return Some(limits);
        }
    }
    defined
}

/// The kind and the index of the first export of each name, in the order of these.
fn names_of<'a>(
    alloc: Global,
    exports: &[ExportEntry<'a>],
) -> Result<IndexMap<&'a str, (ExternTag, u32)>, AllocError>
    ensures { IfOk result (λ names. (name : List ℕ)
        → get_by (λ key. bytes_eq name key.now) names ≡ export_in name exports.now) }
{
    let mut names = IndexMap::new(alloc);
    'exports: for export in exports {
        if names.get(export.name).is_none() {
            names.insert(export.name, (export.kind, export.index))?;
        }
    }
    Ok(names)
}

/// The view of bytes whose sections brought this.
fn index<'a>(
    alloc: Global,
    bytes: &'a [u8],
    ct: bool,
    found: Found<'a>,
) -> Result<Module<'a>, AllocError>
    requires octets { All IsOctet bytes.now }
    requires short { length bytes.now < 2 ^ 32 }
    requires spelled { Spells bytes.now (tree (view_of bytes.now)) }
    requires ct { ct ≡ (tree (view_of bytes.now)).ct }
    requires gathers { Gathers found (parts (view_of bytes.now)) }
    ensures { IfOk result (λ view. view ≡ view_of bytes.now) }
{
    let functions = all_functions(alloc, &found.imports, &found.uses)?;
    let globals = all_globals(alloc, &found.imports, &found.globals)?;
    let names = names_of(alloc, &found.exports)?;
    Ok(Module {
        profile: Profile::Divide,
        bytes,
        ct,
        imported: functions.len() - found.uses.len(),
        imported_globals: globals.len() - found.globals.len(),
        functions,
        globals,
        memory: memory_among(&found.imports, found.memory),
        defined_memory: found.memory,
        table: table_among(&found.imports, found.table),
        defined_table: found.table,
        names,
        types: found.types,
        imports: found.imports,
        codes: found.codes,
        runs: found.runs,
        exports: found.exports,
        start: found.start,
        elements: found.elements,
        element_functions: found.element_functions,
        segments: found.segments,
        customs: found.customs,
    })
}

/// The view of a file's bytes, which spell a module and are fewer than 2^32. Takes linear time, and
/// memory for the index.
pub fn view<'a>(alloc: Global, bytes: &'a [u8]) -> Result<Module<'a>, AllocError>
    requires short { length bytes.now < 2 ^ 32 }
    requires spelled { (m : Tree Label) × Spells bytes.now m }
    ensures bytes { IfOk result (λ view. view ≡ view_of bytes.now) }
    ensures tree { IfOk result (λ view. (m : Tree Label) → Spells bytes.now m → tree view ≡ m) }
{
    let ct = bytes[6] != 0;
    let mut cursor = Cursor::new(&bytes[8..], 8);
    let found = gather(alloc, ct, &mut cursor)?;
    index(alloc, bytes, ct, found)
}
