ghost use Rattle.std.specs.Prelude.{◌≡◌, ◌∷◌, [], ◌++◌, ◌&&◌, not, map, IfOk, OnOk};
ghost use Rattle.std.specs.List.{flat_map};
ghost use Rattle.ctw_text.specs.declared.fields.Field.{Field as TextField};
ghost use Rattle.ctw_text.specs.declared.pieces.FieldKind.TheVariants as kinds;
ghost use Rattle.ctw_ops.specs.declared.types.ExternTag.TheVariants as tags;
ghost use Rattle.ctw_text.specs.Names.{defined, global_of, is_import, is_kind, memory_type as type_of_memory, starts_in, table_limits as limits_of_table};
ghost use Rattle.ctw_names.specs.Spaces.{space_in};

use crate::constant::constant;
use crate::resolve::find_or_zero;
use crate::sizes::{global_type, memory_type, table_limits};
use crate::space::{Space, is_same};
use crate::wide::WideGlobal;
use ctw_ops::{ExternTag, Limits, MemType};
use ctw_text::{Field, FieldKind, FrontList};
use std::alloc::{AllocError, Global};

/// Whether a field defines something of a kind.
pub fn is_defined(field: &Field, tag: ExternTag) -> bool
    ensures { result ≡ (is_kind (kinds.Defining tag) field.now && not (is_import field.now)) }
{
    match field.kind {
        FieldKind::Defining(own) => is_same(tag, own) && field.draft.from.is_none(),
        _ => false,
    }
}

/// Puts the table of a field behind the others, if it defines one.
fn add_table(field: &Field, tables: &mut Vec<Limits>) -> Result<(), AllocError>
    ensures { OnOk result (tables.new.items
        ≡ tables.old.items ++ map (λ (f : TextField). limits_of_table f.draft) (defined tags.Table (field.now ∷ []))) }
{
    if is_defined(field, ExternTag::Table) {
        tables.push(table_limits(&field.draft))?;
    }
    Ok(())
}

/// The tables that some fields define.
pub fn tables(alloc: Global, fields: &FrontList<Field>) -> Result<Vec<Limits>, AllocError>
    ensures { IfOk result (λ tables. tables.items
        ≡ map (λ (f : TextField). limits_of_table f.draft) (defined tags.Table fields.now)) }
{
    let mut tables = Vec::new(alloc);
    'fields: for i in 0..fields.len() {
        add_table(fields.at(i), &mut tables)?;
    }
    Ok(tables)
}

/// Puts the memory of a field behind the others, if it defines one.
fn add_memory(alloc: Global, field: &Field, memories: &mut Vec<MemType>) -> Result<(), AllocError>
    ensures { OnOk result (memories.new.items
        ≡ memories.old.items ++ map (λ (f : TextField). type_of_memory f.draft) (defined tags.Memory (field.now ∷ []))) }
{
    if is_defined(field, ExternTag::Memory) {
        memories.push(memory_type(alloc, &field.draft)?)?;
    }
    Ok(())
}

/// The memories that some fields define.
pub fn memories(alloc: Global, fields: &FrontList<Field>) -> Result<Vec<MemType>, AllocError>
    ensures { IfOk result (λ memories. memories.items
        ≡ map (λ (f : TextField). type_of_memory f.draft) (defined tags.Memory fields.now)) }
{
    let mut memories = Vec::new(alloc);
    'fields: for i in 0..fields.len() {
        add_memory(alloc, fields.at(i), &mut memories)?;
    }
    Ok(memories)
}

/// Puts the global of a field behind the others, if it defines one.
fn add_global(space: &Space, field: &Field, globals: &mut Vec<WideGlobal>) -> Result<(), AllocError>
    ensures { OnOk result (globals.new.items
        ≡ globals.old.items ++ map (global_of (space_in space.now)) (defined tags.Global (field.now ∷ []))) }
{
    if is_defined(field, ExternTag::Global) {
        globals.push(WideGlobal {
            ty: global_type(&field.draft),
            init: constant(space, &field.draft.code),
        })?;
    }
    Ok(())
}

/// The globals that some fields define.
pub fn globals(
    alloc: Global,
    space: &Space,
    fields: &FrontList<Field>,
) -> Result<Vec<WideGlobal>, AllocError>
    ensures { IfOk result (λ globals. globals.items
        ≡ map (global_of (space_in space.now)) (defined tags.Global fields.now)) }
{
    let mut globals = Vec::new(alloc);
    'fields: for i in 0..fields.len() {
        add_global(space, fields.at(i), &mut globals)?;
    }
    Ok(globals)
}

/// Puts the start function of a field behind the others, if it names one.
fn add_start(space: &Space, field: &Field, starts: &mut Vec<u32>) -> Result<(), AllocError>
    ensures { OnOk result (starts.new.items ≡ starts.old.items ++ starts_in (space_in space.now) field.now) }
{
    match field.kind {
        FieldKind::StartField => {
            starts.push(find_or_zero(&space.funcs, &field.draft.target))?;
            Ok(())
        }
        _ => Ok(()),
    }
}

/// The start functions that some fields name.
pub fn starts(
    alloc: Global,
    space: &Space,
    fields: &FrontList<Field>,
) -> Result<Vec<u32>, AllocError>
    ensures { IfOk result (λ starts. starts.items ≡ flat_map (starts_in (space_in space.now)) fields.now) }
{
    let mut starts = Vec::new(alloc);
    'fields: for i in 0..fields.len() {
        add_start(space, fields.at(i), &mut starts)?;
    }
    Ok(starts)
}
