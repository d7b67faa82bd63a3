ghost use Rattle.std.specs.Prelude.{◌≡◌, ◌∷◌, [], ◌++◌, fold, IfOk, OnOk};
ghost use Rattle.std.specs.List.{filter_map};
ghost use Rattle.ctw_ops.specs.Equal.{same_tag};
ghost use Rattle.ctw_text.specs.Names.{added, double_faults, field_names, fields_with, is_kind, is_tag, own_use, space_of, tag_of, type_fields, use_in, uses_of};
ghost use Rattle.ctw_text.specs.declared.pieces.FieldKind.TheVariants as kinds;
ghost use Rattle.ctw_names.specs.Noted.{noted};
ghost use Rattle.ctw_names.specs.Doubles.{double_fault, doubles_onto};
ghost use Rattle.ctw_names.specs.Spaces.{space_in, type_entries_of};

use crate::fault::{Fault, FaultKind, Faults};
use crate::table::NameTable;
use crate::types::{EntryTable, type_spelled};
use ctw_ops::ExternTag;
use ctw_text::{Field, FieldKind, FrontList, Item, Name, Raw};
use std::alloc::{AllocError, Global};

/// What the names and the types of a module are.
#[derive(Drop)]
pub struct Space<'a> {
    /// The names of the type fields.
    pub types: NameTable<'a>,
    /// Those of the functions, imported ones among them.
    pub funcs: NameTable<'a>,
    /// Those of the tables.
    pub tables: NameTable<'a>,
    /// Those of the memories.
    pub memories: NameTable<'a>,
    /// Those of the globals.
    pub globals: NameTable<'a>,
    /// The entries: those of the type fields, and then those that typeuses add.
    pub entries: EntryTable,
}

/// The same name, if there is one.
pub fn again<'a>(name: &Option<Name<'a>>) -> Option<Name<'a>>
    ensures { result ≡ name.now }
{
    match name {
        Some(name) => Some(name.again()),
        None => None,
    }
}

/// Gives the next number to a thing with this name, or without one; a fault is noted where the name stood before.
pub fn add_name<'a>(
    table: &mut NameTable<'a>,
    name: &Option<Name<'a>>,
    faults: &mut Faults,
) -> Result<(), AllocError>
    ensures names { OnOk result (table.new ≡ table.old ++ name.now ∷ []) }
    ensures faults { OnOk result (faults.new ≡ noted faults.old (double_fault name.now table.old)) }
{
    let Some(word) = name else {
        table.add(None)?;
        return Ok(());
    };
    if table.add(Some(word.again()))? {
        faults.note(Fault::at(FaultKind::DoubleName, word));
        return Ok(());
    }
    Ok(())
}

/// Whether two kinds are the same.
pub fn is_same(a: ExternTag, b: ExternTag) -> bool
    ensures { result ≡ same_tag a b }
{
    match (a, b) {
        (ExternTag::Func, ExternTag::Func) => true,
        (ExternTag::Table, ExternTag::Table) => true,
        (ExternTag::Memory, ExternTag::Memory) => true,
        (ExternTag::Global, ExternTag::Global) => true,
        (ExternTag::Func, _) => false,
        (ExternTag::Table, _) => false,
        (ExternTag::Memory, _) => false,
        (ExternTag::Global, _) => false,
    }
}

/// Whether a field imports or defines something of a kind.
pub fn is_of(field: &Field, tag: ExternTag) -> bool
    ensures { result ≡ is_tag tag (tag_of field.now) }
{
    match field.kind {
        FieldKind::ImportField => is_same(tag, field.draft.kind),
        FieldKind::Defining(own) => is_same(tag, own),
        FieldKind::TypeField => false,
        FieldKind::ExportField => false,
        FieldKind::StartField => false,
        FieldKind::ElemField => false,
        FieldKind::DataField => false,
        FieldKind::CustomField => false,
    }
}

/// Whether a field is a type field.
pub fn is_type(field: &Field) -> bool
    ensures { result ≡ is_kind kinds.TypeField field.now }
{
    match field.kind {
        FieldKind::TypeField => true,
        FieldKind::ImportField => false,
        FieldKind::ExportField => false,
        FieldKind::StartField => false,
        FieldKind::ElemField => false,
        FieldKind::DataField => false,
        FieldKind::CustomField => false,
        FieldKind::Defining(_) => false,
    }
}

/// Gives the next number to a field that imports or defines something of a kind.
fn add_field<'a>(
    table: &mut NameTable<'a>,
    field: &Field<'a>,
    tag: ExternTag,
    faults: &mut Faults,
) -> Result<(), AllocError>
    ensures names { OnOk result (table.new ≡ table.old ++ field_names (fields_with tag (field.now ∷ []))) }
    ensures faults { OnOk result (faults.new
        ≡ noted faults.old (doubles_onto table.old (field_names (fields_with tag (field.now ∷ []))))) }
{
    if is_of(field, tag) {
        return add_name(table, &field.draft.name, faults);
    }
    Ok(())
}

/// Gives the next number to a type field.
fn add_type<'a>(
    table: &mut NameTable<'a>,
    field: &Field<'a>,
    faults: &mut Faults,
) -> Result<(), AllocError>
    ensures names { OnOk result (table.new ≡ table.old ++ field_names (type_fields (field.now ∷ []))) }
    ensures faults { OnOk result (faults.new
        ≡ noted faults.old (doubles_onto table.old (field_names (type_fields (field.now ∷ []))))) }
{
    if is_type(field) {
        return add_name(table, &field.draft.name, faults);
    }
    Ok(())
}

/// The names of what is imported and defined of a kind.
fn names_with<'a>(
    alloc: Global,
    fields: &FrontList<Field<'a>>,
    tag: ExternTag,
    faults: &mut Faults,
) -> Result<NameTable<'a>, AllocError>
    ensures names { IfOk result (λ table. table ≡ field_names (fields_with tag fields.now)) }
    ensures faults { OnOk result (faults.new
        ≡ noted faults.old (double_faults [] (field_names (fields_with tag fields.now)))) }
{
    let mut table = NameTable::new(alloc);
    'fields: for i in 0..fields.len() {
        add_field(&mut table, fields.at(i), tag, faults)?;
    }
    Ok(table)
}

/// The names of the type fields.
fn type_names<'a>(
    alloc: Global,
    fields: &FrontList<Field<'a>>,
    faults: &mut Faults,
) -> Result<NameTable<'a>, AllocError>
    ensures names { IfOk result (λ table. table ≡ field_names (type_fields fields.now)) }
    ensures faults { OnOk result (faults.new
        ≡ noted faults.old (double_faults [] (field_names (type_fields fields.now)))) }
{
    let mut table = NameTable::new(alloc);
    'fields: for i in 0..fields.len() {
        add_type(&mut table, fields.at(i), faults)?;
    }
    Ok(table)
}

/// Adds the entry of a type field.
fn add_entry(entries: &mut EntryTable, alloc: Global, field: &Field) -> Result<(), AllocError>
    ensures { OnOk result (entries.new ≡ entries.old ++ type_entries_of (field.now ∷ [])) }
{
    if is_type(field) {
        let t = type_spelled(alloc, &field.draft.sig)?;
        return entries.add(alloc, t);
    }
    Ok(())
}

/// The entries of the type fields.
fn type_entries(alloc: Global, fields: &FrontList<Field>) -> Result<EntryTable, AllocError>
    ensures { IfOk result (λ entries. entries ≡ type_entries_of fields.now) }
{
    let mut entries = EntryTable::new(alloc);
    'fields: for i in 0..fields.len() {
        add_entry(&mut entries, alloc, fields.at(i))?;
    }
    Ok(entries)
}

/// Adds the entry of an instruction's typeuse.
fn add_item(entries: &mut EntryTable, alloc: Global, item: &Item) -> Result<(), AllocError>
    ensures { OnOk result (entries.new ≡ fold added entries.old (filter_map use_in (item.now ∷ []))) }
{
    let Item::Op(raw) = item else {
        return Ok(());
    };
    let Raw::Indirect(u) = raw else {
        return Ok(());
    };
    entries.add_use(alloc, u)
}

/// Adds the entry of a field's own typeuse.
fn add_own(entries: &mut EntryTable, alloc: Global, field: &Field) -> Result<(), AllocError>
    ensures { OnOk result (entries.new ≡ fold added entries.old (own_use field.now)) }
{
    if is_of(field, ExternTag::Func) {
        return entries.add_use(alloc, &field.draft.sig);
    }
    Ok(())
}

/// Adds the entries of a field's typeuses, in the order of the text.
fn add_uses(entries: &mut EntryTable, alloc: Global, field: &Field) -> Result<(), AllocError>
    ensures { OnOk result (entries.new ≡ fold added entries.old (uses_of field.now)) }
{
    add_own(entries, alloc, field)?;
    'items: for i in 0..field.draft.code.len() {
        add_item(entries, alloc, field.draft.code.at(i))?;
    }
    Ok(())
}

/// The entries of a module: those of its type fields, and then those that its typeuses add.
fn entries(alloc: Global, fields: &FrontList<Field>) -> Result<EntryTable, AllocError>
    ensures { IfOk result (λ entries. entries ≡ (space_of fields.now).entries) }
{
    let mut entries = type_entries(alloc, fields)?;
    'fields: for i in 0..fields.len() {
        add_uses(&mut entries, alloc, fields.at(i))?;
    }
    Ok(entries)
}

/// What the names and the types of some fields are; a fault is noted for each name that stands twice in one kind.
pub fn space_of_fields<'a>(
    alloc: Global,
    fields: &FrontList<Field<'a>>,
    faults: &mut Faults,
) -> Result<Space<'a>, AllocError>
    ensures space { IfOk result (λ space. space_in space ≡ space_of fields.now) }
    ensures faults { OnOk result (faults.new ≡ noted (noted (noted (noted (noted faults.old
        (double_faults [] (space_of fields.now).types)) (double_faults [] (space_of fields.now).funcs))
        (double_faults [] (space_of fields.now).tables)) (double_faults [] (space_of fields.now).memories))
        (double_faults [] (space_of fields.now).globals)) }
{
    let types = type_names(alloc, fields, faults)?;
    let funcs = names_with(alloc, fields, ExternTag::Func, faults)?;
    let tables = names_with(alloc, fields, ExternTag::Table, faults)?;
    let memories = names_with(alloc, fields, ExternTag::Memory, faults)?;
    let globals = names_with(alloc, fields, ExternTag::Global, faults)?;
    let entries = entries(alloc, fields)?;
    Ok(Space {
        types,
        funcs,
        tables,
        memories,
        globals,
        entries,
    })
}
