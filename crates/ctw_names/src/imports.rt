ghost use Rattle.std.specs.Prelude.{◌≡◌, ◌++◌, IfOk, OnOk};
ghost use Rattle.std.specs.List.{flat_map};
ghost use Rattle.ctw_text.specs.Names.{import_kind as kind_of_import, import_of, tag_of as kind_of_field};
ghost use Rattle.ctw_names.specs.Spaces.{space_in};
ghost use Rattle.ctw_names.specs.Wides.{extern_in};

use crate::sizes::{global_type, label_of, limits_in};
use crate::space::Space;
use crate::typeuse::entry;
use crate::wide::{WideExtern, WideImport};
use ctw_ops::{ExternTag, MemType};
use ctw_text::{Draft, Field, FieldKind, FrontList};
use std::alloc::{AllocError, Global};

/// The kind of what a field imports or defines.
pub fn tag_of(field: &Field) -> Option<ExternTag>
    ensures { result ≡ kind_of_field field.now }
{
    match field.kind {
        FieldKind::ImportField => Some(field.draft.kind),
        FieldKind::Defining(tag) => Some(tag),
        _ => None,
    }
}

/// What an import is.
fn import_kind(
    alloc: Global,
    space: &Space,
    tag: ExternTag,
    draft: &Draft,
) -> Result<WideExtern, AllocError>
    ensures { IfOk result (λ kind. extern_in kind ≡ kind_of_import (space_in space.now) tag draft.now) }
{
    match tag {
        ExternTag::Func => Ok(WideExtern::Function(entry(alloc, space, &draft.sig)?)),
        ExternTag::Table => Ok(WideExtern::Table(limits_in(&draft.numbers))),
        ExternTag::Memory => Ok(WideExtern::Memory(MemType {
            label: label_of(draft.secret),
            limits: limits_in(&draft.numbers),
        })),
        ExternTag::Global => Ok(WideExtern::Global(global_type(draft))),
    }
}

/// Puts the import of a field behind the others, if it is one.
fn add_import(
    alloc: Global,
    space: &Space,
    field: &Field,
    imports: &mut Vec<WideImport>,
) -> Result<(), AllocError>
    ensures { OnOk result (imports.new.items ≡ imports.old.items ++ import_of (space_in space.now) field.now) }
{
    let Some(tag) = tag_of(field) else {
        return Ok(());
    };
    let Some(from) = &field.draft.from else {
        return Ok(());
    };
    let module_name = from.bytes(alloc)?;
    let name = field.draft.imported.bytes(alloc)?;
    let kind = import_kind(alloc, space, tag, &field.draft)?;
    imports.push(WideImport {
        module_name,
        name,
        kind,
    })?;
    Ok(())
}

/// The imports of some fields.
pub fn imports(
    alloc: Global,
    space: &Space,
    fields: &FrontList<Field>,
) -> Result<Vec<WideImport>, AllocError>
    ensures { IfOk result (λ imports. imports.items ≡ flat_map (import_of (space_in space.now)) fields.now) }
{
    let mut imports = Vec::new(alloc);
    'fields: for i in 0..fields.len() {
        add_import(alloc, space, fields.at(i), &mut imports)?;
    }
    Ok(imports)
}
