ghost use Rattle.std.specs.Prelude.{◌≡◌, ◌++◌, map, IfOk, OnOk};
ghost use Rattle.ctw_text.specs.Names.{exports_in, in_order, names_of as names_of_kind, none_yet};
ghost use Rattle.ctw_names.specs.Spaces.{space_in};
ghost use Rattle.ctw_names.specs.Wides.{export_of};

use crate::counts::Counts;
use crate::imports::tag_of;
use crate::resolve::find_or_zero;
use crate::space::Space;
use crate::table::NameTable;
use crate::wide::WideExport;
use ctw_ops::ExternTag;
use ctw_text::{Field, FieldKind, FrontList, Quote};
use std::alloc::{AllocError, Global};

/// The names of a kind.
pub fn names_of<'s, 'a>(space: &'s Space<'a>, tag: ExternTag) -> &'s NameTable<'a>
    ensures { result.now ≡ names_of_kind (space_in space.now) tag }
{
    match tag {
        ExternTag::Func => &space.funcs,
        ExternTag::Table => &space.tables,
        ExternTag::Memory => &space.memories,
        ExternTag::Global => &space.globals,
    }
}

/// Puts exports of one thing behind the others.
fn add_names(
    alloc: Global,
    names: &FrontList<Quote>,
    kind: ExternTag,
    index: u32,
    exports: &mut Vec<WideExport>,
) -> Result<(), AllocError>
    ensures { OnOk result (exports.new.items
        ≡ exports.old.items ++ map (export_of kind index) names.now) }
{
    'names: for i in 0..names.len() {
        let name = names.at(i).bytes(alloc)?;
        exports.push(WideExport { name, kind, index })?;
    }
    Ok(())
}

/// Puts the exports of a field behind the others.
fn add_exports(
    alloc: Global,
    space: &Space,
    before: &Counts,
    field: &Field,
    exports: &mut Vec<WideExport>,
) -> Result<(), AllocError>
    ensures { OnOk result (exports.new.items
        ≡ exports.old.items ++ exports_in (space_in space.now) before.now field.now) }
{
    match field.kind {
        FieldKind::ExportField => {
            let kind = field.draft.kind;
            let name = field.draft.title.bytes(alloc)?;
            let index = find_or_zero(names_of(space, kind), &field.draft.target);
            exports.push(WideExport { name, kind, index })?;
            Ok(())
        }
        FieldKind::Defining(tag) => {
            add_names(alloc, &field.draft.exports, tag, before.of(tag), exports)
        }
        _ => Ok(()),
    }
}

/// The exports of some fields.
pub fn exports(
    alloc: Global,
    space: &Space,
    fields: &FrontList<Field>,
) -> Result<Vec<WideExport>, AllocError>
    ensures { IfOk result (λ exports. exports.items ≡ in_order (exports_in (space_in space.now)) none_yet fields.now) }
{
    let mut exports = Vec::new(alloc);
    let mut before = Counts::none();
    'fields: for i in 0..fields.len() {
        let field = fields.at(i);
        add_exports(alloc, space, &before, field, &mut exports)?;
        before.count(tag_of(field))?;
    }
    Ok(exports)
}
