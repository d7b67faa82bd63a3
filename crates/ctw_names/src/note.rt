ghost use Rattle.std.specs.Prelude.{◌≡◌, false, Some};
ghost use Rattle.ctw_ops.specs.declared.types.ExternTag.TheVariants as tags;
ghost use Rattle.ctw_text.specs.declared.pieces.FieldKind.TheVariants as kinds;
ghost use Rattle.ctw_text.specs.Names.{field_faults, is_tag, tag_of};
ghost use Rattle.ctw_names.specs.Noted.{noted};
ghost use Rattle.ctw_names.specs.Spaces.{space_in};

use crate::constant::note_constant;
use crate::exports::names_of;
use crate::fault::Faults;
use crate::resolve::{note_all, note_if_any};
use crate::space::Space;
use ctw_ops::ExternTag;
use ctw_text::{Draft, Field, FieldKind};

/// Notes the faults of what a field imports or defines, which is no function.
fn note_extern(space: &Space, tag: ExternTag, draft: &Draft, faults: &mut Faults)
    requires { is_tag tags.Func (Some tag) ≡ false }
    ensures { faults.new ≡ noted faults.old
        (field_faults (space_in space.now) (record { kind = kinds.Defining tag; draft = draft.now })) }
{
    match tag {
        ExternTag::Func => {}
        ExternTag::Table => note_all(&space.funcs, &draft.items, faults),
        ExternTag::Memory => {}
        ExternTag::Global => note_constant(space, &draft.code, faults),
    }
}

/// Notes the faults of a field that is no function.
pub fn note_field(space: &Space, field: &Field, faults: &mut Faults)
    requires { is_tag tags.Func (tag_of field.now) ≡ false }
    ensures { faults.new ≡ noted faults.old (field_faults (space_in space.now) field.now) }
{
    let draft = &field.draft;
    match field.kind {
        FieldKind::TypeField => note_if_any(&space.types, &draft.target, faults),
        FieldKind::ImportField => note_extern(space, draft.kind, draft, faults),
        FieldKind::Defining(tag) => note_extern(space, tag, draft, faults),
        FieldKind::ExportField => {
            note_if_any(names_of(space, draft.kind), &draft.target, faults);
        }
        FieldKind::StartField => note_if_any(&space.funcs, &draft.target, faults),
        FieldKind::ElemField => {
            note_if_any(&space.tables, &draft.target, faults);
            note_constant(space, &draft.code, faults);
            note_all(&space.funcs, &draft.items, faults);
        }
        FieldKind::DataField => {
            note_if_any(&space.memories, &draft.target, faults);
            note_constant(space, &draft.code, faults);
        }
        FieldKind::CustomField => {}
    }
}
