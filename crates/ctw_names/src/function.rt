ghost use Rattle.std.specs.Prelude.{◌≡◌, ◌∷◌, [], ◌++◌, map, IfOk, OnOk};
ghost use Rattle.std.specs.List.{flat_map};
ghost use Rattle.ctw_ops.specs.declared.types.ExternTag.TheVariants as tags;
ghost use Rattle.ctw_text.specs.Names.{defined, field_faults, function_faults, function_of};
ghost use Rattle.ctw_names.specs.Noted.{noted};
ghost use Rattle.ctw_names.specs.Spaces.{space_in};

use crate::body::body_of;
use crate::defined::is_defined;
use crate::fault::Faults;
use crate::locals::locals_of;
use crate::note::note_field;
use crate::space::{Space, is_of};
use crate::table::NameTable;
use crate::types::types_of;
use crate::typeuse::{add_variables, entry, note_entry};
use crate::wide::WideFunction;
use ctw_ops::ExternTag;
use ctw_text::{Field, FrontList};
use std::alloc::{AllocError, Global};
use std::mem;

/// A function with numbers in place of names; faults are noted.
pub fn function<'a>(
    alloc: Global,
    space: &Space,
    field: Field<'a>,
    faults: &mut Faults,
) -> Result<WideFunction, AllocError>
    ensures function { IfOk result (λ f. f ≡ function_of (space_in space.now) field.entry) }
    ensures faults { OnOk result (faults.new ≡ noted faults.old (function_faults (space_in space.now) field.entry)) }
{
    let mut draft = field.draft;
    let ty = entry(alloc, space, &draft.sig)?;
    note_entry(alloc, space, &draft.sig, faults)?;
    let mut own = NameTable::new(alloc);
    add_variables(&mut own, &draft.sig.params, faults)?;
    add_variables(&mut own, &draft.locals, faults)?;
    let names = locals_of(alloc, space, ty, &draft)?;
    let locals = types_of(alloc, &draft.locals)?;
    let code = mem::replace(&mut draft.code, FrontList::new(alloc));
    let code = body_of(alloc, space, &names, code, faults)?;
    Ok(WideFunction { ty, locals, code })
}

/// Notes the faults of a field; its function is put behind the others, if it defines one.
fn add_function<'a>(
    alloc: Global,
    space: &Space,
    field: Field<'a>,
    functions: &mut Vec<WideFunction>,
    faults: &mut Faults,
) -> Result<(), AllocError>
    ensures functions { OnOk result (functions.new.items
        ≡ functions.old.items ++ map (function_of (space_in space.now)) (defined tags.Func (field.entry ∷ []))) }
    ensures faults { OnOk result (faults.new ≡ noted faults.old (field_faults (space_in space.now) field.entry)) }
{
    if !is_of(&field, ExternTag::Func) {
        note_field(space, &field, faults);
        return Ok(());
    }
    let is_own = is_defined(&field, ExternTag::Func);
    let f = function(alloc, space, field, faults)?;
    if is_own {
        functions.push(f)?;
    }
    Ok(())
}

/// The functions that some fields define; the faults of all fields are noted.
pub fn functions<'a>(
    alloc: Global,
    space: &Space,
    fields: FrontList<Field<'a>>,
    faults: &mut Faults,
) -> Result<Vec<WideFunction>, AllocError>
    ensures functions { IfOk result (λ functions. functions.items
        ≡ map (function_of (space_in space.now)) (defined tags.Func fields.entry)) }
    ensures faults { OnOk result (faults.new ≡ noted faults.old (flat_map (field_faults (space_in space.now)) fields.entry)) }
{
    let mut fields = fields;
    let mut functions = Vec::new(alloc);
    'fields: while let Some(field) = fields.pop() {
        add_function(alloc, space, field, &mut functions, faults)?;
    }
    Ok(functions)
}
