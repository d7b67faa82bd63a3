ghost use Rattle.std.specs.Prelude.{◌≡◌, ◌∷◌, [], ◌++◌, drop, length, map, IfOk, OnOk};
ghost use Rattle.ctw_text.specs.Names.{plain_entry, type_fields, type_of};
ghost use Rattle.ctw_names.specs.Spaces.{space_in};

use crate::resolve::find;
use crate::space::{Space, is_type};
use crate::types::{EntryTable, Spelled, type_spelled};
use crate::wide::WideEntry;
use ctw_text::{Field, FrontList};
use std::alloc::{AllocError, Global};

/// Puts the entry of a type field behind the others.
fn add_type(
    alloc: Global,
    space: &Space,
    field: &Field,
    types: &mut Vec<WideEntry>,
) -> Result<(), AllocError>
    ensures { OnOk result (types.new.items
        ≡ types.old.items ++ map (type_of (space_in space.now)) (type_fields (field.now ∷ []))) }
{
    if !is_type(field) {
        return Ok(());
    }
    let base = match &field.draft.target {
        Some(x) => Some(find(&space.types, x)),
        None => None,
    };
    let ty = type_spelled(alloc, &field.draft.sig)?;
    types.push(WideEntry { base, ty })?;
    Ok(())
}

/// The entries of the type fields.
fn spelled_types(
    alloc: Global,
    space: &Space,
    fields: &FrontList<Field>,
) -> Result<Vec<WideEntry>, AllocError>
    ensures { IfOk result (λ types. types.items ≡ map (type_of (space_in space.now)) (type_fields fields.now)) }
{
    let mut types = Vec::new(alloc);
    'fields: for i in 0..fields.len() {
        add_type(alloc, space, fields.at(i), &mut types)?;
    }
    Ok(types)
}

/// The same type again.
fn again(alloc: Global, t: &Spelled) -> Result<Spelled, AllocError>
    ensures { IfOk result (λ same. same ≡ t.now) }
{
    let mut params = Vec::new(alloc);
    params.extend_from_slice(t.params.as_slice())?;
    let mut results = Vec::new(alloc);
    results.extend_from_slice(t.results.as_slice())?;
    Ok(Spelled {
        trust: t.trust,
        params,
        results,
    })
}

/// Puts the entries from a number on behind the others.
fn add_rest(
    alloc: Global,
    entries: &EntryTable,
    from: usize,
    types: &mut Vec<WideEntry>,
) -> Result<(), AllocError>
    ensures { OnOk result (types.new.items ≡ types.old.items ++ map plain_entry (drop from entries.now)) }
{
    'entries: for n in from..entries.count() {
        let ty = again(alloc, entries.entry(n))?;
        types.push(WideEntry { base: None, ty })?;
    }
    Ok(())
}

/// The entries of the type fields, and then those that typeuses add.
pub fn types(
    alloc: Global,
    space: &Space,
    fields: &FrontList<Field>,
) -> Result<Vec<WideEntry>, AllocError>
    ensures { IfOk result (λ types. types.items
        ≡ map (type_of (space_in space.now)) (type_fields fields.now)
        ++ map plain_entry (drop (length (type_fields fields.now)) (space_in space.now).entries)) }
{
    let mut types = spelled_types(alloc, space, fields)?;
    let spelled = types.len();
    add_rest(alloc, &space.entries, spelled, &mut types)?;
    Ok(types)
}
