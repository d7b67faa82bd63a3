ghost use Rattle.std.specs.Prelude.{◌≡◌, ◌∷◌, [], ◌++◌, ◌==◌, cond, filter, map, IfOk, OnOk};
ghost use Rattle.ctw_ops.specs.Tree.{Custom};
ghost use Rattle.ctw_text.specs.declared.pieces.FieldKind.TheVariants as kinds;
ghost use Rattle.ctw_text.specs.Names.{by_place, custom_of, is_kind, last_with as last_section};

use crate::sizes::bytes_in;
use crate::wide::WideCustom;
use ctw_text::{Field, FieldKind, FrontList};
use std::alloc::{AllocError, Global};

fn choose(has: bool, at: u32, last: u32) -> u32
    ensures { result ≡ cond has at last }
{
    if has {
        return at;
    }
    last
}

/// The last of the first `n` sections, by number from 1 on, that has items; 0 where none has.
fn last_with(n: u32, has: &[bool]) -> u32
    ensures { result ≡ last_section n 1 0 has.now }
{
    let mut last = 0;
    'sections: for at in 0..n {
        if at as usize >= has.len() {
            return last;
        }
        last = choose(has[at as usize], at + 1, last);
    }
    last
}

/// The place of a custom section.
fn place_of(has: &[bool], field: &Field) -> u32
    ensures { result ≡ (custom_of has.now field.now).place }
{
    if field.draft.numbers.len() == 0 {
        return last_with(0, has);
    }
    last_with(*field.draft.numbers.at(0), has)
}

/// Whether a field is a custom section.
fn is_custom(field: &Field) -> bool
    ensures { result ≡ is_kind kinds.CustomField field.now }
{
    match field.kind {
        FieldKind::CustomField => true,
        _ => false,
    }
}

/// Puts the custom section of a field behind the others, if it has one with this place.
fn add_custom(
    alloc: Global,
    has: &[bool],
    place: u32,
    field: &Field,
    customs: &mut Vec<WideCustom>,
) -> Result<(), AllocError>
    ensures { OnOk result (customs.new.items ≡ customs.old.items
        ++ filter (λ (c : Custom). c.place == place) (map (custom_of has.now) (filter (is_kind kinds.CustomField) (field.now ∷ [])))) }
{
    if !is_custom(field) {
        return Ok(());
    }
    if place_of(has, field) != place {
        return Ok(());
    }
    let name = field.draft.title.bytes(alloc)?;
    let bytes = bytes_in(alloc, &field.draft)?;
    customs.push(WideCustom { place, name, bytes })?;
    Ok(())
}

/// Puts the custom sections with this place behind the others.
fn add_at(
    alloc: Global,
    has: &[bool],
    place: u32,
    fields: &FrontList<Field>,
    customs: &mut Vec<WideCustom>,
) -> Result<(), AllocError>
    ensures { OnOk result (customs.new.items ≡ customs.old.items
        ++ filter (λ (c : Custom). c.place == place) (map (custom_of has.now) (filter (is_kind kinds.CustomField) fields.now))) }
{
    'fields: for i in 0..fields.len() {
        add_custom(alloc, has, place, fields.at(i), customs)?;
    }
    Ok(())
}

/// The custom sections of some fields, by place; `has` says of the sections from 1 to 11 whether they have items.
pub fn customs(
    alloc: Global,
    has: &[bool],
    fields: &FrontList<Field>,
) -> Result<Vec<WideCustom>, AllocError>
    ensures { IfOk result (λ customs. customs.items
        ≡ by_place 11 (map (custom_of has.now) (filter (is_kind kinds.CustomField) fields.now))) }
{
    let mut customs = Vec::new(alloc);
    add_at(alloc, has, 0, fields, &mut customs)?;
    'places: for place in 0..11 {
        add_at(alloc, has, place + 1, fields, &mut customs)?;
    }
    Ok(customs)
}
