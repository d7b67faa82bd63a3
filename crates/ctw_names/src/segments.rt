ghost use Rattle.std.specs.Prelude.{◌≡◌, ◌++◌, IfOk, OnOk};
ghost use Rattle.ctw_text.specs.Names.{elements_in, in_order, none_yet, segments_in};
ghost use Rattle.ctw_names.specs.Spaces.{space_in};

use crate::constant::{constant, zero};
use crate::counts::Counts;
use crate::imports::tag_of;
use crate::resolve::{find_all, find_or_zero};
use crate::sizes::bytes_in;
use crate::space::Space;
use crate::wide::{WideElement, WideSegment};
use ctw_ops::ExternTag;
use ctw_text::{Field, FieldKind, FrontList};
use std::alloc::{AllocError, Global};

/// Puts the element segment of a field behind the others, if it has one.
fn add_element(
    alloc: Global,
    space: &Space,
    before: &Counts,
    field: &Field,
    elements: &mut Vec<WideElement>,
) -> Result<(), AllocError>
    ensures { OnOk result (elements.new.items
        ≡ elements.old.items ++ elements_in (space_in space.now) before.now field.now) }
{
    match field.kind {
        FieldKind::ElemField => {
            let table = find_or_zero(&space.tables, &field.draft.target);
            let offset = constant(space, &field.draft.code);
            let functions = find_all(alloc, &space.funcs, &field.draft.items)?;
            elements.push(WideElement {
                table,
                offset,
                functions,
            })?;
            Ok(())
        }
        FieldKind::Defining(ExternTag::Table) => {
            if !field.draft.inline {
                return Ok(());
            }
            let table = before.tables;
            let offset = zero();
            let functions = find_all(alloc, &space.funcs, &field.draft.items)?;
            elements.push(WideElement {
                table,
                offset,
                functions,
            })?;
            Ok(())
        }
        _ => Ok(()),
    }
}

/// The element segments of some fields.
pub fn elements(
    alloc: Global,
    space: &Space,
    fields: &FrontList<Field>,
) -> Result<Vec<WideElement>, AllocError>
    ensures { IfOk result (λ elements. elements.items ≡ in_order (elements_in (space_in space.now)) none_yet fields.now) }
{
    let mut elements = Vec::new(alloc);
    let mut before = Counts::none();
    'fields: for i in 0..fields.len() {
        let field = fields.at(i);
        add_element(alloc, space, &before, field, &mut elements)?;
        before.count(tag_of(field))?;
    }
    Ok(elements)
}

/// Puts the data segment of a field behind the others, if it has one.
fn add_segment(
    alloc: Global,
    space: &Space,
    before: &Counts,
    field: &Field,
    segments: &mut Vec<WideSegment>,
) -> Result<(), AllocError>
    ensures { OnOk result (segments.new.items
        ≡ segments.old.items ++ segments_in (space_in space.now) before.now field.now) }
{
    match field.kind {
        FieldKind::DataField => {
            let memory = find_or_zero(&space.memories, &field.draft.target);
            let offset = constant(space, &field.draft.code);
            let bytes = bytes_in(alloc, &field.draft)?;
            segments.push(WideSegment {
                memory,
                offset,
                bytes,
            })?;
            Ok(())
        }
        FieldKind::Defining(ExternTag::Memory) => {
            if !field.draft.inline {
                return Ok(());
            }
            let memory = before.memories;
            let offset = zero();
            let bytes = bytes_in(alloc, &field.draft)?;
            segments.push(WideSegment {
                memory,
                offset,
                bytes,
            })?;
            Ok(())
        }
        _ => Ok(()),
    }
}

/// The data segments of some fields.
pub fn segments(
    alloc: Global,
    space: &Space,
    fields: &FrontList<Field>,
) -> Result<Vec<WideSegment>, AllocError>
    ensures { IfOk result (λ segments. segments.items ≡ in_order (segments_in (space_in space.now)) none_yet fields.now) }
{
    let mut segments = Vec::new(alloc);
    let mut before = Counts::none();
    'fields: for i in 0..fields.len() {
        let field = fields.at(i);
        add_segment(alloc, space, &before, field, &mut segments)?;
        before.count(tag_of(field))?;
    }
    Ok(segments)
}
