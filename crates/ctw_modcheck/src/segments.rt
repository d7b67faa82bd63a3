ghost use Rattle.std.specs.Prelude.{◌≡◌, IsTrue};
ghost use Rattle.std.specs.List.{list_all};
ghost use Rattle.ctw_ops.specs.Tree.{function_entries, global_types};
ghost use Rattle.ctw_ops.specs.Types.{value_type};
ghost use Rattle.ctw_ops.specs.declared.types.Label.TheVariants.{Public};
ghost use Rattle.ctw_ops.specs.declared.types.Width.TheVariants.{W32};
ghost use Rattle.ctw_form.specs.Shown.{constant_of};
ghost use Rattle.ctw_module.specs.Trees.{tree};
ghost use Rattle.ctw_modcheck.specs.Answers.{Answers};
ghost use Rattle.ctw_modcheck.specs.Faults.{first_in, names, is_there, names_constant, is_of_type, offset_fault, element_fault, segment_fault};

use crate::fault::Invalid;
use crate::names::{is_named, names_global};
use ctw_module::{ConstExpr, Element, Module, Segment};
use ctw_ops::{ExternTag, Label, Space, ValType, Width};

/// The type of offsets.
const OFFSET: ValType = ValType {
    width: Width::W32,
    label: Label::Public,
};

/// The first fault of the element segments.
pub fn check_elements(m: &Module) -> Result<(), Invalid>
    ensures { Answers result (first_in (element_fault (tree m.now)) 0 (tree m.now).elements) }
{
    'elements: for i in 0..m.element_count() {
        let Some(element) = m.element(i) else {
            unreachable!();
        };
        check_element(m, i, &element)?;
    }
    Ok(())
}

/// The first fault of the data segments.
pub fn check_segments(m: &Module) -> Result<(), Invalid>
    ensures { Answers result (first_in (segment_fault (tree m.now)) 0 (tree m.now).segments) }
{
    'segments: for i in 0..m.segment_count() {
        let Some(segment) = m.segment(i) else {
            unreachable!();
        };
        check_segment(m, i, &segment)?;
    }
    Ok(())
}

/// The fault of an element segment.
fn check_element(m: &Module, i: u32, element: &Element) -> Result<(), Invalid>
    ensures { Answers result (element_fault (tree m.now) i element.now) }
{
    let found = is_named(m, ExternTag::Table, element.table) && has_functions(m, element);
    check_offset(m, Space::Elements, i, found, &element.offset)
}

/// Whether the functions of an element segment are all there.
fn has_functions(m: &Module, element: &Element) -> bool
    ensures { result ≡ list_all (names (function_entries (tree m.now))) element.now.functions }
{
    'functions: for k in 0..element.count() {
        if element.func(k) >= m.func_count() {
            return false;
        }
    }
    true
}

/// The fault of a data segment.
fn check_segment(m: &Module, i: u32, segment: &Segment) -> Result<(), Invalid>
    ensures { Answers result (segment_fault (tree m.now) i segment.now) }
{
    let found = is_named(m, ExternTag::Memory, segment.memory);
    check_offset(m, Space::Segments, i, found, &segment.offset)
}

/// The fault of a segment by its offset: what the segment or the offset names isn't there, the offset's global isn't
/// constant, or the offset isn't of type i32.
fn check_offset(
    m: &Module,
    space: Space,
    index: u32,
    found: bool,
    offset: &ConstExpr,
) -> Result<(), Invalid>
    ensures { Answers result (offset_fault (tree m.now) space index found (constant_of offset.now)) }
{
    if !found || !names_global(m, offset) {
        return Err(Invalid::ModuleIndex { space, index });
    }
    if !is_constant(m, offset) {
        return Err(Invalid::ConstExpr { space, index });
    }
    if !is_number(m, offset) {
        return Err(Invalid::SegmentType { space, index });
    }
    Ok(())
}

/// Whether an offset is a number, or names a global that is constant.
fn is_constant(m: &Module, offset: &ConstExpr) -> bool
    requires { IsTrue (is_there (tree m.now) (constant_of offset.now)) }
    ensures { result ≡ names_constant (global_types (tree m.now)) (constant_of offset.now) }
{
    match offset {
        ConstExpr::Const { .. } => true,
        ConstExpr::Get { global } => !m.global(*global).ty.mutable,
    }
}

/// Whether an offset is of type i32.
fn is_number(m: &Module, offset: &ConstExpr) -> bool
    requires { IsTrue (is_there (tree m.now) (constant_of offset.now)) }
    ensures { result ≡ is_of_type (global_types (tree m.now)) (value_type W32 Public) (constant_of offset.now) }
{
    let ty = match offset {
        ConstExpr::Const { value, .. } => *value,
        ConstExpr::Get { global } => m.global(*global).ty.value,
    };
    ty == OFFSET
}
