//! Appending the fields of a module, each on a line of its own. Where memory runs out, some of the text may be there.
ghost use Rattle.std.specs.Prelude.{◌≡◌, ◌<◌, ◌≤◌, ◌++◌, length, drop, option_map, slice_get, Some, OnOk, All, IsTrue, codes};
ghost use Rattle.std.specs.String.{string_bytes};
ghost use Rattle.ctw_ops.specs.declared.types.Label.{Label};
ghost use Rattle.std.specs.List.{list_all};
ghost use Rattle.ctw_ops.specs.Code.{opcodes};
ghost use Rattle.ctw_ops.specs.Types.{byte_types, is_type_byte};
ghost use Rattle.ctw_ops.specs.Tree.{Function, Global as TreeGlobal, Element as TreeElement, Segment as TreeSegment, type_named};
ghost use Rattle.ctw_ops.specs.Valid.{IsFitting, IsValid};
ghost use Rattle.ctw_form.specs.Shown.{constant_of};
ghost use Rattle.ctw_form.specs.Spelled.{export_of};
ghost use Rattle.ctw_module.specs.Trees.{tree};
ghost use Rattle.ctw_module.specs.Lookup.{function_named, locals_named};
ghost use Rattle.ctw_module.specs.Given.{extern_given, import_given};
ghost use Rattle.ctw_print.specs.Texts.{all_texts, spaced_number, spaced_type, params_text, locals_text, lines_text, HasAlign, trust_text, use_text, type_text, entry_text, type_line, extern_text, import_line, function_lines, global_line, export_line, element_line, segment_line, custom_line};

use crate::code::put_body;
use crate::item::{
    put_constant, put_memory, put_number, put_result, put_spaced, put_string, put_table, put_type,
    put_types, put_use, put_variable,
};
use crate::word::kind_word;
use ctw_module::{Custom, Element, ExternKind, Global1, Import, Module, Segment};
use ctw_ops::{ExternTag, FuncType, Trust};
use std::alloc::AllocError;

/// The word of a trusted type.
fn put_trust(out: &mut String, trust: Trust) -> Result<(), AllocError>
    ensures { OnOk result (string_bytes out.new ≡ string_bytes out.old ++ trust_text trust) }
{
    match trust {
        Trust::Untrusted => Ok(()),
        Trust::Trusted => out.push_str(" trusted"),
    }
}

/// How many parameters a type has.
fn param_count(ty: &FuncType) -> usize
    ensures { result ≡ length ty.now.params }
{
    ty.params.len()
}

/// Parameters by the bytes of their types.
fn put_param_group(out: &mut String, bytes: &[u8]) -> Result<(), AllocError>
    requires { IsTrue (list_all is_type_byte bytes.now) }
    ensures { OnOk result (string_bytes out.new
        ≡ string_bytes out.old ++ codes " (param" ++ all_texts spaced_type (byte_types bytes.now) ++ codes ")") }
{
    out.push_str(" (param")?;
    put_types(out, bytes)?;
    out.push(')')
}

/// The parameters of a type, if there are some.
fn put_params(out: &mut String, ty: &FuncType) -> Result<(), AllocError>
    ensures { OnOk result (string_bytes out.new ≡ string_bytes out.old ++ params_text ty.now.params) }
{
    if param_count(ty) == 0 {
        return Ok(());
    }
    put_param_group(out, ty.params)
}

/// A function's type.
fn put_func_type(out: &mut String, ty: &FuncType) -> Result<(), AllocError>
    ensures { OnOk result (string_bytes out.new ≡ string_bytes out.old ++ type_text ty.now) }
{
    out.push_str("(func")?;
    put_trust(out, ty.trust)?;
    put_params(out, ty)?;
    put_result(out, ty.result)?;
    out.push(')')
}

/// A type entry, perhaps a variant of another.
fn put_entry(out: &mut String, base: Option<u32>, ty: &FuncType) -> Result<(), AllocError>
    ensures { OnOk result (string_bytes out.new ≡ string_bytes out.old ++ entry_text base ty.now) }
{
    match base {
        None => put_func_type(out, ty),
        Some(base) => {
            out.push_str("(variant ")?;
            put_number(out, base)?;
            out.push(' ')?;
            put_func_type(out, ty)?;
            out.push(')')
        }
    }
}

/// The field of a type entry.
fn put_type_field(out: &mut String, base: Option<u32>, ty: &FuncType) -> Result<(), AllocError>
    ensures { OnOk result (string_bytes out.new
        ≡ string_bytes out.old ++ type_line (record { base = base; type = ty.now })) }
{
    out.push_str("\n  (type ")?;
    put_entry(out, base, ty)?;
    out.push(')')
}

/// The type entries.
pub(crate) fn put_type_fields(out: &mut String, m: &Module) -> Result<(), AllocError>
    ensures { OnOk result (string_bytes out.new ≡ string_bytes out.old ++ all_texts type_line (tree m.now).types) }
{
    for i in 0..m.type_count() {
        let base = m.variant_of(i);
        let ty = m.func_type(i);
        put_type_field(out, base, &ty)?;
    }
    Ok(())
}

/// What an import asks for.
fn put_extern(out: &mut String, kind: &ExternKind) -> Result<(), AllocError>
    ensures { OnOk result (string_bytes out.new ≡ string_bytes out.old ++ extern_text (extern_given kind.now)) }
{
    match kind {
        ExternKind::Func { type_index, .. } => {
            out.push_str("(func")?;
            put_use(out, *type_index)?;
            out.push(')')
        }
        ExternKind::Table(limits) => put_table(out, *limits),
        ExternKind::Memory(ty) => put_memory(out, *ty),
        ExternKind::Global(ty) => {
            out.push_str("(global ")?;
            put_variable(out, *ty)?;
            out.push(')')
        }
    }
}

/// The field of an import.
fn put_import(out: &mut String, import: &Import) -> Result<(), AllocError>
    ensures { OnOk result (string_bytes out.new ≡ string_bytes out.old ++ import_line (import_given import.now)) }
{
    out.push_str("\n  (import ")?;
    put_string(out, import.module.as_bytes())?;
    out.push(' ')?;
    put_string(out, import.name.as_bytes())?;
    out.push(' ')?;
    put_extern(out, &import.kind)?;
    out.push(')')
}

/// The imports.
pub(crate) fn put_imports(out: &mut String, m: &Module) -> Result<(), AllocError>
    ensures { OnOk result (string_bytes out.new ≡ string_bytes out.old ++ all_texts import_line (tree m.now).imports) }
{
    for i in 0..m.import_count() {
        let import = m.import(i);
        put_import(out, &import)?;
    }
    Ok(())
}

/// How many parameters a defined function has, whose type index names an entry.
fn first_local(m: &Module, f: u32) -> usize
    requires { (function : Function Label) × (function_named (tree m.now) f ≡ Some function)
        × (function.type < length (tree m.now).types) }
    ensures { (function : Function Label) → function_named (tree m.now) f ≡ Some function
        → result ≡ length (type_named (tree m.now) function.type).params }
{
    let ty = m.func_type(m.type_of_func(f));
    param_count(&ty)
}

/// The types of a defined function's locals from the first on, up to `count`, which is how many there are.
fn put_declared(
    out: &mut String,
    m: &Module,
    f: u32,
    first: u32,
    count: u32,
) -> Result<(), AllocError>
    requires from { first ≤ count }
    requires to { count ≡ length (locals_named (tree m.now) f) }
    ensures { OnOk result (string_bytes out.new
        ≡ string_bytes out.old ++ all_texts spaced_type (drop first (locals_named (tree m.now) f))) }
{
    for i in first..count {
        put_type(out, m.local(f, i))?;
    }
    Ok(())
}

/// A defined function's locals from the first on, up to `count`, which is how many there are.
fn put_local_group(
    out: &mut String,
    m: &Module,
    f: u32,
    first: u32,
    count: u32,
) -> Result<(), AllocError>
    requires from { first ≤ count }
    requires to { count ≡ length (locals_named (tree m.now) f) }
    ensures { OnOk result (string_bytes out.new ≡ string_bytes out.old
        ++ codes " (local" ++ all_texts spaced_type (drop first (locals_named (tree m.now) f)) ++ codes ")") }
{
    out.push_str(" (local")?;
    put_declared(out, m, f, first, count)?;
    out.push(')')
}

/// The declared locals of a defined function, if there are some.
fn put_locals(out: &mut String, m: &Module, f: u32) -> Result<(), AllocError>
    requires { (function : Function Label) × (function_named (tree m.now) f ≡ Some function)
        × (function.type < length (tree m.now).types) }
    ensures { (function : Function Label) → function_named (tree m.now) f ≡ Some function
        → OnOk result (string_bytes out.new ≡ string_bytes out.old ++ locals_text function.locals) }
{
    let count = m.local_count(f);
    let first = first_local(m, f) as u32;
    if first == count {
        return Ok(());
    }
    put_local_group(out, m, f, first, count)
}

/// The instructions of a defined function, but for the closing end.
fn put_instructions(out: &mut String, m: &Module, f: u32) -> Result<(), AllocError>
    requires { (function : Function Label) × (function_named (tree m.now) f ≡ Some function)
        × All HasAlign (opcodes function.body) }
    ensures { (function : Function Label) → function_named (tree m.now) f ≡ Some function
        → OnOk result (string_bytes out.new ≡ string_bytes out.old ++ lines_text (opcodes function.body)) }
{
    let Some(body) = m.body(f) else {
        unreachable!();
    };
    put_body(out, &body)
}

/// The head of a defined function, with its type.
fn put_head(out: &mut String, m: &Module, f: u32) -> Result<(), AllocError>
    requires { (function : Function Label) × (function_named (tree m.now) f ≡ Some function) }
    ensures { (function : Function Label) → function_named (tree m.now) f ≡ Some function
        → OnOk result (string_bytes out.new ≡ string_bytes out.old ++ codes "\n  (func" ++ use_text function.type) }
{
    out.push_str("\n  (func")?;
    put_use(out, m.type_of_func(f))
}

/// A defined function.
fn put_function(out: &mut String, m: &Module, f: u32) -> Result<(), AllocError>
    requires { (function : Function Label) × (function_named (tree m.now) f ≡ Some function)
        × (function.type < length (tree m.now).types) × All HasAlign (opcodes function.body) }
    ensures { (function : Function Label) → function_named (tree m.now) f ≡ Some function
        → OnOk result (string_bytes out.new ≡ string_bytes out.old ++ function_lines function) }
{
    put_head(out, m, f)?;
    put_locals(out, m, f)?;
    put_instructions(out, m, f)?;
    out.push_str("\n  )")
}

/// The defined functions.
pub(crate) fn put_functions(out: &mut String, m: &Module) -> Result<(), AllocError>
    requires { IsValid (tree m.now) }
    ensures { OnOk result (string_bytes out.new
        ≡ string_bytes out.old ++ all_texts function_lines (tree m.now).functions) }
{
    let imported = m.imported_count(ExternTag::Func);
    let count = m.func_count() - imported;
    for i in 0..count {
        put_function(out, m, imported + i)?;
    }
    Ok(())
}

/// A defined global of a view.
fn put_global(out: &mut String, global: Global1) -> Result<(), AllocError>
    requires { (tree : TreeGlobal Label) × (global.ty ≡ tree.type)
        × (option_map constant_of global.init ≡ Some tree.init) × IsFitting tree.init }
    ensures { (tree : TreeGlobal Label) → global.ty ≡ tree.type → option_map constant_of global.init ≡ Some tree.init
        → OnOk result (string_bytes out.new ≡ string_bytes out.old ++ global_line tree) }
{
    let Global1 { ty, init } = global;
    let Some(init) = init else {
        unreachable!();
    };
    out.push_str("\n  (global ")?;
    put_variable(out, ty)?;
    out.push(' ')?;
    put_constant(out, init)?;
    out.push(')')
}

/// The defined globals.
pub(crate) fn put_globals(out: &mut String, m: &Module) -> Result<(), AllocError>
    requires { All (λ g. IsFitting g.init) (tree m.now).globals }
    ensures { OnOk result (string_bytes out.new ≡ string_bytes out.old ++ all_texts global_line (tree m.now).globals) }
{
    let imported = m.imported_count(ExternTag::Global);
    let count = m.global_count() - imported;
    for i in 0..count {
        put_global(out, m.global(imported + i))?;
    }
    Ok(())
}

/// The field of an export.
fn put_export(out: &mut String, name: &str, kind: ExternTag, index: u32) -> Result<(), AllocError>
    ensures { OnOk result (string_bytes out.new
        ≡ string_bytes out.old ++ export_line (export_of name.now kind index)) }
{
    out.push_str("\n  (export ")?;
    put_string(out, name.as_bytes())?;
    out.push_str(" (")?;
    out.push_str(kind_word(kind))?;
    put_spaced(out, index)?;
    out.push_str("))")
}

/// The exports.
pub(crate) fn put_exports(out: &mut String, m: &Module) -> Result<(), AllocError>
    ensures { OnOk result (string_bytes out.new ≡ string_bytes out.old ++ all_texts export_line (tree m.now).exports) }
{
    for i in 0..m.export_count() {
        let (name, kind, index) = m.export(i);
        put_export(out, name, kind, index)?;
    }
    Ok(())
}

/// The functions of an element, each behind a blank.
fn put_listed(out: &mut String, element: &Element) -> Result<(), AllocError>
    ensures { OnOk result (string_bytes out.new
        ≡ string_bytes out.old ++ all_texts spaced_number element.now.functions) }
{
    for i in 0..element.count() {
        put_spaced(out, element.func(i))?;
    }
    Ok(())
}

/// The field of an element; its table isn't named.
fn put_element(out: &mut String, element: &Element) -> Result<(), AllocError>
    requires { IsFitting element.now.offset }
    ensures { OnOk result (string_bytes out.new ≡ string_bytes out.old ++ element_line element.now) }
{
    out.push_str("\n  (elem ")?;
    put_constant(out, element.offset)?;
    put_listed(out, element)?;
    out.push(')')
}

/// An element by its index, which is below their count.
fn put_nth_element(out: &mut String, m: &Module, i: u32) -> Result<(), AllocError>
    requires there { i < length (tree m.now).elements }
    requires fits { All (λ e. IsFitting e.offset) (tree m.now).elements }
    ensures { (element : TreeElement Label) → slice_get (tree m.now).elements i ≡ Some element
        → OnOk result (string_bytes out.new ≡ string_bytes out.old ++ element_line element) }
{
    let Some(element) = m.element(i) else {
        unreachable!();
    };
    put_element(out, &element)
}

/// The elements.
pub(crate) fn put_elements(out: &mut String, m: &Module) -> Result<(), AllocError>
    requires { All (λ e. IsFitting e.offset) (tree m.now).elements }
    ensures { OnOk result (string_bytes out.new
        ≡ string_bytes out.old ++ all_texts element_line (tree m.now).elements) }
{
    for i in 0..m.element_count() {
        put_nth_element(out, m, i)?;
    }
    Ok(())
}

/// The field of a data segment; its memory isn't named.
fn put_segment(out: &mut String, segment: &Segment) -> Result<(), AllocError>
    requires { IsFitting segment.now.offset }
    ensures { OnOk result (string_bytes out.new ≡ string_bytes out.old ++ segment_line segment.now) }
{
    out.push_str("\n  (data ")?;
    put_constant(out, segment.offset)?;
    out.push(' ')?;
    put_string(out, segment.bytes)?;
    out.push(')')
}

/// A data segment by its index, which is below their count.
fn put_nth_segment(out: &mut String, m: &Module, i: u32) -> Result<(), AllocError>
    requires there { i < length (tree m.now).segments }
    requires fits { All (λ s. IsFitting s.offset) (tree m.now).segments }
    ensures { (segment : TreeSegment Label) → slice_get (tree m.now).segments i ≡ Some segment
        → OnOk result (string_bytes out.new ≡ string_bytes out.old ++ segment_line segment) }
{
    let Some(segment) = m.segment(i) else {
        unreachable!();
    };
    put_segment(out, &segment)
}

/// The data segments.
pub(crate) fn put_segments(out: &mut String, m: &Module) -> Result<(), AllocError>
    requires { All (λ s. IsFitting s.offset) (tree m.now).segments }
    ensures { OnOk result (string_bytes out.new
        ≡ string_bytes out.old ++ all_texts segment_line (tree m.now).segments) }
{
    for i in 0..m.segment_count() {
        put_nth_segment(out, m, i)?;
    }
    Ok(())
}

/// The field of a custom section.
fn put_custom(out: &mut String, custom: &Custom) -> Result<(), AllocError>
    ensures { OnOk result (string_bytes out.new ≡ string_bytes out.old ++ custom_line custom.now) }
{
    out.push_str("\n  (custom ")?;
    put_number(out, u32::from(custom.place))?;
    out.push(' ')?;
    put_string(out, custom.name.as_bytes())?;
    out.push(' ')?;
    put_string(out, custom.bytes)?;
    out.push(')')
}

/// The custom sections.
pub(crate) fn put_customs(out: &mut String, m: &Module) -> Result<(), AllocError>
    ensures { OnOk result (string_bytes out.new ≡ string_bytes out.old ++ all_texts custom_line (tree m.now).customs) }
{
    for i in 0..m.custom_count() {
        let Some(custom) = m.custom(i) else {
            unreachable!();
        };
        put_custom(out, &custom)?;
    }
    Ok(())
}
