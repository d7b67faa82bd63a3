//! Appending what the items of a module become under labels. Where memory runs out, some bytes may be there.
ghost use Rattle.std.specs.Prelude.{◌≡◌, ◌<◌, ◌^◌, ◌++◌, length, get_or, None, OnOk};
ghost use Rattle.ctw_ops.specs.declared.types.Label.{Label};
ghost use Rattle.ctw_ops.specs.declared.types.Trust.TheVariants.{Untrusted};
ghost use Rattle.ctw_ops.specs.Valid.{IsFitting};
ghost use Rattle.ctw_labels.specs.Placed.{placed_constant};
ghost use Rattle.ctw_form.specs.Spelled.{global_of};
ghost use Rattle.ctw_form.specs.Shown.{constant_of};
ghost use Rattle.ctw_module.specs.Given.{extern_given, import_given};
ghost use Rattle.ctw_write.specs.Canon.{vector_text, type_text, type_entry_text, import_text, extern_text, global_text, element_text};
ghost use Rattle.ctw_place.specs.Items.{variable_under, memory_under, extern_under, import_under, global_under};

use ctw_leb::put_u32;
use ctw_module::{ConstExpr, Element, ExternKind, Import};
use ctw_ops::{FuncType, GlobalType, Label, MemType, ValType};
use ctw_write::text::{
    put_constant, put_functions, put_global, put_memory, put_result, put_sized, put_table,
    put_variable,
};
use std::alloc::AllocError;

/// The parameters of a type: their bytes are those in the file.
fn put_params(out: &mut Vec<u8>, ty: &FuncType) -> Result<(), AllocError>
    requires { length ty.now.params < 2 ^ 32 }
    ensures { OnOk result (out.new.items ≡ out.old.items ++ vector_text type_text ty.now.params) }
{
    put_sized(out, ty.params)
}

/// A type entry that is no variant, and untrusted.
pub fn put_entry(out: &mut Vec<u8>, ty: &FuncType) -> Result<(), AllocError>
    requires trust { ty.now.trust ≡ Untrusted }
    requires few { length ty.now.params < 2 ^ 32 }
    ensures { OnOk result (out.new.items ≡ out.old.items ++ type_entry_text (record { base = None; type = ty.now })) }
{
    out.push(0x60)?;
    put_params(out, ty)?;
    put_result(out, ty.result)
}

/// A global's type with a label.
fn labelled_variable(ty: GlobalType, label: Label) -> GlobalType
    ensures { result ≡ variable_under label ty }
{
    GlobalType {
        value: ValType {
            width: ty.value.width,
            label,
        },
        mutable: ty.mutable,
    }
}

/// A memory's type with a label.
pub fn labelled_memory(ty: MemType, label: Label) -> MemType
    ensures { result ≡ memory_under label ty }
{
    MemType {
        label,
        limits: ty.limits,
    }
}

/// A constant expression, whose number has a label then.
fn labelled_constant(value: ConstExpr, label: Label) -> ConstExpr
    ensures { constant_of result ≡ placed_constant label (constant_of value) }
{
    match value {
        ConstExpr::Const { value, bits } => ConstExpr::Const {
            value: ValType {
                width: value.width,
                label,
            },
            bits,
        },
        ConstExpr::Get { global } => ConstExpr::Get { global },
    }
}

/// What an import asks for: a function of the type of this index, a memory of the one label, or a global of the other.
fn put_extern(
    out: &mut Vec<u8>,
    kind: &ExternKind,
    index: u32,
    memory: Label,
    label: Label,
) -> Result<(), AllocError>
    ensures { OnOk result (out.new.items
        ≡ out.old.items ++ extern_text (extern_under index memory label (extern_given kind.now))) }
{
    match kind {
        ExternKind::Func { .. } => {
            out.push(0x00)?;
            put_u32(out, index)
        }
        ExternKind::Table(limits) => {
            out.push(0x01)?;
            put_table(out, *limits)
        }
        ExternKind::Memory(ty) => {
            out.push(0x02)?;
            put_memory(out, labelled_memory(*ty, memory))
        }
        ExternKind::Global(ty) => {
            out.push(0x03)?;
            put_variable(out, labelled_variable(*ty, label))
        }
    }
}

/// An import, whose spelling is shorter than 2^32 bytes.
#[tactic(auto, using(ctw_write::proofs::Shorter::import_short))]
pub fn put_import(
    out: &mut Vec<u8>,
    import: &Import,
    index: u32,
    memory: Label,
    label: Label,
) -> Result<(), AllocError>
    requires { length (import_text (import_under index memory label (import_given import.now))) < 2 ^ 32 }
    ensures { OnOk result (out.new.items
        ≡ out.old.items ++ import_text (import_under index memory label (import_given import.now))) }
{
    put_sized(out, import.module.as_bytes())?;
    put_sized(out, import.name.as_bytes())?;
    put_extern(out, &import.kind, index, memory, label)
}

/// A defined global with a label, whose initial number fits its width.
pub fn put_labelled_global(
    out: &mut Vec<u8>,
    ty: GlobalType,
    init: ConstExpr,
    label: Label,
) -> Result<(), AllocError>
    requires { IsFitting (constant_of init) }
    ensures { OnOk result (out.new.items
        ≡ out.old.items ++ global_text (global_under label (global_of ty (constant_of init)))) }
{
    put_global(
        out,
        labelled_variable(ty, label),
        labelled_constant(init, label),
    )
}

/// An element.
pub fn put_element(out: &mut Vec<u8>, element: &Element) -> Result<(), AllocError>
    requires { IsFitting element.now.offset }
    ensures { OnOk result (out.new.items ≡ out.old.items ++ element_text element.now) }
{
    put_u32(out, element.table)?;
    put_constant(out, element.offset)?;
    put_functions(out, element)
}
