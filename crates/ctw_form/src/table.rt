ghost use Rattle.std.specs.Prelude.{◌≡◌};
ghost use Rattle.ctw_form.specs.Tables.{value_type, entry_form, trust_byte, table_byte, limits_form, memory_form, mutability, extern_kind, import_kind, no_constant, constant_form, secret_constant, constant_end, section_kind};

use crate::fault::FormKind;
use ctw_flat::{Bare, Form, Indexed, SECRET_PREFIX, is_float_opcode, opcode_of, type_of_byte};
use ctw_ops::{ExternTag, Label, Trust, ValType, What, Width};

/// How a type entry goes on behind its first byte.
#[derive(Clone, Copy, Debug, PartialEq, Eq)]
pub enum EntryForm {
    /// With the parameters and the result of a type of this trust.
    Direct(Trust),
    /// With the entry that it is a variant of.
    Variant,
}

/// How the limits of a memory go on behind their first byte.
#[derive(Clone, Copy, Debug, PartialEq, Eq)]
pub struct MemoryForm {
    /// The label of the memory.
    pub label: Label,
    /// Whether a greatest size stands there.
    pub bounded: bool,
}

/// How a constant expression goes on behind its first byte.
#[derive(Clone, Copy, Debug, PartialEq, Eq)]
pub enum ConstantForm {
    /// With a public number.
    Number(Width),
    /// With the index of a global.
    Global,
    /// With the opcode of a secret number.
    Prefix,
}

/// The kinds of sections (W3C WebAssembly Core 1.0, section 5.5.2).
#[derive(Clone, Copy, Debug, PartialEq, Eq)]
pub enum SectionKind {
    /// Id 0.
    Custom,
    /// Id 1.
    Types,
    /// Id 2.
    Imports,
    /// Id 3.
    Functions,
    /// Id 4.
    Tables,
    /// Id 5.
    Memories,
    /// Id 6.
    Globals,
    /// Id 7.
    Exports,
    /// Id 8.
    Start,
    /// Id 9.
    Elements,
    /// Id 10.
    Codes,
    /// Id 11.
    Segments,
}

/// What imports so far have: each may stand once in a module.
#[derive(Clone, Copy, Debug, PartialEq, Eq)]
pub struct Held {
    /// A table.
    pub table: bool,
    /// A memory.
    pub memory: bool,
}

/// The value type of a byte.
#[tactic(auto, unfolding(crate::specs::Tables::value_type))]
pub(crate) fn value_type_of(ct: bool, byte: u8) -> Result<ValType, FormKind>
    ensures { result ≡ value_type ct byte }
{
    match type_of_byte(byte) {
        Some(t) if ct || t.label == Label::Public => Ok(t),
        Some(_) => Err(FormKind::LabelsInPlain),
        None => match byte {
            0x7C | 0x7D => Err(FormKind::Floats),
            _ => Err(FormKind::BadType),
        },
    }
}

/// How a type entry goes on behind a byte.
#[tactic(auto, unfolding(crate::specs::Tables::entry_form))]
pub(crate) fn entry_form_of(ct: bool, byte: u8) -> Result<EntryForm, FormKind>
    ensures { result ≡ entry_form ct byte }
{
    match byte {
        0x60 => Ok(EntryForm::Direct(Trust::Untrusted)),
        0x61 if ct => Ok(EntryForm::Direct(Trust::Trusted)),
        0x62 if ct => Ok(EntryForm::Variant),
        0x61 | 0x62 => Err(FormKind::LabelsInPlain),
        _ => Err(FormKind::BadType),
    }
}

/// The trust of a variant.
#[tactic(auto, unfolding(crate::specs::Tables::trust_byte))]
pub(crate) fn trust_of(byte: u8) -> Result<Trust, FormKind>
    ensures { result ≡ trust_byte byte }
{
    match byte {
        0x00 => Ok(Trust::Untrusted),
        0x01 => Ok(Trust::Trusted),
        _ => Err(FormKind::BadType),
    }
}

/// The byte before the limits of a table.
#[tactic(auto, unfolding(crate::specs::Tables::table_byte))]
pub(crate) fn table_byte_of(byte: u8) -> Result<(), FormKind>
    ensures { result ≡ table_byte byte }
{
    match byte {
        0x70 => Ok(()),
        _ => Err(FormKind::BadType),
    }
}

/// Whether a greatest size stands behind the least.
#[tactic(auto, unfolding(crate::specs::Tables::limits_form))]
pub(crate) fn limits_form_of(byte: u8) -> Result<bool, FormKind>
    ensures { result ≡ limits_form byte }
{
    match byte {
        0x00 => Ok(false),
        0x01 => Ok(true),
        _ => Err(FormKind::BadType),
    }
}

/// How the limits of a memory go on behind a byte.
#[tactic(auto, unfolding(crate::specs::Tables::memory_form))]
pub(crate) fn memory_form_of(ct: bool, byte: u8) -> Result<MemoryForm, FormKind>
    ensures { result ≡ memory_form ct byte }
{
    let (label, bounded) = match byte {
        0x00 => (Label::Public, false),
        0x01 => (Label::Public, true),
        0x10 if ct => (Label::Secret, false),
        0x11 if ct => (Label::Secret, true),
        0x10 | 0x11 => return Err(FormKind::LabelsInPlain),
        _ => return Err(FormKind::BadType),
    };
    Ok(MemoryForm { label, bounded })
}

/// Whether a global may be written.
#[tactic(auto, unfolding(crate::specs::Tables::mutability))]
pub(crate) fn mutability_of(byte: u8) -> Result<bool, FormKind>
    ensures { result ≡ mutability byte }
{
    match byte {
        0x00 => Ok(false),
        0x01 => Ok(true),
        _ => Err(FormKind::BadType),
    }
}

/// The kind of an export.
#[tactic(auto, unfolding(crate::specs::Tables::extern_kind))]
pub(crate) fn extern_kind_of(byte: u8) -> Result<ExternTag, FormKind>
    ensures { result ≡ extern_kind byte }
{
    match byte {
        0x00 => Ok(ExternTag::Func),
        0x01 => Ok(ExternTag::Table),
        0x02 => Ok(ExternTag::Memory),
        0x03 => Ok(ExternTag::Global),
        _ => Err(FormKind::BadType),
    }
}

/// The kind of an import behind imports that have so much.
#[tactic(auto, unfolding(crate::specs::Tables::import_kind))]
pub(crate) fn import_kind_of(held: Held, byte: u8) -> Result<ExternTag, FormKind>
    ensures { result ≡ import_kind held byte }
{
    match byte {
        0x01 if held.table => Err(FormKind::TooMany {
            what: What::Tables,
            limit: 1,
        }),
        0x02 if held.memory => Err(FormKind::TooMany {
            what: What::Memories,
            limit: 1,
        }),
        _ => extern_kind_of(byte),
    }
}

/// What is wrong with a byte that has no meaning where an opcode of a constant expression stands.
#[tactic(auto, unfolding(crate::specs::Tables::no_constant))]
fn no_constant_of(ct: bool, byte: u8) -> FormKind
    ensures { result ≡ no_constant ct byte }
{
    if is_float_opcode(byte) {
        return FormKind::Floats;
    }
    match byte {
        0xE0..=0xE4 if !ct => FormKind::LabelsInPlain,
        _ => FormKind::BadOpcode,
    }
}

/// The first opcode of a constant expression.
#[tactic(auto, unfolding(crate::specs::Tables::constant_form))]
pub(crate) fn constant_form_of(ct: bool, byte: u8) -> Result<ConstantForm, FormKind>
    ensures { result ≡ constant_form ct byte }
{
    if byte == opcode_of(Form::Const(Width::W32)) {
        Ok(ConstantForm::Number(Width::W32))
    } else if byte == opcode_of(Form::Const(Width::W64)) {
        Ok(ConstantForm::Number(Width::W64))
    } else if byte == opcode_of(Form::Indexed(Indexed::GlobalGet)) {
        Ok(ConstantForm::Global)
    } else if ct && byte == SECRET_PREFIX {
        Ok(ConstantForm::Prefix)
    } else {
        Err(no_constant_of(ct, byte))
    }
}

/// The opcode behind the prefix of a constant expression.
#[tactic(auto, unfolding(crate::specs::Tables::secret_constant))]
pub(crate) fn secret_constant_of(byte: u8) -> Result<Width, FormKind>
    ensures { result ≡ secret_constant byte }
{
    if byte == opcode_of(Form::Const(Width::W32)) {
        Ok(Width::W32)
    } else if byte == opcode_of(Form::Const(Width::W64)) {
        Ok(Width::W64)
    } else {
        Err(no_constant_of(true, byte))
    }
}

/// The `end` of a constant expression.
#[tactic(auto, unfolding(crate::specs::Tables::constant_end))]
pub(crate) fn constant_end_of(ct: bool, byte: u8) -> Result<(), FormKind>
    ensures { result ≡ constant_end ct byte }
{
    if byte == opcode_of(Form::Bare(Bare::End)) {
        Ok(())
    } else {
        Err(no_constant_of(ct, byte))
    }
}

/// The kind of a section by its id, behind sections of which the last but custom ones had the id `last`.
#[tactic(auto, unfolding(crate::specs::Tables::section_kind))]
pub(crate) fn section_kind_of(last: u8, id: u8) -> Result<SectionKind, FormKind>
    ensures { result ≡ section_kind last id }
{
    match id {
        0 => Ok(SectionKind::Custom),
        1 if last < 1 => Ok(SectionKind::Types),
        2 if last < 2 => Ok(SectionKind::Imports),
        3 if last < 3 => Ok(SectionKind::Functions),
        4 if last < 4 => Ok(SectionKind::Tables),
        5 if last < 5 => Ok(SectionKind::Memories),
        6 if last < 6 => Ok(SectionKind::Globals),
        7 if last < 7 => Ok(SectionKind::Exports),
        8 if last < 8 => Ok(SectionKind::Start),
        9 if last < 9 => Ok(SectionKind::Elements),
        10 if last < 10 => Ok(SectionKind::Codes),
        11 if last < 11 => Ok(SectionKind::Segments),
        _ => Err(FormKind::BadSection),
    }
}
