//! Readers of single items of a module's file, for the reader of files.
//!
//! Each reads the item at the cursor, in a CT module or a plain one, or answers the first fault in it.
//! After a fault the cursor may stand anywhere.
ghost use Rattle.std.specs.Prelude.{◌≡◌, ◌+◌, ◌<◌, ◌≤◌, ◌^◌, length, IfOk, IsTrue};
ghost use Rattle.std.specs.List.{list_all};
ghost use Rattle.std.specs.Option.{option_to_list};
ghost use Rattle.ctw_ops.specs.Types.{byte_types, is_type_byte};
ghost use Rattle.ctw_leb.specs.Reading.{times};
ghost use Rattle.ctw_leb.specs.Calls.{Finds, Skips};
ghost use Rattle.ctw_form.specs.declared.table.EntryForm.TheVariants.{Direct};
ghost use Rattle.ctw_form.specs.Sections.{held_with as held_behind};
ghost use Rattle.ctw_ops.specs.Limits.{most_locals, most_locals_of_all};
ghost use Rattle.ctw_form.specs.Shown.{constant_of, extern_of, global_in, group_in};
ghost use Rattle.ctw_form.specs.Pieces.{window_at, segment_head_at};
ghost use Rattle.ctw_form.specs.Read.{of_leb as leb_fault, of_code as code_fault, inside as inside_of, number_at, bits32_at, bits64_at, bits_at, name_at, upto_at, vector_at, byte_vector_at, value_type_at, params_at, results_at, signature_at, variant_at, entry_behind, type_entry_at, sizes_at, table_at, memory_at, variable_at, extern_at, import_at, export_at, constant_number_at, constant_behind, constant_at, global_at, segment_at, group_count_at, group_at};

use crate::bytes::{
    constant_end, constant_form, entry_form, extern_kind, import_kind, limits_form, memory_form,
    mutability, secret_width, table_mark, trust,
};
pub use crate::bytes::{section_kind, value_type};
use crate::constant::ConstExpr;
use crate::entry::{
    ExportEntry, GlobalEntry, ImportEntry, ImportKind, LocalGroup, SegmentHead, TypeEntry,
};
use crate::fault::{FormFault, FormKind};
use crate::segment::Segment;
use crate::table::{ConstantForm, EntryForm, Held};
use ctw_flat::{CodeFault, CodeKind};
use ctw_leb::{Cursor, LebFault};
use ctw_ops::{
    ExternTag, FuncType, GlobalType, Label, Limits, MemType, Trust, ValType, What, Width,
};

/// The most parameters that a type may have.
pub const MOST_PARAMS: u32 = 1000;

/// The most declared locals that a function may have.
pub const MOST_LOCALS: u32 = 50_000;

/// The most declared locals that all functions of a module may have.
pub const MOST_LOCALS_OF_ALL: u32 = 1_000_000;

/// The fault of a number or a name where the cursor stands.
pub fn of_leb(cursor: &Cursor, fault: LebFault) -> FormFault
    ensures { result ≡ leb_fault cursor.now fault }
{
    match fault {
        LebFault::Truncated => FormFault {
            kind: FormKind::Truncated,
            place: cursor.place() + cursor.left(),
        },
        LebFault::BadLeb { place } => FormFault {
            kind: FormKind::BadLeb,
            place,
        },
        LebFault::BadUtf8 { place } => FormFault {
            kind: FormKind::BadUtf8,
            place,
        },
    }
}

/// The fault of an instruction, as a fault of the file.
pub fn of_code(fault: CodeFault) -> FormFault
    ensures { result ≡ code_fault fault }
{
    let kind = match fault.kind {
        CodeKind::Truncated => FormKind::Truncated,
        CodeKind::BadLeb => FormKind::BadLeb,
        CodeKind::BadOpcode => FormKind::BadOpcode,
        CodeKind::Floats => FormKind::Floats,
        CodeKind::BadBlockType => FormKind::BadType,
        CodeKind::Unbalanced => FormKind::Unbalanced,
        CodeKind::TooDeep => FormKind::TooMany {
            what: What::Nesting,
            limit: 4096,
        },
    };
    FormFault {
        kind,
        place: fault.place,
    }
}

/// A fault in something of a known size, as a fault of the file: there missing bytes are a wrong size.
pub fn inside(fault: FormFault) -> FormFault
    ensures { result ≡ inside_of fault }
{
    let kind = match fault.kind {
        FormKind::Truncated => FormKind::SizeMismatch,
        kind => kind,
    };
    FormFault {
        kind,
        place: fault.place,
    }
}

/// An unsigned number of 32 bits.
#[tactic(auto, unfolding(crate::specs::Read::number_at))]
pub fn number(cursor: &mut Cursor) -> Result<u32, FormFault>
    ensures { Finds (λ n. n) result cursor.new (number_at cursor.old) }
{
    match cursor.read_u32() {
        Ok(n) => Ok(n),
        Err(fault) => Err(of_leb(cursor, fault)),
    }
}

/// The bits of a signed number of 32 bits.
#[tactic(auto, unfolding(crate::specs::Read::bits32_at))]
fn bits32(cursor: &mut Cursor) -> Result<u64, FormFault>
    ensures { Finds (λ n. n) result cursor.new (bits32_at cursor.old) }
{
    match cursor.read_s32() {
        Ok(n) => Ok(u64::from(n.cast_unsigned())),
        Err(fault) => Err(of_leb(cursor, fault)),
    }
}

/// The bits of a signed number of 64 bits.
#[tactic(auto, unfolding(crate::specs::Read::bits64_at))]
fn bits64(cursor: &mut Cursor) -> Result<u64, FormFault>
    ensures { Finds (λ n. n) result cursor.new (bits64_at cursor.old) }
{
    match cursor.read_s64() {
        Ok(n) => Ok(n.cast_unsigned()),
        Err(fault) => Err(of_leb(cursor, fault)),
    }
}

/// A name.
#[tactic(auto, unfolding(crate::specs::Read::name_at))]
pub fn name<'a>(cursor: &mut Cursor<'a>) -> Result<&'a str, FormFault>
    ensures { Finds (λ t. t.now) result cursor.new (name_at cursor.old) }
{
    match cursor.name() {
        Ok(text) => Ok(text),
        Err(fault) => Err(of_leb(cursor, fault)),
    }
}

/// How many there are of what may stand at most `room` times; `limit` is the number that a fault names.
pub fn upto(cursor: &mut Cursor, room: u32, what: What, limit: u32) -> Result<u32, FormFault>
    ensures count { Finds (λ n. n) result cursor.new (upto_at room what limit cursor.old) }
    ensures within { IfOk result (λ n. n ≤ room) }
{
    let place = cursor.place();
    let n = number(cursor)?;
    if n > room {
        return Err(FormFault {
            kind: FormKind::TooMany { what, limit },
            place,
        });
    }
    Ok(n)
}

/// A window of as many bytes as the size in front of it says. Places in it are offsets in the file.
#[tactic(auto, unfolding(crate::specs::Pieces::window_at))]
pub fn window<'a>(cursor: &mut Cursor<'a>) -> Result<Cursor<'a>, FormFault>
    ensures { Finds (λ w. w) result cursor.new (window_at cursor.old) }
{
    let size = number(cursor)?;
    let place = cursor.place();
    let left = cursor.left();
    match cursor.take(size) {
        Ok(bytes) => Ok(Cursor::new(bytes, place)),
        Err(_) => Err(FormFault {
            kind: FormKind::Truncated,
            place: place + left,
        }),
    }
}

/// As many bytes as the size in front of them says.
#[tactic(auto, unfolding(crate::specs::Read::byte_vector_at))]
pub fn byte_vector<'a>(cursor: &mut Cursor<'a>) -> Result<&'a [u8], FormFault>
    ensures { Finds (λ b. b.now) result cursor.new (byte_vector_at cursor.old) }
{
    let size = number(cursor)?;
    let place = cursor.place();
    let left = cursor.left();
    match cursor.take(size) {
        Ok(bytes) => Ok(bytes),
        Err(_) => Err(FormFault {
            kind: FormKind::Truncated,
            place: place + left,
        }),
    }
}

/// The bytes of so many value types.
fn value_types<'a>(ct: bool, cursor: &mut Cursor<'a>, count: u32) -> Result<&'a [u8], FormFault>
    ensures types { Finds (λ b. byte_types b.now) result cursor.new (times (value_type_at ct) count cursor.old) }
    ensures bytes { IfOk result (λ b. IsTrue (list_all is_type_byte b.now)) }
{
    let bytes = cursor.rest();
    'types: for _ in 0..count {
        value_type(ct, cursor)?;
    }
    Ok(&bytes[..count as usize])
}

/// The bytes of a type's parameters.
#[tactic(auto, unfolding(crate::specs::Read::params_at, ctw_ops::specs::Limits::most_params))]
fn params<'a>(ct: bool, cursor: &mut Cursor<'a>) -> Result<&'a [u8], FormFault>
    ensures types { Finds (λ b. byte_types b.now) result cursor.new (params_at ct cursor.old) }
    ensures bytes { IfOk result (λ b. IsTrue (list_all is_type_byte b.now)) }
{
    let count = upto(cursor, MOST_PARAMS, What::Params, MOST_PARAMS)?;
    value_types(ct, cursor, count)
}

/// The result of a type.
#[tactic(auto, unfolding(crate::specs::Read::results_at))]
fn results(ct: bool, cursor: &mut Cursor) -> Result<Option<ValType>, FormFault>
    ensures { Finds option_to_list result cursor.new (results_at ct cursor.old) }
{
    let count = upto(cursor, 1, What::Results, 1)?;
    if count == 0 {
        return Ok(None);
    }
    Ok(Some(value_type(ct, cursor)?))
}

/// The parameters and the result of a type of this trust.
#[tactic(auto, unfolding(crate::specs::Read::signature_at))]
fn signature<'a>(ct: bool, trust: Trust, cursor: &mut Cursor<'a>) -> Result<FuncType<'a>, FormFault>
    ensures { Finds (λ t. t) result cursor.new (signature_at ct trust cursor.old) }
{
    let params = params(ct, cursor)?;
    let result = results(ct, cursor)?;
    Ok(FuncType {
        trust,
        params,
        result,
    })
}

/// A type entry that is no variant, behind its first byte.
fn direct<'a>(ct: bool, trust: Trust, cursor: &mut Cursor<'a>) -> Result<TypeEntry<'a>, FormFault>
    ensures { Finds (λ e. e) result cursor.new (entry_behind ct (Direct trust) cursor.old) }
{
    let ty = signature(ct, trust, cursor)?;
    Ok(TypeEntry { base: None, ty })
}

/// A variant behind its first byte.
#[tactic(auto, unfolding(crate::specs::Read::variant_at, crate::specs::Pieces::trust_at))]
fn variant<'a>(ct: bool, cursor: &mut Cursor<'a>) -> Result<TypeEntry<'a>, FormFault>
    ensures { Finds (λ e. e) result cursor.new (variant_at ct cursor.old) }
{
    let base = number(cursor)?;
    let trust = trust(cursor)?;
    let ty = signature(ct, trust, cursor)?;
    Ok(TypeEntry {
        base: Some(base),
        ty,
    })
}

/// An entry of the type section.
#[tactic(auto, unfolding(crate::specs::Read::type_entry_at, crate::specs::Pieces::entry_form_at))]
pub fn type_entry<'a>(ct: bool, cursor: &mut Cursor<'a>) -> Result<TypeEntry<'a>, FormFault>
    ensures { Finds (λ e. e) result cursor.new (type_entry_at ct cursor.old) }
{
    match entry_form(ct, cursor) {
        Ok(EntryForm::Direct(trust)) => direct(ct, trust, cursor),
        Ok(EntryForm::Variant) => variant(ct, cursor),
        Err(fault) => Err(fault),
    }
}

/// The sizes of a table or a memory behind the byte that says whether there is a greatest.
#[tactic(auto, unfolding(crate::specs::Read::sizes_at))]
fn sizes(bounded: bool, cursor: &mut Cursor) -> Result<Limits, FormFault>
    ensures { Finds (λ l. l) result cursor.new (sizes_at bounded cursor.old) }
{
    let min = number(cursor)?;
    if !bounded {
        return Ok(Limits { min, max: None });
    }
    let max = Some(number(cursor)?);
    Ok(Limits { min, max })
}

/// The type of a table.
#[tactic(auto, unfolding(crate::specs::Read::table_at, crate::specs::Pieces::table_mark_at, crate::specs::Pieces::limits_form_at))]
pub fn table(cursor: &mut Cursor) -> Result<Limits, FormFault>
    ensures { Finds (λ l. l) result cursor.new (table_at cursor.old) }
{
    table_mark(cursor)?;
    let bounded = limits_form(cursor)?;
    sizes(bounded, cursor)
}

/// The type of a memory.
#[tactic(auto, unfolding(crate::specs::Read::memory_at, crate::specs::Pieces::memory_form_at))]
pub fn memory(ct: bool, cursor: &mut Cursor) -> Result<MemType, FormFault>
    ensures { Finds (λ t. t) result cursor.new (memory_at ct cursor.old) }
{
    let form = memory_form(ct, cursor)?;
    let limits = sizes(form.bounded, cursor)?;
    Ok(MemType {
        label: form.label,
        limits,
    })
}

/// The type of a global.
#[tactic(auto, unfolding(crate::specs::Read::variable_at, crate::specs::Pieces::mutability_at))]
pub fn variable(ct: bool, cursor: &mut Cursor) -> Result<GlobalType, FormFault>
    ensures { Finds (λ t. t) result cursor.new (variable_at ct cursor.old) }
{
    let value = value_type(ct, cursor)?;
    let mutable = mutability(cursor)?;
    Ok(GlobalType { value, mutable })
}

/// What an import asks for, behind the byte of its kind.
#[tactic(auto, unfolding(crate::specs::Read::extern_at))]
fn extern_type(ct: bool, kind: ExternTag, cursor: &mut Cursor) -> Result<ImportKind, FormFault>
    ensures { Finds extern_of result cursor.new (extern_at ct kind cursor.old) }
{
    match kind {
        ExternTag::Func => Ok(ImportKind::Func(number(cursor)?)),
        ExternTag::Table => Ok(ImportKind::Table(table(cursor)?)),
        ExternTag::Memory => Ok(ImportKind::Memory(memory(ct, cursor)?)),
        ExternTag::Global => Ok(ImportKind::Global(variable(ct, cursor)?)),
    }
}

/// An import behind imports that have so much.
#[tactic(auto, unfolding(crate::specs::Read::import_at, crate::specs::Pieces::import_kind_at))]
pub fn import<'a>(
    ct: bool,
    held: Held,
    cursor: &mut Cursor<'a>,
) -> Result<ImportEntry<'a>, FormFault>
    ensures { Finds (λ e. e) result cursor.new (import_at ct held cursor.old) }
{
    let from = name(cursor)?;
    let name = name(cursor)?;
    let tag = import_kind(held, cursor)?;
    let kind = extern_type(ct, tag, cursor)?;
    Ok(ImportEntry {
        module: from,
        name,
        kind,
    })
}

/// What imports have behind one more.
pub fn held_with(kind: ImportKind, held: Held) -> Held
    ensures { result ≡ held_behind (extern_of kind) held }
{
    match kind {
        ImportKind::Table(_) => Held {
            table: true,
            ..held
        },
        ImportKind::Memory(_) => Held {
            memory: true,
            ..held
        },
        ImportKind::Func(_) | ImportKind::Global(_) => held,
    }
}

/// An export.
#[tactic(auto, unfolding(crate::specs::Read::export_at, crate::specs::Pieces::extern_kind_at))]
pub fn export<'a>(cursor: &mut Cursor<'a>) -> Result<ExportEntry<'a>, FormFault>
    ensures { Finds (λ e. e) result cursor.new (export_at cursor.old) }
{
    let name = name(cursor)?;
    let kind = extern_kind(cursor)?;
    let index = number(cursor)?;
    Ok(ExportEntry { name, kind, index })
}

/// A number of a constant expression, behind its opcode.
#[tactic(auto, unfolding(crate::specs::Read::constant_number_at))]
fn constant_number(label: Label, width: Width, cursor: &mut Cursor) -> Result<ConstExpr, FormFault>
    ensures { Finds constant_of result cursor.new (constant_number_at label width cursor.old) }
{
    let bits = match width {
        Width::W32 => bits32(cursor)?,
        Width::W64 => bits64(cursor)?,
    };
    Ok(ConstExpr::Const {
        value: ValType { width, label },
        bits,
    })
}

/// A constant expression behind its first byte, without its `end`.
#[tactic(auto, unfolding(crate::specs::Read::constant_behind, crate::specs::Pieces::secret_width_at))]
fn constant_value(form: ConstantForm, cursor: &mut Cursor) -> Result<ConstExpr, FormFault>
    ensures { Finds constant_of result cursor.new (constant_behind form cursor.old) }
{
    match form {
        ConstantForm::Number(width) => constant_number(Label::Public, width, cursor),
        ConstantForm::Global => Ok(ConstExpr::Get {
            global: number(cursor)?,
        }),
        ConstantForm::Prefix => constant_number(Label::Secret, secret_width(cursor)?, cursor),
    }
}

/// A constant expression with its `end`.
#[tactic(auto, unfolding(crate::specs::Read::constant_at, crate::specs::Pieces::constant_form_at, crate::specs::Pieces::constant_end_at))]
pub fn constant(ct: bool, cursor: &mut Cursor) -> Result<ConstExpr, FormFault>
    ensures { Finds constant_of result cursor.new (constant_at ct cursor.old) }
{
    let form = constant_form(ct, cursor)?;
    let value = constant_value(form, cursor)?;
    constant_end(ct, cursor)?;
    Ok(value)
}

/// A defined global.
#[tactic(auto, unfolding(crate::specs::Read::global_at))]
pub fn global(ct: bool, cursor: &mut Cursor) -> Result<GlobalEntry, FormFault>
    ensures { Finds global_in result cursor.new (global_at ct cursor.old) }
{
    let ty = variable(ct, cursor)?;
    let init = constant(ct, cursor)?;
    Ok(GlobalEntry { ty, init })
}

/// What an element or data segment begins with.
#[tactic(auto, unfolding(crate::specs::Pieces::segment_head_at))]
pub fn segment_head(ct: bool, cursor: &mut Cursor) -> Result<SegmentHead, FormFault>
    ensures { Finds (λ h. (h.index, constant_of h.offset)) result cursor.new (segment_head_at ct cursor.old) }
{
    let index = number(cursor)?;
    let offset = constant(ct, cursor)?;
    Ok(SegmentHead { index, offset })
}

/// What a data segment puts into a memory.
#[tactic(auto, using(crate::proofs::Heads::segment_headed))]
pub fn segment<'a>(ct: bool, cursor: &mut Cursor<'a>) -> Result<Segment<'a>, FormFault>
    ensures { Finds (λ s. s) result cursor.new (segment_at ct cursor.old) }
{
    let head = segment_head(ct, cursor)?;
    let bytes = byte_vector(cursor)?;
    Ok(Segment {
        memory: head.index,
        offset: head.offset,
        bytes,
    })
}

/// The count of a group of locals, behind so many of the function and of all functions.
#[tactic(auto, unfolding(crate::specs::Read::group_count_at, ctw_ops::specs::Limits::most_locals, ctw_ops::specs::Limits::most_locals_of_all))]
fn group_count(own: u32, all: u32, cursor: &mut Cursor) -> Result<u32, FormFault>
    ensures count { Finds (λ n. n) result cursor.new (group_count_at (record { own = own; all = all }) cursor.old) }
    ensures within { IfOk result (λ n. (own + n ≤ most_locals) × (all + n ≤ most_locals_of_all)) }
{
    let place = cursor.place();
    let count = number(cursor)?;
    if u64::from(own) + u64::from(count) > u64::from(MOST_LOCALS) {
        return Err(FormFault {
            kind: FormKind::TooMany {
                what: What::Locals,
                limit: MOST_LOCALS,
            },
            place,
        });
    }
    if u64::from(all) + u64::from(count) > u64::from(MOST_LOCALS_OF_ALL) {
        return Err(FormFault {
            kind: FormKind::TooMany {
                what: What::Locals,
                limit: MOST_LOCALS_OF_ALL,
            },
            place,
        });
    }
    Ok(count)
}

/// A group of locals, behind so many of the function and of all functions.
#[tactic(auto, unfolding(crate::specs::Read::group_at))]
pub fn group(ct: bool, own: u32, all: u32, cursor: &mut Cursor) -> Result<LocalGroup, FormFault>
    ensures group { Finds group_in result cursor.new (group_at ct (record { own = own; all = all }) cursor.old) }
    ensures within { IfOk result (λ g. (own + g.count ≤ most_locals) × (all + g.count ≤ most_locals_of_all)) }
{
    let count = group_count(own, all, cursor)?;
    let ty = value_type(ct, cursor)?;
    Ok(LocalGroup { count, ty })
}
