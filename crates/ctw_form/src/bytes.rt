ghost use Rattle.std.specs.Prelude.{◌≡◌, ℕ, Result, Ok, IfOk};
ghost use Rattle.ctw_leb.specs.Calls.{Finds, Tabulates};
ghost use Rattle.ctw_form.specs.declared.fault.FormKind.{FormKind as Kind};
ghost use Rattle.ctw_form.specs.Read.{by_table, value_type_at};
ghost use Rattle.ctw_form.specs.Pieces.{trust_at, entry_form_at, table_mark_at, limits_form_at, memory_form_at, mutability_at, extern_kind_at, import_kind_at, constant_form_at, secret_width_at, constant_end_at, section_kind_at};

use crate::fault::{FormFault, FormKind};
use crate::table::{
    ConstantForm, EntryForm, Held, MemoryForm, SectionKind, constant_end_of, constant_form_of,
    entry_form_of, extern_kind_of, import_kind_of, limits_form_of, memory_form_of, mutability_of,
    secret_constant_of, section_kind_of, table_byte_of, trust_of, value_type_of,
};
use ctw_leb::Cursor;
use ctw_ops::{ExternTag, Trust, ValType, Width};

/// One byte by a table.
#[inline(always)]
fn byte_by<T, F: FnOnce(u8) -> Result<T, FormKind> + Drop>(
    cursor: &mut Cursor,
    table: F,
) -> Result<T, FormFault>
    requires { F.IsAlwaysCallable table }
    ensures read { (rows : ℕ → Result T Kind) → Tabulates (F.post table) rows
        → Finds (λ x. x) result cursor.new (by_table rows cursor.old) }
    ensures row { IfOk result (λ x. (byte : ℕ) × F.post table byte (Ok x)) }
{
    match cursor.by_table(FormKind::Truncated, table) {
        Ok(found) => Ok(found),
        Err((kind, place)) => Err(FormFault { kind, place }),
    }
}

/// The trust of a variant.
#[tactic(auto, unfolding(crate::specs::Pieces::trust_at))]
pub fn trust(cursor: &mut Cursor) -> Result<Trust, FormFault>
    ensures { Finds (λ x. x) result cursor.new (trust_at cursor.old) }
{
    byte_by(cursor, trust_of)
}

/// The first byte of a type entry.
#[tactic(auto, unfolding(crate::specs::Pieces::entry_form_at))]
pub fn entry_form(ct: bool, cursor: &mut Cursor) -> Result<EntryForm, FormFault>
    ensures { Finds (λ x. x) result cursor.new (entry_form_at ct cursor.old) }
{
    byte_by(cursor, move |byte: u8| entry_form_of(ct, byte))
}

/// The byte before the limits of a table.
#[tactic(auto, unfolding(crate::specs::Pieces::table_mark_at))]
pub fn table_mark(cursor: &mut Cursor) -> Result<(), FormFault>
    ensures { Finds (λ u. tt) result cursor.new (table_mark_at cursor.old) }
{
    byte_by(cursor, table_byte_of)
}

/// The first byte of a table's limits.
#[tactic(auto, unfolding(crate::specs::Pieces::limits_form_at))]
pub fn limits_form(cursor: &mut Cursor) -> Result<bool, FormFault>
    ensures { Finds (λ x. x) result cursor.new (limits_form_at cursor.old) }
{
    byte_by(cursor, limits_form_of)
}

/// The first byte of a memory's limits.
#[tactic(auto, unfolding(crate::specs::Pieces::memory_form_at))]
pub fn memory_form(ct: bool, cursor: &mut Cursor) -> Result<MemoryForm, FormFault>
    ensures { Finds (λ x. x) result cursor.new (memory_form_at ct cursor.old) }
{
    byte_by(cursor, move |byte: u8| memory_form_of(ct, byte))
}

/// Whether a global may be written.
#[tactic(auto, unfolding(crate::specs::Pieces::mutability_at))]
pub fn mutability(cursor: &mut Cursor) -> Result<bool, FormFault>
    ensures { Finds (λ x. x) result cursor.new (mutability_at cursor.old) }
{
    byte_by(cursor, mutability_of)
}

/// The kind of an export.
#[tactic(auto, unfolding(crate::specs::Pieces::extern_kind_at))]
pub fn extern_kind(cursor: &mut Cursor) -> Result<ExternTag, FormFault>
    ensures { Finds (λ x. x) result cursor.new (extern_kind_at cursor.old) }
{
    byte_by(cursor, extern_kind_of)
}

/// The kind of an import behind imports that have so much.
#[tactic(auto, unfolding(crate::specs::Pieces::import_kind_at))]
pub fn import_kind(held: Held, cursor: &mut Cursor) -> Result<ExternTag, FormFault>
    ensures { Finds (λ x. x) result cursor.new (import_kind_at held cursor.old) }
{
    byte_by(cursor, move |byte: u8| import_kind_of(held, byte))
}

/// The first opcode of a constant expression.
#[tactic(auto, unfolding(crate::specs::Pieces::constant_form_at))]
pub fn constant_form(ct: bool, cursor: &mut Cursor) -> Result<ConstantForm, FormFault>
    ensures { Finds (λ x. x) result cursor.new (constant_form_at ct cursor.old) }
{
    byte_by(cursor, move |byte: u8| constant_form_of(ct, byte))
}

/// The opcode behind the prefix of a constant expression.
#[tactic(auto, unfolding(crate::specs::Pieces::secret_width_at))]
pub fn secret_width(cursor: &mut Cursor) -> Result<Width, FormFault>
    ensures { Finds (λ x. x) result cursor.new (secret_width_at cursor.old) }
{
    byte_by(cursor, secret_constant_of)
}

/// The `end` of a constant expression.
#[tactic(auto, unfolding(crate::specs::Pieces::constant_end_at))]
pub fn constant_end(ct: bool, cursor: &mut Cursor) -> Result<(), FormFault>
    ensures { Finds (λ u. tt) result cursor.new (constant_end_at ct cursor.old) }
{
    byte_by(cursor, move |byte: u8| constant_end_of(ct, byte))
}

/// A value type.
#[tactic(auto, unfolding(crate::specs::Read::value_type_at))]
pub fn value_type(ct: bool, cursor: &mut Cursor) -> Result<ValType, FormFault>
    ensures { Finds (λ x. x) result cursor.new (value_type_at ct cursor.old) }
{
    byte_by(cursor, move |byte: u8| value_type_of(ct, byte))
}

/// The kind of a section by its id, behind sections of which the last but custom ones had the id `last`.
#[tactic(auto, unfolding(crate::specs::Pieces::section_kind_at))]
pub fn section_kind(last: u8, cursor: &mut Cursor) -> Result<SectionKind, FormFault>
    ensures { Finds (λ x. x) result cursor.new (section_kind_at last cursor.old) }
{
    byte_by(cursor, move |byte: u8| section_kind_of(last, byte))
}
