ghost use Rattle.std.specs.Prelude.{◌≡◌, ℕ, List, length};
ghost use Rattle.ctw_leb.specs.Calls.{Skips};
ghost use Rattle.ctw_form.specs.Sections.{held_by, none_held as nothing};
ghost use Rattle.ctw_form.specs.Spelled.{room};
ghost use Rattle.ctw_form.specs.Read.{number_at, vector_at, vector_upto_at, type_entry_at, imports_at, table_at, memory_at, global_at, export_at, element_at, segment_at};
ghost use Rattle.ctw_ops.specs.declared.fault.What.TheVariants as what;
ghost use Rattle.ctw_read.specs.Calls.{Tells};

use ctw_form::items::{
    export, global, held_with, import, memory, number, segment, segment_head, table, type_entry,
    upto,
};
use ctw_form::{FormFault, Held};
use ctw_leb::Cursor;
use ctw_module::ConstExpr;
use ctw_ops::What;

/// The entries of a type section.
pub fn types(ct: bool, cursor: &mut Cursor) -> Result<(), FormFault>
    ensures { Skips result cursor.new (vector_at (type_entry_at ct) cursor.old) }
{
    let count = number(cursor)?;
    'entries: for _ in 0..count {
        type_entry(ct, cursor)?;
    }
    Ok(())
}

/// The imports of an import section, and what they have.
#[tactic(auto, unfolding(ctw_form::specs::Read::imports_at))]
pub fn imports(ct: bool, cursor: &mut Cursor) -> Result<Held, FormFault>
    ensures { Tells (λ held imports. held ≡ held_by nothing imports) result cursor.new (imports_at ct cursor.old) }
{
    let count = number(cursor)?;
    let mut held = Held {
        table: false,
        memory: false,
    };
    'imports: for _ in 0..count {
        let entry = import(ct, held, cursor)?;
        held = held_with(entry.kind, held);
    }
    Ok(held)
}

/// Indexes behind their count, and how many they are.
pub fn indexes(cursor: &mut Cursor) -> Result<u32, FormFault>
    ensures { Tells (λ n indexes. length indexes ≡ n) result cursor.new (vector_at number_at cursor.old) }
{
    let count = number(cursor)?;
    'indexes: for _ in 0..count {
        number(cursor)?;
    }
    Ok(count)
}

/// How many may be defined of what stands once in a module.
fn room_for_one(imported: bool) -> u32
    ensures { result ≡ room imported }
{
    if imported { 0 } else { 1 }
}

/// The table of a table section; there is none where one is imported.
pub fn tables(imported: bool, cursor: &mut Cursor) -> Result<(), FormFault>
    ensures { Skips result cursor.new (vector_upto_at (room imported) what.Tables 1 table_at cursor.old) }
{
    let count = upto(cursor, room_for_one(imported), What::Tables, 1)?;
    if count > 0 {
        table(cursor)?;
    }
    Ok(())
}

/// The memory of a memory section; there is none where one is imported.
pub fn memories(ct: bool, imported: bool, cursor: &mut Cursor) -> Result<(), FormFault>
    ensures { Skips result cursor.new (vector_upto_at (room imported) what.Memories 1 (memory_at ct) cursor.old) }
{
    let count = upto(cursor, room_for_one(imported), What::Memories, 1)?;
    if count > 0 {
        memory(ct, cursor)?;
    }
    Ok(())
}

/// The globals of a global section.
pub fn globals(ct: bool, cursor: &mut Cursor) -> Result<(), FormFault>
    ensures { Skips result cursor.new (vector_at (global_at ct) cursor.old) }
{
    let count = number(cursor)?;
    'globals: for _ in 0..count {
        let _init: ConstExpr = global(ct, cursor)?.init;
    }
    Ok(())
}

/// The exports of an export section.
pub fn exports(cursor: &mut Cursor) -> Result<(), FormFault>
    ensures { Skips result cursor.new (vector_at export_at cursor.old) }
{
    let count = number(cursor)?;
    'exports: for _ in 0..count {
        export(cursor)?;
    }
    Ok(())
}

/// What an element segment puts into a table.
#[tactic(auto, using(ctw_form::proofs::Heads::element_headed))]
fn element(ct: bool, cursor: &mut Cursor) -> Result<(), FormFault>
    ensures { Skips result cursor.new (element_at ct cursor.old) }
{
    let _offset: ConstExpr = segment_head(ct, cursor)?.offset;
    indexes(cursor)?;
    Ok(())
}

/// The segments of an element section.
pub fn elements(ct: bool, cursor: &mut Cursor) -> Result<(), FormFault>
    ensures { Skips result cursor.new (vector_at (element_at ct) cursor.old) }
{
    let count = number(cursor)?;
    'elements: for _ in 0..count {
        element(ct, cursor)?;
    }
    Ok(())
}

/// The segments of a data section.
pub fn segments(ct: bool, cursor: &mut Cursor) -> Result<(), FormFault>
    ensures { Skips result cursor.new (vector_at (segment_at ct) cursor.old) }
{
    let count = number(cursor)?;
    'segments: for _ in 0..count {
        segment(ct, cursor)?;
    }
    Ok(())
}
