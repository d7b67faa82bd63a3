ghost use Rattle.std.specs.Prelude.{◌≡◌, ◌+◌, ◌≤◌, ◌++◌, ℕ, map, length, List, IfOk, OnOk};
ghost use Rattle.std.specs.Option.{option_to_list};
ghost use Rattle.ctw_ops.specs.declared.fault.What.TheVariants as what;
ghost use Rattle.ctw_form.specs.declared.lists.ListFault.TheVariants.{Bad, NoMemory};
ghost use Rattle.ctw_ops.specs.Limits.{most_locals_of_all};
ghost use Rattle.ctw_form.specs.Sections.{Entry, locals_of};
ghost use Rattle.ctw_form.specs.Shown.{global_in, constant_of};
ghost use Rattle.ctw_form.specs.Slots.{runs_behind, runs_of, coded_behind, headed, headed_behind, element_functions};
ghost use Rattle.ctw_form.specs.Read.{number_at, vector_at, vector_upto_at, type_entry_at, imports_at, table_at, memory_at, global_at, export_at, element_at, segment_at, groups_at, code_entry_at, codes_at};
ghost use Rattle.ctw_form.specs.Gathered.{Gives, Follows, IsCode};
ghost use Rattle.ctw_leb.specs.Calls.{Finds};

use crate::constant::ConstExpr;
use crate::entry::{ExportEntry, GlobalEntry, ImportEntry, TypeEntry};
use crate::fault::FormFault;
use crate::items::{
    export, global, group, held_with, import, memory, number, segment, segment_head, table,
    type_entry, upto, window,
};
use crate::segment::Segment;
use crate::slots::{CodeSlot, ElementSlot, LocalRun};
use crate::table::Held;
use ctw_leb::Cursor;
use ctw_ops::{Limits, MemType, What};
use std::alloc::{AllocError, AllocFailed, Global};

/// Why a list wasn't read.
#[derive(Debug, Drop)]
pub enum ListFault {
    /// The bytes there spell no such list.
    Bad(FormFault),
    /// Memory ran out.
    NoMemory,
}

impl From<FormFault> for ListFault {
    ghost from_gives = { λ f e. e ≡ Bad f };

    fn from(fault: FormFault) -> ListFault {
        ListFault::Bad(fault)
    }
}

impl From<AllocError> for ListFault {
    ghost from_gives = { λ _ e. e ≡ NoMemory };

    fn from(_e: AllocError) -> ListFault {
        ListFault::NoMemory
    }
}

impl<T: Drop> From<AllocFailed<T>> for ListFault {
    ghost from_gives = { λ _ e. e ≡ NoMemory };

    fn from(_e: AllocFailed<T>) -> ListFault {
        ListFault::NoMemory
    }
}

/// The entries of a type section.
pub fn types<'a>(
    alloc: Global,
    ct: bool,
    cursor: &mut Cursor<'a>,
) -> Result<Vec<TypeEntry<'a>>, ListFault>
    ensures { Gives (λ v types. v.items ≡ types) result cursor.new (vector_at (type_entry_at ct) cursor.old) }
{
    let mut found = Vec::new(alloc);
    let count = number(cursor)?;
    'entries: for _ in 0..count {
        found.push(type_entry(ct, cursor)?)?;
    }
    Ok(found)
}

/// The imports of an import section.
#[tactic(auto, unfolding(crate::specs::Read::imports_at))]
pub fn imports<'a>(
    alloc: Global,
    ct: bool,
    cursor: &mut Cursor<'a>,
) -> Result<Vec<ImportEntry<'a>>, ListFault>
    ensures { Gives (λ v imports. v.items ≡ imports) result cursor.new (imports_at ct cursor.old) }
{
    let mut found = Vec::new(alloc);
    let count = number(cursor)?;
    let mut held = Held {
        table: false,
        memory: false,
    };
    'imports: for _ in 0..count {
        let entry = import(ct, held, cursor)?;
        held = held_with(entry.kind, held);
        found.push(entry)?;
    }
    Ok(found)
}

/// Indexes behind their count.
pub fn indexes(alloc: Global, cursor: &mut Cursor) -> Result<Vec<u32>, ListFault>
    ensures { Gives (λ v indexes. v.items ≡ indexes) result cursor.new (vector_at number_at cursor.old) }
{
    let mut found = Vec::new(alloc);
    let count = number(cursor)?;
    'indexes: for _ in 0..count {
        found.push(number(cursor)?)?;
    }
    Ok(found)
}

/// The table of a table section, if it has one.
pub fn tables(cursor: &mut Cursor) -> Result<Option<Limits>, FormFault>
    ensures { Finds option_to_list result cursor.new (vector_upto_at 1 what.Tables 1 table_at cursor.old) }
{
    let count = upto(cursor, 1, What::Tables, 1)?;
    if count == 0 {
        return Ok(None);
    }
    Ok(Some(table(cursor)?))
}

/// The memory of a memory section, if it has one.
pub fn memories(ct: bool, cursor: &mut Cursor) -> Result<Option<MemType>, FormFault>
    ensures { Finds option_to_list result cursor.new (vector_upto_at 1 what.Memories 1 (memory_at ct) cursor.old) }
{
    let count = upto(cursor, 1, What::Memories, 1)?;
    if count == 0 {
        return Ok(None);
    }
    Ok(Some(memory(ct, cursor)?))
}

/// The globals of a global section.
pub fn globals(alloc: Global, ct: bool, cursor: &mut Cursor) -> Result<Vec<GlobalEntry>, ListFault>
    ensures { Gives (λ v globals.
        map global_in v.items ≡ globals) result cursor.new (vector_at (global_at ct) cursor.old) }
{
    let mut found = Vec::new(alloc);
    let count = number(cursor)?;
    'globals: for _ in 0..count {
        let entry = global(ct, cursor)?;
        let init: ConstExpr = entry.init;
        found.push(GlobalEntry { ty: entry.ty, init })?;
    }
    Ok(found)
}

/// The exports of an export section.
pub fn exports<'a>(
    alloc: Global,
    cursor: &mut Cursor<'a>,
) -> Result<Vec<ExportEntry<'a>>, ListFault>
    ensures { Gives (λ v exports. v.items ≡ exports) result cursor.new (vector_at export_at cursor.old) }
{
    let mut found = Vec::new(alloc);
    let count = number(cursor)?;
    'exports: for _ in 0..count {
        found.push(export(cursor)?)?;
    }
    Ok(found)
}

/// The segments of a data section.
pub fn segments<'a>(
    alloc: Global,
    ct: bool,
    cursor: &mut Cursor<'a>,
) -> Result<Vec<Segment<'a>>, ListFault>
    ensures { Gives (λ v segments. v.items ≡ segments) result cursor.new (vector_at (segment_at ct) cursor.old) }
{
    let mut found = Vec::new(alloc);
    let count = number(cursor)?;
    'segments: for _ in 0..count {
        found.push(segment(ct, cursor)?)?;
    }
    Ok(found)
}

/// Puts indexes behind their count at the end of a list.
fn more_indexes(cursor: &mut Cursor, all: &mut Vec<u32>) -> Result<(), ListFault>
    ensures { Gives (λ u indexes.
        all.new.items ≡ all.old.items ++ indexes) result cursor.new (vector_at number_at cursor.old) }
{
    let count = number(cursor)?;
    'indexes: for _ in 0..count {
        all.push(number(cursor)?)?;
    }
    Ok(())
}

/// An element, with its functions at the end of the list of all elements' functions.
#[tactic(auto, using(crate::proofs::Heads::element_headed))]
fn element(ct: bool, cursor: &mut Cursor, all: &mut Vec<u32>) -> Result<(u32, ConstExpr), ListFault>
    ensures { Gives (λ head e. (head.0 ≡ e.table) × (constant_of head.1 ≡ e.offset)
        × (all.new.items ≡ all.old.items ++ e.functions)) result cursor.new (element_at ct cursor.old) }
{
    let head = segment_head(ct, cursor)?;
    more_indexes(cursor, all)?;
    Ok((head.index, head.offset))
}

/// The elements of an element section, and the functions of all of them.
pub fn elements(
    alloc: Global,
    ct: bool,
    cursor: &mut Cursor,
) -> Result<(Vec<ElementSlot>, Vec<u32>), ListFault>
    ensures { Gives (λ v elements. (map headed v.0.items ≡ headed_behind 0 elements)
        × (v.1.items ≡ element_functions elements)) result cursor.new (vector_at (element_at ct) cursor.old) }
{
    let mut slots = Vec::new(alloc);
    let mut functions = Vec::new(alloc);
    let count = number(cursor)?;
    'elements: for _ in 0..count {
        let (table, offset): (u32, ConstExpr) = element(ct, cursor, &mut functions)?;
        slots.push(ElementSlot {
            table,
            offset,
            functions: functions.len(),
        })?;
    }
    Ok((slots, functions))
}

/// The locals of a function behind functions with so many, as runs at the end of those of all functions;
/// and how many locals they are with these.
#[tactic(auto, unfolding(crate::specs::Read::groups_at, ctw_ops::specs::Limits::most_locals, ctw_ops::specs::Limits::most_locals_of_all))]
fn groups(
    ct: bool,
    all: u32,
    cursor: &mut Cursor,
    runs: &mut Vec<LocalRun>,
) -> Result<u32, ListFault>
    requires { all ≤ most_locals_of_all }
    ensures locals { Gives (λ n groups. (runs.new.items ≡ runs.old.items ++ runs_behind 0 groups)
        × (n ≡ all + length (locals_of groups))) result cursor.new (groups_at ct all cursor.old) }
    ensures within { IfOk result (λ n. n ≤ most_locals_of_all) }
{
    let count = number(cursor)?;
    let mut own = 0;
    let mut all = all;
    'groups: for _ in 0..count {
        let group = group(ct, own, all, cursor)?;
        own += group.count;
        all += group.count;
        runs.push(LocalRun {
            end: own,
            ty: group.ty,
        })?;
    }
    Ok(all)
}

/// A code entry behind entries with so many locals, and how many these are with its own. Its locals are
/// runs at the end of those of all functions. Its instructions aren't read.
fn code<'a>(
    ct: bool,
    all: u32,
    cursor: &mut Cursor<'a>,
    runs: &mut Vec<LocalRun>,
) -> Result<(CodeSlot<'a>, u32), ListFault>
    requires { all ≤ most_locals_of_all }
    ensures entry { Follows (λ x e.
        IsCode runs.old.items runs.new.items all x.0 x.1 e) result cursor.new (code_entry_at ct all cursor.old) }
    ensures within { IfOk result (λ x. x.1 ≤ most_locals_of_all) }
{
    let mut window = window(cursor)?;
    let all = groups(ct, all, &mut window, runs)?;
    let slot = CodeSlot {
        code: window.rest(),
        runs: runs.len(),
    };
    Ok((slot, all))
}

/// The entries of a code section, and the runs of locals of all of them.
pub fn codes<'a>(
    alloc: Global,
    ct: bool,
    cursor: &mut Cursor<'a>,
) -> Result<(Vec<CodeSlot<'a>>, Vec<LocalRun>), ListFault>
    ensures { (owed : ℕ)
        → Follows (λ v entries. (v.0.items ≡ coded_behind 0 entries)
        × (v.1.items ≡ runs_of entries)) result cursor.new (codes_at ct owed cursor.old) }
{
    let mut slots = Vec::new(alloc);
    let mut runs = Vec::new(alloc);
    let count = number(cursor)?;
    let mut all = 0;
    'entries: for _ in 0..count {
        let (slot, more) = code(ct, all, cursor, &mut runs)?;
        all = more;
        slots.push(slot)?;
    }
    Ok((slots, runs))
}
