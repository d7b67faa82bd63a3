ghost use Rattle.std.specs.Prelude.{◌≡◌, ◌++◌, ◌==◌, ◌&&◌, length, slice_get, unwrap_or, IfOk, OnOk};
ghost use Rattle.ctw_ops.specs.Equal.{same_types};
ghost use Rattle.ctw_text.specs.Names.{agrees, entry_faults, entry_of, names_in, no_type, use_all_faults};
ghost use Rattle.ctw_names.specs.Noted.{noted};
ghost use Rattle.ctw_names.specs.Doubles.{doubles_onto};
ghost use Rattle.ctw_names.specs.Spaces.{space_in};

use crate::fault::{Fault, FaultKind, Faults};
use crate::resolve::{find, known, note};
use crate::space::{Space, add_name};
use crate::table::NameTable;
use crate::types::{EntryTable, push_bytes, type_spelled};
use ctw_ops::ValType;
use ctw_text::{FrontList, Use, Variable};
use std::alloc::{AllocError, Global};

/// Whether two lists of types are equal.
fn are_same(alloc: Global, ts: &[ValType], us: &[ValType]) -> Result<bool, AllocError>
    ensures { IfOk result (λ same. same ≡ same_types ts.now us.now) }
{
    if ts.len() != us.len() {
        return Ok(false);
    }
    let mut left = Vec::new(alloc);
    let mut right = Vec::new(alloc);
    push_bytes(&mut left, ts)?;
    push_bytes(&mut right, us)?;
    Ok(left.as_slice() == right.as_slice())
}

/// Whether a typeuse spells no parameter and no result.
fn is_bare(u: &Use) -> bool
    ensures { result ≡ (length u.now.params == 0 && length u.now.results == 0) }
{
    u.params.len() == 0 && u.results.len() == 0
}

/// Whether a typeuse spells nothing, or just the types of an entry.
fn is_in_accord(alloc: Global, entries: &EntryTable, n: u32, u: &Use) -> Result<bool, AllocError>
    ensures { IfOk result (λ b. b ≡ agrees u.now (unwrap_or (slice_get entries.now n) no_type)) }
{
    if is_bare(u) {
        return Ok(true);
    }
    let Some(entry) = entries.at(n) else {
        return Ok(false);
    };
    let t = type_spelled(alloc, u)?;
    if !are_same(alloc, t.params.as_slice(), entry.params.as_slice())? {
        return Ok(false);
    }
    are_same(alloc, t.results.as_slice(), entry.results.as_slice())
}

/// The entry of a typeuse; 0 where it names an unknown one.
pub fn entry(alloc: Global, space: &Space, u: &Use) -> Result<u32, AllocError>
    ensures { IfOk result (λ n. n ≡ entry_of (space_in space.now) u.now) }
{
    let Some(named) = &u.entry else {
        let t = type_spelled(alloc, u)?;
        return Ok(space.entries.position(alloc, &t)?.unwrap_or(0));
    };
    Ok(find(&space.types, &named.index))
}

/// Notes a fault where a typeuse names an unknown entry, or spells other types than its entry has.
pub fn note_entry(
    alloc: Global,
    space: &Space,
    u: &Use,
    faults: &mut Faults,
) -> Result<(), AllocError>
    ensures { OnOk result (faults.new
        ≡ noted faults.old (entry_faults (space_in space.now) u.now.entry u.now)) }
{
    let Some(named) = &u.entry else {
        return Ok(());
    };
    let Some(n) = known(&space.types, &named.index) else {
        note(&space.types, &named.index, faults);
        return Ok(());
    };
    if is_in_accord(alloc, &space.entries, n, u)? {
        return Ok(());
    }
    faults.note(Fault {
        kind: FaultKind::Mismatch,
        place: named.place,
        extent: 1,
    });
    Ok(())
}

/// Gives numbers to variables; a fault is noted for each name that stood before.
pub fn add_variables<'a>(
    table: &mut NameTable<'a>,
    variables: &FrontList<Variable<'a>>,
    faults: &mut Faults,
) -> Result<(), AllocError>
    ensures names { OnOk result (table.new ≡ table.old ++ names_in variables.now) }
    ensures faults { OnOk result (faults.new
        ≡ noted faults.old (doubles_onto table.old (names_in variables.now))) }
{
    'variables: for i in 0..variables.len() {
        add_name(table, &variables.at(i).name, faults)?;
    }
    Ok(())
}

/// Notes the faults of an instruction's typeuse, as `note_entry` and `add_variables` do.
pub fn note_use<'a>(
    alloc: Global,
    space: &Space,
    u: &Use<'a>,
    faults: &mut Faults,
) -> Result<(), AllocError>
    ensures { OnOk result (faults.new ≡ noted faults.old (use_all_faults (space_in space.now) u.now)) }
{
    note_entry(alloc, space, u, faults)?;
    let mut table = NameTable::new(alloc);
    add_variables(&mut table, &u.params, faults)?;
    Ok(())
}
