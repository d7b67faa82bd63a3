ghost use Rattle.std.specs.Prelude.{◌≡◌, ◌<◌, ◌∷◌, [], ℕ, List, map, length, All};
ghost use Rattle.ctw_ops.specs.declared.types.ExternTag.TheVariants.{Table};
ghost use Rattle.ctw_ops.specs.declared.types.Label.{Label};
ghost use Rattle.ctw_ops.specs.Types.{FunctionType};
ghost use Rattle.ctw_module.specs.Trees.{tree};
ghost use Rattle.ctw_link.specs.declared.set.Part.{Part as AnyPart};
ghost use Rattle.ctw_link.specs.Sets.{set_of, defined};
ghost use Rattle.ctw_link.specs.Numbers.{LinkedModule, linked};
ghost use Rattle.ctw_link.specs.Users.{has_table, users_in};
ghost use Rattle.ctw_link.specs.Faults.{table_fault, tables_fault};
ghost use Rattle.ctw_link.specs.Linked.{CanBeLinked, IsPart, IsValidPart};
ghost use Rattle.ctw_ops.specs.FirstFault.{FindsFault};
ghost use Rattle.ctw_link.specs.declared.fault.LinkFault.TheVariants.{NoMemory};
ghost use Rattle.ctw_link.specs.Firsts.{HasEntry, TellsFirsts, TellsSome, Passes, type_in};

use crate::fault::LinkFault;
use crate::numbers::Numbers;
use crate::set::Part;
use crate::types::{is_same, key};
use crate::users::entries_used;
use ctw_ops::FuncType;
use std::alloc::Global;
use std::collections::BTreeMap;

/// That of each table's users those that erase alike have equal types. Each part is looked through once.
pub fn check_tables<'a>(
    alloc: Global,
    parts: &[Part<'a>],
    numbers: &[Numbers],
    tables: u32,
) -> Result<(), LinkFault<'a>>
    requires parts { CanBeLinked parts.now }
    requires numbers { numbers.now ≡ map (λ p. p.numbers) (linked (set_of parts.now)) }
    requires tables { tables ≡ defined Table (set_of parts.now) }
    ensures { FindsFault NoMemory result (tables_fault (linked (set_of parts.now)) tables) }
{
    'tables: for table in 0..tables {
        check_table(alloc, parts, numbers, table)?;
    }
    Ok(())
}

/// The same of one table.
fn check_table<'a>(
    alloc: Global,
    parts: &[Part<'a>],
    numbers: &[Numbers],
    table: u32,
) -> Result<(), LinkFault<'a>>
    requires parts { CanBeLinked parts.now }
    requires numbers { numbers.now ≡ map (λ p. p.numbers) (linked (set_of parts.now)) }
    ensures { FindsFault NoMemory result (table_fault (linked (set_of parts.now)) table) }
{
    let mut firsts = BTreeMap::new(alloc);
    'parts: for part in 0..parts.len() {
        if !is_of_table(&numbers[part], table) {
            continue;
        }
        pass_part(alloc, &mut firsts, parts, part as u32, table)?;
    }
    Ok(())
}

/// Whether a part's table is the one of a number.
fn is_of_table(numbers: &Numbers, table: u32) -> bool
    ensures { (p : LinkedModule) → p.numbers ≡ numbers.now → result ≡ has_table table p }
{
    match numbers.tables.first() {
        Some(number) => *number == table,
        None => false,
    }
}

/// Passes the users of a part, behind those whose first ones are told.
fn pass_part<'a>(
    alloc: Global,
    firsts: &mut BTreeMap<Vec<u8>, (u32, u32)>,
    parts: &[Part<'a>],
    part: u32,
    table: u32,
) -> Result<(), LinkFault<'a>>
    requires there { part < length parts.now }
    requires valid { All IsValidPart parts.now }
    requires told { TellsSome parts.now firsts.old }
    ensures { (p : AnyPart) (before : List (FunctionType Label)) → IsPart parts.now part p
        → TellsFirsts parts.now before firsts.old
        → Passes parts.now table before (users_in (tree p.«module»)) firsts.new result }
{
    let entries = entries_used(alloc, &parts[part as usize].module)?;
    pass_entries(alloc, firsts, parts, part, table, &entries)
}

/// Passes users by the entries of their types.
fn pass_entries<'a>(
    alloc: Global,
    firsts: &mut BTreeMap<Vec<u8>, (u32, u32)>,
    parts: &[Part<'a>],
    part: u32,
    table: u32,
    entries: &[u32],
) -> Result<(), LinkFault<'a>>
    requires there { All (HasEntry parts.now part) entries.now }
    requires told { TellsSome parts.now firsts.old }
    ensures { (before : List (FunctionType Label)) → TellsFirsts parts.now before firsts.old
        → Passes parts.now table before (map (type_in parts.now part) entries.now) firsts.new result }
{
    'entries: for entry in entries {
        pass_user(alloc, firsts, parts, table, (part, *entry))?;
    }
    Ok(())
}

/// Passes a user by the part and the entry of its type.
fn pass_user<'a>(
    alloc: Global,
    firsts: &mut BTreeMap<Vec<u8>, (u32, u32)>,
    parts: &[Part<'a>],
    table: u32,
    place: (u32, u32),
) -> Result<(), LinkFault<'a>>
    requires there { HasEntry parts.now place.0 place.1 }
    requires told { TellsSome parts.now firsts.old }
    ensures { (before : List (FunctionType Label)) → TellsFirsts parts.now before firsts.old
        → Passes parts.now table before (type_in parts.now place.0 place.1 ∷ []) firsts.new result }
{
    let b = type_of(parts, place);
    let key = key(alloc, &b)?;
    match firsts.get(key.as_slice()).copied() {
        None => {
            firsts.insert(key, place)?;
            Ok(())
        }
        Some(first) => {
            let a = type_of(parts, first);
            if is_same(&a, &b) {
                return Ok(());
            }
            Err(LinkFault::TableMix { table, a, b })
        }
    }
}

/// The type of an entry, by its part.
fn type_of<'a>(parts: &[Part<'a>], place: (u32, u32)) -> FuncType<'a>
    requires { HasEntry parts.now place.0 place.1 }
    ensures { result ≡ type_in parts.now place.0 place.1 }
{
    parts[place.0 as usize].module.func_type(place.1)
}
