//! The lines about sets of modules.
ghost use Rattle.std.specs.Prelude.{◌≡◌, ◌++◌, ◌∷◌, [], OnOk, IfOk, codes, decimal};
ghost use Rattle.ctw_link.specs.Sets.{ModuleSet};
ghost use Rattle.ctw_script.specs.Lines.{blank_before_each};
ghost use Rattle.ctw_lines.specs.Types.{function_text, external_text};
ghost use Rattle.ctw_inputs.specs.Lines.{part_name, link_words, link_line};
ghost use Rattle.ctw_inputs.specs.Parts.{AreNamed};

use crate::parts::LoadedPart;
use ctw_lines::{add_external_word, add_function_word, add_number_word, add_numbered, add_word};
use ctw_link::LinkFault;
use ctw_module::ExternKind;
use ctw_ops::FuncType;
use itoa::Buffer;
use std::alloc::{AllocError, Global};

/// The name of the part of an index; empty where there is none.
pub fn part_name<'a>(parts: &[LoadedPart<'a>], index: u32) -> &'a str
    ensures { (set : ModuleSet) → AreNamed set parts.now → result.now ≡ part_name set index }
{
    match parts.get(index as usize) {
        Some(part) => part.part.name,
        None => "",
    }
}

/// Adds a kind, a part's name and the number of an import.
fn add_import(line: &mut Vec<u8>, kind: &[u8], part: &str, import: u32) -> Result<(), AllocError>
    ensures { OnOk result (line.new.items ≡ line.old.items ++ blank_before_each (kind.now ∷ part.now ∷ decimal import ∷ [])) }
{
    add_word(line, kind)?;
    add_word(line, part.as_bytes())?;
    add_number_word(line, import)
}

/// Adds an import of another type than is offered, with both types.
fn add_import_type(
    alloc: Global,
    line: &mut Vec<u8>,
    part: &str,
    import: u32,
    want: &ExternKind,
    got: &ExternKind,
) -> Result<(), AllocError>
    ensures { OnOk result (line.new.items
        ≡ line.old.items
        ++ blank_before_each (codes "ImportType" ∷ part.now ∷ decimal import ∷ external_text want.now ∷ external_text got.now
        ∷ [])) }
{
    add_import(line, b"ImportType", part, import)?;
    add_external_word(alloc, line, want)?;
    add_external_word(alloc, line, got)
}

/// Adds a table with the two types that it mixes.
fn add_mix(
    alloc: Global,
    line: &mut Vec<u8>,
    table: u32,
    a: &FuncType,
    b: &FuncType,
) -> Result<(), AllocError>
    ensures { OnOk result (line.new.items
        ≡ line.old.items
        ++ blank_before_each (codes "TableMix" ∷ decimal table ∷ function_text a.now ∷ function_text b.now ∷ [])) }
{
    add_numbered(line, b"TableMix", table)?;
    add_function_word(alloc, line, a)?;
    add_function_word(alloc, line, b)
}

/// Adds how many entries there are too many.
fn add_entries(line: &mut Vec<u8>, entries: u64) -> Result<(), AllocError>
    ensures { OnOk result (line.new.items
        ≡ line.old.items ++ blank_before_each (codes "TooManyEntries" ∷ decimal entries ∷ [])) }
{
    let mut buffer = Buffer::new();
    add_word(line, b"TooManyEntries")?;
    add_word(line, buffer.format(entries).as_bytes())
}

/// Adds what is wrong with a set of parts.
fn add_link_fault(
    alloc: Global,
    line: &mut Vec<u8>,
    parts: &[LoadedPart],
    fault: &LinkFault,
) -> Result<(), AllocError>
    ensures { (set : ModuleSet) → AreNamed set parts.now
        → OnOk result (line.new.items ≡ line.old.items ++ blank_before_each (link_words set fault.now)) }
{
    match fault {
        LinkFault::NoImport { part, import } => {
            add_import(line, b"NoImport", part_name(parts, *part), *import)
        }
        LinkFault::ImportType {
            part,
            import,
            want,
            got,
        } => add_import_type(alloc, line, part_name(parts, *part), *import, want, got),
        LinkFault::TableMix { table, a, b } => add_mix(alloc, line, *table, a, b),
        LinkFault::TooManyPages { pages } => add_numbered(line, b"TooManyPages", *pages),
        LinkFault::TooManyEntries { entries } => add_entries(line, *entries),
        LinkFault::DoubleName { part } => add_numbered(line, b"DoubleName", *part),
        LinkFault::NoMemory => Ok(()),
    }
}

/// The line for a set of parts that doesn't match.
pub fn link_line(
    alloc: Global,
    parts: &[LoadedPart],
    fault: &LinkFault,
) -> Result<Vec<u8>, AllocError>
    ensures { (set : ModuleSet) → AreNamed set parts.now → IfOk result (λ line. line.items ≡ link_line set fault.now) }
{
    let mut line = Vec::from_slice(alloc, b"refused link")?;
    add_link_fault(alloc, &mut line, parts, fault)?;
    line.push(b'\n')?;
    Ok(line)
}
