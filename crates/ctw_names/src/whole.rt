ghost use Rattle.std.specs.Prelude.{◌≡◌, [], List, not, IfOk};
ghost use Rattle.ctw_ops.specs.declared.types.ExternTag.TheVariants as tags;
ghost use Rattle.ctw_text.specs.Names.{WideFunction as NamedFunction, defined, is_empty, sections_with, without_customs};
ghost use Rattle.ctw_names.specs.Spaces.{space_in};

use crate::defined::{globals, is_defined, memories, starts, tables};
use crate::entries::types;
use crate::exports::exports;
use crate::imports::imports;
use crate::segments::{elements, segments};
use crate::space::Space;
use crate::wide::Wide;
use ctw_ops::ExternTag;
use ctw_text::{Field, FrontList};
use std::alloc::{AllocError, Global};

/// The module of some fields without its functions and custom sections.
pub fn sections(
    alloc: Global,
    ct: bool,
    space: &Space,
    fields: &FrontList<Field>,
) -> Result<Wide, AllocError>
    ensures { IfOk result (λ m. m ≡ record (without_customs ct (space_in space.now) fields.now) { functions = [] }) }
{
    let types = types(alloc, space, fields)?;
    let imports = imports(alloc, space, fields)?;
    let tables = tables(alloc, fields)?;
    let memories = memories(alloc, fields)?;
    let globals = globals(alloc, space, fields)?;
    let exports = exports(alloc, space, fields)?;
    let start = starts(alloc, space, fields)?;
    let elements = elements(alloc, space, fields)?;
    let segments = segments(alloc, space, fields)?;
    Ok(Wide {
        ct,
        types,
        imports,
        functions: Vec::new(alloc),
        tables,
        memories,
        globals,
        exports,
        start,
        elements,
        segments,
        customs: Vec::new(alloc),
    })
}

/// Whether some fields define no function.
pub fn defines_no_function(fields: &FrontList<Field>) -> bool
    ensures { result ≡ is_empty (defined tags.Func fields.now) }
{
    'fields: for i in 0..fields.len() {
        if is_defined(fields.at(i), ExternTag::Func) {
            return false;
        }
    }
    true
}

fn has<T: Drop>(items: &Vec<T>) -> bool
    ensures { result ≡ not (is_empty items.now.items) }
{
    !items.is_empty()
}

/// Whether the sections from 1 to 11 have items.
pub fn has_items(m: &Wide, no_functions: bool) -> [bool; 11]
    ensures { (fs : List NamedFunction) → is_empty fs ≡ no_functions → result ≡ sections_with (record m.now { functions = fs }) }
{
    [
        has(&m.types),
        has(&m.imports),
        !no_functions,
        has(&m.tables),
        has(&m.memories),
        has(&m.globals),
        has(&m.exports),
        has(&m.start),
        has(&m.elements),
        !no_functions,
        has(&m.segments),
    ]
}
