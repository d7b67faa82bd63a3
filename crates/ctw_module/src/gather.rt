ghost use Rattle.std.specs.Prelude.{◌≡◌, ◌<◌, List, Ok, IfOk};
ghost use Rattle.ctw_leb.specs.Input.{Input};
ghost use Rattle.ctw_leb.specs.Grammar.{state_after};
ghost use Rattle.ctw_leb.specs.Reading.{items};
ghost use Rattle.ctw_form.specs.declared.sections.Seen.{Seen};
ghost use Rattle.ctw_form.specs.Sections.{Section, Parts, no_parts, with_section, nothing_seen, seen_after};
ghost use Rattle.ctw_form.specs.Read.{insides_at, section_at};
ghost use Rattle.ctw_module.specs.Gathers.{Gathers, Fills, Takes};

use crate::found::Found;
use ctw_form::SectionKind;
use ctw_form::items::{name, number, section_kind, window};
use ctw_form::lists::{
    ListFault, codes, elements, exports, globals, imports, indexes, memories, segments, tables,
    types,
};
use ctw_leb::Cursor;
use std::alloc::{AllocError, Global};

/// Takes what a section brings. The bytes are all of its items.
#[tactic(auto, unfolding(ctw_form::specs::Read::insides_at))]
fn fill<'a>(
    alloc: Global,
    ct: bool,
    kind: SectionKind,
    cursor: &mut Cursor<'a>,
    found: &mut Found<'a>,
) -> Result<(), ListFault>
    ensures { (seen : Seen) (section : Section) (p : Parts) → insides_at ct seen kind cursor.old ≡ Ok section
        → Gathers found.old p → Fills result found.new (with_section p section) }
{
    match kind {
        SectionKind::Custom => {
            let name = name(cursor)?;
            found.take_custom(name, cursor.rest())?;
        }
        SectionKind::Types => found.take_types(types(alloc, ct, cursor)?),
        SectionKind::Imports => found.take_imports(imports(alloc, ct, cursor)?),
        SectionKind::Functions => found.take_uses(indexes(alloc, cursor)?),
        SectionKind::Tables => found.take_table(tables(cursor)?),
        SectionKind::Memories => found.take_memory(memories(ct, cursor)?),
        SectionKind::Globals => found.take_globals(globals(alloc, ct, cursor)?),
        SectionKind::Exports => found.take_exports(exports(alloc, cursor)?),
        SectionKind::Start => found.take_start(number(cursor)?),
        SectionKind::Elements => {
            let (slots, functions) = elements(alloc, ct, cursor)?;
            found.take_elements(slots, functions);
        }
        SectionKind::Codes => {
            let (slots, runs) = codes(alloc, ct, cursor)?;
            found.take_codes(slots, runs);
        }
        SectionKind::Segments => found.take_segments(segments(alloc, ct, cursor)?),
    }
    Ok(())
}

/// Takes what the section at the cursor brings.
fn section<'a>(
    alloc: Global,
    ct: bool,
    cursor: &mut Cursor<'a>,
    found: &mut Found<'a>,
) -> Result<(), ListFault>
    ensures { (seen : Seen) (section : Section) (o : Input) (p : Parts)
        → section_at ct seen cursor.old ≡ Ok (section, o)
        → Gathers found.old p → Takes result cursor.new o found.new (with_section p section) }
{
    let kind = section_kind(0, cursor)?;
    let mut window = window(cursor)?;
    fill(alloc, ct, kind, &mut window, found)
}

/// What the sections from the cursor on bring, which spell sections.
pub fn gather<'a>(alloc: Global, ct: bool, cursor: &mut Cursor<'a>) -> Result<Found<'a>, AllocError>
    requires { (sections : List Section) × (items (section_at ct) seen_after nothing_seen cursor.old ≡ Ok sections) }
    ensures { IfOk result (λ found. (sections : List Section)
        → items (section_at ct) seen_after nothing_seen cursor.old ≡ Ok sections
        → Gathers found (state_after with_section no_parts sections)) }
{
    let mut found = Found::new(alloc);
    'sections: while cursor.left() > 0 {
        match section(alloc, ct, cursor, &mut found) {
            Ok(()) => {}
            Err(ListFault::NoMemory) => return Err(AllocError),
            Err(ListFault::Bad(_)) => unreachable!(),
        }
    }
    Ok(found)
}
