ghost use Rattle.std.specs.Prelude.{◌≡◌, ◌+◌, ◌<◌, ◌^◌, [], length, Ok, Err, nat_le, if◌then◌else◌};
ghost use Rattle.ctw_leb.specs.Grammar.{state_after};
ghost use Rattle.ctw_leb.specs.Reading.{items as to_the_end};
ghost use Rattle.ctw_form.specs.declared.fault.FormKind.TheVariants.{SizeMismatch};
ghost use Rattle.ctw_form.specs.Sections.{nothing_seen as nothing, seen_after};
ghost use Rattle.ctw_form.specs.Read.{fault, insides_at, contents_at, section_at};
ghost use Rattle.ctw_read.specs.Calls.{Fills, Reads, ReadsFront};

use crate::code::{codes, inside_fault};
use crate::fault::ReadFault;
use crate::lists::{
    elements, exports, globals, imports, indexes, memories, segments, tables, types,
};
use ctw_form::items::{name, number, section_kind, window};
use ctw_form::{FormFault, FormKind, Held, SectionKind, Seen};
use ctw_leb::Cursor;
use std::alloc::Global;

/// Whether no byte is left behind the items of a section.
fn at_end(cursor: &Cursor) -> Result<(), FormFault>
    ensures { result ≡ (if nat_le (length cursor.now.rest) 0 then Ok tt else Err (fault SizeMismatch cursor.now.at)) }
{
    if cursor.left() > 0 {
        return Err(FormFault {
            kind: FormKind::SizeMismatch,
            place: cursor.place(),
        });
    }
    Ok(())
}

/// Passes over the bytes that are left, whatever they are.
fn pass(cursor: &mut Cursor)
    ensures { length cursor.new.rest ≡ 0 }
{
    let left = cursor.left();
    let _all = cursor.take(left);
}

/// What was seen behind a section with this id that tells nothing else.
fn behind(seen: Seen, last: u8) -> Seen
    ensures { result ≡ record seen { last = last } }
{
    Seen {
        last,
        owed: seen.owed,
        held: seen.held,
    }
}

/// The items of a section, and what was seen behind it.
#[tactic(auto, unfolding(ctw_form::specs::Read::insides_at))]
fn items(
    alloc: Global,
    ct: bool,
    seen: Seen,
    kind: SectionKind,
    cursor: &mut Cursor,
) -> Result<Seen, ReadFault>
    ensures { Fills seen result cursor.new (insides_at ct seen kind cursor.old) }
{
    match kind {
        SectionKind::Custom => {
            name(cursor)?;
            pass(cursor);
            Ok(seen)
        }
        SectionKind::Types => {
            types(ct, cursor)?;
            Ok(behind(seen, 1))
        }
        SectionKind::Imports => {
            let held = imports(ct, cursor)?;
            Ok(Seen {
                last: 2,
                owed: seen.owed,
                held,
            })
        }
        SectionKind::Functions => {
            let owed = indexes(cursor)?;
            Ok(Seen {
                last: 3,
                owed,
                held: seen.held,
            })
        }
        SectionKind::Tables => {
            tables(seen.held.table, cursor)?;
            Ok(behind(seen, 4))
        }
        SectionKind::Memories => {
            memories(ct, seen.held.memory, cursor)?;
            Ok(behind(seen, 5))
        }
        SectionKind::Globals => {
            globals(ct, cursor)?;
            Ok(behind(seen, 6))
        }
        SectionKind::Exports => {
            exports(cursor)?;
            Ok(behind(seen, 7))
        }
        SectionKind::Start => {
            number(cursor)?;
            Ok(behind(seen, 8))
        }
        SectionKind::Elements => {
            elements(ct, cursor)?;
            Ok(behind(seen, 9))
        }
        SectionKind::Codes => {
            codes(alloc, ct, seen.owed, cursor)?;
            Ok(Seen {
                last: 10,
                owed: 0,
                held: seen.held,
            })
        }
        SectionKind::Segments => {
            segments(ct, cursor)?;
            Ok(behind(seen, 11))
        }
    }
}

/// What stands in a section, all of the bytes.
fn insides(
    alloc: Global,
    ct: bool,
    seen: Seen,
    kind: SectionKind,
    cursor: &mut Cursor,
) -> Result<Seen, ReadFault>
    ensures { Reads (λ behind section. behind ≡ seen_after seen section) result (insides_at ct seen kind cursor.old) }
{
    let behind = items(alloc, ct, seen, kind, cursor)?;
    at_end(cursor)?;
    Ok(behind)
}

/// A section behind its id.
fn contents(
    alloc: Global,
    ct: bool,
    seen: Seen,
    kind: SectionKind,
    cursor: &mut Cursor,
) -> Result<Seen, ReadFault>
    ensures { ReadsFront (λ behind section.
        behind ≡ seen_after seen section) result cursor.new (contents_at ct seen kind cursor.old) }
{
    let mut window = window(cursor)?;
    match insides(alloc, ct, seen, kind, &mut window) {
        Ok(behind) => Ok(behind),
        Err(fault) => Err(inside_fault(fault)),
    }
}

/// A section behind others.
#[tactic(auto, unfolding(ctw_form::specs::Read::section_at, ctw_form::specs::Pieces::section_kind_at))]
fn section(alloc: Global, ct: bool, seen: Seen, cursor: &mut Cursor) -> Result<Seen, ReadFault>
    ensures { ReadsFront (λ behind section.
        behind ≡ seen_after seen section) result cursor.new (section_at ct seen cursor.old) }
{
    let kind = section_kind(seen.last, cursor)?;
    contents(alloc, ct, seen, kind, cursor)
}

/// The sections of a file, and what was seen behind the last one.
pub fn sections(alloc: Global, ct: bool, cursor: &mut Cursor) -> Result<Seen, ReadFault>
    ensures { Reads (λ seen sections.
        seen
        ≡ state_after seen_after nothing sections) result (to_the_end (section_at ct) seen_after nothing cursor.old) }
{
    let mut seen = Seen {
        last: 0,
        owed: 0,
        held: Held {
            table: false,
            memory: false,
        },
    };
    'sections: while cursor.left() > 0 {
        seen = section(alloc, ct, seen, cursor)?;
    }
    Ok(seen)
}
