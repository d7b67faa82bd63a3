//! The element and data segments of a set that is launched.
ghost use Rattle.std.specs.Prelude.{◌≡◌, ◌<◌, ◌^◌, ◌+◌, ◌∷◌, ℕ, List, fold, length, option_map, slice_get, Some, None, MatchResult, OnOk, IfOk, nat_le};
ghost use Rattle.ctw_ops.specs.declared.types.Label.{Label};
ghost use Rattle.ctw_ops.specs.Tree as Tree;
ghost use Rattle.ctw_semantics.specs.Stores.{Table, Memory};
ghost use Rattle.ctw_link.specs.Sets.{set_of};
ghost use Rattle.ctw_link.specs.Numbers.{LinkedModule, linked};
ghost use Rattle.ctw_launch.specs.Launched as Launched;
ghost use Rattle.ctw_launch.specs.Launched.{allocated, loaded, outside, first_outside, element_fits, segment_fits, with_element, with_segment};
ghost use Rattle.ctw_session.specs.Launches.{TellsFault};
ghost use Rattle.ctw_session.specs.Segments.{IsLinkedPart, IsElementOf, IsSegmentOf, HasElement, HasSegment, IsAllocated, IsLoading};

use crate::bytes::write_bytes;
use crate::constants::constant_value;
use crate::fault::LaunchFault;
use ctw_link::LinkedSet;
use ctw_ops::Space;
use ctw_store::Store;
use std::alloc::AllocError;

/// Whether so many entries from a place on lie inside a table.
fn has_entries(store: &Store, table: u32, at: u64, count: u64) -> bool
    requires there { table < length store.now.storage.tables }
    requires short { (t : Table) → slice_get store.now.storage.tables table ≡ Some t → length t.entries < 2 ^ 32 }
    ensures { (t : Table) → slice_get store.now.storage.tables table ≡ Some t
        → result ≡ nat_le (at + count) (length t.entries) }
{
    let end = at.saturating_add(count);
    if end == 0 {
        return true;
    }
    if end > u32::MAX as u64 {
        return false;
    }
    store.entry(table, (end - 1) as u32).is_some()
}

/// Whether so many bytes from a place on lie inside a memory.
fn has_bytes(store: &Store, memory: u32, at: u64, count: u64) -> bool
    requires { memory < length store.now.storage.memories }
    ensures { (m : Memory) → slice_get store.now.storage.memories memory ≡ Some m
        → result ≡ nat_le (at + count) (length m.bytes) }
{
    at.saturating_add(count) <= store.size(memory) as u64 * 65_536
}

/// Whether an element of a part lies inside the part's table.
fn is_element_inside(set: &LinkedSet, store: &Store, part: u32, index: u32) -> bool
    requires there { HasElement set.now part index }
    requires store { IsAllocated set.now store.now.storage }
    ensures { (p : LinkedModule) (e : Tree.Element Label) → IsLinkedPart set.now part p → IsElementOf p index e
        → result ≡ element_fits store.now.storage p e }
{
    let Some(element) = set.parts()[part as usize].module.element(index) else {
        unreachable!();
    };
    let Some(table) = set.table_of(part) else {
        unreachable!();
    };
    let at = constant_value(set, store, part, element.offset);
    has_entries(store, table, at, element.count() as u64)
}

/// Whether a data segment of a part lies inside the part's memory.
fn is_segment_inside(set: &LinkedSet, store: &Store, part: u32, index: u32) -> bool
    requires there { HasSegment set.now part index }
    requires store { IsAllocated set.now store.now.storage }
    ensures { (p : LinkedModule) (d : Tree.Segment Label) → IsLinkedPart set.now part p → IsSegmentOf p index d
        → result ≡ segment_fits store.now.storage p d }
{
    let Some(segment) = set.parts()[part as usize].module.segment(index) else {
        unreachable!();
    };
    let Some(memory) = set.memory_of(part) else {
        unreachable!();
    };
    let at = constant_value(set, store, part, segment.offset);
    has_bytes(store, memory, at, segment.bytes.len() as u64)
}

/// The first element of a part that isn't inside, if there is one.
fn outside_element(set: &LinkedSet, store: &Store, part: u32) -> Option<u32>
    requires part { part < length set.now }
    requires store { IsAllocated set.now store.now.storage }
    ensures { (p : LinkedModule) (fault : ℕ → Launched.LaunchFault) → IsLinkedPart set.now part p
        → first_outside (element_fits store.now.storage p) fault 0 p.tree.elements ≡ option_map fault result }
{
    'elements: for index in 0..set.parts()[part as usize].module.element_count() {
        if !is_element_inside(set, store, part, index) {
            return Some(index);
        }
    }
    None
}

/// The first data segment of a part that isn't inside, if there is one.
fn outside_segment(set: &LinkedSet, store: &Store, part: u32) -> Option<u32>
    requires part { part < length set.now }
    requires store { IsAllocated set.now store.now.storage }
    ensures { (p : LinkedModule) (fault : ℕ → Launched.LaunchFault) → IsLinkedPart set.now part p
        → first_outside (segment_fits store.now.storage p) fault 0 p.tree.segments ≡ option_map fault result }
{
    'segments: for index in 0..set.parts()[part as usize].module.segment_count() {
        if !is_segment_inside(set, store, part, index) {
            return Some(index);
        }
    }
    None
}

/// The first segment of a part that isn't inside is the fault; elements come before data.
fn check_part(set: &LinkedSet, store: &Store, part: u32) -> Result<(), LaunchFault>
    requires part { part < length set.now }
    requires store { IsAllocated set.now store.now.storage }
    ensures { (p : LinkedModule) (others : List LinkedModule) → IsLinkedPart set.now part p → MatchResult result
        (λ _. outside store.now.storage (p ∷ others) ≡ outside store.now.storage others)
        (λ e. (f : Launched.LaunchFault) × (outside store.now.storage (p ∷ others) ≡ Some f)
        × TellsFault set.now e f) }
{
    if let Some(index) = outside_element(set, store, part) {
        return Err(LaunchFault::SegmentOutside {
            part,
            space: Space::Elements,
            index,
        });
    }
    if let Some(index) = outside_segment(set, store, part) {
        return Err(LaunchFault::SegmentOutside {
            part,
            space: Space::Segments,
            index,
        });
    }
    Ok(())
}

/// The first segment of the set that isn't inside its table or its memory is the fault: part by part, and in each
/// part elements before data.
pub fn check_segments(set: &LinkedSet, store: &Store) -> Result<(), LaunchFault>
    requires { store.now.storage ≡ allocated (linked (set_of set.now)) }
    ensures { MatchResult result
        (λ _. outside store.now.storage (linked (set_of set.now)) ≡ None)
        (λ e. (f : Launched.LaunchFault) × (outside store.now.storage (linked (set_of set.now)) ≡ Some f)
        × TellsFault set.now e f) }
{
    'parts: for part in 0..set.parts().len() as u32 {
        match check_part(set, store, part) {
            Ok(()) => {}
            Err(fault) => return Err(fault),
        }
    }
    Ok(())
}

/// Puts the functions of an element of a part into the part's table.
fn write_element(set: &LinkedSet, store: &mut Store, part: u32, index: u32)
    requires there { HasElement set.now part index }
    requires loading { IsLoading set.now store.old.storage }
    ensures written { (p : LinkedModule) (e : Tree.Element Label) → IsLinkedPart set.now part p
        → IsElementOf p index e → store.new.storage ≡ with_element p store.old.storage e }
    ensures loading { IsLoading set.now store.new.storage }
{
    let Some(element) = set.parts()[part as usize].module.element(index) else {
        unreachable!();
    };
    let Some(table) = set.table_of(part) else {
        unreachable!();
    };
    let at = constant_value(set, store, part, element.offset) as u32;
    'functions: for i in 0..element.count() {
        store.set_entry(table, at + i, set.func(part, element.func(i)));
    }
}

/// Puts the bytes of a data segment of a part into the part's memory.
fn write_segment(
    set: &LinkedSet,
    store: &mut Store,
    part: u32,
    index: u32,
) -> Result<(), AllocError>
    requires there { HasSegment set.now part index }
    requires loading { IsLoading set.now store.old.storage }
    ensures written { (p : LinkedModule) (d : Tree.Segment Label) → IsLinkedPart set.now part p
        → IsSegmentOf p index d → OnOk result (store.new.storage ≡ with_segment p store.old.storage d) }
    ensures loading { OnOk result (IsLoading set.now store.new.storage) }
{
    let Some(segment) = set.parts()[part as usize].module.segment(index) else {
        unreachable!();
    };
    let Some(memory) = set.memory_of(part) else {
        unreachable!();
    };
    let at = constant_value(set, store, part, segment.offset) as u32;
    let count = segment.bytes.len() as u32;
    store.make_ready(memory, at as u64, count)?;
    write_bytes(store, memory, at, segment.bytes);
    Ok(())
}

/// Writes the elements of a part, one after another.
fn write_part_elements(set: &LinkedSet, store: &mut Store, part: u32)
    requires part { part < length set.now }
    requires loading { IsLoading set.now store.old.storage }
    ensures written { (p : LinkedModule) → IsLinkedPart set.now part p
        → store.new.storage ≡ fold (with_element p) store.old.storage p.tree.elements }
    ensures loading { IsLoading set.now store.new.storage }
{
    'elements: for index in 0..set.parts()[part as usize].module.element_count() {
        write_element(set, store, part, index);
    }
}

/// Writes the data segments of a part, one after another.
fn write_part_segments(set: &LinkedSet, store: &mut Store, part: u32) -> Result<(), AllocError>
    requires part { part < length set.now }
    requires loading { IsLoading set.now store.old.storage }
    ensures written { (p : LinkedModule) → IsLinkedPart set.now part p
        → OnOk result (store.new.storage ≡ fold (with_segment p) store.old.storage p.tree.segments) }
    ensures loading { OnOk result (IsLoading set.now store.new.storage) }
{
    'segments: for index in 0..set.parts()[part as usize].module.segment_count() {
        write_segment(set, store, part, index)?;
    }
    Ok(())
}

/// Writes all segments of the set, none of which is outside: part by part, and in each part elements before data. The
/// error is want of memory, and some segments may have been written then.
pub fn write_segments(set: &LinkedSet, store: &mut Store) -> Result<(), AllocError>
    requires allocated { store.old.storage ≡ allocated (linked (set_of set.now)) }
    requires inside { outside store.old.storage (linked (set_of set.now)) ≡ None }
    ensures { IfOk result (λ _. store.new.storage ≡ loaded (set_of set.now)) }
{
    'parts: for part in 0..set.parts().len() as u32 {
        write_part_elements(set, store, part);
        write_part_segments(set, store, part)?;
    }
    Ok(())
}
