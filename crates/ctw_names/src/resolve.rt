ghost use Rattle.std.specs.Prelude.{◌≡◌, map, IfOk, OnOk};
ghost use Rattle.std.specs.List.{flat_map};
ghost use Rattle.ctw_text.specs.Names.{find as found, index_or_zero, maybe_faults, use_faults};
ghost use Rattle.ctw_names.specs.Noted.{noted};
ghost use Rattle.ctw_names.specs.Known.{number_of};

use crate::fault::{Fault, FaultKind, Faults};
use crate::labels::Labels;
use crate::locals::Locals;
use crate::table::NameTable;
use ctw_text::{FrontList, Index};
use std::alloc::{AllocError, Global};

/// The number of an index among things with these names, if it has one.
pub fn known(names: &NameTable, x: &Index) -> Option<u32>
    ensures { result ≡ number_of names.now x.now }
{
    match x {
        Index::Numbered(n) => Some(*n),
        Index::Named(name) => names.position(name),
    }
}

/// The number of an index among things with these names; 0 where it has none.
pub fn find(names: &NameTable, x: &Index) -> u32
    ensures { result ≡ found names.now x.now }
{
    match x {
        Index::Numbered(n) => *n,
        Index::Named(name) => names.position(name).unwrap_or(0),
    }
}

#[tactic(auto, using(crate::proofs::Positions::any_position))]
/// Notes a fault where an index is a name that none of these things has.
pub fn note(names: &NameTable, x: &Index, faults: &mut Faults)
    ensures { faults.new ≡ noted faults.old (use_faults names.now x.now) }
{
    let Index::Named(name) = x else {
        return;
    };
    if names.position(name).is_some() {
        return;
    }
    faults.note(Fault::at(FaultKind::UnknownName, name));
}

#[tactic(auto, using(crate::proofs::Positions::any_position))]
/// The number of an index among things with these names; a fault is noted and 0 is given where there is none.
pub fn number(names: &NameTable, x: &Index, faults: &mut Faults) -> u32
    ensures number { result ≡ found names.now x.now }
    ensures faults { faults.new ≡ noted faults.old (use_faults names.now x.now) }
{
    match x {
        Index::Numbered(n) => *n,
        Index::Named(name) => faults.expect(names.position(name), name),
    }
}

#[tactic(auto, using(crate::proofs::Positions::any_position))]
/// The label of an index, counted outwards; a fault is noted and 0 is given where there is none.
pub fn label(labels: &Labels, x: &Index, faults: &mut Faults) -> u32
    ensures number { result ≡ found labels.now x.now }
    ensures faults { faults.new ≡ noted faults.old (use_faults labels.now x.now) }
{
    match x {
        Index::Numbered(n) => *n,
        Index::Named(name) => faults.expect(labels.position(name), name),
    }
}

#[tactic(auto, using(crate::proofs::Positions::any_position))]
/// The number of an index among a function's variables; a fault is noted and 0 is given where there is none.
pub fn local(locals: &Locals, x: &Index, faults: &mut Faults) -> u32
    ensures number { result ≡ found locals.now x.now }
    ensures faults { faults.new ≡ noted faults.old (use_faults locals.now x.now) }
{
    match x {
        Index::Numbered(n) => *n,
        Index::Named(name) => faults.expect(locals.position(name), name),
    }
}

/// The number of an index that may be missing; 0 where it is, or has none.
pub fn find_or_zero(names: &NameTable, x: &Option<Index>) -> u32
    ensures { result ≡ index_or_zero names.now x.now }
{
    let Some(x) = x else {
        return 0;
    };
    find(names, x)
}

/// Notes a fault where an index is there and is a name that none of these things has.
pub fn note_if_any(names: &NameTable, x: &Option<Index>, faults: &mut Faults)
    ensures { faults.new ≡ noted faults.old (maybe_faults names.now x.now) }
{
    let Some(x) = x else {
        return;
    };
    note(names, x, faults);
}

/// The numbers of indexes, as `find` has them.
pub fn find_all(
    alloc: Global,
    names: &NameTable,
    xs: &FrontList<Index>,
) -> Result<Vec<u32>, AllocError>
    ensures { IfOk result (λ numbers. numbers.items ≡ map (found names.now) xs.now) }
{
    let mut numbers = Vec::new(alloc);
    'indexes: for i in 0..xs.len() {
        numbers.push(find(names, xs.at(i)))?;
    }
    Ok(numbers)
}

/// Notes the faults of indexes, as `note` does.
pub fn note_all(names: &NameTable, xs: &FrontList<Index>, faults: &mut Faults)
    ensures { faults.new ≡ noted faults.old (flat_map (use_faults names.now) xs.now) }
{
    'indexes: for i in 0..xs.len() {
        note(names, xs.at(i), faults);
    }
}

/// The labels of indexes, as `label` has them; faults are noted.
pub fn labels_of(
    alloc: Global,
    labels: &Labels,
    xs: &FrontList<Index>,
    faults: &mut Faults,
) -> Result<Vec<u32>, AllocError>
    ensures numbers { IfOk result (λ numbers. numbers.items ≡ map (found labels.now) xs.now) }
    ensures faults { OnOk result (faults.new ≡ noted faults.old (flat_map (use_faults labels.now) xs.now)) }
{
    let mut numbers = Vec::new(alloc);
    'indexes: for i in 0..xs.len() {
        numbers.push(label(labels, xs.at(i), faults))?;
    }
    Ok(numbers)
}
