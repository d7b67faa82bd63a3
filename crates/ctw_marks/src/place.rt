// What a module has: the functions, globals and sites that marks name.
ghost use Rattle.std.specs.Prelude.{◌≡◌, ◌↔◌, ◌<◌, ◌^◌, true, length, option_map, MatchOption};
ghost use Rattle.ctw_ops.specs.Tree.{type_named};
ghost use Rattle.ctw_ops.specs.Segments.{and_then};
ghost use Rattle.ctw_module.specs.Lookup.{export_in};
ghost use Rattle.ctw_module.specs.Trees.{view_module};
ghost use Rattle.ctw_labels.specs.declared.name.SiteName.{SiteName as AName};
ghost use Rattle.ctw_marks.specs.Meaning.{func_of_kind, global_of_kind, function_of, global_of, spot_name, IsAt};
ghost use Rattle.ctw_marks.specs.Places.{IsParam, IsResult, IsLocal, IsAround, trusted_function};

use crate::order::{Spot, Subject};
use ctw_labels::SiteName;
use ctw_module::Module;
use ctw_ops::{ExternTag, Name};

// The function that the first export of a name is.
fn exported_function(m: &Module, name: &Name) -> Option<u32>
    ensures { result ≡ and_then (export_in name.now (view_module m.now).exports) (λ e. func_of_kind e.0 e.1) }
{
    let (kind, index) = m.export_named(name.as_str())?;
    match kind {
        ExternTag::Func => Some(index),
        ExternTag::Table | ExternTag::Memory | ExternTag::Global => None,
    }
}

// The global that the first export of a name is.
fn exported_global(m: &Module, name: &Name) -> Option<u32>
    ensures { result ≡ and_then (export_in name.now (view_module m.now).exports) (λ e. global_of_kind e.0 e.1) }
{
    let (kind, index) = m.export_named(name.as_str())?;
    match kind {
        ExternTag::Global => Some(index),
        ExternTag::Func | ExternTag::Table | ExternTag::Memory => None,
    }
}

/// The index that names a function, which needn't be there.
pub fn function_of(m: &Module, subject: &Subject) -> Option<u32>
    ensures { result ≡ function_of (view_module m.now) subject.now }
{
    match subject {
        Subject::Number { index } => *index,
        Subject::Export { name } => exported_function(m, name),
    }
}

// The index that names a global.
fn global_of(m: &Module, subject: &Subject) -> Option<u32>
    ensures { result ≡ global_of (view_module m.now) subject.now }
{
    match subject {
        Subject::Number { index } => *index,
        Subject::Export { name } => exported_global(m, name),
    }
}

/// The function that a subject names, where it is there.
pub fn trusted_function(m: &Module, subject: &Subject) -> Option<u32>
    ensures { result ≡ trusted_function (view_module m.now) subject.now }
{
    match function_of(m, subject) {
        Some(f) if f < m.func_count() => Some(f),
        _ => None,
    }
}

// The name of a place.
fn spot_name(m: &Module, spot: &Spot) -> Option<SiteName>
    ensures { result ≡ spot_name (view_module m.now) spot.now }
{
    match spot {
        Spot::Param { func, i } => {
            let f = function_of(m, func)?;
            let i = (*i)?;
            Some(SiteName::Param { f, i })
        }
        Spot::Result { func } => {
            let f = function_of(m, func)?;
            Some(SiteName::Result { f })
        }
        Spot::Local { func, i } => {
            let f = function_of(m, func)?;
            let i = (*i)?;
            Some(SiteName::Local { f, i })
        }
        Spot::Global { global } => {
            let g = global_of(m, global)?;
            Some(SiteName::GlobalOf { g })
        }
        Spot::Memory => Some(SiteName::Memory),
    }
}

// How many parameters a type entry has.
fn param_count(m: &Module, y: u32) -> u32
    ensures { result ≡ length (type_named (view_module m.now) y).params }
{
    let _ = m.bytes();
    if y >= m.type_count() {
        return 0;
    }
    let ty = m.func_type(y);
    ty.params.len() as u32
}

// Whether a function is there and has the parameter.
fn has_param(m: &Module, f: u32, i: u32) -> bool
    ensures { (result ≡ true) ↔ IsParam (view_module m.now) f i }
{
    if f >= m.func_count() {
        return false;
    }
    i < param_count(m, m.type_of_func(f))
}

// Whether a function is there and has a result.
fn has_result(m: &Module, f: u32) -> bool
    ensures { (result ≡ true) ↔ IsResult (view_module m.now) f }
{
    if f >= m.func_count() {
        return false;
    }
    let y = m.type_of_func(f);
    if y >= m.type_count() {
        return false;
    }
    m.func_type(y).result.is_some()
}

// Whether a function is defined and declares the local.
fn has_local(m: &Module, f: u32, i: u32) -> bool
    ensures { (result ≡ true) ↔ IsLocal (view_module m.now) f i }
{
    if f >= m.func_count() || f < m.imported_count(ExternTag::Func) {
        return false;
    }
    i >= param_count(m, m.type_of_func(f)) && i < m.local_count(f)
}

// Whether a function, a global or the memory has the site.
fn is_there(m: &Module, name: SiteName) -> bool
    ensures { (result ≡ true) ↔ IsAround (view_module m.now) name }
{
    match name {
        SiteName::Param { f, i } => has_param(m, f, i),
        SiteName::Result { f } => has_result(m, f),
        SiteName::GlobalOf { g } => g < m.global_count(),
        SiteName::Memory => m.memory().is_some(),
        SiteName::Local { f, i } => has_local(m, f, i),
        _ => false,
    }
}

/// The site that a place has, where it is there.
pub fn site_of(m: &Module, spot: &Spot) -> Option<SiteName>
    ensures { MatchOption result ((name : AName) → ¬ (IsAt (view_module m.now) spot.now name))
        (λ name. IsAt (view_module m.now) spot.now name) }
{
    let name = spot_name(m, spot)?;
    if is_there(m, name) { Some(name) } else { None }
}
