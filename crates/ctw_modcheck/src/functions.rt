ghost use Rattle.std.specs.Prelude.{◌≡◌, ◌<◌, ◌+◌, length};
ghost use Rattle.ctw_ops.specs.Tree.{function_entries, type_named};
ghost use Rattle.ctw_module.specs.Lookup.{imported_count};
ghost use Rattle.ctw_module.specs.Trees.{tree};
ghost use Rattle.ctw_modcheck.specs.Answers.{Answers, fault_at};
ghost use Rattle.ctw_modcheck.specs.Faults.{first_in, of_some, function_fault, start_fault, is_bare};

use crate::fault::Invalid;
use ctw_module::Module;
use ctw_ops::{ExternTag, Space};

/// The first fault of the defined functions' types.
pub fn check_functions(m: &Module) -> Result<(), Invalid>
    ensures { Answers result (first_in (function_fault (tree m.now)) 0 (tree m.now).functions) }
{
    let imported = m.imported_count(ExternTag::Func);
    'functions: for i in 0..m.func_count() - imported {
        check_function(m, imported + i, i)?;
    }
    Ok(())
}

/// The fault of the defined function of a number, which has the index `f` with imported ones: it names no type entry.
fn check_function(m: &Module, f: u32, i: u32) -> Result<(), Invalid>
    requires named { f ≡ imported_count (tree m.now) + i }
    requires there { f < length (function_entries (tree m.now)) }
    ensures { Answers result (fault_at (function_fault (tree m.now)) (tree m.now).functions i) }
{
    if m.type_of_func(f) >= m.type_count() {
        return Err(Invalid::ModuleIndex {
            space: Space::Functions,
            index: i,
        });
    }
    Ok(())
}

/// The fault of the start function: it isn't there, or has a parameter or a result. One whose type index names
/// no entry counts as one without.
pub fn check_start(m: &Module) -> Result<(), Invalid>
    ensures { Answers result (of_some (start_fault (tree m.now)) (tree m.now).start) }
{
    let Some(f) = m.start() else {
        return Ok(());
    };
    if f >= m.func_count() {
        return Err(Invalid::ModuleIndex {
            space: Space::Start,
            index: 0,
        });
    }
    if !has_no_types(m, m.type_of_func(f)) {
        return Err(Invalid::StartType);
    }
    Ok(())
}

/// Whether a type has neither parameters nor a result. An index that names no entry has neither.
fn has_no_types(m: &Module, index: u32) -> bool
    ensures { result ≡ is_bare (type_named (tree m.now) index) }
{
    if index >= m.type_count() {
        return true;
    }
    let ty = m.func_type(index);
    ty.params.is_empty() && ty.result.is_none()
}
