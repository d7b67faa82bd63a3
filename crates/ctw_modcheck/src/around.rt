ghost use Rattle.ctw_module.specs.Trees.{tree};
ghost use Rattle.ctw_modcheck.specs.Answers.{Answers};
ghost use Rattle.ctw_ops.specs.FirstFault.{FindsFault};
ghost use Rattle.ctw_modcheck.specs.declared.fault.Invalid.TheVariants.{NoMemory};
ghost use Rattle.ctw_modcheck.specs.Faults.{around_fault, first_in, import_fault, memory_fault, of_some, table_fault};
ghost use Rattle.ctw_ops.specs.declared.fault.Space.TheVariants.{Tables, Memories};
ghost use Rattle.std.specs.Prelude.{◌≡◌, None};

use crate::exports::check_exports;
use crate::fault::Invalid;
use crate::functions::{check_functions, check_start};
use crate::globals::check_globals;
use crate::imports::check_imports;
use crate::limits::{check_memory_limits, check_table_limits};
use crate::segments::{check_elements, check_segments};
use crate::types::check_types;
use ctw_module::Module;
use ctw_ops::Space;
use std::alloc::Global;

/// The first fault around the bodies.
pub fn check_around(alloc: Global, m: &Module) -> Result<(), Invalid>
    ensures { FindsFault NoMemory result (around_fault (tree m.now)) }
{
    check_types(m)?;
    check_imports(m)?;
    check_functions(m)?;
    check_table(m)?;
    check_memory(m)?;
    check_globals(m)?;
    check_exports(alloc, m)?;
    check_start(m)?;
    check_elements(m)?;
    check_segments(m)
}

/// The fault of the defined table's limits. An imported one, with which none is defined, has its limits in order.
fn check_table(m: &Module) -> Result<(), Invalid>
    requires { first_in (import_fault (tree m.now)) 0 (tree m.now).imports ≡ None }
    ensures { Answers result (of_some (table_fault Tables) (tree m.now).table) }
{
    // The bytes spell a module, which has one table at most.
    let _bytes = m.bytes();
    match m.table() {
        Some(limits) => check_table_limits(Space::Tables, limits),
        None => Ok(()),
    }
}

/// The fault of the defined memory's limits. An imported one, with which none is defined, has its limits in order.
fn check_memory(m: &Module) -> Result<(), Invalid>
    requires { first_in (import_fault (tree m.now)) 0 (tree m.now).imports ≡ None }
    ensures { Answers result (of_some (memory_fault Memories) (tree m.now).memory) }
{
    // The bytes spell a module, which has one memory at most.
    let _bytes = m.bytes();
    match m.memory() {
        Some(ty) => check_memory_limits(Space::Memories, ty),
        None => Ok(()),
    }
}
