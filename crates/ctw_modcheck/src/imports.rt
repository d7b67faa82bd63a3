ghost use Rattle.std.specs.Prelude.{◌<◌, length};
ghost use Rattle.ctw_module.specs.Trees.{tree};
ghost use Rattle.ctw_modcheck.specs.Answers.{Answers, fault_at};
ghost use Rattle.ctw_modcheck.specs.Faults.{first_in, import_fault};

use crate::fault::Invalid;
use crate::limits::{check_memory_limits, check_table_limits};
use ctw_module::{ExternKind, Module};
use ctw_ops::Space;

/// The first fault of the imports.
pub fn check_imports(m: &Module) -> Result<(), Invalid>
    ensures { Answers result (first_in (import_fault (tree m.now)) 0 (tree m.now).imports) }
{
    'imports: for i in 0..m.import_count() {
        check_import(m, i)?;
    }
    Ok(())
}

/// The fault of an import: it names no type entry, or its limits are out of order.
fn check_import(m: &Module, i: u32) -> Result<(), Invalid>
    requires { i < length (tree m.now).imports }
    ensures { Answers result (fault_at (import_fault (tree m.now)) (tree m.now).imports i) }
{
    let import = m.import(i);
    match &import.kind {
        ExternKind::Func { type_index, .. } => {
            if *type_index >= m.type_count() {
                return Err(Invalid::ModuleIndex {
                    space: Space::Imports,
                    index: i,
                });
            }
            Ok(())
        }
        ExternKind::Table(limits) => check_table_limits(Space::Imports, *limits),
        ExternKind::Memory(ty) => check_memory_limits(Space::Imports, *ty),
        ExternKind::Global(_) => Ok(()),
    }
}
