ghost use Rattle.std.specs.Prelude.{[]};
ghost use Rattle.ctw_module.specs.Trees.{tree};
ghost use Rattle.ctw_ops.specs.FirstFault.{FindsFault};
ghost use Rattle.ctw_modcheck.specs.declared.fault.Invalid.TheVariants.{NoMemory};
ghost use Rattle.ctw_modcheck.specs.Faults.{exports_fault};

use crate::fault::Invalid;
use crate::names::is_named;
use ctw_module::Module;
use ctw_ops::Space;
use std::alloc::Global;
use std::collections::BTreeSet;

/// The first fault of the exports: one names what isn't there, or has the name of an earlier one. NoMemory leaves
/// nothing behind.
pub fn check_exports(alloc: Global, m: &Module) -> Result<(), Invalid>
    ensures { FindsFault NoMemory result (exports_fault (tree m.now) [] 0 (tree m.now).exports) }
{
    let mut names: BTreeSet<&str> = BTreeSet::new(alloc);
    'exports: for index in 0..m.export_count() {
        let (name, kind, named) = m.export(index);
        if !is_named(m, kind, named) {
            return Err(Invalid::ModuleIndex {
                space: Space::Exports,
                index,
            });
        }
        if !names.insert(name)? {
            return Err(Invalid::DoubleExport { index });
        }
    }
    Ok(())
}
