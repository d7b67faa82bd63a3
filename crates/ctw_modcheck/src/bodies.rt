ghost use Rattle.std.specs.Prelude.{◌≡◌, ◌<◌, ◌≤◌, length, Some};
ghost use Rattle.ctw_ops.specs.declared.types.Label.{Label};
ghost use Rattle.ctw_ops.specs.Tree.{Function, function_entries};
ghost use Rattle.ctw_module.specs.Lookup.{imported_count, function_named};
ghost use Rattle.ctw_module.specs.Trees.{tree, view_module};
ghost use Rattle.ctw_valid.specs.Named.{AreTyped};
ghost use Rattle.ctw_ops.specs.FirstFault.{FindsFault};
ghost use Rattle.ctw_modcheck.specs.declared.fault.Invalid.TheVariants.{NoMemory};
ghost use Rattle.ctw_modcheck.specs.Check.{bodies_fault, function_body_fault};

use crate::fault::Invalid;
use ctw_module::Module;
use ctw_ops::ExternTag;
use ctw_valid::{BodyFault, Checker};
use std::alloc::Global;

/// The first fault of the bodies. Each function's type index names a type.
pub fn check_bodies(alloc: Global, m: &Module) -> Result<(), Invalid>
    requires { AreTyped (tree m.now) }
    ensures { FindsFault NoMemory result (bodies_fault (view_module m.now)) }
{
    let imported = m.imported_count(ExternTag::Func);
    let mut checker = Checker::new(alloc);
    'functions: for i in 0..m.func_count() - imported {
        check_function_body(&mut checker, m, imported + i)?;
    }
    Ok(())
}

/// The fault of a defined function's body.
fn check_function_body(checker: &mut Checker, m: &Module, f: u32) -> Result<(), Invalid>
    requires typed { AreTyped (tree m.now) }
    requires defined { imported_count (tree m.now) ≤ f }
    requires there { f < length (function_entries (tree m.now)) }
    ensures { (function : Function Label) → function_named (tree m.now) f ≡ Some function
        → FindsFault NoMemory result (function_body_fault (view_module m.now) f function) }
{
    match checker.check_body(m, f) {
        Ok(()) => Ok(()),
        Err(BodyFault::NoMemory) => Err(Invalid::NoMemory),
        Err(fault) => Err(Invalid::Body { f, fault }),
    }
}
