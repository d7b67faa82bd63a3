ghost use Rattle.std.specs.Prelude.{◌≡◌, ◌<◌, ◌+◌, ◌&&◌, ◌^◌, length};
ghost use Rattle.ctw_ops.specs.Tree.{global_types, imported_globals};
ghost use Rattle.ctw_form.specs.Shown.{constant_of};
ghost use Rattle.ctw_module.specs.Trees.{tree};
ghost use Rattle.ctw_modcheck.specs.Answers.{Answers, fault_at};
ghost use Rattle.ctw_modcheck.specs.Faults.{first_in, global_fault, is_of_type, names_constant};

use crate::fault::Invalid;
use crate::names::names_global;
use ctw_module::{ConstExpr, Global1, Module};
use ctw_ops::{ExternTag, Space, ValType};

/// The first fault of the defined globals.
pub fn check_globals(m: &Module) -> Result<(), Invalid>
    ensures { Answers result (first_in (global_fault (tree m.now)) 0 (tree m.now).globals) }
{
    let imported = m.imported_count(ExternTag::Global);
    'globals: for i in 0..m.global_count() - imported {
        check_global(m, imported, i)?;
    }
    Ok(())
}

/// The fault of a defined global's expression: it names no global, or one that isn't an imported constant, or it has
/// another type.
fn check_global(m: &Module, imported: u32, i: u32) -> Result<(), Invalid>
    requires count { imported ≡ length (imported_globals (tree m.now).imports) }
    requires there { imported + i < length (global_types (tree m.now)) }
    requires fits { imported + i < 2 ^ 32 }
    ensures { Answers result (fault_at (global_fault (tree m.now)) (tree m.now).globals i) }
{
    let Global1 { ty, init } = m.global(imported + i);
    let Some(init) = init else {
        unreachable!();
    };
    if !names_global(m, &init) {
        return Err(Invalid::ModuleIndex {
            space: Space::Globals,
            index: i,
        });
    }
    if !is_initial(m, imported, ty.value, &init) {
        return Err(Invalid::ConstExpr {
            space: Space::Globals,
            index: i,
        });
    }
    Ok(())
}

/// Whether an expression is a number of the type, or names an imported constant of the type.
fn is_initial(m: &Module, imported: u32, ty: ValType, init: &ConstExpr) -> bool
    requires { imported ≡ length (imported_globals (tree m.now).imports) }
    ensures { result
        ≡ (names_constant (imported_globals (tree m.now).imports) (constant_of init.now)
        && is_of_type (imported_globals (tree m.now).imports) ty (constant_of init.now)) }
{
    match init {
        ConstExpr::Const { value, .. } => *value == ty,
        ConstExpr::Get { global } => {
            if *global >= imported {
                return false;
            }
            let named = m.global(*global).ty;
            !named.mutable && named.value == ty
        }
    }
}
