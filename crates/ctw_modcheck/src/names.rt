ghost use Rattle.std.specs.Prelude.{◌≡◌};
ghost use Rattle.ctw_form.specs.Shown.{constant_of};
ghost use Rattle.ctw_module.specs.Trees.{tree};
ghost use Rattle.ctw_modcheck.specs.Faults.{names_extern, is_there};

use ctw_module::{ConstExpr, Module};
use ctw_ops::ExternTag;

/// Whether there is a function, table, memory or global of an index.
pub fn is_named(m: &Module, kind: ExternTag, index: u32) -> bool
    ensures { result ≡ names_extern (tree m.now) kind index }
{
    match kind {
        ExternTag::Func => index < m.func_count(),
        ExternTag::Table => index == 0 && m.table().is_some(),
        ExternTag::Memory => index == 0 && m.memory().is_some(),
        ExternTag::Global => index < m.global_count(),
    }
}

/// Whether a global that a constant expression names is there.
pub fn names_global(m: &Module, expression: &ConstExpr) -> bool
    ensures { result ≡ is_there (tree m.now) (constant_of expression.now) }
{
    match expression {
        ConstExpr::Const { .. } => true,
        ConstExpr::Get { global } => *global < m.global_count(),
    }
}
