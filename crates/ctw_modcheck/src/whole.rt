ghost use Rattle.std.specs.Prelude.{◌≡◌, ◌≢◌, ℕ, Some, OnOk, IfErr, IsOkUnless};
ghost use Rattle.ctw_ops.specs.Valid.{IsValid};
ghost use Rattle.ctw_module.specs.Trees.{view_module};
ghost use Rattle.ctw_valid.specs.declared.fault.BodyFault.TheVariants as body;
ghost use Rattle.ctw_modcheck.specs.declared.fault.Invalid.TheVariants.{Body, NoMemory};
ghost use Rattle.ctw_modcheck.specs.Check.{fault_of};

use crate::around::check_around;
use crate::bodies::check_bodies;
use crate::fault::Invalid;
use ctw_module::Module;
use std::alloc::Global;

/// Whether a module is valid under its profile (W3C WebAssembly Core 1.0, section 3.4, with the labels and trust of
/// CT-Wasm and the variants of CT modules). Where it isn't, the answer is the first fault in the order of types,
/// imports, functions, table, memory, globals, exports, start, elements, data and bodies; within one item ModuleIndex
/// comes before ConstExpr, and that before the others.
///
/// Takes linear time but for the names of exports, which are sorted, and the look-ups of locals. `NoMemory` comes for
/// want of memory alone, and a `Body` never holds one.
pub fn check(alloc: Global, m: &Module) -> Result<(), Invalid>
    ensures sound { OnOk result (IsValid (view_module m.now)) }
    ensures complete { IsValid (view_module m.now) → IsOkUnless result NoMemory }
    ensures fault { IfErr result (λ e. e ≢ NoMemory → fault_of (view_module m.now) ≡ Some e) }
    ensures held { (f : ℕ) → IfErr result (λ e. e ≢ Body f body.NoMemory) }
{
    // The bytes spell a module, which is formed.
    let _bytes = m.bytes();
    check_around(alloc, m)?;
    check_bodies(alloc, m)
}
