//! The reader of module files.
#![tactic(auto)]

ghost use Rattle.std.specs.Prelude.{◌≡◌, ◌<◌, ◌^◌, length, IfOk, IsOkUnless};
ghost use Rattle.ctw_ops.specs.declared.types.Label.{Label};
ghost use Rattle.ctw_ops.specs.Tree.{Module as Tree};
ghost use Rattle.ctw_form.specs.Spelled.{Spells, module_in};
ghost use Rattle.ctw_module.specs.Trees.{tree, view_of};
ghost use Rattle.ctw_form.specs.Read.{file_at};
ghost use Rattle.ctw_read.specs.Calls.{Reads};

mod code;
mod fault;
mod file;
mod lists;
mod sections;

use crate::file::check;
pub use ctw_module::FormKind;
use ctw_module::{Module, view};
pub use fault::ReadFault;
use std::alloc::Global;

/// Reads a module's file, which has fewer than 2^32 bytes.
///
/// Ok exactly where the bytes spell a module and memory doesn't run out; it is then a view of these
/// bytes. `Bad` has the first fault from the left. Takes linear time.
pub fn read<'a>(alloc: Global, bytes: &'a [u8]) -> Result<Module<'a>, ReadFault>
    requires { length bytes.now < 2 ^ 32 }
    // The module, or the first fault.
    ensures exact { Reads (λ m file. tree m ≡ module_in file) result (file_at bytes.now) }
    // A module is one that the bytes spell.
    ensures spelled { IfOk result (λ m. Spells bytes.now (tree m)) }
    // Bytes that spell a module are refused for want of memory alone.
    ensures found { (m : Tree Label) → Spells bytes.now m → IsOkUnless result ReadFault.NoMemory }
    // It is a view of these bytes, under the profile Divide.
    ensures view { IfOk result (λ m. m ≡ view_of bytes.now) }
{
    check(alloc, bytes)?;
    match view(alloc, bytes) {
        Ok(m) => Ok(m),
        Err(_) => Err(ReadFault::NoMemory),
    }
}
