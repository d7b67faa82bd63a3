ghost use Rattle.std.specs.Prelude.{◌≡◌, ◌<◌, ◌^◌, [], ◌+◌, length, IfOk, OnOk};
ghost use Rattle.ctw_ops.specs.Plain.{IsPlainModule};
ghost use Rattle.ctw_ops.specs.Valid.{IsValid};
ghost use Rattle.ctw_module.specs.Trees.{view_module};
ghost use Rattle.ctw_labels.specs.Points.{no_points};
ghost use Rattle.ctw_labels.specs.SitedModule.{bodies, first_global, head_sites, sites};
ghost use Rattle.ctw_sites.specs.Heads.{heads as heads_of};
ghost use Rattle.ctw_sites.specs.Packed.{after};
ghost use Rattle.ctw_sites.specs.Starts.{starts_from};

use crate::bodies::add_bodies;
use crate::head::add_head;
use crate::packer::Packer;
use ctw_module::Module;
use std::alloc::{AllocError, Global};

/// How many sites the globals and the memory have.
fn behind_functions(m: &Module) -> u32
    requires { length (head_sites (view_module m.now)) < 2 ^ 32 }
    ensures { first_global (view_module m.now) + result ≡ length (head_sites (view_module m.now)) }
{
    match m.memory() {
        Some(_) => m.global_count() + 1,
        None => m.global_count(),
    }
}

/// Adds the sites of functions, globals and the memory, and the first site of each function to `heads`. It answers the
/// site of the first global.
pub fn gather_head(m: &Module, packer: &mut Packer, heads: &mut Vec<u32>) -> Result<u32, AllocError>
    requires room { length (head_sites (view_module m.now)) < 2 ^ 32 }
    requires empty { packer.old.count ≡ 0 }
    requires headless { heads.old.items ≡ [] }
    ensures sites { OnOk result (packer.new ≡ after packer.old (head_sites (view_module m.now))) }
    ensures heads { OnOk result (heads.new.items ≡ heads_of (view_module m.now)) }
    ensures globals { IfOk result (λ globals. globals ≡ first_global (view_module m.now)) }
{
    add_head(m, packer, heads)?;
    Ok(packer.count - behind_functions(m))
}

/// Adds all sites of a module, the first one of each function to `heads`, and the first one of each body to `starts`.
pub fn gather(
    alloc: Global,
    m: &Module,
    packer: &mut Packer,
    heads: &mut Vec<u32>,
    starts: &mut Vec<u32>,
) -> Result<(), AllocError>
    requires plain { IsPlainModule (view_module m.now) }
    requires valid { IsValid (view_module m.now) }
    requires room { length (sites (view_module m.now)) < 2 ^ 32 }
    requires empty { packer.old.count ≡ 0 }
    requires headless { heads.old.items ≡ [] }
    requires none { starts.old.items ≡ [] }
    ensures sites { OnOk result (packer.new ≡ after packer.old (sites (view_module m.now))) }
    ensures heads { OnOk result (heads.new.items ≡ heads_of (view_module m.now)) }
    ensures starts { OnOk result (starts.new.items
        ≡ starts_from (length (head_sites (view_module m.now))) (bodies (view_module m.now) no_points)) }
{
    let globals = gather_head(m, packer, heads)?;
    add_bodies(alloc, m, heads, globals, packer, starts)
}
