ghost use Rattle.std.specs.Prelude.{◌≡◌, ◌<◌, ◌^◌, length, IfOk};
ghost use Rattle.std.specs.List.{AllByRecursion};
ghost use Rattle.ctw_ops.specs.Plain.{IsPlainModule};
ghost use Rattle.ctw_ops.specs.Valid.{IsValid};
ghost use Rattle.ctw_module.specs.Trees.{view_module};
ghost use Rattle.ctw_labels.specs.ModuleLinks.{module_facts};
ghost use Rattle.ctw_labels.specs.Points.{no_points};
ghost use Rattle.ctw_labels.specs.SitedModule.{sites};

use crate::bodies::add_bodies;
use crate::globals::{tell_elements, tell_inits, tell_segments};
use crate::users::{note_elements, tell_users};
use ctw_labels::Told;
use ctw_module::Module;
use ctw_sites::gather::gather_head;
use ctw_sites::packer::Packer;
use std::alloc::{AllocError, Global};

/// All facts of a module, by one walk over the bytes of its bodies. They don't depend on points.
pub fn gather(alloc: Global, m: &Module) -> Result<Vec<Told>, AllocError>
    requires plain { IsPlainModule (view_module m.now) }
    requires valid { IsValid (view_module m.now) }
    requires room { length (sites (view_module m.now)) < 2 ^ 32 }
    ensures { IfOk result (λ told. told.items ≡ module_facts (view_module m.now) no_points) }
{
    // The sites are counted, and none is kept.
    let mut packer = Packer::new(alloc, 0);
    let mut heads = Vec::new(alloc);
    let mut users = Vec::new(alloc);
    let mut told = Vec::new(alloc);
    let globals = gather_head(m, &mut packer, &mut heads)?;
    note_elements(m, &heads, &mut users)?;
    add_bodies(
        alloc,
        m,
        &heads,
        globals,
        &mut packer,
        &mut told,
        &mut users,
    )?;
    tell_users(alloc, m, &users, &mut told)?;
    tell_inits(m, globals, &mut told)?;
    tell_elements(m, globals, &mut told)?;
    tell_segments(m, globals, &mut told)?;
    Ok(told)
}
