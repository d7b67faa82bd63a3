ghost use Rattle.std.specs.Prelude.{◌≡◌, ◌<◌, ◌^◌, [], length, OnOk};
ghost use Rattle.ctw_ops.specs.Plain.{IsPlainModule};
ghost use Rattle.ctw_ops.specs.Valid.{IsValid};
ghost use Rattle.ctw_module.specs.Trees.{view_module};
ghost use Rattle.ctw_labels.specs.Points.{no_points};
ghost use Rattle.ctw_labels.specs.SitedModule.{bodies, body_sites, first_global, head_sites, sites};
ghost use Rattle.ctw_sites.specs.Heads.{heads as heads_of};
ghost use Rattle.ctw_sites.specs.Packed.{after};
ghost use Rattle.ctw_sites.specs.Starts.{starts_from};

use crate::body::add_body;
use crate::packer::Packer;
use ctw_module::Module;
use ctw_ops::ExternTag;
use ctw_stack::Stack;
use std::alloc::{AllocError, Global};

/// Adds the sites of all defined functions' locals and bodies, and the first one of each to `starts`. `heads` are the
/// first sites of functions, and `globals` is that of the first global.
pub fn add_bodies(
    alloc: Global,
    m: &Module,
    heads: &[u32],
    globals: u32,
    packer: &mut Packer,
    starts: &mut Vec<u32>,
) -> Result<(), AllocError>
    requires plain { IsPlainModule (view_module m.now) }
    requires valid { IsValid (view_module m.now) }
    requires heads { heads.now ≡ heads_of (view_module m.now) }
    requires globals { globals ≡ first_global (view_module m.now) }
    requires behind { packer.old.count ≡ length (head_sites (view_module m.now)) }
    requires room { length (sites (view_module m.now)) < 2 ^ 32 }
    requires none { starts.old.items ≡ [] }
    ensures sites { OnOk result (packer.new ≡ after packer.old (body_sites (bodies (view_module m.now) no_points))) }
    ensures starts { OnOk result (starts.new.items
        ≡ starts_from packer.old.count (bodies (view_module m.now) no_points)) }
{
    let mut stack = Stack::new(alloc);
    'functions: for f in m.imported_count(ExternTag::Func)..m.func_count() {
        starts.push(packer.count)?;
        add_body(m, heads, globals, &mut stack, packer, f)?;
    }
    Ok(())
}
