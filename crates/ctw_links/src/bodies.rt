ghost use Rattle.std.specs.Prelude.{◌≡◌, ◌++◌, ◌<◌, ◌^◌, length, OnOk};
ghost use Rattle.ctw_ops.specs.Plain.{IsPlainModule};
ghost use Rattle.ctw_ops.specs.Tree.{function_types};
ghost use Rattle.ctw_ops.specs.Valid.{IsValid};
ghost use Rattle.ctw_module.specs.Trees.{view_module};
ghost use Rattle.ctw_labels.specs.ModuleLinks.{body_uses, facts_within};
ghost use Rattle.ctw_labels.specs.Points.{no_points};
ghost use Rattle.ctw_labels.specs.SitedModule.{bodies, first_global, head_sites, sites};
ghost use Rattle.ctw_sites.specs.Heads.{heads as heads_of};
ghost use Rattle.ctw_links.specs.Uses.{types_of_users};

use crate::body::add_body;
use crate::user::User;
use ctw_labels::Told;
use ctw_module::Module;
use ctw_ops::ExternTag;
use ctw_sites::packer::Packer;
use ctw_stack::Stack;
use std::alloc::{AllocError, Global};

/// Tells the facts of all defined functions' bodies, and notes their indirect calls. `heads` are the first sites of
/// functions, `globals` is that of the first global, and `packer` counts the sites.
pub fn add_bodies(
    alloc: Global,
    m: &Module,
    heads: &[u32],
    globals: u32,
    packer: &mut Packer,
    told: &mut Vec<Told>,
    users: &mut Vec<User>,
) -> Result<(), AllocError>
    requires plain { IsPlainModule (view_module m.now) }
    requires valid { IsValid (view_module m.now) }
    requires heads { heads.now ≡ heads_of (view_module m.now) }
    requires globals { globals ≡ first_global (view_module m.now) }
    requires behind { packer.old.count ≡ length (head_sites (view_module m.now)) }
    requires room { length (sites (view_module m.now)) < 2 ^ 32 }
    ensures told { OnOk result (told.new.items
        ≡ told.old.items ++ facts_within (view_module m.now) no_points (bodies (view_module m.now) no_points)) }
    ensures users { OnOk result (types_of_users (function_types (view_module m.now)) users.new.items
        ≡ types_of_users (function_types (view_module m.now)) users.old.items
        ++ body_uses (bodies (view_module m.now) no_points)) }
{
    let mut stack = Stack::new(alloc);
    'functions: for f in m.imported_count(ExternTag::Func)..m.func_count() {
        add_body(m, heads, globals, &mut stack, packer, told, users, f)?;
    }
    Ok(())
}
