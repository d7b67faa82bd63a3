ghost use Rattle.std.specs.Prelude.{◌≤◌, Some, get_or, ◌≡◌, ◌<◌, ◌++◌, ◌^◌, length, OnOk};
ghost use Rattle.ctw_ops.specs.declared.types.Label.{Label};
ghost use Rattle.ctw_ops.specs.Code.{Code, opcodes};
ghost use Rattle.ctw_ops.specs.Tree.{Function, function_entries, function_types};
ghost use Rattle.ctw_module.specs.Trees.{tree, view_module};
ghost use Rattle.ctw_module.specs.Lookup.{imported_count, function_named};
ghost use Rattle.ctw_flat.specs.Spelled.{IsBody};
ghost use Rattle.ctw_labels.specs.FlatSites.{flat_facts};
ghost use Rattle.ctw_labels.specs.ModuleLinks.{uses, body_facts};
ghost use Rattle.ctw_labels.specs.Points.{no_points};
ghost use Rattle.ctw_labels.specs.SitedModule.{first_global, memory_site, body_from};
ghost use Rattle.ctw_sites.specs.Bodies.{code_sites, outermost, IsReady, IsReadyBody};
ghost use Rattle.ctw_sites.specs.Heads.{heads as heads_of};
ghost use Rattle.ctw_sites.specs.Packed.{after};
ghost use Rattle.ctw_sites.specs.Scope.{scope, place};
ghost use Rattle.ctw_links.specs.Uses.{flat_users, types_of_users};

use crate::pass::{note_user, step};
use crate::user::User;
use ctw_flat::{Body, Walk};
use ctw_labels::{Tag, Told};
use ctw_module::Module;
use ctw_sites::around::Around;
use ctw_sites::head::{add_locals, signature};
use ctw_sites::packer::Packer;
use ctw_stack::Stack;
use std::alloc::AllocError;

/// Tells the facts of a body's opcodes, and notes its indirect calls. `stack` is memory that is used again, and `packer`
/// counts the sites.
fn add_code(
    around: &Around,
    stack: &mut Stack<Tag>,
    packer: &mut Packer,
    told: &mut Vec<Told>,
    users: &mut Vec<User>,
    body: &Body,
) -> Result<(), AllocError>
    requires { (code : Code Label) × IsBody body.now code
        × IsReady (place around.now) (scope around.now) code packer.old.count }
    ensures told { (code : Code Label) → IsBody body.now code
        → IsReady (place around.now) (scope around.now) code packer.old.count
        → OnOk result (told.new.items ≡ told.old.items ++ flat_facts (place around.now) (scope around.now)
        (opcodes code) (outermost (scope around.now)) packer.old.count 0) }
    ensures users { (code : Code Label) → IsBody body.now code
        → IsReady (place around.now) (scope around.now) code packer.old.count
        → OnOk result (users.new.items ≡ users.old.items ++ flat_users (place around.now) (scope around.now)
        (opcodes code) (outermost (scope around.now)) packer.old.count 0) }
    ensures sites { (code : Code Label) → IsBody body.now code
        → IsReady (place around.now) (scope around.now) code packer.old.count
        → OnOk result (packer.new
        ≡ after packer.old (code_sites (place around.now) (scope around.now) code packer.old.count)) }
{
    stack.clear();
    stack.enter(false, around.result())?;
    let mut walk = Walk::new(body);
    let mut at: u32 = 0;
    'opcodes: while !walk.is_done() {
        let instr = match walk.next() {
            Ok(instr) => instr,
            Err(_) => return Ok(()),
        };
        note_user(&instr, packer.count, users)?;
        step(around, stack, packer, told, &instr, at)?;
        at += 1;
    }
    Ok(())
}

/// Tells the facts of a defined function's body, and notes its indirect calls. `heads` are the first sites of functions,
/// `globals` is that of the first global, and `packer` counts the sites.
pub fn add_body(
    m: &Module,
    heads: &[u32],
    globals: u32,
    stack: &mut Stack<Tag>,
    packer: &mut Packer,
    told: &mut Vec<Told>,
    users: &mut Vec<User>,
    f: u32,
) -> Result<(), AllocError>
    requires defined { imported_count (tree m.now) ≤ f }
    requires there { f < length (function_entries (tree m.now)) }
    requires heads { heads.now ≡ heads_of (view_module m.now) }
    requires globals { globals ≡ first_global (view_module m.now) }
    requires memory { memory_site (view_module m.now) < 2 ^ 32 }
    requires ready { (function : Function Label) → function_named (view_module m.now) f ≡ Some function
        → IsReadyBody (view_module m.now) (get_or heads.now f 0) f packer.old.count function }
    ensures told { (function : Function Label) → function_named (view_module m.now) f ≡ Some function
        → OnOk result (told.new.items ≡ told.old.items ++ body_facts (view_module m.now) no_points
        (body_from (view_module m.now) no_points (get_or heads.now f 0) f packer.old.count function)) }
    ensures users { (function : Function Label) → function_named (view_module m.now) f ≡ Some function
        → OnOk result (types_of_users (function_types (view_module m.now)) users.new.items
        ≡ types_of_users (function_types (view_module m.now)) users.old.items ++ uses
        (body_from (view_module m.now) no_points (get_or heads.now f 0) f packer.old.count function).code) }
    ensures sites { (function : Function Label) → function_named (view_module m.now) f ≡ Some function
        → OnOk result (packer.new ≡ after packer.old
        (body_from (view_module m.now) no_points (get_or heads.now f 0) f packer.old.count function).sites) }
{
    let Some(body) = m.body(f) else {
        return Ok(());
    };
    let locals = packer.count;
    let (params, _) = signature(m, m.type_of_func(f));
    add_locals(packer, f, params, m.local_count(f) - params)?;
    let around = Around::new(m, heads, globals, f, locals);
    add_code(&around, stack, packer, told, users, &body)
}
