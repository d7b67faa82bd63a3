ghost use Rattle.std.specs.Prelude.{[], ◌≡◌, ◌≤◌, ◌<◌, ◌≢◌, length, Some, OnOk, IfErr, IsOkUnless};
ghost use Rattle.ctw_ops.specs.declared.types.Label.{Label};
ghost use Rattle.ctw_ops.specs.Code.{Code};
ghost use Rattle.ctw_ops.specs.Tree.{Function, function_entries};
ghost use Rattle.ctw_ops.specs.Bodies.{context_of, HasItsType};
ghost use Rattle.ctw_flat.specs.Spelled.{IsBody};
ghost use Rattle.ctw_module.specs.Trees.{tree, view_module};
ghost use Rattle.ctw_module.specs.Lookup.{imported_count, function_named};
ghost use Rattle.ctw_valid.specs.declared.fault.BodyFault.TheVariants.{NoMemory};
ghost use Rattle.ctw_valid.specs.Named.{AreTyped};
ghost use Rattle.ctw_valid.specs.Scope.{scope_of_body};
ghost use Rattle.ctw_valid.specs.Faults.{body_fault};
ghost use Rattle.ctw_valid.specs.Answers.{Checks, NamesTheStop, Applies};

use crate::around::Around;
use crate::fault::BodyFault;
use crate::levels::Levels;
use crate::pass::{begin, step};
use ctw_flat::{Body, Walk};
use ctw_module::Module;
use ctw_stack::Stack;
use std::alloc::Global;
use std::marker::Model;

/// Passes all opcodes of a body. Bytes that spell no body are refused.
pub fn check_code(levels: &mut Levels, around: &Around, body: &Body) -> Result<(), BodyFault>
    ensures { (code : Code Label) → IsBody body.now code → Checks (scope_of_body around.now) code result }
{
    begin(levels, around.result)?;
    let mut walk = Walk::new(body);
    let mut at: u32 = 0;
    'opcodes: while !walk.is_done() {
        let instr = match walk.next() {
            Ok(instr) => instr,
            Err(_) => return Err(BodyFault::WrongType { at }),
        };
        step(around, levels, &instr, at)?;
        at += 1;
    }
    Ok(())
}

/// Whether a defined function's body has its function's type (W3C WebAssembly Core 1.0, sections 3.3 and 3.4.1, with
/// the labels and trust of CT-Wasm). Takes linear time, and a search among the function's runs of locals for each local
/// that is named.
///
/// `f` is a defined function's index, imported ones counted first, and each function's type index names a type. Else
/// the answer is the fault of the first opcode that the pass refuses: of the kinds that apply to it the first one in
/// the order of `BodyFault`. `NoMemory` comes for want of memory alone.
pub fn check_body(alloc: Global, m: &Module, f: u32) -> Result<(), BodyFault>
    requires typed { AreTyped (tree m.now) }
    requires defined { imported_count (tree m.now) ≤ f }
    requires there { f < length (function_entries (tree m.now)) }
    ensures sound { (function : Function Label) → function_named (tree m.now) f ≡ Some function
        → OnOk result (HasItsType (view_module m.now) function) }
    ensures complete { (function : Function Label) → function_named (tree m.now) f ≡ Some function
        → HasItsType (view_module m.now) function → IsOkUnless result NoMemory }
    ensures fault { (function : Function Label) → function_named (tree m.now) f ≡ Some function
        → IfErr result (λ e. e ≢ NoMemory → body_fault (view_module m.now) function ≡ Some e) }
    ensures at { (function : Function Label) → function_named (tree m.now) f ≡ Some function
        → IfErr result (λ e. NamesTheStop (context_of (view_module m.now) function) function.body e) }
    ensures applies { (function : Function Label) → function_named (tree m.now) f ≡ Some function
        → IfErr result (λ e. Applies (context_of (view_module m.now) function) function.body e) }
{
    let mut checker = Checker::new(alloc);
    checker.check_body(m, f)
}

/// What checks the bodies of a module one after another in the same memory.
/// Contracts see the blocks that are open in it.
#[derive(Drop)]
pub struct Checker {
    levels: Levels,
}

impl Model for Checker {
    ghost use Rattle.std.specs.Prelude.{List};
    ghost use Rattle.ctw_ops.specs.declared.types.Label.{Label};
    ghost use Rattle.ctw_stack.specs.Pass.{Level};
    ghost use Rattle.ctw_valid.specs.Levels.{levels_in};

    ghost Value = { List (Level Label) };

    ghost view = { λ c. levels_in c.levels };
}

impl Checker {
    /// A checker that has no memory yet, and in which no block is open.
    pub fn new(alloc: Global) -> Checker
        ensures { result ≡ [] }
    {
        Checker {
            levels: Levels {
                stack: Stack::new(alloc),
                arms: Vec::new(alloc),
            },
        }
    }

    /// What `check_body` answers.
    pub fn check_body(&mut self, m: &Module, f: u32) -> Result<(), BodyFault>
        requires typed { AreTyped (tree m.now) }
        requires defined { imported_count (tree m.now) ≤ f }
        requires there { f < length (function_entries (tree m.now)) }
        ensures sound { (function : Function Label) → function_named (tree m.now) f ≡ Some function
            → OnOk result (HasItsType (view_module m.now) function) }
        ensures complete { (function : Function Label) → function_named (tree m.now) f ≡ Some function
            → HasItsType (view_module m.now) function → IsOkUnless result NoMemory }
        ensures fault { (function : Function Label) → function_named (tree m.now) f ≡ Some function
            → IfErr result (λ e. e ≢ NoMemory → body_fault (view_module m.now) function ≡ Some e) }
        ensures at { (function : Function Label) → function_named (tree m.now) f ≡ Some function
            → IfErr result (λ e. NamesTheStop (context_of (view_module m.now) function) function.body e) }
        ensures applies { (function : Function Label) → function_named (tree m.now) f ≡ Some function
            → IfErr result (λ e. Applies (context_of (view_module m.now) function) function.body e) }
    {
        match m.body(f) {
            Some(body) => check_code(&mut self.levels, &Around::new(m, f), &body),
            None => unreachable!(),
        }
    }
}
