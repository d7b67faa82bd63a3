// Where trust is misused: direct calls of trusted functions in other ones, and trusted functions in elements.
ghost use Rattle.std.specs.Prelude.{◌≡◌, slice_get};
ghost use Rattle.ctw_ops.specs.declared.types.Label.{Label};
ghost use Rattle.ctw_ops.specs.Code.{Code, opcodes};
ghost use Rattle.ctw_flat.specs.Instructions.{op_of};
ghost use Rattle.ctw_flat.specs.Spelled.{IsBody};
ghost use Rattle.ctw_module.specs.Trees.{view_module};
ghost use Rattle.ctw_infer.specs.Misuse.{callee_in, if_trusted, misused_from, misused_calls, trusted_among, misused_entries};

use ctw_flat::{Body, Instr, Walk};
use ctw_module::{Element, Module};
use ctw_ops::ExternTag;
use ctw_sites::Points;

/// A direct call of a trusted function in one that isn't trusted.
#[derive(Clone, Copy, Drop)]
pub struct MisusedCall {
    /// The function that calls.
    pub caller: u32,
    /// The number of the call among its opcodes, counted from 0.
    pub at: u32,
    /// The function that is called.
    pub callee: u32,
}

/// The function that a direct call names.
fn callee_of(instr: &Instr) -> Option<u32>
    ensures { result ≡ callee_in (op_of instr.now) }
{
    match instr {
        Instr::Call { index } => Some(*index),
        _ => None,
    }
}

/// The same, where it is trusted.
fn trusted_callee(instr: &Instr, p: &Points) -> Option<u32>
    ensures { result ≡ if_trusted p.now (callee_in (op_of instr.now)) }
{
    let callee = callee_of(instr)?;
    if p.trusted(callee) {
        Some(callee)
    } else {
        None
    }
}

/// The first direct call of a trusted function in the body of a function that isn't.
fn first_in_body(body: &Body, p: &Points, caller: u32) -> Option<MisusedCall>
    requires { (code : Code Label) × IsBody body.now code }
    ensures { (code : Code Label) → IsBody body.now code
        → slice_get (misused_from p.now caller 0 (opcodes code)) 0 ≡ result }
{
    let mut walk = Walk::new(body);
    let mut at: u32 = 0;
    'opcodes: while !walk.is_done() {
        let instr = match walk.next() {
            Ok(instr) => instr,
            Err(_) => unreachable!(),
        };
        if let Some(callee) = trusted_callee(&instr, p) {
            return Some(MisusedCall { caller, at, callee });
        }
        at += 1;
    }
    None
}

/// The first direct call of a trusted function in one that isn't trusted, by function and opcode.
pub fn first_call(m: &Module, p: &Points) -> Option<MisusedCall>
    ensures { slice_get (misused_calls (view_module m.now) p.now) 0 ≡ result }
{
    if p.trusts_none() {
        return None;
    }
    'functions: for f in m.imported_count(ExternTag::Func)..m.func_count() {
        if p.trusted(f) {
            continue;
        }
        let Some(body) = m.body(f) else {
            unreachable!();
        };
        if let Some(call) = first_in_body(&body, p, f) {
            return Some(call);
        }
    }
    None
}

/// The first trusted function of an element.
fn first_in_element(element: &Element, p: &Points) -> Option<u32>
    ensures { slice_get (trusted_among p.now element.now.functions) 0 ≡ result }
{
    'functions: for k in 0..element.count() {
        let func = element.func(k);
        if p.trusted(func) {
            return Some(func);
        }
    }
    None
}

/// The first trusted function that is put into the table.
pub fn first_entry(m: &Module, p: &Points) -> Option<u32>
    ensures { slice_get (misused_entries (view_module m.now) p.now) 0 ≡ result }
{
    'elements: for i in 0..m.element_count() {
        let Some(element) = m.element(i) else {
            unreachable!();
        };
        if let Some(func) = first_in_element(&element, p) {
            return Some(func);
        }
    }
    None
}
