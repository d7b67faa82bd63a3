ghost use Rattle.ctw_ops.specs.Code.{Br, BrIf, Call, CallIndirect};
ghost use Rattle.std.specs.Prelude.{◌≡◌};
ghost use Rattle.ctw_stack.specs.Steps.{may_call as callable};
ghost use Rattle.ctw_stack.specs.Opens.{target_of};
ghost use Rattle.ctw_valid.specs.Rows.{LooksUp};
ghost use Rattle.ctw_valid.specs.Scope.{scope};
ghost use Rattle.ctw_valid.specs.Tables.{labels_in};

use crate::around::Around;
use crate::fault::BodyFault;
use crate::row::{Move, Row, Types, ending, indexed};
use ctw_ops::{Label, SecretRule, Trust, ValType};
use ctw_stack::Stack;

/// What a branch carries to a label; None exactly where there is no such label.
pub fn carried(stack: &Stack<Label>, depth: u32) -> Option<Option<ValType>>
    ensures { result ≡ target_of depth stack.now }
{
    match stack.target(depth) {
        Some(Some((width, label))) => Some(Some(ValType { width, label })),
        Some(None) => Some(None),
        None => None,
    }
}

/// The row of a `br`.
pub fn branch<'a>(
    around: &Around,
    stack: &Stack<Label>,
    depth: u32,
    at: u32,
) -> Result<Row<'a>, BodyFault>
    ensures { LooksUp (scope around.now (labels_in stack.now)) (Br depth) at result }
{
    match carried(stack, depth) {
        Some(t) => Ok(ending(t, None, true)),
        None => Err(BodyFault::Index { at }),
    }
}

/// The row of a `br_if`.
#[tactic(auto, using(crate::proofs::RowLaws::moved_split))]
pub fn branch_if<'a>(
    around: &Around,
    stack: &Stack<Label>,
    depth: u32,
    at: u32,
) -> Result<Row<'a>, BodyFault>
    ensures { LooksUp (scope around.now (labels_in stack.now)) (BrIf depth) at result }
{
    match stack.target(depth) {
        Some(Some((width, label))) => {
            let first = Some(ValType { width, label });
            let gives = Some(ValType { width, label });
            Ok(indexed(first, SecretRule::Condition, true, gives))
        }
        Some(None) => Ok(indexed(None, SecretRule::Condition, true, None)),
        None => Err(BodyFault::Index { at }),
    }
}

/// Whether a function of the first trust may call one of the second.
fn may_call(caller: Trust, callee: Trust) -> bool
    ensures { result ≡ callable caller callee }
{
    !matches!((caller, callee), (Trust::Untrusted, Trust::Trusted))
}

/// The row of a `call`.
pub fn call<'a>(
    around: &Around<'a>,
    stack: &Stack<Label>,
    index: u32,
    at: u32,
) -> Result<Row<'a>, BodyFault>
    ensures { LooksUp (scope around.now (labels_in stack.now)) (Call index) at result }
{
    match around.function(index) {
        Some(ty) => {
            if !may_call(around.trust, ty.trust) {
                return Err(BodyFault::Trust { at });
            }
            Ok(Row::Moves(Move {
                first: Types::Params(ty.params),
                index: None,
                last: None,
                fits: true,
                gives: ty.result,
                ends: false,
            }))
        }
        None => Err(BodyFault::Index { at }),
    }
}

/// The row of a `call_indirect`.
#[tactic(auto, using(crate::proofs::RowLaws::moved_split))]
pub fn call_indirect<'a>(
    around: &Around<'a>,
    stack: &Stack<Label>,
    index: u32,
    at: u32,
) -> Result<Row<'a>, BodyFault>
    ensures { LooksUp (scope around.now (labels_in stack.now)) (CallIndirect index) at result }
{
    if !around.has_table() {
        return Err(BodyFault::Index { at });
    }
    match around.entry(index) {
        Some(callee) => {
            if !may_call(around.trust, callee.trust) {
                return Err(BodyFault::Trust { at });
            }
            Ok(Row::Moves(Move {
                first: Types::Params(callee.params),
                index: Some(SecretRule::CallIndex),
                last: None,
                fits: true,
                gives: callee.result,
                ends: false,
            }))
        }
        None => Err(BodyFault::Index { at }),
    }
}
