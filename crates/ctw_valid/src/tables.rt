ghost use Rattle.std.specs.Prelude.{◌≡◌, ◌&&◌, true};
ghost use Rattle.ctw_leb.specs.Grammar.{Times};
ghost use Rattle.ctw_leb.specs.Numbers.{IsU32};
ghost use Rattle.ctw_flat.specs.Instructions.{targets_in};
ghost use Rattle.ctw_ops.specs.Code.{BrTable};
ghost use Rattle.ctw_ops.specs.Typing.{Context};
ghost use Rattle.ctw_ops.specs.declared.types.Label.{Label};
ghost use Rattle.ctw_stack.specs.Steps.{same_result, same_type as types_equal};
ghost use Rattle.ctw_valid.specs.Faults.{same_label};
ghost use Rattle.ctw_valid.specs.Rows.{LooksUp};
ghost use Rattle.ctw_valid.specs.Scope.{scope};
ghost use Rattle.ctw_valid.specs.Tables.{labels_in, fit};

use crate::around::Around;
use crate::control::carried;
use crate::fault::BodyFault;
use crate::operands::{is_same_label, is_same_width};
use crate::row::{Row, ending};
use ctw_flat::Targets;
use ctw_ops::{Label, SecretRule, ValType};
use ctw_stack::Stack;

/// Whether two types are equal.
fn is_same_type(a: ValType, b: ValType) -> bool
    ensures { result ≡ types_equal same_label a b }
{
    is_same_width(a.width, b.width) && is_same_label(a.label, b.label)
}

/// Whether two labels of branches carry the same.
fn is_same_result(a: &Option<ValType>, b: &Option<ValType>) -> bool
    ensures { result ≡ same_result same_label a.now b.now }
{
    match (a, b) {
        (None, None) => true,
        (Some(a), Some(b)) => is_same_type(*a, *b),
        _ => false,
    }
}

/// Whether a test passed and two labels carry the same.
fn is_same_too(passed: bool, a: &Option<ValType>, b: &Option<ValType>) -> bool
    ensures { result ≡ (same_result same_label a.now b.now && passed) }
{
    is_same_result(a, b) && passed
}

/// Whether all targets' labels carry the same as `t`. None where one of these labels isn't there.
fn fit_targets(stack: &Stack<Label>, mut targets: Targets, t: &Option<ValType>) -> Option<bool>
    ensures { (C : Context Label) → C.labels ≡ labels_in stack.now → result ≡ fit C t.now true targets.entry }
{
    let mut fits = true;
    'targets: while let Some(depth) = targets.next() {
        match carried(stack, depth) {
            Some(u) => fits = is_same_too(fits, &u, t),
            None => return None,
        }
    }
    Some(fits)
}

/// The row of a `br_table`, whose targets are spelled one after another.
pub fn branch_table<'a>(
    around: &Around,
    stack: &Stack<Label>,
    targets: &[u8],
    count: u32,
    otherwise: u32,
    at: u32,
) -> Result<Row<'a>, BodyFault>
    requires { Times IsU32 count targets.now (targets_in count targets.now) }
    ensures { LooksUp (scope around.now (labels_in stack.now))
        (BrTable (targets_in count targets.now) otherwise) at result }
{
    match carried(stack, otherwise) {
        Some(t) => match fit_targets(stack, Targets::new(targets, count), &t) {
            Some(fits) => Ok(ending(t, Some(SecretRule::TableIndex), fits)),
            None => Err(BodyFault::Index { at }),
        },
        None => Err(BodyFault::Index { at }),
    }
}
