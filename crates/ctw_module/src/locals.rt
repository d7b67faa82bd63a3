ghost use Rattle.std.specs.Prelude.{◌≡◌, ◌<◌, ◌≤◌, ◌-◌, List, length, take, drop, slice_get, Some, IsTrue};
ghost use Rattle.ctw_ops.specs.Types.{byte_type, is_type_byte};
ghost use Rattle.ctw_form.specs.Sections.{Group, locals_of};
ghost use Rattle.ctw_form.specs.Slots.{runs_behind};

use ctw_flat::type_of_byte;
use ctw_form::LocalRun;
use ctw_ops::{FuncType, ValType};

/// The same type, lent again.
pub(crate) fn lend<'a>(ty: &FuncType<'a>) -> FuncType<'a>
    ensures { result ≡ ty.now }
{
    FuncType {
        trust: ty.trust,
        params: ty.params,
        result: ty.result,
    }
}

/// The value type of a byte that has one.
pub(crate) fn param_type(byte: u8) -> ValType
    requires { IsTrue (is_type_byte byte) }
    ensures { byte_type byte ≡ Some result }
{
    match type_of_byte(byte) {
        Some(t) => t,
        None => unreachable!(),
    }
}

/// The items from `start` on, up to `end`.
pub(crate) fn part<T>(items: &[T], start: usize, end: usize) -> &[T]
    requires from { start ≤ end }
    requires to { end ≤ length items.now }
    ensures { result.now ≡ take (end - start) (drop start items.now) }
{
    &items[start..end]
}

/// How many locals a function's runs have.
pub(crate) fn count_of(runs: &[LocalRun]) -> u32
    ensures { (groups : List Group) → runs.now ≡ runs_behind 0 groups → result ≡ length (locals_of groups) }
{
    match runs.last() {
        Some(run) => run.end,
        None => 0,
    }
}

/// The type of a local among a function's runs. Takes logarithmic time.
pub(crate) fn type_in(runs: &[LocalRun], i: u32) -> ValType
    requires { (groups : List Group) × (runs.now ≡ runs_behind 0 groups) × (i < length (locals_of groups)) }
    ensures { (groups : List Group) → runs.now ≡ runs_behind 0 groups → slice_get (locals_of groups) i ≡ Some result }
{
    let mut low = 0;
    let mut high = runs.len();
    // The local stands behind the first `low` runs, and inside the first `high`.
    'halves: while high - low > 1 {
        let middle = low + (high - low) / 2;
        if runs[middle - 1].end <= i {
            low = middle;
        } else {
            high = middle;
        }
    }
    runs[low].ty
}
