ghost use Rattle.std.specs.Prelude.{◌≡◌, ◌&&◌, option_map};
ghost use Rattle.ctw_ops.specs.declared.types.ExternTag.TheVariants.{Func, Global};
ghost use Rattle.ctw_ops.specs.Valid.{IsValid};
ghost use Rattle.ctw_module.specs.Trees.{tree, view_module};
ghost use Rattle.ctw_module.specs.Given.{extern_type};
ghost use Rattle.ctw_link.specs.Externals.{declared_type};
ghost use Rattle.ctw_link.specs.Faults.{meets as meets_type, meets_limits as within_limits};

use crate::types::is_same;
use ctw_module::{ExternKind, Module};
use ctw_ops::{ExternTag, Limits};

/// The type that a module declares of a thing; None where it has none of that kind and index.
pub fn declared<'a>(m: &Module<'a>, tag: ExternTag, index: u32) -> Option<ExternKind<'a>>
    requires { IsValid (view_module m.now) }
    ensures { option_map extern_type result ≡ declared_type (tree m.now) tag index }
{
    match tag {
        ExternTag::Func => declared_function(m, index),
        ExternTag::Table => Some(ExternKind::Table(m.table()?)),
        ExternTag::Memory => Some(ExternKind::Memory(m.memory()?)),
        ExternTag::Global => declared_global(m, index),
    }
}

/// Whether a thing of one type may be imported as one of another.
pub fn meets(got: &ExternKind, want: &ExternKind) -> bool
    ensures { result ≡ meets_type (extern_type got.now) (extern_type want.now) }
{
    match (got, want) {
        (ExternKind::Func { ty: got, .. }, ExternKind::Func { ty: want, .. }) => {
            is_same(got, want)
        }
        (ExternKind::Table(got), ExternKind::Table(want)) => meets_limits(got, want),
        (ExternKind::Memory(got), ExternKind::Memory(want)) => {
            got.label == want.label && meets_limits(&got.limits, &want.limits)
        }
        (ExternKind::Global(got), ExternKind::Global(want)) => got == want,
        _ => false,
    }
}

/// Whether the least size is at least the wanted one, and there is a greatest one at most the wanted one where one is
/// wanted.
fn meets_limits(got: &Limits, want: &Limits) -> bool
    ensures { result ≡ within_limits got.now want.now }
{
    let Some(most) = want.max else {
        return got.min >= want.min;
    };
    let Some(max) = got.max else {
        return false;
    };
    got.min >= want.min && max <= most
}

fn declared_function<'a>(m: &Module<'a>, index: u32) -> Option<ExternKind<'a>>
    requires { IsValid (view_module m.now) }
    ensures { option_map extern_type result ≡ declared_type (tree m.now) Func index }
{
    if index >= m.func_count() {
        return None;
    }
    let type_index = m.type_of_func(index);
    Some(ExternKind::Func {
        type_index,
        ty: m.func_type(type_index),
    })
}

fn declared_global<'a>(m: &Module<'a>, index: u32) -> Option<ExternKind<'a>>
    ensures { option_map extern_type result ≡ declared_type (tree m.now) Global index }
{
    if index >= m.global_count() {
        return None;
    }
    Some(ExternKind::Global(m.global(index).ty))
}
