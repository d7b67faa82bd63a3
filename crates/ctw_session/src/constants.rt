//! The numbers of constant expressions.
ghost use Rattle.std.specs.Prelude.{◌≡◌, ◌<◌, ℕ, length, slice_get, Some};
ghost use Rattle.ctw_ops.specs.declared.types.ExternTag.TheVariants.{Global as AGlobal};
ghost use Rattle.ctw_ops.specs.Tree.{ValueOf};
ghost use Rattle.ctw_form.specs.Shown.{constant_of};
ghost use Rattle.ctw_link.specs.Sets.{set_of};
ghost use Rattle.ctw_link.specs.Linked.{HasGlobal};
ghost use Rattle.ctw_link.specs.Numbers.{LinkedModule, linked, number_in};
ghost use Rattle.ctw_launch.specs.Launched.{constant_number};

use ctw_link::LinkedSet;
use ctw_module::ConstExpr;
use ctw_store::Store;

/// The number of a constant expression of a part, whose global, if it reads one, is in the store.
pub fn constant_value(set: &LinkedSet, store: &Store, part: u32, constant: ConstExpr) -> u64
    requires known { (x : ℕ) → constant_of constant ≡ ValueOf x → HasGlobal set.now part x }
    requires there { (x n : ℕ) → constant_of constant ≡ ValueOf x → number_in (set_of set.now) AGlobal part x ≡ Some n
        → n < length store.now.storage.globals }
    ensures { (p : LinkedModule) → slice_get (linked (set_of set.now)) part ≡ Some p
        → result ≡ constant_number store.now.storage.globals p.numbers.globals (constant_of constant) }
{
    match constant {
        ConstExpr::Const { bits, .. } => bits,
        ConstExpr::Get { global } => store.global(set.global_of(part, global)),
    }
}
