ghost use Rattle.std.specs.Prelude.{◌≡◌, ◌<◌, ◌+◌, ◌^◌, ◌++◌, List, length, IfOk, OnOk};
ghost use Rattle.ctw_ops.specs.declared.types.Label.{Label};
ghost use Rattle.ctw_ops.specs.Tree.{type_named};
ghost use Rattle.ctw_labels.specs.Placed.{TypeUse, with_use, with_uses};
ghost use Rattle.ctw_labels.specs.SitedModule.{site_count};
ghost use Rattle.ctw_place.specs.Variants.{name_in, Holds};
ghost use Rattle.ctw_place.specs.Settings.{module_of, use_at};

use crate::setting::Setting;
use crate::uses::{is_plain, spelled};
use crate::variants::Variants;
use ctw_ops::Trust;
use std::alloc::{AllocError, Global};

/// The index of a type entry under the labels of sites from a first one on: its own where it is untrusted and all its
/// labels are public, else that of a variant, which is appended where there is none yet.
pub fn named(
    alloc: Global,
    setting: &Setting,
    variants: &mut Variants,
    y: u32,
    first: u32,
    trust: Trust,
) -> Result<u32, AllocError>
    requires room { first + site_count (type_named (module_of setting.now) y) < 2 ^ 32 }
    requires few { (vs : List (TypeUse Label)) × Holds variants.old vs
        × (length (module_of setting.now).types + length vs + 1 < 2 ^ 32) }
    ensures held { (vs : List (TypeUse Label)) → Holds variants.old vs
        → OnOk result (Holds variants.new (with_use vs (use_at setting.now y first trust))) }
    ensures name { (vs later : List (TypeUse Label)) → Holds variants.old vs → IfOk result (λ index.
        index ≡ name_in (length (module_of setting.now).types)
        (with_uses (with_use vs (use_at setting.now y first trust)) later) y (use_at setting.now y first trust).type) }
{
    let _ = setting.whole.bytes();
    if is_plain(setting, y, first, trust) {
        return Ok(y);
    }
    let (text, public) = spelled(alloc, setting, y, first, trust)?;
    if public {
        return Ok(y);
    }
    let number = variants.number(text)?;
    Ok(setting.whole.type_count() + number)
}
