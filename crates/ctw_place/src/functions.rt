ghost use Rattle.std.specs.Prelude.{◌≡◌, ◌<◌, ◌+◌, ◌^◌, List, length, map, OnOk, IfOk};
ghost use Rattle.ctw_ops.specs.declared.types.Label.{Label};
ghost use Rattle.ctw_ops.specs.Tree.{function_entries};
ghost use Rattle.ctw_labels.specs.Placed.{TypeUse, function_uses, use_to, with_uses};
ghost use Rattle.ctw_labels.specs.Points.{trust_at};
ghost use Rattle.ctw_labels.specs.SitedModule.{first_global};
ghost use Rattle.ctw_sites.specs.Heads.{heads as heads_of};
ghost use Rattle.ctw_place.specs.Variants.{name_in, Holds};
ghost use Rattle.ctw_place.specs.Settings.{module_of, labels_of, points_of, names_from};

use crate::named::named;
use crate::setting::{Setting, sites_of};
use crate::variants::Variants;
use ctw_ops::Trust;
use ctw_sites::Points;
use std::alloc::{AllocError, Global};

/// The functions of a module under labels.
#[derive(Drop)]
pub struct Functions {
    /// The index of the type of each.
    pub types: Vec<u32>,
    /// The first site of each.
    pub heads: Vec<u32>,
}

/// The trust of a function.
fn trust_of(points: &Points, f: u32) -> Trust
    ensures { result ≡ trust_at points.now f }
{
    if points.trusted(f) {
        Trust::Trusted
    } else {
        Trust::Untrusted
    }
}

/// The functions of a module: of each the index of its type under labels, where variants are appended, and its first site.
pub fn label_functions(
    alloc: Global,
    setting: &Setting,
    variants: &mut Variants,
) -> Result<Functions, AllocError>
    requires room { first_global (module_of setting.now) < 2 ^ 32 }
    requires few { (vs : List (TypeUse Label)) × Holds variants.old vs × (length (module_of setting.now).types
        + length (with_uses vs (map (use_to (labels_of setting.now))
        (function_uses (module_of setting.now) (points_of setting.now) 0 0 (function_entries (module_of setting.now))))) + 1
        < 2 ^ 32) }
    ensures held { (vs : List (TypeUse Label)) → Holds variants.old vs → OnOk result (Holds variants.new (with_uses vs
        (map (use_to (labels_of setting.now))
        (function_uses (module_of setting.now) (points_of setting.now) 0 0 (function_entries (module_of setting.now)))))) }
    ensures types { (vs later : List (TypeUse Label)) → Holds variants.old vs → IfOk result (λ r. r.types.items
        ≡ names_from (labels_of setting.now) (name_in (length (module_of setting.now).types) (with_uses (with_uses vs
        (map (use_to (labels_of setting.now))
        (function_uses (module_of setting.now) (points_of setting.now) 0 0 (function_entries (module_of setting.now))))) later))
        (module_of setting.now) (points_of setting.now) 0 0 (function_entries (module_of setting.now))) }
    ensures heads { IfOk result (λ r. r.heads.items ≡ heads_of (module_of setting.now)) }
{
    let mut types = Vec::new(alloc);
    let mut heads = Vec::new(alloc);
    let mut site: u32 = 0;
    'functions: for f in 0..setting.whole.func_count() {
        let y = setting.whole.type_of_func(f);
        let trust = trust_of(setting.points, f);
        heads.push(site)?;
        let index = named(alloc, setting, variants, y, site, trust)?;
        types.push(index)?;
        site += sites_of(setting.whole, y);
    }
    Ok(Functions { types, heads })
}
