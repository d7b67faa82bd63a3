//! Appending the code of a module's functions under labels. Where memory runs out, some bytes may be there.
ghost use Rattle.std.specs.Prelude.{◌≡◌, ◌≤◌, ◌<◌, ◌+◌, ◌^◌, ◌++◌, List, length, map, slice_get, get_or, Some, OnOk, IfOk};
ghost use Rattle.ctw_ops.specs.declared.types.Label.{Label};
ghost use Rattle.ctw_ops.specs.Types.{ValueType, value_type};
ghost use Rattle.ctw_ops.specs.TagMaps.{type_to};
ghost use Rattle.ctw_ops.specs.Plain.{IsPlainModule};
ghost use Rattle.ctw_ops.specs.Valid.{IsValid};
ghost use Rattle.ctw_ops.specs.Tree.{Function, function_entries, type_named};
ghost use Rattle.ctw_module.specs.Trees.{tree, view_module};
ghost use Rattle.ctw_module.specs.Lookup.{function_named, imported_count, locals_named};
ghost use Rattle.ctw_labels.specs.Fits.{label_at};
ghost use Rattle.ctw_labels.specs.Numbering.{params_from};
ghost use Rattle.ctw_labels.specs.Placed.{TypeUse, with_uses};
ghost use Rattle.ctw_labels.specs.Points.{AreReleases};
ghost use Rattle.ctw_labels.specs.SitedModule.{first_global, head_sites, memory_site, sites as sites_of};
ghost use Rattle.ctw_sites.specs.Heads.{heads as heads_of};
ghost use Rattle.ctw_write.specs.Canon.{vector_text, groups_of, group_text, code_text};
ghost use Rattle.ctw_place.specs.Bodies.{placed_of, body_of, body_uses, placed_body, IsReadyUnder, HasRoom, function_variants, variants_of, HasShortTexts};
ghost use Rattle.ctw_place.specs.Variants.{Holds};
ghost use Rattle.ctw_place.specs.Settings.{module_of, labels_of, points_of};

use crate::code::put_code;
use crate::functions::Functions;
use crate::labels::Labels;
use crate::lift::Lift;
use crate::setting::Setting;
use crate::variants::Variants;
use ctw_labels::Tag;
use ctw_leb::put_u32;
use ctw_module::Module;
use ctw_ops::{ExternTag, ValType};
use ctw_sites::around::Around;
use ctw_sites::head::signature;
use ctw_stack::Stack;
use ctw_write::entry::{Run, put_group, with_local};
use ctw_write::text::put_sized;
use std::alloc::{AllocError, Global};

/// A local's type with a label.
fn local_under(m: &Module, labels: &Labels, f: u32, local: u32, site: u32) -> ValType
    requires { local < length (locals_named (tree m.now) f) }
    ensures { (t : ValueType Label) → slice_get (locals_named (tree m.now) f) local ≡ Some t
        → result ≡ value_type t.width (label_at labels.now site) }
{
    ValType {
        width: m.local(f, local).width,
        label: labels.at(site),
    }
}

/// The declared locals of a defined function under labels, in the fewest groups: `count` ones from the number `first` on,
/// whose sites begin at `n`.
fn put_locals(
    alloc: Global,
    out: &mut Vec<u8>,
    setting: &Setting,
    f: u32,
    first: u32,
    count: u32,
    n: u32,
) -> Result<(), AllocError>
    requires named { (function : Function Label) × (function_named (module_of setting.now) f ≡ Some function)
        × (first ≡ length (type_named (module_of setting.now) function.type).params)
        × (count ≡ length function.locals) }
    requires few { first + count < 2 ^ 32 }
    requires room { n + count < 2 ^ 32 }
    ensures { (function : Function Label) → function_named (module_of setting.now) f ≡ Some function
        → OnOk result (out.new.items ≡ out.old.items ++ vector_text group_text
        (groups_of (map (type_to (labels_of setting.now)) (params_from n function.locals)))) }
{
    if count == 0 {
        return put_u32(out, 0);
    }
    let m = setting.whole;
    let mut texts = Vec::new(alloc);
    let mut run = Run {
        groups: 0,
        count: 1,
        ty: local_under(m, &setting.labels, f, first, n),
    };
    for i in 1..count {
        let ty = local_under(m, &setting.labels, f, first + i, n + i);
        run = with_local(&mut texts, run, ty)?;
    }
    let Run { groups, count, ty } = run;
    put_group(&mut texts, count, ty)?;
    put_u32(out, groups + 1)?;
    out.extend_from_slice(&texts)
}

/// The code of a defined function under labels; `n` is the site of its first declared local, and the answer that behind
/// its last one. `stack`, `ends` and `entry` are memory that is used again.
fn put_entry(
    alloc: Global,
    setting: &Setting,
    functions: &Functions,
    stack: &mut Stack<Tag>,
    ends: &mut Vec<Option<Lift>>,
    entry: &mut Vec<u8>,
    variants: &mut Variants,
    out: &mut Vec<u8>,
    f: u32,
    n: u32,
) -> Result<u32, AllocError>
    requires defined { imported_count (tree setting.now.whole.now) ≤ f }
    requires there { f < length (function_entries (module_of setting.now)) }
    requires heads { functions.now.heads.items ≡ heads_of (module_of setting.now) }
    requires memory { memory_site (module_of setting.now) < 2 ^ 32 }
    requires ready { (function : Function Label) → function_named (module_of setting.now) f ≡ Some function
        → IsReadyUnder (module_of setting.now) (points_of setting.now) (get_or functions.now.heads.items f 0) f n function }
    requires room { (vs later : List (TypeUse Label)) × Holds variants.old vs × ((function : Function Label)
        → function_named (module_of setting.now) f ≡ Some function
        → HasRoom setting.now vs later (get_or functions.now.heads.items f 0) f n function) }
    ensures held { (vs : List (TypeUse Label)) → (function : Function Label) → Holds variants.old vs
        → function_named (module_of setting.now) f ≡ Some function → OnOk result
        (Holds variants.new (with_uses vs (body_uses setting.now (get_or functions.now.heads.items f 0) f n function))) }
    ensures put { (vs later : List (TypeUse Label)) → (function : Function Label) → Holds variants.old vs
        → function_named (module_of setting.now) f ≡ Some function → OnOk result (out.new.items
        ≡ out.old.items ++ code_text (placed_body setting.now (with_uses
        (with_uses vs (body_uses setting.now (get_or functions.now.heads.items f 0) f n function)) later)
        (get_or functions.now.heads.items f 0) f n function)) }
    ensures next { (function : Function Label) → function_named (module_of setting.now) f ≡ Some function
        → IfOk result (λ k. k
        ≡ n + length (body_of setting.now (get_or functions.now.heads.items f 0) f n function).sites) }
{
    let m = setting.whole;
    let Some(body) = m.body(f) else {
        unreachable!();
    };
    let (first, _) = signature(m, m.type_of_func(f));
    let count = m.local_count(f) - first;
    entry.clear();
    put_locals(alloc, entry, setting, f, first, count, n)?;
    let around = Around::new(m, &functions.heads, setting.globals, f, n);
    let next = put_code(
        alloc,
        setting,
        &around,
        stack,
        ends,
        variants,
        entry,
        &body,
        n + count,
    )?;
    put_sized(out, entry)?;
    Ok(next)
}

/// The site of the first body.
fn first_site(m: &Module, globals: u32) -> u32
    requires globals { globals ≡ first_global (view_module m.now) }
    requires room { length (head_sites (view_module m.now)) < 2 ^ 32 }
    ensures { result ≡ length (head_sites (view_module m.now)) }
{
    let behind = globals + m.global_count();
    match m.memory() {
        Some(_) => behind + 1,
        None => behind,
    }
}

/// The code of the defined functions behind their count, where variants are appended.
pub fn codes(
    alloc: Global,
    setting: &Setting,
    functions: &Functions,
    variants: &mut Variants,
) -> Result<Vec<u8>, AllocError>
    requires plain { IsPlainModule (module_of setting.now) }
    requires valid { IsValid (module_of setting.now) }
    requires releases { AreReleases (points_of setting.now) }
    requires sites { length (sites_of (module_of setting.now)) < 2 ^ 32 }
    requires heads { functions.now.heads.items ≡ heads_of (module_of setting.now) }
    requires short { HasShortTexts setting.now }
    requires held { Holds variants.old (function_variants setting.now) }
    ensures codes { IfOk result (λ v. v.items ≡ vector_text code_text (placed_of setting.now).functions) }
    ensures held { OnOk result (Holds variants.new (variants_of setting.now)) }
{
    let m = setting.whole;
    let imported = m.imported_count(ExternTag::Func);
    let count = m.func_count();
    let mut out = Vec::new(alloc);
    put_u32(&mut out, count - imported)?;
    let mut site = first_site(m, setting.globals);
    let mut stack = Stack::new(alloc);
    let mut ends = Vec::new(alloc);
    let mut entry = Vec::new(alloc);
    'functions: for f in imported..count {
        site = put_entry(
            alloc, setting, functions, &mut stack, &mut ends, &mut entry, variants, &mut out, f,
            site,
        )?;
    }
    Ok(out)
}
