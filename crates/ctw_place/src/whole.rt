ghost use Rattle.std.specs.Prelude.{◌≡◌, ◌<◌, ◌≤◌, ◌^◌, ◌++◌, length, false, OnOk, IfOk};
ghost use Rattle.ctw_ops.specs.Erasure.{erase_module};
ghost use Rattle.ctw_ops.specs.Plain.{IsPlainModule};
ghost use Rattle.ctw_ops.specs.Typing.{optional};
ghost use Rattle.ctw_ops.specs.Valid.{IsValid};
ghost use Rattle.ctw_leb.specs.Spelling.{u32_text};
ghost use Rattle.ctw_module.specs.Trees.{tree, view_module};
ghost use Rattle.ctw_labels.specs.Fits.{label_at};
ghost use Rattle.ctw_labels.specs.Links.{at_tag};
ghost use Rattle.ctw_labels.specs.Placed.{placed};
ghost use Rattle.ctw_labels.specs.Points.{AreReleases};
ghost use Rattle.ctw_labels.specs.SitedModule.{memory_site, sites as sites_of};
ghost use Rattle.ctw_write.specs.Canon.{type_entry_text, import_text, table_text, memory_text, global_text, export_text, element_text, segment_text, code_text, items_text, start_text, customs_text, placed_text, sections_text, canon};
ghost use Rattle.ctw_write.specs.Ready.{IsReady};
ghost use Rattle.ctw_place.specs.Bodies.{placed_of, HasShortTexts};
ghost use Rattle.ctw_place.specs.Limits.{most_ct_bytes};
ghost use Rattle.ctw_place.specs.Made.{IsMade};
ghost use Rattle.ctw_place.specs.Settings.{module_of};

use crate::labels::Labels;
use crate::made::{Made, make};
use crate::section::{
    put_codes, put_elements, put_globals, put_imports, put_memories, put_segments, put_types,
    put_uses,
};
use crate::setting::Setting;
use ctw_module::Module;
use ctw_sites::{Labelling, Points, Sites};
use ctw_write::put_header;
use ctw_write::section::{put_customs, put_exports, put_start, put_tables};
use std::alloc::{AllocError, Global};

/// The canonical spelling of the placed module: a plain module as a CT module with the labels that a labelling gives its
/// sites, and the trust of its points. Behind each value that goes from a public site to a secret one stands a classify, and
/// behind each that a release takes from a secret site to a public one a declassify. A function or an indirect call that
/// is trusted or has a secret label names a variant of its type; variants are appended in the order of first use, functions
/// first, and equal ones of one base once.
///
/// `s` are the sites of the module, which is plain and valid; each release of the points stands in a trusted function; and
/// the labelling has a label for each site. The module is what erasing the placed one gives. The spelling is no longer than
/// a CT module's file may be. The error is for want of memory alone.
pub fn place(
    alloc: Global,
    m: &Module,
    s: &Sites,
    p: &Points,
    l: &Labelling,
) -> Result<Vec<u8>, AllocError>
    requires plain { (view_module m.now).ct ≡ false }
    requires valid { IsValid (view_module m.now) }
    requires sites { s.now ≡ sites_of (view_module m.now) }
    requires points { AreReleases p.now }
    requires labels { length l.now ≡ length s.now }
    ensures bytes { IfOk result (λ v. v.items ≡ canon (placed (at_tag (label_at l.now)) (view_module m.now) p.now)) }
    ensures erased { erase_module (placed (at_tag (label_at l.now)) (view_module m.now) p.now) ≡ view_module m.now }
    ensures within { IfOk result (λ v. length v.items ≤ most_ct_bytes) }
{
    let bytes = m.bytes();
    let labels = Labels::new(s, l);
    let setting = Setting::new(m, labels, p);
    let made = make(alloc, &setting)?;
    let mut out = Vec::with_capacity(alloc, bytes.len())?;
    put_header(&mut out, true)?;
    put_sections(alloc, &mut out, &setting, &made)?;
    Ok(out)
}

/// The sections of the placed module.
fn put_sections(
    alloc: Global,
    out: &mut Vec<u8>,
    setting: &Setting,
    made: &Made,
) -> Result<(), AllocError>
    requires plain { IsPlainModule (module_of setting.now) }
    requires ready { IsReady setting.now.whole.now }
    requires made { IsMade setting.now made.now }
    requires room { memory_site (module_of setting.now) < 2 ^ 32 }
    requires short { HasShortTexts setting.now }
    ensures { OnOk result (out.new.items ≡ out.old.items ++ sections_text (placed_of setting.now)) }
{
    put_declarations(alloc, out, setting, made)?;
    put_spaces(alloc, out, setting)?;
    put_uses_of_spaces(alloc, out, setting)?;
    put_contents(alloc, out, setting, made)
}

/// The sections of types, imports and functions, with the custom sections up to them.
fn put_declarations(
    alloc: Global,
    out: &mut Vec<u8>,
    setting: &Setting,
    made: &Made,
) -> Result<(), AllocError>
    requires plain { IsPlainModule (module_of setting.now) }
    requires made { IsMade setting.now made.now }
    requires room { memory_site (module_of setting.now) < 2 ^ 32 }
    requires short { HasShortTexts setting.now }
    ensures { OnOk result (out.new.items ≡ out.old.items
        ++ customs_text 0 (module_of setting.now).customs
        ++ placed_text 1 (items_text 1 type_entry_text (placed_of setting.now).types) (module_of setting.now).customs
        ++ placed_text 2 (items_text 2 import_text (placed_of setting.now).imports) (module_of setting.now).customs
        ++ placed_text 3 (items_text 3 (λ f. u32_text f.type) (placed_of setting.now).functions)
        (module_of setting.now).customs) }
{
    let m = setting.whole;
    put_customs(alloc, out, m, 0)?;
    put_types(alloc, out, setting, made)?;
    put_customs(alloc, out, m, 1)?;
    put_imports(alloc, out, setting, made)?;
    put_customs(alloc, out, m, 2)?;
    put_uses(alloc, out, setting, made)?;
    put_customs(alloc, out, m, 3)
}

/// The sections of the defined table, memory and globals, with the custom sections behind them.
fn put_spaces(alloc: Global, out: &mut Vec<u8>, setting: &Setting) -> Result<(), AllocError>
    requires ready { IsReady setting.now.whole.now }
    requires room { memory_site (module_of setting.now) < 2 ^ 32 }
    requires short { HasShortTexts setting.now }
    ensures { OnOk result (out.new.items ≡ out.old.items
        ++ placed_text 4 (items_text 4 table_text (optional (module_of setting.now).table)) (module_of setting.now).customs
        ++ placed_text 5 (items_text 5 memory_text (optional (placed_of setting.now).memory)) (module_of setting.now).customs
        ++ placed_text 6 (items_text 6 global_text (placed_of setting.now).globals) (module_of setting.now).customs) }
{
    let m = setting.whole;
    put_tables(alloc, out, m)?;
    put_customs(alloc, out, m, 4)?;
    put_memories(alloc, out, setting)?;
    put_customs(alloc, out, m, 5)?;
    put_globals(alloc, out, setting)?;
    put_customs(alloc, out, m, 6)
}

/// The sections of exports, the start function and elements, with the custom sections behind them.
fn put_uses_of_spaces(alloc: Global, out: &mut Vec<u8>, setting: &Setting) -> Result<(), AllocError>
    requires ready { IsReady setting.now.whole.now }
    requires short { HasShortTexts setting.now }
    ensures { OnOk result (out.new.items ≡ out.old.items
        ++ placed_text 7 (items_text 7 export_text (module_of setting.now).exports) (module_of setting.now).customs
        ++ placed_text 8 (start_text (module_of setting.now).start) (module_of setting.now).customs
        ++ placed_text 9 (items_text 9 element_text (module_of setting.now).elements) (module_of setting.now).customs) }
{
    let m = setting.whole;
    put_exports(alloc, out, m)?;
    put_customs(alloc, out, m, 7)?;
    put_start(alloc, out, m)?;
    put_customs(alloc, out, m, 8)?;
    put_elements(alloc, out, m)?;
    put_customs(alloc, out, m, 9)
}

/// The sections of code and data, with the custom sections behind them.
fn put_contents(
    alloc: Global,
    out: &mut Vec<u8>,
    setting: &Setting,
    made: &Made,
) -> Result<(), AllocError>
    requires ready { IsReady setting.now.whole.now }
    requires made { IsMade setting.now made.now }
    requires short { HasShortTexts setting.now }
    ensures { OnOk result (out.new.items ≡ out.old.items
        ++ placed_text 10 (items_text 10 code_text (placed_of setting.now).functions) (module_of setting.now).customs
        ++ placed_text 11 (items_text 11 segment_text (module_of setting.now).segments) (module_of setting.now).customs) }
{
    let m = setting.whole;
    put_codes(out, setting, made)?;
    put_customs(alloc, out, m, 10)?;
    put_segments(alloc, out, m)?;
    put_customs(alloc, out, m, 11)
}
