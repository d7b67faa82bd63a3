ghost use Rattle.std.specs.Prelude.{◌≡◌, ◌<◌, ◌++◌, ◌^◌, map, option_map, slice_get, OnOk};
ghost use Rattle.ctw_form.specs.Shown.{constant_of};
ghost use Rattle.ctw_module.specs.Trees.{view_module};
ghost use Rattle.ctw_labels.specs.declared.tag.Tag.TheVariants.{At};
ghost use Rattle.ctw_labels.specs.ModuleLinks.{init_fact, init_facts, offset_fact, offset_facts};
ghost use Rattle.ctw_labels.specs.SitedModule.{first_global, first_defined_global, memory_site, sited_globals};

use ctw_labels::{Tag, Told};
use ctw_module::{ConstExpr, Global1, Module};
use ctw_ops::ExternTag;
use std::alloc::AllocError;

/// The site of a global, where that of the first one is `globals`; None exactly where there is no such global.
fn site_of(m: &Module, globals: u32, g: u32) -> Option<Tag>
    requires globals { globals ≡ first_global (view_module m.now) }
    requires room { memory_site (view_module m.now) < 2 ^ 32 }
    ensures { result ≡ option_map (λ g. g.value.tag) (slice_get (sited_globals (view_module m.now)) g) }
{
    if g >= m.global_count() {
        return None;
    }
    Some(Tag::At { site: globals + g })
}

/// Tells that a global with a site has the label of the one that it begins as.
fn tell_init(
    m: &Module,
    globals: u32,
    site: u32,
    init: &ConstExpr,
    told: &mut Vec<Told>,
) -> Result<(), AllocError>
    requires globals { globals ≡ first_global (view_module m.now) }
    requires room { memory_site (view_module m.now) < 2 ^ 32 }
    ensures { OnOk result (told.new.items
        ≡ told.old.items ++ init_fact (sited_globals (view_module m.now)) (At site) (constant_of init.now)) }
{
    let ConstExpr::Get { global } = *init else {
        return Ok(());
    };
    let Some(left) = site_of(m, globals, global) else {
        return Ok(());
    };
    told.push(Told {
        rule: 12,
        left,
        right: Tag::At { site },
    })?;
    Ok(())
}

/// The same of each defined global.
pub fn tell_inits(m: &Module, globals: u32, told: &mut Vec<Told>) -> Result<(), AllocError>
    requires globals { globals ≡ first_global (view_module m.now) }
    requires room { memory_site (view_module m.now) < 2 ^ 32 }
    ensures { OnOk result (told.new.items ≡ told.old.items ++ init_facts (sited_globals (view_module m.now))
        (first_defined_global (view_module m.now)) (view_module m.now).globals) }
{
    let imported = m.imported_count(ExternTag::Global);
    'globals: for i in 0..m.global_count() - imported {
        let Global1 { init, .. } = m.global(imported + i);
        let init = match init {
            Some(init) => init,
            None => return Ok(()),
        };
        tell_init(m, globals, globals + imported + i, &init, told)?;
    }
    Ok(())
}

/// Tells that the global which is a segment's offset is public.
fn tell_offset(
    m: &Module,
    globals: u32,
    offset: &ConstExpr,
    told: &mut Vec<Told>,
) -> Result<(), AllocError>
    requires globals { globals ≡ first_global (view_module m.now) }
    requires room { memory_site (view_module m.now) < 2 ^ 32 }
    ensures { OnOk result (told.new.items
        ≡ told.old.items ++ offset_fact (sited_globals (view_module m.now)) (constant_of offset.now)) }
{
    let ConstExpr::Get { global } = *offset else {
        return Ok(());
    };
    let Some(left) = site_of(m, globals, global) else {
        return Ok(());
    };
    told.push(Told {
        rule: 18,
        left,
        right: Tag::Fixed,
    })?;
    Ok(())
}

/// The same of each element.
pub fn tell_elements(m: &Module, globals: u32, told: &mut Vec<Told>) -> Result<(), AllocError>
    requires globals { globals ≡ first_global (view_module m.now) }
    requires room { memory_site (view_module m.now) < 2 ^ 32 }
    ensures { OnOk result (told.new.items ≡ told.old.items ++ offset_facts (sited_globals (view_module m.now))
        (map (λ e. e.offset) (view_module m.now).elements)) }
{
    'elements: for i in 0..m.element_count() {
        let element = match m.element(i) {
            Some(element) => element,
            None => return Ok(()),
        };
        tell_offset(m, globals, &element.offset, told)?;
    }
    Ok(())
}

/// The same of each data segment.
pub fn tell_segments(m: &Module, globals: u32, told: &mut Vec<Told>) -> Result<(), AllocError>
    requires globals { globals ≡ first_global (view_module m.now) }
    requires room { memory_site (view_module m.now) < 2 ^ 32 }
    ensures { OnOk result (told.new.items ≡ told.old.items ++ offset_facts (sited_globals (view_module m.now))
        (map (λ s. s.offset) (view_module m.now).segments)) }
{
    'segments: for i in 0..m.segment_count() {
        let segment = match m.segment(i) {
            Some(segment) => segment,
            None => return Ok(()),
        };
        tell_offset(m, globals, &segment.offset, told)?;
    }
    Ok(())
}
