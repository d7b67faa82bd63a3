ghost use Rattle.std.specs.Prelude.{◌≡◌, ◌<◌, ◌^◌, unwrap_or, length};
ghost use Rattle.ctw_ops.specs.Tree.{type_named};
ghost use Rattle.ctw_module.specs.Trees.{view_module};
ghost use Rattle.ctw_labels.specs.declared.tag.Tag.TheVariants.{Fixed};
ghost use Rattle.ctw_labels.specs.Fits.{label_at};
ghost use Rattle.ctw_labels.specs.Links.{at_tag};
ghost use Rattle.ctw_labels.specs.SitedModule.{site_count, first_global, memory_site, memory_tag};

use crate::labels::Labels;
use ctw_module::Module;
use ctw_ops::Label;
use ctw_sites::Points;
use ctw_sites::head::signature;

/// A module, the labels of its sites, and its points.
#[derive(Drop)]
pub struct Setting<'a> {
    /// The module.
    pub whole: &'a Module<'a>,
    /// The labels.
    pub labels: Labels<'a>,
    /// The points.
    pub points: &'a Points,
    /// The first global's site, behind those of functions.
    pub globals: u32,
    /// The memory's label; Public where there is no memory.
    pub memory: Label,
    ghost globals_is: { globals ≡ first_global (view_module whole.now) },
    ghost memory_is: { memory ≡ at_tag (label_at labels) (unwrap_or (memory_tag (view_module whole.now)) Fixed) },
}

/// How many sites a function of a type has.
pub fn sites_of(m: &Module, y: u32) -> u32
    ensures count { result ≡ site_count (type_named (view_module m.now) y) }
    ensures few { result < 2 ^ 17 }
{
    let (params, result) = signature(m, y);
    params + u32::from(result.is_some())
}

/// The site of the first global.
fn globals_site(m: &Module) -> u32
    requires { first_global (view_module m.now) < 2 ^ 32 }
    ensures { result ≡ first_global (view_module m.now) }
{
    let mut site: u32 = 0;
    'functions: for f in 0..m.func_count() {
        site += sites_of(m, m.type_of_func(f));
    }
    site
}

/// The memory's label; `site` is the site of the memory, if there is one.
fn memory_label(m: &Module, labels: &Labels, site: u32) -> Label
    requires { site ≡ memory_site (view_module m.now) }
    ensures { result ≡ at_tag (label_at labels.now) (unwrap_or (memory_tag (view_module m.now)) Fixed) }
{
    match m.memory() {
        Some(_) => labels.at(site),
        None => Label::Public,
    }
}

impl<'a> Setting<'a> {
    /// A module with labels and points.
    pub fn new(whole: &'a Module<'a>, labels: Labels<'a>, points: &'a Points) -> Setting<'a>
        requires { memory_site (view_module whole.now) < 2 ^ 32 }
        ensures whole { result.whole.now ≡ whole.now }
        ensures labels { result.labels ≡ labels.entry }
        ensures points { result.points.now ≡ points.now }
    {
        let globals = globals_site(whole);
        let memory = memory_label(whole, &labels, globals + whole.global_count());
        Setting {
            whole,
            labels,
            points,
            globals,
            memory,
        }
    }
}
