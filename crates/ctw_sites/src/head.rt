ghost use Rattle.std.specs.Prelude.{◌≡◌, ◌≤◌, ◌<◌, ◌+◌, ◌^◌, [], length, option_map, OnOk};
ghost use Rattle.ctw_module.specs.Trees.{view_module};
ghost use Rattle.ctw_labels.specs.SitedModule.{function_sites, head_sites};
ghost use Rattle.ctw_labels.specs.declared.name.SiteName.TheVariants.{GlobalOf, Local};
ghost use Rattle.ctw_ops.specs.Tree.{function_entries, type_named};
ghost use Rattle.ctw_sites.specs.Heads.{heads_from};
ghost use Rattle.ctw_sites.specs.Leaves.{named_from, params, type_sites_of};
ghost use Rattle.ctw_sites.specs.Packed.{after};

use crate::packer::Packer;
use ctw_labels::SiteName;
use ctw_module::Module;
use ctw_ops::Width;
use std::alloc::AllocError;

/// How many parameters a type entry has, and the width of its result; none of both where there is no such entry.
pub fn signature(m: &Module, y: u32) -> (u32, Option<Width>)
    ensures params { result.0 ≡ length (type_named (view_module m.now) y).params }
    ensures few { result.0 < 2 ^ 16 }
    ensures width { result.1 ≡ option_map (λ t. t.width) (type_named (view_module m.now) y).result }
{
    let _ = m.bytes();
    if y >= m.type_count() {
        return (0, None);
    }
    let ty = m.func_type(y);
    let width = match ty.result {
        Some(t) => Some(t.width),
        None => None,
    };
    (ty.params.len() as u32, width)
}

/// Adds the sites of so many parameters of a function.
fn push_params(packer: &mut Packer, f: u32, count: u32) -> Result<(), AllocError>
    requires { packer.old.count + count < 2 ^ 32 }
    ensures { OnOk result (packer.new ≡ after packer.old (params f count)) }
{
    'params: for i in 0..count {
        packer.push(SiteName::Param { f, i }, None)?;
    }
    Ok(())
}

/// Adds the sites of a function with so many parameters and a result of this width.
fn push_type(
    packer: &mut Packer,
    f: u32,
    count: u32,
    width: Option<Width>,
) -> Result<(), AllocError>
    requires { packer.old.count + length (type_sites_of f count width) < 2 ^ 32 }
    ensures { OnOk result (packer.new ≡ after packer.old (type_sites_of f count width)) }
{
    push_params(packer, f, count)?;
    match width {
        Some(_) => packer.push(SiteName::Result { f }, None),
        None => Ok(()),
    }
}

/// Adds the sites of all functions, and their first ones to `heads`.
pub fn add_functions(
    m: &Module,
    packer: &mut Packer,
    heads: &mut Vec<u32>,
) -> Result<(), AllocError>
    requires none { heads.old.items ≡ [] }
    requires room { packer.old.count
        + length (function_sites (view_module m.now) 0 (function_entries (view_module m.now))) < 2 ^ 32 }
    ensures sites { OnOk result (packer.new
        ≡ after packer.old (function_sites (view_module m.now) 0 (function_entries (view_module m.now)))) }
    ensures heads { OnOk result (heads.new.items
        ≡ heads_from (view_module m.now) packer.old.count (function_entries (view_module m.now))) }
{
    'functions: for f in 0..m.func_count() {
        let (count, width) = signature(m, m.type_of_func(f));
        heads.push(packer.count)?;
        push_type(packer, f, count, width)?;
    }
    Ok(())
}

/// Adds the sites of so many globals.
fn add_globals(packer: &mut Packer, count: u32) -> Result<(), AllocError>
    requires { packer.old.count + count < 2 ^ 32 }
    ensures { OnOk result (packer.new ≡ after packer.old (named_from GlobalOf 0 count)) }
{
    'globals: for g in 0..count {
        packer.push(SiteName::GlobalOf { g }, None)?;
    }
    Ok(())
}

/// Adds the sites of so many declared locals of a function, which are numbered from `first` on.
pub fn add_locals(packer: &mut Packer, f: u32, first: u32, count: u32) -> Result<(), AllocError>
    requires numbers { first + count ≤ 2 ^ 32 }
    requires room { packer.old.count + count < 2 ^ 32 }
    ensures { OnOk result (packer.new ≡ after packer.old (named_from (Local f) first count)) }
{
    'locals: for i in 0..count {
        packer.push(SiteName::Local { f, i: first + i }, None)?;
    }
    Ok(())
}

/// Adds the sites of functions, globals and the memory, and the first site of each function to `heads`.
pub fn add_head(m: &Module, packer: &mut Packer, heads: &mut Vec<u32>) -> Result<(), AllocError>
    requires none { heads.old.items ≡ [] }
    requires room { packer.old.count + length (head_sites (view_module m.now)) < 2 ^ 32 }
    ensures sites { OnOk result (packer.new ≡ after packer.old (head_sites (view_module m.now))) }
    ensures heads { OnOk result (heads.new.items
        ≡ heads_from (view_module m.now) packer.old.count (function_entries (view_module m.now))) }
{
    add_functions(m, packer, heads)?;
    add_globals(packer, m.global_count())?;
    match m.memory() {
        Some(_) => packer.push(SiteName::Memory, None),
        None => Ok(()),
    }
}
