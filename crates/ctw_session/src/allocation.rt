//! The store of a set before its segments are written.
ghost use Rattle.std.specs.Prelude.{◌≡◌, ◌≤◌, ◌<◌, ◌+◌, ◌^◌, length, take, slice_get, Some, IfOk};
ghost use Rattle.ctw_ops.specs.Limits.{most_set_pages};
ghost use Rattle.ctw_semantics.specs.Stores.{all_pages};
ghost use Rattle.ctw_module.specs.Trees.{tree};
ghost use Rattle.ctw_link.specs.Sets.{set_of};
ghost use Rattle.ctw_link.specs.Numbers.{LinkedModule, linked};
ghost use Rattle.ctw_link.specs.Matching.{pages_of};
ghost use Rattle.ctw_launch.specs.Launched.{allocated};
ghost use Rattle.ctw_session.specs.Allocation.{with_own_memory, with_own_table, with_own_globals};
ghost use Rattle.ctw_session.specs.Launches.{CanBeLaunched};

use crate::constants::constant_value;
use ctw_link::LinkedSet;
use ctw_module::{Global1, Module};
use ctw_ops::ExternTag;
use ctw_store::Store;
use std::alloc::{AllocError, Global};

/// Adds the memory that a module defines, if it defines one.
fn add_memory(m: &Module, store: &mut Store) -> Result<(), AllocError>
    requires few { length store.old.storage.memories < 2 ^ 32 }
    requires room { all_pages store.old.storage.memories + pages_of (tree m.now).memory ≤ most_set_pages }
    ensures { IfOk result (λ _. store.new.storage ≡ with_own_memory (tree m.now) store.old.storage) }
{
    if let Some(memory) = m.defined_memory() {
        store.add_memory(memory)?;
    }
    Ok(())
}

/// Adds the table that a module defines, if it defines one.
fn add_table(m: &Module, store: &mut Store) -> Result<(), AllocError>
    requires { length store.old.storage.tables < 2 ^ 32 }
    ensures { IfOk result (λ _. store.new.storage ≡ with_own_table (tree m.now) store.old.storage) }
{
    if let Some(table) = m.defined_table() {
        store.add_table(table)?;
    }
    Ok(())
}

/// Adds the globals that a part defines, each with its initial value. The globals of the parts before are in the store.
fn add_globals(set: &LinkedSet, store: &mut Store, part: u32) -> Result<(), AllocError>
    requires part { part < length set.now }
    requires before { store.old.storage.globals ≡ (allocated (linked (take part (set_of set.now)))).globals }
    ensures { IfOk result (λ _. (p : LinkedModule) → slice_get (linked (set_of set.now)) part ≡ Some p
        → store.new.storage ≡ with_own_globals p store.old.storage) }
{
    let m = &set.parts()[part as usize].module;
    'globals: for index in m.imported_count(ExternTag::Global)..m.global_count() {
        let Global1 { ty, init } = m.global(index);
        let Some(init) = init else {
            unreachable!();
        };
        let value = constant_value(set, store, part, init);
        store.add_global(ty, value)?;
    }
    Ok(())
}

/// Adds what a part defines, behind what those before it define.
fn add_part(set: &LinkedSet, store: &mut Store, part: u32) -> Result<(), AllocError>
    requires part { part < length set.now }
    requires before { store.old.storage ≡ allocated (linked (take part (set_of set.now))) }
    ensures { IfOk result (λ _. store.new.storage ≡ allocated (linked (take (part + 1) (set_of set.now)))) }
{
    let m = &set.parts()[part as usize].module;
    add_memory(m, store)?;
    add_table(m, store)?;
    add_globals(set, store, part)
}

/// The store of a set: all memories, tables and globals of its parts, in their order, as they begin. The error is want
/// of memory.
pub fn make_store(alloc: Global, set: &LinkedSet) -> Result<Store, AllocError>
    ensures set { CanBeLaunched (set_of set.now) }
    ensures store { IfOk result (λ s. s.storage ≡ allocated (linked (set_of set.now))) }
{
    let mut store = Store::new(alloc);
    'parts: for part in 0..set.parts().len() as u32 {
        add_part(set, &mut store, part)?;
    }
    Ok(store)
}
