ghost use Rattle.std.specs.Prelude.{◌≡◌, ◌≤◌, ◌<◌, ◌++◌, List, length, IfOk, OnOk};
ghost use Rattle.ctw_ops.specs.Tree.{function_entries};
ghost use Rattle.ctw_ops.specs.WithinLimits.{IsWithinLimits};
ghost use Rattle.ctw_flat.specs.declared.blocks.Block.{Block};
ghost use Rattle.ctw_flat.specs.Blocks.{ends_in};
ghost use Rattle.ctw_flat.specs.Positions.{TellsEnds};
ghost use Rattle.ctw_module.specs.Lookup.{imported_count};
ghost use Rattle.ctw_module.specs.Trees.{tree};
ghost use Rattle.ctw_link.specs.Sets.{set_of, AllWithinLimits};
ghost use Rattle.ctw_link.specs.Numbers.{owned, owners};
ghost use Rattle.ctw_link.specs.Linked.{CanBeLinked, TellBlocks, code_at, codes, codes_in};

use crate::set::Part;
use ctw_flat::{BlockBuilder, BlockMap, BuildFault};
use ctw_module::Module;
use ctw_ops::ExternTag;
use std::alloc::{AllocError, Global};

/// For each function of the store the part that defines it, and its index there.
pub fn owners_of(alloc: Global, parts: &[Part]) -> Result<Vec<(u32, u32)>, AllocError>
    requires { CanBeLinked parts.now }
    ensures owners { IfOk result (λ found. found.items ≡ owners (set_of parts.now)) }
    ensures limits { IfOk result (λ found. AllWithinLimits (set_of parts.now)) }
{
    let mut found = Vec::new(alloc);
    'parts: for (k, part) in parts.iter().enumerate() {
        push_owners(&mut found, k as u32, &part.module)?;
    }
    Ok(found)
}

/// Adds the functions that a part defines.
fn push_owners(found: &mut Vec<(u32, u32)>, part: u32, m: &Module) -> Result<(), AllocError>
    ensures owners { OnOk result (found.new.items ≡ found.old.items ++ owned part (tree m.now)) }
    ensures limits { IsWithinLimits (tree m.now) }
{
    // They spell the module, so it keeps the limits of files.
    let _bytes = m.bytes();
    let imported = m.imported_count(ExternTag::Func);
    'functions: for f in imported..m.func_count() {
        found.push((part, f))?;
    }
    Ok(())
}

/// Where the blocks of each function of the store end.
pub fn blocks_of(alloc: Global, parts: &[Part]) -> Result<Vec<BlockMap>, AllocError>
    requires { CanBeLinked parts.now }
    ensures { IfOk result (λ maps. TellBlocks (codes parts.now) maps.items) }
{
    let mut builder = BlockBuilder::new(alloc)?;
    let mut maps = Vec::new(alloc);
    'parts: for part in parts {
        push_blocks(alloc, &mut builder, &mut maps, &part.module)?;
    }
    Ok(maps)
}

/// Adds where the blocks of each function end that a module defines.
fn push_blocks(
    alloc: Global,
    builder: &mut BlockBuilder,
    maps: &mut Vec<BlockMap>,
    m: &Module,
) -> Result<(), AllocError>
    ensures { OnOk result ((found : List (List Block)) × (maps.new.items ≡ maps.old.items ++ found)
        × TellBlocks (codes_in m.now) found) }
{
    let imported = m.imported_count(ExternTag::Func);
    'functions: for f in imported..m.func_count() {
        let map = blocks_in(alloc, builder, m, f)?;
        maps.push(map)?;
    }
    Ok(())
}

/// Where the blocks of a defined function's body end. The bytes spell a body: memory alone may be wanting.
fn blocks_in(
    alloc: Global,
    builder: &mut BlockBuilder,
    m: &Module,
    f: u32,
) -> Result<BlockMap, AllocError>
    requires defined { imported_count (tree m.now) ≤ f }
    requires there { f < length (function_entries (tree m.now)) }
    ensures { IfOk result (λ map. TellsEnds (code_at m.now f) (ends_in map)) }
{
    let Some(body) = m.body(f) else {
        unreachable!();
    };
    match builder.build(alloc, &body) {
        Ok(map) => Ok(map),
        Err(BuildFault::NoMemory) => Err(AllocError),
        Err(BuildFault::Bad(_)) => unreachable!(),
    }
}
