ghost use Rattle.std.specs.Prelude.{◌≡◌, ◌<◌, ◌-◌, ◌↔◌, ℕ, length, slice_get, IsSome, IfSome, Some};
ghost use Rattle.ctw_ops.specs.declared.types.ExternTag.TheVariants.{Func, Table, Memory, Global};
ghost use Rattle.ctw_ops.specs.Tree.{memory_among, table_among};
ghost use Rattle.ctw_flat.specs.Blocks.{ends_in};
ghost use Rattle.ctw_flat.specs.Positions.{TellsEnds};
ghost use Rattle.ctw_module.specs.Trees.{tree};
ghost use Rattle.ctw_link.specs.Sets.{set_of, defined, AllWithinLimits};
ghost use Rattle.ctw_link.specs.Numbers.{number_in, owners};
ghost use Rattle.ctw_link.specs.Matching.{AreMatching};
ghost use Rattle.ctw_link.specs.Linked.{CanBeLinked, HasFunction, HasGlobal, IsPart, Defines, code_in};

use crate::numbers::Numbers;
use ctw_flat::BlockMap;
use ctw_module::Module;
use ctw_ops::Name;
use std::marker::Model;

/// A module under the name by which later parts import from it.
#[derive(Drop)]
pub struct Part<'a> {
    /// The name.
    pub name: Name,
    /// The module, which is valid.
    pub module: Module<'a>,
}

/// Parts that match, with the store numbers of what their indexes name (W3C WebAssembly Core 1.0, sections 4.2.4 and
/// 4.2.5) and with the block ends of every body.
///
/// What the parts define is numbered part by part, each kind from 0 on; what a part imports has the number of what is
/// exported to it. Contracts see the parts. No reader takes memory.
#[derive(Drop)]
pub struct LinkedSet<'a> {
    pub(crate) parts: Vec<Part<'a>>,
    pub(crate) numbers: Vec<Numbers>,
    pub(crate) owners: Vec<(u32, u32)>,
    pub(crate) blocks: Vec<BlockMap>,
}

impl<'a> Model for LinkedSet<'a> {
    ghost use Rattle.std.specs.Prelude.{List};
    ghost use Rattle.ctw_link.specs.declared.set.Part.{Part};
    ghost use Rattle.ctw_link.specs.Linked.{AreLinked};

    ghost Value = { List Part };

    ghost view = { λ s. s.parts.items };

    ghost invariant = { λ s. AreLinked s.parts.items s.numbers.items s.owners.items s.blocks.items };
}

impl<'a> LinkedSet<'a> {
    /// The parts in the order in which they were linked. They match, and each is valid and within the limits of files.
    pub fn parts(&self) -> &[Part<'a>]
        ensures value { result.now ≡ self.now }
        ensures linked { CanBeLinked self.now }
        ensures matching { AreMatching (set_of self.now) }
        ensures limits { AllWithinLimits (set_of self.now) }
    {
        &self.parts
    }

    /// The number in the store of a part's function, imported ones counted first.
    pub fn func(&self, part: u32, index: u32) -> u32
        requires { HasFunction self.now part index }
        ensures number { number_in (set_of self.now) Func part index ≡ Some result }
        ensures there { result < defined Func (set_of self.now) }
    {
        self.numbers[part as usize].functions[index as usize]
    }

    /// The number in the store of a part's global, imported ones counted first.
    pub fn global_of(&self, part: u32, index: u32) -> u32
        requires { HasGlobal self.now part index }
        ensures number { number_in (set_of self.now) Global part index ≡ Some result }
        ensures there { result < defined Global (set_of self.now) }
    {
        self.numbers[part as usize].globals[index as usize]
    }

    /// The number in the store of a part's memory; None exactly where the part has none.
    pub fn memory_of(&self, part: u32) -> Option<u32>
        requires { part < length self.now }
        ensures number { result ≡ number_in (set_of self.now) Memory part 0 }
        ensures there { IfSome result (λ number. number < defined Memory (set_of self.now)) }
        ensures known { (p : Part) → IsPart self.now part p
            → (IsSome result ↔ IsSome (memory_among (tree p.«module»).imports (tree p.«module»).memory)) }
    {
        self.numbers[part as usize].memories.first().copied()
    }

    /// The number in the store of a part's table; None exactly where the part has none.
    pub fn table_of(&self, part: u32) -> Option<u32>
        requires { part < length self.now }
        ensures number { result ≡ number_in (set_of self.now) Table part 0 }
        ensures there { IfSome result (λ number. number < defined Table (set_of self.now)) }
        ensures known { (p : Part) → IsPart self.now part p
            → (IsSome result ↔ IsSome (table_among (tree p.«module»).imports (tree p.«module»).table)) }
    {
        self.numbers[part as usize].tables.first().copied()
    }

    /// The part that defines a function of the store, and the function's index there, imported ones counted first.
    pub fn owner(&self, func: u32) -> (u32, u32)
        requires { func < defined Func (set_of self.now) }
        ensures owner { slice_get (owners (set_of self.now)) func ≡ Some (result.0, result.1) }
        ensures part { result.0 < length self.now }
        ensures defines { Defines self.now result.0 result.1 }
    {
        self.owners[func as usize]
    }

    /// Where the blocks of the body of a function of the store end.
    pub fn blocks(&self, func: u32) -> &BlockMap
        requires { func < defined Func (set_of self.now) }
        ensures { TellsEnds (code_in self.now func) (ends_in result.now) }
    {
        &self.blocks[func as usize]
    }
}
