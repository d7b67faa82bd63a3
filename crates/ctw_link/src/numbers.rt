ghost use Rattle.std.specs.Prelude.{◌≡◌, ◌+◌, ◌<◌, ◌++◌, ◌∷◌, ◌^◌, [], length, take, OnOk};
ghost use Rattle.std.specs.List.{range_with_len};
ghost use Rattle.ctw_ops.specs.declared.types.ExternTag.{ExternTag as Tag};
ghost use Rattle.ctw_ops.specs.Tree.{imported_functions, imported_globals};
ghost use Rattle.ctw_module.specs.Trees.{tree};
ghost use Rattle.ctw_link.specs.Sets.{set_of, one_or_none};
ghost use Rattle.ctw_link.specs.Numbers.{numbers_of};
ghost use Rattle.ctw_link.specs.Linked.{CanBeLinked};
ghost use Rattle.ctw_link.specs.Resolving.{if_same, no_numbers, AreNumbered, HasImports};

use crate::set::Part;
use ctw_module::Module;
use ctw_ops::ExternTag;
use std::alloc::{AllocError, Global};
use std::marker::Model;

/// For each index of a part the number in the store that it leads to, by kinds.
#[derive(Drop)]
pub struct Numbers {
    pub functions: Vec<u32>,
    pub tables: Vec<u32>,
    pub memories: Vec<u32>,
    pub globals: Vec<u32>,
}

impl Model for Numbers {
    ghost use Rattle.ctw_link.specs.Numbers.{StoreNumbers};

    ghost Value = { StoreNumbers };

    ghost view = { λ n.
        record {
          functions = n.functions.items;
          tables = n.tables.items;
          memories = n.memories.items;
          globals = n.globals.items;
        } };
}

impl Numbers {
    /// None of any kind.
    pub fn new(alloc: Global) -> Numbers
        ensures { result ≡ no_numbers }
    {
        Numbers {
            functions: Vec::new(alloc),
            tables: Vec::new(alloc),
            memories: Vec::new(alloc),
            globals: Vec::new(alloc),
        }
    }

    /// Those of a kind.
    pub fn of(&self, tag: ExternTag) -> &[u32]
        ensures { result.now ≡ numbers_of tag self.now }
    {
        match tag {
            ExternTag::Func => &self.functions,
            ExternTag::Table => &self.tables,
            ExternTag::Memory => &self.memories,
            ExternTag::Global => &self.globals,
        }
    }

    /// Adds a number to those of a kind.
    pub fn push(&mut self, tag: ExternTag, number: u32) -> Result<(), AllocError>
        ensures { OnOk result ((t : Tag)
            → numbers_of t self.new ≡ numbers_of t self.old ++ if_same t tag (number ∷ [])) }
    {
        match tag {
            ExternTag::Func => self.functions.push(number)?,
            ExternTag::Table => self.tables.push(number)?,
            ExternTag::Memory => self.memories.push(number)?,
            ExternTag::Global => self.globals.push(number)?,
        }
        Ok(())
    }

    /// Adds so many numbers to those of a kind, from one on.
    pub fn push_from(&mut self, tag: ExternTag, first: u32, count: u32) -> Result<(), AllocError>
        requires { first + count < 2 ^ 32 }
        ensures { OnOk result ((t : Tag)
            → numbers_of t self.new ≡ numbers_of t self.old ++ if_same t tag (range_with_len first count)) }
    {
        'numbers: for number in first..first + count {
            self.push(tag, number)?;
        }
        Ok(())
    }
}

/// The numbers of parts, and how many things of each kind these define.
#[derive(Drop)]
pub struct Numbering {
    pub parts: Vec<Numbers>,
    pub functions: u32,
    pub tables: u32,
    pub memories: u32,
    pub globals: u32,
}

impl Numbering {
    /// That of no parts.
    pub fn new(alloc: Global) -> Numbering
        ensures { AreNumbered [] result }
    {
        Numbering {
            parts: Vec::new(alloc),
            functions: 0,
            tables: 0,
            memories: 0,
            globals: 0,
        }
    }

    /// Adds the next part, whose imports have these numbers: what it defines takes the next numbers of each kind.
    pub fn add(&mut self, parts: &[Part], part: u32, mut numbers: Numbers) -> Result<(), AllocError>
        requires parts { CanBeLinked parts.now }
        requires there { part < length parts.now }
        requires before { AreNumbered (take part (set_of parts.now)) self.old }
        requires imports { HasImports (set_of parts.now) part numbers }
        ensures { OnOk result (AreNumbered (take (part + 1) (set_of parts.now)) self.new) }
    {
        let m = &parts[part as usize].module;
        let functions = defined_functions(m, numbers.of(ExternTag::Func).len());
        let tables = defined_tables(m);
        let memories = defined_memories(m);
        let globals = defined_globals(m, numbers.of(ExternTag::Global).len());
        numbers.push_from(ExternTag::Func, self.functions, functions)?;
        numbers.push_from(ExternTag::Table, self.tables, tables)?;
        numbers.push_from(ExternTag::Memory, self.memories, memories)?;
        numbers.push_from(ExternTag::Global, self.globals, globals)?;
        self.parts.push(numbers)?;
        self.functions += functions;
        self.tables += tables;
        self.memories += memories;
        self.globals += globals;
        Ok(())
    }
}

/// How many functions a module defines that imports so many.
fn defined_functions(m: &Module, imported: usize) -> u32
    requires { imported ≡ length (imported_functions (tree m.now).imports) }
    ensures { result ≡ length (tree m.now).functions }
{
    m.func_count() - imported as u32
}

/// How many globals a module defines that imports so many.
fn defined_globals(m: &Module, imported: usize) -> u32
    requires { imported ≡ length (imported_globals (tree m.now).imports) }
    ensures { result ≡ length (tree m.now).globals }
{
    m.global_count() - imported as u32
}

/// How many tables a module defines.
fn defined_tables(m: &Module) -> u32
    ensures { result ≡ one_or_none (tree m.now).table }
{
    u32::from(m.defined_table().is_some())
}

/// How many memories a module defines.
fn defined_memories(m: &Module) -> u32
    ensures { result ≡ one_or_none (tree m.now).memory }
{
    u32::from(m.defined_memory().is_some())
}
