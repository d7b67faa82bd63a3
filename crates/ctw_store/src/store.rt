ghost use Rattle.std.specs.Prelude.{[], true, false, ◌≡◌, ◌≢◌, ◌≤◌, ◌<◌, ◌+◌, ◌*◌, ◌^◌, length, replicate, All, OnOk, IfOk, IfErr, MatchResult, slice_get};
ghost use Rattle.ctw_ops.specs.Limits.{page_size, most_memory_pages, most_set_pages};
ghost use Rattle.ctw_semantics.specs.Stores.{Memory, Global as GlobalInstance, Table, Storage, fresh_memory, fresh_table, with_number, with_entry, pages, all_pages, most_pages_of};
ghost use Rattle.ctw_store.specs.Made.{AreMade, KeepsMade};
ghost use Rattle.ctw_store.specs.Answers.{IsAccess, Reads, Loads, Stores, Grows, new_global, with_new_memory, with_new_global, with_new_table};
ghost use Rattle.ctw_store.specs.Pages.{IsPage, all_bytes, made_in, AreMadeIn, KeepsMadeIn};
ghost use Rattle.ctw_store.specs.Held.{Writes, has_room};

use crate::fault::{OutOfBounds, StoreFault};
use crate::page::{Page, extend, is_inside, make_all, read, write};
use ctw_ops::{GlobalType, Limits, MemType};
use std::alloc::{AllocError, Global};
use std::marker::Model;

/// A memory: its type, and its pages.
#[derive(Drop)]
struct Paged {
    kind: MemType,
    pages: Vec<Page>,
}

/// A global: its type, and its number.
#[derive(Drop)]
struct Cell {
    kind: GlobalType,
    value: u64,
}

/// A table: its limits, and its entries.
#[derive(Drop)]
struct Entries {
    limits: Limits,
    entries: Vec<Option<u32>>,
}

/// Memories, globals and tables by their numbers, each kind from 0 on.
///
/// Contracts see the store that the meaning of running code speaks of (`storage`), and beside it which pages of the
/// memories are made (`made`). A page that isn't made reads as zeros and takes next to no memory.
#[derive(Drop)]
pub struct Store {
    alloc: Global,
    memories: Vec<Paged>,
    globals: Vec<Cell>,
    tables: Vec<Entries>,
    // The pages of all memories.
    total: u32,
}

impl Model for Store {
    ghost use Rattle.ctw_store.specs.Held.{Held, held_of, AreHeld};

    ghost Value = { Held };

    ghost view = { λ s. held_of s.memories.items s.globals.items s.tables.items };

    ghost invariant = { λ s. AreHeld s.memories.items s.total };
}

impl Store {
    /// A store without memories, globals and tables.
    pub fn new(alloc: Global) -> Store
        ensures { result.storage ≡ record { memories = []; globals = []; tables = [] } }
    {
        Store {
            alloc,
            memories: Vec::new(alloc),
            globals: Vec::new(alloc),
            tables: Vec::new(alloc),
            total: 0,
        }
    }

    /// Adds a memory of its least size, all zeros, and gives its number. Fewer than 2^32 memories stand before, and all
    /// memories together keep within 4,096 pages.
    ///
    /// The error is want of memory, and the store is then as before.
    #[tactic(auto, unfolding(ctw_ops::specs::Limits::most_set_pages))]
    pub fn add_memory(&mut self, t: MemType) -> Result<u32, AllocError>
        requires few { length self.old.storage.memories < 2 ^ 32 }
        requires room { all_pages self.old.storage.memories + t.limits.min ≤ most_set_pages }
        ensures answer { MatchResult result
            (λ n. (n ≡ length self.old.storage.memories)
            × (self.new.storage ≡ with_new_memory self.old.storage (fresh_memory t)))
            (λ _. self.new.storage ≡ self.old.storage) }
        ensures kept { KeepsMade self.old.made self.new.made }
    {
        let number = self.memories.len() as u32;
        let mut pages = Vec::new(self.alloc);
        extend(&mut pages, t.limits.min as usize)?;
        self.memories.push(Paged { kind: t, pages })?;
        self.total += t.limits.min;
        Ok(number)
    }

    /// Adds a global with its value, and gives its number. Fewer than 2^32 globals stand before.
    ///
    /// The error is want of memory, and the store is then as before.
    pub fn add_global(&mut self, t: GlobalType, value: u64) -> Result<u32, AllocError>
        requires { length self.old.storage.globals < 2 ^ 32 }
        ensures answer { MatchResult result
            (λ n. (n ≡ length self.old.storage.globals)
            × (self.new.storage ≡ with_new_global self.old.storage (new_global t value)))
            (λ _. self.new.storage ≡ self.old.storage) }
        ensures kept { KeepsMade self.old.made self.new.made }
    {
        let number = self.globals.len() as u32;
        self.globals.push(Cell { kind: t, value })?;
        Ok(number)
    }

    /// Adds a table of its least size, without functions, and gives its number. Fewer than 2^32 tables stand before.
    ///
    /// The error is want of memory, and the store is then as before.
    pub fn add_table(&mut self, t: Limits) -> Result<u32, AllocError>
        requires { length self.old.storage.tables < 2 ^ 32 }
        ensures answer { MatchResult result
            (λ n. (n ≡ length self.old.storage.tables)
            × (self.new.storage ≡ with_new_table self.old.storage (fresh_table t)))
            (λ _. self.new.storage ≡ self.old.storage) }
        ensures kept { KeepsMade self.old.made self.new.made }
    {
        let number = self.tables.len() as u32;
        let alloc = self.alloc;
        let entries = empty_entries(alloc, t.min as usize)?;
        self.tables.push(Entries { limits: t, entries })?;
        Ok(number)
    }

    /// Puts a function into an entry of a table that has this entry.
    pub fn set_entry(&mut self, table: u32, i: u32, f: u32)
        requires there { table < length self.old.storage.tables }
        requires inside { (t : Table) → slice_get self.old.storage.tables table ≡ Some t → i < length t.entries }
        ensures set { (t : Table) → slice_get self.old.storage.tables table ≡ Some t →
            self.new.storage ≡ with_entry self.old.storage table t i (Some f) }
        ensures kept { KeepsMade self.old.made self.new.made }
    {
        self.tables[table as usize].entries[i as usize] = Some(f);
    }

    /// The number that 1, 2, 4 or 8 bytes of a memory from a place on stand for, the lowest byte first.
    ///
    /// `OutOfBounds` exactly where they reach past the end of the memory.
    #[tactic(auto, unfolding(ctw_ops::specs::Limits::most_memory_pages))]
    pub fn load(&self, mem: u32, at: u64, bytes: u8) -> Result<u64, OutOfBounds>
        requires there { mem < length self.now.storage.memories }
        requires access { IsAccess bytes }
        ensures { (m : Memory) → slice_get self.now.storage.memories mem ≡ Some m → Loads m at bytes result }
    {
        read_inside(&self.memories[mem as usize].pages, at, bytes)
    }

    /// Writes the lowest 1, 2, 4 or 8 bytes of a number into a memory from a place on, the lowest byte first. The one
    /// or two pages that they lie in are made first, where they aren't made.
    ///
    /// `OutOfBounds` exactly where they reach past the end of the memory. `NoMemory` can come only where one of these
    /// pages isn't made. The store is as before on both.
    #[tactic(auto, unfolding(ctw_ops::specs::Limits::most_memory_pages))]
    pub fn store(&mut self, mem: u32, at: u64, bytes: u8, value: u64) -> Result<(), StoreFault>
        requires there { mem < length self.old.storage.memories }
        requires access { IsAccess bytes }
        ensures answer { (m : Memory) → slice_get self.old.storage.memories mem ≡ Some m →
            Stores self.old.storage mem m at bytes value result self.new.storage }
        ensures kept { KeepsMade self.old.made self.new.made }
        ensures ready { AreMade self.old.made mem at bytes → result ≢ Err StoreFault.NoMemory }
    {
        let alloc = self.alloc;
        write_inside(
            alloc,
            &mut self.memories[mem as usize].pages,
            at,
            bytes,
            value,
        )
    }

    /// Makes the pages of so many bytes of a memory from a place on, which don't reach past its end. A `store` into
    /// these bytes then never lacks memory. All bytes, globals and entries are as before, whatever the answer.
    ///
    /// The error is want of memory, which can come only where one of these pages isn't made.
    #[tactic(auto, unfolding(ctw_ops::specs::Limits::most_memory_pages))]
    pub fn make_ready(&mut self, mem: u32, at: u64, count: u32) -> Result<(), AllocError>
        requires there { mem < length self.old.storage.memories }
        requires inside { (m : Memory) → slice_get self.old.storage.memories mem ≡ Some m →
            at + count ≤ length m.bytes }
        ensures same { self.new.storage ≡ self.old.storage }
        ensures kept { KeepsMade self.old.made self.new.made }
        ensures made { OnOk result (AreMade self.new.made mem at count) }
        ensures ready { AreMade self.old.made mem at count → IfErr result (λ _. ⊥) }
    {
        let alloc = self.alloc;
        make_all(
            alloc,
            &mut self.memories[mem as usize].pages,
            at as usize,
            count as usize,
        )
    }

    /// Adds so many pages of zeros to a memory, and gives its size in pages before. No page is made.
    ///
    /// None exactly where the memory would pass its declared greatest size or 65,536 pages, or all memories together
    /// 4,096 pages. The error is want of memory. The store is as before on both.
    #[tactic(auto, unfolding(ctw_ops::specs::Limits::most_memory_pages, ctw_ops::specs::Limits::most_set_pages))]
    pub fn grow(&mut self, mem: u32, pages: u32) -> Result<Option<u32>, AllocError>
        requires there { mem < length self.old.storage.memories }
        ensures answer { (m : Memory) → slice_get self.old.storage.memories mem ≡ Some m →
            Grows self.old.storage mem m pages result self.new.storage }
        ensures kept { KeepsMade self.old.made self.new.made }
    {
        let memory = &self.memories[mem as usize];
        let before = memory.pages.len();
        if !may_add(before as u64, most(memory.kind), self.total, pages) {
            return Ok(None);
        }
        extend(&mut self.memories[mem as usize].pages, pages as usize)?;
        self.total += pages;
        Ok(Some(before as u32))
    }

    /// A memory's size in pages, and a memory is whole pages.
    #[tactic(auto, unfolding(ctw_ops::specs::Limits::most_memory_pages))]
    pub fn size(&self, mem: u32) -> u32
        requires { mem < length self.now.storage.memories }
        ensures size { (m : Memory) → slice_get self.now.storage.memories mem ≡ Some m → result ≡ pages m }
        ensures whole { (m : Memory) → slice_get self.now.storage.memories mem ≡ Some m →
            length m.bytes ≡ page_size * result }
    {
        self.memories[mem as usize].pages.len() as u32
    }

    /// A global's number.
    pub fn global(&self, g: u32) -> u64
        requires { g < length self.now.storage.globals }
        ensures { (x : GlobalInstance) → slice_get self.now.storage.globals g ≡ Some x → result ≡ x.value.number }
    {
        self.globals[g as usize].value
    }

    /// Sets a global's number.
    pub fn set_global(&mut self, g: u32, value: u64)
        requires { g < length self.old.storage.globals }
        ensures set { (x : GlobalInstance) → slice_get self.old.storage.globals g ≡ Some x →
            self.new.storage ≡ with_number self.old.storage g x value }
        ensures kept { KeepsMade self.old.made self.new.made }
    {
        self.globals[g as usize].value = value;
    }

    /// An entry of a table: the number of a function, or None where it is empty. None exactly past the table's end.
    pub fn entry(&self, table: u32, i: u32) -> Option<Option<u32>>
        requires { table < length self.now.storage.tables }
        ensures { (t : Table) → slice_get self.now.storage.tables table ≡ Some t → result ≡ slice_get t.entries i }
    {
        self.tables[table as usize].entries.get(i as usize).copied()
    }
}

// So many entries without functions.
fn empty_entries(alloc: Global, count: usize) -> Result<Vec<Option<u32>>, AllocError>
    ensures { IfOk result (λ v. v.items ≡ replicate count None) }
{
    let mut entries = Vec::new(alloc);
    entries.resize(count, None)?;
    Ok(entries)
}

// The greatest size that a memory may have by its declaration.
#[tactic(auto, unfolding(ctw_ops::specs::Limits::most_memory_pages))]
fn most(kind: MemType) -> u64
    ensures value { result ≡ most_pages_of kind }
    ensures below { result < 2 ^ 32 }
{
    match kind.limits.max {
        Some(max) => max as u64,
        None => 65_536,
    }
}

// Whether a memory of so many pages may have so many more.
#[tactic(auto, using(crate::proofs::Holding::room_tests), unfolding(ctw_ops::specs::Limits::most_memory_pages, ctw_ops::specs::Limits::most_set_pages))]
fn may_add(length: u64, most: u64, total: u32, count: u32) -> bool
    requires { length ≤ most_memory_pages }
    ensures { result ≡ has_room length most total count }
{
    let wanted = length + count as u64;
    if wanted > most {
        return false;
    }
    if wanted > 65_536 {
        return false;
    }
    total as u64 + count as u64 <= 4_096
}

// The number that so many bytes stand for.
#[inline(always)]
fn read_inside(pages: &[Page], at: u64, bytes: u8) -> Result<u64, OutOfBounds>
    requires whole { All IsPage pages.now }
    requires short { length pages.now ≤ 65536 }
    requires access { IsAccess bytes }
    ensures { Reads (all_bytes pages.now) at bytes result }
{
    if !is_inside(pages, at, bytes as u64) {
        return Err(OutOfBounds);
    }
    Ok(read(pages, at as usize, bytes))
}

// Writes so many bytes of a number.
#[inline(always)]
fn write_inside(
    alloc: Global,
    pages: &mut [Page],
    at: u64,
    bytes: u8,
    value: u64,
) -> Result<(), StoreFault>
    requires whole { All IsPage pages.old }
    requires short { length pages.old ≤ 65536 }
    requires access { IsAccess bytes }
    ensures whole { All IsPage pages.new }
    ensures kept { KeepsMadeIn (made_in pages.old) (made_in pages.new) }
    ensures written { Writes (all_bytes pages.old) at bytes value result (all_bytes pages.new) }
    ensures ready { AreMadeIn (made_in pages.old) at bytes → result ≢ Err StoreFault.NoMemory }
{
    if !is_inside(pages, at, bytes as u64) {
        return Err(StoreFault::OutOfBounds);
    }
    match write(alloc, pages, at as usize, bytes, value) {
        Ok(()) => Ok(()),
        Err(AllocError) => Err(StoreFault::NoMemory),
    }
}
