// Shelves that stand in memory, for tests and proofs.
ghost use Rattle.std.specs.Prelude.{◌≡◌, ◌↔◌, ◌+◌, Some, IfOk, IfErr, OnOk, OnErr, IsErrOf, Contains};
ghost use Rattle.std.specs.Option.{option_copied};
ghost use Rattle.std.specs.FinMap.{get, insert};
ghost use Rattle.ctw_io.specs.declared.Fault.TheVariants.{Failed, NoMemory};
ghost use Rattle.ctw_io.specs.Files.{IsLoadOf, IsWithin};
ghost use Rattle.ctw_io.specs.Faults.{HasCause, next_count, faults_after};
ghost use Rattle.ctw_io.specs.Held.{files_of, NamesDiffer};

use super::{Fault, Loaded, Shelf};
use crate::kept::Kept;
use crate::plan::Plan;
use std::alloc::Global;
use std::marker::Model;

/// A shelf in memory whose calls fail where they are told to.
///
/// Contracts see its files by name, the numbers of the calls that are to fail, how many calls there were, loads and
/// saves together, and how many of them failed. A save that fails leaves the file as it was.
#[derive(Drop)]
pub struct MemShelf {
    kept: Kept,
    plan: Plan,
}

impl Model for MemShelf {
    ghost use Rattle.ctw_io.specs.Held.{MemFiles, mem_files_code};

    ghost Value = { MemFiles };

    ghost coded = { mem_files_code };

    ghost view = { λ shelf.
        record {
          files = shelf.kept;
          fails = shelf.plan.fails.items;
          calls = shelf.plan.calls;
          faults = shelf.plan.faults;
        } };
}

impl MemShelf {
    /// A shelf of these files, whose calls of these numbers fail, counted from 1. It takes no memory.
    ///
    /// `alloc` is for the files that are saved later.
    pub fn new(alloc: Global, files: Vec<(String, Vec<u8>)>, fails: Vec<u64>) -> MemShelf
        requires { NamesDiffer files.items }
        ensures { result ≡ record { files = files_of files.items; fails = fails.items; calls = 0; faults = 0 } }
    {
        let plan = Plan {
            fails,
            calls: 0,
            faults: 0,
        };
        MemShelf {
            kept: Kept::new(alloc, files),
            plan,
        }
    }

    /// The content of the file of this name; None exactly where no file has it.
    pub fn file(&self, name: &str) -> Option<&[u8]>
        ensures { option_copied result ≡ get self.now.files name.now }
    {
        self.kept.get(name)
    }
}

impl Shelf for MemShelf {
    ghost files = { λ shelf. Some shelf.files };

    ghost faults = { λ shelf. shelf.faults };

    fn load(&mut self, alloc: Global, name: &str, limit: u64) -> Result<Loaded, Fault>
        ensures content { IfOk result (λ loaded. IsLoadOf (get self.old.files name.now) limit loaded) }
        ensures within { IfOk result (λ loaded. IsWithin limit loaded) }
        ensures failed { IsErrOf result Failed ↔ Contains self.old.fails (self.old.calls + 1) }
        ensures calls { self.new.calls ≡ next_count self.old.calls }
        ensures faults { self.new.faults ≡ faults_after self.old.faults result }
        ensures cause { HasCause self.old.faults self.new.faults result }
        ensures unchanged { (self.new.files ≡ self.old.files) × (self.new.fails ≡ self.old.fails) }
    {
        if self.plan.count_call() {
            Err(Fault::Failed)
        } else {
            self.kept.load(alloc, name, limit)
        }
    }

    fn save(&mut self, name: &str, bytes: &[u8]) -> Result<(), Fault>
        ensures saved { OnOk result (self.new.files ≡ insert self.old.files name.now bytes.now) }
        ensures kept { OnErr result (self.new.files ≡ self.old.files) }
        ensures failed { IsErrOf result Failed ↔ Contains self.old.fails (self.old.calls + 1) }
        ensures calls { self.new.calls ≡ next_count self.old.calls }
        ensures faults { self.new.faults ≡ faults_after self.old.faults result }
        ensures cause { HasCause self.old.faults self.new.faults result }
        ensures unchanged { self.new.fails ≡ self.old.fails }
    {
        if self.plan.count_call() {
            return Err(Fault::Failed);
        }
        self.kept.save(name, bytes)
    }
}

/// A shelf in memory that doesn't fail: `NoMemory` is its only fault.
///
/// Contracts see its files by name.
#[derive(Drop)]
pub struct SureShelf {
    kept: Kept,
}

impl Model for SureShelf {
    ghost use Rattle.ctw_io.specs.Held.{SureFiles, sure_files_code};

    ghost Value = { SureFiles };

    ghost coded = { sure_files_code };

    ghost view = { λ shelf. record { files = shelf.kept } };
}

impl SureShelf {
    /// A shelf of these files. It takes no memory.
    ///
    /// `alloc` is for the files that are saved later.
    pub fn new(alloc: Global, files: Vec<(String, Vec<u8>)>) -> SureShelf
        requires { NamesDiffer files.items }
        ensures { result ≡ record { files = files_of files.items } }
    {
        SureShelf {
            kept: Kept::new(alloc, files),
        }
    }

    /// The content of the file of this name; None exactly where no file has it.
    pub fn file(&self, name: &str) -> Option<&[u8]>
        ensures { option_copied result ≡ get self.now.files name.now }
    {
        self.kept.get(name)
    }
}

impl Shelf for SureShelf {
    ghost files = { λ shelf. Some shelf.files };

    ghost faults = { λ shelf. 0 };

    fn load(&mut self, alloc: Global, name: &str, limit: u64) -> Result<Loaded, Fault>
        ensures content { IfOk result (λ loaded. IsLoadOf (get self.old.files name.now) limit loaded) }
        ensures within { IfOk result (λ loaded. IsWithin limit loaded) }
        ensures memory { IfErr result (λ fault. fault ≡ NoMemory) }
        ensures unchanged { self.new ≡ self.old }
    {
        self.kept.load(alloc, name, limit)
    }

    fn save(&mut self, name: &str, bytes: &[u8]) -> Result<(), Fault>
        ensures saved { OnOk result (self.new.files ≡ insert self.old.files name.now bytes.now) }
        ensures kept { OnErr result (self.new ≡ self.old) }
        ensures memory { IfErr result (λ fault. fault ≡ NoMemory) }
    {
        self.kept.save(name, bytes)
    }
}
