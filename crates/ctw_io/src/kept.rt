// The files of the shelves that stand in memory.
ghost use Rattle.std.specs.Prelude.{◌≡◌, ℕ, List, MatchOption, None, OnOk, OnErr, IfErr, IfOk};
ghost use Rattle.std.specs.FinMap.{get, insert, find};
ghost use Rattle.std.specs.Option.{option_copied};
ghost use Rattle.std.specs.Ordering.{nat_cmp};
ghost use Rattle.std.specs.Cmp.Lexicographic.{slice_cmp};
ghost use Rattle.ctw_io.specs.Files.{IsLoadOf};
ghost use Rattle.ctw_io.specs.Held.{file_entries, files_of, IsPlaceOf};

use super::{Fault, Loaded};
use std::alloc::{AllocError, Global};
use std::marker::Model;

/// Files in memory, which contracts see as a map from name to content.
#[derive(Drop)]
pub(crate) struct Kept {
    alloc: Global,
    files: Vec<(String, Vec<u8>)>,
}

impl Model for Kept {
    ghost use Rattle.ctw_io.specs.Files.{Files};
    ghost use Rattle.ctw_io.specs.Held.{files_of, files_code};

    ghost Value = { Files };

    ghost coded = { files_code };

    ghost view = { λ kept. files_of kept.files.items };
}

impl Kept {
    /// The files of this list; of two with one name the first counts.
    pub(crate) fn new(alloc: Global, files: Vec<(String, Vec<u8>)>) -> Kept
        ensures { result ≡ files_of files.items }
    {
        Kept { alloc, files }
    }

    /// The content of the file of this name.
    pub(crate) fn get(&self, name: &str) -> Option<&[u8]>
        ensures { option_copied result ≡ get self.now name.now }
    {
        let place = place_of(&self.files, name)?;
        let (_, content) = &self.files[place];
        Some(content.as_slice())
    }

    /// Makes these bytes the content of the file of this name. `NoMemory` is the only error, and leaves the files.
    pub(crate) fn save(&mut self, name: &str, bytes: &[u8]) -> Result<(), Fault>
        ensures saved { OnOk result (self.new ≡ insert self.old name.now bytes.now) }
        ensures kept { OnErr result (self.new ≡ self.old) }
        ensures memory { IfErr result (λ fault. fault ≡ Fault.NoMemory) }
    {
        match self.put(name, bytes) {
            Ok(()) => Ok(()),
            Err(_) => Err(Fault::NoMemory),
        }
    }

    /// As `save`.
    fn put(&mut self, name: &str, bytes: &[u8]) -> Result<(), AllocError>
        ensures ok { OnOk result (self.new ≡ insert self.old name.now bytes.now) }
        ensures err { OnErr result (self.new ≡ self.old) }
    {
        let content = Vec::from_slice(self.alloc, bytes)?;
        if let Some(place) = place_of(&self.files, name) {
            let file = &mut self.files[place];
            file.1 = content;
            return Ok(());
        }
        let name = String::from_str(self.alloc, name)?;
        self.files.push((name, content))?;
        Ok(())
    }

    /// What a load of the file of this name gives. `NoMemory` is the only error.
    pub(crate) fn load(&self, alloc: Global, name: &str, limit: u64) -> Result<Loaded, Fault>
        ensures content { IfOk result (λ loaded. IsLoadOf (get self.now name.now) limit loaded) }
        ensures memory { IfErr result (λ fault. fault ≡ Fault.NoMemory) }
    {
        let Some(content) = self.get(name) else {
            return Ok(Loaded::Missing);
        };
        if content.len() as u64 > limit {
            return Ok(Loaded::More);
        }
        match Vec::from_slice(alloc, content) {
            Ok(bytes) => Ok(Loaded::Whole(bytes)),
            Err(_) => Err(Fault::NoMemory),
        }
    }
}

/// The place of the first file of this name.
fn place_of(files: &[(String, Vec<u8>)], name: &str) -> Option<usize>
    ensures { MatchOption result (find (slice_cmp nat_cmp) name.now (file_entries files.now) ≡ None)
        (IsPlaceOf files.now name.now) }
{
    let mut place = 0;
    while place < files.len() {
        if files[place].0.as_str() == name {
            return Some(place);
        }
        place += 1;
    }
    None
}
