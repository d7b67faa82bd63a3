//! What the program reads from and writes to: a shelf of files and a sink for text.
#![tactic(auto)]

ghost use Rattle.std.specs.Prelude.{◌≡◌, ◌≤◌, ◌<◌, ℕ, List, length, take, Option, Some, IfOk, OnOk, OnErr, IsOk, IsErrOf};
ghost use Rattle.std.specs.FinMap.{get, insert};
ghost use Rattle.ctw_io.specs.declared.Fault.TheVariants.{Failed, NoMemory};
ghost use Rattle.ctw_io.specs.Files.{Files, IsLoadOf, IsWithin, IsHalfSaved};
ghost use Rattle.ctw_io.specs.Faults.{Rose, HasCause};
ghost use Rattle.ctw_io.specs.Taken.{grown, TookPrefix};

mod kept;
mod plan;
mod shelves;
mod sinks;
mod system;

pub use shelves::{MemShelf, SureShelf};
pub use sinks::{MemSink, SureSink};
use std::alloc::Global;
pub use system::{DirShelf, OutSink};

/// Why a call on a shelf or a sink gave no answer.
#[derive(Clone, Copy, Debug, PartialEq, Eq)]
pub enum Fault {
    /// Reading, writing or saving failed; the object's count of faults rose.
    Failed,
    /// Memory was wanting; nothing changed.
    NoMemory,
}

/// What a load gives.
#[derive(Drop)]
pub enum Loaded {
    /// The file's bytes, at most as many as the limit.
    Whole(Vec<u8>),
    /// The file is longer than the limit.
    More,
    /// There is no such file.
    Missing,
}

/// Files that are loaded and saved by name.
pub trait Shelf {
    /// The files by name, where the shelf tells them.
    ghost files: { Self → Option Files };

    /// How often a call has failed; it never falls.
    ghost faults: { Self → ℕ };

    /// Loads the file of this name, where it has at most `limit` bytes.
    ///
    /// `Failed` says that reading failed, and `NoMemory` that memory was wanting. A load changes no file.
    fn load(&mut self, alloc: Global, name: &str, limit: u64) -> Result<Loaded, Fault>
        ensures content { (told : Files) → files self.old ≡ Some told
            → IfOk result (λ loaded. IsLoadOf (get told name.now) limit loaded) }
        ensures within { IfOk result (λ loaded. IsWithin limit loaded) }
        ensures unchanged { files self.new ≡ files self.old }
        ensures cause { HasCause (faults self.old) (faults self.new) result };

    /// Makes these bytes the content of the file of this name.
    ///
    /// After `Failed` the file is as before or holds a prefix of the bytes, and after `NoMemory` it is as before.
    /// Other files stay as they are.
    fn save(&mut self, name: &str, bytes: &[u8]) -> Result<(), Fault>
        ensures saved { (told : Files) → files self.old ≡ Some told
            → OnOk result (files self.new ≡ Some (insert told name.now bytes.now)) }
        ensures failed { (told : Files) → files self.old ≡ Some told → IsErrOf result Failed
            → IsHalfSaved told name.now bytes.now (files self.new) }
        ensures memory { IsErrOf result NoMemory → files self.new ≡ files self.old }
        ensures cause { HasCause (faults self.old) (faults self.new) result };
}

/// A place that takes bytes.
pub trait Sink {
    /// The bytes that were taken so far, where the sink tells them.
    ghost taken: { Self → Option (List ℕ) };

    /// How often a call has failed; it never falls.
    ghost faults: { Self → ℕ };

    /// Takes the first bytes of the piece, and tells how many: at least one, where the piece has one.
    ///
    /// After `Failed` or `NoMemory` nothing was taken.
    fn write(&mut self, piece: &[u8]) -> Result<usize, Fault>
        ensures within { IfOk result (λ count. count ≤ length piece.now) }
        ensures some { 0 < length piece.now → IfOk result (λ count. 0 < count) }
        ensures taken { IfOk result (λ count. taken self.new ≡ grown (taken self.old) (take count piece.now)) }
        ensures unchanged { OnErr result (taken self.new ≡ taken self.old) }
        ensures cause { HasCause (faults self.old) (faults self.new) result };
}

/// Writes all bytes, in as many pieces as the sink wants; no call is made for empty bytes.
///
/// `Failed` comes only where the sink's count of faults rose. After it or `NoMemory` a prefix was taken.
pub fn send<K: Sink>(out: &mut K, bytes: &[u8]) -> Result<(), Fault>
    ensures ok { OnOk result (K.taken out.new ≡ grown (K.taken out.old) bytes.now) }
    ensures err { OnErr result (TookPrefix (K.taken out.old) (K.taken out.new) bytes.now) }
    ensures kept { K.faults out.old ≤ K.faults out.new }
    ensures failed { IsErrOf result Failed → Rose (K.faults out.old) (K.faults out.new) }
    ensures empty { length bytes.now ≡ 0
        → IsOk result × (K.taken out.new ≡ K.taken out.old) × (K.faults out.new ≡ K.faults out.old) }
{
    let mut at = 0;
    while at < bytes.len() {
        match out.write(&bytes[at..]) {
            Ok(count) => at += count,
            Err(fault) => return Err(fault),
        }
    }
    Ok(())
}
