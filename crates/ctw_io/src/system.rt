// Files of the working directory, and standard output.
//
// No contract can say what the system's files hold or what its output takes, so these two tell no content. What they
// read and write is trusted, and tried by one test each.
ghost use Rattle.std.specs.Prelude.{◌≡◌, ◌≤◌, None, IfOk};
ghost use Rattle.ctw_io.specs.Files.{IsWithin};
ghost use Rattle.ctw_io.specs.Faults.{Rose};

use super::{Fault, Loaded, Shelf, Sink};
use crate::plan::count_up;
use std::alloc::Global;
use std::fs::OpenFile;
use std::io::{ErrorKind, Read};
use std::rt::Files;
use std::{fs, io};

/// The files of the working directory. It tells no content, and counts the calls that failed.
#[derive(Drop)]
pub struct DirShelf<R: Files> {
    system: R,
    faults: u64,
}

impl<R: Files> DirShelf<R> {
    /// The shelf of this runtime's files, which may be lent, as `DirShelf::new(&rt)`.
    pub fn new(system: R) -> DirShelf<R>
        ensures { ⟦<DirShelf<R> as Shelf>⟧.faults result ≡ 0 }
    {
        DirShelf { system, faults: 0 }
    }
}

impl<R: Files> Shelf for DirShelf<R> {
    ghost files = { λ shelf. None };

    ghost faults = { λ shelf. shelf.faults };

    /// It reads no more than one byte past the limit. `Missing` says that the system finds no such file; a folder
    /// fails, and so does a path through a file.
    fn load(&mut self, alloc: Global, name: &str, limit: u64) -> Result<Loaded, Fault> {
        match read_file(&self.system, alloc, name, limit) {
            Ok(loaded) => Ok(loaded),
            Err(error) if error.kind() == ErrorKind::OutOfMemory => Err(Fault::NoMemory),
            Err(_) => Err(counted_fault(&mut self.faults)),
        }
    }

    /// It makes the file, or empties it first where there is one.
    fn save(&mut self, name: &str, bytes: &[u8]) -> Result<(), Fault> {
        match fs::write(&self.system, name, bytes) {
            Ok(()) => Ok(()),
            Err(_) => Err(counted_fault(&mut self.faults)),
        }
    }
}

/// Standard output. It tells no content, and counts the calls that failed.
///
/// Nothing is kept back: what a call took has been handed to the system.
#[derive(Drop)]
pub struct OutSink<P: Print> {
    system: P,
    faults: u64,
}

impl<P: Print> OutSink<P> {
    /// The sink of this runtime's standard output, which may be lent, as `OutSink::new(&rt)`.
    pub fn new(system: P) -> OutSink<P>
        ensures { ⟦<OutSink<P> as Sink>⟧.faults result ≡ 0 }
    {
        OutSink { system, faults: 0 }
    }
}

impl<P: Print> Sink for OutSink<P> {
    ghost taken = { λ sink. None };

    ghost faults = { λ sink. sink.faults };

    /// A write of which the system took nothing has failed.
    fn write(&mut self, piece: &[u8]) -> Result<usize, Fault> {
        match self.system.write_some(piece) {
            Ok(count) if count > 0 || piece.is_empty() => Ok(count),
            _ => Err(counted_fault(&mut self.faults)),
        }
    }
}

/// What the file of this name holds, of which no more than one byte past the limit is read.
fn read_file<R: Files>(system: &R, alloc: Global, name: &str, limit: u64) -> io::Result<Loaded>
    ensures { IfOk result (λ loaded. IsWithin limit loaded) }
{
    let file = match fs::open(system, name) {
        Ok(file) => file,
        Err(error) if error.kind() == ErrorKind::NotFound => return Ok(Loaded::Missing),
        Err(error) => return Err(error),
    };
    let room = file.metadata()?.len().min(limit).saturating_add(1);
    let mut bytes = Vec::with_capacity(alloc, room as usize)?;
    let mut reader = file.take(limit.saturating_add(1));
    reader.read_to_end(&mut bytes)?;
    if bytes.len() as u64 > limit {
        return Ok(Loaded::More);
    }
    Ok(Loaded::Whole(bytes))
}

/// The fault of a call that failed, which is counted.
fn counted_fault(faults: &mut u64) -> Fault
    ensures fault { result ≡ Fault.Failed }
    ensures rose { Rose faults.old faults.new }
    ensures grows { faults.old ≤ faults.new }
{
    count_up(faults);
    Fault::Failed
}
