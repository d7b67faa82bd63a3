//! Files that are loaded.
ghost use Rattle.std.specs.Prelude.{◌≡◌, ◌≤◌, length, Some, IfOk};
ghost use Rattle.ctw_io.specs.Files.{Files};
ghost use Rattle.ctw_inputs.specs.Inputs.{load};
ghost use Rattle.ctw_inputs.specs.Settling.{Settles, HasReadCause};

use crate::said::{Stop, refuse};
use ctw_io::{Fault, Loaded, Shelf};
use ctw_lines::refusal_line;
use std::alloc::Global;

/// The greatest size of a module's file, in bytes.
pub const MODULE_LIMIT: u64 = 67_108_864;

/// The greatest size of a script, in bytes.
pub const SCRIPT_LIMIT: u64 = 1_048_576;

/// The greatest size of a text of marks, in bytes.
pub const MARKS_LIMIT: u64 = 1_048_576;

/// The greatest size of a vault, in bytes.
pub const VAULT_LIMIT: u64 = 16_777_216;

/// Loads a file of at most so many bytes.
///
/// It is refused as missing exactly where there is no such file, and as too large exactly where it has more bytes.
/// `ReadFault` comes only where the shelf's count of faults rose.
pub fn load_file<F: Shelf>(
    alloc: Global,
    shelf: &mut F,
    name: &str,
    limit: u64,
) -> Result<Vec<u8>, Stop>
    ensures told { (files : Files) → F.files shelf.old ≡ Some files
        → Settles (λ bytes. bytes.items) result (load files name.now limit) }
    ensures within { IfOk result (λ bytes. length bytes.items ≤ limit) }
    ensures unchanged { F.files shelf.new ≡ F.files shelf.old }
    ensures cause { HasReadCause (F.faults shelf.old) (F.faults shelf.new) result }
{
    match shelf.load(alloc, name, limit) {
        Ok(Loaded::Whole(bytes)) => Ok(bytes),
        Ok(Loaded::More) => Err(refuse(refusal_line(alloc, "TooLarge", name))),
        Ok(Loaded::Missing) => Err(refuse(refusal_line(alloc, "Missing", name))),
        Err(Fault::Failed) => Err(Stop::ReadFault),
        Err(Fault::NoMemory) => Err(Stop::NoMemory),
    }
}
