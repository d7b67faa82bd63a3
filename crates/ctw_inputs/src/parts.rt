//! Parts whose files are loaded.
ghost use Rattle.std.specs.Prelude.{◌≡◌, ◌≤◌, map, length, Some, IfOk};
ghost use Rattle.ctw_io.specs.Files.{Files};
ghost use Rattle.ctw_inputs.specs.Inputs.{load_modules, modules_limit};
ghost use Rattle.ctw_inputs.specs.Parts.{part_named, contents, bytes_in};
ghost use Rattle.ctw_inputs.specs.Settling.{Settles, HasReadCause};

use crate::loading::{MODULE_LIMIT, load_file};
use crate::said::Stop;
use ctw_io::Shelf;
use std::alloc::Global;

/// The greatest size of all modules' files of a command together, in bytes.
const MODULES_LIMIT: u64 = 134_217_728;

/// A part's name, and the file of its module.
#[derive(Clone, Copy, Debug, PartialEq, Eq)]
pub struct PartFile<'a> {
    /// The name.
    pub name: &'a str,
    /// The file.
    pub file: &'a str,
}

/// A part, and the bytes of its file.
#[derive(Drop)]
pub struct LoadedPart<'a> {
    /// Its name and file.
    pub part: PartFile<'a>,
    /// The file's bytes.
    pub bytes: Vec<u8>,
}

/// Loads the files of parts in order. Each is refused where it is missing, or too large for a module or for what is left
/// of 134,217,728 bytes.
pub fn load_parts<'a, F: Shelf>(
    alloc: Global,
    shelf: &mut F,
    parts: &[PartFile<'a>],
) -> Result<Vec<LoadedPart<'a>>, Stop>
    ensures told { (files : Files) → F.files shelf.old ≡ Some files
        → Settles (λ loaded. contents loaded.items) result (load_modules files modules_limit (map part_named parts.now)) }
    ensures parts { IfOk result (λ loaded. map (λ p. p.part) loaded.items ≡ parts.now) }
    ensures within { IfOk result (λ loaded. bytes_in loaded.items ≤ 134217728) }
    ensures unchanged { F.files shelf.new ≡ F.files shelf.old }
    ensures cause { HasReadCause (F.faults shelf.old) (F.faults shelf.new) result }
{
    let mut loaded = Vec::new(alloc);
    let mut left = MODULES_LIMIT;
    'parts: for part in parts {
        let bytes = load_file(alloc, shelf, part.file, MODULE_LIMIT.min(left))?;
        left -= bytes.len() as u64;
        loaded.push(LoadedPart { part: *part, bytes })?;
    }
    Ok(loaded)
}
