//! The commands that say something of modules, and change no file.
ghost use Rattle.std.specs.Prelude.{◌≡◌, ◌≢◌, ◌≤◌, ◌<◌, ◌^◌, length, Some, Err};
ghost use Rattle.ctw_io.specs.Files.{Files};
ghost use Rattle.ctw_inputs.specs.declared.said.Stop.TheVariants.{ReadFault};
ghost use Rattle.ctw_inputs.specs.Inputs.{module_limit, modules_limit, load, load_modules};
ghost use Rattle.ctw_inputs.specs.Parts.{names, contents, bytes_in};
ghost use Rattle.ctw_inputs.specs.Settling.{SaysSo, HasReadCause};
ghost use Rattle.ctwasm_top.specs.Lines.{linked_line};
ghost use Rattle.ctwasm_top.specs.Answer.{checked, spelled, printed, stripped, matched};

use crate::lines::linked_line;
use ctw_inputs::{
    LoadedPart, MODULE_LIMIT, Said, Stop, link_parts, load_file, load_parts, read_module,
    read_valid,
};
use ctw_io::Shelf;
use ctw_ops::Profile;
use ctw_print::print;
use ctw_strip::strip;
use ctw_words::PartWords;
use ctw_write::canon;
use std::alloc::Global;

/// Whether a file's bytes spell a module that is valid under a profile.
fn checked(alloc: Global, profile: Profile, file: &str, bytes: &[u8]) -> Result<Said, Stop>
    requires { length bytes.now < 2 ^ 32 }
    ensures told { SaysSo result (checked profile file.now bytes.now) }
    ensures quiet { result ≢ Err ReadFault }
{
    read_valid(alloc, profile, file, bytes)?;
    Ok(Said::done(Vec::from_slice(alloc, b"ok\n")?))
}

/// The canonical bytes of the module that a file's bytes spell.
fn spelled(alloc: Global, file: &str, bytes: &[u8]) -> Result<Said, Stop>
    requires { length bytes.now < 2 ^ 32 }
    ensures told { SaysSo result (spelled file.now bytes.now) }
    ensures quiet { result ≢ Err ReadFault }
{
    let module = read_module(alloc, file, bytes)?;
    Ok(Said::done(canon(alloc, &module)?))
}

/// The text of the module that a file's bytes spell, which has to be valid under a profile.
fn printed(alloc: Global, profile: Profile, file: &str, bytes: &[u8]) -> Result<Said, Stop>
    requires { length bytes.now < 2 ^ 32 }
    ensures told { SaysSo result (printed profile file.now bytes.now) }
    ensures quiet { result ≢ Err ReadFault }
{
    let module = read_valid(alloc, profile, file, bytes)?;
    let text = print(alloc, &module)?;
    Ok(Said::done(text.into_bytes()))
}

/// The canonical bytes of the erased module, where a file's bytes spell a module that is valid under a profile.
fn stripped(alloc: Global, profile: Profile, file: &str, bytes: &[u8]) -> Result<Said, Stop>
    requires { length bytes.now < 2 ^ 32 }
    ensures told { SaysSo result (stripped profile file.now bytes.now) }
    ensures quiet { result ≢ Err ReadFault }
{
    let module = read_valid(alloc, profile, file, bytes)?;
    Ok(Said::done(strip(alloc, &module)?))
}

/// Whether the modules of loaded parts match.
fn matched(alloc: Global, profile: Profile, parts: &[LoadedPart]) -> Result<Said, Stop>
    requires some { 1 ≤ length parts.now }
    requires few { length parts.now ≤ 64 }
    requires within { bytes_in parts.now ≤ 134217728 }
    ensures told { SaysSo result (matched profile (names parts.now) (contents parts.now)) }
    ensures quiet { result ≢ Err ReadFault }
{
    let set = link_parts(alloc, profile, parts)?;
    Ok(Said::done(linked_line(alloc, set.parts().len())?))
}

/// `check M`: says `ok` where the file holds a module that is valid under a profile.
#[tactic(auto, unfolding(ctw_inputs::specs::Inputs::module_limit))]
pub fn check_file<F: Shelf>(
    alloc: Global,
    profile: Profile,
    file: &str,
    shelf: &mut F,
) -> Result<Said, Stop>
    ensures told { (files : Files) → F.files shelf.old ≡ Some files
        → SaysSo result (load files file.now module_limit (checked profile file.now)) }
    ensures unchanged { F.files shelf.new ≡ F.files shelf.old }
    ensures cause { HasReadCause (F.faults shelf.old) (F.faults shelf.new) result }
{
    let bytes = load_file(alloc, shelf, file, MODULE_LIMIT)?;
    checked(alloc, profile, file, &bytes)
}

/// `canon M`: says the canonical bytes of the file's module.
#[tactic(auto, unfolding(ctw_inputs::specs::Inputs::module_limit))]
pub fn canon_file<F: Shelf>(alloc: Global, file: &str, shelf: &mut F) -> Result<Said, Stop>
    ensures told { (files : Files) → F.files shelf.old ≡ Some files
        → SaysSo result (load files file.now module_limit (spelled file.now)) }
    ensures unchanged { F.files shelf.new ≡ F.files shelf.old }
    ensures cause { HasReadCause (F.faults shelf.old) (F.faults shelf.new) result }
{
    let bytes = load_file(alloc, shelf, file, MODULE_LIMIT)?;
    spelled(alloc, file, &bytes)
}

/// `text M`: says the text of the file's module, which has to be valid under a profile.
#[tactic(auto, unfolding(ctw_inputs::specs::Inputs::module_limit))]
pub fn text_file<F: Shelf>(
    alloc: Global,
    profile: Profile,
    file: &str,
    shelf: &mut F,
) -> Result<Said, Stop>
    ensures told { (files : Files) → F.files shelf.old ≡ Some files
        → SaysSo result (load files file.now module_limit (printed profile file.now)) }
    ensures unchanged { F.files shelf.new ≡ F.files shelf.old }
    ensures cause { HasReadCause (F.faults shelf.old) (F.faults shelf.new) result }
{
    let bytes = load_file(alloc, shelf, file, MODULE_LIMIT)?;
    printed(alloc, profile, file, &bytes)
}

/// `strip M`: says the canonical bytes of the erased module of the file's, which has to be valid under a profile.
#[tactic(auto, unfolding(ctw_inputs::specs::Inputs::module_limit))]
pub fn strip_file<F: Shelf>(
    alloc: Global,
    profile: Profile,
    file: &str,
    shelf: &mut F,
) -> Result<Said, Stop>
    ensures told { (files : Files) → F.files shelf.old ≡ Some files
        → SaysSo result (load files file.now module_limit (stripped profile file.now)) }
    ensures unchanged { F.files shelf.new ≡ F.files shelf.old }
    ensures cause { HasReadCause (F.faults shelf.old) (F.faults shelf.new) result }
{
    let bytes = load_file(alloc, shelf, file, MODULE_LIMIT)?;
    stripped(alloc, profile, file, &bytes)
}

/// `link NAME=M..`: says how many parts there are, where their modules are valid under a profile and match.
pub fn link_files<F: Shelf>(
    alloc: Global,
    profile: Profile,
    words: &PartWords,
    shelf: &mut F,
) -> Result<Said, Stop>
    ensures told { (files : Files) → F.files shelf.old ≡ Some files
        → SaysSo result (load_modules files modules_limit words.now (matched profile words.now)) }
    ensures unchanged { F.files shelf.new ≡ F.files shelf.old }
    ensures cause { HasReadCause (F.faults shelf.old) (F.faults shelf.new) result }
{
    let parts = words.parts(alloc)?;
    let loaded = load_parts(alloc, shelf, &parts)?;
    matched(alloc, profile, &loaded)
}
