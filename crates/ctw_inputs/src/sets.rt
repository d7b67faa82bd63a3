//! Parts that are read, checked and linked.
ghost use Rattle.std.specs.Prelude.{◌≡◌, ◌≤◌, ◌<◌, ◌^◌, length, IfOk, ◌≢◌, Err, IfErr};
ghost use Rattle.ctw_link.specs.Sets.{set_of};
ghost use Rattle.ctw_link.specs.Linked.{CanBeLinked, IsValidPart};
ghost use Rattle.ctw_form.specs.Spelled.{Spells};
ghost use Rattle.ctw_module.specs.Trees.{tree, view_module};
ghost use Rattle.ctw_inputs.specs.Inputs.{read_valid as reads_valid, read_parts as reads_parts, match, linked};
ghost use Rattle.ctw_inputs.specs.Parts.{names, contents, bytes_in, AreNamed};
ghost use Rattle.ctw_inputs.specs.declared.said.Stop.TheVariants.{ReadFault};
ghost use Rattle.ctw_inputs.specs.Settling.{IsRefusal, Settles};

use crate::modules::read_valid;
use crate::parts::LoadedPart;
use crate::said::{Stop, refuse};
use crate::set_lines::link_line;
use ctw_link::{LinkFault, LinkedSet, Part, link};
use ctw_ops::{Name, Profile};
use std::alloc::Global;

/// Reads and checks the module of a loaded part, under a profile.
fn read_part<'b>(alloc: Global, profile: Profile, part: &'b LoadedPart) -> Result<Part<'b>, Stop>
    requires { length part.now.bytes.items < 2 ^ 32 }
    ensures quiet { result ≢ Err ReadFault }
    ensures refuses { IfErr result IsRefusal }
    ensures told { Settles (λ p. view_module p.«module») result (reads_valid profile part.now.part.file.now part.now.bytes.items) }
    ensures named { IfOk result (λ p. p.name ≡ part.now.part.name.now) }
    ensures valid { IfOk result IsValidPart }
    ensures spelled { IfOk result (λ p. Spells part.now.bytes.items (tree p.«module»)) }
{
    let module = read_valid(alloc, profile, part.part.file, &part.bytes)?;
    let name = String::from_str(alloc, part.part.name)?;
    Ok(Part {
        name: Name::new(name),
        module,
    })
}

/// Reads and checks the modules of loaded parts in order, under a profile.
fn read_parts<'b>(
    alloc: Global,
    profile: Profile,
    parts: &'b [LoadedPart],
) -> Result<Vec<Part<'b>>, Stop>
    requires some { 1 ≤ length parts.now }
    requires few { length parts.now ≤ 64 }
    requires within { bytes_in parts.now ≤ 134217728 }
    ensures quiet { result ≢ Err ReadFault }
    ensures refuses { IfErr result IsRefusal }
    ensures told { Settles (λ modules. set_of modules.items) result (reads_parts profile (names parts.now) (contents parts.now)) }
    ensures named { IfOk result (λ modules. AreNamed (set_of modules.items) parts.now) }
    ensures linkable { IfOk result (λ modules. CanBeLinked modules.items) }
{
    let mut modules = Vec::new(alloc);
    'parts: for part in parts {
        modules.push(read_part(alloc, profile, part)?)?;
    }
    Ok(modules)
}

/// Links modules of parts, or refuses their first fault as a set.
fn link_modules<'b>(
    alloc: Global,
    parts: &[LoadedPart],
    modules: Vec<Part<'b>>,
) -> Result<LinkedSet<'b>, Stop>
    requires linkable { CanBeLinked modules.items }
    requires named { AreNamed (set_of modules.items) parts.now }
    ensures quiet { result ≢ Err ReadFault }
    ensures refuses { IfErr result IsRefusal }
    ensures told { Settles set_of result (λ go. match (set_of modules.entry.items) (go (set_of modules.entry.items))) }
    ensures named { IfOk result (λ set. AreNamed (set_of set) parts.now) }
{
    match link(alloc, modules) {
        Ok(set) => Ok(set),
        Err(LinkFault::NoMemory) => Err(Stop::NoMemory),
        Err(fault) => Err(refuse(link_line(alloc, parts, &fault))),
    }
}

/// Reads, checks and links loaded parts, under a profile. The first fault is refused: part by part of reading and of
/// checking, and then of the set.
pub fn link_parts<'b>(
    alloc: Global,
    profile: Profile,
    parts: &'b [LoadedPart],
) -> Result<LinkedSet<'b>, Stop>
    requires some { 1 ≤ length parts.now }
    requires few { length parts.now ≤ 64 }
    requires within { bytes_in parts.now ≤ 134217728 }
    ensures told { Settles set_of result (linked profile (names parts.now) (contents parts.now)) }
    ensures quiet { result ≢ Err ReadFault }
    ensures refuses { IfErr result IsRefusal }
    ensures named { IfOk result (λ set. AreNamed (set_of set) parts.now) }
{
    let modules = read_parts(alloc, profile, parts)?;
    link_modules(alloc, parts, modules)
}
