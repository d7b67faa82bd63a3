ghost use Rattle.std.specs.Prelude.{◌≡◌, ◌≢◌, map, Some, IfOk, IfErr, IsOkUnless};
ghost use Rattle.ctw_link.specs.declared.fault.LinkFault.TheVariants.{NoMemory};
ghost use Rattle.ctw_link.specs.Sets.{set_of};
ghost use Rattle.ctw_link.specs.Matching.{AreMatching};
ghost use Rattle.ctw_link.specs.Faults.{set_fault};
ghost use Rattle.ctw_link.specs.Linked.{CanBeLinked};
ghost use Rattle.ctw_link.specs.Numbers.{linked};
ghost use Rattle.ctw_ops.specs.FirstFault.{FindsFault};

use crate::bodies::{blocks_of, owners_of};
use crate::fault::LinkFault;
use crate::names::names_of;
use crate::numbers::Numbering;
use crate::resolve::resolve;
use crate::set::{LinkedSet, Part};
use crate::sizes::{check_entries, check_pages};
use crate::tables::check_tables;
use std::alloc::Global;

/// Links parts in this order (W3C WebAssembly Core 1.0, section 4.5, with the labels and trust of CT-Wasm): each import
/// is met by an export of an earlier part whose type, by that part's own declaration, matches.
///
/// There are one to 64 parts, each valid, which together define fewer than 2^32 functions and fewer than 2^32 globals.
///
/// Where the parts don't match, the answer is the first fault: `DoubleName` over all parts; then part by part and
/// import by import `NoImport` before `ImportType`; then `TableMix` of the least table; then `TooManyPages` above
/// 4,096, and `TooManyEntries` above 1,000,000. `NoMemory` comes for want of memory alone. Whatever the answer,
/// the parts are taken.
/// Takes linear time but for the ordered maps of names and of types.
pub fn link<'a>(alloc: Global, parts: Vec<Part<'a>>) -> Result<LinkedSet<'a>, LinkFault<'a>>
    requires { CanBeLinked parts.items }
    ensures parts { IfOk result (λ set. set ≡ parts.entry.items) }
    ensures sound { IfOk result (λ set. AreMatching (set_of parts.entry.items)) }
    ensures complete { AreMatching (set_of parts.entry.items) → IsOkUnless result NoMemory }
    ensures fault { IfErr result (λ e. e ≢ NoMemory → set_fault (set_of parts.entry.items) ≡ Some e) }
{
    let numbering = match_parts(alloc, &parts)?;
    let owners = owners_of(alloc, &parts)?;
    let blocks = blocks_of(alloc, &parts)?;
    Ok(LinkedSet {
        parts,
        numbers: numbering.parts,
        owners,
        blocks,
    })
}

/// The store numbers of parts that match. Else their first fault.
fn match_parts<'a>(alloc: Global, parts: &[Part<'a>]) -> Result<Numbering, LinkFault<'a>>
    requires { CanBeLinked parts.now }
    ensures fault { FindsFault NoMemory result (set_fault (set_of parts.now)) }
    ensures numbers { IfOk result (λ n. n.parts.items ≡ map (λ p. p.numbers) (linked (set_of parts.now))) }
{
    let names = names_of(alloc, parts)?;
    let numbering = resolve(alloc, parts, &names)?;
    check_tables(alloc, parts, &numbering.parts, numbering.tables)?;
    check_pages(parts)?;
    check_entries(parts)?;
    Ok(numbering)
}
