ghost use Rattle.std.specs.Prelude.{◌≡◌, ◌≢◌, ◌≤◌, length, IfErr};
ghost use Rattle.ctw_ops.specs.Valid.{IsValid};
ghost use Rattle.ctw_module.specs.Trees.{tree, view_module};
ghost use Rattle.ctw_link.specs.declared.fault.LinkFault.TheVariants.{NoMemory};
ghost use Rattle.ctw_link.specs.Sets.{set_of};
ghost use Rattle.ctw_link.specs.Matching.{pages_of, entries_of, pages, entries};
ghost use Rattle.ctw_link.specs.Faults.{pages_fault, entries_fault};
ghost use Rattle.ctw_link.specs.Linked.{CanBeLinked};
ghost use Rattle.ctw_ops.specs.FirstFault.{FindsFault};

use crate::fault::LinkFault;
use crate::set::Part;
use ctw_module::Module;

/// The pages that the memories of a set may begin with together.
const MOST_PAGES: u32 = 4096;

/// The entries that the tables of a set may begin with together.
const MOST_ENTRIES: u64 = 1_000_000;

/// How many pages the memory begins with that a module defines; 0 where it defines none.
fn pages_in(m: &Module) -> u32
    requires { IsValid (view_module m.now) }
    ensures pages { result ≡ pages_of (tree m.now).memory }
    ensures few { result ≤ 65536 }
{
    match m.defined_memory() {
        Some(memory) => memory.limits.min,
        None => 0,
    }
}

/// How many entries the table begins with that a module defines; 0 where it defines none.
fn entries_in(m: &Module) -> u32
    ensures { result ≡ entries_of (tree m.now).table }
{
    match m.defined_table() {
        Some(limits) => limits.min,
        None => 0,
    }
}

/// The pages that the defined memories begin with together.
fn pages_of_all(parts: &[Part]) -> u32
    requires { CanBeLinked parts.now }
    ensures { result ≡ pages (set_of parts.now) }
{
    let mut sum: u32 = 0;
    'parts: for part in parts {
        sum += pages_in(&part.module);
    }
    sum
}

/// The entries that the defined tables begin with together.
fn entries_of_all(parts: &[Part]) -> u64
    requires { length parts.now ≤ 64 }
    ensures { result ≡ entries (set_of parts.now) }
{
    let mut sum: u64 = 0;
    'parts: for part in parts {
        sum += u64::from(entries_in(&part.module));
    }
    sum
}

/// That the defined memories begin with at most 4,096 pages together.
pub fn check_pages<'a>(parts: &[Part<'a>]) -> Result<(), LinkFault<'a>>
    requires { CanBeLinked parts.now }
    ensures fault { FindsFault NoMemory result (pages_fault (set_of parts.now)) }
    ensures memory { IfErr result (λ e. e ≢ NoMemory) }
{
    let pages = pages_of_all(parts);
    if pages > MOST_PAGES {
        return Err(LinkFault::TooManyPages { pages });
    }
    Ok(())
}

/// That the defined tables begin with at most 1,000,000 entries together.
pub fn check_entries<'a>(parts: &[Part<'a>]) -> Result<(), LinkFault<'a>>
    requires { CanBeLinked parts.now }
    ensures fault { FindsFault NoMemory result (entries_fault (set_of parts.now)) }
    ensures memory { IfErr result (λ e. e ≢ NoMemory) }
{
    let entries = entries_of_all(parts);
    if entries > MOST_ENTRIES {
        return Err(LinkFault::TooManyEntries { entries });
    }
    Ok(())
}
