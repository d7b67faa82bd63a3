ghost use Rattle.std.specs.Prelude.{◌≡◌, ◌<◌, [], length, map, take, slice_get, Some, IfOk};
ghost use Rattle.ctw_ops.specs.declared.types.Label.{Label};
ghost use Rattle.ctw_ops.specs.declared.types.ExternTag.TheVariants.{Table};
ghost use Rattle.ctw_ops.specs.Tree.{Import};
ghost use Rattle.ctw_link.specs.Sets.{NamedModule, set_of, defined};
ghost use Rattle.ctw_link.specs.Numbers.{import_number as number_of, linked, tag_of};
ghost use Rattle.ctw_link.specs.Faults.{import_fault, imports_fault_from, imports_fault};
ghost use Rattle.ctw_link.specs.Linked.{CanBeLinked};
ghost use Rattle.ctw_link.specs.Told.{TellsParts};
ghost use Rattle.ctw_ops.specs.FirstFault.{FindsFault};
ghost use Rattle.ctw_link.specs.declared.fault.LinkFault.TheVariants.{NoMemory};
ghost use Rattle.ctw_link.specs.Resolving.{HasImports, IsImport};

use crate::externals::meets;
use crate::fault::LinkFault;
use crate::numbers::{Numbering, Numbers};
use crate::offers::offered;
use crate::set::Part;
use ctw_ops::ExternTag;
use std::alloc::Global;
use std::collections::BTreeMap;

/// The store numbers of all parts. Else the first import that isn't met.
pub fn resolve<'a>(
    alloc: Global,
    parts: &[Part<'a>],
    names: &BTreeMap<&str, u32>,
) -> Result<Numbering, LinkFault<'a>>
    requires parts { CanBeLinked parts.now }
    requires names { TellsParts parts.now names.now }
    ensures fault { FindsFault NoMemory result (imports_fault [] (set_of parts.now)) }
    ensures numbers { IfOk result (λ n. n.parts.items ≡ map (λ p. p.numbers) (linked (set_of parts.now))) }
    ensures tables { IfOk result (λ n. n.tables ≡ defined Table (set_of parts.now)) }
{
    let mut numbering = Numbering::new(alloc);
    'parts: for part in 0..parts.len() as u32 {
        let numbers = import_numbers(alloc, parts, names, &numbering.parts, part)?;
        numbering.add(parts, part, numbers)?;
    }
    Ok(numbering)
}

/// The numbers of a part's imports, in their order. Else the first of them that isn't met.
fn import_numbers<'a>(
    alloc: Global,
    parts: &[Part<'a>],
    names: &BTreeMap<&str, u32>,
    before: &[Numbers],
    part: u32,
) -> Result<Numbers, LinkFault<'a>>
    requires parts { CanBeLinked parts.now }
    requires names { TellsParts parts.now names.now }
    requires before { before.now ≡ map (λ p. p.numbers) (linked (take part (set_of parts.now))) }
    requires there { part < length parts.now }
    ensures fault { (p : NamedModule) → slice_get (set_of parts.now) part ≡ Some p
        → FindsFault NoMemory result (imports_fault_from (take part (set_of parts.now)) p.tree 0 p.tree.imports) }
    ensures numbers { IfOk result (HasImports (set_of parts.now) part) }
{
    let count = parts[part as usize].module.import_count();
    let mut numbers = Numbers::new(alloc);
    'imports: for import in 0..count {
        let (tag, number) = import_number(parts, names, before, part, import)?;
        numbers.push(tag, number)?;
    }
    Ok(numbers)
}

/// The kind and the number of an import of a part. Else that it isn't met.
fn import_number<'a>(
    parts: &[Part<'a>],
    names: &BTreeMap<&str, u32>,
    before: &[Numbers],
    part: u32,
    import: u32,
) -> Result<(ExternTag, u32), LinkFault<'a>>
    requires parts { CanBeLinked parts.now }
    requires names { TellsParts parts.now names.now }
    requires before { before.now ≡ map (λ p. p.numbers) (linked (take part (set_of parts.now))) }
    requires there { (p : NamedModule) × (i : Import Label) × IsImport (set_of parts.now) part import p i }
    ensures fault { (p : NamedModule) (i : Import Label) → IsImport (set_of parts.now) part import p i
        → FindsFault NoMemory result (import_fault (take part (set_of parts.now)) p.tree import i) }
    ensures number { (p : NamedModule) (i : Import Label) → IsImport (set_of parts.now) part import p i
        → IfOk result (λ found. (found.0 ≡ tag_of i.kind)
        × (found.1 ≡ number_of (linked (take part (set_of parts.now))) i)) }
{
    let wanted = parts[part as usize].module.import(import);
    let Some(offer) = offered(parts, names, part, &wanted) else {
        return Err(LinkFault::NoImport { part, import });
    };
    if !meets(&offer.ty, &wanted.kind) {
        return Err(LinkFault::ImportType {
            part,
            import,
            want: wanted.kind,
            got: offer.ty,
        });
    }
    let numbers = before[offer.part as usize].of(offer.tag);
    Ok((offer.tag, numbers[offer.index as usize]))
}
