ghost use Rattle.std.specs.Prelude.{◌≡◌, ◌≤◌, ℕ, List, [], length, IfOk};
ghost use Rattle.ctw_link.specs.Sets.{set_of};
ghost use Rattle.ctw_link.specs.Faults.{names_fault};
ghost use Rattle.ctw_link.specs.Told.{TellsParts};
ghost use Rattle.ctw_ops.specs.FirstFault.{FindsFault};
ghost use Rattle.ctw_link.specs.declared.fault.LinkFault.TheVariants.{NoMemory};

use crate::fault::LinkFault;
use crate::set::Part;
use std::alloc::Global;
use std::collections::BTreeMap;

/// The parts by their names, which differ. Else the first part that has an earlier part's name.
pub fn names_of<'p, 'a>(
    alloc: Global,
    parts: &'p [Part<'a>],
) -> Result<BTreeMap<&'p str, u32>, LinkFault<'a>>
    requires few { length parts.now ≤ 64 }
    ensures fault { FindsFault NoMemory result (names_fault [] (set_of parts.now)) }
    ensures names { IfOk result (TellsParts parts.now) }
{
    let mut names = BTreeMap::new(alloc);
    'parts: for i in 0..parts.len() {
        let name = parts[i].name.as_str();
        if names.get(name).is_some() {
            return Err(LinkFault::DoubleName { part: i as u32 });
        }
        names.insert(name, i as u32)?;
    }
    Ok(names)
}
