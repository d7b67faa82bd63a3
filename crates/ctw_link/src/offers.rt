ghost use Rattle.std.specs.Prelude.{◌≡◌, IfSome, option_map, take};
ghost use Rattle.std.specs.Ordering.{nat_cmp};
ghost use Rattle.std.specs.Cmp.Lexicographic.{slice_cmp};
ghost use Rattle.std.specs.BTreeMap.{get_by};
ghost use Rattle.ctw_module.specs.Given.{extern_type, import_given};
ghost use Rattle.ctw_link.specs.Sets.{set_of};
ghost use Rattle.ctw_link.specs.Externals.{offered_by};
ghost use Rattle.ctw_link.specs.Linked.{CanBeLinked};
ghost use Rattle.ctw_link.specs.Told.{TellsParts};
ghost use Rattle.ctw_link.specs.Resolving.{IsOffer, below};

use crate::externals::declared;
use crate::set::Part;
use ctw_module::{ExternKind, Import};
use ctw_ops::ExternTag;
use std::collections::BTreeMap;

/// What a part exports.
#[derive(Drop)]
pub struct Offer<'a> {
    /// The part.
    pub part: u32,
    /// The kind of the thing.
    pub tag: ExternTag,
    /// Its index in the part.
    pub index: u32,
    /// The type that the part declares of it.
    pub ty: ExternKind<'a>,
}

/// What one of the parts before a part exports under the names of an import; None where none does.
pub fn offered<'a>(
    parts: &[Part<'a>],
    names: &BTreeMap<&str, u32>,
    before: u32,
    import: &Import,
) -> Option<Offer<'a>>
    requires parts { CanBeLinked parts.now }
    requires names { TellsParts parts.now names.now }
    ensures ty { option_map (λ o. extern_type o.ty) result
        ≡ offered_by (take before (set_of parts.now)) (import_given import.now) }
    ensures offer { IfSome result (IsOffer (take before (set_of parts.now)) (import_given import.now)) }
{
    let part = part_named(names, before, import.module)?;
    let m = &parts[part as usize].module;
    let (tag, index) = m.export_named(import.name)?;
    let ty = declared(m, tag, index)?;
    Some(Offer {
        part,
        tag,
        index,
        ty,
    })
}

/// The first part of a name, if it is below a bound.
fn part_named(names: &BTreeMap<&str, u32>, bound: u32, name: &str) -> Option<u32>
    ensures { result ≡ below bound (get_by (λ key. slice_cmp nat_cmp name.now key.now) names.now) }
{
    let part = *names.get(name)?;
    (part < bound).then_some(part)
}
