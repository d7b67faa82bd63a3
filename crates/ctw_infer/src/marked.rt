// The sites that are marked, and those that have to be public.
ghost use Rattle.std.specs.Prelude.{◌≡◌, ◌<◌, ◌↔◌, ◌⊎◌, ℕ, true, false, length, All, Contains, Some, IfOk};
ghost use Rattle.ctw_ops.specs.declared.types.Label.TheVariants.{Public};
ghost use Rattle.ctw_least.specs.Flows.{IsMarked};
ghost use Rattle.ctw_links.specs.Collected.{must_at};
ghost use Rattle.ctw_least.specs.Marked.{marks_on};

use ctw_links::Links;
use ctw_marks::Marks;
use ctw_ops::Label;
use ctw_sites::Sites;
use std::alloc::{AllocError, Global};

/// Whether two labels are the same.
fn is_same(own: Label, label: Label) -> bool
    ensures yes { result ≡ true → own ≡ label }
    ensures no { result ≡ false → own ≡ label → ⊥ }
{
    match own {
        Label::Public => match label {
            Label::Public => true,
            Label::Secret => false,
        },
        Label::Secret => match label {
            Label::Public => false,
            Label::Secret => true,
        },
    }
}

/// The sites of the marks of a label.
pub fn marked(alloc: Global, s: &Sites, marks: &Marks, label: Label) -> Result<Vec<u32>, AllocError>
    ensures marked { IfOk result (λ found. (n : ℕ) →
        Contains found.items n ↔ IsMarked (marks_on s.now marks.now.labels) n label) }
    ensures below { IfOk result (λ found. All (λ n. n < length s.now) found.items) }
{
    let mut found = Vec::new(alloc);
    'marks: for i in 0..marks.count() {
        let (name, own) = marks.mark(i);
        if !is_same(own, label) {
            continue;
        }
        let Some(site) = s.site_of(name) else {
            continue;
        };
        found.push(site)?;
    }
    Ok(found)
}

/// The sites that have to be public, by a rule or by a mark.
pub fn ends(alloc: Global, s: &Sites, links: &Links, marks: &Marks) -> Result<Vec<u32>, AllocError>
    requires { length links.now.musts ≡ length s.now }
    ensures ends { IfOk result (λ found. (n : ℕ) → Contains found.items n
        ↔ (((r : ℕ) × (must_at links.now.musts n ≡ Some r))
        ⊎ IsMarked (marks_on s.now marks.now.labels) n Public)) }
    ensures below { IfOk result (λ found. All (λ n. n < length s.now) found.items) }
{
    let mut found = marked(alloc, s, marks, Label::Public)?;
    'sites: for site in 0..s.count() {
        if links.must(site).is_none() {
            continue;
        }
        found.push(site)?;
    }
    Ok(found)
}
